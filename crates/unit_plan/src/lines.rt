ghost use Rattle.std.specs.Prelude.{◌≡◌, ◌≢◌, ℕ, ◌<◌, ◌≤◌, length, slice_index};
ghost use Rattle.unit_plan.specs.Lines.{IsCut, lines_of, words_of};
ghost use Rattle.unit_plan.specs.Field.{items_of};

use std::marker::Model;

/// The place of the first `mark`, or the number of octets where there is none.
fn place_of(octets: &[u8], mark: u8) -> usize
    ensures within { result ≤ length octets.now }
    ensures before { (k : ℕ) → k < result → slice_index octets.now k ≢ mark }
    ensures found { result < length octets.now → slice_index octets.now result ≡ mark }
{
    for (at, octet) in octets.iter().enumerate() {
        if *octet == mark {
            return at;
        }
    }
    octets.len()
}

/// What stands before the first `mark`, and what stands after it where there is one.
fn cut(octets: &[u8], mark: u8) -> (&[u8], Option<&[u8]>)
    ensures { IsCut mark octets.now result.0.now result.1 }
{
    let end = place_of(octets, mark);
    if end == octets.len() {
        return (octets, None);
    }
    (&octets[..end], Some(&octets[end + 1..]))
}

/// The lines of a text that are left. Each ends with a line feed, which the last one may lack.
#[derive(Drop)]
pub struct Lines<'a> {
    rest: &'a [u8],
}

impl<'a> Model for Lines<'a> {
    ghost use Rattle.std.specs.Prelude.{List, ℕ};
    ghost use Rattle.unit_plan.specs.Lines.{lines_of};

    ghost Value = { List (List ℕ) };

    ghost view = { λ lines. lines_of lines.rest.now };
}

impl<'a> Lines<'a> {
    pub fn of(text: &'a [u8]) -> Lines<'a>
        ensures { result ≡ lines_of text.now }
    {
        Lines { rest: text }
    }
}

impl<'a> Iterator for Lines<'a> {
    type Item = &'a [u8];

    ghost use Rattle.std.specs.Iterator.{YieldsFirstBy, item_count};

    ghost next_gives = { YieldsFirstBy (λ line. line.now) (λ lines. lines) };

    ghost remaining = { item_count (λ lines. lines) };

    fn next(&mut self) -> Option<&'a [u8]> {
        if self.rest.is_empty() {
            return None;
        }
        let (line, rest) = cut(self.rest, b'\n');
        self.rest = rest.unwrap_or(&[]);
        Some(line)
    }
}

/// The words of a line that are left. One space stands between two words.
#[derive(Drop)]
pub struct Words<'a> {
    rest: Option<&'a [u8]>,
}

impl<'a> Model for Words<'a> {
    ghost use Rattle.std.specs.Prelude.{List, ℕ};
    ghost use Rattle.unit_plan.specs.Lines.{words_left};

    ghost Value = { List (List ℕ) };

    ghost view = { λ words. words_left words.rest };
}

impl<'a> Words<'a> {
    pub fn of(line: &'a [u8]) -> Words<'a>
        ensures { result ≡ words_of line.now }
    {
        Words { rest: Some(line) }
    }
}

impl<'a> Iterator for Words<'a> {
    type Item = &'a [u8];

    ghost use Rattle.std.specs.Iterator.{YieldsFirstBy, item_count};

    ghost next_gives = { YieldsFirstBy (λ word. word.now) (λ words. words) };

    ghost remaining = { item_count (λ words. words) };

    fn next(&mut self) -> Option<&'a [u8]> {
        let (word, rest) = cut(self.rest?, b' ');
        self.rest = rest;
        Some(word)
    }
}

/// The items of a list that are left. One comma stands between two items.
#[derive(Drop)]
pub(crate) struct Items<'a> {
    rest: Option<&'a [u8]>,
}

impl<'a> Model for Items<'a> {
    ghost use Rattle.std.specs.Prelude.{List, ℕ};
    ghost use Rattle.unit_plan.specs.Field.{items_left};

    ghost Value = { List (List ℕ) };

    ghost view = { λ list. items_left list.rest };
}

impl<'a> Items<'a> {
    pub(crate) fn of(word: &'a [u8]) -> Items<'a>
        ensures { result ≡ items_of word.now }
    {
        Items { rest: Some(word) }
    }
}

impl<'a> Iterator for Items<'a> {
    type Item = &'a [u8];

    ghost use Rattle.std.specs.Iterator.{YieldsFirstBy, item_count};

    ghost next_gives = { YieldsFirstBy (λ item. item.now) (λ list. list) };

    ghost remaining = { item_count (λ list. list) };

    fn next(&mut self) -> Option<&'a [u8]> {
        let (item, rest) = cut(self.rest?, b',');
        self.rest = rest;
        Some(item)
    }
}
