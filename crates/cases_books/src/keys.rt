//! Steps on a key book. `held ID SPI ..` says which associations hold which keys, for the steps behind it. Calls of the
//! book have functions of their own, mostly without a clause: what the clauses of several say together takes long to
//! prove.
ghost use Rattle.std.specs.Prelude.{◌≡◌, IfOk, IfSome, All, length};

use crate::{Changed, write_change};
use case_lines::{Digits, Page, Words, decoded, key, key_state, number, short, spi};
use key_book::{KeyBook, KeyRefusal, KeyRow, digest, rows_may_follow};
use sdls_base::{KeyId, KeyItem, KeyList, NoMemory, Octets, Spi};
use std::alloc::{AllocError, Global};

/// A key book, and the keys that associations hold.
#[derive(Drop)]
pub struct KeyTable {
    book: KeyBook,
    held: Vec<(KeyId, Spi)>,
}

/// A key of 16 octets, of which the first ones are given and the others are 0: `ID FIRST`.
fn item(alloc: Global, words: &mut Words<'_>) -> Option<KeyItem>
    ensures { IfSome result (λ item. length item.bytes ≡ 16) }
{
    let id = key(words)?;
    let mut octets = decoded(alloc, words.next()?).ok()?;
    octets.resize(16, 0).ok()?;
    Some(KeyItem {
        id,
        bytes: Octets::new(octets),
    })
}

/// The keys of the words.
fn items(alloc: Global, words: &mut Words<'_>) -> Result<Vec<KeyItem>, AllocError>
    ensures { IfOk result (λ items. All (λ item. length item.bytes ≡ 16) items.items) }
{
    let mut items = Vec::new(alloc);
    for _ in 0..8 {
        if let Some(item) = item(alloc, words) {
            items.push(item)?;
        }
    }
    Ok(items)
}

/// Loads at most eight keys: `ID FIRST ID FIRST ..`.
fn load(alloc: Global, book: &mut KeyBook, words: &mut Words<'_>) -> Result<(), KeyRefusal> {
    let items = items(alloc, words)?;
    book.load(&items)
}

/// Loads the keys 1 to the number of the words, one at a time. A key's first octets are its identifier.
fn load_many(alloc: Global, book: &mut KeyBook, words: &mut Words<'_>) -> Result<(), KeyRefusal> {
    for number in 1..=short(words).unwrap_or(0) {
        let line = format!(in alloc; "{number} {number:04x}")?;
        load(alloc, book, &mut line.as_str().split_whitespace())?;
    }
    Ok(())
}

/// The identifiers of the words.
fn ids(alloc: Global, words: &mut Words<'_>) -> Result<KeyList, AllocError> {
    let mut ids = Vec::new(alloc);
    for word in words {
        if let Some(id) = key(&mut word.split_whitespace()) {
            ids.push(id)?;
        }
    }
    Ok(KeyList::new(ids))
}

/// Raises the floor of a key, if the conditions hold.
fn raise_floor(book: &mut KeyBook, id: KeyId, floor: u64) {
    if book.mark(id).is_some() && floor < id.end() {
        book.raise_floor(id, floor);
    }
}

/// The key of the words: `ID`. Sets its mark and floor, or raises them by the word `raise`, if the conditions hold: `ID
/// MARK FLOOR`. By the word `marks` these stay as they are.
fn move_marks(book: &mut KeyBook, word: &str, words: &mut Words<'_>) -> Option<KeyId> {
    let id = key(words)?;
    if word == "marks" {
        return Some(id);
    }
    let (mark, floor) = (number(words)?, number(words)?);
    if book.mark(id).is_none() || mark < 1 || mark > id.end() || floor >= id.end() {
        return None;
    }
    if word == "raise" {
        book.raise_mark(id, mark);
        raise_floor(book, id, floor);
    } else {
        book.set_marks(id, mark, floor);
    }
    Some(id)
}

/// Whether two rows say the same.
fn same_row(one: &KeyRow, other: &KeyRow) -> bool {
    (one.id, one.state, one.mark, one.floor) == (other.id, other.state, other.mark, other.floor)
        && one.bytes.as_slice() == other.bytes.as_slice()
        && one.digest == other.digest
}

/// Whether two books have the same rows.
fn same_rows(one: &KeyBook, other: &KeyBook) -> bool {
    let (ones, others) = (one.rows(), other.rows());
    ones.len() == others.len() && ones.iter().zip(others).all(|(a, b)| same_row(a, b))
}

/// The rows put into an empty book, in order.
fn made_again(alloc: Global, book: &KeyBook) -> Result<KeyBook, NoMemory> {
    let mut again = KeyBook::new(alloc);
    rows_may_follow();
    for row in book.rows() {
        again.add_row(*row)?;
    }
    Ok(again)
}

impl KeyTable {
    /// An empty book.
    pub fn new(alloc: Global) -> KeyTable {
        KeyTable {
            book: KeyBook::new(alloc),
            held: Vec::new(alloc),
        }
    }

    fn hold(&mut self, words: &mut Words<'_>, page: &mut Page) {
        self.held.clear();
        for _ in 0..8 {
            if let (Some(key), Some(spi)) = (key(words), spi(words)) {
                page.check(self.held.push((key, spi)));
            }
        }
        page.push_str("ok");
    }

    /// Makes the change of a word: `load`, `loads`, or `state STATE ID ..`.
    fn changed(&mut self, alloc: Global, word: &str, words: &mut Words<'_>) -> Changed<KeyRefusal> {
        match word {
            "load" => Some(load(alloc, &mut self.book, words)),
            "loads" => Some(load_many(alloc, &mut self.book, words)),
            _ => {
                let to = key_state(words)?;
                let ids = ids(alloc, words).ok()?;
                Some(self.book.set_state(&ids, to, &self.held))
            }
        }
    }

    /// Does a step that may be refused, and writes what the call answers.
    fn change(&mut self, word: &str, words: &mut Words<'_>, page: &mut Page) {
        let Ok(before) = self.book.copy() else {
            return page.spoil();
        };
        let changed = self.changed(page.alloc(), word, words);
        write_change(changed, same_rows(&self.book, &before), page);
    }

    /// Looks at mark and floor of a key, or moves them, and writes them.
    fn move_marks(&mut self, word: &str, words: &mut Words<'_>, page: &mut Page) {
        let Some(id) = move_marks(&mut self.book, word, words) else {
            return page.push_str("no condition");
        };
        match (self.book.mark(id), self.book.receive_floor(id)) {
            (Some(mark), Some(floor)) => write!(page, "mark {mark} floor {floor}"),
            (None, None) => page.push_str("none"),
            _ => page.push_str("one of two"),
        }
    }

    /// Writes the row of a key: `ID`.
    fn find(&self, words: &mut Words<'_>, page: &mut Page) {
        match key(words).and_then(|id| self.book.find(id)) {
            Some((place, row)) => {
                let (octets, digest) = (Digits(row.bytes.as_slice()), Digits(&row.digest));
                write!(page, "place {place} {row:?} ");
                write!(page, "octets {octets} digest {digest}");
            }
            None => page.push_str("none"),
        }
    }

    /// Writes the keys of a range: `FIRST LAST`.
    fn list(&self, words: &mut Words<'_>, page: &mut Page) {
        let (first, last) = (short(words).unwrap_or(0), short(words).unwrap_or(0));
        let Ok(inventory) = self.book.inventory(first, last) else {
            return page.spoil();
        };
        let rows = inventory.rows.as_slice();
        write!(page, "{}, listed {}", inventory.total, rows.len());
        for (id, state) in rows {
            write!(page, ", {} {state:?}", id.get());
        }
    }

    /// Writes whether the rows make an equal book.
    fn make_again(&self, page: &mut Page) {
        match made_again(page.alloc(), &self.book) {
            Ok(again) => write!(page, "{}", same_rows(&again, &self.book)),
            Err(_) => page.spoil(),
        }
    }

    /// Does a step, and writes what it answers. Returns whether it is one on keys.
    pub fn step(&mut self, word: &str, words: &mut Words<'_>, page: &mut Page) -> bool {
        match word {
            "load" | "loads" | "state" => self.change(word, words, page),
            "raise" | "set" | "marks" => self.move_marks(word, words, page),
            "find" => self.find(words, page),
            "held" => self.hold(words, page),
            "inventory" => self.list(words, page),
            "keys" => write!(page, "{:?}", self.book),
            "digest" => {
                let octets = page.piece(words);
                page.push_digits(&digest(&octets));
            }
            "keys_again" => self.make_again(page),
            _ => return false,
        }
        true
    }
}
