//! Changes in words.

ghost use Rattle.std.specs.Prelude.{IfSome};
ghost use Rattle.unit_state.specs.Restart.{IsLight};

use case_lines::{Page, Words, cut, direction, key, key_state, number, octet, sa_state, spi};
use sdls_base::{Change, KeyId, KeyItem, KeyItems, KeyList, NewSa, Octets, Suite};
use std::alloc::Global;

/// The change that a reserve makes: `KEY MARK FLOOR`.
pub fn marks(words: &mut Words<'_>) -> Option<Change>
    ensures { IfSome result IsLight }
{
    let (key, mark, floor) = (key(words)?, number(words)?, number(words)?);
    Some(Change::Marks { key, mark, floor })
}

/// The change that a frame makes: `SPI KEY NUMBER FLOOR`.
pub fn accepted(words: &mut Words<'_>) -> Option<Change>
    ensures { IfSome result IsLight }
{
    Some(Change::Accepted {
        spi: spi(words)?,
        key: key(words)?,
        number: number(words)?,
        floor: number(words)?,
    })
}

/// The load of one key with these octets.
pub fn load_of(id: KeyId, octets: Vec<u8>, page: &mut Page) -> Change {
    let (bytes, mut items) = (Octets::new(octets), Vec::new(page.alloc()));
    page.check(items.push(KeyItem { id, bytes }));
    Change::Load(KeyItems::new(items))
}

fn load(words: &mut Words<'_>, page: &mut Page) -> Option<Change> {
    let id = key(words)?;
    let octets = hex::decode(page.alloc(), words.next()?).ok()?;
    Some(load_of(id, octets, page))
}

/// The load of eight keys from this one on, each with its identifier as its octets.
pub fn eight_keys(first: u16, page: &mut Page) -> Change {
    let mut items = Vec::new(page.alloc());
    for number in first..=first.saturating_add(7) {
        if let Some(id) = KeyId::new(number) {
            let bytes = Octets::new(page.copy(&u128::from(number).to_be_bytes()));
            page.check(items.push(KeyItem { id, bytes }));
        }
    }
    Change::Load(KeyItems::new(items))
}

fn key_states(alloc: Global, words: &mut Words<'_>) -> Option<Change> {
    let to = key_state(words)?;
    let ids = KeyList::new(vec![in alloc; key(words)?].ok()?);
    Some(Change::KeyStates { ids, to })
}

/// A CMAC association of one channel.
fn create(alloc: Global, words: &mut Words<'_>) -> Option<Change> {
    let spi = spi(words)?;
    let direction = direction(words)?;
    let window = number(words)?;
    let channel = octet(words)?;
    Some(Change::Create(NewSa {
        spi,
        direction,
        suite: Suite::Cmac,
        window,
        channels: Octets::new(vec![in alloc; channel].ok()?),
    }))
}

/// The change of an association: `SPI` and what the word says of it.
fn of_association(word: &str, words: &mut Words<'_>) -> Option<Change> {
    let spi = spi(words)?;
    match word {
        "rekey" => Some(Change::Rekey {
            spi,
            key: key(words)?,
            number: number(words)?,
        }),
        "sa" => sa_state(words).map(|to| Change::SaTo { spi, to }),
        "number" => number(words).map(|number| Change::SetNumber { spi, number }),
        _ => number(words).map(|window| Change::SetWindow { spi, window }),
    }
}

/// Reads a change.
pub fn read(text: &str, page: &mut Page) -> Option<Change> {
    let (word, rest) = cut(text);
    let mut words = rest.split_whitespace();
    match word {
        "marks" => marks(&mut words),
        "load" => load(&mut words, page),
        "states" => key_states(page.alloc(), &mut words),
        "create" => create(page.alloc(), &mut words),
        "rekey" | "sa" | "number" | "window" => of_association(word, &mut words),
        "accepted" => accepted(&mut words),
        "nothing" => Some(Change::Nothing),
        _ => None,
    }
}
