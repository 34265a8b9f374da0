//! The text, and its lines, each put behind a text.
ghost use Rattle.std.specs.Prelude.{◌≡◌, ◌++◌, ◌<◌, map, All, IfOk, OnOk, IsPermutation};
ghost use Rattle.std.specs.List.Sorted.{IsNonDecreasingBy};
ghost use Rattle.key_book.specs.KeyBook.{IsKeyBook};
ghost use Rattle.status_text.specs.Text.{associations_text, highest_identifier, key_lines, keys_text, status_text};
ghost use Rattle.status_text.specs.Text.{association_line, back_text, key_and_window, key_line, slots_line};

use key_book::KeyRow;
use sa_book::SaRow;
use sdls_base::NoMemory;
use std::alloc::{AllocError, Global};
use text_words::{
    direction_word, key_state_word, put_decimal, put_octets, put_spaced, sa_state_word, suite_word,
};
use unit_state::State;

/// Writes a line for each of some keys, in their order.
#[tactic(auto, unfolding(crate::specs::Text::key_lines))]
fn put_key_lines(text: &mut Vec<u8>, rows: &[&KeyRow]) -> Result<(), NoMemory>
    ensures put { OnOk result (text.new.items ≡ text.old.items ++ key_lines (map (λ row. row.now) rows.now)) }
    ensures numbered { OnOk result (All (λ row. (0 < row.now.id) × (row.now.id < 65536)) rows.now) }
{
    for row in rows {
        put_key(text, row)?;
    }
    Ok(())
}

/// Writes a line for each key, ascending by identifier.
fn put_keys(text: &mut Vec<u8>, rows: &[KeyRow]) -> Result<(), NoMemory>
    requires { IsKeyBook rows.now }
    ensures { OnOk result (text.new.items ≡ text.old.items ++ keys_text rows.now 1 highest_identifier) }
{
    let found = rows_by_identifier(*text.allocator(), rows)?;
    put_key_lines(text, found.as_slice())
}

#[tactic(auto, unfolding(crate::specs::Text::associations_text))]
fn put_associations(text: &mut Vec<u8>, rows: &[SaRow]) -> Result<(), NoMemory>
    ensures { OnOk result (text.new.items ≡ text.old.items ++ associations_text rows.now) }
{
    for row in rows {
        put_association(text, row)?;
    }
    Ok(())
}

/// The text of a state: `slots U of S`, then a line for each key, ascending by identifier, then one for each
/// association, ascending by SPI. Each line ends with a line feed.
pub fn status_text(alloc: Global, state: &State, used: u32, slots: u32) -> Result<Vec<u8>, NoMemory>
    ensures { IfOk result (λ text. text.items ≡ status_text state.now used slots) }
{
    let mut text = Vec::new(alloc);
    put_slots(&mut text, used, slots)?;
    put_keys(&mut text, state.keys.rows())?;
    put_associations(&mut text, state.associations.rows())?;
    Ok(text)
}

#[tactic(auto, unfolding(crate::specs::Text::slots_line))]
fn put_slots(text: &mut Vec<u8>, used: u32, slots: u32) -> Result<(), NoMemory>
    ensures { OnOk result (text.new.items ≡ text.old.items ++ slots_line used slots) }
{
    put_octets(text, b"slots ")?;
    put_decimal(text, u64::from(used))?;
    put_octets(text, b" of ")?;
    put_decimal(text, u64::from(slots))?;
    put_octets(text, b"\n")
}

#[tactic(auto, unfolding(crate::specs::Text::key_line, crate::specs::Text::key_text))]
fn put_key(text: &mut Vec<u8>, row: &KeyRow) -> Result<(), NoMemory>
    ensures put { OnOk result (text.new.items ≡ text.old.items ++ key_line row.now) }
    ensures numbered { OnOk result ((0 < row.now.id) × (row.now.id < 65536)) }
{
    put_octets(text, b"key ")?;
    put_decimal(text, u64::from(row.id.get()))?;
    put_spaced(text, key_state_word(row.state))?;
    put_octets(text, b" mark ")?;
    put_decimal(text, row.mark)?;
    put_octets(text, b" floor ")?;
    put_decimal(text, row.floor)?;
    put_octets(text, b"\n")
}

/// Writes the back window, if there is one.
fn put_back(text: &mut Vec<u8>, back: u8) -> Result<(), NoMemory>
    ensures { OnOk result (text.new.items ≡ text.old.items ++ back_text back) }
{
    if back == 0 {
        return Ok(());
    }
    put_octets(text, b" back ")?;
    put_decimal(text, u64::from(back))
}

/// Writes the key of an association, and its window.
#[tactic(auto, unfolding(crate::specs::Text::held_text))]
fn put_key_and_window(text: &mut Vec<u8>, row: &SaRow) -> Result<(), NoMemory>
    ensures { OnOk result (text.new.items ≡ text.old.items ++ key_and_window row.now) }
{
    let key = row.key.map_or(0, |key| key.get());
    put_octets(text, b" key ")?;
    put_decimal(text, u64::from(key))?;
    put_octets(text, b" window ")?;
    put_decimal(text, row.window.width)?;
    put_back(text, row.window.back)
}

#[tactic(auto, unfolding(crate::specs::Text::association_line, crate::specs::Text::association_text))]
fn put_association(text: &mut Vec<u8>, row: &SaRow) -> Result<(), NoMemory>
    ensures { OnOk result (text.new.items ≡ text.old.items ++ association_line row.now) }
{
    put_octets(text, b"sa ")?;
    put_decimal(text, u64::from(row.spi.get()))?;
    put_spaced(text, direction_word(row.direction))?;
    put_spaced(text, suite_word(row.suite))?;
    put_spaced(text, sa_state_word(row.state))?;
    put_key_and_window(text, row)?;
    put_octets(text, b"\n")
}

/// The rows in their order.
fn listed(alloc: Global, rows: &[KeyRow]) -> Result<Vec<&KeyRow>, AllocError>
    ensures { IfOk result (λ found. map (λ row. row.now) found.items ≡ rows.now) }
{
    rows.iter().collect(alloc)
}

/// The rows, ascending by identifier.
fn rows_by_identifier(alloc: Global, rows: &[KeyRow]) -> Result<Vec<&KeyRow>, NoMemory>
    ensures same { IfOk result (λ found. IsPermutation rows.now (map (λ row. row.now) found.items)) }
    ensures ascending { IfOk result (λ found. IsNonDecreasingBy (λ row. row.now.id) found.items) }
{
    let mut found = listed(alloc, rows)?;
    found.sort_by_key(|row| row.id)?;
    Ok(found)
}
