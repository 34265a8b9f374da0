// The store of a change, with the content of the state after it, while the state is still the one before.
ghost use Rattle.std.specs.Prelude.{◌≡◌, ◌↔◌, ◌≤◌, IsTrue, is_some, length, IfErr, OnErr, OnOk, MatchOption, None};
ghost use Rattle.std.specs.Prelude.{IsSome};
ghost use Rattle.std.specs.Option.{option_and_then};
ghost use Rattle.sdls_outside.specs.Faults.{Rose};
ghost use Rattle.key_book.specs.KeyRow as key_rows;
ghost use Rattle.unit_state.specs.State.{KeepsRules, key_row};
ghost use Rattle.unit_state.specs.Allows.{Allows};
ghost use Rattle.unit_state.specs.Applied.{applied};
ghost use Rattle.unit_state.specs.Restart.{IsLight, IsStorable, acceptance_stored, stored_as, restarted};
ghost use Rattle.book_record.specs.KeyParts.{AreKeyRowOctets};
ghost use Rattle.disk_journal.specs.Journal.{IsSettled, HasSiteFault};
ghost use Rattle.unit_image.specs.Content.{content_of};
ghost use Rattle.unit_image.specs.ContentReading.{HasRows, IsContent};
ghost use Rattle.unit_image.specs.Image.{IsOfTwo};
ghost use Rattle.unit_image.specs.Storing.{Destroys, StoresChange};
ghost use Rattle.sdls_base.specs.declared.entry.Change.TheVariants.{Marks};
ghost use Rattle.sdls_base.specs.declared.version.Version.TheVariants.{Two};

use crate::content::{KEYS_AT, key_row_changes, restart_leaves_content, write_content_two};
use crate::rows::spell_key_row;
use book_record::{KEY_ROW_LENGTH, write_record};
use disk_journal::{Journal, JournalFault};
use key_book::KeyRow;
use sdls_base::{CONTENT_LENGTH_TWO, Change, KeyId, KeyState, put};
use sdls_outside::Site;
use thiserror::Error;
use unit_state::State;

/// The site failed; the count of its faults, which rose in the call.
#[derive(Clone, Copy, Debug, PartialEq, Eq, Error)]
#[error("site failed: {0} faults")]
pub struct SiteFault(pub u64);

/// Whether the octets of keys have to be gone after the change.
fn destroys(change: &Change) -> bool
    ensures { IsTrue result ↔ Destroys change.now }
{
    match change {
        Change::KeyStates { ids: _, to } => *to == KeyState::Destroyed,
        _ => false,
    }
}

/// The change that is stored for an acceptance, if it raises the floor of the key.
fn acceptance(state: &State, key: KeyId, floor: u64) -> Option<Change>
    ensures { result ≡ option_and_then (acceptance_stored key floor) (key_row state.now key) }
{
    let (_, row) = state.keys.find(key)?;
    if row.floor == floor {
        return None;
    }
    Some(Change::Marks {
        key,
        mark: row.mark,
        floor,
    })
}

/// Stores a change of which there are records: by a turn if the octets of keys have to be gone or no slot is free, and
/// else by a record.
fn store_storable<O: Site>(
    journal: &mut Journal,
    site: &mut O,
    state: &State,
    change: &Change,
    next: Option<&State>,
    room: &mut [u8],
) -> Result<(), JournalFault>
    requires sized { length room.old ≡ CONTENT_LENGTH_TWO }
    requires version { IsOfTwo journal.old }
    requires settled { IsTrue O.told → IsSettled (O.trace site.old) journal.old }
    requires rules { KeepsRules state.now }
    requires storable { IsStorable change.now }
    requires allowed { Allows state.now change.now }
    requires next { MatchOption next (IsLight change.now) (λ next. next.now ≡ applied state.now change.now) }
    ensures stores { StoresChange O.told state.now change.now result journal.old journal.new (O.trace site.old)
        (O.trace site.new) }
    ensures fault { HasSiteFault (O.faults site.old) (O.faults site.new) result }
    ensures puts { O.put_faults site.new ≡ O.put_faults site.old }
{
    if destroys(change) || journal.used() == journal.slots() {
        write_after(state, change, next, room);
        journal.turn(site, room)
    } else {
        journal.append(site, &write_record(change))
    }
}

/// Stores what is stored for a change, if anything is, with the journal's own answer.
fn store_change<O: Site>(
    journal: &mut Journal,
    site: &mut O,
    state: &State,
    change: &Change,
    next: Option<&State>,
    room: &mut [u8],
) -> Result<(), JournalFault>
    requires sized { length room.old ≡ CONTENT_LENGTH_TWO }
    requires version { IsOfTwo journal.old }
    requires settled { IsTrue O.told → IsSettled (O.trace site.old) journal.old }
    requires rules { KeepsRules state.now }
    requires allowed { Allows state.now change.now }
    requires next { MatchOption next (IsLight change.now) (λ next. next.now ≡ applied state.now change.now) }
    ensures stores { StoresChange O.told state.now change.now result journal.old journal.new (O.trace site.old)
        (O.trace site.new) }
    ensures idle { stored_as state.now change.now ≡ None → (site.new ≡ site.old) × (journal.new ≡ journal.old) }
    ensures needed { OnErr result (IsTrue (is_some (stored_as state.now change.now))) }
    ensures fault { HasSiteFault (O.faults site.old) (O.faults site.new) result }
    ensures puts { O.put_faults site.new ≡ O.put_faults site.old }
{
    match change {
        Change::Nothing => Ok(()),
        Change::Accepted {
            spi: _,
            key,
            number: _,
            floor,
        } => match acceptance(state, *key, *floor) {
            Some(marks) => store_storable(journal, site, state, &marks, None, room),
            None => Ok(()),
        },
        _ => store_storable(journal, site, state, change, next, room),
    }
}

/// Stores a change that the state allows, if anything is stored for it. `next` is the state after the change; for a
/// change that moves numbers alone it may be `None`. After `Ok` each crash leaves an image that shows what a restart
/// leaves of the state after the change. After a fault the image may hold the change or not, and has to be opened
/// again. Takes no memory; `room` holds any octets afterwards.
pub fn store<O: Site>(
    journal: &mut Journal,
    site: &mut O,
    state: &State,
    change: &Change,
    next: Option<&State>,
    room: &mut [u8],
) -> Result<(), SiteFault>
    requires sized { length room.old ≡ CONTENT_LENGTH_TWO }
    requires version { IsOfTwo journal.old }
    requires settled { IsTrue O.told → IsSettled (O.trace site.old) journal.old }
    requires rules { KeepsRules state.now }
    requires allowed { Allows state.now change.now }
    requires next { MatchOption next (IsLight change.now) (λ next. next.now ≡ applied state.now change.now) }
    ensures stores { StoresChange O.told state.now change.now result journal.old journal.new (O.trace site.old)
        (O.trace site.new) }
    // If nothing is stored for the change, nothing is done.
    ensures idle { stored_as state.now change.now ≡ None → (site.new ≡ site.old) × (journal.new ≡ journal.old) }

    // Only a fault of the site is answered, and only if something is stored.
    ensures needed { OnErr result (IsTrue (is_some (stored_as state.now change.now))) }
    ensures cause { IfErr result (λ fault. Rose (O.faults site.old) (O.faults site.new)
        × (fault.0 ≡ O.faults site.new)) }
    ensures stood { OnOk result (O.faults site.new ≡ O.faults site.old) }
    ensures later { O.faults site.old ≤ O.faults site.new }
    ensures puts { O.put_faults site.new ≡ O.put_faults site.old }
{
    match store_change(journal, site, state, change, next, room) {
        Ok(()) => Ok(()),
        Err(JournalFault::SiteFault(count)) => Err(SiteFault(count)),
        Err(JournalFault::Image(_)) => unreachable!(),
    }
}

/// The row of a key, with another mark and another floor.
fn marked_row(row: &KeyRow, mark: u64, floor: u64) -> [u8; KEY_ROW_LENGTH]
    requires { key_rows.IsKeyRow row.now }
    ensures { AreKeyRowOctets (record row.now { mark = mark; floor = floor }) result }
{
    spell_key_row(&KeyRow {
        mark,
        floor,
        ..*row
    })
}

/// Writes another mark and another floor of a key into the content of a state.
fn write_marks(state: &State, key: KeyId, mark: u64, floor: u64, content: &mut [u8])
    requires rules { KeepsRules state.now }
    requires there { IsSome (key_row state.now key) }
    requires rows { HasRows Two state.now }
    requires sized { length content.old ≡ CONTENT_LENGTH_TWO }
    requires written { content.old ≡ content_of Two state.now }
    ensures written { content.new ≡ content_of Two (applied state.now (Marks key mark floor)) }
    ensures rows { HasRows Two (applied state.now (Marks key mark floor)) }
{
    key_row_changes();
    let (place, row) = state.keys.find(key).unwrap();
    put(
        content,
        KEYS_AT + KEY_ROW_LENGTH * place,
        &marked_row(row, mark, floor),
    );
}

/// Writes the content of the state after a change of marks.
fn write_marked(state: &State, change: &Change, content: &mut [u8])
    requires sized { length content.old ≡ CONTENT_LENGTH_TWO }
    requires rules { KeepsRules state.now }
    requires light { IsLight change.now }
    requires storable { IsStorable change.now }
    requires allowed { Allows state.now change.now }
    ensures written { content.new ≡ content_of Two (applied state.now change.now) }
    ensures rows { HasRows Two (applied state.now change.now) }
{
    let Change::Marks { key, mark, floor } = change else {
        unreachable!()
    };
    write_content_two(state, content);
    write_marks(state, *key, *mark, *floor, content);
}

/// Writes the content of the state after a change of which there are records. `next` is that state; for a change of
/// marks it may be `None`. Takes no memory.
pub(crate) fn write_after(state: &State, change: &Change, next: Option<&State>, content: &mut [u8])
    requires sized { length content.old ≡ CONTENT_LENGTH_TWO }
    requires rules { KeepsRules state.now }
    requires storable { IsStorable change.now }
    requires allowed { Allows state.now change.now }
    requires next { MatchOption next (IsLight change.now) (λ next. next.now ≡ applied state.now change.now) }
    ensures sized { length content.new ≡ CONTENT_LENGTH_TWO }
    ensures written { content.new ≡ content_of Two (applied state.now change.now) }
    ensures content { IsContent Two (restarted (applied state.now change.now)) content.new }
{
    restart_leaves_content();
    match next {
        Some(next) => write_content_two(next, content),
        None => write_marked(state, change, content),
    }
}
