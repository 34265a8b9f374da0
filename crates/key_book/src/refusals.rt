//! What the calls of a book would refuse. Nothing changes, and nothing here takes memory.

//! How keys take a state: first all are judged, and then all rows are written.
ghost use Rattle.std.specs.Prelude.{◌≡◌, ◌==◌, ◌++◌, map, is_some, min};
ghost use Rattle.std.specs.List.{list_any};
ghost use Rattle.std.specs.Option.{option_map, option_or, option_map_or};
ghost use Rattle.std.specs.Result.{result_err};
ghost use Rattle.key_book.specs.KeyRow.{new_row};
ghost use Rattle.key_book.specs.KeyBook.{row_of};
ghost use Rattle.key_book.specs.KeyRefusal.{row_with, key_refusal, items_refusal, load_refusal};
ghost use Rattle.key_book.specs.Moves.{moves_refusal, is_next, lowest_holder, state_refusal, move_refusal, moved};
ghost use Rattle.key_book.specs.Table.{IsIndexed};
ghost use Rattle.key_book.specs.Digests.{Knows};

use crate::key_book::KeyBook;
use crate::key_row::KeyRow;
use crate::table::{Digests, Table};
use sdls_base::{KeyId, KeyItem, KeyList, KeyState, MOST_KEYS, Spi};
use std::alloc::{AllocError, AllocFailed};
use thiserror::Error;

impl KeyBook {
    /// What `load` would refuse, if memory suffices.
    pub fn load_refusal(&self, items: &[KeyItem]) -> Option<KeyRefusal>
        ensures { result ≡ load_refusal self.now items.now }
    {
        if let Err(refusal) = judge_items(&self.table, items) {
            return Some(refusal);
        }
        if self.table.rows.len() + items.len() > MOST_KEYS {
            return Some(KeyRefusal::BookFull);
        }
        None
    }

    /// The key with a digest.
    pub fn twin(&self, digest: &[u8; 32]) -> Option<KeyId>
        ensures { result ≡ option_map (λ row. row.id) (row_with self.now digest.now) }
    {
        twin_in(&self.table, digest)
    }

    /// What `set_state` would refuse.
    pub fn moves_refusal(
        &self,
        ids: &KeyList,
        to: KeyState,
        in_use: &[(KeyId, Spi)],
    ) -> Option<KeyRefusal>
        ensures { result ≡ moves_refusal self.now ids.now to in_use.now }
    {
        judge(&self.table, ids.as_slice(), to, in_use).err()
    }
}

fn is_among(items: &[KeyItem], id: KeyId) -> bool
    ensures { result ≡ list_any (λ item. item.id == id) items.now }
{
    items.iter().any(|item| item.id == id)
}

/// Whether an identifier is taken when those of `done` are loaded.
fn is_taken(table: &Table, done: &[KeyItem], id: KeyId) -> bool
    requires { IsIndexed table.now }
    ensures { result ≡ is_some (row_of (table.now.rows.items ++ map new_row done.now) id) }
{
    table.place(id).is_some() || is_among(done, id)
}

/// The key of a digest among those of rows.
fn twin_in(table: &Table, own: &[u8; 32]) -> Option<KeyId>
    requires { IsIndexed table.now }
    ensures { result ≡ option_map (λ row. row.id) (row_with table.now.rows.items own.now) }
{
    let i = table.place_with(own)?;
    Some(table.rows[i].id)
}

/// The key of a digest among those that are to be loaded.
fn twin_among(items: &[KeyItem], digests: &Digests, own: &[u8; 32]) -> Option<KeyId>
    requires { Knows digests.now.first items.now }
    ensures { result ≡ option_map (λ row. row.id) (row_with (map new_row items.now) own.now) }
{
    let i = digests.place(items, own)?;
    Some(items[i].id)
}

/// Judges a key, with this digest, when those of `done` are loaded.
fn judge_item(
    table: &Table,
    done: &[KeyItem],
    digests: &Digests,
    id: KeyId,
    own: &[u8; 32],
) -> Result<(), KeyRefusal>
    requires indexed { IsIndexed table.now }
    requires known { Knows digests.now.first done.now }
    ensures { result_err result ≡ key_refusal (table.now.rows.items ++ map new_row done.now) id own.now }
{
    if is_taken(table, done, id) {
        return Err(KeyRefusal::AlreadyLoaded(id));
    }
    match twin_in(table, own).or(twin_among(done, digests, own)) {
        Some(id) => Err(KeyRefusal::DuplicateKey(id)),
        None => Ok(()),
    }
}

/// Judges each key on the rows that the earlier ones leave.
fn judge_items(table: &Table, items: &[KeyItem]) -> Result<(), KeyRefusal>
    requires { IsIndexed table.now }
    ensures { result_err result ≡ items_refusal table.now.rows.items items.now }
{
    let digests = Digests::of(items);
    for (i, item) in items.iter().enumerate() {
        judge_item(table, &items[..i], &digests, item.id, &digests.at(items, i))?;
    }
    Ok(())
}

/// Why a call on the keys is refused, with what decided.
#[derive(Clone, Copy, Debug, PartialEq, Eq, Error)]
pub enum KeyRefusal {
    /// A key with this identifier was loaded before.
    #[error("key {} was loaded before", .0.get())]
    AlreadyLoaded(KeyId),
    /// The key with this identifier has the same digest.
    #[error("key has the digest of key {}", .0.get())]
    DuplicateKey(KeyId),
    /// The book has no room for the keys.
    #[error("key book has no room")]
    BookFull,
    /// The key is in this state, which the one asked for does not follow.
    #[error("key is in state {0:?}, which the one asked for does not follow")]
    WrongState(KeyState),
    /// A security association holds the key; this is the lowest index of those that do.
    #[error("key is held by association {}", .0.get())]
    KeyInUse(Spi),
    /// No key has this identifier.
    #[error("key {} is unknown", .0.get())]
    UnknownKey(KeyId),
    /// Memory ran out.
    #[error("no memory")]
    NoMemory,
}

impl From<AllocError> for KeyRefusal {
    ghost use Rattle.std.specs.Prelude.{◌≡◌};
    ghost use Rattle.key_book.specs.declared.refusals.KeyRefusal.TheVariants.{NoMemory};

    ghost from_gives = { λ _ refusal. refusal ≡ NoMemory };

    fn from(_wanting: AllocError) -> KeyRefusal {
        KeyRefusal::NoMemory
    }
}

impl<T: Drop> From<AllocFailed<T>> for KeyRefusal {
    ghost use Rattle.std.specs.Prelude.{◌≡◌};
    ghost use Rattle.key_book.specs.declared.refusals.KeyRefusal.TheVariants.{NoMemory};

    ghost from_gives = { λ _ refusal. refusal ≡ NoMemory };

    fn from(_wanting: AllocFailed<T>) -> KeyRefusal {
        KeyRefusal::NoMemory
    }
}

fn is_next(from: KeyState, to: KeyState) -> bool
    ensures { result ≡ is_next from to }
{
    match from {
        KeyState::PreActive => to == KeyState::Active,
        KeyState::Active => to == KeyState::Deactivated,
        KeyState::Deactivated => to == KeyState::Destroyed,
        KeyState::Destroyed => false,
    }
}

/// The lower of an index, where there is one, and another.
fn lower(lowest: Option<Spi>, spi: Spi) -> Spi
    ensures { result ≡ option_map_or (min spi) lowest spi }
{
    match lowest {
        Some(low) if low < spi => low,
        _ => spi,
    }
}

/// The lowest index of the associations that hold a key.
fn lowest_holder(in_use: &[(KeyId, Spi)], id: KeyId) -> Option<Spi>
    ensures { result ≡ lowest_holder in_use.now id }
{
    let mut lowest = None;
    for pair in in_use {
        if pair.0 == id {
            lowest = Some(lower(lowest, pair.1));
        }
    }
    lowest
}

fn judge_state(from: KeyState, to: KeyState, holder: Option<Spi>) -> Result<(), KeyRefusal>
    ensures { result_err result ≡ state_refusal from to holder }
{
    if !is_next(from, to) {
        return Err(KeyRefusal::WrongState(from));
    }
    match (to, holder) {
        (KeyState::Deactivated, Some(spi)) => Err(KeyRefusal::KeyInUse(spi)),
        _ => Ok(()),
    }
}

/// Judges a key when those of `done` have taken the state.
fn judge_move(
    table: &Table,
    done: &[KeyId],
    id: KeyId,
    to: KeyState,
    in_use: &[(KeyId, Spi)],
) -> Result<(), KeyRefusal>
    requires { IsIndexed table.now }
    ensures { result_err result ≡ move_refusal (moved table.now.rows.items done.now to) id to in_use.now }
{
    let Some(i) = table.place(id) else {
        return Err(KeyRefusal::UnknownKey(id));
    };
    let from = if done.contains(&id) {
        to
    } else {
        table.rows[i].state
    };
    judge_state(from, to, lowest_holder(in_use, id))
}

/// Judges each key on the rows that the earlier ones leave.
pub(crate) fn judge(
    table: &Table,
    ids: &[KeyId],
    to: KeyState,
    in_use: &[(KeyId, Spi)],
) -> Result<(), KeyRefusal>
    requires { IsIndexed table.now }
    ensures { result_err result ≡ moves_refusal table.now.rows.items ids.now to in_use.now }
{
    for (i, id) in ids.iter().enumerate() {
        judge_move(table, &ids[..i], *id, to, in_use)?;
    }
    Ok(())
}

/// Writes the state into the rows of these keys. Takes no memory.
pub(crate) fn move_rows(rows: &mut Vec<KeyRow>, ids: &[KeyId], to: KeyState)
    ensures { rows.new.items ≡ moved rows.old.items ids.now to }
{
    for row in rows.iter_mut() {
        if ids.contains(&row.id) {
            row.enter(to);
        }
    }
}
