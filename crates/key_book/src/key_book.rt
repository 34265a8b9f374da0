//! Books made of rows that were read.
ghost use Rattle.std.specs.Prelude.{◌≡◌, ◌+◌, ◌<◌, ◌≤◌, max, ℕ, List, [], ◌∷◌, ◌++◌, length, map, take};
ghost use Rattle.std.specs.Prelude.{slice_index_or, All, IfOk, IfErr, OnOk, OnErr, IfSome, IsSome, None, Some};
ghost use Rattle.std.specs.Prelude.{MatchOption, vec_len, ◌≢◌, ◌↔◌, IsTrue};
ghost use Rattle.std.specs.List.{slice_get};
ghost use Rattle.std.specs.Option.{option_map};
ghost use Rattle.std.specs.Result.{result_err};
ghost use Rattle.sdls_base.specs.Bounds.{IsKeyLength};
ghost use Rattle.sdls_base.specs.KeyId.{end_of};
ghost use Rattle.sdls_base.specs.declared.TheConstants.{MOST_KEYS};
ghost use Rattle.key_book.specs.declared.key_row.KeyRow.{KeyRow};
ghost use Rattle.key_book.specs.KeyRow.{IsKeyRow, new_row};
ghost use Rattle.key_book.specs.KeyBook.{IsKeyBook, MayFollow, row_of, place_of, changed};
ghost use Rattle.key_book.specs.KeyRefusal.{IsKeyRefusal, load_refusal};
ghost use Rattle.key_book.specs.Moves.{moved, moves_refusal};
ghost use Rattle.key_book.specs.Inventory.{IsInventory, listed};
ghost use Rattle.key_book.specs.Table.{IsIndexed};

use crate::key_row::KeyRow;
use crate::refusals;
use crate::refusals::KeyRefusal;
use crate::table::{Table, indexes_of};
use sdls_base::{KeyId, KeyItem, KeyList, KeyRows, KeyState, NoMemory, Spi};
use std::alloc::{AllocError, Global};
use std::fmt;
use std::marker::Model;

/// The keys that a unit ever loaded, at most [`MOST_KEYS`]. `Debug` prints no octet of a key.
#[derive(Drop)]
pub struct KeyBook {
    pub(crate) table: Table,
}

impl Model for KeyBook {
    ghost use Rattle.std.specs.Prelude.{List};
    ghost use Rattle.key_book.specs.declared.key_row.KeyRow.{KeyRow};
    ghost use Rattle.key_book.specs.KeyBook.{IsKeyBook};
    ghost use Rattle.key_book.specs.Table.{IsIndexed};

    ghost Value = { List KeyRow };

    ghost view = { λ book. book.table.rows.items };

    ghost invariant = { λ book. IsKeyBook book.table.rows.items × IsIndexed book.table };
}

impl fmt::Debug for KeyBook {
    fn fmt<W: fmt::Write>(&self, f: &mut fmt::Formatter<W>) -> fmt::Result {
        write!(f, "KeyBook {{ rows: {:?} }}", self.rows())
    }
}

impl KeyBook {
    /// The empty book, which takes its memory from `alloc` later.
    pub fn new(alloc: Global) -> KeyBook
        ensures { result ≡ [] }
    {
        KeyBook {
            table: Table::new(alloc),
        }
    }

    /// Loads keys of 16 or 32 octets, pre-active, all or none.
    pub fn load(&mut self, items: &[KeyItem]) -> Result<(), KeyRefusal>
        requires { All (λ item. IsKeyLength (length item.bytes)) items.now }
        ensures loaded { OnOk result (self.new ≡ self.old ++ map new_row items.now) }

        // The first refusal that applies, or that memory ran out; after Ok none applies.
        ensures accepted { OnOk result (load_refusal self.old items.now ≡ None) }
        ensures refused { IfErr result (λ refusal. IsKeyRefusal refusal (load_refusal self.old items.now)) }
        ensures kept { OnErr result (self.new ≡ self.old) }
    {
        if let Some(refusal) = self.load_refusal(items) {
            return Err(refusal);
        }
        match self.load_allowed(items) {
            Ok(()) => Ok(()),
            Err(NoMemory) => Err(KeyRefusal::NoMemory),
        }
    }

    /// Loads keys of 16 or 32 octets that nothing refuses, pre-active, all or none. They are not judged again.
    pub fn load_allowed(&mut self, items: &[KeyItem]) -> Result<(), NoMemory>
        requires lengths { All (λ item. IsKeyLength (length item.bytes)) items.now }
        requires allowed { load_refusal self.old items.now ≡ None }
        ensures loaded { OnOk result (self.new ≡ self.old ++ map new_row items.now) }
        ensures kept { OnErr result (self.new ≡ self.old) }
    {
        self.table.append(items)?;
        Ok(())
    }

    /// Takes keys one state on, each judged on the state that the earlier ones leave, all or none. `in_use` has a pair
    /// for each association that holds a key. Takes no memory.
    pub fn set_state(
        &mut self,
        ids: &KeyList,
        to: KeyState,
        in_use: &[(KeyId, Spi)],
    ) -> Result<(), KeyRefusal>
        ensures moved { OnOk result (self.new ≡ moved self.old ids.now to) }
        ensures refused { result_err result ≡ moves_refusal self.old ids.now to in_use.now }
        ensures kept { OnErr result (self.new ≡ self.old) }
    {
        refusals::judge(&self.table, ids.as_slice(), to, in_use)?;
        refusals::move_rows(&mut self.table.rows, ids.as_slice(), to);
        Ok(())
    }

    /// The keys with identifiers from `first` to `last`.
    pub fn inventory(&self, first: u16, last: u16) -> Result<Inventory, NoMemory>
        ensures { IfOk result (IsInventory self.now first last) }
    {
        let alloc = *self.table.rows.allocator();
        Inventory::of(alloc, &self.table.rows, first, last)
    }

    /// The row of a key and its place.
    pub fn find(&self, id: KeyId) -> Option<(usize, &KeyRow)>
        ensures place { option_map (λ found. found.0) result ≡ place_of self.now id }
        ensures row { option_map (λ found. found.1.now) result ≡ row_of self.now id }
        ensures rules { IfSome result (λ found. IsKeyRow found.1.now) }
    {
        let i = self.table.place(id)?;
        Some((i, &self.table.rows[i]))
    }

    /// Numbers below it may have been used for sending under the key.
    pub fn mark(&self, id: KeyId) -> Option<u64>
        ensures { result ≡ option_map (λ row. row.mark) (row_of self.now id) }
    {
        self.find(id).map(|(_, row)| row.mark)
    }

    /// Raises the mark of a key that is there to at least `mark`. Takes no memory.
    pub fn raise_mark(&mut self, id: KeyId, mark: u64)
        requires there { IsSome (row_of self.old id) }
        requires from_one { 1 ≤ mark }
        requires to_end { mark ≤ end_of id }
        ensures { self.new ≡ changed self.old id (λ row. record row { mark = max row.mark mark }) }
    {
        let i = known_place(&self.table, id);
        let row = &mut self.table.rows[i];
        row.mark = row.mark.max(mark);
    }

    /// Numbers up to it may have been accepted under the key.
    pub fn receive_floor(&self, id: KeyId) -> Option<u64>
        ensures { result ≡ option_map (λ row. row.floor) (row_of self.now id) }
    {
        self.find(id).map(|(_, row)| row.floor)
    }

    /// Raises the floor of a key that is there to at least `floor`. Takes no memory.
    pub fn raise_floor(&mut self, id: KeyId, floor: u64)
        requires there { IsSome (row_of self.old id) }
        requires below_end { floor < end_of id }
        ensures { self.new ≡ changed self.old id (λ row. record row { floor = max row.floor floor }) }
    {
        let i = known_place(&self.table, id);
        let row = &mut self.table.rows[i];
        row.floor = row.floor.max(floor);
    }

    /// Sets mark and floor of a key that is there. Takes no memory.
    pub fn set_marks(&mut self, id: KeyId, mark: u64, floor: u64)
        requires there { IsSome (row_of self.old id) }
        requires from_one { 1 ≤ mark }
        requires to_end { mark ≤ end_of id }
        requires below_end { floor < end_of id }
        ensures { self.new ≡ changed self.old id (λ row. record row { mark = mark; floor = floor }) }
    {
        let i = known_place(&self.table, id);
        let row = &mut self.table.rows[i];
        row.mark = mark;
        row.floor = floor;
    }

    /// The rows, in the order of loading. They keep the rules of a book.
    pub fn rows(&self) -> &[KeyRow]
        ensures rows { result.now ≡ self.now }
        ensures rules { IsKeyBook self.now }
    {
        self.table.rows.as_slice()
    }

    /// Writes a row last. Rows put so into an empty book, in order, make an equal book.
    pub fn add_row(&mut self, row: KeyRow) -> Result<(), NoMemory>
        requires { MayFollow self.old row }
        ensures added { OnOk result (self.new ≡ self.old ++ row ∷ []) }
        ensures kept { OnErr result (self.new ≡ self.old) }
    {
        self.table.push(row)?;
        Ok(())
    }

    /// An equal book.
    pub fn copy(&self) -> Result<KeyBook, NoMemory>
        ensures { IfOk result (λ book. book ≡ self.now) }
    {
        let table = self.table.copy()?;
        Ok(KeyBook { table })
    }
}

fn known_place(table: &Table, id: KeyId) -> usize
    requires indexed { IsIndexed table.now }
    requires there { IsSome (row_of table.now.rows.items id) }
    ensures { place_of table.now.rows.items id ≡ Some result }
{
    table.place(id).unwrap()
}

/// Law: each row of a book may follow those before it, so a book can be made again row by row.
pub fn rows_may_follow()
    ensures { (rows : List KeyRow) (i : ℕ) (d : KeyRow) → IsKeyBook rows → i < length rows
        → MayFollow (take i rows) (slice_index_or rows i d) }
{}

/// Whether no row is that of this key.
fn lacks(book: &KeyBook, id: KeyId) -> bool
    ensures { IsTrue result ↔ All (λ other. other.id ≢ id) book.now }
{
    book.find(id).is_none()
}

/// Whether no row has this digest.
fn lacks_digest(book: &KeyBook, digest: &[u8; 32]) -> bool
    ensures { IsTrue result ↔ All (λ other. other.digest ≢ digest.now) book.now }
{
    book.twin(digest).is_none()
}

/// Whether no row of the book has the identifier or the digest of this one.
fn is_apart(book: &KeyBook, row: &KeyRow) -> bool
    ensures { IsTrue result ↔ (All (λ other. other.id ≢ row.now.id) book.now
        × All (λ other. other.digest ≢ row.now.digest) book.now) }
{
    lacks(book, row.id) && lacks_digest(book, &row.digest)
}

/// The book of these rows, each of which is judged by those before it.
fn one_by_one(alloc: Global, rows: Vec<KeyRow>) -> Result<Option<KeyBook>, NoMemory>
    requires most { length rows.items ≤ MOST_KEYS }
    requires each { All IsKeyRow rows.items }
    ensures { IfOk result (λ found. MatchOption found (¬ IsKeyBook rows.items) (λ book. book ≡ rows.items)) }
{
    rows_may_follow();
    let mut book = KeyBook::new(alloc);
    for row in rows {
        if !is_apart(&book, &row) {
            return Ok(None);
        }
        book.add_row(row)?;
    }
    Ok(Some(book))
}

impl KeyBook {
    /// The book of these rows, in their order, or `None` if two have one identifier or one digest. Takes memory for the
    /// indexes. They are sorted at once, or filled row by row where two digests have one front.
    pub fn of_rows(alloc: Global, rows: Vec<KeyRow>) -> Result<Option<KeyBook>, NoMemory>
        requires most { length rows.items ≤ MOST_KEYS }
        requires each { All IsKeyRow rows.items }
        ensures { IfOk result (λ found. MatchOption found (¬ IsKeyBook rows.items) (λ book. book ≡ rows.items)) }
    {
        match indexes_of(alloc, &rows)? {
            Some((by_id, by_front)) => Ok(Some(KeyBook {
                table: Table {
                    rows,
                    by_id,
                    by_front,
                },
            })),
            None => one_by_one(alloc, rows),
        }
    }
}

/// The most keys that an inventory lists (profile).
pub const MOST_LISTED: usize = 256;

/// The keys of a range of identifiers.
#[derive(Debug, Drop)]
pub struct Inventory {
    /// How many keys of the book lie in the range.
    pub total: u16,
    /// The first of them, at most [`MOST_LISTED`], ascending by identifier.
    pub rows: KeyRows,
}

/// The keys with identifiers from `first` to `last`, in the order of the rows.
fn listed(
    alloc: Global,
    rows: &[KeyRow],
    first: u16,
    last: u16,
) -> Result<Vec<(KeyId, KeyState)>, AllocError>
    ensures { IfOk result (λ keys. keys.items ≡ listed rows.now first last) }
{
    rows.iter()
        .filter(|row| first <= row.id.get() && row.id.get() <= last)
        .map(|row| (row.id, row.state))
        .collect(alloc)
}

impl Inventory {
    ghost use Rattle.key_book.specs.Inventory.{IsInventory};

    pub(crate) fn of(
        alloc: Global,
        rows: &[KeyRow],
        first: u16,
        last: u16,
    ) -> Result<Inventory, NoMemory>
        requires { length rows.now ≤ MOST_KEYS }
        ensures { IfOk result (IsInventory rows.now first last) }
    {
        let mut keys = listed(alloc, rows, first, last)?;
        let total = keys.len() as u16;
        keys.sort_by_key(|key| key.0)?;
        keys.truncate(MOST_LISTED);
        Ok(Inventory {
            total,
            rows: KeyRows::new(keys),
        })
    }
}
