//! The rows of a book, with an index by identifier and one by digest.

//! An index: where numbers first stand in a list.

//! The digests of keys that are to be loaded, each computed once.
ghost use Rattle.sha2.specs.Sha256.{sha256};
ghost use Rattle.std.specs.Prelude.{◌≡◌, ℕ, ◌+◌, ◌<◌, ◌≤◌, ◌++◌, [], ◌∷◌, length, map, All, IfOk, IfSome, OnOk};
ghost use Rattle.std.specs.Prelude.{OnErr, ◌↔◌, IfErr, IsPermutation, IsTrue, vec_capacity, vec_len, position};
ghost use Rattle.std.specs.Prelude.{slice_index_or};
ghost use Rattle.std.specs.Str.{bytes_eq};
ghost use Rattle.key_book.specs.KeyRow.{new_row};
ghost use Rattle.key_book.specs.KeyBook.{place_of};
ghost use Rattle.key_book.specs.KeyRefusal.{place_with};
ghost use Rattle.key_book.specs.Table.{front, AreNumbersOf, IsIndexApart, IsIndexed, HasRoom};
ghost use Rattle.key_book.specs.Index.{place_in, place_noted, IsAscending, IsAt, IsGapFor};
ghost use Rattle.key_book.specs.Digests.{Knows};
ghost use Rattle.sdls_base.specs.Bounds.{IsKeyLength};
ghost use Rattle.sdls_base.specs.declared.TheConstants.{MOST_KEYS};
ghost use Rattle.sdls_base.specs.declared.key_id.KeyItem.{KeyItem};

use crate::key_row::{KeyRow, digest};
use sdls_base::{KeyId, KeyItem, MOST_KEYS_AT_ONCE, NoMemory};
use std::alloc::Global;

/// The rows of a book in the order of loading, found by identifier and by digest without a pass over them.
#[derive(Drop)]
pub(crate) struct Table {
    pub(crate) rows: Vec<KeyRow>,
    pub(crate) by_id: Index,
    /// By the front of the digest, which few rows share.
    pub(crate) by_front: Index,
}

/// The front of a digest.
fn front(digest: &[u8; 32]) -> u32
    ensures { result ≡ front digest.now }
{
    u32::from_be_bytes([digest[0], digest[1], digest[2], digest[3]])
}

/// The place of the first row with a digest, by a pass over the rows.
fn scan(rows: &[KeyRow], digest: &[u8; 32]) -> Option<usize>
    ensures { result ≡ place_with rows.now digest.now }
{
    rows.iter().position(|row| row.digest == *digest)
}

/// The identifier of each row, with the row's place.
fn identifiers(alloc: Global, rows: &[KeyRow]) -> Result<Vec<Entry>, NoMemory>
    requires { length rows.now ≤ MOST_KEYS }
    ensures { IfOk result (λ entries. AreNumbersOf (λ row. row.id) rows.now entries.items) }
{
    let mut entries = Vec::with_capacity(alloc, rows.len())?;
    for (i, row) in rows.iter().enumerate() {
        let number = u32::from(row.id.get());
        let place = i as u16;
        entries.push(Entry { number, place })?;
    }
    Ok(entries)
}

/// The front of each row's digest, with the row's place.
fn fronts(alloc: Global, rows: &[KeyRow]) -> Result<Vec<Entry>, NoMemory>
    requires { length rows.now ≤ MOST_KEYS }
    ensures { IfOk result (λ entries. AreNumbersOf (λ row. front row.digest) rows.now entries.items) }
{
    let mut entries = Vec::with_capacity(alloc, rows.len())?;
    for (i, row) in rows.iter().enumerate() {
        let number = front(&row.digest);
        let place = i as u16;
        entries.push(Entry { number, place })?;
    }
    Ok(entries)
}

/// The index of the rows by identifier, if no two have one.
fn index_by_id(alloc: Global, rows: &[KeyRow]) -> Result<Option<Index>, NoMemory>
    requires { length rows.now ≤ MOST_KEYS }
    ensures { IfOk result (λ found. IfSome found (λ index.
        IsIndexApart (λ row. row.id) rows.now index.entries.items)) }
{
    let entries = identifiers(alloc, rows)?;
    Ok(Index::sorted(entries))
}

/// The index of the rows by the front of the digest, if no two have one.
fn index_by_front(alloc: Global, rows: &[KeyRow]) -> Result<Option<Index>, NoMemory>
    requires { length rows.now ≤ MOST_KEYS }
    ensures { IfOk result (λ found. IfSome found (λ index.
        IsIndexApart (λ row. front row.digest) rows.now index.entries.items)) }
{
    let entries = fronts(alloc, rows)?;
    Ok(Index::sorted(entries))
}

/// The indexes of the rows, by identifier and by the front of the digest, if no two have one of either.
pub(crate) fn indexes_of(alloc: Global, rows: &[KeyRow]) -> Result<Option<(Index, Index)>, NoMemory>
    requires { length rows.now ≤ MOST_KEYS }
    ensures { IfOk result (λ found. IfSome found (λ indexes.
        IsIndexApart (λ row. row.id) rows.now indexes.0.entries.items
        × IsIndexApart (λ row. front row.digest) rows.now indexes.1.entries.items)) }
{
    let Some(by_id) = index_by_id(alloc, rows)? else {
        return Ok(None);
    };
    match index_by_front(alloc, rows)? {
        Some(by_front) => Ok(Some((by_id, by_front))),
        None => Ok(None),
    }
}

impl Table {
    pub(crate) fn new(alloc: Global) -> Table
        ensures rows { result.rows.items ≡ [] }
        ensures indexed { IsIndexed result }
    {
        Table {
            rows: Vec::new(alloc),
            by_id: Index::new(alloc),
            by_front: Index::new(alloc),
        }
    }

    /// The place of the row of a key.
    pub(crate) fn place(&self, id: KeyId) -> Option<usize>
        requires { IsIndexed self.now }
        ensures { result ≡ place_of self.now.rows.items id }
    {
        self.by_id.place(u32::from(id.get()))
    }

    /// The place of the first row with a digest.
    pub(crate) fn place_with(&self, digest: &[u8; 32]) -> Option<usize>
        requires { IsIndexed self.now }
        ensures { result ≡ place_with self.now.rows.items digest.now }
    {
        let i = self.by_front.place(front(digest))?;
        if self.rows[i].digest == *digest {
            Some(i)
        } else {
            scan(&self.rows, digest)
        }
    }

    /// Takes room for some rows more.
    fn reserve(&mut self, more: usize) -> Result<(), NoMemory>
        requires { IsIndexed self.old }
        ensures rows { self.new.rows.items ≡ self.old.rows.items }
        ensures indexed { IsIndexed self.new }
        ensures room { OnOk result (HasRoom more self.new) }
    {
        self.rows.reserve(more)?;
        self.by_id.reserve(more)?;
        self.by_front.reserve(more)
    }

    /// Writes a row last. Room for it was reserved.
    fn push_reserved(&mut self, row: KeyRow)
        requires indexed { IsIndexed self.old }
        requires room { HasRoom 1 self.old }
        requires few { length self.old.rows.items < MOST_KEYS }
        ensures rows { self.new.rows.items ≡ self.old.rows.items ++ row ∷ [] }
        ensures indexed { IsIndexed self.new }
        ensures room { (more : ℕ) → HasRoom (more + 1) self.old → HasRoom more self.new }
    {
        let place = self.rows.len() as u16;
        self.by_id.note(u32::from(row.id.get()), place);
        self.by_front.note(front(&row.digest), place);
        self.rows.push_reserved(row);
    }

    /// Writes a row last, or leaves all as it was.
    pub(crate) fn push(&mut self, row: KeyRow) -> Result<(), NoMemory>
        requires indexed { IsIndexed self.old }
        requires few { length self.old.rows.items < MOST_KEYS }
        ensures indexed { IsIndexed self.new }
        ensures pushed { OnOk result (self.new.rows.items ≡ self.old.rows.items ++ row ∷ []) }
        ensures kept { OnErr result (self.new.rows.items ≡ self.old.rows.items) }
    {
        self.reserve(1)?;
        self.push_reserved(row);
        Ok(())
    }

    /// Writes the rows of loaded keys last, or leaves all as it was.
    pub(crate) fn append(&mut self, items: &[KeyItem]) -> Result<(), NoMemory>
        requires indexed { IsIndexed self.old }
        requires lengths { All (λ item. IsKeyLength (length item.bytes)) items.now }
        requires few { length self.old.rows.items + length items.now ≤ MOST_KEYS }
        ensures indexed { IsIndexed self.new }
        ensures appended { OnOk result (self.new.rows.items ≡ self.old.rows.items ++ map new_row items.now) }
        ensures kept { OnErr result (self.new.rows.items ≡ self.old.rows.items) }
    {
        self.reserve(items.len())?;
        for item in items {
            let digest = digest(item.bytes.as_slice());
            self.push_reserved(KeyRow::loaded(item, digest));
        }
        Ok(())
    }

    /// An equal table.
    pub(crate) fn copy(&self) -> Result<Table, NoMemory>
        requires { IsIndexed self.now }
        ensures rows { IfOk result (λ table. table.rows.items ≡ self.now.rows.items) }
        ensures indexed { IfOk result IsIndexed }
    {
        let rows = Vec::from_slice(*self.rows.allocator(), self.rows.as_slice())?;
        let by_id = self.by_id.copy()?;
        let by_front = self.by_front.copy()?;
        Ok(Table {
            rows,
            by_id,
            by_front,
        })
    }
}

/// A number, and the first place where it stands.
#[derive(Clone, Copy)]
pub(crate) struct Entry {
    pub(crate) number: u32,
    pub(crate) place: u16,
}

/// Whether the numbers rise, so that none comes twice.
fn is_ascending(entries: &[Entry]) -> bool
    ensures { IsTrue result ↔ IsAscending entries.now }
{
    for i in 1..entries.len() {
        if entries[i - 1].number >= entries[i].number {
            return false;
        }
    }
    true
}

/// The numbers of a list with the first place of each, ascending by number.
#[derive(Drop)]
pub(crate) struct Index {
    pub(crate) entries: Vec<Entry>,
}

impl Index {
    pub(crate) fn new(alloc: Global) -> Index
        ensures { result.entries.items ≡ [] }
    {
        Index {
            entries: Vec::new(alloc),
        }
    }

    /// The index of these entries, sorted at once, if no two have one number. Takes no memory.
    pub(crate) fn sorted(mut entries: Vec<Entry>) -> Option<Index>
        ensures same { IfSome result (λ index. IsPermutation entries.items index.entries.items) }
        ensures ascending { IfSome result (λ index. IsAscending index.entries.items) }
    {
        entries.sort_unstable_by_key(|entry| entry.number);
        if is_ascending(&entries) {
            Some(Index { entries })
        } else {
            None
        }
    }

    /// The entry of a number, or where it would stand.
    fn search(&self, number: u32) -> Result<usize, usize>
        requires { IsAscending self.now.entries.items }
        ensures found { IfOk result (IsAt self.now.entries.items number) }
        ensures absent { IfErr result (IsGapFor self.now.entries.items number) }
    {
        self.entries
            .binary_search_by_key(&number, |entry| entry.number)
    }

    /// The first place of a number.
    pub(crate) fn place(&self, number: u32) -> Option<usize>
        requires { IsAscending self.now.entries.items }
        ensures { result ≡ place_in self.now.entries.items number }
    {
        match self.search(number) {
            Ok(at) => Some(usize::from(self.entries[at].place)),
            Err(_) => None,
        }
    }

    /// Takes room for some numbers more.
    pub(crate) fn reserve(&mut self, more: usize) -> Result<(), NoMemory>
        ensures kept { self.new.entries.items ≡ self.old.entries.items }
        ensures room { OnOk result (vec_len self.new.entries + more ≤ vec_capacity self.new.entries) }
    {
        self.entries.reserve(more)?;
        Ok(())
    }

    /// Notes the place of a number, if it has none. Room for it was reserved.
    pub(crate) fn note(&mut self, number: u32, place: u16)
        requires ascending { IsAscending self.old.entries.items }
        requires room { vec_len self.old.entries < vec_capacity self.old.entries }
        ensures ascending { IsAscending self.new.entries.items }
        ensures noted { (other : ℕ) → place_in self.new.entries.items other
            ≡ place_noted (place_in self.old.entries.items other) number place other }
        ensures length { vec_len self.new.entries ≤ vec_len self.old.entries + 1 }
        ensures capacity { vec_capacity self.new.entries ≡ vec_capacity self.old.entries }
    {
        if let Err(at) = self.search(number) {
            self.entries.insert(at, Entry { number, place }).unwrap();
        }
    }

    /// An equal index.
    pub(crate) fn copy(&self) -> Result<Index, NoMemory>
        ensures { IfOk result (λ index. index.entries.items ≡ self.now.entries.items) }
    {
        let entries = Vec::from_slice(*self.entries.allocator(), self.entries.as_slice())?;
        Ok(Index { entries })
    }
}

/// The digests of the first keys of a list, as many as a command loads at most. That of a later key is computed each
/// time.
#[derive(Drop)]
pub(crate) struct Digests {
    pub(crate) first: [[u8; 32]; MOST_KEYS_AT_ONCE],
}

impl Digests {
    /// The digests of these keys. Takes no memory.
    pub(crate) fn of(items: &[KeyItem]) -> Digests
        ensures { Knows result.first items.now }
    {
        let mut first = [[0; 32]; MOST_KEYS_AT_ONCE];
        for i in 0..items.len().min(MOST_KEYS_AT_ONCE) {
            first[i] = digest(items[i].bytes.as_slice());
        }
        Digests { first }
    }

    /// The digest of the key at a place.
    pub(crate) fn at(&self, items: &[KeyItem], i: usize) -> [u8; 32]
        requires known { Knows self.now.first items.now }
        requires within { i < length items.now }
        ensures { (item : KeyItem) → result ≡ sha256 (slice_index_or items.now i item).bytes }
    {
        if i < MOST_KEYS_AT_ONCE {
            self.first[i]
        } else {
            digest(items[i].bytes.as_slice())
        }
    }

    /// The place of the first key with a digest.
    pub(crate) fn place(&self, items: &[KeyItem], own: &[u8; 32]) -> Option<usize>
        requires { Knows self.now.first items.now }
        ensures { result ≡ position (λ item. bytes_eq (sha256 item.bytes) own.now) items.now }
    {
        for i in 0..items.len() {
            if self.at(items, i) == *own {
                return Some(i);
            }
        }
        None
    }
}
