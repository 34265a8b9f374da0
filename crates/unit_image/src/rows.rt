//! The rows of books, written into a content.

//! The rows of a content, read.
//! What a book of keys asks of a row.

//! What a book of security associations asks of a row.
ghost use Rattle.sha2.specs.Sha256.{sha256};
ghost use Rattle.std.specs.Prelude.{◌≡◌, ◌+◌, ◌*◌, ◌≤◌, ◌++◌, length, take, replicate, All, ℕ, List, [], IfOk, IfErr};
ghost use Rattle.std.specs.Prelude.{◌↔◌, IsTrue, IfSome, IsNone, Some, Contains};
ghost use Rattle.sdls_base.specs.Bounds.{IsKeyLength, IsWidth};
ghost use Rattle.sdls_base.specs.KeyId.{class_of};
ghost use Rattle.sdls_base.specs.Suite.{class_of_suite};
ghost use Rattle.sdls_base.specs.declared.states.Direction.TheVariants.{Receive};
ghost use Rattle.sdls_base.specs.declared.states.SaState.TheVariants.{Unkeyed, Operational};
ghost use Rattle.key_book.specs.KeyRow.{HasBytes, IsKeyRow};
ghost use Rattle.key_book.specs.declared.key_row.KeyRow.{KeyRow};
ghost use Rattle.key_book.specs.KeyBook.{IsKeyBook};
ghost use Rattle.sa_book.specs.SaRow.{IsSaRow, HasHigh};
ghost use Rattle.sa_book.specs.declared.sa_book.SaRow.{SaRow};
ghost use Rattle.sa_book.specs.SaBook.{RowsAreApart, MayFollow};
ghost use Rattle.book_record.specs.KeyParts.{key_row_octets, AreKeyRowOctets};
ghost use Rattle.book_record.specs.SaParts.{sa_parts, sa_row_octets};
ghost use Rattle.unit_image.specs.Content.{key_rows, sa_rows};
ghost use Rattle.unit_image.specs.ContentReading.{IsTypedKey, IsTypedSa, IsRestartedRow, AreKeyRows, AreSaRows};
ghost use Rattle.unit_image.specs.Rows.{HasRowsCause};
ghost use Rattle.unit_image.specs.declared.rows.RowsFault.TheVariants.{NoMemory};

use crate::content::keys_of;
use book_record::{
    KEY_ROW_LENGTH, KeyView, RecordError, SA_ROW_LENGTH, SaView, read_association, read_key_row,
    write_key_row, write_sa_row,
};
use key_book::{KeyBook, KeyRow};
use replay_window::MOST_BACK;
use sa_book::{SaBook, SaRow};
use sdls_base::{
    Direction, KeyId, KeyState, MOST_ASSOCIATIONS, MOST_WINDOW, NoMemory, SaState, are_channels,
    put,
};
use std::alloc::{AllocFailed, Global};
use thiserror::Error;
use unit_state::restarted_high;

/// Writes zeros from place `at` on, and returns the place after them.
pub(crate) fn put_zeros(out: &mut [u8], at: usize, count: usize) -> usize
    requires { at + count ≤ length out.old }
    ensures place { result ≡ at + count }
    ensures written { take result out.new ≡ take at out.old ++ replicate count 0 }
{
    let end = at + count;
    out[at..end].fill(0);
    end
}

/// The octets of a key's row, whatever its mark and floor.
pub fn spell_key_row(row: &KeyRow) -> [u8; KEY_ROW_LENGTH]
    requires { HasBytes row.now.state row.now.bytes row.now.digest }
    ensures spelled { result ≡ key_row_octets row.now }
    ensures types { IsTypedKey row.now }
{
    write_key_row(&KeyView::of(row))
}

fn spell_sa_row(row: &SaRow) -> [u8; SA_ROW_LENGTH]
    requires { IsSaRow row.now }
    ensures spelled { result ≡ sa_row_octets (sa_parts row.now) }
    ensures types { IsTypedSa row.now }
{
    write_sa_row(&SaView::of(row))
}

/// Writes the rows of keys from place `at` on, and returns the place after them.
pub(crate) fn put_key_rows(out: &mut [u8], at: usize, rows: &[KeyRow]) -> usize
    requires rules { All IsKeyRow rows.now }
    requires room { at + KEY_ROW_LENGTH * length rows.now ≤ length out.old }
    ensures place { result ≡ at + KEY_ROW_LENGTH * length rows.now }
    ensures written { take result out.new ≡ take at out.old ++ key_rows rows.now }
    ensures types { All IsTypedKey rows.now }
{
    let mut end = at;
    for row in rows {
        end = put(out, end, &spell_key_row(row));
    }
    end
}

/// Writes the rows of associations from place `at` on, and returns the place after them.
pub(crate) fn put_sa_rows(out: &mut [u8], at: usize, rows: &[SaRow]) -> usize
    requires rules { All IsSaRow rows.now }
    requires room { at + SA_ROW_LENGTH * length rows.now ≤ length out.old }
    ensures place { result ≡ at + SA_ROW_LENGTH * length rows.now }
    ensures written { take result out.new ≡ take at out.old ++ sa_rows rows.now }
    ensures types { All IsTypedSa rows.now }
{
    let mut end = at;
    for row in rows {
        end = put(out, end, &spell_sa_row(row));
    }
    end
}

/// The row of a key that these octets are.
fn key_row(octets: &[u8]) -> Result<KeyRow, RowsFault>
    requires { length octets.now ≡ KEY_ROW_LENGTH }
    ensures found { IfOk result (λ row. AreKeyRowOctets row octets.now) }
    ensures fault { IfErr result (λ fault. HasRowsCause fault
        ((row : KeyRow) → ¬ AreKeyRowOctets row octets.now)) }
{
    let mut row = [0; KEY_ROW_LENGTH];
    row.copy_from_slice(octets);
    match read_key_row(&row) {
        Ok(row) => Ok(row),
        Err(RecordError::Malformed) => Err(RowsFault::Unfit),
        Err(RecordError::NoMemory) => Err(RowsFault::NoMemory),
    }
}

/// The row of an association that these octets are, as a restart leaves it.
fn sa_row(alloc: Global, keys: &KeyBook, octets: &[u8]) -> Result<SaRow, RowsFault>
    requires { length octets.now ≡ SA_ROW_LENGTH }
    ensures found { IfOk result (λ row. IsRestartedRow keys.now row octets.now) }
    ensures fault { IfErr result (λ fault. HasRowsCause fault
        ((row : SaRow) → ¬ IsRestartedRow keys.now row octets.now)) }
{
    let mut row = [0; SA_ROW_LENGTH];
    row.copy_from_slice(octets);
    match read_association(alloc, &row) {
        Ok(mut row) => {
            let high = restarted_high(keys, &row);
            row.window.begin_at(high);
            Ok(row)
        }
        Err(RecordError::Malformed) => Err(RowsFault::Unfit),
        Err(RecordError::NoMemory) => Err(RowsFault::NoMemory),
    }
}

/// Room for so many rows.
fn room_for(alloc: Global, count: usize) -> Result<Vec<KeyRow>, NoMemory>
    ensures { IfOk result (λ rows. rows.items ≡ []) }
{
    Ok(Vec::with_capacity(alloc, count)?)
}

/// The rows of keys that these octets are, one behind the other.
fn key_rows(alloc: Global, octets: &[u8]) -> Result<Vec<KeyRow>, RowsFault>
    requires { (count : ℕ) × (length octets.now ≡ KEY_ROW_LENGTH * count) }
    ensures found { IfOk result (λ rows. AreKeyRows rows.items octets.now) }
    ensures fault { IfErr result (λ fault. HasRowsCause fault
        ((rows : List KeyRow) → ¬ AreKeyRows rows octets.now)) }
{
    let mut rows = room_for(alloc, octets.len() / KEY_ROW_LENGTH)?;
    let mut rest = octets;
    while !rest.is_empty() {
        let (first, behind) = rest.split_at(KEY_ROW_LENGTH);
        rows.push(key_row(first)?)?;
        rest = behind;
    }
    Ok(rows)
}

/// The book of the keys whose rows these octets are, one behind the other.
pub(crate) fn read_keys(alloc: Global, octets: &[u8]) -> Result<KeyBook, RowsFault>
    requires { (count : ℕ) × (length octets.now ≡ KEY_ROW_LENGTH * count) }
    ensures found { IfOk result (λ keys. AreKeyRows keys octets.now) }
    ensures fault { IfErr result (λ fault. HasRowsCause fault
        ((rows : List KeyRow) → IsKeyBook rows → ¬ AreKeyRows rows octets.now)) }
{
    let rows = key_rows(alloc, octets)?;
    keys_of(alloc, rows)
}

/// The rows of associations that these octets are, one behind the other, as a restart leaves them.
pub(crate) fn sa_rows(alloc: Global, keys: &KeyBook, octets: &[u8]) -> Result<Vec<SaRow>, RowsFault>
    requires { (count : ℕ) × (length octets.now ≡ SA_ROW_LENGTH * count) }
    ensures found { IfOk result (λ rows. AreSaRows keys.now rows.items octets.now) }
    ensures fault { IfErr result (λ fault. HasRowsCause fault
        ((rows : List SaRow) → ¬ AreSaRows keys.now rows octets.now)) }
{
    let mut rows = Vec::new(alloc);
    let mut rest = octets;
    while !rest.is_empty() {
        let (first, behind) = rest.split_at(SA_ROW_LENGTH);
        rows.push(sa_row(alloc, keys, first)?)?;
        rest = behind;
    }
    Ok(rows)
}

/// Why no state was made of rows.
#[derive(Clone, Copy, Debug, PartialEq, Eq, Error)]
pub enum RowsFault {
    /// The rows break a rule of a state.
    #[error("rows break a rule")]
    Unfit,
    /// Memory ran out.
    #[error("no memory")]
    NoMemory,
}

impl From<sdls_base::NoMemory> for RowsFault {
    ghost from_gives = { λ _ fault. fault ≡ NoMemory };

    fn from(_refused: sdls_base::NoMemory) -> RowsFault {
        RowsFault::NoMemory
    }
}

impl<T: Drop> From<AllocFailed<T>> for RowsFault {
    ghost from_gives = { λ _ fault. fault ≡ NoMemory };

    fn from(_refused: AllocFailed<T>) -> RowsFault {
        RowsFault::NoMemory
    }
}

fn is_key_length(length: usize) -> bool
    ensures { IsTrue result ↔ IsKeyLength length }
{
    length == 16 || length == 32
}

/// Whether these are the octets of a key with this digest.
fn is_key_of(bytes: &[u8], digest: &[u8; 32]) -> bool
    ensures { IsTrue result ↔ (IsKeyLength (length bytes.now) × (digest.now ≡ sha256 bytes.now)) }
{
    is_key_length(bytes.len()) && *digest == key_book::digest(bytes)
}

fn has_bytes(row: &KeyRow) -> bool
    ensures { IsTrue result ↔ HasBytes row.now.state row.now.bytes row.now.digest }
{
    let bytes = row.bytes.as_slice();
    match row.state {
        KeyState::Destroyed => bytes.is_empty(),
        KeyState::PreActive | KeyState::Active | KeyState::Deactivated => {
            is_key_of(bytes, &row.digest)
        }
    }
}

/// Whether the row keeps the rules of one key: octets exactly if it is not destroyed, and those of its digest; a mark
/// from 1 to its end, and a floor below that. Takes no memory.
pub fn is_key_row(row: &KeyRow) -> bool
    ensures { IsTrue result ↔ IsKeyRow row.now }
{
    let end = row.id.end();
    has_bytes(row) && 1 <= row.mark && row.mark <= end && row.floor < end
}

/// Whether each row keeps the rules of one key. Takes no memory.
pub(crate) fn are_key_rows(rows: &[KeyRow]) -> bool
    ensures { IsTrue result ↔ All IsKeyRow rows.now }
{
    for row in rows {
        if !is_key_row(row) {
            return false;
        }
    }
    true
}

fn is_width(width: u64) -> bool
    ensures { IsTrue result ↔ IsWidth width }
{
    1 <= width && width <= MOST_WINDOW
}

fn lacks_key_if_unkeyed(row: &SaRow) -> bool
    ensures { IsTrue result ↔ ((row.now.state ≡ Unkeyed) ↔ IsNone row.now.key) }
{
    match row.key {
        None => row.state == SaState::Unkeyed,
        Some(_) => row.state != SaState::Unkeyed,
    }
}

fn has_suite(row: &SaRow) -> bool
    ensures { IsTrue result ↔ IfSome row.now.key (λ key. class_of key ≡ class_of_suite row.now.suite) }
{
    match row.key {
        None => true,
        Some(key) => key.class() == row.suite.class(),
    }
}

fn has_high(row: &SaRow) -> bool
    ensures { IsTrue result ↔ HasHigh row.now.direction row.now.key row.now.window.high }
{
    match (row.direction, row.key) {
        (Direction::Receive, Some(key)) => row.window.high < key.end(),
        (Direction::Receive, None) | (Direction::Send, _) => row.window.high == 0,
    }
}

/// Whether the row keeps the rules of one association: a key exactly if it is not unkeyed, of the suite's class; a
/// highest number below the key's end if it receives with one, and else 0; a window and channels in their bounds.
/// Takes no memory.
pub fn is_association_row(row: &SaRow) -> bool
    ensures { IsTrue result ↔ IsSaRow row.now }
{
    lacks_key_if_unkeyed(row)
        && has_suite(row)
        && has_high(row)
        && is_width(row.window.width)
        && row.window.back <= MOST_BACK
        && are_channels(row.channels.as_slice())
}

fn covers(channels: &[u8], channel: u8) -> bool
    ensures { IsTrue result ↔ Contains channels.now channel }
{
    channels.contains(&channel)
}

fn share_none(channels: &[u8], others: &[u8]) -> bool
    ensures { IsTrue result ↔ ((channel : ℕ) → Contains channels.now channel → Contains others.now channel → ⊥) }
{
    for channel in channels {
        if covers(others, *channel) {
            return false;
        }
    }
    true
}

/// Whether the two are operational in one direction.
fn contend(one: &SaRow, other: &SaRow) -> bool
    ensures { IsTrue result ↔ ((one.now.state ≡ Operational) × (other.now.state ≡ Operational)
        × (one.now.direction ≡ other.now.direction)) }
{
    one.state == SaState::Operational
        && other.state == SaState::Operational
        && one.direction == other.direction
}

/// Whether the two do not both cover a channel, operational in one direction.
fn channels_apart(one: &SaRow, other: &SaRow) -> bool
    ensures { IsTrue result ↔ (one.now.state ≡ Operational → other.now.state ≡ Operational
        → one.now.direction ≡ other.now.direction
        → (channel : ℕ) → Contains one.now.channels channel → Contains other.now.channels channel → ⊥) }
{
    if !contend(one, other) {
        return true;
    }
    share_none(one.channels.as_slice(), other.channels.as_slice())
}

fn are_other_keys(key: Option<KeyId>, other: Option<KeyId>) -> bool
    ensures { IsTrue result ↔ ((held : ℕ) → key ≡ Some held → other ≡ Some held → ⊥) }
{
    match (key, other) {
        (Some(key), Some(other)) => key != other,
        _ => true,
    }
}

/// Whether the two do not both receive with one key.
fn keys_apart(one: &SaRow, other: &SaRow) -> bool
    ensures { IsTrue result ↔ (one.now.direction ≡ Receive → other.now.direction ≡ Receive
        → (key : ℕ) → one.now.key ≡ Some key → other.now.key ≡ Some key → ⊥) }
{
    one.direction != Direction::Receive
        || other.direction != Direction::Receive
        || are_other_keys(one.key, other.key)
}

fn are_apart(one: &SaRow, other: &SaRow) -> bool
    ensures { IsTrue result ↔ RowsAreApart one.now other.now }
{
    if one.spi.get() >= other.spi.get() {
        return false;
    }
    if !channels_apart(one, other) {
        return false;
    }
    keys_apart(one, other)
}

fn all_apart(rows: &[SaRow], row: &SaRow) -> bool
    ensures { IsTrue result ↔ All (λ other. RowsAreApart other row.now) rows.now }
{
    for other in rows {
        if !are_apart(other, row) {
            return false;
        }
    }
    true
}

/// Whether the row may be put behind those of the book: the condition of `SaBook::add_row`. Takes no memory.
pub fn may_follow_associations(book: &SaBook, row: &SaRow) -> bool
    ensures { IsTrue result ↔ MayFollow book.now row.now }
{
    let rows = book.rows();
    rows.len() < MOST_ASSOCIATIONS && is_association_row(row) && all_apart(rows, row)
}
