//! The rows of keys.
ghost use Rattle.std.specs.Prelude.{◌≡◌, length, IfOk};
ghost use Rattle.key_book.specs.declared.key_row.KeyRow.{KeyRow};
ghost use Rattle.book_record.specs.KeyParts.{viewed, key_row_octets, IsRowKeyLength, HasKeyTypes, AreKeyRowOctets};
ghost use Rattle.book_record.specs.Reading.{JudgesField, IsReadUnlessNoMemory};
ghost use Rattle.book_record.specs.RowReading.{key_row_at, MayBeKeyRow};

use crate::data::{Data, KEY_ROOM, KEY_ROW_LENGTH, RecordError};
use crate::fields::{array, key, row_key_length, row_key_state};
use key_book::{KeyOctets, KeyRow};
use sdls_base::{KeyId, KeyState, number_at};
use std::fmt;

/// Writes the row of a key, 96 octets: identifier, state, length of the key, the key in 32 octets, digest, mark, floor,
/// zeros. Takes no memory.
#[tactic(auto, unfolding(crate::specs::KeyParts::key_row_octets))]
pub fn write_key_row(parts: &KeyView<'_>) -> [u8; KEY_ROW_LENGTH]
    requires { IsRowKeyLength (length parts.now.bytes.now) }
    ensures spelled { result ≡ key_row_octets (viewed parts.now) }
    // What is written is a row, which `read_key_row` reads as these parts.
    ensures row_of { AreKeyRowOctets (viewed parts.now) result }
{
    let digest = parts.digest;
    let mut octets = Data::new();
    octets.put_word(parts.id.get());
    octets.put_octet(parts.state as u8);
    octets.put_octet(parts.bytes.len() as u8);
    octets.put_padded(parts.bytes, KEY_ROOM);
    octets.put(digest);
    octets.put_number(parts.mark);
    octets.put_number(parts.floor);
    octets.row()
}

/// The row at the places of the octets, whatever stands in those that are not used.
fn key_row(row: &[u8]) -> Result<KeyRow, RecordError>
    requires { length row.now ≡ KEY_ROW_LENGTH }
    ensures { JudgesField result (MayBeKeyRow row.now) (key_row_at row.now) }
{
    let id = key(row, 0)?;
    let state = row_key_state(row[2])?;
    let length = row_key_length(row[3])?;
    Ok(KeyRow {
        id,
        state,
        bytes: KeyOctets::new(&row[4..4 + length]),
        digest: array(row, 36),
        mark: number_at(row, 68),
        floor: number_at(row, 76),
    })
}

/// Reads the row of a key, which is all 96 octets. `Malformed` comes exactly where they are no row of a key: also
/// where an octet behind the key, or at the end, is not zero. Takes no memory.
pub fn read_key_row(row: &[u8; KEY_ROW_LENGTH]) -> Result<KeyRow, RecordError>
    // What is read has these octets as its row.
    ensures found { IfOk result (λ parts. AreKeyRowOctets parts row.now) }
    // What has these octets as its row is read.
    ensures only { (parts : KeyRow) → AreKeyRowOctets parts row.now → IsReadUnlessNoMemory result parts }
{
    let parts = key_row(row)?;
    // A key has one row: the octets that are not used are compared with it.
    if write_key_row(&KeyView::of(&parts)) == *row {
        Ok(parts)
    } else {
        Err(RecordError::Malformed)
    }
}

/// The row of a key, borrowed: its octets are written of it without taking memory. `Debug` prints identifier and state
/// alone.
#[derive(Clone, Copy)]
pub struct KeyView<'a> {
    pub id: KeyId,
    pub state: KeyState,
    /// The key itself, 16 or 32 octets, or none.
    pub bytes: &'a [u8],
    /// The SHA-256 digest of the key.
    pub digest: &'a [u8; 32],
    /// Numbers below it may have been used for sending.
    pub mark: u64,
    /// Numbers up to it may have been accepted.
    pub floor: u64,
}

impl fmt::Debug for KeyView<'_> {
    fn fmt<W: fmt::Write>(&self, f: &mut fmt::Formatter<W>) -> fmt::Result {
        write!(f, "KeyView({}, {:?})", self.id.get(), self.state)
    }
}

impl<'a> KeyView<'a> {
    ghost use Rattle.std.specs.Prelude.{◌≡◌};
    ghost use Rattle.book_record.specs.KeyParts.{viewed};

    /// The row of a book, borrowed.
    pub fn of(row: &'a KeyRow) -> KeyView<'a>
        ensures { viewed result ≡ row.now }
    {
        KeyView {
            id: row.id,
            state: row.state,
            bytes: row.bytes.as_slice(),
            digest: &row.digest,
            mark: row.mark,
            floor: row.floor,
        }
    }
}
