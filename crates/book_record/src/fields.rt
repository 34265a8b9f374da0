//! The fields of a body, read at their places.
ghost use Rattle.std.specs.Prelude.{◌≡◌, ◌+◌, ◌<◌, ◌≤◌, length, take, drop};
ghost use Rattle.sdls_base.specs.Bounds.{IsKeyLength, IsKeyCount};
ghost use Rattle.sdls_base.specs.Code.{key_state_of, sa_state_of, new_state_of, direction_of, suite_of};
ghost use Rattle.sdls_base.specs.Places.{word_at};
ghost use Rattle.book_record.specs.KeyParts.{IsRowKeyLength};
ghost use Rattle.book_record.specs.Record.{IsKey, IsSpi};
ghost use Rattle.book_record.specs.Reading.{JudgesField, IsWithin};
ghost use Rattle.book_record.specs.RowReading.{held_of};

use crate::data::RecordError;
use sdls_base::{
    Direction, KeyId, KeyState, MOST_CHANNELS, MOST_KEYS_AT_ONCE, SaState, Spi, Suite, word_at,
};

/// So many octets from a place on.
pub(crate) fn array<const N: usize>(body: &[u8], at: usize) -> [u8; N]
    requires { at + N ≤ length body.now }
    ensures { result ≡ take N (drop at body.now) }
{
    let mut array = [0; N];
    array.copy_from_slice(&body[at..at + N]);
    array
}

pub(crate) fn key(body: &[u8], at: usize) -> Result<KeyId, RecordError>
    requires { at + 2 ≤ length body.now }
    ensures { JudgesField result (IsKey (word_at at body.now)) (word_at at body.now) }
{
    KeyId::new(word_at(body, at)).ok_or(RecordError::Malformed)
}

pub(crate) fn spi(body: &[u8], at: usize) -> Result<Spi, RecordError>
    requires { at + 2 ≤ length body.now }
    ensures { JudgesField result (IsSpi (word_at at body.now)) (word_at at body.now) }
{
    Spi::new(word_at(body, at)).ok_or(RecordError::Malformed)
}

/// A count of keys.
pub(crate) fn count(number: u8) -> Result<usize, RecordError>
    ensures { JudgesField result (IsKeyCount number) number }
{
    match usize::from(number) {
        count @ 1..=MOST_KEYS_AT_ONCE => Ok(count),
        _ => Err(RecordError::Malformed),
    }
}

/// The length of a key in octets.
pub(crate) fn key_length(number: u8) -> Result<usize, RecordError>
    ensures { JudgesField result (IsKeyLength number) number }
{
    match number {
        16 | 32 => Ok(usize::from(number)),
        _ => Err(RecordError::Malformed),
    }
}

/// The length of the key in a row, in octets: 0 where the row has none of the key.
pub(crate) fn row_key_length(number: u8) -> Result<usize, RecordError>
    ensures { JudgesField result (IsRowKeyLength number) number }
{
    match number {
        0 | 16 | 32 => Ok(usize::from(number)),
        _ => Err(RecordError::Malformed),
    }
}

/// A count of channels that a row has room for.
pub(crate) fn channel_count(number: u8) -> Result<usize, RecordError>
    ensures { JudgesField result (number ≤ MOST_CHANNELS) number }
{
    match usize::from(number) {
        count @ 0..=MOST_CHANNELS => Ok(count),
        _ => Err(RecordError::Malformed),
    }
}

/// The state of the key in a row.
pub(crate) fn row_key_state(number: u8) -> Result<KeyState, RecordError>
    ensures { JudgesField result (IsWithin 1 4 number) (key_state_of number) }
{
    KeyState::from_code(number).ok_or(RecordError::Malformed)
}

/// The state of the association in a row.
pub(crate) fn row_sa_state(number: u8) -> Result<SaState, RecordError>
    ensures { JudgesField result (IsWithin 1 3 number) (sa_state_of number) }
{
    SaState::from_code(number).ok_or(RecordError::Malformed)
}

/// The key that a row names: 0 names none.
pub(crate) fn held_key(row: &[u8], at: usize) -> Option<KeyId>
    requires { at + 2 ≤ length row.now }
    ensures { result ≡ held_of (word_at at row.now) }
{
    KeyId::new(word_at(row, at))
}

/// The state that keys take: never the one in which they are loaded.
pub(crate) fn key_state(number: u8) -> Result<KeyState, RecordError>
    ensures { JudgesField result (IsWithin 2 4 number) (key_state_of number) }
{
    match KeyState::from_code(number) {
        Some(KeyState::PreActive) | None => Err(RecordError::Malformed),
        Some(state) => Ok(state),
    }
}

/// The state that an association takes, `None` for its deletion.
pub(crate) fn sa_state(number: u8) -> Result<Option<SaState>, RecordError>
    ensures { JudgesField result (number ≤ 3) (new_state_of number) }
{
    match number {
        0 => Ok(None),
        code => SaState::from_code(code)
            .map(Some)
            .ok_or(RecordError::Malformed),
    }
}

pub(crate) fn direction(number: u8) -> Result<Direction, RecordError>
    ensures { JudgesField result (IsWithin 1 2 number) (direction_of number) }
{
    Direction::from_code(number).ok_or(RecordError::Malformed)
}

pub(crate) fn suite(number: u8) -> Result<Suite, RecordError>
    ensures { JudgesField result (IsWithin 1 2 number) (suite_of number) }
{
    Suite::from_code(number).ok_or(RecordError::Malformed)
}
