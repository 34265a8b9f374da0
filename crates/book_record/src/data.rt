//! The data of a record or of a row, put one field after the other.
ghost use Rattle.std.specs.Prelude.{◌≡◌, ◌+◌, ◌≤◌, [], ◌∷◌, ◌++◌, length};
ghost use Rattle.std.specs.Int.{w16, w64, to_be_bytes};
ghost use Rattle.book_record.specs.Padded.{padded};
ghost use Rattle.book_record.specs.Record.{body_of};
ghost use Rattle.book_record.specs.Kind.{kind_of, number_of};
ghost use Rattle.book_record.specs.declared.data.RecordError.TheVariants.{NoMemory};

use sdls_base::{BODY_LENGTH, MOST_CHANNELS, put};
use std::alloc::{AllocError, AllocFailed};
use std::marker::Model;
use thiserror::Error;

/// The data that was put so far.
#[derive(Drop)]
pub(crate) struct Data {
    octets: [u8; DATA_ROOM],
    end: usize,
}

impl Model for Data {
    ghost use Rattle.std.specs.Prelude.{List, ℕ, take, ◌≤◌};

    ghost Value = { List ℕ };

    ghost view = { λ d. take d.end d.octets };

    ghost invariant = { λ d. d.end ≤ 508 };
}

impl Data {
    pub(crate) fn new() -> Data
        ensures { result ≡ [] }
    {
        Data {
            octets: [0; DATA_ROOM],
            end: 0,
        }
    }

    pub(crate) fn put(&mut self, field: &[u8])
        requires { length self.old + length field.now ≤ DATA_ROOM }
        ensures { self.new ≡ self.old ++ field.now }
    {
        self.end = put(&mut self.octets, self.end, field);
    }

    pub(crate) fn put_octet(&mut self, n: u8)
        requires { length self.old + 1 ≤ DATA_ROOM }
        ensures { self.new ≡ self.old ++ n ∷ [] }
    {
        self.put(&[n]);
    }

    pub(crate) fn put_word(&mut self, n: u16)
        requires { length self.old + 2 ≤ DATA_ROOM }
        ensures { self.new ≡ self.old ++ to_be_bytes w16 n }
    {
        self.put(&n.to_be_bytes());
    }

    pub(crate) fn put_number(&mut self, n: u64)
        requires { length self.old + 8 ≤ DATA_ROOM }
        ensures { self.new ≡ self.old ++ to_be_bytes w64 n }
    {
        self.put(&n.to_be_bytes());
    }

    /// Writes octets, and zeros behind them up to so many.
    pub(crate) fn put_padded(&mut self, field: &[u8], width: usize)
        requires fits { length field.now ≤ width }
        requires width { width ≤ MOST_PADDED }
        requires room { length self.old + width ≤ DATA_ROOM }
        ensures { self.new ≡ self.old ++ padded width field.now }
    {
        self.put(field);
        self.put(&[0; MOST_PADDED][..width - field.len()]);
    }

    /// The data with zeros behind it, as a row of so many octets.
    pub(crate) fn row<const N: usize>(&self) -> [u8; N]
        requires { length self.now ≤ N }
        ensures { result ≡ padded N self.now }
    {
        let mut row = [0; N];
        put(&mut row, 0, &self.octets[..self.end]);
        row
    }

    /// The body of a record of a kind with this data.
    pub(crate) fn body(&self, kind: u8) -> [u8; BODY_LENGTH]
        ensures { result ≡ body_of kind self.now }
    {
        let mut body = [0; BODY_LENGTH];
        let length_at = put(&mut body, 0, &[kind]);
        let data_at = put(&mut body, length_at, &(self.end as u16).to_be_bytes());
        put(&mut body, data_at, &self.octets[..self.end]);
        body
    }
}

/// The kind of a record. `as u8` gives its number.
#[derive(Clone, Copy, Debug, PartialEq, Eq)]
pub(crate) enum Kind {
    Marks = 1,
    Load = 2,
    KeyStates = 3,
    Create = 4,
    Rekey = 5,
    SaTo = 6,
    SetNumber = 7,
    SetWindow = 8,
}

impl Kind {
    /// The kind with this number.
    #[tactic(auto, unfolding(crate::specs::Kind::kind_of))]
    pub(crate) fn of(number: u8) -> Option<Kind>
        ensures { result ≡ kind_of number }
    {
        match number {
            1 => Some(Kind::Marks),
            2 => Some(Kind::Load),
            3 => Some(Kind::KeyStates),
            4 => Some(Kind::Create),
            5 => Some(Kind::Rekey),
            6 => Some(Kind::SaTo),
            7 => Some(Kind::SetNumber),
            8 => Some(Kind::SetWindow),
            _ => None,
        }
    }
}

/// Why a record was not read.
#[derive(Clone, Copy, Debug, PartialEq, Eq, Error)]
pub enum RecordError {
    /// The body is no record.
    #[error("malformed record")]
    Malformed,
    /// Memory ran out.
    #[error("no memory")]
    NoMemory,
}

impl From<AllocError> for RecordError {
    ghost from_gives = { λ _ e. e ≡ NoMemory };

    fn from(_refused: AllocError) -> RecordError {
        RecordError::NoMemory
    }
}

impl<T: Drop> From<AllocFailed<T>> for RecordError {
    ghost from_gives = { λ _ e. e ≡ NoMemory };

    fn from(_refused: AllocFailed<T>) -> RecordError {
        RecordError::NoMemory
    }
}

/// The octets before the data: the kind, and the length of the data.
pub(crate) const HEADER: usize = 3;

/// The most octets of data.
pub(crate) const DATA_ROOM: usize = BODY_LENGTH - HEADER;

/// The octets of a key's row in a bank (profile).
pub const KEY_ROW_LENGTH: usize = 96;

/// The octets of an association's row in a bank (profile).
pub const SA_ROW_LENGTH: usize = 32;

/// The octets that a key's row has for the key.
pub(crate) const KEY_ROOM: usize = 32;

/// The octets of a digest.
pub(crate) const DIGEST_LENGTH: usize = 32;

/// The octets that an association's row has for channels.
pub(crate) const CHANNEL_ROOM: usize = MOST_CHANNELS;

/// The most octets of a field with zeros behind it.
pub(crate) const MOST_PADDED: usize = KEY_ROOM;
