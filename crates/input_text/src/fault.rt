//! Why a line is not read. What was expected is listed from the tables by which names are read, and a word is shown by
//! its first octets.
ghost use Rattle.std.specs.Prelude.{◌≡◌};
ghost use Rattle.input_text.specs.declared.fault.LineError.TheVariants.{NoMemory};

use ep_codec::Procedure;
use record_io::{ItemKind, RecordKind};
use sdls_base::{Direction, Suite};
use std::alloc::{AllocError, AllocFailed};
use std::{fmt, str};
use text_words::{
    direction_word, item_word, message_word, messages, procedure_word, procedures, suite_word,
};
use thiserror::Error;

/// What was expected at a word.
#[derive(Clone, Copy, Debug, Error)]
pub enum Expected {
    #[error("{kinds}, or a monitoring message, which is {messages}", kinds = Kinds, messages = Messages)]
    Kind,
    #[error("{messages}", messages = Messages)]
    Message,
    #[error("a lane, 0 to 15")]
    Lane,
    #[error("a lane, 0 to 255")]
    AnyLane,
    #[error("a link, 1 to 255, for the lane is 0")]
    Elsewhere,
    #[error("3 to 2048 octets, two hexadecimal digits each")]
    Asked,
    #[error("a link, 0 to 255")]
    Link,
    #[error("octets or a procedure, which are {procedures}", procedures = Procedures)]
    Procedure,
    #[error("an index, 1 to 65534")]
    Spi,
    #[error("a key, 1 to 65535")]
    Key,
    #[error("a number below 2^64")]
    Number,
    #[error("a number, 0 to 65535")]
    First,
    #[error("a number from the first on, at most 65535")]
    Last,
    #[error("{directions}", directions = Directions)]
    Direction,
    #[error("{suites}", suites = Suites)]
    Suite,
    #[error("a window, 1 to 4294967296")]
    Window,
    #[error("a back window, 1 to 64")]
    Back,
    #[error("a channel, 0 to 63")]
    Channel,
    #[error("a channel above the one before it")]
    Channels,
    #[error("12 octets, two hexadecimal digits each")]
    Vector,
    #[error("16 octets, two hexadecimal digits each")]
    Block,
    #[error("19 to 280 octets, two hexadecimal digits each")]
    Sealed,
    #[error("1 to 2048 octets, two hexadecimal digits each, or - for none")]
    Octets,
    #[error("a line feed alone, but the line ends with CR LF")]
    LineFeed,
    #[error("a line without a byte order mark before it")]
    NoMark,
    #[error("at most 8 keys")]
    EndOfKeys,
    #[error("at most 8 channels")]
    EndOfChannels,
    #[error("the end of the line")]
    End,
}

/// The first word of a line that does not continue it, and what was expected there.
#[derive(Clone, Copy, Debug, Error)]
#[error("column {column}, word {word}{seen}: expected {expected}")]
pub struct LineFault {
    /// The place of the word among the words, from 1; one more than there are if a word is missing.
    pub word: usize,
    /// The octet of the line with which it begins, from 1; if a word is missing, that behind the line or of a comment.
    pub column: usize,
    pub seen: Seen,
    pub expected: Expected,
}

/// Why a line was not read.
#[derive(Clone, Copy, Debug, Error)]
pub enum LineError {
    /// The line says nothing.
    #[error("{0}")]
    Fault(LineFault),
    /// Memory ran out.
    #[error("out of memory")]
    NoMemory,
}

impl From<AllocError> for LineError {
    ghost from_gives = { λ _ e. e ≡ NoMemory };

    fn from(_refused: AllocError) -> LineError {
        LineError::NoMemory
    }
}

impl<T: Drop> From<AllocFailed<T>> for LineError {
    ghost from_gives = { λ _ e. e ≡ NoMemory };

    fn from(_refused: AllocFailed<T>) -> LineError {
        LineError::NoMemory
    }
}

fn write_word<W: fmt::Write>(f: &mut fmt::Formatter<W>, word: &[u8]) -> fmt::Result {
    f.write_str(str::from_utf8(word).unwrap_or(""))
}

/// Writes the name of an item that is recorded.
fn write_kind<W: fmt::Write>(f: &mut fmt::Formatter<W>, kind: RecordKind) -> fmt::Result {
    write_word(f, item_word(ItemKind::Recorded(kind)))
}

/// The first words of lines, but for those of monitoring messages.
struct Kinds;

impl fmt::Display for Kinds {
    fn fmt<W: fmt::Write>(&self, f: &mut fmt::Formatter<W>) -> fmt::Result {
        for kind in [RecordKind::Protect, RecordKind::Open, RecordKind::Command] {
            write_kind(f, kind)?;
            f.write_str(", ")?;
        }
        write_word(f, item_word(ItemKind::Fence))?;
        f.write_str(" or at")
    }
}

/// The names of monitoring messages, and the word before the octets of one.
struct Messages;

impl fmt::Display for Messages {
    fn fmt<W: fmt::Write>(&self, f: &mut fmt::Formatter<W>) -> fmt::Result {
        for (place, name) in messages().iter().enumerate() {
            if place > 0 {
                f.write_str(", ")?;
            }
            write_word(f, message_word(*name))?;
        }
        f.write_str(" or ")?;
        write_kind(f, RecordKind::Monitor)
    }
}

/// The names of procedures.
struct Procedures;

impl fmt::Display for Procedures {
    fn fmt<W: fmt::Write>(&self, f: &mut fmt::Formatter<W>) -> fmt::Result {
        for (place, procedure) in procedures().iter().enumerate() {
            match *procedure {
                Procedure::Status => f.write_str(" and ")?,
                _ if place > 0 => f.write_str(", ")?,
                _ => {}
            }
            write_word(f, procedure_word(*procedure))?;
        }
        Ok(())
    }
}

/// The words for the directions of an association.
struct Directions;

impl fmt::Display for Directions {
    fn fmt<W: fmt::Write>(&self, f: &mut fmt::Formatter<W>) -> fmt::Result {
        write_word(f, direction_word(Direction::Send))?;
        f.write_str(" or ")?;
        write_word(f, direction_word(Direction::Receive))
    }
}

/// The words for the suites of an association.
struct Suites;

impl fmt::Display for Suites {
    fn fmt<W: fmt::Write>(&self, f: &mut fmt::Formatter<W>) -> fmt::Result {
        write_word(f, suite_word(Suite::Cmac))?;
        f.write_str(" or ")?;
        write_word(f, suite_word(Suite::Gcm))
    }
}

/// So many octets of a word are shown.
const MOST_SHOWN: usize = 32;

/// A word for a message: its first 32 octets. Those that are no visible ASCII are printed as `\x` and two digits.
#[derive(Clone, Copy, Debug)]
pub struct Seen {
    octets: [u8; MOST_SHOWN],
    len: usize,
}

impl Seen {
    pub fn of(word: &[u8]) -> Seen {
        let mut octets = [0; MOST_SHOWN];
        let shown = word.len().min(MOST_SHOWN);
        octets[..shown].copy_from_slice(&word[..shown]);
        Seen {
            octets,
            len: word.len(),
        }
    }
}

impl fmt::Display for Seen {
    fn fmt<W: fmt::Write>(&self, f: &mut fmt::Formatter<W>) -> fmt::Result {
        if self.len == 0 {
            return f.write_str(" missing");
        }
        f.write_str(" \"")?;
        for octet in &self.octets[..self.len.min(MOST_SHOWN)] {
            match *octet {
                33..=126 => f.write_char(char::from(*octet))?,
                octet => write!(f, "\\x{octet:02x}")?,
            }
        }
        if self.len > MOST_SHOWN {
            f.write_str("..")?;
        }
        f.write_str("\"")
    }
}
