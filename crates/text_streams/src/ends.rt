//! Why a run ends.
ghost use Rattle.std.specs.Prelude.{◌≡◌};
ghost use Rattle.text_streams.specs.Status.{end_status};
ghost use Rattle.text_streams.specs.StateStream.{state_status};

use input_text::LineFault;
use record_io::status::{DONE, NO_MEMORY, REFUSED, SITE_FAULT, SOURCE_FAULT};

/// Why the input was read no further.
#[derive(Drop)]
pub enum End {
    /// It was read to its end.
    Done,
    /// This line, counted from 1, says nothing.
    LineFault(u64, LineFault),
    /// This line, counted from 1, is too long.
    LongLine(u64),
    /// The end of the input cuts the answer that begins at this octet, counted from 0.
    CutAnswer(u64),
    /// What begins at this octet, counted from 0, is no answer.
    NoAnswer(u64),
    /// What begins at this octet, counted from 0, is no item of the recorded input.
    NoItem(u64),
    SourceFault,
    OutputFault,
    NoMemory,
}

impl End {
    /// The exit status.
    pub fn status(&self) -> u8
        ensures { result ≡ end_status self.now }
    {
        match self {
            End::Done => DONE,
            End::LineFault(_, _)
            | End::LongLine(_)
            | End::CutAnswer(_)
            | End::NoAnswer(_)
            | End::NoItem(_) => REFUSED,
            End::SourceFault => SOURCE_FAULT,
            End::OutputFault => SITE_FAULT,
            End::NoMemory => NO_MEMORY,
        }
    }
}

/// Why the input was read no further.
#[derive(Clone, Copy, Debug, PartialEq, Eq)]
pub enum StateEnd {
    /// It was read to its end.
    Done,
    /// This line, counted from 1, is none that `stat` prints; or it is the last, and lacks its line feed.
    NoLine(u64),
    /// This line, counted from 1, is too long.
    LongLine(u64),
    SourceFault,
    OutputFault,
    NoMemory,
}

impl StateEnd {
    /// The exit status.
    pub fn status(self) -> u8
        ensures { result ≡ state_status self }
    {
        match self {
            StateEnd::Done => DONE,
            StateEnd::NoLine(_) | StateEnd::LongLine(_) => REFUSED,
            StateEnd::SourceFault => SOURCE_FAULT,
            StateEnd::OutputFault => SITE_FAULT,
            StateEnd::NoMemory => NO_MEMORY,
        }
    }
}
