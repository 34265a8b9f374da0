// Why a run ends.
ghost use Rattle.std.specs.Prelude.{◌≡◌};
ghost use Rattle.run_promise.specs.Account.{end_number, end_status};

use record_io::status::{
    DONE, MALFORMED, NO_MEMORY, NO_STATE, SESSION_FULL, SITE_FAULT, SOURCE_FAULT,
};

/// Why `run` ends.
#[derive(Clone, Copy, Debug, PartialEq, Eq)]
pub enum RunEnd {
    /// The whole input was read, and each record was answered.
    Ended,
    /// The input is malformed at this offset; each record before it was answered.
    Malformed(u64),
    /// The source failed; its count of faults.
    SourceFault(u64),
    /// The site failed; its count of faults.
    SiteFault(u64),
    /// Memory ran out.
    NoMemory,
    /// The image shows no state; the offset of the first check that fails.
    NoState(u64),
    /// The history of the run is full.
    SessionFull,
    /// A put failed.
    PutFailed,
}

impl RunEnd {
    /// The status that says so.
    pub fn status(self) -> u8
        ensures { result ≡ end_status self }
    {
        match self {
            RunEnd::Ended => DONE,
            RunEnd::Malformed(_) => MALFORMED,
            RunEnd::SourceFault(_) => SOURCE_FAULT,
            RunEnd::SiteFault(_) | RunEnd::PutFailed => SITE_FAULT,
            RunEnd::NoMemory => NO_MEMORY,
            RunEnd::NoState(_) => NO_STATE,
            RunEnd::SessionFull => SESSION_FULL,
        }
    }

    /// The offset or the count of faults; 0 where there is none.
    pub fn number(self) -> u64
        ensures { result ≡ end_number self }
    {
        match self {
            RunEnd::Malformed(number)
            | RunEnd::SourceFault(number)
            | RunEnd::SiteFault(number)
            | RunEnd::NoState(number) => number,
            RunEnd::Ended | RunEnd::NoMemory | RunEnd::SessionFull | RunEnd::PutFailed => 0,
        }
    }
}

/// The most entries of a run.
pub const MOST_ENTRIES: usize = 1_048_576;
