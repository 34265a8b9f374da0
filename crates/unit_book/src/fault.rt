use thiserror::Error;

/// Why a call on a book is refused.
#[derive(Clone, Copy, Debug, PartialEq, Eq, Error)]
pub enum BookFault {
    /// The site failed in this call; the count of its faults.
    #[error("site failed: {0} faults")]
    SiteFault(u64),
    /// The site failed since the book was opened, and the call would add an entry; the count of its faults.
    #[error("book stopped when the site failed: {0} faults")]
    Stopped(u64),
    /// The run has as many entries as it may.
    #[error("run has as many entries as it may")]
    SessionFull,
    /// Memory ran out.
    #[error("no memory")]
    NoMemory,
}
