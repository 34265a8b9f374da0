//! An audit of what runs of a unit wrote: whether two answers use one number of a key, or accept one (profile). It
//! looks at answers alone. Of the unit it trusts that each header says what its answer is, and how long its body is.
//!
//! [`audit_recording`] reads a whole recording of runs from a source, in one pass. [`Audit::feed`] takes answers one
//! after the other, from wherever a caller has them, and says of each which earlier one it repeats. What octets of runs
//! count is defined in `specs`.
#![tactic(auto)]

mod audit;
mod walk;

pub use audit::{
    Audit, Repeat, audit_says_one, first_told_is_first, fronts_count, fronts_show,
    none_told_repeats_nothing, recording_reads_once,
};
pub use walk::{AuditEnd, AuditStop, audit_recording};
