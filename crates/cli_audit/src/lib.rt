//! The word `audit`: an audit of a recording of runs, from a source to a line and a status.
//!
//! [`run_audit`] reads the recording in one pass, writes what `pair_audit` says of it, and does nothing else to the
//! site: no image is needed, and none is touched.
#![tactic(auto)]

mod audit;

pub use audit::run_audit;
