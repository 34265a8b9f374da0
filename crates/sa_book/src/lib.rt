//! The security associations of a unit (CCSDS 355.0-B-2, Security Associations; CCSDS 355.1-B-1, SA management).
//!
//! An `SaBook` is seen as the list of its rows, ascending by security parameter index. Its calls take an association
//! from unkeyed to keyed to operational and back, one state at a time, and each refuses by the first rule that the
//! change would break. Keys stand elsewhere: a call is given the state and the floor of the key that it needs.
#![tactic(auto)]

mod judging;
mod refusals;
mod sa_book;

pub use refusals::SaRefusal;
pub use sa_book::{SaBook, SaRow, rows_may_follow};
