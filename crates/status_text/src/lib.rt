//! The text of the state of a unit, a line each for the slots, the keys and the associations (profile).
//!
//! [`status_text`] is the one call.
#![tactic(auto)]

mod text;

pub use text::status_text;
