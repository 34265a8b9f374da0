//! The law that a unit's own recording passes the audit: what the runs of a life put repeats nothing (profile).
//!
//! There is no code to run here: the functions are laws over definitions.
#![tactic(auto)]

mod laws;

pub use laws::{recorded_life_is_clean, recorded_life_repeats_nothing};
