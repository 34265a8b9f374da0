//! Laws of histories, told by states, records and entries alone: what legal entries keep, and what answers that fit
//! say.
//!
//! There is no code to run here. The definitions are those of `run_promise`. The laws that bodies cite are functions
//! with an empty body; what proofs of other crates cite are lemmas in `proofs`.
#![tactic(auto)]

mod one;

pub use one::{messages_have_one_step, messages_need_one, openings_tell_one, rules_stay_along};
