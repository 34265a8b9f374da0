//! A plan checked before `sdls init` takes it (profile): each line at fault, with the word and what was expected there,
//! or a summary of the state that the plan makes.
//!
//! [`check_plan`] checks a text, and [`put_plan`] what a source gives. Whether a text is a plan is decided by
//! `unit_plan` and `unit_state`. Which word of a line is at fault, and what was expected there, comes from `Above` of
//! `unit_plan`. `books` asks the books of keys and associations about the plan that is left without the lines at fault,
//! and `wanted` has the words for what was expected.
#![tactic(auto)]

mod books;
mod check;
mod wanted;

pub use check::{Checked, PlanEnd, check_plan, put_plan};
pub use wanted::PlanNote;
