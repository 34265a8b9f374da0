//! What `run` promises (profile): what an answer to a record may be, a sound run, a life of the unit, how a run ends,
//! and what a call adds to a life.
//!
//! There is little code here: [`RunEnd`] names the ends of a run, and [`MOST_ENTRIES`] is the most entries that it may
//! have. The rest is definitions, in `specs`. Read `Lives` first, whose `EndsAndLives` is what the top call promises,
//! and go down from there: `Call`, `Ends`, `Account`, `Causes`; `Life`, `Sound`, `Deed`; `Run`, `Legal`, `Fits`,
//! `Answers`, `Entries`, `Numbers`; and of one lane alone `Alone`, `Moves`, `Machine`, `Serving`.
#![tactic(auto)]

mod end;

pub use end::{MOST_ENTRIES, RunEnd};
