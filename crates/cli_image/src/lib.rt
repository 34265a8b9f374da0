//! The words that need no threads: octets in, octets out, and a status at the end.
//!
//! [`run_plain`] serves them: `check KEY` and `audit` by crates of their own, `init`, which makes the image of a unit
//! from a plan, and `stat`, which prints what an image holds. All other words are answered with the usage line, `run`
//! and drills among them.
//!
//! The input comes from a `Source`, and what is written goes to a `Site`: both are traits of `sdls_outside`, so that a
//! clause can speak of what they hold.
#![tactic(auto)]

mod init;
mod plain;
mod stat;

pub use init::InitEnd;
pub use plain::run_plain;
pub use record_io::{Outcome, status};
pub use stat::StatEnd;
