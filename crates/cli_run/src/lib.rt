//! One worker that serves a run of the unit: it reads segments, has their records handled, writes the answers, and at
//! the end releases what was not used and writes End.
#![tactic(auto)]

mod running;
mod serving;

pub use frame_workers::{Gate, OpenGate};
pub use running::{finish, run_recorded};
pub use serving::{Session, Stop};
