//! The records of a segment, handled by workers of the unit that lanes share (profile): the lanes at once, the records
//! of each lane in their order.
//!
//! [`run_segment`] answers the records in the order of the input. How a lane waits for another at the turn, and when,
//! is seen by the caller's [`Gate`] alone.
#![tactic(auto)]

mod answering;
mod crew;
mod lane;
mod segment;

pub use crew::{Crew, LaneTask, LaneWork, Team, run_segment_by};
pub use lane::{Gate, KeptPermits, OpenGate};
pub use segment::{Segment, run_segment};
