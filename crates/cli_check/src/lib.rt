//! The word `check`: one AOS transfer frame (CCSDS 732.0-B-4) that carries a CMAC (CCSDS 355.0-B-2) is judged under a
//! key.
//!
//! [`run_check`] reads the frame from a `Source`, and writes its data field or the first check that fails to a `Site`.
//! [`check_frame`] judges a frame in memory.
#![tactic(auto)]

mod check;

pub use check::{GREATEST_LENGTH, Refusal, check_frame, run_check};
