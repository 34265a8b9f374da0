//! One transfer frame protected and opened by the Space Data Link Security Protocol (CCSDS 355.0-B-2).
//!
//! `shield` makes the protected frame of a clear one, under a number that serves once. `unshield` is its other
//! direction, where the MAC is right. `fits` says beforehand whether a clear frame has its layout. Which numbers were
//! used or accepted, and which association a frame is for, is the caller's to know. No call takes memory.
#![tactic(auto)]

mod binding;
mod opening_frames;
mod protecting_frames;

pub use binding::{Binding, opens_once, protected_once, protected_opens};
pub use opening_frames::{Opened, unshield};
pub use protecting_frames::{Body, FRAME_ROOM, ShieldFault, body_of, fault_of, fits, shield};
pub use sdls_base::{AnyLayout, Link, Mask};
