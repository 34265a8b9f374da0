//! AOS transfer frames (CCSDS 732.0-B-4), with an 8-bit spacecraft identifier and without the frame header error
//! control.
//!
//! `read` takes a frame of a layout apart, or names the first check that fails. `write` is its other direction. The
//! field of the security header, the data and the security trailer stand in the room between prefix and trailer fields.
#![tactic(auto)]

mod frame;

pub use frame::{
    Parts, fault_of, is_idle, lacks_header, read, spacecraft_of, take_apart, virtual_channel_of,
    write,
};
