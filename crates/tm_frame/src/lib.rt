//! TM transfer frames (CCSDS 132.0-B-3), with or without secondary header, operational control field and frame error
//! control field.
//!
//! `read` takes a frame of a layout apart, or names the first check that fails. `write` is its other direction. The
//! security header, the data and the security trailer stand in the room behind the prefix.
#![tactic(auto)]

mod frame;

pub use frame::{
    Parts, fault_of, lacks_header, read, spacecraft_of, take_apart, virtual_channel_of, write,
};
