//! TC transfer frames (CCSDS 232.0-B-4), with or without segment header and frame error control field.
//!
//! `read` takes a frame of a layout apart, or names the first check that fails. `write` is its other direction. The
//! security header, the data and the security trailer stand in the room behind the prefix.
#![tactic(auto)]

mod frame;

pub use frame::{
    Parts, fault_of, is_control, lacks_header, map_of, put_prefix, read, spacecraft_of, take_apart,
    virtual_channel_of, write,
};
