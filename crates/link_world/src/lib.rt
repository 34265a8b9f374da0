//! A link between two units (profile): it loses, repeats and reorders released frames, and delivers no others.
//!
//! [`link_run`] says what arrives of the frames that were released; [`fate`] what becomes of each frame of a drill.
//! Read `specs/Link.antt` first.
#![tactic(auto)]

mod fates;
mod link;

pub use fates::Fate;
pub use link::{
    LinkEvent, add_deliveries, arrivals_were_released, fate, is_lost, link_run,
    released_chunk_arrives,
};
