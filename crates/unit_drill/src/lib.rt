//! A drill (profile): two units in memory, the one sending and the other receiving, and frames that are made from their
//! numbers alone. In chunks of 256 they are protected, opened, and the first of each opened again; one line has the
//! counts of the answers.
//!
//! [`drill`] is the call. Read `specs/UnitRun.antt` and `specs/Drilled.antt` first: with which records the two units
//! ran, and what is counted of their answers. With [`drill_link`] the frames go over a link that loses, repeats and
//! delays them (crate `link_world`).
#![tactic(auto)]

mod chunk;
mod counts;
mod laws;
mod records;
mod running;
mod unit;

pub use counts::Counts;
pub use laws::{
    drill_is_complete, drill_is_sound, link_drill_is_complete, link_drill_is_sound, plans_are_read,
};
pub use running::{drill, drill_link};
