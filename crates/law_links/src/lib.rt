//! Two units on one link (CCSDS 355.0-B-2; profile): what the one released, and what the other accepts of it, over the
//! lives of both.
//!
//! There is no code to run here: definitions stand in `specs`, and the functions are laws over them. Read
//! `specs/Linked.antt` first, and then `Carried`, which it stands on. [`two_units_on_one_link`] is the whole.
#![tactic(auto)]

mod laws;

pub use laws::{
    accepted_in_order, accepted_is_what_was_released, covered_frame_opens, no_triple_twice,
    one_device_in_a_life, released_frame_opens, released_is_accepted_once,
    two_units_by_covered_octets, two_units_on_one_link,
};
