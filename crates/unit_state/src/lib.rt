//! The state of a space link security unit (CCSDS 355.0-B-2 and 355.1-B-1): its keys, its security associations, and
//! the changes that commands, frames and reserves make of them.
//!
//! Read `specs/Applied.antt` first: what each change makes of a state. `State::allows` says whether a state allows a
//! change, and `State::apply` makes it. Nothing here decides on commands, and nothing is stored.
#![tactic(auto)]

mod allowing;
mod changing;
mod laws;
mod starting;
mod state;

pub use laws::{
    alike_allows, alike_applied, epochs_add, epochs_stay, histories_go_on, marks_fall_only_so,
    numbers_rise, octets_differ, places_stay, rest_stays, restarts_once, rules_stay, serve_alike,
    stored_well, unstored_stays,
};
pub use state::{State, counts, least_with, restarted_high};
