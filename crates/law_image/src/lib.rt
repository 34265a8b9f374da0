//! Laws of images (profile): each shows a state or is refused; what the image that a plan begins with shows; what an
//! opening or a migration leaves that a crash cuts off.
//!
//! There is no code to run here: the functions are laws over definitions, with an empty body.
#![tactic(auto)]

mod laws;

pub use laws::{
    beginning_shows, cut_beginning, migration_keeps_state, opening_keeps_forms, refused_exactly,
    shown_keeps_rules,
};
