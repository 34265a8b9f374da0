//! The pure core of a unit's numbers (profile): what each atomic step does to words, actors and marks, on plain data.
//!
//! Many actors step at the same time, so a run is a list of single steps, in any order, with crashes among them.
//! `World::step` does one, `World::run` a list of them, and the laws say what holds after every list: no pair of key
//! and number is used twice, in all lives. The shipped program does not run it. Its definitions stand in
//! specs/Core.antt, and what always holds in specs/Kept.antt.
#![tactic(auto)]

mod actor;
mod laws;
mod world;

pub use laws::{kept_always, used_once};
pub use world::{Key, Step, World};
