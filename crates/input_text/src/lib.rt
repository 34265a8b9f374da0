//! The recorded input of `run` as text, a line an item (profile).
//!
//! [`read_line`] says what a line says, and [`put_item`] adds its octets to a text.
#![tactic(auto)]

mod commands;
mod fault;
mod fields;
mod item;
mod line;

pub use fault::{Expected, LineError, LineFault, Seen};
pub use item::put_item;
pub use line::{Asked, Line, read_line};
