//! The counters that the workers of a unit share (profile): for each row, which is a key's, a word `next` and a word
//! `limit`; beside them the word `epoch`, and one place for the book, which only the holder of the turn has.
//!
//! A number is drawn by one fetch-add on `next`, and used only where it is below `limit`, which is never above the mark
//! that the book stored before. So no number is used twice, whatever other workers do between any two steps, and no
//! lock is on the way of a frame. A worker steps by a token of no bytes, whose view (`View`) is what it knows.
//!
//! Begin with `Counters::arm`, `draw` and `peek_limit`. The rule that holds between any two steps is `IsKept`, in
//! specs/Rule.antt. Of the book this crate knows what `Counted` says.
#![tactic(auto)]

mod counters;
mod drawing;
mod rule;
mod shares;
mod turns;
mod view;

pub use counters::{Counters, Held, Worker};
pub use drawing::{Arm, Armed, Funded, Ticket};
pub use rule::{Counted, Rule};
pub use view::{Known, Numbers, Opening, Trail, Turn, View};
