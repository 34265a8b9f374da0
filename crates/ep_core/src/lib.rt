//! What a command of the key and association management does (CCSDS 355.1-B-1; order of refusals profile): decided from
//! a state and from what was seen of one key's numbers, and put down as a change and a reply. Nothing here changes a
//! state.
//!
//! [`judge`] says what has to be seen before a command is decided, and [`plan_change`] decides it.
#![tactic(auto)]

mod effects;
mod judging;
mod keys;
mod laws;
mod planning;
mod refusal;
mod sealing;
mod step;
mod verifying;

pub use judging::{Need, judge};
pub use laws::{changes_are_allowed, front_is_the_message, needs_alike, no_frame_begins_so};
pub use planning::plan_change;
pub use refusal::{MOST_REPLY_OCTETS, Refusal, Reply, ReplyOctets};
