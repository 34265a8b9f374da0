//! Threads that are kept, and jobs that are handed to them by messages.
//!
//! A message says nothing of the one that it answers. So who asks notes each job in a log ([`Jobs::ask`]), and a
//! message carries what its sender has seen of that log, with a place in it. Both are of one log, since both have the
//! name of it in their type ([`Named`]). [`Helper::start`] starts a thread that does jobs until its helper is dropped,
//! [`Helper::hand`] hands it a job, and [`Helper::take`] waits for what was done.
#![tactic(auto)]

mod helper;
mod jobs;

pub use helper::Helper;
pub use jobs::{Asking, Done, Fresh, Jobs, Named, Work};
