//! The counters that lanes share, held against the pure core (profile): what words, views and book stand for there.
//!
//! Laws alone, on definitions alone: nothing of this runs. `kept_where_ruled` says that where the counters' rule holds
//! the world is kept, `moves_tie` that each step of the counters leads to the world that its steps in the core give.
#![tactic(auto)]

mod laws;

pub use laws::{
    join_ties, kept_where_ruled, moves_tie, runs_tie, spent_stay, split_ties, stores_tie,
    told_after,
};
