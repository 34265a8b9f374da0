//! What a worker of the unit did between two of its views: the numbers that it drew and spent, the lines of the log
//! that it made, and the answers that it gave (profile).
//!
//! There is no code to run here: definitions stand in `specs`, and the functions are laws over them, with no code in
//! their bodies. What one worker does after another, or two at once, is again what a worker does. So it is of records
//! of one segment, and of all its lanes. These laws are lemmas of `proofs`, which those of other crates cite.
//!
//! Of one lane alone more is said: each record is served in the history that those before it left, the words that it
//! moves are those of a machine, and so its answers are one by the image and the input. Read `Serving` for it, which
//! says record by record what the unit does, and [`served_once`]; then `Exact`.
#![tactic(auto)]

mod one_lane;

pub use one_lane::{looking_reports, served_once};
