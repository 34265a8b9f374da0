//! The top call of the space link security unit: words in, octets out, and a status at the end.
//!
//! [`run`] serves the words after the program's name: `check KEY` judges one AOS transfer frame (CCSDS 732.0-B-4) that
//! carries a CMAC (CCSDS 355.0-B-2), `init` makes the image of a unit from a plan, `run` serves a recorded input of
//! frames to protect, frames to open and commands, `stat` prints what an image holds, `audit` looks for repeats in what
//! runs wrote, and `drill N` protects and opens N frames with two units in memory, `drill link N` over a link between
//! them; every other list of words is answered with the usage line. [`run_plain`] serves the words that need no
//! threads.
//!
//! The input comes from a `Source`, and what is put goes to a `Site`: both are traits of
//! `sdls_outside`, so that a clause can speak of what they hold.
#![tactic(auto)]

mod laws;
mod top;

// The laws on what `run` promises: of two units on one link, of lives, of what a status says, and of one lane alone.
pub use cli_check::{Refusal, check_frame};
pub use cli_image::{InitEnd, run_plain};
pub use cli_run::{Gate, OpenGate};
pub use law_links::{
    accepted_in_order, no_triple_twice, one_device_in_a_life, two_units_by_covered_octets,
    two_units_on_one_link,
};
pub use law_runs::{
    covered_before_a_life, covered_in_a_life, due_is_put, faults_are_told, full_is_told,
    goes_to_its_end, life_may_begin, no_entry_behind_a_fault, one_input_is_handled_alike,
    one_lane_answers_alike, one_lane_fronts_alike, one_lane_runs_alike, refused_stays,
    status_five_has_a_fault, status_tells_what_came, unhindered_run_completes, used_once_in_a_life,
    zero_says_all,
};
pub use laws::{audit_passes_a_life, calls_are_a_life};
pub use record_io::{Outcome, status};
pub use top::run;
