//! Laws of runs: what one worker did segment by segment, from the opening to the end, what the status of a run says,
//! what a crash at any moment leaves, and what holds of all runs of a life (profile).
//!
//! There is no code to run here: definitions stand in `specs`, and the functions are laws over them. What `run`
//! promises is `EndsAndLives` of `run_promise`: [`run_ends_well`] and [`refused_run_ends`] lead to it,
//! [`zero_says_all`], [`faults_are_told`] and [`unhindered_run_completes`] draw from it what a status says, and
//! [`used_once_in_a_life`] what holds of all runs.
#![tactic(auto)]

mod life;

pub use life::{
    covered_before_a_life, covered_in_a_life, due_is_put, faults_are_told, full_is_told,
    goes_to_its_end, life_may_begin, no_entry_behind_a_fault, no_records_are_sound,
    one_input_is_handled_alike, one_lane_answers_alike, one_lane_fronts_alike, one_lane_runs_alike,
    reading_keeps_lives, refused_run_ends, refused_stays, run_ends_well, sound_call_keeps_lives,
    sound_reading_keeps_lives, status_five_has_a_fault, status_tells_what_came,
    unhindered_run_completes, used_once_in_a_life, zero_says_all,
};
