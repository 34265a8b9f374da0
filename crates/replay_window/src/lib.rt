//! The anti-replay window of a receiving security association (CCSDS 355.0-B-2, anti-replay sequence number).
//! `high` is the highest number accepted. A number at most `width` above it is fresh, and so is one at or below it
//! that lies in the back window, above the number at which the window was begun, and was not accepted since.
//!
//! `Window::judge` is the one test of a number, and `Window::accept` the one change that takes it. A window is begun
//! anew at a number by `begin_at` and `lower`, and its two widths are set by `set_field`.
#![tactic(auto)]

mod field;
mod laws;
mod window;

pub use field::{back_of, is_window_field, width_of, window_field};
pub use laws::{
    accepted_once, ascending_without_a_back_window, judged_by_the_list, past_is_refused, past_stays,
};
pub use window::{Verdict, Window};

/// The most numbers that a back window reaches, the highest number among them (profile). The least is 0.
pub const MOST_BACK: u8 = 64;
