//! The answers of `run` as text, a line an answer, as words or as a JSON object (profile).
//!
//! [`put_answer`] writes the line of an answer. [`Listing::next_line`] takes an answer from a source and writes its
//! line. [`strings_need_no_escape`] is the law that each string of a JSON object may stand there as it is.
#![tactic(auto)]

mod codes;
mod line;
mod monitor;
mod putting;
mod reply;
mod values;

pub use line::{AnswersEnd, Listing, TextError, put_answer, strings_need_no_escape};
pub use putting::Form;
