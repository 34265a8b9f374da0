//! The words after the program's name, and how a call ends.
//!
//! [`command_of`] reads the words: they ask for one [`Command`], and words that are none of the others for the usage
//! line. [`end_with`] writes a line and ends a call with its status, and [`end_with_usage`] does so with the usage
//! line.
#![tactic(auto)]

mod reading;

pub use reading::{
    Command, MOST_FRAMES, command_of, end_with, end_with_usage, put_number, put_text,
};
