//! Recorded input and answers as text, and outputs of runs as one recording, from a source to a sink (profile). Each
//! call streams: what is read ahead and what is not yet put is bounded, whatever the length of the input.
//!
//! [`put_records`] writes the recorded input that lines of text say, [`put_lines`] the lines of recorded input, and
//! [`put_answers`] the lines of answers, as words or as JSON objects. Each says by its [`End`] why the input was read
//! no further.
//!
//! The line of one item is put by [`put_record`] and [`put_fence`]. [`line_says_itself`] is the law that the words of a
//! line say this line, and [`items_said_again`] the law that the lines of items say these items.
//!
//! [`next_line`] takes a line of text.
//!
//! [`put_state_objects`] writes a JSON object for each line of what the word `stat` prints, and says by its
//! [`StateEnd`] why the input was read no further. [`read_state_line`] reads one line, and [`put_state_object`] writes
//! the object of one. [`rows_have_lines`] is the law that what `stat` prints of keys and associations are such lines.
//!
//! A recording is what the word `audit` reads: [`begin_recording`] writes the octets that it begins with, and
//! [`put_run`] a run, which is the length of what the run wrote in 4 octets, and that.
#![tactic(auto)]

mod ends;
mod laws;
mod printing;
mod recording;
mod state_line;
mod streams;

pub use answer_text::Form;
pub use ends::{End, StateEnd};
pub use laws::{items_said_again, line_says_itself, rows_have_lines};
pub use printing::{put_fence, put_record};
pub use recording::{RunFault, begin_recording, put_run};
pub use state_line::{StateLine, put_state_object, put_state_objects, read_state_line};
pub use streams::{NextLine, next_line, put_answers, put_lines, put_records};
