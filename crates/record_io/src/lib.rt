//! The recorded input of `run` and its answers, octet for octet.
//!
//! [`Reader::next_segment`] reads the records of the input, a segment a call, and says how the segment ends.
//! [`answer_header`] writes what stands before an answer's body, and [`read_answer`] reads an answer. [`next_item`] and
//! [`next_answer`] take an item or an answer from a source, wherever it stands. The numbers that the formats give to
//! kinds, answers and ends are named in `kinds`, [`code`] and [`status`]; [`AnswerCode`] is a code as an enum, and
//! [`Outcome`] how a call ends.
#![tactic(auto)]

mod answers;
pub mod code;
mod item_cursor;
mod laws;
mod reader;
mod short_octets;
mod spare;
pub mod status;

pub use answers::{
    ANSWER_HEADER, Answer, AnswerError, AnswerHead, MOST_BODY, NextAnswer, answer_head,
    answer_header, answers_have_widths, known_head, next_answer, read_answer,
};
pub use code::{AnswerCode, Outcome};
pub use item_cursor::{FoundItem, NextItem, Record, SegmentEnd, next_item};
pub use laws::{answers_are_shown, answers_shown_once, begins_reading, input_reads_once};
pub use reader::{
    ITEM_HEADER, ItemHead, ItemKind, LANES, LEAST_MONITOR_OCTETS, MOST_RECORD_OCTETS, Reader,
    RecordKind, SEGMENT_RECORDS, item_head,
};
pub use short_octets::ShortOctets;
pub use spare::Spare;
