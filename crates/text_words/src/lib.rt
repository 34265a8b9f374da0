//! Octets, numbers, names and the words for states as they stand in text (profile), for the crates that read and write
//! lines.
#![tactic(auto)]

mod putting;
mod words;

pub use putting::{
    put_decimal, put_further_number, put_further_word, put_name, put_number_member, put_octets,
    put_quoted, put_spaced, put_spaced_digits, put_spaced_number, put_spaced_octets,
    put_word_member,
};
pub use words::{
    MessageName, direction_named, direction_word, item_word, key_state_named, key_state_word,
    message_named, message_word, messages, number_spelled, procedure_named, procedure_word,
    procedures, sa_state_named, sa_state_word, suite_named, suite_word,
};
