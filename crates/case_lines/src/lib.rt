//! What the programs of tables share: the loop over the lines of standard input, the words of a line, and how names and
//! octets are printed. No part of the unit.
//!
//! `print_answers` is the loop, and `Answers` what a program says of its lines; `print_answer` is for a program that
//! reads its lines itself. `Page` is what an answer is written on. The readers of words take a line's words one after
//! the other, or a word at its place.
#![tactic(auto)]

mod page;
mod words;

pub use page::{Answers, Differences, Gathered, Page, Words, print_answer, print_answers};
pub use words::{
    Digits, channel, cut, decoded, direction, direction_name, flag, key, key_state, key_state_name,
    length_at, number, number_at, number_in, number_of, numbers, octet, octets, octets_at, part_at,
    replace, sa_state, sa_state_name, set_octets, set_octets_at, short, spi, suite, suite_name,
    word_at, words_of,
};
