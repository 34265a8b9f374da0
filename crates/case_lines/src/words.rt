//! The words of a line, and octets in hexadecimal digits and as numbers.
use hex::FromHexError;
use sdls_base::{ChannelId, Direction, KeyId, KeyState, SaState, Spi, Suite};
use std::alloc::{AllocError, Global};
use std::str::SplitWhitespace;
use std::{fmt, str};
use text_words::{
    direction_named, direction_word, key_state_named, key_state_word, sa_state_named,
    sa_state_word, suite_named, suite_word,
};

/// The next word as a number.
pub fn number(words: &mut SplitWhitespace<'_>) -> Option<u64> {
    words.next()?.parse().ok()
}

/// The next word as a number of 16 bits.
pub fn short(words: &mut SplitWhitespace<'_>) -> Option<u16> {
    words.next()?.parse().ok()
}

/// The next word as a number of 8 bits.
pub fn octet(words: &mut SplitWhitespace<'_>) -> Option<u8> {
    words.next()?.parse().ok()
}

/// Whether the next word is `yes`.
pub fn flag(words: &mut SplitWhitespace<'_>) -> bool {
    words.next() == Some("yes")
}

/// The next word as a key's identifier.
pub fn key(words: &mut SplitWhitespace<'_>) -> Option<KeyId> {
    KeyId::new(short(words)?)
}

/// The next word as an association's index.
pub fn spi(words: &mut SplitWhitespace<'_>) -> Option<Spi> {
    Spi::new(short(words)?)
}

/// The next word as a channel.
pub fn channel(words: &mut SplitWhitespace<'_>) -> Option<ChannelId> {
    ChannelId::new(octet(words)?)
}

/// The next word as a direction.
pub fn direction(words: &mut SplitWhitespace<'_>) -> Option<Direction> {
    direction_named(words.next()?.as_bytes())
}

/// The next word as a suite.
pub fn suite(words: &mut SplitWhitespace<'_>) -> Option<Suite> {
    suite_named(words.next()?.as_bytes())
}

/// The next word as a key's state.
pub fn key_state(words: &mut SplitWhitespace<'_>) -> Option<KeyState> {
    key_state_named(words.next()?.as_bytes())
}

/// The next word as the state that an association is to take, with `deleted` for none.
pub fn sa_state(words: &mut SplitWhitespace<'_>) -> Option<Option<SaState>> {
    match words.next()? {
        "deleted" => Some(None),
        word => Some(Some(sa_state_named(word.as_bytes())?)),
    }
}

/// A word of `text_words` as text.
fn text_of(word: &'static [u8]) -> &'static str {
    str::from_utf8(word).unwrap_or("")
}

/// The word for a key's state, which `key_state` reads.
pub fn key_state_name(state: KeyState) -> &'static str {
    text_of(key_state_word(state))
}

/// The word for an association's state, which `sa_state` reads.
pub fn sa_state_name(state: SaState) -> &'static str {
    text_of(sa_state_word(state))
}

/// The word for a direction, which `direction` reads.
pub fn direction_name(direction: Direction) -> &'static str {
    text_of(direction_word(direction))
}

/// The word for a suite, which `suite` reads.
pub fn suite_name(suite: Suite) -> &'static str {
    text_of(suite_word(suite))
}

/// What stands before the first space of a line, and what stands behind it.
pub fn cut(line: &str) -> (&str, &str) {
    line.split_once(' ').unwrap_or((line, ""))
}

/// The word at a place of a line, empty where there is none.
pub fn word_at(line: &str, place: usize) -> &str {
    line.split_whitespace().nth(place).unwrap_or("")
}

/// The number at a place of a line, 0 where there is none.
pub fn number_at(line: &str, place: usize) -> u64 {
    word_at(line, place).parse().unwrap_or(0)
}

/// The same as a length.
pub fn length_at(line: &str, place: usize) -> usize {
    number_at(line, place) as usize
}

/// All words of a line as numbers, 0 for a word that is none.
pub fn numbers(alloc: Global, line: &str) -> Result<Vec<u64>, AllocError> {
    let mut numbers = Vec::new(alloc);
    for word in line.split_whitespace() {
        numbers.push(word.parse().unwrap_or(0))?;
    }
    Ok(numbers)
}

/// The words of a line, each a text of its own.
pub fn words_of(alloc: Global, line: &str) -> Result<Vec<String>, AllocError> {
    let mut words = Vec::new(alloc);
    for word in line.split_whitespace() {
        words.push(String::from_str(alloc, word)?)?;
    }
    Ok(words)
}

/// Octets that are printed in hexadecimal digits.
#[derive(Clone, Copy)]
pub struct Digits<'a>(pub &'a [u8]);

impl fmt::Display for Digits<'_> {
    fn fmt<W: fmt::Write>(&self, f: &mut fmt::Formatter<W>) -> fmt::Result {
        for octet in self.0 {
            write!(f, "{octet:02x}")?;
        }
        Ok(())
    }
}

/// The octets of the words that are left. Behind a word `xN` the next one stands N times, and `@N` stands for zeros
/// up to the place N.
pub fn octets(alloc: Global, words: &mut SplitWhitespace<'_>) -> anyhow::Result<Vec<u8>> {
    let mut octets = Vec::new(alloc);
    let mut times: u32 = 1;
    for word in words {
        match word.split_at_checked(1) {
            Some(("x", count)) => times = count.parse().unwrap_or(1),
            Some(("@", place)) => octets.resize(place.parse().unwrap_or(0), 0)?,
            _ => {
                let part = hex::decode(alloc, word)?;
                for _ in 0..times {
                    octets.extend_from_slice(&part)?;
                }
                times = 1;
            }
        }
    }
    Ok(octets)
}

/// The octets of a word, none of one that is none in digits.
pub fn decoded(alloc: Global, word: &str) -> Result<Vec<u8>, AllocError> {
    match hex::decode(alloc, word) {
        Ok(octets) => Ok(octets),
        Err(FromHexError::OutOfMemory) => Err(AllocError),
        Err(_) => Ok(Vec::new(alloc)),
    }
}

/// Some of these octets: `OFFSET LENGTH`, if they reach so far.
pub fn part_at<'a>(octets: &'a [u8], line: &str) -> Option<&'a [u8]> {
    let from = length_at(line, 0);
    let to = from.saturating_add(length_at(line, 1));
    octets.get(from..to)
}

/// The same, and none if they do not reach so far.
pub fn octets_at<'a>(octets: &'a [u8], line: &str) -> &'a [u8] {
    part_at(octets, line).unwrap_or(&[])
}

/// Writes octets over some of these from a place on, as far as these reach.
pub fn set_octets(octets: &mut [u8], at: usize, part: &[u8]) {
    let (_, behind) = octets.split_at_mut(at.min(octets.len()));
    for (octet, new) in behind.iter_mut().zip(part.iter()) {
        *octet = *new;
    }
}

/// The same of the octets of a line: `OFFSET OCTETS`.
pub fn set_octets_at(alloc: Global, octets: &mut [u8], line: &str) -> Result<(), AllocError> {
    let part = decoded(alloc, word_at(line, 1))?;
    set_octets(octets, length_at(line, 0), part.as_slice());
    Ok(())
}

/// Has these octets in place of others.
pub fn replace(octets: &mut Vec<u8>, others: &[u8]) -> Result<(), AllocError> {
    octets.clear();
    octets.extend_from_slice(others)
}

/// The number that these octets are, the first being the most significant.
pub fn number_of(octets: &[u8]) -> u64 {
    let mut number = 0u64;
    for octet in octets {
        number = number.wrapping_mul(256).wrapping_add(u64::from(*octet));
    }
    number
}

/// The number that some of these octets are, 0 where they do not reach so far.
pub fn number_in(octets: &[u8], from: usize, to: usize) -> u64 {
    number_of(octets.get(from..to).unwrap_or(&[]))
}
