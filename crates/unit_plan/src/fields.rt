//! The fields of a line, in the order in which they stand, and how words are parted and spelled.

//! What lines name, those at fault too.
ghost use Rattle.std.specs.Prelude.{◌≡◌, IfOk};
ghost use Rattle.std.specs.Option.{option_map};
ghost use Rattle.std.specs.Char.{is_ascii_digit};
ghost use Rattle.std.specs.List.{list_all};
ghost use Rattle.unit_plan.specs.Reading.{Reads};
ghost use Rattle.unit_plan.specs.Field.{decimal_at, capped_at, choice_at, optional_at, decoded, channel_numbers};
ghost use Rattle.unit_plan.specs.Number.{is_decimal, number_of};

use crate::above::{ChannelWord, Expected, MapWord, Spelling, Spot};
use crate::bounds::{
    MOST_AOS_CHANNEL, MOST_AOS_SPACECRAFT, MOST_MAP, MOST_SPACECRAFT, MOST_TC_CHANNEL,
    MOST_TM_CHANNEL,
};
use crate::kind::Kind;
use crate::lines::{Items, Words};
use crate::link_line::{ChannelPlace, is_same_place};
use crate::reader::{Reader, is_within};
use sdls_base::{AnyLayout, NoMemory};
use std::alloc::{AllocError, Global};
use std::str;

/// Takes a number. One out of these bounds is noted, and taken too.
#[tactic(auto, unfolding(crate::specs::Field::decimal_at))]
pub(crate) fn decimal(
    words: &mut Reader<'_>,
    least: u64,
    most: u64,
    expected: Expected,
) -> Option<u64>
    ensures { Reads result (decimal_at words.old) words.new }
{
    let word = words.next(expected)?;
    let n = number_of(word);
    words.test(is_within(n, least, most), expected);
    let n = n?;
    Some(n)
}

#[tactic(auto, unfolding(crate::specs::Field::capped_at))]
pub(crate) fn octet(words: &mut Reader<'_>, most: u8, expected: Expected) -> Option<u8>
    ensures { Reads result (capped_at 255 words.old) words.new }
{
    let n = decimal(words, 0, u64::from(most), expected)?;
    Some(n.min(255) as u8)
}

#[tactic(auto, unfolding(crate::specs::Field::capped_at))]
pub(crate) fn short(
    words: &mut Reader<'_>,
    least: u16,
    most: u16,
    expected: Expected,
) -> Option<u16>
    ensures { Reads result (capped_at 65535 words.old) words.new }
{
    let n = decimal(words, u64::from(least), u64::from(most), expected)?;
    Some(n.min(65_535) as u16)
}

/// Whether a word says what a link wants of an access point.
fn is_map(word: &[u8], wanted: MapWord) -> bool {
    match wanted {
        MapWord::Number => is_within(number_of(word), 0, u64::from(MOST_MAP)),
        MapWord::Absent => word == b"-".as_slice(),
        MapWord::Either => word == b"-".as_slice() || number_of(word).is_some(),
    }
}

/// Takes an access point, which may be absent as `-` says. One that the link does not want is noted, and taken too.
#[tactic(auto, unfolding(crate::specs::Field::optional_at))]
pub(crate) fn optional(words: &mut Reader<'_>, wanted: MapWord) -> Option<Option<u8>>
    ensures { Reads result (optional_at words.old) words.new }
{
    let expected = Expected::Channel(ChannelWord::Map(wanted));
    let word = words.next(expected)?;
    words.test(is_map(word, wanted), expected);
    if word == b"-".as_slice() {
        return Some(None);
    }
    let n = number_of(word)?;
    Some(Some(n.min(255) as u8))
}

/// Takes one of two words, and says whether it is the first.
#[tactic(auto, unfolding(crate::specs::Field::choice_at))]
pub(crate) fn choice(
    words: &mut Reader<'_>,
    first: &[u8],
    second: &[u8],
    expected: Expected,
) -> Option<bool>
    ensures { Reads result (choice_at first.now second.now words.old) words.new }
{
    let word = words.next(expected)?;
    if word == first {
        return Some(true);
    }
    if word == second {
        return Some(false);
    }
    words.note(expected);
    None
}

pub(crate) fn decode<const N: usize>(word: &[u8]) -> Option<[u8; N]>
    ensures { result ≡ decoded N word.now }
{
    let mut octets = [0; N];
    match hex::decode_to_slice(word, &mut octets) {
        Ok(()) => Some(octets),
        Err(_) => None,
    }
}

/// The numbers of a list, joined by commas. One above 255 is taken for that.
pub(crate) fn channels(alloc: Global, word: &[u8]) -> Result<Option<Vec<u8>>, AllocError>
    ensures { IfOk result (λ read. option_map (λ numbers. numbers.items) read ≡ channel_numbers word.now) }
{
    let mut numbers = Vec::new(alloc);
    for item in Items::of(word) {
        let Some(n) = number_of(item) else {
            return Ok(None);
        };
        numbers.push(n.min(255) as u8)?;
    }
    Ok(Some(numbers))
}

fn are_digits(word: &[u8]) -> bool
    ensures { result ≡ list_all is_ascii_digit word.now }
{
    word.iter().all(|octet| octet.is_ascii_digit())
}

/// Whether the word is a decimal number: digits alone, the first not 0 unless it stands alone.
fn is_decimal(word: &[u8]) -> bool
    ensures { result ≡ is_decimal word.now }
{
    if word.is_empty() {
        return false;
    }
    if word.len() > 1 && word[0] == b'0' {
        return false;
    }
    are_digits(word)
}

/// The decimal number that the word spells. One past the greatest of its type is taken for that one.
#[tactic(auto, unfolding(crate::specs::Number::number_of))]
pub fn number_of(word: &[u8]) -> Option<u64>
    ensures { result ≡ number_of word.now }
{
    if !is_decimal(word) {
        return None;
    }
    match str::from_utf8(word) {
        Ok(text) => Some(text.parse().unwrap_or(u64::MAX)),
        Err(_) => None,
    }
}

/// The byte order mark.
pub(crate) const MARK: [u8; 3] = [0xef, 0xbb, 0xbf];

/// What was expected in place of a word, whatever the line.
fn expected_of(word: &[u8], is_first: bool, is_last: bool) -> Option<Spelling> {
    if word.is_empty() {
        return Some(Spelling::OneSpace);
    }
    if is_first && word.starts_with(&MARK) {
        return Some(Spelling::NoMark);
    }
    if word.contains(&b'\t') {
        return Some(Spelling::NoTab);
    }
    if is_last && word.ends_with(b"\r") {
        return Some(Spelling::LineFeed);
    }
    if !word.iter().all(|octet| octet.is_ascii_graphic()) {
        return Some(Spelling::Ascii);
    }
    if word.starts_with(b"#") {
        return Some(Spelling::NoComment);
    }
    None
}

/// The first word of a line that is not parted from the others by one space, or is no visible ASCII.
pub(crate) fn spelling_spot(line: &[u8]) -> Option<Spot> {
    let mut count: u32 = 0;
    for _ in Words::of(line) {
        count = count.saturating_add(1);
    }
    let mut word: u32 = 0;
    for octets in Words::of(line) {
        word = word.saturating_add(1);
        if let Some(spelling) = expected_of(octets, word == 1, word == count) {
            return Some(Spot {
                word,
                expected: Expected::Spelling(spelling),
            });
        }
    }
    None
}

/// The greatest numbers of a channel on a link, and its access point.
#[derive(Clone, Copy)]
pub(crate) struct Room {
    pub(crate) spacecraft: u16,
    pub(crate) channel: u8,
    pub(crate) map: MapWord,
}

impl Room {
    /// On a link of which nothing is known.
    pub(crate) const WHOLE: Room = Room {
        spacecraft: MOST_SPACECRAFT,
        channel: MOST_TC_CHANNEL,
        map: MapWord::Either,
    };

    fn of(layout: &AnyLayout) -> Room {
        match layout {
            AnyLayout::Tc(layout) => Room {
                map: if layout.segment {
                    MapWord::Number
                } else {
                    MapWord::Absent
                },
                ..Room::WHOLE
            },
            AnyLayout::Tm(_) => Room {
                channel: MOST_TM_CHANNEL,
                map: MapWord::Absent,
                ..Room::WHOLE
            },
            AnyLayout::Aos(_) => Room {
                spacecraft: MOST_AOS_SPACECRAFT,
                channel: MOST_AOS_CHANNEL,
                map: MapWord::Absent,
            },
        }
    }
}

/// Links, channels, keys and associations that lines name, and places of channels.
#[derive(Drop)]
pub(crate) struct Names {
    rows: Vec<(Kind, u64, u32)>,
    rooms: Vec<(u64, Room)>,
    places: Vec<(ChannelPlace, u32)>,
}

impl Names {
    pub(crate) fn new(alloc: Global) -> Names {
        Names {
            rows: Vec::new(alloc),
            rooms: Vec::new(alloc),
            places: Vec::new(alloc),
        }
    }

    /// The line that names a number of a kind.
    pub(crate) fn line_of(&self, kind: Kind, number: u64) -> Option<u32> {
        let row = self
            .rows
            .iter()
            .find(|row| row.0 == kind && row.1 == number)?;
        Some(row.2)
    }

    /// Notes the line that names a number of a kind, unless one above it does, and answers that one.
    pub(crate) fn note(
        &mut self,
        kind: Kind,
        number: u64,
        line: u32,
    ) -> Result<Option<u32>, NoMemory> {
        let known = self.line_of(kind, number);
        if known.is_none() {
            self.rows.push((kind, number, line))?;
        }
        Ok(known)
    }

    /// The room on a link, which is the whole one if the line of the link is at fault.
    pub(crate) fn room_on(&self, link: u64) -> Room {
        match self.rooms.iter().find(|row| row.0 == link) {
            Some(row) => row.1,
            None => Room::WHOLE,
        }
    }

    pub(crate) fn note_room(&mut self, link: u64, layout: &AnyLayout) -> Result<(), NoMemory> {
        self.rooms.push((link, Room::of(layout)))?;
        Ok(())
    }

    /// Notes the line of a channel at a place, unless one above it has one there, and answers that one.
    pub(crate) fn note_place(
        &mut self,
        place: ChannelPlace,
        line: u32,
    ) -> Result<Option<u32>, NoMemory> {
        for row in &self.places {
            if is_same_place(&row.0, &place) {
                return Ok(Some(row.1));
            }
        }
        self.places.push((place, line))?;
        Ok(None)
    }
}
