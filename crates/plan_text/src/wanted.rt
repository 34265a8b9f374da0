//! What is said of a line at fault: where the word stands, and what was expected there, in words.
ghost use Rattle.std.specs.Prelude.{◌≡◌, IfOk};

use sdls_base::{MOST_ASSOCIATIONS, MOST_KEYS, NoMemory};
use std::alloc::Global;
use text_words::{put_decimal, put_octets};
use unit_plan::{
    AssociationWord, ChannelWord, Expected, HeadWord, KeyWord, LinkWord, MapWord, NamedAbove,
    Spelling, Spot, Words,
};

/// The place of a word at fault among the words of its line, from 1, and what was expected there.
#[derive(Clone, Copy)]
pub(crate) struct Fault {
    pub(crate) word: u32,
    pub(crate) wanted: Wanted,
}

/// What was expected at a word that is at fault.
#[derive(Clone, Copy)]
pub(crate) enum Wanted {
    /// What the lines of a plan may say.
    Line(Expected),
    Refused(Refused),
    /// A text of at most 65,536 octets.
    ShortText,
    /// Whatever else a plan may have.
    Other,
}

/// What the books do not refuse.
#[derive(Clone, Copy)]
pub(crate) enum Refused {
    /// This key has the same octets.
    OtherOctets(u64),
    KeyRoom,
    AssociationRoom,
    CmacKey,
    GcmKey,
    ActiveKey,
    /// This association receives with the key.
    FreeKey(u64),
    NumberBelow(u64),
    NumberFrom(u64),
    /// This association covers one of the channels.
    FreeChannels(u64),
}

impl Fault {
    /// The fault of a line by the grammar of a plan.
    pub(crate) fn of(spot: Spot) -> Fault {
        Fault {
            word: spot.word,
            wanted: Wanted::Line(spot.expected),
        }
    }
}

fn spelling_text(spelling: Spelling) -> &'static [u8] {
    match spelling {
        Spelling::LineFeed => b"a line feed alone, but the line ends with CR LF",
        Spelling::NoMark => b"a line without a byte order mark before it",
        Spelling::OneSpace =>
            b"one space between two words, none before the first and none behind the last",
        Spelling::NoTab => b"a space in place of the tab",
        Spelling::Ascii => b"a word of visible ASCII",
        Spelling::NoComment => b"the end of the line, for a comment has a line of its own",
        Spelling::End => b"the end of the line",
    }
}

fn head_text(head: u8) -> &'static [u8] {
    match head {
        0 => b"the line sdls 1, the first of the five that come before all others",
        1 => b"the line of device, the second of the five that come before all others",
        2 => b"the line of slots, the third of the five that come before all others",
        3 => b"the line of block, the fourth of the five that come before all others",
        _ => b"the line of accept, the fifth of the five that come before all others",
    }
}

fn head_word_text(word: HeadWord) -> &'static [u8] {
    match word {
        HeadWord::Version => b"the version 1",
        HeadWord::Device => b"8 hexadecimal digits",
        HeadWord::Slots => b"a number, 16 to 65536",
        HeadWord::Count => b"a number, 1 to 65536",
    }
}

fn link_text(word: LinkWord) -> &'static [u8] {
    match word {
        LinkWord::Number => b"a link, 0 to 15",
        LinkWord::Frames => b"tc, tm or aos",
        LinkWord::Segments => b"seg or noseg",
        LinkWord::Fecf => b"fecf or nofecf",
        LinkWord::Ocf => b"ocf or noocf",
        LinkWord::Mask(5) => b"a mask of 10 hexadecimal digits, or - for the usual one",
        LinkWord::Mask(_) => b"a mask of 12 hexadecimal digits, or - for the usual one",
        LinkWord::Length => b"a length of frames, 48 to 2048",
        LinkWord::LengthFrom(_) => b"a length of 48 and the insert zone at least, so of ",
        LinkWord::Insert => b"an insert zone, 0 to 64",
    }
}

fn channel_text(word: ChannelWord) -> &'static [u8] {
    match word {
        ChannelWord::Number => b"a channel, 0 to 63",
        ChannelWord::Spacecraft(_) => b"a spacecraft, 0 to ",
        ChannelWord::VirtualChannel(_) => b"a virtual channel, 0 to ",
        ChannelWord::Map(MapWord::Number) => b"a MAP, 0 to 63, for the link has segment headers",
        ChannelWord::Map(MapWord::Absent) => b"-, for the link has no segment headers",
        ChannelWord::Map(MapWord::Either) => {
            b"a MAP, 0 to 63, or - if the link has no segment headers"
        }
    }
}

fn key_text(word: KeyWord) -> &'static [u8] {
    match word {
        KeyWord::Number => b"a key, 1 to 65535",
        KeyWord::State => b"preactive or active",
        KeyWord::Digits => b"32 or 64 hexadecimal digits",
    }
}

fn association_text(word: AssociationWord) -> &'static [u8] {
    match word {
        AssociationWord::Spi => b"an index, 1 to 65534",
        AssociationWord::Direction => b"send or receive",
        AssociationWord::Suite => b"cmac or gcm",
        AssociationWord::Number => b"a number, 0 to 281474976710656",
        AssociationWord::Window => b"a window, 1 to 4294967296",
        AssociationWord::Channels => {
            b"one to eight channels, 0 to 63, each above the one before, with commas between"
        }
    }
}

fn named_text(named: NamedAbove) -> &'static [u8] {
    match named {
        NamedAbove::KnownLink => b"a link that has a line before",
        NamedAbove::KnownKey => b"a key that has a line before",
        NamedAbove::KnownChannel(_) => b"channels that have a line before, which lacks for ",
        NamedAbove::NewLink(_) => b"a link without a line before, but it has line ",
        NamedAbove::NewChannel(_) => b"a channel without a line before, but it has line ",
        NamedAbove::NewPlace(_) => b"a place without a channel, but one lies there by line ",
        NamedAbove::NewKey(_) => b"a key without a line before, but it has line ",
        NamedAbove::NewSpi(_) => b"an index without a line before, but it has line ",
    }
}

fn refused_text(refused: Refused) -> &'static [u8] {
    match refused {
        Refused::OtherOctets(_) => b"other octets than those of key ",
        Refused::KeyRoom => b"no more keys than ",
        Refused::AssociationRoom => b"no more associations than ",
        Refused::CmacKey => b"a key for cmac, 32768 to 65535",
        Refused::GcmKey => b"a key for gcm, 256 to 32767",
        Refused::ActiveKey => b"a key that is active",
        Refused::FreeKey(_) => b"a key with which none receives, but it is held by association ",
        Refused::NumberBelow(_) => b"a number below the end of the key, which is ",
        Refused::NumberFrom(_) => b"a number not below ",
        Refused::FreeChannels(_) => {
            b"channels that none covers in this direction, but one is covered by association "
        }
    }
}

fn expected_text(expected: Expected) -> &'static [u8] {
    match expected {
        Expected::Spelling(spelling) => spelling_text(spelling),
        Expected::Kind => b"sdls, device, slots, block, accept, link, channel, key or sa",
        Expected::Head(head) => head_text(head),
        Expected::NoHead => b"another line, for the first five stand once and in their order",
        Expected::HeadWord(word) => head_word_text(word),
        Expected::Link(word) => link_text(word),
        Expected::Channel(word) => channel_text(word),
        Expected::Key(word) => key_text(word),
        Expected::Association(word) => association_text(word),
        Expected::NamedAbove(named) => named_text(named),
    }
}

fn expected_number(expected: Expected) -> Option<u64> {
    match expected {
        Expected::Link(LinkWord::LengthFrom(n))
        | Expected::Channel(ChannelWord::Spacecraft(n) | ChannelWord::VirtualChannel(n))
        | Expected::NamedAbove(
            NamedAbove::KnownChannel(n)
            | NamedAbove::NewLink(n)
            | NamedAbove::NewChannel(n)
            | NamedAbove::NewPlace(n)
            | NamedAbove::NewKey(n)
            | NamedAbove::NewSpi(n),
        ) => Some(n),
        _ => None,
    }
}

fn refused_number(refused: Refused) -> Option<u64> {
    match refused {
        Refused::OtherOctets(n)
        | Refused::FreeKey(n)
        | Refused::NumberBelow(n)
        | Refused::NumberFrom(n)
        | Refused::FreeChannels(n) => Some(n),
        Refused::KeyRoom => Some(MOST_KEYS as u64),
        Refused::AssociationRoom => Some(MOST_ASSOCIATIONS as u64),
        _ => None,
    }
}

/// What was expected, behind which the number stands if there is one.
fn wanted_text(wanted: Wanted) -> &'static [u8] {
    match wanted {
        Wanted::Line(expected) => expected_text(expected),
        Wanted::Refused(refused) => refused_text(refused),
        Wanted::ShortText => b"at most 65536 octets in all",
        Wanted::Other => b"a line that a plan may have",
    }
}

/// The number behind the text.
fn wanted_number(wanted: Wanted) -> Option<u64> {
    match wanted {
        Wanted::Line(expected) => expected_number(expected),
        Wanted::Refused(refused) => refused_number(refused),
        Wanted::ShortText | Wanted::Other => None,
    }
}

/// So many octets of a word are shown.
const MOST_SHOWN: usize = 32;

/// So many of a word of a line that loads a key: no identifier and no state has more.
const MOST_SHOWN_OF_KEY: usize = 9;

/// So many digits are not shown on any line: no number has so many that is in its bounds, and no mask.
const LEAST_OF_KEY: usize = 16;

const DIGITS: [u8; 16] = *b"0123456789abcdef";

/// A line at fault, and what is said of it.
#[derive(Drop)]
pub struct PlanNote {
    /// Counted from 1, skipped lines with them.
    pub line: u32,
    /// Column and text of the word, and what was expected there.
    pub text: Vec<u8>,
}

/// Writes an octet of a word: as it is if it is visible ASCII, else `\x` and two digits.
fn put_octet(text: &mut Vec<u8>, octet: u8) -> Result<(), NoMemory> {
    if octet.is_ascii_graphic() {
        return put_octets(text, &[octet]);
    }
    let high = DIGITS[usize::from(octet / 16)];
    let low = DIGITS[usize::from(octet % 16)];
    put_octets(text, &[b'\\', b'x', high, low])
}

/// Writes a word: its first octets.
fn put_seen(text: &mut Vec<u8>, word: &[u8]) -> Result<(), NoMemory> {
    put_octets(text, b" \"")?;
    for octet in word.get(..MOST_SHOWN).unwrap_or(word) {
        put_octet(text, *octet)?;
    }
    if word.len() > MOST_SHOWN {
        put_octets(text, b"..")?;
    }
    put_octets(text, b"\"")
}

fn are_digits(word: &[u8]) -> bool {
    word.iter().all(|octet| octet.is_ascii_hexdigit())
}

/// Whether a word may be shown. None is that may be the digits of a key, and of a line that loads a key none that may
/// be a part of them.
fn may_show(line: &[u8], place: u32, word: &[u8]) -> bool {
    if line.starts_with(b"key") {
        return place <= 3 && word.len() <= MOST_SHOWN_OF_KEY;
    }
    word.len() < LEAST_OF_KEY || !are_digits(word)
}

/// Writes where a word stands, and the word itself.
fn put_place(text: &mut Vec<u8>, line: &[u8], word: u32) -> Result<(), NoMemory> {
    let mut column: u64 = 1;
    let mut place: u32 = 1;
    let mut seen = None;
    for found in Words::of(line) {
        if place == word {
            seen = Some(found);
            break;
        }
        column = column.saturating_add(found.len() as u64).saturating_add(1);
        place = place.saturating_add(1);
    }
    if line.is_empty() {
        seen = None;
    }
    if seen.is_none() {
        column = (line.len() as u64).saturating_add(1);
    }
    put_octets(text, b"column ")?;
    put_decimal(text, column)?;
    put_octets(text, b", word ")?;
    put_decimal(text, u64::from(word))?;
    match seen {
        Some(found) if may_show(line, word, found) => put_seen(text, found),
        Some(_) => put_octets(text, b" (not shown)"),
        None => put_octets(text, b" missing"),
    }
}

/// What is said of a fault of a line.
pub(crate) fn note_of(
    alloc: Global,
    line: u32,
    octets: &[u8],
    fault: Fault,
) -> Result<PlanNote, NoMemory>
    ensures { IfOk result (λ note. note.line ≡ line) }
{
    let mut text = Vec::new(alloc);
    put_place(&mut text, octets, fault.word)?;
    put_octets(&mut text, b": expected ")?;
    put_octets(&mut text, wanted_text(fault.wanted))?;
    if let Some(number) = wanted_number(fault.wanted) {
        put_decimal(&mut text, number)?;
    }
    Ok(PlanNote { line, text })
}
