//! A text read on behind lines at fault: of each line the first word that is not what was expected, and what was. What
//! a line at fault names counts as named, so a line that names a link of a line at fault is not at fault for that.
ghost use Rattle.std.specs.Prelude.{◌≡◌, Ok, None, IsTrue};
ghost use Rattle.unit_plan.specs.Plan.{is_skipped};
ghost use Rattle.unit_plan.specs.Above.{missing_head};

use crate::bounds::LEAST_SLOTS;
use crate::fields::{MARK, Names, number_of, spelling_spot};
use crate::key_line::{before_list, before_octets};
use crate::kind::{Kind, kind_of};
use crate::lines::Words;
use crate::link_line::{ChannelPlace, channel, link};
use crate::reader::{Reader, device, number, version};
use crate::taking::is_skipped;
use sdls_base::{AnyLayout, NoMemory};
use std::alloc::Global;

/// What the lines above say to the next one.
#[derive(Drop)]
pub struct Above {
    // How many of the first five lines there are, or were missed.
    heads: u8,
    names: Names,
}

/// What a line says that later lines are tested by.
#[derive(Clone, Copy)]
enum LineSays {
    Link(AnyLayout),
    Place(ChannelPlace),
    Other,
}

/// Reads the words of a line behind the first.
fn read_words(kind: Kind, words: &mut Reader<'_>) -> LineSays {
    match kind {
        Kind::Version => {
            version(words);
        }
        Kind::Device => {
            device(words);
        }
        Kind::Slots => {
            number(words, LEAST_SLOTS);
        }
        Kind::Block | Kind::Accept => {
            number(words, 1);
        }
        Kind::Link => {
            if let Some((_, link)) = link(words) {
                return LineSays::Link(link.layout);
            }
        }
        Kind::Channel => {
            if let Some((_, place)) = channel(words) {
                return LineSays::Place(place);
            }
        }
        Kind::Key => {
            before_octets(words);
        }
        Kind::Association => {
            before_list(words);
        }
    }
    LineSays::Other
}

/// The first word, without a byte order mark, and the number that the second one spells, whatever spaces part them.
fn loose_words(text: &[u8]) -> (&[u8], Option<u64>) {
    let mut kind: &[u8] = b"";
    for word in Words::of(text) {
        if kind.is_empty() {
            kind = word.strip_prefix(&MARK).unwrap_or(word);
        } else if !word.is_empty() {
            return (kind, number_of(word));
        }
    }
    (kind, None)
}

/// A spot for what has a line above already.
fn twice(kind: Kind, line: u32) -> Spot {
    let line = u64::from(line);
    let named = match kind {
        Kind::Link => NamedAbove::NewLink(line),
        Kind::Channel => NamedAbove::NewChannel(line),
        Kind::Key => NamedAbove::NewKey(line),
        _ => NamedAbove::NewSpi(line),
    };
    Spot {
        word: 2,
        expected: Expected::NamedAbove(named),
    }
}

fn at_first(expected: Expected) -> Option<Spot> {
    Some(Spot { word: 1, expected })
}

impl Above {
    /// Before the first line.
    pub fn new(alloc: Global) -> Above
        ensures { result.heads ≡ 0 }
    {
        Above {
            heads: 0,
            names: Names::new(alloc),
        }
    }

    /// Says whether a line of a kind may stand here. What was missed before it counts as there.
    fn order_spot(&mut self, kind: Kind) -> Option<Spot> {
        let heads = self.heads;
        let place = kind.place();
        if place < heads {
            return at_first(Expected::NoHead);
        }
        self.heads = 5.min(place.saturating_add(1));
        if heads < place {
            return at_first(Expected::Head(heads));
        }
        None
    }

    /// Notes what a line of a kind names, by its number, and says whether that has a line already.
    fn note_name(
        &mut self,
        line: u32,
        kind: Kind,
        number: u64,
        says: LineSays,
        spot: Option<Spot>,
    ) -> Result<Option<Spot>, NoMemory> {
        let known = self.names.note(kind, number, line)?;
        if spot.is_some() {
            return Ok(spot);
        }
        let mut taken = None;
        match says {
            LineSays::Link(layout) if known.is_none() => self.names.note_room(number, &layout)?,
            LineSays::Place(place) => taken = self.names.note_place(place, line)?,
            _ => {}
        }
        if let Some(line) = known {
            return Ok(Some(twice(kind, line)));
        }
        Ok(taken.map(|line| Spot {
            word: 3,
            expected: Expected::NamedAbove(NamedAbove::NewPlace(u64::from(line))),
        }))
    }

    /// Notes what a line names, if its number is in bounds or its words are parted otherwise.
    fn note_line(
        &mut self,
        line: u32,
        kind: Kind,
        text: &[u8],
        says: LineSays,
        spot: Option<Spot>,
    ) -> Result<Option<Spot>, NoMemory> {
        match loose_words(text).1 {
            Some(number) if kind.place() == 5 => self.note_name(line, kind, number, says, spot),
            _ => Ok(spot),
        }
    }

    /// The first word at fault of a line whose words are not parted as they should be. What it names is noted, whatever
    /// spaces part the words.
    fn note_loosely(
        &mut self,
        line: u32,
        text: &[u8],
        spot: Spot,
    ) -> Result<Option<Spot>, NoMemory> {
        let Some(kind) = kind_of(loose_words(text).0) else {
            return Ok(Some(spot));
        };
        if kind.place() < 5 {
            self.heads = self.heads.max(kind.place().saturating_add(1));
        }
        self.note_line(line, kind, text, LineSays::Other, Some(spot))
    }

    fn spot_of_words(&mut self, line: u32, text: &[u8]) -> Result<Option<Spot>, NoMemory> {
        let mut words = Reader::below(&self.names, text);
        let Some(kind) = kind_of(words.next(Expected::Kind).unwrap_or(b"")) else {
            return Ok(at_first(Expected::Kind));
        };
        let says = read_words(kind, &mut words);
        let spot = words.spot();
        if let Some(spot) = self.order_spot(kind) {
            return Ok(Some(spot));
        }
        match spot {
            Some(spot) if spot.word <= 2 => Ok(Some(spot)),
            _ => self.note_line(line, kind, text, says, spot),
        }
    }

    /// The first word of a line that is at fault. An empty line and a comment have none, and change nothing.
    pub fn spot_of(&mut self, line: u32, text: &[u8]) -> Result<Option<Spot>, NoMemory>
        ensures skipped { IsTrue (is_skipped text.now) → (result ≡ Ok None) × (self.new ≡ self.old) }
    {
        if is_skipped(text) {
            return Ok(None);
        }
        match spelling_spot(text) {
            Some(spot) => self.note_loosely(line, text, spot),
            None => self.spot_of_words(line, text),
        }
    }

    /// Which of the first five lines is missing at the end.
    pub fn missing_head(&self) -> Option<Spot>
        ensures { result ≡ missing_head self.now.heads }
    {
        if self.heads >= 5 {
            return None;
        }
        Some(Spot {
            word: 1,
            expected: Expected::Head(self.heads),
        })
    }
}

/// A line that may stand in place of one of the first five; no words in place of any other line.
pub fn stand_in(line: &[u8]) -> &'static [u8] {
    let Some(word) = Words::of(line).next() else {
        return b"";
    };
    match kind_of(word) {
        Some(Kind::Version) => b"sdls 1",
        Some(Kind::Device) => b"device 00000000",
        Some(Kind::Slots) => b"slots 16",
        Some(Kind::Block) => b"block 1",
        Some(Kind::Accept) => b"accept 1",
        _ => b"",
    }
}

/// The place of a word at fault among the words of its line, from 1, and what was expected there.
#[derive(Clone, Copy)]
pub struct Spot {
    pub word: u32,
    pub expected: Expected,
}

/// What was expected at a word that is at fault.
#[derive(Clone, Copy)]
pub enum Expected {
    Spelling(Spelling),
    /// The first word of a line.
    Kind,
    /// One of the first five lines, counted from 0.
    Head(u8),
    /// Any other line than one of the first five.
    NoHead,
    HeadWord(HeadWord),
    Link(LinkWord),
    Channel(ChannelWord),
    Key(KeyWord),
    Association(AssociationWord),
    NamedAbove(NamedAbove),
}

/// How words stand on a line, whatever they say.
#[derive(Clone, Copy)]
pub enum Spelling {
    LineFeed,
    NoMark,
    OneSpace,
    NoTab,
    Ascii,
    NoComment,
    End,
}

/// The second word of one of the first five lines.
#[derive(Clone, Copy)]
pub enum HeadWord {
    Version,
    Device,
    Slots,
    Count,
}

/// A word of the line of a link.
#[derive(Clone, Copy)]
pub enum LinkWord {
    Number,
    Frames,
    Segments,
    Fecf,
    Ocf,
    /// A mask of so many octets.
    Mask(u8),
    Length,
    /// A length of at least so many octets.
    LengthFrom(u64),
    Insert,
}

/// A word of the line of a channel.
#[derive(Clone, Copy)]
pub enum ChannelWord {
    Number,
    /// At most this number.
    Spacecraft(u64),
    /// At most this number.
    VirtualChannel(u64),
    Map(MapWord),
}

/// The multiplexer access point (MAP) of a channel.
#[derive(Clone, Copy)]
pub enum MapWord {
    /// A number: the frames of the link have segment headers.
    Number,
    /// No number, which `-` says.
    Absent,
    /// Either: the line of the link is at fault.
    Either,
}

/// A word of the line of a key.
#[derive(Clone, Copy)]
pub enum KeyWord {
    Number,
    State,
    Digits,
}

/// A word of the line of an association.
#[derive(Clone, Copy)]
pub enum AssociationWord {
    Spi,
    Direction,
    Suite,
    Number,
    Window,
    Channels,
}

/// What the lines above name, or do not name.
#[derive(Clone, Copy)]
pub enum NamedAbove {
    KnownLink,
    KnownKey,
    /// There is no line of this channel.
    KnownChannel(u64),
    // What has a line already, which is this one.
    NewLink(u64),
    NewChannel(u64),
    NewPlace(u64),
    NewKey(u64),
    NewSpi(u64),
}
