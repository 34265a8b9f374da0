//! The words of a line, read from left to right, with the first that is not what was expected.
ghost use Rattle.std.specs.Prelude.{◌≡◌};
ghost use Rattle.std.specs.Iterator.{YieldsFirstBy};
ghost use Rattle.unit_plan.specs.Lines.{words_of};
ghost use Rattle.unit_plan.specs.Reading.{Reads, past, end_of};
ghost use Rattle.unit_plan.specs.LineForm.{version_said, device_said, number_said};

use crate::above::{AssociationWord, Expected, HeadWord, NamedAbove, Spelling, Spot};
use crate::bounds::{LEAST_SLOTS, MOST_CHANNEL, MOST_COUNT};
use crate::fields::{Names, Room, decimal, decode, number_of};
use crate::kind::Kind;
use crate::lines::{Items, Words};
use sdls_base::MOST_CHANNELS;
use std::marker::Model;

/// The words of a line that are left. What the lines above name is tested if it was given.
#[derive(Drop)]
pub(crate) struct Reader<'a> {
    words: Words<'a>,
    names: Option<&'a Names>,
    // The place of the word that was read last, from 1.
    word: u32,
    spot: Option<Spot>,
}

impl<'a> Model for Reader<'a> {
    ghost use Rattle.std.specs.Prelude.{List, ℕ};

    ghost Value = { List (List ℕ) };

    ghost view = { λ reader. reader.words };
}

/// Whether there is a number within these bounds.
pub(crate) fn is_within(n: Option<u64>, least: u64, most: u64) -> bool {
    match n {
        Some(n) => least <= n && n <= most,
        None => false,
    }
}

impl<'a> Reader<'a> {
    pub(crate) fn of(line: &'a [u8]) -> Reader<'a>
        ensures { result ≡ words_of line.now }
    {
        Reader {
            words: Words::of(line),
            names: None,
            word: 0,
            spot: None,
        }
    }

    /// The words of a line below lines that name these.
    pub(crate) fn below(names: &'a Names, line: &'a [u8]) -> Reader<'a>
        ensures { result ≡ words_of line.now }
    {
        Reader {
            words: Words::of(line),
            names: Some(names),
            word: 0,
            spot: None,
        }
    }

    /// The first word that was not what was expected.
    pub(crate) fn spot(&self) -> Option<Spot> {
        self.spot
    }

    /// The place of the word that was read last, from 1.
    pub(crate) fn place(&self) -> u32 {
        self.word
    }

    /// Notes what was expected at a word, unless a word before is noted.
    fn note_at(&mut self, word: u32, expected: Expected)
        ensures { self.new ≡ self.old }
    {
        if self.spot.is_none() {
            self.spot = Some(Spot { word, expected });
        }
    }

    /// Notes what was expected at the word that was read last.
    pub(crate) fn note(&mut self, expected: Expected)
        ensures { self.new ≡ self.old }
    {
        self.note_at(self.word, expected);
    }

    /// Notes what was expected at a word, unless a rule holds.
    pub(crate) fn test_at(&mut self, word: u32, holds: bool, expected: Expected)
        ensures { self.new ≡ self.old }
    {
        if !holds {
            self.note_at(word, expected);
        }
    }

    /// Notes what was expected at the word that was read last, unless a rule holds.
    pub(crate) fn test(&mut self, holds: bool, expected: Expected)
        ensures { self.new ≡ self.old }
    {
        self.test_at(self.word, holds, expected);
    }

    pub(crate) fn next(&mut self, expected: Expected) -> Option<&'a [u8]>
        ensures { YieldsFirstBy (λ word. word.now) (λ words. words) self.old result self.new }
    {
        self.word = self.word.saturating_add(1);
        let word = self.words.next();
        self.test(word.is_some(), expected);
        word
    }

    /// Passes over one word where it comes next.
    pub(crate) fn pass(&mut self, word: &[u8], expected: Expected) -> Option<()>
        ensures { Reads result (past (words_of word.now) self.old) self.new }
    {
        self.word = self.word.saturating_add(1);
        let passed = pass(&mut self.words, word);
        self.test(passed.is_some(), expected);
        passed
    }

    /// Says whether no word is left.
    pub(crate) fn end(&mut self) -> Option<()>
        ensures { result ≡ end_of self.old }
    {
        self.word = self.word.saturating_add(1);
        let end = ended(&mut self.words);
        self.test(end.is_some(), Expected::Spelling(Spelling::End));
        end
    }

    /// Whether a line above names this.
    fn is_named(&self, kind: Kind, number: u64) -> bool {
        match self.names {
            Some(names) => names.line_of(kind, number).is_some(),
            None => true,
        }
    }

    /// Tests whether a line above names the key.
    pub(crate) fn test_key(&mut self, key: u64)
        ensures { self.new ≡ self.old }
    {
        let holds = self.is_named(Kind::Key, key);
        self.test(holds, Expected::NamedAbove(NamedAbove::KnownKey));
    }

    /// The room on a link, which a line above has to name.
    pub(crate) fn room_on(&mut self, link: u8) -> Room
        ensures { self.new ≡ self.old }
    {
        let holds = self.is_named(Kind::Link, u64::from(link));
        self.test(holds, Expected::NamedAbove(NamedAbove::KnownLink));
        match self.names {
            Some(names) => names.room_on(u64::from(link)),
            None => Room::WHOLE,
        }
    }

    /// What was expected in place of a list of channels, the numbers of which ascend and have lines above.
    fn expected_list(&self, list: &[u8]) -> Option<Expected> {
        let mut least: u64 = 0;
        let mut count: usize = 0;
        for item in Items::of(list) {
            let n = number_of(item);
            count = count.saturating_add(1);
            if !is_within(n, least, u64::from(MOST_CHANNEL)) || count > MOST_CHANNELS {
                return Some(Expected::Association(AssociationWord::Channels));
            }
            let n = n.unwrap_or(0);
            if !self.is_named(Kind::Channel, n) {
                return Some(Expected::NamedAbove(NamedAbove::KnownChannel(n)));
            }
            least = n.saturating_add(1);
        }
        None
    }

    /// Tests a list of channels, the word that was read last.
    pub(crate) fn test_channels(&mut self, list: &[u8])
        ensures { self.new ≡ self.old }
    {
        if let Some(expected) = self.expected_list(list) {
            self.note(expected);
        }
    }
}

/// Passes over these words where they come next.
#[tactic(auto, unfolding(crate::specs::Reading::past))]
pub fn pass(words: &mut Words<'_>, expected: &[u8]) -> Option<()>
    ensures { Reads result (past (words_of expected.now) words.old) words.new }
{
    for word in Words::of(expected) {
        if words.next()? != word {
            return None;
        }
    }
    Some(())
}

/// Says whether no word is left.
pub fn ended(words: &mut Words<'_>) -> Option<()>
    ensures { result ≡ end_of words.old }
{
    match words.next() {
        None => Some(()),
        Some(_) => None,
    }
}

pub(crate) fn version(words: &mut Reader<'_>) -> Option<()>
    ensures { result ≡ version_said words.old }
{
    words.pass(b"1", Expected::HeadWord(HeadWord::Version))?;
    words.end()
}

pub(crate) fn device(words: &mut Reader<'_>) -> Option<[u8; 4]>
    ensures { result ≡ device_said words.old }
{
    let word = words.next(Expected::HeadWord(HeadWord::Device))?;
    let octets = decode(word);
    words.test(octets.is_some(), Expected::HeadWord(HeadWord::Device));
    let octets = octets?;
    words.end()?;
    Some(octets)
}

/// The one number of a line: the slots, or any other from 1 on.
pub(crate) fn number(words: &mut Reader<'_>, least: u64) -> Option<u64>
    ensures { result ≡ number_said words.old }
{
    let expected = if least == LEAST_SLOTS {
        HeadWord::Slots
    } else {
        HeadWord::Count
    };
    let n = decimal(words, least, MOST_COUNT, Expected::HeadWord(expected))?;
    words.end()?;
    Some(n)
}
