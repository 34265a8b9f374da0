//! `key` and `sa` lines.
ghost use Rattle.std.specs.Prelude.{◌≡◌, length, IfOk, IfSome, ◌↔◌, ◌≤◌, All, IsTrue, nat_le};
ghost use Rattle.std.specs.Option.{option_map};
ghost use Rattle.std.specs.List.{list_all};
ghost use Rattle.sdls_base.specs.Bounds.{IsKeyLength, AreChannels};
ghost use Rattle.unit_plan.specs.KeyLine.{state_of, key_octets, before_octets, key_said};
ghost use Rattle.unit_plan.specs.AssociationLine.{direction_of, suite_of, before_list, association_said};
ghost use Rattle.unit_plan.specs.AssociationLine.{are_channel_ids};

use crate::above::{AssociationWord, Expected, KeyWord};
use crate::bounds::{MOST_CHANNEL, MOST_KEY, MOST_NUMBER, MOST_SPI};
use crate::fields::{channels, choice, decimal, decode};
use crate::reader::Reader;
use sdls_base::{Direction, KeyState, MOST_WINDOW, Octets, Suite, are_channels};
use std::alloc::{AllocError, Global};

/// What a `key` line says.
#[derive(Drop)]
pub(crate) struct KeyLine {
    pub(crate) id: u64,
    pub(crate) state: KeyState,
    pub(crate) octets: Octets,
}

fn state_of(is_preactive: bool) -> KeyState
    ensures { result ≡ state_of is_preactive }
{
    if is_preactive {
        KeyState::PreActive
    } else {
        KeyState::Active
    }
}

/// The key that 32 or 64 digits spell.
fn key_octets(alloc: Global, word: &[u8]) -> Result<Option<Octets>, AllocError>
    ensures said { IfOk result (λ read. read ≡ key_octets word.now) }
    ensures bits { IfOk result (λ read. IfSome read (λ octets. IsKeyLength (length octets))) }
{
    if let Some(octets) = decode::<16>(word) {
        return Ok(Some(Octets::new(Vec::from_slice(alloc, &octets)?)));
    }
    if let Some(octets) = decode::<32>(word) {
        return Ok(Some(Octets::new(Vec::from_slice(alloc, &octets)?)));
    }
    Ok(None)
}

/// Whether a word is the digits of a key.
fn are_digits(word: &[u8]) -> bool {
    (word.len() == 32 || word.len() == 64) && word.iter().all(|octet| octet.is_ascii_hexdigit())
}

/// The words before the key, and the word of the key.
#[tactic(auto, unfolding(crate::specs::KeyLine::before_octets))]
pub(crate) fn before_octets<'a>(words: &mut Reader<'a>) -> Option<(u64, KeyState, &'a [u8])>
    ensures { option_map (λ read. (read.0, read.1, read.2.now)) result ≡ before_octets words.old }
{
    let id = decimal(words, 1, MOST_KEY, Expected::Key(KeyWord::Number))?;
    let is_preactive = choice(
        words,
        b"preactive",
        b"active",
        Expected::Key(KeyWord::State),
    )?;
    let state = state_of(is_preactive);
    let word = words.next(Expected::Key(KeyWord::Digits))?;
    words.test(are_digits(word), Expected::Key(KeyWord::Digits));
    words.end()?;
    Some((id, state, word))
}

#[tactic(auto, unfolding(crate::specs::KeyLine::key_said))]
pub(crate) fn key(alloc: Global, words: &mut Reader<'_>) -> Result<Option<KeyLine>, AllocError>
    ensures said { IfOk result (λ read. read ≡ key_said words.old) }
    ensures bits { IfOk result (λ read. IfSome read (λ line. IsKeyLength (length line.octets))) }
{
    let Some((id, state, word)) = before_octets(words) else {
        return Ok(None);
    };
    let Some(octets) = key_octets(alloc, word)? else {
        return Ok(None);
    };
    Ok(Some(KeyLine { id, state, octets }))
}

/// What an `sa` line says before its list.
#[derive(Clone, Copy)]
pub(crate) struct BeforeList {
    pub(crate) spi: u64,
    pub(crate) direction: Direction,
    pub(crate) suite: Suite,
    pub(crate) key: u64,
    pub(crate) number: u64,
    pub(crate) window: u64,
}

/// What an `sa` line says.
#[derive(Drop)]
pub(crate) struct AssociationLine {
    pub(crate) before: BeforeList,
    pub(crate) channels: Octets,
}

fn direction_of(sends: bool) -> Direction
    ensures { result ≡ direction_of sends }
{
    if sends {
        Direction::Send
    } else {
        Direction::Receive
    }
}

fn suite_of(is_cmac: bool) -> Suite
    ensures { result ≡ suite_of is_cmac }
{
    if is_cmac { Suite::Cmac } else { Suite::Gcm }
}

fn expected(word: AssociationWord) -> Expected {
    Expected::Association(word)
}

/// The words before the list, and the word of the list.
#[tactic(auto, unfolding(crate::specs::AssociationLine::before_list))]
pub(crate) fn before_list<'a>(words: &mut Reader<'a>) -> Option<(BeforeList, &'a [u8])>
    ensures { option_map (λ read. (read.0, read.1.now)) result ≡ before_list words.old }
{
    let spi = decimal(words, 1, MOST_SPI, expected(AssociationWord::Spi))?;
    let sends = choice(
        words,
        b"send",
        b"receive",
        expected(AssociationWord::Direction),
    )?;
    let direction = direction_of(sends);
    let is_cmac = choice(words, b"cmac", b"gcm", expected(AssociationWord::Suite))?;
    let suite = suite_of(is_cmac);
    let key = decimal(words, 1, MOST_KEY, Expected::Key(KeyWord::Number))?;
    words.test_key(key);
    let number = decimal(words, 0, MOST_NUMBER, expected(AssociationWord::Number))?;
    let window = decimal(words, 1, MOST_WINDOW, expected(AssociationWord::Window))?;
    let list = words.next(expected(AssociationWord::Channels))?;
    words.test_channels(list);
    words.end()?;
    let before = BeforeList {
        spi,
        direction,
        suite,
        key,
        number,
        window,
    };
    Some((before, list))
}

#[tactic(auto, unfolding(crate::specs::AssociationLine::association_said))]
pub(crate) fn association(
    alloc: Global,
    words: &mut Reader<'_>,
) -> Result<Option<AssociationLine>, AllocError>
    ensures { IfOk result (λ read. read ≡ association_said words.old) }
{
    let Some((before, list)) = before_list(words) else {
        return Ok(None);
    };
    let Some(numbers) = channels(alloc, list)? else {
        return Ok(None);
    };
    Ok(Some(AssociationLine {
        before,
        channels: Octets::new(numbers),
    }))
}

fn are_ids(numbers: &[u8]) -> bool
    ensures { result ≡ list_all (λ n. nat_le n 63) numbers.now }
{
    numbers.iter().all(|number| *number <= MOST_CHANNEL)
}

/// Whether these are one to eight channels of the unit, ascending. Unlike [`sdls_base::are_channels`] it looks at
/// whether one is above 63.
pub fn are_channel_ids(numbers: &[u8]) -> bool
    ensures tested { result ≡ are_channel_ids numbers.now }
    ensures bounds { IsTrue result ↔ (AreChannels numbers.now × All (λ n. n ≤ 63) numbers.now) }
{
    are_channels(numbers) && are_ids(numbers)
}
