//! Commands by their words, and their values. Lists stand at the end of a line.
#![tactic(auto, unfolding(crate::specs::Command::value_words, crate::specs::Command::HasOctets, ep_codec::specs::Command::IsInBounds, ep_codec::specs::Command::HasTypes))]

ghost use Rattle.std.specs.Prelude.{◌≡◌, IfOk, ◌≤◌, ◌^◌, ◌<◌, ℕ, List, length, IsTrue, [], ◌∷◌, ◌++◌, map, decimal};
ghost use Rattle.std.specs.List.{AllByRecursion};
ghost use Rattle.hex.specs.Hex.{encode_lower, IsBytes};
ghost use Rattle.sdls_base.specs.Bounds.{AreChannels, IsKeyCount};
ghost use Rattle.replay_window.specs.WindowField.{IsWindowField};
ghost use Rattle.ep_codec.specs.declared.command.Command.{Command};
ghost use Rattle.ep_codec.specs.declared.command.Command.TheVariants as commands;
ghost use Rattle.ep_codec.specs.Field.{is_key, is_spi};
ghost use Rattle.ep_codec.specs.Command.{AreKeys, IsSealedLength};
ghost use Rattle.ep_codec.specs.declared.procedure.Procedure.TheVariants as procedures;
ghost use Rattle.text_words.specs.Words.{direction_word, suite_word};
ghost use Rattle.input_text.specs.Fields.{AnswersField};
ghost use Rattle.input_text.specs.Command.{ByProcedure, IsCommand, ReadsAs, value_words, window_words};

use crate::fault::{Expected, LineError};
use crate::fields::Fields;
use ep_codec::{Command, Procedure};
use sdls_base::{
    Direction, KeyId, KeyList, MOST_CHANNELS, MOST_KEYS_AT_ONCE, NewSa, Octets, Suite,
};
use text_words::{direction_named, suite_named};
use unit_plan::are_channel_ids;

/// The command of this procedure that has these values.
pub fn command_named(procedure: Procedure, fields: &mut Fields<'_>) -> Result<Command, LineError>
    ensures read { IfOk result (ReadsAs procedure fields.old) }
    ensures only { ByProcedure (λ command. IsCommand command → fields.old ≡ value_words command
        → AnswersField result command) procedure }
{
    match procedure {
        Procedure::Rekeying => rekeying(fields),
        Procedure::Activate => Ok(Command::Activate(keys(fields)?)),
        Procedure::Deactivate => Ok(Command::Deactivate(keys(fields)?)),
        Procedure::Verify => verify(fields),
        Procedure::Destroy => Ok(Command::Destroy(keys(fields)?)),
        Procedure::Inventory => inventory(fields),
        Procedure::Compose => compose(fields),
        Procedure::ReadNumber => Ok(Command::ReadNumber(fields.last_spi()?)),
        Procedure::Create => create(fields),
        Procedure::Delete => Ok(Command::Delete(fields.last_spi()?)),
        Procedure::SetWindow => set_window(fields),
        Procedure::Rekey => rekey(fields),
        Procedure::Expire => Ok(Command::Expire(fields.last_spi()?)),
        Procedure::SetNumber => set_number(fields),
        Procedure::Start => Ok(Command::Start(fields.last_spi()?)),
        Procedure::Stop => Ok(Command::Stop(fields.last_spi()?)),
        Procedure::Status => Ok(Command::Status(fields.last_spi()?)),
    }
}

/// A key, and a number, the last words.
fn key_and_number(fields: &mut Fields<'_>) -> Result<(KeyId, u64), LineError>
    ensures read { IfOk result (λ read. (fields.old ≡ decimal read.0 ∷ decimal read.1 ∷ []) × IsTrue (is_key read.0)) }
    ensures only { (key number : ℕ) → IsTrue (is_key key) → number < 2 ^ 64
        → fields.old ≡ decimal key ∷ decimal number ∷ [] → AnswersField result (key, number) }
{
    let key = fields.key()?;
    let number = fields.last_number(Expected::Number, 0, u64::MAX)?;
    Ok((key, number))
}

fn rekey(fields: &mut Fields<'_>) -> Result<Command, LineError>
    ensures read { IfOk result (ReadsAs procedures.Rekey fields.old) }
    ensures only { (spi key number : ℕ) → IsTrue (is_spi spi) → IsTrue (is_key key) → number < 2 ^ 64
        → fields.old ≡ value_words (commands.Rekey spi key number)
        → AnswersField result (commands.Rekey spi key number) }
{
    let spi = fields.spi()?;
    let (key, number) = key_and_number(fields)?;
    Ok(Command::Rekey { spi, key, number })
}

fn verify(fields: &mut Fields<'_>) -> Result<Command, LineError>
    ensures read { IfOk result (ReadsAs procedures.Verify fields.old) }
    ensures only { (key : ℕ) (challenge : List ℕ) → IsTrue (is_key key) → IsBytes challenge → length challenge ≡ 16
        → fields.old ≡ value_words (commands.Verify key challenge)
        → AnswersField result (commands.Verify key challenge) }
{
    let key = fields.key()?;
    let challenge = fields.last_block()?;
    Ok(Command::Verify { key, challenge })
}

fn inventory(fields: &mut Fields<'_>) -> Result<Command, LineError>
    ensures read { IfOk result (ReadsAs procedures.Inventory fields.old) }
    ensures only { (first last : ℕ) → first ≤ last → last < 2 ^ 16
        → fields.old ≡ value_words (commands.Inventory first last)
        → AnswersField result (commands.Inventory first last) }
{
    let first = fields.bounded(Expected::First, 0, 65_535)?;
    let last = fields.last_number(Expected::Last, first, 65_535)?;
    Ok(Command::Inventory {
        first: first as u16,
        last: last as u16,
    })
}

fn set_number(fields: &mut Fields<'_>) -> Result<Command, LineError>
    ensures read { IfOk result (ReadsAs procedures.SetNumber fields.old) }
    ensures only { (spi number : ℕ) → IsTrue (is_spi spi) → number < 2 ^ 64
        → fields.old ≡ value_words (commands.SetNumber spi number)
        → AnswersField result (commands.SetNumber spi number) }
{
    let spi = fields.spi()?;
    let number = fields.last_number(Expected::Number, 0, u64::MAX)?;
    Ok(Command::SetNumber { spi, number })
}

/// What is sealed.
fn sealed(fields: &mut Fields<'_>) -> Result<Octets, LineError>
    ensures read { IfOk result (λ sealed. (fields.old ≡ encode_lower sealed ∷ fields.new) × IsBytes sealed
        × IsSealedLength sealed) }
    ensures only { (sealed : List ℕ) (rest : List (List ℕ)) → IsBytes sealed → IsSealedLength sealed
        → fields.old ≡ encode_lower sealed ∷ rest → AnswersField result sealed }
{
    let octets = fields.octets(Expected::Sealed, 19, 280)?;
    Ok(Octets::new(octets))
}

/// What is sealed, and its tag, the last words.
fn sealed_and_tag(fields: &mut Fields<'_>) -> Result<(Octets, [u8; 16]), LineError>
    ensures read { IfOk result (λ read. (fields.old ≡ encode_lower read.0 ∷ encode_lower read.1 ∷ []) × IsBytes read.0
        × IsSealedLength read.0) }
    ensures only { (sealed tag : List ℕ) → IsBytes sealed → IsSealedLength sealed → IsBytes tag → length tag ≡ 16
        → fields.old ≡ encode_lower sealed ∷ encode_lower tag ∷ [] → AnswersField result (sealed, tag) }
{
    let sealed = sealed(fields)?;
    let tag = fields.last_block()?;
    Ok((sealed, tag))
}

/// A vector, what is sealed with it, and its tag, the last words.
fn behind_master(fields: &mut Fields<'_>) -> Result<([u8; 12], Octets, [u8; 16]), LineError>
    ensures read { IfOk result (λ read. (fields.old ≡ encode_lower read.0 ∷ encode_lower read.1 ∷ encode_lower read.2
        ∷ [])
        × IsBytes read.1 × IsSealedLength read.1) }
    ensures only { (vector sealed tag : List ℕ) → IsBytes vector → length vector ≡ 12 → IsBytes sealed
        → IsSealedLength sealed → IsBytes tag → length tag ≡ 16
        → fields.old ≡ encode_lower vector ∷ encode_lower sealed ∷ encode_lower tag ∷ []
        → AnswersField result (vector, sealed, tag) }
{
    let vector = fields.array(Expected::Vector)?;
    let (sealed, tag) = sealed_and_tag(fields)?;
    Ok((vector, sealed, tag))
}

fn rekeying(fields: &mut Fields<'_>) -> Result<Command, LineError>
    ensures read { IfOk result (ReadsAs procedures.Rekeying fields.old) }
    ensures only { (master : ℕ) (vector sealed tag : List ℕ) → IsTrue (is_key master) → IsBytes vector
        → length vector ≡ 12 → IsBytes sealed → IsSealedLength sealed → IsBytes tag → length tag ≡ 16
        → fields.old ≡ value_words (commands.Rekeying master vector sealed tag)
        → AnswersField result (commands.Rekeying master vector sealed tag) }
{
    let master = fields.key()?;
    let (vector, sealed, tag) = behind_master(fields)?;
    Ok(Command::Rekeying {
        master,
        vector,
        sealed,
        tag,
    })
}

fn set_window(fields: &mut Fields<'_>) -> Result<Command, LineError>
    ensures read { IfOk result (ReadsAs procedures.SetWindow fields.old) }
    ensures only { (spi window : ℕ) → IsTrue (is_spi spi) → IsWindowField window
        → fields.old ≡ value_words (commands.SetWindow spi window)
        → AnswersField result (commands.SetWindow spi window) }
{
    let spi = fields.spi()?;
    let window = fields.last_window()?;
    Ok(Command::SetWindow { spi, window })
}

fn compose(fields: &mut Fields<'_>) -> Result<Command, LineError>
    ensures read { IfOk result (ReadsAs procedures.Compose fields.old) }
    ensures only { (master : ℕ) (listed : List ℕ) → IsTrue (is_key master) → AreKeys listed → IsKeyCount (length listed)
        → fields.old ≡ value_words (commands.Compose master listed)
        → AnswersField result (commands.Compose master listed) }
{
    let master = fields.key()?;
    let keys = keys(fields)?;
    Ok(Command::Compose { master, keys })
}

/// A window, and channels, the last words.
fn window_and_channels(fields: &mut Fields<'_>) -> Result<(u64, Octets), LineError>
    ensures read { IfOk result (λ read. (fields.old ≡ window_words read.0 ++ map decimal read.1) × IsWindowField read.0
        × AreChannels read.1 × AllByRecursion (λ channel. channel ≤ 63) read.1) }
    ensures only { (window : ℕ) (covered : List ℕ) → IsWindowField window → AreChannels covered
        → AllByRecursion (λ channel. channel ≤ 63) covered
        → fields.old ≡ window_words window ++ map decimal covered → AnswersField result (window, covered) }
{
    let window = fields.window()?;
    let channels = channels(fields)?;
    Ok((window, channels))
}

fn direction(fields: &mut Fields<'_>) -> Result<Direction, LineError>
    ensures read { IfOk result (λ direction. fields.old ≡ direction_word direction ∷ fields.new) }
    ensures only { (direction : Direction) (rest : List (List ℕ)) → fields.old ≡ direction_word direction ∷ rest
        → AnswersField result direction }
{
    let Some(word) = fields.next() else {
        return Err(fields.fault(Expected::Direction));
    };
    match direction_named(word) {
        Some(direction) => Ok(direction),
        None => Err(fields.fault(Expected::Direction)),
    }
}

fn suite(fields: &mut Fields<'_>) -> Result<Suite, LineError>
    ensures read { IfOk result (λ suite. fields.old ≡ suite_word suite ∷ fields.new) }
    ensures only { (suite : Suite) (rest : List (List ℕ)) → fields.old ≡ suite_word suite ∷ rest
        → AnswersField result suite }
{
    let Some(word) = fields.next() else {
        return Err(fields.fault(Expected::Suite));
    };
    match suite_named(word) {
        Some(suite) => Ok(suite),
        None => Err(fields.fault(Expected::Suite)),
    }
}

/// A suite, a window, and channels, the last words.
fn from_suite(fields: &mut Fields<'_>) -> Result<(Suite, u64, Octets), LineError>
    ensures read { IfOk result (λ read. (fields.old ≡ suite_word read.0 ∷ (window_words read.1 ++ map decimal read.2))
        × IsWindowField read.1 × AreChannels read.2 × AllByRecursion (λ channel. channel ≤ 63) read.2) }
    ensures only { (suite : Suite) (window : ℕ) (covered : List ℕ) → IsWindowField window → AreChannels covered
        → AllByRecursion (λ channel. channel ≤ 63) covered
        → fields.old ≡ suite_word suite ∷ (window_words window ++ map decimal covered)
        → AnswersField result (suite, window, covered) }
{
    let suite = suite(fields)?;
    let (window, channels) = window_and_channels(fields)?;
    Ok((suite, window, channels))
}

/// What an association is created with behind its index, the last words.
fn from_direction(fields: &mut Fields<'_>) -> Result<(Direction, Suite, u64, Octets), LineError>
    ensures read { IfOk result (λ read. (fields.old
        ≡ direction_word read.0 ∷ suite_word read.1 ∷ (window_words read.2 ++ map decimal read.3))
        × IsWindowField read.2 × AreChannels read.3 × AllByRecursion (λ channel. channel ≤ 63) read.3) }
    ensures only { (direction : Direction) (suite : Suite) (window : ℕ) (covered : List ℕ) → IsWindowField window
        → AreChannels covered → AllByRecursion (λ channel. channel ≤ 63) covered
        → fields.old ≡ direction_word direction ∷ suite_word suite ∷ (window_words window ++ map decimal covered)
        → AnswersField result (direction, suite, window, covered) }
{
    let direction = direction(fields)?;
    let (suite, window, channels) = from_suite(fields)?;
    Ok((direction, suite, window, channels))
}

fn create(fields: &mut Fields<'_>) -> Result<Command, LineError>
    ensures read { IfOk result (ReadsAs procedures.Create fields.old) }
    ensures only { (sa : NewSa) → IsTrue (is_spi sa.spi) → IsWindowField sa.window → AreChannels sa.channels
        → AllByRecursion (λ channel. channel ≤ 63) sa.channels
        → fields.old ≡ value_words (commands.Create sa) → AnswersField result (commands.Create sa) }
{
    let spi = fields.spi()?;
    let (direction, suite, window, channels) = from_direction(fields)?;
    Ok(Command::Create(NewSa {
        spi,
        direction,
        suite,
        window,
        channels,
    }))
}

/// Takes the keys that are left, 1 to 8.
pub fn keys(fields: &mut Fields<'_>) -> Result<KeyList, LineError>
    ensures read { IfOk result (λ keys. (fields.old ≡ map decimal keys) × AreKeys keys × IsKeyCount (length keys)) }
    ensures only { (keys : List ℕ) → AreKeys keys → IsKeyCount (length keys) → fields.old ≡ map decimal keys
        → AnswersField result keys }
{
    let mut keys: Vec<KeyId> = Vec::new(fields.alloc);
    let first = fields.key()?;
    keys.push(first)?;
    'words: while keys.len() < MOST_KEYS_AT_ONCE {
        let Some(word) = fields.next() else {
            return Ok(KeyList::new(keys));
        };
        let key = fields.key_of(word)?;
        keys.push(key)?;
    }
    fields.end(Expected::EndOfKeys)?;
    Ok(KeyList::new(keys))
}

/// Takes the channels that are left, 1 to 8 numbers up to 63.
fn channel_numbers(fields: &mut Fields<'_>) -> Result<Octets, LineError>
    ensures read { IfOk result (λ numbers. fields.old ≡ map decimal numbers) }
    ensures only { (numbers : List ℕ) → AllByRecursion (λ channel. channel ≤ 63) numbers
        → 1 ≤ length numbers → length numbers ≤ MOST_CHANNELS → fields.old ≡ map decimal numbers
        → AnswersField result numbers }
{
    let mut numbers: Vec<u8> = Vec::new(fields.alloc);
    let first = fields.channel()?;
    numbers.push(first)?;
    'words: while numbers.len() < MOST_CHANNELS {
        let Some(word) = fields.next() else {
            return Ok(Octets::new(numbers));
        };
        let number = fields.channel_of(word)?;
        numbers.push(number)?;
    }
    fields.end(Expected::EndOfChannels)?;
    Ok(Octets::new(numbers))
}

/// The place of the first number that is not above the one before it, for a message.
fn place_of_fall(numbers: &[u8]) -> usize {
    for at in 1..numbers.len() {
        if numbers[at] <= numbers[at - 1] {
            return at;
        }
    }
    numbers.len()
}

/// Takes the channels that are left, 1 to 8 ascending numbers.
pub fn channels(fields: &mut Fields<'_>) -> Result<Octets, LineError>
    ensures read { IfOk result (λ channels. (fields.old ≡ map decimal channels) × AreChannels channels
        × AllByRecursion (λ channel. channel ≤ 63) channels) }
    ensures only { (channels : List ℕ) → AreChannels channels → AllByRecursion (λ channel. channel ≤ 63) channels
        → fields.old ≡ map decimal channels → AnswersField result channels }
{
    let numbers = channel_numbers(fields)?;
    if are_channel_ids(numbers.as_slice()) {
        Ok(numbers)
    } else {
        let back = numbers
            .as_slice()
            .len()
            .saturating_sub(place_of_fall(numbers.as_slice()));
        Err(fields.fault_before(back, Expected::Channels))
    }
}
