//! The words for states, directions and suites, and the names of items, procedures and monitoring messages, both ways.
//! Numbers, read.
ghost use Rattle.std.specs.Prelude.{◌≡◌, ◌^◌, ◌<◌, ℕ, decimal, Some, IfSome, ◌++◌};
ghost use Rattle.sdls_base.specs.declared.states.Direction.{Direction};
ghost use Rattle.sdls_base.specs.declared.states.KeyState.{KeyState};
ghost use Rattle.sdls_base.specs.declared.states.SaState.{SaState};
ghost use Rattle.sdls_base.specs.declared.states.Suite.{Suite};
ghost use Rattle.text_words.specs.Names.{all_messages, association_procedures, item_word, key_procedures};
ghost use Rattle.text_words.specs.Names.{message_among, message_named, message_word, procedure_among};
ghost use Rattle.text_words.specs.Names.{procedure_named, procedure_word};
ghost use Rattle.text_words.specs.Words.{direction_word, key_state_word, sa_state_word, suite_word};

use ep_codec::Procedure;
use itoa::Buffer;
use record_io::{ItemKind, RecordKind};
use sdls_base::{Direction, KeyState, SaState, Suite};
use std::str;

/// The word for a key's state.
pub fn key_state_word(state: KeyState) -> &'static [u8]
    ensures { result.now ≡ key_state_word state }
{
    match state {
        KeyState::PreActive => b"preactive",
        KeyState::Active => b"active",
        KeyState::Deactivated => b"deactivated",
        KeyState::Destroyed => b"destroyed",
    }
}

/// The word for an association's state.
pub fn sa_state_word(state: SaState) -> &'static [u8]
    ensures { result.now ≡ sa_state_word state }
{
    match state {
        SaState::Unkeyed => b"unkeyed",
        SaState::Keyed => b"keyed",
        SaState::Operational => b"operational",
    }
}

/// The word for an association's direction.
pub fn direction_word(direction: Direction) -> &'static [u8]
    ensures { result.now ≡ direction_word direction }
{
    match direction {
        Direction::Send => b"send",
        Direction::Receive => b"receive",
    }
}

/// The word for an association's suite.
pub fn suite_word(suite: Suite) -> &'static [u8]
    ensures { result.now ≡ suite_word suite }
{
    match suite {
        Suite::Cmac => b"cmac",
        Suite::Gcm => b"gcm",
    }
}

/// The number that the word spells in decimal digits, as [`put_decimal`](crate::put_decimal) writes them.
pub fn number_spelled(word: &[u8]) -> Option<u64>
    ensures read { IfSome result (λ n. word.now ≡ decimal n) }
    ensures only { (n : ℕ) → n < 2 ^ 64 → word.now ≡ decimal n → result ≡ Some n }
{
    let Ok(text) = str::from_utf8(word) else {
        return None;
    };
    let Ok(n) = text.parse::<u64>() else {
        return None;
    };
    if Buffer::new().format(n).as_bytes() == word {
        Some(n)
    } else {
        None
    }
}

/// The key's state that has this word.
pub fn key_state_named(word: &[u8]) -> Option<KeyState>
    ensures read { IfSome result (λ state. word.now ≡ key_state_word state) }
    ensures only { (state : KeyState) → word.now ≡ key_state_word state → result ≡ Some state }
{
    match word {
        _ if word == key_state_word(KeyState::PreActive) => Some(KeyState::PreActive),
        _ if word == key_state_word(KeyState::Active) => Some(KeyState::Active),
        _ if word == key_state_word(KeyState::Deactivated) => Some(KeyState::Deactivated),
        _ if word == key_state_word(KeyState::Destroyed) => Some(KeyState::Destroyed),
        _ => None,
    }
}

/// The association's state that has this word.
pub fn sa_state_named(word: &[u8]) -> Option<SaState>
    ensures read { IfSome result (λ state. word.now ≡ sa_state_word state) }
    ensures only { (state : SaState) → word.now ≡ sa_state_word state → result ≡ Some state }
{
    match word {
        _ if word == sa_state_word(SaState::Unkeyed) => Some(SaState::Unkeyed),
        _ if word == sa_state_word(SaState::Keyed) => Some(SaState::Keyed),
        _ if word == sa_state_word(SaState::Operational) => Some(SaState::Operational),
        _ => None,
    }
}

/// The direction that has this word.
pub fn direction_named(word: &[u8]) -> Option<Direction>
    ensures read { IfSome result (λ direction. word.now ≡ direction_word direction) }
    ensures only { (direction : Direction) → word.now ≡ direction_word direction → result ≡ Some direction }
{
    match word {
        _ if word == direction_word(Direction::Send) => Some(Direction::Send),
        _ if word == direction_word(Direction::Receive) => Some(Direction::Receive),
        _ => None,
    }
}

/// The suite that has this word.
pub fn suite_named(word: &[u8]) -> Option<Suite>
    ensures read { IfSome result (λ suite. word.now ≡ suite_word suite) }
    ensures only { (suite : Suite) → word.now ≡ suite_word suite → result ≡ Some suite }
{
    match word {
        _ if word == suite_word(Suite::Cmac) => Some(Suite::Cmac),
        _ if word == suite_word(Suite::Gcm) => Some(Suite::Gcm),
        _ => None,
    }
}

/// A monitoring message, as its name has it.
#[derive(Clone, Copy, Debug, PartialEq, Eq)]
pub enum MessageName {
    Ping,
    LogStatus,
    DumpLog,
    EraseLog,
    SelfTest,
    AlarmReset,
}

/// The word with which the line of an item begins; of a Monitor record, the one before its octets.
pub fn item_word(kind: ItemKind) -> &'static [u8]
    ensures { result.now ≡ item_word kind }
{
    match kind {
        ItemKind::Fence => b"fence",
        ItemKind::Recorded(RecordKind::Protect) => b"protect",
        ItemKind::Recorded(RecordKind::Open) => b"open",
        ItemKind::Recorded(RecordKind::Command) => b"command",
        ItemKind::Recorded(RecordKind::Monitor) => b"monitor",
    }
}

/// All procedures: those that manage keys, and behind them those that manage associations.
pub fn procedures() -> [Procedure; 17]
    ensures { result ≡ key_procedures ++ association_procedures }
{
    [
        Procedure::Rekeying,
        Procedure::Activate,
        Procedure::Deactivate,
        Procedure::Verify,
        Procedure::Destroy,
        Procedure::Inventory,
        Procedure::Compose,
        Procedure::ReadNumber,
        Procedure::Create,
        Procedure::Delete,
        Procedure::SetWindow,
        Procedure::Rekey,
        Procedure::Expire,
        Procedure::SetNumber,
        Procedure::Start,
        Procedure::Stop,
        Procedure::Status,
    ]
}

/// All monitoring messages.
pub fn messages() -> [MessageName; 6]
    ensures { result ≡ all_messages }
{
    [
        MessageName::Ping,
        MessageName::LogStatus,
        MessageName::DumpLog,
        MessageName::EraseLog,
        MessageName::SelfTest,
        MessageName::AlarmReset,
    ]
}

/// The name of a procedure.
pub fn procedure_word(procedure: Procedure) -> &'static [u8]
    ensures { result.now ≡ procedure_word procedure }
{
    match procedure {
        Procedure::Rekeying => b"rekeying",
        Procedure::Activate => b"activate",
        Procedure::Deactivate => b"deactivate",
        Procedure::Verify => b"verify",
        Procedure::Destroy => b"destroy",
        Procedure::Inventory => b"inventory",
        Procedure::Compose => b"compose",
        Procedure::ReadNumber => b"read-number",
        Procedure::Create => b"create",
        Procedure::Delete => b"delete",
        Procedure::SetWindow => b"set-window",
        Procedure::Rekey => b"rekey",
        Procedure::Expire => b"expire",
        Procedure::SetNumber => b"set-number",
        Procedure::Start => b"start",
        Procedure::Stop => b"stop",
        Procedure::Status => b"status",
    }
}

/// The first of these procedures that a word names.
fn procedure_among(word: &[u8], listed: &[Procedure]) -> Option<Procedure>
    ensures { result ≡ procedure_among listed.now word.now }
{
    for procedure in listed {
        if word == procedure_word(*procedure) {
            return Some(*procedure);
        }
    }
    None
}

/// The procedure that a word names.
pub fn procedure_named(word: &[u8]) -> Option<Procedure>
    ensures { result ≡ procedure_named word.now }
{
    procedure_among(word, &procedures())
}

/// The name of a monitoring message.
pub fn message_word(name: MessageName) -> &'static [u8]
    ensures { result.now ≡ message_word name }
{
    match name {
        MessageName::Ping => b"ping",
        MessageName::LogStatus => b"log-status",
        MessageName::DumpLog => b"dump-log",
        MessageName::EraseLog => b"erase-log",
        MessageName::SelfTest => b"self-test",
        MessageName::AlarmReset => b"alarm-reset",
    }
}

/// The first of these monitoring messages that a word names.
fn message_among(word: &[u8], listed: &[MessageName]) -> Option<MessageName>
    ensures { result ≡ message_among listed.now word.now }
{
    for name in listed {
        if word == message_word(*name) {
            return Some(*name);
        }
    }
    None
}

/// The monitoring message that a word names.
pub fn message_named(word: &[u8]) -> Option<MessageName>
    ensures { result ≡ message_named word.now }
{
    message_among(word, &messages())
}
