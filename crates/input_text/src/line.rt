//! A line of recorded input: how its octets are read, and what its words say.
#![tactic(auto, unfolding(crate::specs::Line::line_words, crate::specs::Line::IsLine, crate::specs::Monitor::asked_words, crate::specs::Monitor::IsAsked))]

ghost use Rattle.std.specs.Prelude.{◌≡◌, ◌≤◌, ◌<◌, ◌^◌, ℕ, List, [], ◌∷◌, length, codes, decimal, Some, None, Ok};
ghost use Rattle.std.specs.Prelude.{IfOk, MatchOption, IsTrue, map};
ghost use Rattle.hex.specs.Hex.{encode_lower, IsBytes};
ghost use Rattle.ep_codec.specs.declared.command.Command.{Command};
ghost use Rattle.record_io.specs.declared.reader.ItemKind.TheVariants.{Recorded};
ghost use Rattle.record_io.specs.declared.reader.RecordKind.TheVariants as records;
ghost use Rattle.fsr_log.specs.declared.messages.Monitoring.{Monitoring};
ghost use Rattle.fsr_log.specs.declared.messages.Monitoring.TheVariants as messages;
ghost use Rattle.fsr_log.specs.declared.messages.TheConstants.{BLOCK};
ghost use Rattle.fsr_log.specs.Message.{HasBlock};
ghost use Rattle.text_words.specs.Names.{item_word, message_word};
ghost use Rattle.text_words.specs.Words.{octets_word};
ghost use Rattle.text_words.specs.declared.words.MessageName.TheVariants as names;
ghost use Rattle.input_text.specs.declared.line.Line.TheVariants as lines;
ghost use Rattle.input_text.specs.Fields.{AnswersField, AreRecorded};
ghost use Rattle.input_text.specs.Command.{command_words, IsCommand};
ghost use Rattle.input_text.specs.Plain.{is_skipped, plain_octet};
ghost use Rattle.input_text.specs.Monitor.{IsAsked, asked_words, AreAsked, HasBytes, asked_named, monitoring_words};
ghost use Rattle.input_text.specs.Line.{IsElsewhere, IsLane, IsLine, SaysLine, line_words};
ghost use Rattle.input_text.specs.declared.line.Asked.{Asked};
ghost use Rattle.input_text.specs.declared.line.Asked.TheVariants as asks;

use crate::commands::command_named;
use crate::fault::{Expected, LineError, LineFault};
use crate::fields::Fields;
use ep_codec::Command;
use fsr_log::{BLOCK, Monitoring};
use record_io::{ItemKind, LANES, LEAST_MONITOR_OCTETS, MOST_RECORD_OCTETS, RecordKind};
use sdls_base::Octets;
use std::alloc::{AllocError, Global};
use text_words::{MessageName, item_word, message_named, message_word, procedure_named};

/// What a line says: an item of the recorded input.
#[derive(Drop)]
pub enum Line {
    /// `fence`: the end of a segment.
    Fence,
    /// `protect LANE LINK OCTETS`: a clear frame, to be protected.
    Protect { lane: u8, link: u8, octets: Octets },
    /// `open LANE LINK OCTETS`: a frame, to be opened.
    Open { lane: u8, link: u8, octets: Octets },
    /// `command LANE PROCEDURE VALUE..`: the message of a command.
    Command { lane: u8, command: Command },
    /// `command LANE octets OCTETS`: a message by its octets, whatever they are.
    Message { lane: u8, octets: Octets },
    /// `ping`, `monitor OCTETS` and others, and before it `at LANE LINK`, if one of these is not 0.
    Monitor { lane: u8, link: u8, asked: Asked },
}

fn lane(fields: &mut Fields<'_>) -> Result<u8, LineError>
    ensures read { IfOk result (λ lane. (fields.old ≡ decimal lane ∷ fields.new) × IsLane lane) }
    ensures only { (lane : ℕ) (rest : List (List ℕ)) → IsLane lane → fields.old ≡ decimal lane ∷ rest
        → AnswersField result lane }
{
    let lane = fields.bounded(Expected::Lane, 0, u64::from(LANES) - 1)?;
    Ok(lane as u8)
}

/// A link, and the octets of a record, the last words.
fn link_and_octets(fields: &mut Fields<'_>) -> Result<(u8, Octets), LineError>
    ensures read { IfOk result (λ read. (fields.old ≡ decimal read.0 ∷ octets_word read.1 ∷ []) × AreRecorded read.1) }
    ensures only { (link : ℕ) (octets : List ℕ) → link < 2 ^ 8 → AreRecorded octets
        → fields.old ≡ decimal link ∷ octets_word octets ∷ [] → AnswersField result (link, octets) }
{
    let link = fields.bounded(Expected::Link, 0, 255)?;
    let octets = fields.last_record()?;
    Ok((link as u8, octets))
}

/// What stands behind `protect` and `open`.
fn frame(fields: &mut Fields<'_>) -> Result<(u8, u8, Octets), LineError>
    ensures read { IfOk result (λ read. (fields.old ≡ decimal read.0 ∷ decimal read.1 ∷ octets_word read.2 ∷ [])
        × IsLane read.0 × AreRecorded read.2) }
    ensures only { (lane link : ℕ) (octets : List ℕ) → IsLane lane → link < 2 ^ 8 → AreRecorded octets
        → fields.old ≡ decimal lane ∷ decimal link ∷ octets_word octets ∷ []
        → AnswersField result (lane, link, octets) }
{
    let lane = lane(fields)?;
    let (link, octets) = link_and_octets(fields)?;
    Ok((lane, link, octets))
}

/// A command by its name and values.
fn named_command(word: &[u8], fields: &mut Fields<'_>) -> Result<Command, LineError>
    ensures read { IfOk result (λ command. (word.now ∷ fields.old ≡ command_words command) × IsCommand command) }
    ensures only { (command : Command) → IsCommand command → word.now ∷ fields.old ≡ command_words command
        → AnswersField result command }
{
    match procedure_named(word) {
        Some(procedure) => command_named(procedure, fields),
        None => Err(fields.fault(Expected::Procedure)),
    }
}

/// What stands behind the lane of a `command`.
fn message(lane: u8, fields: &mut Fields<'_>) -> Result<Line, LineError>
    requires { IsLane lane }
    ensures read { IfOk result (λ line.
        (item_word (Recorded records.Command) ∷ decimal lane ∷ fields.old ≡ line_words line) × IsLine line) }
    ensures command { (command : Command) → IsCommand command → fields.old ≡ command_words command
        → AnswersField result (lines.Command lane command) }
    ensures message { (octets : List ℕ) → AreRecorded octets → fields.old ≡ codes "octets" ∷ octets_word octets ∷ []
        → AnswersField result (lines.Message lane octets) }
{
    match fields.next() {
        Some(word) if word == b"octets".as_slice() => {
            let octets = fields.last_record()?;
            Ok(Line::Message { lane, octets })
        }
        Some(word) => {
            let command = named_command(word, fields)?;
            Ok(Line::Command { lane, command })
        }
        None => Err(fields.fault(Expected::Procedure)),
    }
}

/// What stands behind `command`.
fn command(fields: &mut Fields<'_>) -> Result<Line, LineError>
    ensures read { IfOk result (λ line. (item_word (Recorded records.Command) ∷ fields.old ≡ line_words line)
        × IsLine line) }
    ensures command { (lane : ℕ) (command : Command) → IsLane lane → IsCommand command
        → fields.old ≡ decimal lane ∷ command_words command → AnswersField result (lines.Command lane command) }
    ensures message { (lane : ℕ) (octets : List ℕ) → IsLane lane → AreRecorded octets
        → fields.old ≡ decimal lane ∷ codes "octets" ∷ octets_word octets ∷ []
        → AnswersField result (lines.Message lane octets) }
{
    let lane = lane(fields)?;
    message(lane, fields)
}

/// A monitoring message by its name, behind its lane and its link.
#[tactic(auto, using(crate::proofs::AskedWords::some_words))]
fn elsewhere(lane: u8, link: u8, fields: &mut Fields<'_>) -> Result<Line, LineError>
    requires { IsElsewhere lane link }
    ensures read { IfOk result (λ line. (codes "at" ∷ decimal lane ∷ decimal link ∷ fields.old ≡ line_words line)
        × IsLine line) }
    ensures only { (asked : Asked) → IsAsked asked → fields.old ≡ asked_words asked
        → AnswersField result (lines.Monitor lane link asked) }
{
    match fields.next() {
        Some(word) => {
            let asked = read_asked(word, fields, Expected::Message)?;
            Ok(Line::Monitor { lane, link, asked })
        }
        None => Err(fields.fault(Expected::Message)),
    }
}

/// A link, and a monitoring message behind it. Lane and link are not both 0.
fn behind_lane(lane: u8, fields: &mut Fields<'_>) -> Result<Line, LineError>
    ensures read { IfOk result (λ line. (codes "at" ∷ decimal lane ∷ fields.old ≡ line_words line) × IsLine line) }
    ensures only { (link : ℕ) (asked : Asked) → link < 2 ^ 8 → IsElsewhere lane link → IsAsked asked
        → fields.old ≡ decimal link ∷ asked_words asked → AnswersField result (lines.Monitor lane link asked) }
{
    let link = fields.bounded(Expected::Link, 0, 255)? as u8;
    if lane == 0 && link == 0 {
        return Err(fields.fault(Expected::Elsewhere));
    }
    elsewhere(lane, link, fields)
}

/// What stands behind `at`: a lane and a link, and a monitoring message.
fn at(fields: &mut Fields<'_>) -> Result<Line, LineError>
    ensures read { IfOk result (λ line. (codes "at" ∷ fields.old ≡ line_words line) × IsLine line) }
    ensures only { (lane link : ℕ) (asked : Asked) → lane < 2 ^ 8 → link < 2 ^ 8 → IsElsewhere lane link → IsAsked asked
        → fields.old ≡ decimal lane ∷ decimal link ∷ asked_words asked
        → AnswersField result (lines.Monitor lane link asked) }
{
    let lane = fields.bounded(Expected::AnyLane, 0, 255)?;
    behind_lane(lane as u8, fields)
}

/// A monitoring message by its name, at lane 0 and link 0.
fn monitor(word: &[u8], fields: &mut Fields<'_>) -> Result<Line, LineError>
    ensures read { IfOk result (λ line. (word.now ∷ fields.old ≡ line_words line) × IsLine line) }
    ensures only { (asked : Asked) → IsAsked asked → word.now ∷ fields.old ≡ asked_words asked
        → AnswersField result (lines.Monitor 0 0 asked) }
{
    let asked = read_asked(word, fields, Expected::Kind)?;
    Ok(Line::Monitor {
        lane: 0,
        link: 0,
        asked,
    })
}

/// What the words of a line say.
fn said(fields: &mut Fields<'_>) -> Result<Line, LineError>
    ensures read { IfOk result (λ line. (fields.old ≡ line_words line) × IsLine line) }
    ensures fence { fields.old ≡ line_words lines.Fence → AnswersField result lines.Fence }
    ensures protect { (lane link : ℕ) (octets : List ℕ) → IsLane lane → link < 2 ^ 8 → AreRecorded octets
        → fields.old ≡ line_words (lines.Protect lane link octets)
        → AnswersField result (lines.Protect lane link octets) }
    ensures open_frame { (lane link : ℕ) (octets : List ℕ) → IsLane lane → link < 2 ^ 8 → AreRecorded octets
        → fields.old ≡ line_words (lines.Open lane link octets) → AnswersField result (lines.Open lane link octets) }
    ensures command { (lane : ℕ) (command : Command) → IsLane lane → IsCommand command
        → fields.old ≡ line_words (lines.Command lane command) → AnswersField result (lines.Command lane command) }
    ensures message { (lane : ℕ) (octets : List ℕ) → IsLane lane → AreRecorded octets
        → fields.old ≡ line_words (lines.Message lane octets) → AnswersField result (lines.Message lane octets) }
    ensures monitor { (lane link : ℕ) (asked : Asked) → lane < 2 ^ 8 → link < 2 ^ 8 → IsAsked asked
        → fields.old ≡ line_words (lines.Monitor lane link asked)
        → AnswersField result (lines.Monitor lane link asked) }
{
    match fields.next() {
        Some(word) if word == item_word(ItemKind::Fence) => {
            fields.end(Expected::End)?;
            Ok(Line::Fence)
        }
        Some(word) if word == item_word(ItemKind::Recorded(RecordKind::Protect)) => {
            let (lane, link, octets) = frame(fields)?;
            Ok(Line::Protect { lane, link, octets })
        }
        Some(word) if word == item_word(ItemKind::Recorded(RecordKind::Open)) => {
            let (lane, link, octets) = frame(fields)?;
            Ok(Line::Open { lane, link, octets })
        }
        Some(word) if word == item_word(ItemKind::Recorded(RecordKind::Command)) => {
            command(fields)
        }
        Some(word) if word == b"at".as_slice() => at(fields),
        Some(word) => monitor(word, fields),
        None => Err(fields.fault(Expected::Kind)),
    }
}

/// The same fault; if the line begins with a byte order mark or ends with CR LF, that is what is named.
fn name_mark(text: &[u8], fault: LineFault) -> LineFault {
    let expected = if text.starts_with(&[0xef, 0xbb, 0xbf]) {
        Expected::NoMark
    } else if text.ends_with(b"\r") {
        Expected::LineFeed
    } else {
        fault.expected
    };
    LineFault { expected, ..fault }
}

/// What the line says, without its line feed: an item, or nothing if it is empty or a comment, perhaps behind spaces.
///
/// A `Fault` names the first word with which the line says nothing any more, and what was expected there.
pub fn read_line(alloc: Global, text: &[u8]) -> Result<Option<Line>, LineError>
    // What is read is what the line says, and nothing is read if it is skipped.
    ensures read { IfOk result (λ read. MatchOption read (IsTrue (is_skipped text.now)) (SaysLine text.now)) }
    // What a line says is read, unless memory runs out: so it says one thing at most, and a fault comes only if it says
    // nothing.
    ensures only { (line : Line) → SaysLine text.now line → AnswersField result (Some line) }
    ensures skipped { IsTrue (is_skipped text.now) → result ≡ Ok None }
{
    if is_skipped(text) {
        return Ok(None);
    }
    let plain = plain(alloc, text)?;
    match said(&mut Fields::of(alloc, text, plain.as_slice())) {
        Ok(line) => Ok(Some(line)),
        Err(LineError::Fault(fault)) => Err(LineError::Fault(name_mark(text, fault))),
        Err(LineError::NoMemory) => Err(LineError::NoMemory),
    }
}

/// What a Monitor record asks.
#[derive(Drop)]
pub enum Asked {
    /// A monitoring message, by its name: `ping`, `log-status`, `dump-log`, `erase-log`, `self-test BLOCK` or
    /// `alarm-reset`.
    Message(Monitoring),
    /// `monitor OCTETS`: a message by its octets, whatever they are.
    Octets(Octets),
}

/// The message without data that a word names.
fn named(word: &[u8]) -> Option<Monitoring>
    ensures { result ≡ asked_named word.now }
{
    match message_named(word)? {
        MessageName::Ping => Some(Monitoring::Ping),
        MessageName::LogStatus => Some(Monitoring::LogStatus),
        MessageName::DumpLog => Some(Monitoring::DumpLog),
        MessageName::EraseLog => Some(Monitoring::EraseLog),
        MessageName::SelfTest => None,
        MessageName::AlarmReset => Some(Monitoring::AlarmReset),
    }
}

/// A message without data, by its name.
fn bare(word: &[u8], fields: &mut Fields<'_>, expected: Expected) -> Result<Monitoring, LineError>
    ensures read { IfOk result (λ message. (word.now ∷ fields.old ≡ monitoring_words message) × HasBlock message
        × HasBytes message) }
    ensures only { (message : Monitoring) → asked_named word.now ≡ Some message → fields.old ≡ []
        → AnswersField result message }
{
    match named(word) {
        Some(message) => {
            fields.end(Expected::End)?;
            Ok(message)
        }
        None => Err(fields.fault(expected)),
    }
}

/// The block of a Self test, the last word.
fn block(fields: &mut Fields<'_>) -> Result<[u8; BLOCK], LineError>
    ensures read { IfOk result (λ block. (fields.old ≡ encode_lower block ∷ []) × (length block ≡ BLOCK)
        × IsBytes block) }
    ensures only { (block : List ℕ) → IsBytes block → length block ≡ BLOCK → fields.old ≡ encode_lower block ∷ []
        → AnswersField result block }
{
    fields.last_block()
}

/// The octets of a Monitor record, the last word.
fn asked_octets_of(fields: &mut Fields<'_>) -> Result<Octets, LineError>
    ensures read { IfOk result (λ octets. (fields.old ≡ encode_lower octets ∷ []) × AreAsked octets) }
    ensures only { (octets : List ℕ) → AreAsked octets → fields.old ≡ encode_lower octets ∷ []
        → AnswersField result octets }
{
    let octets = fields.octets(
        Expected::Asked,
        usize::from(LEAST_MONITOR_OCTETS),
        usize::from(MOST_RECORD_OCTETS),
    )?;
    fields.end(Expected::End)?;
    Ok(Octets::new(octets))
}

/// What a word and those behind it ask, by the word.
fn by_word(word: &[u8], fields: &mut Fields<'_>, expected: Expected) -> Result<Asked, LineError>
    ensures read { IfOk result (λ asked. (word.now ∷ fields.old ≡ asked_words asked) × IsAsked asked) }
    ensures octets { (octets : List ℕ) → AreAsked octets → word.now ≡ item_word (Recorded records.Monitor)
        → fields.old ≡ encode_lower octets ∷ [] → AnswersField result (asks.Octets octets) }
    ensures block { (block : List ℕ) → IsBytes block → length block ≡ BLOCK → word.now ≡ message_word names.SelfTest
        → fields.old ≡ encode_lower block ∷ [] → AnswersField result (asks.Message (messages.SelfTest block)) }
    ensures named { (message : Monitoring) → asked_named word.now ≡ Some message → fields.old ≡ []
        → AnswersField result (asks.Message message) }
{
    if word == item_word(ItemKind::Recorded(RecordKind::Monitor)) {
        let octets = asked_octets_of(fields)?;
        return Ok(Asked::Octets(octets));
    }
    if word == message_word(MessageName::SelfTest) {
        let block = block(fields)?;
        return Ok(Asked::Message(Monitoring::SelfTest(block)));
    }
    let message = bare(word, fields, expected)?;
    Ok(Asked::Message(message))
}

/// What a word and those behind it ask. The word was taken last.
fn read_asked(word: &[u8], fields: &mut Fields<'_>, expected: Expected) -> Result<Asked, LineError>
    ensures read { IfOk result (λ asked. (word.now ∷ fields.old ≡ asked_words asked) × IsAsked asked) }
    ensures only { (asked : Asked) → IsAsked asked → word.now ∷ fields.old ≡ asked_words asked
        → AnswersField result asked }
{
    by_word(word, fields, expected)
}

fn plain_octet(octet: u8) -> u8
    ensures { result ≡ plain_octet octet }
{
    if octet == b',' {
        b' '
    } else {
        octet.to_ascii_lowercase()
    }
}

/// The line as it is read: commas are spaces, and letters are in lower case.
pub(crate) fn plain(alloc: Global, text: &[u8]) -> Result<Vec<u8>, AllocError>
    ensures { IfOk result (λ plain. plain.items ≡ map plain_octet text.now) }
{
    text.iter().map(|octet| plain_octet(*octet)).collect(alloc)
}

/// Whether the line is empty or a comment, perhaps behind spaces.
fn is_skipped(text: &[u8]) -> bool
    ensures { result ≡ is_skipped text.now }
{
    let mut rest = text;
    while let [octet, after @ ..] = rest {
        if *octet != b' ' {
            return *octet == b'#';
        }
        rest = after;
    }
    true
}
