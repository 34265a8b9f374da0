//! The lines of items, each put behind a text.
#![tactic(auto, unfolding(input_text::specs::Line::line_item, input_text::specs::Line::IsLine, input_text::specs::Line::line_words, input_text::specs::Command::value_words, input_text::specs::Monitor::asked_octets, input_text::specs::Monitor::IsAsked, input_text::specs::Monitor::asked_words))]

ghost use Rattle.std.specs.Prelude.{◌≡◌, [], IfOk, OnOk, ◌++◌, ◌∷◌, decimal, map};
ghost use Rattle.hex.specs.Hex.{IsBytes};
ghost use Rattle.ep_codec.specs.declared.command.Command.TheVariants as commands;
ghost use Rattle.record_io.specs.declared.reader.ItemKind.TheVariants.{Fence};
ghost use Rattle.record_io.specs.Input.{IsItem};
ghost use Rattle.record_io.specs.Steps.{item_of};
ghost use Rattle.text_words.specs.Words.{octets_word};
ghost use Rattle.input_text.specs.declared.line.Line.TheVariants as lines;
ghost use Rattle.input_text.specs.Line.{IsLine, line_item, line_words};
ghost use Rattle.input_text.specs.Monitor.{AreAsked, IsAsked, asked_octets, asked_words, monitoring_words};
ghost use Rattle.input_text.specs.Command.{command_words, value_words, window_words};
ghost use Rattle.text_streams.specs.Spelling.{AddsLine, IsNamed, IsNamedAsked, seen_item, at_text, joined, line_text};
ghost use Rattle.text_streams.specs.Spelling.{all_spaced};

use ep_codec::{Command, PduError, read_pdu};
use fsr_log::{Monitoring, read_monitoring};
use input_text::{Asked, Line};
use record_io::{ItemKind, Record, RecordKind};
use replay_window::{back_of, width_of};
use sdls_base::{KeyId, NewSa, NoMemory, Octets};
use std::alloc::Global;
use text_words::{
    MessageName, direction_word, item_word, message_word, procedure_word, put_octets, put_spaced,
    put_spaced_digits, put_spaced_number, put_spaced_octets, suite_word,
};

/// The line of a command: by its name and values where the octets are its message, and else by its octets.
fn command_line(alloc: Global, lane: u8, octets: Octets) -> Result<Line, NoMemory>
    ensures item { IfOk result (λ line. line_item line ≡ line_item (lines.Message lane octets)) }
    ensures bounds { IsLine (lines.Message lane octets) → IfOk result IsLine }
    ensures named { IfOk result IsNamed }
{
    match read_pdu(alloc, octets.as_slice()) {
        Ok(command) => Ok(Line::Command { lane, command }),
        Err(PduError::Fault(_)) => Ok(Line::Message { lane, octets }),
        Err(PduError::NoMemory) => Err(NoMemory),
    }
}

/// What a Monitor record asks: by the name of its message where the octets are one, and else by its octets.
fn asked_of(octets: Octets) -> Asked
    ensures octets { asked_octets result ≡ octets }
    ensures bounds { AreAsked octets → IsAsked result }
    ensures named { IsNamedAsked result }
{
    match read_monitoring(octets.as_slice()) {
        Ok(message) => Asked::Message(message),
        Err(_) => Asked::Octets(octets),
    }
}

/// For contracts alone: what a slice of octets holds is octets.
fn hold_octets(octets: &[u8])
    ensures { IsBytes octets.now }
{
    let _ = octets;
}

/// The line of a record.
fn line_of(alloc: Global, recorded: Record) -> Result<Line, NoMemory>
    ensures item { IfOk result (λ line. line_item line ≡ seen_item (item_of recorded)) }
    ensures bounds { IsItem (item_of recorded) → IfOk result IsLine }
    ensures named { IfOk result IsNamed }
{
    let Record {
        index: _,
        kind,
        lane,
        link,
        octets,
    } = recorded;
    let octets = Octets::new(octets.into_vec());
    // For contracts alone.
    hold_octets(octets.as_slice());
    match kind {
        RecordKind::Protect => Ok(Line::Protect { lane, link, octets }),
        RecordKind::Open => Ok(Line::Open { lane, link, octets }),
        RecordKind::Command => command_line(alloc, lane, octets),
        RecordKind::Monitor => Ok(Line::Monitor {
            lane,
            link,
            asked: asked_of(octets),
        }),
    }
}

/// Writes the line of a record, with a line feed at its end. After an error a front of it may have been put.
///
/// A command is told by its name and values where its octets are a message, and else by its octets; a monitoring
/// message likewise.
pub fn put_record(alloc: Global, text: &mut Vec<u8>, recorded: Record) -> Result<(), NoMemory>
    ensures { IsItem (item_of recorded) → OnOk result
        (AddsLine (seen_item (item_of recorded)) text.old.items text.new.items) }
{
    let line = line_of(alloc, recorded)?;
    put_line(text, &line)?;
    Ok(())
}

/// Writes the line of a fence, with a line feed at its end.
pub fn put_fence(alloc: Global, text: &mut Vec<u8>) -> Result<(), NoMemory>
    ensures { OnOk result (AddsLine (record { kind = Fence; lane = 0; link = 0; octets = [] }) text.old.items
        text.new.items) }
{
    put_line(text, &Line::Fence)?;
    Ok(())
}

/// Writes the lane, the link and the octets of a frame.
fn put_frame(text: &mut Vec<u8>, lane: u8, link: u8, octets: &[u8]) -> Result<(), NoMemory>
    ensures { OnOk result (text.new.items
        ≡ text.old.items ++ all_spaced (decimal lane ∷ decimal link ∷ octets_word octets.now ∷ [])) }
{
    put_spaced_number(text, u64::from(lane))?;
    put_spaced_number(text, u64::from(link))?;
    put_spaced_octets(text, octets)
}

/// Writes the words of a monitoring message.
fn put_message(text: &mut Vec<u8>, message: &Monitoring) -> Result<(), NoMemory>
    ensures { OnOk result (text.new.items ≡ text.old.items ++ joined (monitoring_words message.now)) }
{
    match message {
        Monitoring::Ping => put_octets(text, message_word(MessageName::Ping)),
        Monitoring::LogStatus => put_octets(text, message_word(MessageName::LogStatus)),
        Monitoring::DumpLog => put_octets(text, message_word(MessageName::DumpLog)),
        Monitoring::EraseLog => put_octets(text, message_word(MessageName::EraseLog)),
        Monitoring::SelfTest(block) => {
            put_octets(text, message_word(MessageName::SelfTest))?;
            put_spaced_digits(text, block)
        }
        Monitoring::AlarmReset => put_octets(text, message_word(MessageName::AlarmReset)),
    }
}

/// Writes the words of what a Monitor record asks.
fn put_asked(text: &mut Vec<u8>, asked: &Asked) -> Result<(), NoMemory>
    ensures { OnOk result (text.new.items ≡ text.old.items ++ joined (asked_words asked.now)) }
{
    match asked {
        Asked::Message(message) => put_message(text, message),
        Asked::Octets(octets) => {
            put_octets(text, item_word(ItemKind::Recorded(RecordKind::Monitor)))?;
            put_spaced_digits(text, octets.as_slice())
        }
    }
}

/// Writes where a Monitor record stands, if its lane or its link is not 0.
fn put_at(text: &mut Vec<u8>, lane: u8, link: u8) -> Result<(), NoMemory>
    ensures { OnOk result (text.new.items ≡ text.old.items ++ at_text lane link) }
{
    if lane == 0 && link == 0 {
        return Ok(());
    }
    put_octets(text, b"at")?;
    put_spaced_number(text, u64::from(lane))?;
    put_spaced_number(text, u64::from(link))?;
    put_octets(text, b" ")
}

/// Writes the words of a Monitor record.
fn put_monitor(text: &mut Vec<u8>, lane: u8, link: u8, asked: &Asked) -> Result<(), NoMemory>
    ensures { OnOk result (text.new.items
        ≡ text.old.items ++ joined (line_words (lines.Monitor lane link asked.now))) }
{
    put_at(text, lane, link)?;
    put_asked(text, asked)?;
    Ok(())
}

/// Writes the words of a line.
fn put_words(text: &mut Vec<u8>, line: &Line) -> Result<(), NoMemory>
    ensures { OnOk result (text.new.items ≡ text.old.items ++ joined (line_words line.now)) }
{
    match line {
        Line::Fence => put_octets(text, item_word(ItemKind::Fence)),
        Line::Protect { lane, link, octets } => {
            put_octets(text, item_word(ItemKind::Recorded(RecordKind::Protect)))?;
            put_frame(text, *lane, *link, octets.as_slice())
        }
        Line::Open { lane, link, octets } => {
            put_octets(text, item_word(ItemKind::Recorded(RecordKind::Open)))?;
            put_frame(text, *lane, *link, octets.as_slice())
        }
        Line::Command { lane, command } => {
            put_octets(text, item_word(ItemKind::Recorded(RecordKind::Command)))?;
            put_spaced_number(text, u64::from(*lane))?;
            put_command(text, command)
        }
        Line::Message { lane, octets } => {
            put_octets(text, item_word(ItemKind::Recorded(RecordKind::Command)))?;
            put_spaced_number(text, u64::from(*lane))?;
            put_spaced(text, b"octets")?;
            put_spaced_octets(text, octets.as_slice())
        }
        Line::Monitor { lane, link, asked } => put_monitor(text, *lane, *link, asked),
    }
}

/// Writes the words of a line, and the line feed. After an error a front of it may have been put.
fn put_line(text: &mut Vec<u8>, line: &Line) -> Result<(), NoMemory>
    ensures { OnOk result (text.new.items ≡ text.old.items ++ line_text line.now) }
{
    put_words(text, line)?;
    put_octets(text, b"\n")
}

/// Writes the width of a window field, and its back window if it has one.
fn put_window(text: &mut Vec<u8>, window: u64) -> Result<(), NoMemory>
    ensures { OnOk result (text.new.items ≡ text.old.items ++ all_spaced (window_words window)) }
{
    put_spaced_number(text, width_of(window))?;
    let back = back_of(window);
    if back == 0 {
        return Ok(());
    }
    put_spaced(text, b"back")?;
    put_spaced_number(text, u64::from(back))
}

/// Writes what an association is created with.
fn put_association(text: &mut Vec<u8>, sa: &NewSa) -> Result<(), NoMemory>
    ensures { OnOk result (text.new.items ≡ text.old.items ++ all_spaced (value_words (commands.Create sa.now))) }
{
    put_spaced_number(text, u64::from(sa.spi.get()))?;
    put_spaced(text, direction_word(sa.direction))?;
    put_spaced(text, suite_word(sa.suite))?;
    put_window(text, sa.window)?;
    put_channels(text, sa.channels.as_slice())
}

/// Writes the values of a command.
fn put_values(text: &mut Vec<u8>, command: &Command) -> Result<(), NoMemory>
    ensures { OnOk result (text.new.items ≡ text.old.items ++ all_spaced (value_words command.now)) }
{
    match command {
        Command::Rekeying {
            master,
            vector,
            sealed,
            tag,
        } => {
            put_spaced_number(text, u64::from(master.get()))?;
            put_spaced_digits(text, vector)?;
            put_spaced_digits(text, sealed.as_slice())?;
            put_spaced_digits(text, tag)
        }
        Command::Activate(keys) | Command::Deactivate(keys) | Command::Destroy(keys) => {
            put_keys(text, keys.as_slice())
        }
        Command::Verify { key, challenge } => {
            put_spaced_number(text, u64::from(key.get()))?;
            put_spaced_digits(text, challenge)
        }
        Command::Inventory { first, last } => {
            put_spaced_number(text, u64::from(*first))?;
            put_spaced_number(text, u64::from(*last))
        }
        Command::Compose { master, keys } => {
            put_spaced_number(text, u64::from(master.get()))?;
            put_keys(text, keys.as_slice())
        }
        Command::Create(sa) => put_association(text, sa),
        Command::SetWindow { spi, window } => {
            put_spaced_number(text, u64::from(spi.get()))?;
            put_window(text, *window)
        }
        Command::Rekey { spi, key, number } => {
            put_spaced_number(text, u64::from(spi.get()))?;
            put_spaced_number(text, u64::from(key.get()))?;
            put_spaced_number(text, *number)
        }
        Command::SetNumber { spi, number } => {
            put_spaced_number(text, u64::from(spi.get()))?;
            put_spaced_number(text, *number)
        }
        Command::ReadNumber(spi)
        | Command::Delete(spi)
        | Command::Expire(spi)
        | Command::Start(spi)
        | Command::Stop(spi)
        | Command::Status(spi) => put_spaced_number(text, u64::from(spi.get())),
    }
}

/// Writes the name of a command, and its values.
fn put_command(text: &mut Vec<u8>, command: &Command) -> Result<(), NoMemory>
    ensures { OnOk result (text.new.items ≡ text.old.items ++ all_spaced (command_words command.now)) }
{
    put_spaced(text, procedure_word(command.procedure()))?;
    put_values(text, command)
}

fn put_keys(text: &mut Vec<u8>, keys: &[KeyId]) -> Result<(), NoMemory>
    ensures { OnOk result (text.new.items ≡ text.old.items ++ all_spaced (map decimal keys.now)) }
{
    for key in keys {
        put_spaced_number(text, u64::from(key.get()))?;
    }
    Ok(())
}

fn put_channels(text: &mut Vec<u8>, channels: &[u8]) -> Result<(), NoMemory>
    ensures { OnOk result (text.new.items ≡ text.old.items ++ all_spaced (map decimal channels.now)) }
{
    for channel in channels {
        put_spaced_number(text, u64::from(*channel))?;
    }
    Ok(())
}
