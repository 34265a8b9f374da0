//! What an answer is to the log, and the refusals that the log keeps.
ghost use Rattle.std.specs.Prelude.{◌≡◌, ◌+◌, ◌*◌, ◌++◌, length, OnOk};
ghost use Rattle.std.specs.List.{flat_map};
ghost use Rattle.fsr_log.specs.Kinds.{is_event, is_event_kind, kind_at, kind_bit, kind_of, raises_alarm};
ghost use Rattle.fsr_log.specs.declared.kinds.TheConstants.{EVENT};
ghost use Rattle.fsr_log.specs.Reply.{event_octets};

use byteorder::{BigEndian, ByteOrder};
use record_io::AnswerCode;
use sdls_base::NoMemory;

/// What an answer is to the log, by its code.
#[derive(Clone, Copy, Debug, PartialEq, Eq)]
pub(crate) enum AnswerKind {
    /// It refuses nothing.
    Service,
    /// A refusal that says nothing of who sent the record.
    Refusal,
    /// A frame is refused for its association.
    Association,
    /// A frame is refused for its MAC.
    Mac,
    /// A frame is refused for its number.
    Number,
}

fn kind_of(code: AnswerCode) -> AnswerKind
    ensures { result ≡ kind_of code }
{
    match code {
        AnswerCode::Protected
        | AnswerCode::Accepted
        | AnswerCode::Clear
        | AnswerCode::Done
        | AnswerCode::Monitored
        | AnswerCode::MonitorFault
        | AnswerCode::End => AnswerKind::Service,
        AnswerCode::Refused
        | AnswerCode::Layout
        | AnswerCode::Channel
        | AnswerCode::Exhausted
        | AnswerCode::SiteFault
        | AnswerCode::Stopped
        | AnswerCode::NoMemory => AnswerKind::Refusal,
        AnswerCode::Spi | AnswerCode::Direction | AnswerCode::State | AnswerCode::Coverage => {
            AnswerKind::Association
        }
        AnswerCode::Mac => AnswerKind::Mac,
        AnswerCode::Number => AnswerKind::Number,
    }
}

impl AnswerKind {
    /// The kind of the answer with this code. An octet that is no code refuses nothing.
    pub(crate) fn at(code: u8) -> AnswerKind
        ensures { result ≡ kind_at code }
    {
        match AnswerCode::of(code) {
            Some(code) => kind_of(code),
            None => AnswerKind::Service,
        }
    }

    /// If the log keeps an event of it.
    pub(crate) fn is_event(self) -> bool
        ensures { result ≡ is_event_kind self }
    {
        match self {
            AnswerKind::Service => false,
            AnswerKind::Refusal | AnswerKind::Association | AnswerKind::Mac | AnswerKind::Number =>
                true,
        }
    }

    /// The bit of a report word that says it of the last answer to an Open record.
    pub(crate) fn bit(self) -> u8
        ensures { result ≡ kind_bit self }
    {
        match self {
            AnswerKind::Service | AnswerKind::Refusal => 0,
            AnswerKind::Association => 1,
            AnswerKind::Mac => 2,
            AnswerKind::Number => 4,
        }
    }

    /// If it raises the alarm.
    pub(crate) fn raises_alarm(self) -> bool
        ensures { result ≡ raises_alarm self }
    {
        match self {
            AnswerKind::Service | AnswerKind::Refusal => false,
            AnswerKind::Association | AnswerKind::Mac | AnswerKind::Number => true,
        }
    }
}

/// If a code is that of a refusal, which the log keeps.
pub fn is_event(code: u8) -> bool
    ensures { result ≡ is_event code }
{
    AnswerKind::at(code).is_event()
}

/// The most events that the log keeps.
pub const MOST_EVENTS: usize = 256;

/// A refusal.
#[derive(Clone, Copy, Debug, PartialEq, Eq)]
pub struct Event {
    /// The number of the record that was refused.
    pub index: u64,
    /// The code of its answer, one of [`record_io::code`].
    pub code: u8,
    /// The detail of its answer.
    pub detail: u8,
    /// The number of its answer.
    pub number: u64,
}

/// The octets of an event in a dump.
pub(crate) const EVENT: usize = 18;

fn event_octets(event: &Event) -> [u8; EVENT]
    ensures { result ≡ event_octets event.now }
{
    let mut octets = [0; EVENT];
    BigEndian::write_u64(&mut octets[..8], event.index);
    octets[8] = event.code;
    octets[9] = event.detail;
    BigEndian::write_u64(&mut octets[10..], event.number);
    octets
}

fn put_event(out: &mut Vec<u8>, event: &Event) -> Result<(), NoMemory>
    ensures octets { OnOk result (out.new.items ≡ out.old.items ++ event_octets event.now) }
    ensures long { OnOk result (length out.new.items ≡ length out.old.items + EVENT) }
{
    out.extend_from_slice(&event_octets(event))?;
    Ok(())
}

/// Writes events one behind the other.
pub(crate) fn put_events(out: &mut Vec<u8>, events: &[Event]) -> Result<(), NoMemory>
    ensures octets { OnOk result (out.new.items ≡ out.old.items ++ flat_map event_octets events.now) }
    ensures long { OnOk result (length out.new.items ≡ length out.old.items + EVENT * length events.now) }
{
    for event in events {
        put_event(out, event)?;
    }
    Ok(())
}
