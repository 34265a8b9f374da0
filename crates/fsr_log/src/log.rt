//! The log, and what one more answer changes.
ghost use Rattle.std.specs.Prelude.{◌≡◌, ◌*◌, ◌^◌, ◌<◌, ◌≤◌, List, [], ◌∷◌, ◌++◌, length, IfOk, if◌then◌else◌, ◌↔◌};
ghost use Rattle.std.specs.Prelude.{ℕ, None, slice_index};
ghost use Rattle.fsr_log.specs.declared.kinds.TheConstants.{EVENT, MOST_EVENTS};
ghost use Rattle.fsr_log.specs.Noted.{Noted, is_open, is_reply, is_seen};
ghost use Rattle.fsr_log.specs.Report.{report_of, events_of};
ghost use Rattle.fsr_log.specs.Reply.{Answers, dump, first_of_word, reply_of, report_word};
ghost use Rattle.fsr_log.specs.Steps.{alarm_behind, ring_behind};
ghost use Rattle.fsr_log.specs.declared.messages.Monitoring.{Monitoring};
ghost use Rattle.fsr_log.specs.Message.{IsMonitoring, monitor_fault};

use crate::kinds::{AnswerKind, EVENT, Event, MOST_EVENTS, is_event, put_events};
use crate::messages::{
    ALARM_RESET, DUMP_LOG, ERASE_LOG, LOG_STATUS, Monitoring, PING, REPLY, REPORT_WORD, SELF_TEST,
    counts, read_monitoring, reply_octets, tested,
};
use circular_buffer::HeapCircularBuffer;
use record_io::{Answer, RecordKind, ShortOctets, code};
use sdls_base::NoMemory;
use std::alloc::Global;
use std::marker::Model;

/// The last refusals of a run, and what its report word says.
#[derive(Drop)]
pub struct Log {
    events: HeapCircularBuffer<Event>,
    alarm: bool,
    last_open: u8,
    seen: (u16, u64),
}

impl Model for Log {
    ghost use Rattle.std.specs.Prelude.{◌≡◌};
    ghost use Rattle.fsr_log.specs.declared.kinds.TheConstants.{MOST_EVENTS};
    ghost use Rattle.fsr_log.specs.Report.{Report};

    ghost Value = { Report };

    ghost view = { λ log. record {
      events = log.events.items;
      alarm = log.alarm;
      last_open = log.last_open;
      key = log.seen.0;
      number = log.seen.1;
    } };

    ghost invariant = { λ log. log.events.capacity ≡ MOST_EVENTS };
}

impl Log {
    /// The log of a run without an answer.
    pub fn new(alloc: Global) -> Result<Log, NoMemory>
        ensures { IfOk result (λ log. log ≡ report_of []) }
    {
        let events = HeapCircularBuffer::with_capacity(alloc, MOST_EVENTS)?;
        Ok(Log {
            events,
            alarm: false,
            last_open: 0,
            seen: (0, 0),
        })
    }

    /// Notes the answer to the record with this number and kind. It takes no memory.
    pub fn note(&mut self, index: u64, kind: RecordKind, answer: &Answer)
        ensures { (notes : List Noted) → self.old ≡ report_of notes
            → self.new ≡ report_of (notes ++ record { index = index; kind = kind; answer = answer.now } ∷ []) }
    {
        note_event(&mut self.events, index, answer);
        self.alarm = alarm(self.alarm, answer);
        self.last_open = last_open(self.last_open, kind, answer.code);
        self.seen = last_seen(self.seen, answer);
    }

    /// The first octet of the report word.
    fn first_of_word(&self) -> u8
        ensures { result ≡ first_of_word self.now }
    {
        REPORT_WORD + 8 * u8::from(self.alarm) + AnswerKind::at(self.last_open).bit()
    }

    fn report_word(&self) -> [u8; 4]
        ensures { result ≡ report_word self.now }
    {
        let (key, number) = self.seen;
        let [high, low] = key.to_be_bytes();
        [self.first_of_word(), high, low, (number % 256) as u8]
    }

    /// The events, the oldest first.
    fn dump(&self, alloc: Global) -> Result<Vec<u8>, NoMemory>
        ensures octets { IfOk result (λ out. out.items ≡ dump self.now.events) }
        ensures short { IfOk result (λ out. length out.items ≤ EVENT * MOST_EVENTS) }
    {
        let (front, back) = self.events.as_slices();
        let mut out = Vec::with_capacity(alloc, EVENT * self.events.len())?;
        put_events(&mut out, front)?;
        put_events(&mut out, back)?;
        Ok(out)
    }

    fn reply(&self, alloc: Global, message: &Monitoring) -> Result<Vec<u8>, NoMemory>
        ensures octets { IfOk result (λ out. out.items ≡ reply_of self.now message.now) }
        ensures short { IfOk result (λ out. length out.items < 2 ^ 32) }
    {
        match message {
            Monitoring::Ping => reply_octets(alloc, PING, &self.report_word()),
            Monitoring::LogStatus => reply_octets(alloc, LOG_STATUS, &counts(self.events.len())),
            Monitoring::DumpLog => reply_octets(alloc, DUMP_LOG, &self.dump(alloc)?),
            Monitoring::EraseLog => reply_octets(alloc, ERASE_LOG, &counts(0)),
            Monitoring::SelfTest(block) => reply_octets(alloc, SELF_TEST, &tested(*block)),
            Monitoring::AlarmReset => reply_octets(alloc, ALARM_RESET, &[]),
        }
    }

    /// Answers octets that should be a monitoring message: the reply, or the offset of their first fault. The log stays
    /// as it is: what an Erase log or an Alarm reset changes comes when its answer is noted.
    pub fn answer(
        &self,
        alloc: Global,
        message: &[u8],
    ) -> Result<Result<ShortOctets, u32>, NoMemory>
        ensures { IfOk result (Answers self.now message.now) }
    {
        match read_monitoring(message) {
            Ok(message) => {
                let reply = self.reply(alloc, &message)?;
                Ok(Ok(ShortOctets::new(reply)))
            }
            Err(offset) => Ok(Err(offset)),
        }
    }
}

/// If the answer is the reply to a monitoring message with this tag.
fn is_reply(answer: &Answer, tag: u8) -> bool
    ensures { result ≡ is_reply tag answer.now }
{
    match answer.body.as_slice() {
        [first, ..] => answer.code == code::MONITORED && *first == tag,
        [] => false,
    }
}

/// Keeps the event of a refusal, and none behind an erased log.
pub(crate) fn note_event(events: &mut HeapCircularBuffer<Event>, index: u64, answer: &Answer)
    ensures { events.new ≡ ring_behind events.old index answer.now }
{
    if is_reply(answer, REPLY + ERASE_LOG) {
        events.clear();
    } else if is_event(answer.code) {
        events.push_back(Event {
            index,
            code: answer.code,
            detail: answer.detail,
            number: answer.number,
        });
    }
}

/// If there is an alarm behind an answer.
pub(crate) fn alarm(before: bool, answer: &Answer) -> bool
    ensures { result ≡ alarm_behind before answer.now }
{
    !is_reply(answer, REPLY + ALARM_RESET) && (before || AnswerKind::at(answer.code).raises_alarm())
}

/// The code of the last answer to an Open record.
pub(crate) fn last_open(before: u8, kind: RecordKind, code: u8) -> u8
    ensures { result ≡ (if is_open kind then code else before) }
{
    match kind {
        RecordKind::Open => code,
        _ => before,
    }
}

/// The key and the number that were seen last.
pub(crate) fn last_seen(before: (u16, u64), answer: &Answer) -> (u16, u64)
    ensures { result ≡ (if is_seen answer.now.code then (answer.now.key, answer.now.number) else before) }
{
    match answer.code {
        code::ACCEPTED | code::NUMBER => (answer.key, answer.number),
        _ => before,
    }
}

/// Law: octets have no fault exactly if they are a monitoring message.
pub fn message_without_fault()
    ensures { (octets : List ℕ) → ((i : ℕ) → slice_index octets i < 256)
        → (monitor_fault octets ≡ None) ↔ ((message : Monitoring) × IsMonitoring message octets) }
{}

/// Law: no two monitoring messages share a spelling.
pub fn one_message()
    ensures { (one other : Monitoring) (octets : List ℕ) → IsMonitoring one octets → IsMonitoring other octets
        → one ≡ other }
{}

/// Law: whatever was answered, no more than 256 events are reported; so those that fit are the difference.
pub fn events_fit()
    ensures { (notes : List Noted) → length (events_of notes) ≤ MOST_EVENTS }
{}
