//! The replies to monitoring messages.
ghost use Rattle.std.specs.Prelude.{◌≡◌, ◌+◌, ◌*◌, ◌≤◌, ◌<◌, ◌++◌, codes, drop, length, IfSome, IsTrue, OnOk};
ghost use Rattle.record_io.specs.Codes.{code_at};
ghost use Rattle.text_words.specs.declared.words.MessageName.TheVariants as names;
ghost use Rattle.answer_text.specs.Part.{Part, event_at, event_members, event_object, event_objects, event_words};
ghost use Rattle.answer_text.specs.Part.{events_words, further_events, part_text, parts_text, word_of_code};
ghost use Rattle.answer_text.specs.Monitor.{are_events, count_parts, has_form, monitor_reply, monitor_values};
ghost use Rattle.answer_text.specs.Monitor.{reply_at, report_parts, tested_parts};

use crate::codes::code_word;
use crate::putting::{Form, put_named, put_named_octets};
use fsr_log::{
    ALARM_RESET, DUMP_LOG, ERASE_LOG, Event, LOG_STATUS, PING, REPLY, REPORT_WORD, SELF_TEST,
    is_event,
};
use record_io::AnswerCode;
use sdls_base::{NoMemory, number_at, word_at};
use text_words::{
    MessageName, put_further_number, put_number_member, put_octets, put_spaced, put_spaced_number,
    put_word_member,
};

/// The octets of an event in a dump.
const EVENT: usize = 18;

/// The most events of a dump, which are all that a log keeps.
const MOST: usize = 256;

const PING_REPLY: u8 = REPLY + PING;

const LOG_STATUS_REPLY: u8 = REPLY + LOG_STATUS;

const DUMP_LOG_REPLY: u8 = REPLY + DUMP_LOG;

const ERASE_LOG_REPLY: u8 = REPLY + ERASE_LOG;

const SELF_TEST_REPLY: u8 = REPLY + SELF_TEST;

const ALARM_RESET_REPLY: u8 = REPLY + ALARM_RESET;

/// The reply with this tag.
fn reply_at(tag: u8) -> Option<MessageName>
    ensures { result ≡ reply_at tag }
{
    match tag {
        PING_REPLY => Some(MessageName::Ping),
        LOG_STATUS_REPLY => Some(MessageName::LogStatus),
        DUMP_LOG_REPLY => Some(MessageName::DumpLog),
        ERASE_LOG_REPLY => Some(MessageName::EraseLog),
        SELF_TEST_REPLY => Some(MessageName::SelfTest),
        ALARM_RESET_REPLY => Some(MessageName::AlarmReset),
        _ => None,
    }
}

/// What stands behind an event.
fn behind(carried: &[u8]) -> &[u8]
    requires { EVENT ≤ length carried.now }
    ensures { result.now ≡ drop EVENT carried.now }
{
    &carried[EVENT..]
}

/// If the code of each event is that of one.
#[tactic(auto, using(crate::proofs::Events::left_is, crate::proofs::Events::event_left, crate::proofs::Events::behind_long))]
fn are_events(count: usize, carried: &[u8]) -> bool
    requires { length carried.now ≡ EVENT * count }
    ensures { result ≡ are_events count carried.now }
{
    let mut rest = carried;
    for _ in 0..count {
        if !is_event(rest[8]) {
            return false;
        }
        rest = behind(rest);
    }
    true
}

/// If what is carried is a dump.
fn is_dump(carried: &[u8]) -> bool
    ensures { result ≡ has_form names.DumpLog carried.now }
{
    let count = carried.len() / EVENT;
    carried.len() == EVENT * count && count <= MOST && are_events(count, carried)
}

/// If such a reply may carry this.
fn has_form(reply: MessageName, carried: &[u8]) -> bool
    ensures { result ≡ has_form reply carried.now }
{
    match reply {
        MessageName::Ping => carried.len() == 4 && carried[0] / 16 == REPORT_WORD / 16,
        MessageName::LogStatus => {
            carried.len() == 4
                && u32::from(word_at(carried, 0)) + u32::from(word_at(carried, 2)) == 256
        }
        MessageName::DumpLog => is_dump(carried),
        MessageName::EraseLog => {
            carried.len() == 4 && word_at(carried, 0) == 0 && word_at(carried, 2) == 256
        }
        MessageName::SelfTest => carried.len() == 32,
        MessageName::AlarmReset => carried.is_empty(),
    }
}

/// The reply that a body is.
pub fn monitor_reply(body: &[u8]) -> Option<MessageName>
    ensures found { result ≡ monitor_reply body.now }
    ensures formed { IfSome result (λ reply. IsTrue (has_form reply (drop 3 body.now)) × (3 ≤ length body.now)) }
{
    let [tag, _, _, carried @ ..] = body else {
        return None;
    };
    let bits = usize::from(word_at(body, 1));
    if carried.len() >= 8_192 || bits != 8 * carried.len() {
        return None;
    }
    let reply = reply_at(*tag)?;
    if has_form(reply, carried) {
        Some(reply)
    } else {
        None
    }
}

/// The word of a code, if it is one.
fn event_word(code: u8) -> &'static [u8]
    ensures { result.now ≡ word_of_code (code_at code) }
{
    match AnswerCode::of(code) {
        Some(code) => code_word(code),
        None => b"",
    }
}

/// The event at the front of a dump.
fn event_at(carried: &[u8]) -> Event
    requires { EVENT ≤ length carried.now }
    ensures { result ≡ event_at carried.now }
{
    Event {
        index: number_at(carried, 0),
        code: carried[8],
        detail: carried[9],
        number: number_at(carried, 10),
    }
}

/// Writes an event in words.
fn put_event(text: &mut Vec<u8>, event: Event) -> Result<(), NoMemory>
    ensures { OnOk result (text.new.items ≡ text.old.items ++ event_words event) }
{
    put_spaced(text, b"event")?;
    put_spaced_number(text, event.index)?;
    put_spaced(text, event_word(event.code))?;
    put_spaced_number(text, u64::from(event.detail))?;
    put_spaced_number(text, event.number)
}

/// Writes so many events, in words.
#[tactic(auto, using(crate::proofs::Events::event_left))]
fn put_events(text: &mut Vec<u8>, count: usize, carried: &[u8]) -> Result<(), NoMemory>
    requires { length carried.now ≡ EVENT * count }
    ensures { OnOk result (text.new.items ≡ text.old.items ++ events_words count carried.now) }
{
    let mut rest = carried;
    for _ in 0..count {
        put_event(text, event_at(rest))?;
        rest = behind(rest);
    }
    Ok(())
}

/// Writes the code, the detail and the number of an event, as members of a JSON object.
fn put_members(text: &mut Vec<u8>, event: Event) -> Result<(), NoMemory>
    ensures { OnOk result (text.new.items ≡ text.old.items ++ event_members event) }
{
    put_word_member(text, b"code", event_word(event.code))?;
    put_further_number(text, b"detail", u64::from(event.detail))?;
    put_further_number(text, b"number", event.number)
}

/// Writes an event as a JSON object.
fn put_object(text: &mut Vec<u8>, event: Event) -> Result<(), NoMemory>
    ensures { OnOk result (text.new.items ≡ text.old.items ++ event_object event) }
{
    put_octets(text, b"{")?;
    put_number_member(text, b"record", event.index)?;
    put_octets(text, b",")?;
    put_members(text, event)?;
    put_octets(text, b"}")
}

fn put_further(text: &mut Vec<u8>, event: Event) -> Result<(), NoMemory>
    ensures { OnOk result (text.new.items ≡ text.old.items ++ (codes "," ++ event_object event)) }
{
    put_octets(text, b",")?;
    put_object(text, event)
}

/// Writes so many events behind another, as JSON objects.
#[tactic(auto, using(crate::proofs::Events::event_left))]
fn put_further_events(text: &mut Vec<u8>, count: usize, carried: &[u8]) -> Result<(), NoMemory>
    requires { length carried.now ≡ EVENT * count }
    ensures { OnOk result (text.new.items ≡ text.old.items ++ further_events count carried.now) }
{
    let mut rest = carried;
    for _ in 0..count {
        put_further(text, event_at(rest))?;
        rest = behind(rest);
    }
    Ok(())
}

/// Writes so many events as JSON objects.
fn put_objects(text: &mut Vec<u8>, count: usize, carried: &[u8]) -> Result<(), NoMemory>
    requires { length carried.now ≡ EVENT * count }
    ensures { OnOk result (text.new.items ≡ text.old.items ++ event_objects count carried.now) }
{
    if count == 0 {
        return Ok(());
    }
    put_object(text, event_at(carried))?;
    put_further_events(text, count - 1, behind(carried))
}

/// Writes the events of a dump.
#[tactic(auto, unfolding(crate::specs::Part::part_text))]
fn put_dump(text: &mut Vec<u8>, form: Form, count: usize, carried: &[u8]) -> Result<(), NoMemory>
    requires { length carried.now ≡ EVENT * count }
    ensures { OnOk result (text.new.items ≡ text.old.items ++ part_text form (Part.events count carried.now)) }
{
    match form {
        Form::Words => put_events(text, count, carried),
        Form::Json => {
            put_octets(text, b",\"log\":[")?;
            put_objects(text, count, carried)?;
            put_octets(text, b"]")
        }
    }
}

/// Writes the report word bit by bit, and its key and number.
fn put_report(
    text: &mut Vec<u8>,
    form: Form,
    first: u64,
    key: u64,
    number: u64,
) -> Result<(), NoMemory>
    ensures { OnOk result (text.new.items ≡ text.old.items ++ parts_text form (report_parts first key number)) }
{
    put_named(text, form, b"alarm", first / 8 % 2)?;
    put_named(text, form, b"refused-number", first / 4 % 2)?;
    put_named(text, form, b"refused-mac", first / 2 % 2)?;
    put_named(text, form, b"refused-association", first % 2)?;
    put_named(text, form, b"key", key)?;
    put_named(text, form, b"number", number)
}

/// Writes how many events there are, and how many more fit.
fn put_counts(text: &mut Vec<u8>, form: Form, kept: u16, free: u16) -> Result<(), NoMemory>
    ensures { OnOk result (text.new.items ≡ text.old.items ++ parts_text form (count_parts kept free)) }
{
    put_named(text, form, b"events", u64::from(kept))?;
    put_named(text, form, b"free", u64::from(free))
}

/// Writes a block enciphered, and its MAC.
fn put_tested(text: &mut Vec<u8>, form: Form, block: &[u8], mac: &[u8]) -> Result<(), NoMemory>
    ensures { OnOk result (text.new.items ≡ text.old.items ++ parts_text form (tested_parts block.now mac.now)) }
{
    put_named_octets(text, form, b"enciphered", block)?;
    put_named_octets(text, form, b"mac", mac)?;
    Ok(())
}

/// Writes what the reply carries.
pub fn put_monitor_values(
    text: &mut Vec<u8>,
    form: Form,
    reply: MessageName,
    carried: &[u8],
) -> Result<(), NoMemory>
    requires { IsTrue (has_form reply carried.now) }
    ensures { OnOk result (text.new.items ≡ text.old.items ++ parts_text form (monitor_values reply carried.now)) }
{
    match reply {
        MessageName::Ping => put_report(
            text,
            form,
            u64::from(carried[0]),
            u64::from(word_at(carried, 1)),
            u64::from(carried[3]),
        ),
        MessageName::LogStatus | MessageName::EraseLog => {
            put_counts(text, form, word_at(carried, 0), word_at(carried, 2))
        }
        MessageName::DumpLog => {
            let count = carried.len() / EVENT;
            put_named(text, form, b"events", count as u64)?;
            put_dump(text, form, count, carried)
        }
        MessageName::SelfTest => {
            let (block, mac) = carried.split_at(16);
            put_tested(text, form, block, mac)
        }
        MessageName::AlarmReset => Ok(()),
    }
}
