//! The values of answers, by their codes.
#![tactic(auto, unfolding(crate::specs::Line::HasValues))]

ghost use Rattle.std.specs.Prelude.{◌≡◌, ◌≤◌, ◌++◌, ◌∷◌, [], ◌↔◌, IsTrue, OnOk, IfErr, drop, length};
ghost use Rattle.record_io.specs.declared.code.AnswerCode.TheVariants as codes;
ghost use Rattle.answer_text.specs.Part.{Part, parts_text};
ghost use Rattle.answer_text.specs.Line.{IsBare, IsCounting, IsPlain, LacksUnlessNoMemory, LacksValues, PutsValues};
ghost use Rattle.answer_text.specs.Line.{counting_parts, done_parts, drawn, monitored_parts, numbered, window_parts};
ghost use Rattle.answer_text.specs.Monitor.{has_form};

use crate::codes::{end_number, layout_detail, refusal_detail, state_detail};
use crate::line::TextError;
use crate::monitor::{monitor_reply, put_monitor_values};
use crate::putting::{Form, put_drawn, put_named, put_named_octets, put_number, put_word};
use crate::reply::{put_reply_name, put_reply_values};
use ep_codec::{PduError, ReplyPdu, read_reply};
use record_io::status::SESSION_FULL;
use record_io::{Answer, AnswerCode};
use sdls_base::{NoMemory, number_at};
use text_words::{MessageName, message_word};

fn is_bare(answer: &Answer) -> bool
    ensures { IsTrue result ↔ IsBare answer.now }
{
    answer.key == 0 && answer.body.as_slice().is_empty()
}

fn is_plain(answer: &Answer) -> bool
    ensures { IsTrue result ↔ IsPlain answer.now }
{
    answer.detail == 0 && answer.number == 0 && is_bare(answer)
}

/// Writes the number of a key, and the position by its name.
fn put_numbered(
    text: &mut Vec<u8>,
    form: Form,
    answer: &Answer,
    position: &[u8],
) -> Result<(), NoMemory>
    ensures { OnOk result (text.new.items ≡ text.old.items ++ parts_text form (numbered answer.now position.now)) }
{
    put_named(text, form, b"key", u64::from(answer.key))?;
    put_named(text, form, b"number", answer.number)?;
    put_named(text, form, position, answer.position)
}

/// Writes the number of a key, the position by its name, and the body by its name.
fn carrying(
    text: &mut Vec<u8>,
    form: Form,
    answer: &Answer,
    position: &[u8],
    body: &[u8],
) -> Result<(), TextError>
    ensures put { OnOk result ((answer.now.detail ≡ 0) × (text.new.items ≡ text.old.items
        ++ parts_text form (numbered answer.now position.now ++ Part.octets body.now answer.now.body ∷ []))) }
    ensures lacks { IfErr result (LacksUnlessNoMemory (answer.now.detail ≡ 0)) }
{
    if answer.detail != 0 {
        return Err(TextError::NoAnswer);
    }
    put_numbered(text, form, answer, position)?;
    put_named_octets(text, form, body, answer.body.as_slice())?;
    Ok(())
}

/// Writes the position of an answer that has nothing else, by its name.
fn plain(text: &mut Vec<u8>, form: Form, answer: &Answer, position: &[u8]) -> Result<(), TextError>
    ensures put { OnOk result (IsPlain answer.now ×
        (text.new.items ≡ text.old.items ++ parts_text form (Part.named position.now answer.now.position ∷ []))) }
    ensures lacks { IfErr result (LacksUnlessNoMemory (IsPlain answer.now)) }
{
    if !is_plain(answer) {
        return Err(TextError::NoAnswer);
    }
    put_named(text, form, position, answer.position)?;
    Ok(())
}

/// Writes the number that was drawn for a command.
fn put_drawn_of(text: &mut Vec<u8>, form: Form, answer: &Answer) -> Result<(), NoMemory>
    ensures { OnOk result (text.new.items ≡ text.old.items ++ parts_text form (drawn answer.now)) }
{
    if answer.key == 0 {
        return Ok(());
    }
    put_drawn(text, form, u64::from(answer.key), answer.number)
}

/// Writes a reply, and between its name and its values what the answer says.
fn put_done(
    text: &mut Vec<u8>,
    form: Form,
    answer: &Answer,
    reply: &ReplyPdu,
) -> Result<(), NoMemory>
    ensures { OnOk result (text.new.items ≡ text.old.items ++ parts_text form (done_parts answer.now reply.now)) }
{
    put_reply_name(text, form, reply)?;
    put_named(text, form, b"entry", answer.position)?;
    put_drawn_of(text, form, answer)?;
    put_reply_values(text, form, reply)?;
    Ok(())
}

fn done(text: &mut Vec<u8>, form: Form, answer: &Answer) -> Result<(), TextError>
    ensures put { OnOk result (PutsValues codes.Done answer.now form text.old.items text.new.items) }
    ensures lacks { IfErr result (LacksValues codes.Done answer.now) }
{
    if answer.detail != 0 || answer.key == 0 && answer.number != 0 {
        return Err(TextError::NoAnswer);
    }
    match read_reply(*text.allocator(), answer.body.as_slice()) {
        Ok(reply) => {
            put_done(text, form, answer, &reply)?;
            Ok(())
        }
        Err(PduError::Fault(_)) => Err(TextError::NoAnswer),
        Err(PduError::NoMemory) => Err(TextError::NoMemory),
    }
}

fn refused(text: &mut Vec<u8>, form: Form, answer: &Answer) -> Result<(), TextError>
    ensures put { OnOk result (PutsValues codes.Refused answer.now form text.old.items text.new.items) }
    ensures lacks { IfErr result (LacksValues codes.Refused answer.now) }
{
    if !is_bare(answer) {
        return Err(TextError::NoAnswer);
    }
    let Some(refusal) = refusal_detail(answer.detail) else {
        return Err(TextError::NoAnswer);
    };
    put_word(text, form, b"refusal", refusal)?;
    put_number(text, form, b"number", answer.number)?;
    put_named(text, form, b"entry", answer.position)?;
    Ok(())
}

/// Writes the message that was answered, the count of entries, and what the reply carries.
fn put_monitored(
    text: &mut Vec<u8>,
    form: Form,
    answer: &Answer,
    reply: MessageName,
) -> Result<(), NoMemory>
    requires formed { IsTrue (has_form reply (drop 3 answer.now.body)) }
    requires long { 3 ≤ length answer.now.body }
    ensures { OnOk result (text.new.items ≡ text.old.items ++ parts_text form (monitored_parts answer.now reply)) }
{
    put_word(text, form, b"reply", message_word(reply))?;
    put_named(text, form, b"entries", answer.position)?;
    put_monitor_values(text, form, reply, &answer.body.as_slice()[3..])
}

fn monitored(text: &mut Vec<u8>, form: Form, answer: &Answer) -> Result<(), TextError>
    ensures put { OnOk result (PutsValues codes.Monitored answer.now form text.old.items text.new.items) }
    ensures lacks { IfErr result (LacksValues codes.Monitored answer.now) }
{
    if answer.detail != 0 || answer.key != 0 || answer.number != 0 {
        return Err(TextError::NoAnswer);
    }
    let Some(reply) = monitor_reply(answer.body.as_slice()) else {
        return Err(TextError::NoAnswer);
    };
    put_monitored(text, form, answer, reply)?;
    Ok(())
}

fn layout(text: &mut Vec<u8>, form: Form, answer: &Answer) -> Result<(), TextError>
    ensures put { OnOk result (PutsValues codes.Layout answer.now form text.old.items text.new.items) }
    ensures lacks { IfErr result (LacksValues codes.Layout answer.now) }
{
    if !is_bare(answer) || answer.number != 0 {
        return Err(TextError::NoAnswer);
    }
    let Some(fault) = layout_detail(answer.detail) else {
        return Err(TextError::NoAnswer);
    };
    put_word(text, form, b"fault", fault)?;
    put_named(text, form, b"position", answer.position)?;
    Ok(())
}

fn state(text: &mut Vec<u8>, form: Form, answer: &Answer) -> Result<(), TextError>
    ensures put { OnOk result (PutsValues codes.State answer.now form text.old.items text.new.items) }
    ensures lacks { IfErr result (LacksValues codes.State answer.now) }
{
    if !is_bare(answer) || answer.number != 0 {
        return Err(TextError::NoAnswer);
    }
    let Some(state) = state_detail(answer.detail) else {
        return Err(TextError::NoAnswer);
    };
    put_word(text, form, b"state", state)?;
    put_named(text, form, b"position", answer.position)?;
    Ok(())
}

/// Writes the highest number that was accepted, and the width of the window.
fn put_window(text: &mut Vec<u8>, form: Form, body: &[u8]) -> Result<(), NoMemory>
    requires { length body.now ≡ 16 }
    ensures { OnOk result (text.new.items ≡ text.old.items ++ parts_text form (window_parts body.now)) }
{
    let high = number_at(body, 0);
    let width = number_at(body, 8);
    put_named(text, form, b"high", high)?;
    put_named(text, form, b"width", width)?;
    Ok(())
}

fn number(text: &mut Vec<u8>, form: Form, answer: &Answer) -> Result<(), TextError>
    ensures put { OnOk result (PutsValues codes.Number answer.now form text.old.items text.new.items) }
    ensures lacks { IfErr result (LacksValues codes.Number answer.now) }
{
    let body = answer.body.as_slice();
    if answer.detail != 0 || body.len() != 16 {
        return Err(TextError::NoAnswer);
    }
    put_numbered(text, form, answer, b"entry")?;
    put_window(text, form, body)?;
    Ok(())
}

fn exhausted(text: &mut Vec<u8>, form: Form, answer: &Answer) -> Result<(), TextError>
    ensures put { OnOk result (PutsValues codes.Exhausted answer.now form text.old.items text.new.items) }
    ensures lacks { IfErr result (LacksValues codes.Exhausted answer.now) }
{
    if answer.detail != 0 || !answer.body.as_slice().is_empty() {
        return Err(TextError::NoAnswer);
    }
    put_numbered(text, form, answer, b"epoch")?;
    Ok(())
}

/// Writes the number by its name, and the count of entries.
fn counting(text: &mut Vec<u8>, form: Form, answer: &Answer, name: &[u8]) -> Result<(), TextError>
    ensures put { OnOk result (IsCounting answer.now
        × (text.new.items ≡ text.old.items ++ parts_text form (counting_parts answer.now name.now))) }
    ensures lacks { IfErr result (LacksUnlessNoMemory (IsCounting answer.now)) }
{
    if answer.detail != 0 || !is_bare(answer) {
        return Err(TextError::NoAnswer);
    }
    put_named(text, form, name, answer.number)?;
    put_named(text, form, b"entries", answer.position)?;
    Ok(())
}

fn no_memory(answer: &Answer) -> Result<(), TextError>
    ensures put { OnOk result (IsPlain answer.now × (answer.now.position ≡ 0)) }
    ensures lacks { IfErr result (LacksValues codes.NoMemory answer.now) }
{
    if is_plain(answer) && answer.position == 0 {
        Ok(())
    } else {
        Err(TextError::NoAnswer)
    }
}

fn end(text: &mut Vec<u8>, form: Form, answer: &Answer) -> Result<(), TextError>
    ensures put { OnOk result (PutsValues codes.End answer.now form text.old.items text.new.items) }
    ensures lacks { IfErr result (LacksValues codes.End answer.now) }
{
    if !is_bare(answer) || answer.detail > SESSION_FULL {
        return Err(TextError::NoAnswer);
    }
    let name = end_number(answer.detail);
    if name.is_none() && answer.number != 0 {
        return Err(TextError::NoAnswer);
    }
    put_named(text, form, b"status", u64::from(answer.detail))?;
    put_named(text, form, b"entries", answer.position)?;
    match name {
        Some(name) => {
            put_named(text, form, name, answer.number)?;
            Ok(())
        }
        None => Ok(()),
    }
}

/// Writes the values of an answer of this code.
pub fn put_values(
    text: &mut Vec<u8>,
    form: Form,
    code: AnswerCode,
    answer: &Answer,
) -> Result<(), TextError>
    ensures put { OnOk result (PutsValues code answer.now form text.old.items text.new.items) }
    ensures lacks { IfErr result (LacksValues code answer.now) }
{
    match code {
        AnswerCode::Protected => carrying(text, form, answer, b"epoch", b"frame"),
        AnswerCode::Accepted => carrying(text, form, answer, b"entry", b"data"),
        AnswerCode::Done => done(text, form, answer),
        AnswerCode::Refused => refused(text, form, answer),
        AnswerCode::Monitored => monitored(text, form, answer),
        AnswerCode::MonitorFault => counting(text, form, answer, b"offset"),
        AnswerCode::Layout => layout(text, form, answer),
        AnswerCode::State => state(text, form, answer),
        AnswerCode::Number => number(text, form, answer),
        AnswerCode::Exhausted => exhausted(text, form, answer),
        AnswerCode::Clear | AnswerCode::Channel => plain(text, form, answer, b"position"),
        AnswerCode::Spi | AnswerCode::Direction | AnswerCode::Coverage | AnswerCode::Mac => plain(
            text, form, answer, b"entry",
        ),
        AnswerCode::SiteFault | AnswerCode::Stopped => counting(text, form, answer, b"faults"),
        AnswerCode::NoMemory => no_memory(answer),
        AnswerCode::End => end(text, form, answer),
    }
}
