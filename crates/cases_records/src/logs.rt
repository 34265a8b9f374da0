//! The log of a run, and monitoring messages that it answers.
use case_lines::{Digits, Page, cut, number_at, word_at};
use fsr_log::Log;
use record_io::{Answer, RecordKind, ShortOctets, code};

/// The octets of a reply before its data.
const HEADER: usize = 3;

/// The octets of an event in a dump.
const EVENT: usize = 18;

/// The word at a place of a line, hexadecimal digits, as an octet.
fn code_at(line: &str, place: usize) -> u8 {
    u8::from_str_radix(word_at(line, place), 16).unwrap_or(0)
}

/// Notes an answer: `INDEX KIND CODE DETAIL KEY NUMBER`.
fn note(log: &mut Log, line: &str, page: &Page) {
    let kind = match word_at(line, 1) {
        "protect" => RecordKind::Protect,
        "open" => RecordKind::Open,
        "command" => RecordKind::Command,
        _ => RecordKind::Monitor,
    };
    let answer = Answer {
        code: code_at(line, 2),
        detail: code_at(line, 3),
        key: word_at(line, 4).parse().unwrap_or(0),
        position: 0,
        number: number_at(line, 5),
        body: ShortOctets::none(page.alloc()),
    };
    log.note(number_at(line, 0), kind, &answer);
}

/// Notes refusals of Open records: `FIRST COUNT CODE`.
fn refuse(log: &mut Log, line: &str, page: &Page) {
    let first = number_at(line, 0);
    for index in first..first.saturating_add(number_at(line, 1)) {
        let answer = Answer::counting(page.alloc(), code_at(line, 2), 0, index, 0);
        log.note(index, RecordKind::Open, &answer);
    }
}

/// Writes the answer to a message: `05` and the reply, or `06` and the offset.
fn write_answer(log: &Log, message: &[u8], page: &mut Page) {
    match log.answer(page.alloc(), message) {
        Ok(Ok(reply)) => write!(page, "05 {}", Digits(reply.as_slice())),
        Ok(Err(offset)) => write!(page, "06 {offset}"),
        Err(_) => page.spoil(),
    }
}

/// Writes the answer to a message, and notes the reply as the answer that carries it.
fn ask(log: &mut Log, message: &[u8], page: &mut Page) {
    write_answer(log, message, page);
    if let Ok(Ok(reply)) = log.answer(page.alloc(), message) {
        let answer = Answer::numbered(code::MONITORED, 0, 0, 0, reply);
        log.note(0, RecordKind::Monitor, &answer);
    }
}

/// Writes how many octets the reply to a message has, and those behind its header, in lines.
fn dump(log: &Log, message: &[u8], page: &mut Page) {
    let Ok(Ok(reply)) = log.answer(page.alloc(), message) else {
        return page.push_str("no reply");
    };
    write!(page, "{}", reply.as_slice().len());
    for event in reply.as_slice().get(HEADER..).unwrap_or(&[]).chunks(EVENT) {
        write!(page, "\n{}", Digits(event));
    }
}

/// Writes the answers to all fronts of the octets, the shortest first.
fn answer_fronts(log: &Log, octets: &[u8], page: &mut Page) {
    for len in 0..octets.len() {
        page.push_str(if len > 0 { ", " } else { "" });
        write_answer(log, &octets[..len], page);
    }
}

/// Turns an octet in all its bits.
fn turn(octets: &mut [u8], at: usize) {
    if let Some(octet) = octets.get_mut(at) {
        *octet ^= 0xff;
    }
}

/// Writes the answers to the octets with one of them turned, from the first to the last.
fn answer_turned(log: &Log, octets: &mut [u8], page: &mut Page) {
    for at in 0..octets.len() {
        page.push_str(if at > 0 { ", " } else { "" });
        turn(octets, at);
        write_answer(log, octets, page);
        turn(octets, at);
    }
}

/// Writes what a step on octets answers.
fn answer_octets(log: &mut Log, word: &str, octets: &mut [u8], page: &mut Page) {
    match word {
        "ask" => ask(log, octets, page),
        "dump" => dump(log, octets, page),
        "cuts" => answer_fronts(log, octets, page),
        "turned" => answer_turned(log, octets, page),
        _ => page.push_str("no step"),
    }
}

/// Writes what a step on a log answers, and nothing if it notes alone.
pub fn answer(log: &mut Log, line: &str, page: &mut Page) {
    let (word, rest) = cut(line);
    match word {
        "new" => match Log::new(page.alloc()) {
            Ok(new) => *log = new,
            Err(_) => page.spoil(),
        },
        "note" => note(log, rest, page),
        "refuse" => refuse(log, rest, page),
        _ => match hex::decode(page.alloc(), rest) {
            Ok(mut octets) => answer_octets(log, word, octets.as_mut_slice(), page),
            Err(_) => page.push_str("no step"),
        },
    }
}
