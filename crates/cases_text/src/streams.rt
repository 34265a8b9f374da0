// Calls that read a source and write to a sink.
use case_lines::{Digits, Page, cut, word_at};
use plan_text::{PlanEnd, put_plan};
use sdls_outside::{MemSite, MemSource};
use sha2::{Digest, Sha256};
use std::str;
use text_streams::{End, Form, StateEnd, put_answers, put_lines, put_records, put_state_objects};

/// A source of these octets, and a sink. The line says how many octets the source gives at most in a call, then at
/// which calls source and sink fail. What is no number says 4,096 octets, and no call.
fn ends_of(octets: Vec<u8>, line: &str, page: &mut Page) -> (MemSource, MemSite) {
    let piece: usize = word_at(line, 0).parse().unwrap_or(4_096);
    let source_calls = page.list_of(word_at(line, 1).parse().ok());
    let sink_calls = page.list_of(word_at(line, 2).parse().ok());
    let (alloc, image) = (page.alloc(), Vec::new(page.alloc()));
    (
        MemSource::new(octets, piece.max(1), source_calls),
        MemSite::new(alloc, image, sink_calls, None),
    )
}

/// What was put, as a text.
fn text_of(sink: &MemSite) -> &str {
    str::from_utf8(sink.sunk()).unwrap_or("no text")
}

/// Writes what was put, with `|` where a line ends.
fn write_lines(sink: &MemSite, page: &mut Page) {
    for (i, line) in text_of(sink).split('\n').enumerate() {
        page.push_str(if i > 0 { "|" } else { "" });
        page.push_str(line);
    }
}

/// Makes a call on a stream.
fn put(call: &str, source: &mut MemSource, sink: &mut MemSite, page: &Page) -> End {
    match call {
        "records" => put_records(page.alloc(), source, sink),
        "show" => put_lines(page.alloc(), source, sink),
        "json" => put_answers(page.alloc(), Form::Json, source, sink),
        _ => put_answers(page.alloc(), Form::Words, source, sink),
    }
}

/// Writes the lines of items of recorded input; behind `/` the offset in the input of the first octets that are none.
pub fn answer_items(case: &str, page: &mut Page) {
    let (items, mut octets) = (page.octets_at(case, 0), page.copy(b"SDLSREC1"));
    page.check(octets.extend_from_slice(&items));
    let (mut source, mut sink) = ends_of(octets, "", page);
    let end = put("show", &mut source, &mut sink, page);
    let text = text_of(&sink);
    page.push_str(text.strip_suffix("\n").unwrap_or(text));
    if let End::NoItem(offset) = end {
        page.begin_line();
        write!(page, "/ {offset}");
    }
}

fn write_end(end: &End, page: &mut Page) {
    match end {
        End::Done => page.push_str("done"),
        End::LineFault(line, fault) => write!(page, "line {line} {fault}"),
        End::LongLine(line) => write!(page, "long line {line}"),
        End::CutAnswer(offset) => write!(page, "cut answer at {offset}"),
        End::NoAnswer(offset) => write!(page, "no answer at {offset}"),
        End::NoItem(offset) => write!(page, "no item at {offset}"),
        End::SourceFault => page.push_str("source fault"),
        End::OutputFault => page.push_str("output fault"),
        End::NoMemory => page.push_str("no memory"),
    }
}

/// Writes the lines of answers, as `answers` or as `json`, from pieces of 7 octets, and why no line follows.
pub fn answer_answers(form: &str, case: &str, page: &mut Page) {
    let octets = page.octets(&mut case.split_whitespace());
    let (mut source, mut sink) = ends_of(octets, "7", page);
    let end = put(form, &mut source, &mut sink, page);
    write_lines(&sink, page);
    match end {
        End::Done if page.is_empty() => page.push_str("no lines"),
        End::Done => {}
        End::CutAnswer(offset) => write!(page, " cut at {offset}"),
        _ => {
            page.push_str(" ");
            write_end(&end, page);
        }
    }
}

/// Writes how a call ends, how many octets were put, and their SHA-256: `CALL PIECE CALL CALL OCTETS`.
pub fn answer_stream(case: &str, page: &mut Page) {
    let (call, line) = cut(case);
    let octets = page.octets(&mut line.splitn(4, ' ').nth(3).unwrap_or("").split_whitespace());
    let (mut source, mut sink) = ends_of(octets, line, page);
    write_end(&put(call, &mut source, &mut sink, page), page);
    let (count, digest) = (sink.sunk().len(), Sha256::digest(sink.sunk()));
    write!(page, ", {count} octets {}", Digits(digest.as_slice()));
}

fn write_state_end(end: StateEnd, page: &mut Page) {
    match end {
        StateEnd::Done => page.push_str("done"),
        StateEnd::NoLine(line) => write!(page, "no line {line}"),
        StateEnd::LongLine(line) => write!(page, "long line {line}"),
        StateEnd::SourceFault => page.push_str("source fault"),
        StateEnd::OutputFault => page.push_str("output fault"),
        StateEnd::NoMemory => page.push_str("no memory"),
    }
}

/// Writes the objects of what `stat` prints, with `|` where one ends, how the call ends, and the exit status: `PIECE
/// CALL CALL TEXT`, with `|` for a line feed in the text.
pub fn answer_state(case: &str, page: &mut Page) {
    let mut octets = page.copy(case.splitn(4, ' ').nth(3).unwrap_or("").as_bytes());
    for octet in octets.iter_mut() {
        *octet = if *octet == b'|' { b'\n' } else { *octet };
    }
    let (mut source, mut sink) = ends_of(octets, case, page);
    let end = put_state_objects(page.alloc(), &mut source, &mut sink);
    write_lines(&sink, page);
    page.push_str(" ");
    write_state_end(end, page);
    write!(page, ", status {}", end.status());
}

fn write_plan_end(end: PlanEnd, page: &mut Page) {
    match end {
        PlanEnd::Plan(None) => page.push_str("a plan"),
        PlanEnd::Plan(Some(line)) => write!(page, "a plan with a note on line {line}"),
        PlanEnd::NoPlan => page.push_str("no plan"),
        PlanEnd::SourceFault => page.push_str("source fault"),
        PlanEnd::OutputFault => page.push_str("output fault"),
        PlanEnd::NoMemory => page.push_str("no memory"),
    }
}

/// Writes what is put for the text of a plan, how its check ends, and the exit status: `PIECE CALL CALL`.
pub fn check_plan(text: &[u8], line: &str, page: &mut Page) {
    let (mut source, mut sink) = ends_of(page.copy(text), line, page);
    let end = put_plan(page.alloc(), &mut source, &mut sink);
    page.push_str(text_of(&sink));
    write_plan_end(end, page);
    write!(page, ", status {}", end.status());
}
