//! Tables of texts, for the calls of `input_text`, `answer_text`, `text_streams` and `plan_text`.
//! A line of standard input is a case or a step, and what it answers is printed; `#` and a title is printed as it is.
//!
//! `line TEXT` reads a line of recorded input, in which `\r` at the end stands for a carriage return. `items OCTETS`
//! prints the lines of items of recorded input, `answers OCTETS` those of answers, and `json OCTETS` those as JSON
//! objects. `stream CALL PIECE CALL CALL OCTETS` is one of the three calls on whole streams, from a source to a sink.
//! `state PIECE CALL CALL TEXT` is the same of what `stat` prints, in which `|` stands for a line feed.
//! Octets are hexadecimal words, and in a stream `x1024` before a word says how often it stands there.
//!
//! `plan` and a step is of the text of a plan. `new` begins an empty text, and `: LINE` adds a line and its line feed
//! to it. `check` prints what is written for the text, and how the check ends; `line LINE` the same of the text with
//! this line behind it, and `pieces N` of a source that gives at most N octets a call. `x N TEXT` adds a text N times,
//! without a line feed. `fails CALL CALL` checks the text with a source and a sink that fail at a call, counted from 0,
//! or at none for `-`. In a line `\` and two hexadecimal digits stand for an octet.
#![tactic(auto)]

ghost use Rattle.input_text.specs.Line.{IsLine};

mod plans;
mod streams;

use case_lines::{Answers, Page, cut, print_answers};
use input_text::{Line, LineError, put_item, read_line};

/// Writes the octets of the item that a line says.
fn write_item(line: &Line, page: &mut Page)
    requires { IsLine line.now }
{
    let mut octets = Vec::new(page.alloc());
    page.check(put_item(page.alloc(), &mut octets, line));
    page.push_digits(&octets);
}

/// Reads a line, and writes the octets of its item, or why there is none.
fn read(text: &[u8], page: &mut Page) {
    match read_line(page.alloc(), text) {
        Ok(Some(line)) => write_item(&line, page),
        Ok(None) => page.push_str("skipped"),
        Err(LineError::Fault(fault)) => write!(page, "{fault}"),
        Err(LineError::NoMemory) => page.spoil(),
    }
}

/// The same of a line in which `\r` at the end stands for a carriage return.
fn read_case(case: &str, page: &mut Page) {
    let mut text = page.copy(case.strip_suffix("\\r").unwrap_or(case).as_bytes());
    if text.len() < case.len() {
        page.check(text.push(b'\r'));
    }
    read(&text, page);
}

/// The text of a plan.
#[derive(Drop)]
struct Table {
    plan: Vec<u8>,
}

impl Answers for Table {
    fn answer(&mut self, line: &str, page: &mut Page) {
        let (word, case) = cut(line);
        match word {
            "line" => read_case(case, page),
            "items" => streams::answer_items(case, page),
            "answers" | "json" => streams::answer_answers(word, case, page),
            "stream" => streams::answer_stream(case, page),
            "state" => streams::answer_state(case, page),
            "plan" => plans::answer(&mut self.plan, case, page),
            _ => page.push_str("no case"),
        }
    }
}

fn main(rt: HostRuntime) -> anyhow::Result<()> {
    let mut table = Table {
        plan: Vec::new(rt.alloc()),
    };
    print_answers(&rt, &mut table)
}
