//! Tables of recorded inputs, of a run's log, of recordings that are audited, and of what a link delivers. A line of
//! standard input is a step, and what it answers is printed; `#` and a title is printed as it is. The first word says
//! what the step is of.
//!
//! `input` is of the reader of `record_io`: how many octets a take gives at most, the call of the source that fails or
//! `-`, and the octets. Behind `input cuts` the input is cut at each length, and those lengths are printed whose answer
//! is another than that of the length before. `input header` prints the header of an answer with a value in each place.
//!
//! `log` is of `Log` of `fsr_log`. `new` begins a log. `note INDEX KIND CODE DETAIL KEY NUMBER` notes an answer, `KIND`
//! being `protect`, `open`, `command` or `monitor`; codes are in hexadecimal digits. `refuse FIRST COUNT CODE` notes
//! answers to so many Open records from that index on, each with its index as its number. `ask OCTETS` prints the
//! answer to a monitoring message, `05` and the reply, or `06` and the offset, and notes a reply. `dump OCTETS` prints
//! how many octets the reply has, and those behind the first three in lines of 18. `cuts OCTETS` and `turned OCTETS`
//! print the answer to each front of the octets, and to the octets with each of them turned in all its bits, and note
//! none.
//!
//! `recording` is of `audit_recording` of `pair_audit`. `new` begins a recording, `run OCTETS` adds a run with its
//! length, and `octets OCTETS` adds these octets alone. `many N` adds a run of N frames protected under key 1, with the
//! numbers from 1 on. `audit` prints what the audit says. `fronts OCTETS` prints what it says with each front of these
//! octets as a run more, for the lengths whose answer is another than that of the length before, and `cuts` the same of
//! each front of the whole. `pieces` prints what it says, or which source of pieces of 1 to 64 octets makes it say
//! something else; `fails` what it says if the source fails at its first call, its second and so on, where that
//! changes.
//!
//! `link COUNT EVENTS` prints the numbers that arrive over a link of `link_world`, of so many frames; an event is
//! `release:NUMBER` or `deliver:NUMBER`. `fates COUNT` prints how many of the first frames of a chunk are lost, come
//! once, twice and late.
//!
//! Octets are words of hexadecimal digits, and those of a monitoring message one word; `x1024` before a word says how
//! often it stands there.
#![tactic(auto)]

mod linking;
mod logs;
mod reading;

use case_lines::{Answers, Page, cut, print_answers};
use fsr_log::Log;

/// A log, and a recording.
#[derive(Drop)]
struct Table {
    log: Log,
    recording: Vec<u8>,
}

impl Answers for Table {
    fn answer(&mut self, line: &str, page: &mut Page) {
        let (subject, step) = cut(line);
        match subject {
            "input" => reading::answer_input(step, page),
            "recording" => reading::answer_recording(&mut self.recording, step, page),
            "log" => logs::answer(&mut self.log, step, page),
            "link" => linking::answer_link(step, page),
            "fates" => linking::answer_fates(step, page),
            _ => page.push_str("no step"),
        }
    }
}

fn main(rt: HostRuntime) -> anyhow::Result<()> {
    let mut table = Table {
        log: Log::new(rt.alloc())?,
        recording: Vec::new(rt.alloc()),
    };
    print_answers(&rt, &mut table)
}
