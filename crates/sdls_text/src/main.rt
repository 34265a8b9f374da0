//! The program `sdls_text`: recorded input and answers as text. `sdls_text records` reads lines from standard input and
//! writes the recorded input that they say; `sdls_text show` prints the lines of recorded input; `sdls_text answers`
//! reads answers and prints their lines, and behind `--json` each as a JSON object. `text_streams` decides what is
//! written. `sdls_text state` reads what `sdls stat` prints, and prints a JSON object for each line. `text_streams`
//! decides that too. `sdls_text plan` reads a plan and prints its lines at fault, or the state that it makes, as
//! `plan_text` says. `sdls_text recording FILE..` reads the files that it names, and writes them as a recording, as
//! `text_streams` says too.
#![tactic(auto)]

mod recording;

use plan_text::{PlanEnd, put_plan};
use recording::put_recording;
use sdls_outside::{FileSite, StdSource};
use std::alloc::AllocError;
use std::process::ExitCode;
use std::rt::Env;
use std::{env, io};
use text_streams::{End, Form, StateEnd, put_answers, put_lines, put_records, put_state_objects};

/// The page of help. The launcher prints it from here, without a build.
const HELP: &str = "\
usage: sdls_text records < TEXT > INPUT
       sdls_text show < INPUT > TEXT
       sdls_text answers [--json] < ANSWERS > TEXT
       sdls_text state < STATE > TEXT
       sdls_text plan < PLAN
       sdls_text recording FILE.. > RECORDING
Recorded input and answers of `sdls run`, as text.

  records      reads lines of text, and writes the recorded input that they say
  show         reads recorded input, and prints its lines
  answers      reads answers, and prints a line for each; with --json each line is a JSON object
  state        reads what `sdls stat` prints, and prints a JSON object for each line
  plan         reads a plan, and prints each line at fault, or the state that the plan makes
  recording    reads files, each the answers that a run wrote, and writes them as the input of `sdls audit`
  --help       prints this page
  --version    prints the version

Lines of text: fence; protect LANE LINK OCTETS; open LANE LINK OCTETS; command LANE octets OCTETS;
command LANE PROCEDURE VALUE.. The procedures are rekeying, activate, deactivate, verify, destroy, inventory, compose,
read-number, create, delete, set-window, rekey, expire, set-number, start, stop and status; FORMATS.md has their values.
Monitoring messages: ping; log-status; dump-log; erase-log; alarm-reset; self-test BLOCK; monitor OCTETS; before each
of them perhaps at LANE LINK.
Spaces or commas part words, letters count in either case, and a word that begins with # begins a comment.

Status: 0 done; 1 a line, an item or an answer is at fault, or a file has 4 gibibytes or more; 2 other words;
3 standard input is no plan; 4 standard input or a file could not be read; 5 standard output could not be written;
6 out of memory.
Of the launcher: 70 the program could not be built.

Examples:
  echo 'protect 0 0 002a140509c3' | sdls_text records > input.bin
  sdls_text show < input.bin
  sdls run < input.bin | sdls_text answers
  sdls run < input.bin | sdls_text answers --json
  sdls stat | sdls_text state
  sdls_text plan < plan.txt && sdls init < plan.txt
  sdls_text recording monday.bin tuesday.bin | sdls audit";

/// What the program is; from what it was built its launcher says.
const VERSION: &str = "sdls_text for recorded input SDLSREC1";

/// What is noted of an association under CMAC on a TM link whose mask leaves out the secondary header flag.
const MOVED: &str = "\
under CMAC a bit that the mask of a TM link leaves out moves the header: give the link the mask fffe00008000, \
or never use a key under a second SPI";

/// The words after the program's name. Words that are not text are no command, so they are read as no words.
fn words<R: Env + AllocGlobal>(rt: &R) -> Result<Vec<String>, AllocError> {
    match env::args(rt) {
        Ok(args) => args.skip(1).collect(rt.alloc()),
        Err(error) if error.kind() == io::ErrorKind::InvalidData => Ok(Vec::new(rt.alloc())),
        Err(_) => Err(AllocError),
    }
}

/// Says on standard error why the run ends, and answers its status.
fn print_end(rt: &HostRuntime, end: End) -> u8 {
    let _ = match end {
        End::Done => Ok(()),
        End::LineFault(line, fault) => eprintln!(rt; "sdls_text: line {line}, {fault}"),
        End::LongLine(line) => eprintln!(rt; "sdls_text: line {line}: more than 8192 octets"),
        End::CutAnswer(offset) => eprintln!(rt; "sdls_text: the answer at octet {offset} is cut"),
        End::NoAnswer(offset) => eprintln!(rt; "sdls_text: no answer at octet {offset}"),
        End::NoItem(offset) => eprintln!(rt; "sdls_text: no item at octet {offset}"),
        End::SourceFault => eprintln!(rt; "sdls_text: standard input could not be read"),
        End::OutputFault => eprintln!(rt; "sdls_text: standard output could not be written"),
        End::NoMemory => eprintln!(rt; "sdls_text: out of memory"),
    };
    end.status()
}

/// The same of the run of `state`, with the line that `stat` does not print.
fn print_state_end(rt: &HostRuntime, end: StateEnd) -> u8 {
    let common = match end {
        StateEnd::Done => End::Done,
        StateEnd::NoLine(line) => {
            let _ = eprintln!(rt;
                "sdls_text: line {line}: not what `sdls stat` prints, or cut off"
            );
            return end.status();
        }
        StateEnd::LongLine(line) => End::LongLine(line),
        StateEnd::SourceFault => End::SourceFault,
        StateEnd::OutputFault => End::OutputFault,
        StateEnd::NoMemory => End::NoMemory,
    };
    print_end(rt, common)
}

/// The same of the run of `plan`. It notes the line of an association whose frames can be changed into others.
fn print_plan_end(rt: &HostRuntime, end: PlanEnd) -> u8 {
    let common = match end {
        PlanEnd::Plan(None) => End::Done,
        PlanEnd::Plan(Some(line)) => {
            let _ = eprintln!(rt; "sdls_text: note: line {line}: {MOVED}");
            End::Done
        }
        PlanEnd::NoPlan => return end.status(),
        PlanEnd::SourceFault => End::SourceFault,
        PlanEnd::OutputFault => End::OutputFault,
        PlanEnd::NoMemory => End::NoMemory,
    };
    print_end(rt, common)
}

/// Prints a page on standard output, and answers the status.
fn print_page(rt: &HostRuntime, page: &str) -> u8 {
    match println!(rt; "{page}") {
        Ok(()) => 0,
        Err(_) => 5,
    }
}

/// Whether the words behind `answers` ask for JSON.
fn is_json(further: &[String]) -> bool {
    further.len() == 1 && further[0].as_str() == "--json"
}

/// Runs what the first word asks for, and answers the status. Behind it stands nothing, but for `answers` perhaps an
/// option, and for `recording` the names of files.
fn run(rt: HostRuntime, word: &str, further: &[String]) -> u8 {
    let alone = further.is_empty();
    let alloc = rt.alloc();
    let mut source = StdSource::new(rt.stdin());
    // of this site nothing but its sink is used, which is standard output
    let mut site = FileSite::new(rt);
    let end = match word {
        "records" if alone => put_records(alloc, &mut source, &mut site),
        "show" if alone => put_lines(alloc, &mut source, &mut site),
        "answers" if alone => put_answers(alloc, Form::Words, &mut source, &mut site),
        "answers" if is_json(further) => put_answers(alloc, Form::Json, &mut source, &mut site),
        "state" if alone => {
            return print_state_end(&rt, put_state_objects(alloc, &mut source, &mut site));
        }
        "plan" if alone => return print_plan_end(&rt, put_plan(alloc, &mut source, &mut site)),
        "recording" if !alone => return put_recording(rt, &mut site, further),
        "--help" if alone => return print_page(&rt, HELP),
        "--version" if alone => return print_page(&rt, VERSION),
        _ => {
            let _ = eprintln!(rt; "{HELP}");
            return 2;
        }
    };
    print_end(&rt, end)
}

fn main(rt: HostRuntime) -> ExitCode {
    let Ok(words) = words(&rt) else {
        return ExitCode::from(6);
    };
    let word = words.first().map_or("", |word| word.as_str());
    ExitCode::from(run(rt, word, words.get(1..).unwrap_or(&[])))
}
