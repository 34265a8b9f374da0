ghost use Rattle.std.specs.Prelude.{◌≡◌, ◌≤◌, IfSome, ◌≢◌, [], IsTrue, decimal};
ghost use Rattle.sdls_outside.specs.Faults.{Rose, HasCause};
ghost use Rattle.sdls_outside.specs.Output.{OnlySinks, Delivers};
ghost use Rattle.record_io.specs.Outcome.{Ends};
ghost use Rattle.record_io.specs.declared.status.TheConstants.{SITE_FAULT, USAGE};
ghost use Rattle.command_words.specs.Words.{HasFewFrames, check_of, command_of, drill_of, frames_of, key_of, of_one};
ghost use Rattle.command_words.specs.Words.{of_three, of_two};
ghost use Rattle.command_words.specs.Lines.{usage_text};

use aes_block::Schedule;
use itoa::Buffer;
use record_io::Outcome;
use record_io::status::{SITE_FAULT, USAGE};
use sdls_outside::{Failed, Site};
use std::alloc::Global;
use unit_plan::number_of;

/// The most octets of a key.
const LONGEST_KEY: usize = 32;

/// The key that these hexadecimal digits spell, in either case.
#[tactic(auto, unfolding(crate::specs::Words::key_of))]
fn key_of(digits: &str) -> Option<Schedule>
    ensures { result ≡ key_of digits.now }
{
    let count = digits.len() / 2;
    if count > LONGEST_KEY {
        return None;
    }
    let mut octets = [0; LONGEST_KEY];
    let key = &mut octets[..count];
    match hex::decode_to_slice(digits, key) {
        Ok(()) => Schedule::new(key).ok(),
        Err(_) => None,
    }
}

/// What `check` asks for with these digits.
fn check_of(digits: &str) -> Command
    ensures asked { result ≡ check_of digits.now }
    ensures few { HasFewFrames result }
{
    match key_of(digits) {
        Some(key) => Command::Check(key),
        None => Command::Usage,
    }
}

/// The number of frames that these decimal digits spell.
fn frames_of(digits: &str) -> Option<u64>
    ensures spelled { result ≡ frames_of digits.now }
    ensures few { IfSome result (λ number. number ≤ MOST_FRAMES) }
{
    match number_of(digits.as_bytes()) {
        Some(number) if 1 <= number && number <= MOST_FRAMES => Some(number),
        _ => None,
    }
}

/// What one word asks for.
fn of_one(word: &str) -> Command
    ensures asked { result ≡ of_one word.now }
    ensures few { HasFewFrames result }
{
    if word == "init" {
        return Command::Init;
    }
    if word == "stat" {
        return Command::Stat;
    }
    if word == "run" {
        return Command::Run;
    }
    if word == "audit" {
        return Command::Audit;
    }
    Command::Usage
}

/// What `drill` asks for with these digits.
fn drill_of(digits: &str) -> Command
    ensures asked { result ≡ drill_of digits.now }
    ensures few { HasFewFrames result }
{
    match frames_of(digits) {
        Some(number) => Command::Drill(number),
        None => Command::Usage,
    }
}

/// What two words ask for.
fn of_two(word: &str, digits: &str) -> Command
    ensures asked { result ≡ of_two word.now digits.now }
    ensures few { HasFewFrames result }
{
    if word == "check" {
        return check_of(digits);
    }
    if word == "drill" {
        return drill_of(digits);
    }
    Command::Usage
}

/// What three words ask for.
fn of_three(word: &str, second: &str, digits: &str) -> Command
    ensures asked { result ≡ of_three word.now second.now digits.now }
    ensures few { HasFewFrames result }
{
    if word != "drill" || second != "link" {
        return Command::Usage;
    }
    match frames_of(digits) {
        Some(number) => Command::LinkDrill(number),
        None => Command::Usage,
    }
}

/// What the words after the program's name ask for.
pub fn command_of(words: &[String]) -> Command
    ensures asked { result ≡ command_of words.now }
    ensures few { HasFewFrames result }
{
    match words {
        [] => Command::Usage,
        [word] => of_one(word.as_str()),
        [word, digits] => of_two(word.as_str(), digits.as_str()),
        [word, second, digits] => of_three(word.as_str(), second.as_str(), digits.as_str()),
        _ => Command::Usage,
    }
}

/// The most frames of a drill.
pub const MOST_FRAMES: u64 = 100_000;

/// What the words after the program's name ask for.
#[derive(Drop)]
pub enum Command {
    /// `check KEY`: one frame is judged under this key.
    Check(Schedule),
    /// `init`: the image of a unit is made from a plan.
    Init,
    /// `stat`: the state in an image is printed.
    Stat,
    /// `run`: a recorded input is served.
    Run,
    /// `audit`: a recording of runs is searched for repeats.
    Audit,
    /// `drill N`: this number of frames goes from one unit to another.
    Drill(u64),
    /// `drill link N`: the same over a link that loses, repeats and delays.
    LinkDrill(u64),
    /// Any other words: the usage line is printed.
    Usage,
}

const USAGE_TEXT: &[u8] = b"usage: sdls check KEY, init, run, stat, drill N, drill link N, audit\n";

/// Writes a line, and ends the call with this status; or with that of a failed site, if the line could not be written
/// whole. The call made no entry.
pub fn end_with<O: Site>(alloc: Global, mut site: O, line: &[u8], status: u8) -> Outcome<O>
    ensures ends { Ends O.told (O.trace site) (O.trace result.site) (Rose (O.faults site) (O.faults result.site))
        line.now status result.status }
    ensures only_sinks { IsTrue O.told → OnlySinks (O.trace site) (O.trace result.site) }
    ensures quiet { result.status ≢ SITE_FAULT → O.faults result.site ≡ O.faults site }
    ensures no_history { result.entries.items ≡ [] }
{
    let status = match put_text(&mut site, line) {
        Ok(()) => status,
        Err(Failed) => SITE_FAULT,
    };
    Outcome {
        status,
        site,
        entries: Vec::new(alloc),
    }
}

/// Ends a call whose words are none of a command: with the usage line.
pub fn end_with_usage<O: Site>(alloc: Global, site: O) -> Outcome<O>
    ensures ends { Ends O.told (O.trace site) (O.trace result.site) (Rose (O.faults site) (O.faults result.site))
        usage_text USAGE result.status }
    ensures only_sinks { IsTrue O.told → OnlySinks (O.trace site) (O.trace result.site) }
    ensures quiet { result.status ≢ SITE_FAULT → O.faults result.site ≡ O.faults site }
    ensures no_history { result.entries.items ≡ [] }
{
    end_with(alloc, site, USAGE_TEXT, USAGE)
}

/// Writes a text in one piece.
pub fn put_text<O: Site>(site: &mut O, text: &[u8]) -> Result<(), Failed>
    ensures delivered { IsTrue O.told → Delivers text.now result (O.trace site.old) (O.trace site.new) }
    ensures cause { HasCause (O.faults site.old) (O.faults site.new) result }
{
    site.put(text)
}

/// Writes a number in decimal digits.
pub fn put_number<O: Site>(site: &mut O, number: u64) -> Result<(), Failed>
    ensures delivered { IsTrue O.told → Delivers (decimal number) result (O.trace site.old) (O.trace site.new) }
    ensures cause { HasCause (O.faults site.old) (O.faults site.new) result }
{
    put_text(site, Buffer::new().format(number).as_bytes())
}
