//! The word `audit`, and the line that says what it found.
ghost use Rattle.std.specs.Prelude.{◌≡◌, ◌≢◌, [], IfOk, IsTrue, take};
ghost use Rattle.sdls_outside.specs.Faults.{Rose};
ghost use Rattle.sdls_outside.specs.Output.{OnlySinks};
ghost use Rattle.record_io.specs.Input.{MOST_OCTETS};
ghost use Rattle.record_io.specs.Outcome.{Ends};
ghost use Rattle.record_io.specs.declared.status.TheConstants.{SITE_FAULT, SOURCE_FAULT};
ghost use Rattle.pair_audit.specs.Recording.{AuditFound};
ghost use Rattle.pair_audit.specs.Taking.{HasStopCause};
ghost use Rattle.pair_audit.specs.declared.walk.AuditEnd.{AuditEnd};
ghost use Rattle.cli_audit.specs.Ends.{EndsAudit};
ghost use Rattle.cli_audit.specs.Text.{audit_status, audit_text, clean_text, kind_word, offset_text, repeat_text};

use command_words::end_with;
use pair_audit::{AuditEnd, AuditStop, Repeat, audit_recording};
use record_io::Outcome;
use record_io::status::{DONE, MALFORMED, NO_MEMORY, REFUSED, SOURCE_FAULT};
use sdls_base::NoMemory;
use sdls_outside::{Site, Source};
use std::alloc::Global;
use text_words::{put_decimal, put_octets};

/// Audits the input, and returns the line and the status that say what was found.
fn line_and_status<S: Source>(alloc: Global, source: &mut S) -> Result<(Vec<u8>, u8), AuditStop>
    ensures found { IfOk result (λ said. (end : AuditEnd) × AuditFound (λ input. IsTrue S.told
        → input ≡ take MOST_OCTETS (S.left source.old)) end
        × (said.0.items ≡ audit_text end) × (said.1 ≡ audit_status end)) }
    ensures cause { HasStopCause (S.faults source.old) (S.faults source.new) result }
{
    let end = audit_recording(alloc, source)?;
    let line = audit_line(alloc, end)?;
    Ok((line, status_of(end)))
}

/// Runs `audit`: reads the source to its end, at most 2^64 - 1 octets of it, as a recording of runs, and writes a line
/// that says what an audit of it says. It takes memory for that line and for the numbers that were used or accepted,
/// and none for the input.
///
/// The statuses are 0 if all is well, 1 for a repeat, 3 if the recording is malformed, 4 if the source failed, 5 if the
/// site did, and 6 out of memory. The image stands as it was, and so does what is pending of it.
pub fn run_audit<S: Source, O: Site>(alloc: Global, source: &mut S, site: O) -> Outcome<O>
    ensures ends { EndsAudit (λ input. IsTrue S.told → input ≡ take MOST_OCTETS (S.left source.old))
        (Rose (S.faults source.old) (S.faults source.new))
        O.told (O.trace site) (O.trace result.site) (Rose (O.faults site) (O.faults result.site)) result.status }
    ensures only_sinks { IsTrue O.told → OnlySinks (O.trace site) (O.trace result.site) }
    // A fault is never hidden: with another status the counts stood.
    ensures quiet { result.status ≢ SITE_FAULT → O.faults result.site ≡ O.faults site }
    ensures heard { result.status ≢ SOURCE_FAULT → result.status ≢ SITE_FAULT
        → S.faults source.new ≡ S.faults source.old }
    ensures no_history { result.entries.items ≡ [] }
{
    match line_and_status(alloc, source) {
        Ok((line, status)) => end_with(alloc, site, &line, status),
        Err(AuditStop::SourceFault) => end_with(alloc, site, b"source fault\n", SOURCE_FAULT),
        Err(AuditStop::NoMemory) => end_with(alloc, site, b"no memory\n", NO_MEMORY),
    }
}

/// All is well, with the counts of runs, of numbers used and of numbers accepted.
#[tactic(auto, unfolding(crate::specs::Text::clean_text))]
fn clean_line(alloc: Global, runs: u64, uses: u64, acceptances: u64) -> Result<Vec<u8>, NoMemory>
    ensures { IfOk result (λ line. line.items ≡ clean_text runs uses acceptances) }
{
    let mut line = Vec::new(alloc);
    put_octets(&mut line, b"audit ok runs ")?;
    put_decimal(&mut line, runs)?;
    put_octets(&mut line, b" pairs ")?;
    put_decimal(&mut line, uses)?;
    put_octets(&mut line, b" accepts ")?;
    put_decimal(&mut line, acceptances)?;
    put_octets(&mut line, b"\n")?;
    Ok(line)
}

/// The word for what both answers do with the number.
fn kind_word(pair: bool) -> &'static [u8]
    ensures { result.now ≡ kind_word pair }
{
    if pair { b"pair" } else { b"accept" }
}

/// The repeat, with its key, its number and its places.
#[tactic(auto, unfolding(crate::specs::Text::repeat_text))]
fn repeat_line(alloc: Global, repeat: Repeat) -> Result<Vec<u8>, NoMemory>
    ensures { IfOk result (λ line. line.items ≡ repeat_text repeat) }
{
    let mut line = Vec::new(alloc);
    put_octets(&mut line, b"audit repeat ")?;
    put_octets(&mut line, kind_word(repeat.pair))?;
    put_octets(&mut line, b" ")?;
    put_decimal(&mut line, u64::from(repeat.key))?;
    put_octets(&mut line, b" ")?;
    put_decimal(&mut line, repeat.number)?;
    put_octets(&mut line, b" at ")?;
    put_decimal(&mut line, repeat.first)?;
    put_octets(&mut line, b" ")?;
    put_decimal(&mut line, repeat.second)?;
    put_octets(&mut line, b"\n")?;
    Ok(line)
}

/// The offset at which the recording is malformed.
#[tactic(auto, unfolding(crate::specs::Text::offset_text))]
fn offset_line(alloc: Global, offset: u64) -> Result<Vec<u8>, NoMemory>
    ensures { IfOk result (λ line. line.items ≡ offset_text offset) }
{
    let mut line = Vec::new(alloc);
    put_octets(&mut line, b"input at ")?;
    put_decimal(&mut line, offset)?;
    put_octets(&mut line, b"\n")?;
    Ok(line)
}

/// The line that says what the audit found.
pub(crate) fn audit_line(alloc: Global, end: AuditEnd) -> Result<Vec<u8>, NoMemory>
    ensures { IfOk result (λ line. line.items ≡ audit_text end) }
{
    match end {
        AuditEnd::Clean {
            runs,
            uses,
            acceptances,
        } => clean_line(alloc, runs, uses, acceptances),
        AuditEnd::Repeated(repeat) => repeat_line(alloc, repeat),
        AuditEnd::BreaksAt(offset) => offset_line(alloc, offset),
    }
}

/// The status that goes with it.
pub(crate) fn status_of(end: AuditEnd) -> u8
    ensures { result ≡ audit_status end }
{
    match end {
        AuditEnd::Clean { .. } => DONE,
        AuditEnd::Repeated(_) => REFUSED,
        AuditEnd::BreaksAt(_) => MALFORMED,
    }
}
