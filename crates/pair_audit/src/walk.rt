//! The audit of a whole recording: the octets that it takes, the places of numbers, and why it ends before its input.
ghost use Rattle.std.specs.Prelude.{◌≡◌, ◌⊎◌, ℕ, ◌+◌, ◌<◌, ◌≤◌, ◌++◌, IfOk, IsTrue, List, [], false, length, ◌^◌};
ghost use Rattle.std.specs.Prelude.{take, Some, OnErr, ◌==◌, ◌&&◌, if◌then◌else◌, unwrap_or};
ghost use Rattle.std.specs.Int.{w32, to_be_bytes};
ghost use Rattle.std.specs.BTreeMap.{IsUnchanged};
ghost use Rattle.sdls_outside.specs.Faults.{HasCause};
ghost use Rattle.record_io.specs.declared.answers.Answer.{Answer};
ghost use Rattle.record_io.specs.declared.answers.TheConstants.{ANSWER_HEADER};
ghost use Rattle.record_io.specs.Input.{MOST_OCTETS};
ghost use Rattle.pair_audit.specs.Audit.{KnowsAudit};
ghost use Rattle.pair_audit.specs.Recording.{AuditFound, AuditSays, ReadsRuns, recording_beginning};
ghost use Rattle.pair_audit.specs.Taking.{HasStopCause, Taking};
ghost use Rattle.pair_audit.specs.Walk.{IsOutcome, NextSaid, RunSaid, StepSaid, earlier_of};
ghost use Rattle.pair_audit.specs.declared.walk.RunFound.TheVariants as ends;
ghost use Rattle.pair_audit.specs.Places.{place_in};
ghost use Rattle.pair_audit.specs.declared.walk.AuditStop.TheVariants as stops;

use crate::audit::{Audit, Repeat};
use record_io::{ANSWER_HEADER, known_head};
use sdls_base::{NoMemory, double_word_at};
use sdls_outside::{Failed, Source, collect};
use std::alloc::Global;
use std::collections::BTreeMap;
use thiserror::Error;

/// The octets that a recording begins with.
const BEGINNING: [u8; 8] = *b"SDLSAUD1";

/// The octets of a run's length.
const LENGTH: usize = 4;

/// The most octets of bodies that are passed over in one piece.
const PIECE: usize = 2048;

/// What the audit of a recording says.
#[derive(Clone, Copy, Debug, PartialEq, Eq)]
pub enum AuditEnd {
    /// All is well: how many runs there are, how many answers use a number of a key, and how many accept one.
    Clean {
        runs: u64,
        uses: u64,
        acceptances: u64,
    },
    /// The first repeat.
    Repeated(Repeat),
    /// The recording is malformed at this offset.
    BreaksAt(u64),
}

// What stands next in a run.
pub(crate) enum Step {
    // An answer of so many octets, with the first repeat up to it.
    Answer { count: u64, first: Option<Repeat> },
    // A header whose code is that of no answer.
    Unknown,
    // The input ends in it.
    Cut,
}

// What is so of a run.
#[derive(Clone, Copy)]
pub(crate) enum RunFound {
    // Its answers were taken, with the first repeat up to them.
    Whole(Option<Repeat>),
    // At this octet of it a header stands whose code is that of no answer.
    Unknown(u64),
    // The input ends in it.
    Cut,
}

// What stands next in a recording.
pub(crate) enum NextRun {
    // A run of so many octets with its length, and the first repeat up to it.
    Taken { count: u64, first: Option<Repeat> },
    // It is malformed at this octet from here.
    Broken(u64),
    // The input ends.
    End,
}

fn earlier(first: Option<Repeat>, told: Option<Repeat>) -> Option<Repeat>
    ensures { result ≡ earlier_of first told }
{
    match first {
        None => told,
        Some(repeat) => Some(repeat),
    }
}

/// Takes the next answer of a run of which so many octets are left. Its body is passed over.
fn audit_answer<S: Source>(
    source: &mut S,
    audit: &mut Audit,
    first: Option<Repeat>,
    taken: u64,
    left: u64,
    room: &mut [u8],
) -> Result<Step, AuditStop>
    requires fed { (fed : List Answer) × KnowsAudit fed audit.old × (length fed ≤ taken) }
    requires room { (0 < length room.old) × (ANSWER_HEADER ≤ left) }
    ensures said { IfOk result (λ step. (octets : List ℕ) × StepSaid S.told taken left audit.old audit.new first octets
        (S.left source.old) (S.left source.new) step) }
    ensures sized { length room.new ≡ length room.old }
    ensures cause { HasStopCause (S.faults source.old) (S.faults source.new) result }
{
    let mut header = [0; ANSWER_HEADER];
    if fill(source, taken, &mut header)? < ANSWER_HEADER {
        return Ok(Step::Cut);
    }
    let Some(head) = known_head(&header) else {
        return Ok(Step::Unknown);
    };
    let told = audit.feed_header(head.code, head.key, head.number)?;
    let behind = taken + ANSWER_HEADER as u64;
    let len = u64::from(head.len).min(left - ANSWER_HEADER as u64);
    if skip(source, behind, len, room)? < len {
        return Ok(Step::Cut);
    }
    Ok(Step::Answer {
        count: ANSWER_HEADER as u64 + len,
        first: earlier(first, told),
    })
}

/// Passes over what is left of a run of which this is so, unless the input ends in it.
fn pass_rest<S: Source>(
    source: &mut S,
    taken: u64,
    left: u64,
    room: &mut [u8],
    end: RunFound,
) -> Result<RunFound, AuditStop>
    requires { 0 < length room.old }
    ensures passed { IfOk result (λ said. (octets : List ℕ)
        × Taking S.told taken left octets (S.left source.old) (S.left source.new)
        × (((length octets ≡ left) × (said ≡ end)) ⊎ ((length octets < left) × (said ≡ ends.Cut)))) }
    ensures sized { length room.new ≡ length room.old }
    ensures cause { HasStopCause (S.faults source.old) (S.faults source.new) result }
{
    if skip(source, taken, left, room)? < left {
        return Ok(RunFound::Cut);
    }
    Ok(end)
}

/// Takes the answers of a run of so many octets.
fn audit_run<S: Source>(
    source: &mut S,
    audit: &mut Audit,
    before: Option<Repeat>,
    taken: u64,
    len: u64,
    room: &mut [u8],
) -> Result<RunFound, AuditStop>
    requires fed { (fed : List Answer) × KnowsAudit fed audit.old × (length fed ≤ taken) }
    requires room { 0 < length room.old }
    ensures said { IfOk result (λ end. (octets : List ℕ)
        × Taking S.told taken len octets (S.left source.old) (S.left source.new)
        × RunSaid len audit.old audit.new before octets end) }
    ensures sized { length room.new ≡ length room.old }
    ensures cause { HasStopCause (S.faults source.old) (S.faults source.new) result }
{
    let mut first = before;
    let mut place: u64 = 0;
    'answers: while ANSWER_HEADER as u64 <= len - place {
        match audit_answer(source, audit, first, taken + place, len - place, room)? {
            Step::Answer {
                count,
                first: later,
            } => {
                place += count;
                first = later;
            }
            Step::Unknown => {
                let behind = place + ANSWER_HEADER as u64;
                return pass_rest(
                    source,
                    taken + behind,
                    len - behind,
                    room,
                    RunFound::Unknown(place),
                );
            }
            Step::Cut => return Ok(RunFound::Cut),
        }
    }
    pass_rest(
        source,
        taken + place,
        len - place,
        room,
        RunFound::Whole(first),
    )
}

/// The length that 4 octets spell.
fn length_of(octets: &[u8]) -> u32
    requires { length octets.now ≡ LENGTH }
    ensures spelled { octets.now ≡ to_be_bytes w32 result }
    ensures short { result < 2 ^ 32 }
{
    double_word_at(octets, 0)
}

/// Takes the next run.
fn audit_next<S: Source>(
    source: &mut S,
    audit: &mut Audit,
    first: Option<Repeat>,
    taken: u64,
    room: &mut [u8],
) -> Result<NextRun, AuditStop>
    requires fed { (fed : List Answer) × KnowsAudit fed audit.old × (length fed ≤ taken) }
    requires room { 0 < length room.old }
    ensures said { IfOk result (NextSaid S.told taken audit.old audit.new first (S.left source.old)
        (S.left source.new)) }
    ensures sized { length room.new ≡ length room.old }
    ensures cause { HasStopCause (S.faults source.old) (S.faults source.new) result }
{
    let mut length = [0; LENGTH];
    match fill(source, taken, &mut length)? {
        0 => return Ok(NextRun::End),
        LENGTH => {}
        _ => return Ok(NextRun::Broken(0)),
    }
    let len = u64::from(length_of(&length));
    match audit_run(source, audit, first, taken + LENGTH as u64, len, room)? {
        RunFound::Whole(later) => Ok(NextRun::Taken {
            count: LENGTH as u64 + len,
            first: later,
        }),
        RunFound::Unknown(place) => Ok(NextRun::Broken(LENGTH as u64 + place)),
        RunFound::Cut => Ok(NextRun::Broken(0)),
    }
}

/// What is said behind so many runs, by the first repeat up to there.
fn end_of(audit: &Audit, first: Option<Repeat>, runs: u64) -> AuditEnd
    ensures { (input : List ℕ) (read : List (List ℕ)) (fed : List Answer) → ReadsRuns input read fed []
        → KnowsAudit fed audit.now → IsOutcome fed first → runs ≡ length read → AuditSays input result }
{
    match first {
        Some(repeat) => AuditEnd::Repeated(repeat),
        None => {
            let (uses, acceptances) = audit.counts();
            AuditEnd::Clean {
                runs,
                uses,
                acceptances,
            }
        }
    }
}

/// Audits the runs behind the beginning.
fn audit_runs<S: Source>(
    alloc: Global,
    source: &mut S,
    room: &mut [u8],
) -> Result<AuditEnd, AuditStop>
    requires { 0 < length room.old }
    ensures found { IfOk result (AuditFound (λ input. IsTrue S.told
        → input ≡ take MOST_OCTETS (recording_beginning ++ S.left source.old))) }
    ensures cause { HasStopCause (S.faults source.old) (S.faults source.new) result }
{
    let mut audit = Audit::new(alloc);
    let mut first = None;
    let mut count: u64 = 0;
    let mut taken = BEGINNING.len() as u64;
    'runs: loop {
        match audit_next(source, &mut audit, first, taken, room)? {
            NextRun::Taken {
                count: octets,
                first: later,
            } => {
                taken += octets;
                count += 1;
                first = later;
            }
            NextRun::Broken(at) => return Ok(AuditEnd::BreaksAt(taken + at)),
            NextRun::End => return Ok(end_of(&audit, first, count)),
        }
    }
}

/// Takes the beginning, and says if it is that of a recording.
fn begin<S: Source>(source: &mut S) -> Result<bool, AuditStop>
    ensures begun { IfOk result (λ begun. IsTrue begun → IsTrue S.told
        → S.left source.old ≡ recording_beginning ++ S.left source.new) }
    ensures refused { IfOk result (λ begun. begun ≡ false → AuditFound (λ input. IsTrue S.told
        → input ≡ take MOST_OCTETS (S.left source.old)) (AuditEnd.BreaksAt 0)) }
    ensures cause { HasStopCause (S.faults source.old) (S.faults source.new) result }
{
    let mut octets = [0; BEGINNING.len()];
    if fill(source, 0, &mut octets)? < BEGINNING.len() {
        return Ok(false);
    }
    Ok(octets == BEGINNING)
}

/// Audits a recording of runs in one pass: whether it is in order, and whether two of the answers that it counts use,
/// or accept, one number of a key. What is malformed is said before a repeat. It takes memory for the numbers alone;
/// bodies are passed over. An input has its first 2^64 - 1 octets.
pub fn audit_recording<S: Source>(alloc: Global, source: &mut S) -> Result<AuditEnd, AuditStop>
    ensures found { IfOk result (AuditFound (λ input. IsTrue S.told
        → input ≡ take MOST_OCTETS (S.left source.old))) }
    // The source failed only if its count of faults rose; else that stood.
    ensures cause { HasStopCause (S.faults source.old) (S.faults source.new) result }
{
    if !begin(source)? {
        return Ok(AuditEnd::BreaksAt(0));
    }
    let mut room = [0; PIECE];
    audit_runs(alloc, source, &mut room)
}

/// Takes octets until the room is full or the input ends, and returns how many. So many were taken before.
pub(crate) fn fill<S: Source>(source: &mut S, taken: u64, room: &mut [u8]) -> Result<usize, Failed>
    ensures within { IfOk result (λ count. count ≤ length room.old) }
    ensures sized { length room.new ≡ length room.old }
    ensures taken { IfOk result (λ count. Taking S.told taken (length room.old) (take count room.new)
        (S.left source.old) (S.left source.new)) }
    ensures cause { HasCause (S.faults source.old) (S.faults source.new) result }
{
    let most = room.len().min((u64::MAX - taken) as usize);
    collect(source, &mut room[..most])
}

/// Takes so many octets, or as many as there are, by way of the room, and returns how many.
pub(crate) fn skip<S: Source>(
    source: &mut S,
    taken: u64,
    len: u64,
    room: &mut [u8],
) -> Result<u64, Failed>
    requires { 0 < length room.old }
    ensures sized { length room.new ≡ length room.old }
    ensures taken { IfOk result (λ count. (octets : List ℕ) × (length octets ≡ count)
        × Taking S.told taken len octets (S.left source.old) (S.left source.new)) }
    ensures cause { HasCause (S.faults source.old) (S.faults source.new) result }
{
    let mut skipped: u64 = 0;
    'pieces: while skipped < len {
        let most = room.len().min((len - skipped) as usize);
        let count = fill(source, taken + skipped, &mut room[..most])?;
        skipped += count as u64;
        if count < most {
            return Ok(skipped);
        }
    }
    Ok(skipped)
}

/// The place at which the number of the key was seen before; if it was not, it is now seen at this one.
pub(crate) fn enter(
    places: &mut BTreeMap<(u16, u64), u64>,
    key: u16,
    number: u64,
    place: u64,
) -> Result<Option<u64>, NoMemory>
    ensures found { IfOk result (λ before. before ≡ place_in places.old key number) }
    ensures entered { IfOk result (λ before. (k n : ℕ) → place_in places.new k n
        ≡ (if (k == key) && (n == number) then Some (unwrap_or before place) else place_in places.old k n)) }
    ensures kept { OnErr result (IsUnchanged places.old places.new) }
{
    match places.get(&(key, number)) {
        Some(before) => Ok(Some(*before)),
        None => {
            places.insert((key, number), place)?;
            Ok(None)
        }
    }
}

/// Why an audit says nothing of its input.
#[derive(Clone, Copy, Debug, PartialEq, Eq, Error)]
pub enum AuditStop {
    /// The source failed.
    #[error("source fault")]
    SourceFault,
    /// Out of memory.
    #[error("no memory")]
    NoMemory,
}

impl From<Failed> for AuditStop {
    ghost from_gives = { λ _ e. e ≡ stops.SourceFault };

    fn from(_failed: Failed) -> AuditStop {
        AuditStop::SourceFault
    }
}

impl From<NoMemory> for AuditStop {
    ghost from_gives = { λ _ e. e ≡ stops.NoMemory };

    fn from(_wanting: NoMemory) -> AuditStop {
        AuditStop::NoMemory
    }
}
