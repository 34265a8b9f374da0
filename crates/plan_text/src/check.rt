//! A text, or what a source gives, checked as a plan. The books are asked about the plan without its lines at fault. An
//! association is looked for whose frames can be changed into others: under CMAC on a TM link whose mask leaves out the
//! secondary header flag.
ghost use Rattle.std.specs.Prelude.{◌≡◌, IfOk, ◌+◌, ◌++◌, length, vec_len, OnOk, IsTrue};
ghost use Rattle.sdls_outside.specs.Faults.{Rose};
ghost use Rattle.sdls_outside.specs.Intake.{TakesAtMost};
ghost use Rattle.unit_plan.specs.Lines.{words_of};
ghost use Rattle.plan_text.specs.Check.{JudgesText, SaysFault, Tells};
ghost use Rattle.plan_text.specs.Moved.{any_bare, is_moved, leaves_flag, lies_bare, moved_line, placed, puts_on};
ghost use Rattle.plan_text.specs.Put.{EndsPlan, IsPlanCause, PutsPlan, note_line, note_lines, plan_status};

use crate::books::refused_lines;
use crate::wanted::{Fault, PlanNote, Wanted, note_of};
use record_io::status::{DONE, MALFORMED, NO_MEMORY, SITE_FAULT, SOURCE_FAULT};
use sdls_base::{NewSa, NoMemory, Suite};
use sdls_outside::{Failed, Site, Source, collect};
use status_text::status_text;
use std::alloc::{AllocError, Global};
use text_words::{put_decimal, put_octets};
use unit_plan::{
    Above, AnyLayout, Lines, Link, MOST_OCTETS, Plan, PlanCause, PlanError, PlanFault, Words,
    number_of, stand_in,
};
use unit_state::State;

/// What a text is as a plan.
#[derive(Drop)]
pub enum Checked {
    /// A plan, which makes a state: the text that `stat` prints of it. If an association under CMAC covers a channel of
    /// a TM link whose mask leaves out the secondary header flag, the line of the first one.
    Plan {
        summary: Vec<u8>,
        moved: Option<u32>,
    },
    /// No plan: the line that `init` names, and the others that are at fault. Of these the ones stand first that
    /// reading finds, and behind them those that the books refuse, each in the order of the lines.
    NoPlan {
        first: PlanNote,
        others: Vec<PlanNote>,
    },
}

/// The plan that a text is, and the state that it makes.
fn judge(alloc: Global, text: &[u8]) -> Result<(Plan, State), PlanError>
    ensures { JudgesText text.now result }
{
    let plan = Plan::read(alloc, text)?;
    let state = State::initial(alloc, &plan)?;
    Ok((plan, state))
}

/// The lines at fault that reading finds.
fn faults_of_text(alloc: Global, text: &[u8]) -> Result<Vec<PlanNote>, NoMemory> {
    let mut notes = Vec::new(alloc);
    let mut above = Above::new(alloc);
    let mut number: u32 = 1;
    for line in Lines::of(text) {
        if let Some(spot) = above.spot_of(number, line)? {
            notes.push(note_of(alloc, number, line, Fault::of(spot))?)?;
        }
        number = number.saturating_add(1);
    }
    if let Some(spot) = above.missing_head() {
        notes.push(note_of(alloc, number, b"", Fault::of(spot))?)?;
    }
    Ok(notes)
}

/// A line of a text by its number, empty if there is none.
fn line_at(text: &[u8], number: u32) -> &[u8] {
    let before = number.saturating_sub(1) as usize;
    Lines::of(text).nth(before).unwrap_or(b"")
}

/// Adds the lines that the books refuse, if the first five lines stand.
fn note_refused(alloc: Global, text: &[u8], notes: &mut Vec<PlanNote>) -> Result<(), NoMemory> {
    let Some(plan) = plan_without(alloc, text, notes.as_slice())? else {
        return Ok(());
    };
    for (line, fault) in refused_lines(alloc, &plan)? {
        notes.push(note_of(alloc, line, line_at(text, line), fault)?)?;
    }
    Ok(())
}

/// What is said of the line that `init` names, if it is none of the notes.
fn plain_note(alloc: Global, text: &[u8], fault: PlanFault) -> Result<PlanNote, NoMemory>
    ensures { IfOk result (λ note. note.line ≡ fault.line) }
{
    let wanted = match fault.cause {
        PlanCause::Long => Wanted::ShortText,
        _ => Wanted::Other,
    };
    note_of(
        alloc,
        fault.line,
        line_at(text, fault.line),
        Fault { word: 1, wanted },
    )
}

/// Parts the note of a line from the others.
fn part(
    alloc: Global,
    notes: Vec<PlanNote>,
    plain: PlanNote,
) -> Result<(PlanNote, Vec<PlanNote>), NoMemory>
    ensures { IfOk result (λ parted. parted.0.line ≡ plain.line) }
{
    let PlanNote { line, mut text } = plain;
    let mut others = Vec::new(alloc);
    for note in notes {
        if note.line == line {
            text = note.text;
        } else {
            others.push(note)?;
        }
    }
    Ok((PlanNote { line, text }, others))
}

/// What is said of a text that is no plan: first of the line of its first fault.
fn say(alloc: Global, text: &[u8], fault: PlanFault) -> Result<Checked, NoMemory>
    ensures { IfOk result (SaysFault fault) }
{
    let plain = plain_note(alloc, text, fault)?;
    if fault.cause == PlanCause::Long {
        return Ok(Checked::NoPlan {
            first: plain,
            others: Vec::new(alloc),
        });
    }
    let mut notes = faults_of_text(alloc, text)?;
    note_refused(alloc, text, &mut notes)?;
    let (first, others) = part(alloc, notes, plain)?;
    Ok(Checked::NoPlan { first, others })
}

/// Checks a text as a plan.
pub fn check_plan(alloc: Global, text: &[u8]) -> Result<Checked, NoMemory>
    ensures { IfOk result (Tells text.now) }
{
    match judge(alloc, text) {
        Ok((plan, state)) => {
            let summary = status_text(alloc, &state, 0, plan.slots())?;
            let moved = moved_line(text, &plan);
            Ok(Checked::Plan { summary, moved })
        }
        Err(PlanError::Refused(fault)) => say(alloc, text, fault),
        Err(PlanError::NoMemory) => Err(NoMemory),
    }
}

/// So many lines are left out because they name what a line at fault would have made.
const MOST_ROUNDS: u32 = 256;

/// The text with other lines for those that have a note. The notes ascend by line.
fn without_noted(alloc: Global, text: &[u8], notes: &[PlanNote]) -> Result<Vec<u8>, NoMemory> {
    let mut mended = Vec::new(alloc);
    let mut rest = notes.iter();
    let mut next = rest.next();
    let mut number: u32 = 1;
    for line in Lines::of(text) {
        let noted = match next {
            Some(note) => note.line == number,
            None => false,
        };
        if noted {
            next = rest.next();
            put_octets(&mut mended, stand_in(line))?;
        } else {
            put_octets(&mut mended, line)?;
        }
        put_octets(&mut mended, b"\n")?;
        number = number.saturating_add(1);
    }
    Ok(mended)
}

/// The text with an empty line for one of its lines.
fn without(alloc: Global, text: &[u8], left_out: u32) -> Result<Vec<u8>, NoMemory> {
    let mut mended = Vec::new(alloc);
    let mut number: u32 = 1;
    for line in Lines::of(text) {
        if number != left_out {
            put_octets(&mut mended, line)?;
        }
        put_octets(&mut mended, b"\n")?;
        number = number.saturating_add(1);
    }
    Ok(mended)
}

/// The plan that is left without the lines that have a note, nor those that name what these would have made. There is
/// none if the first five lines do not stand in their order.
fn plan_without(alloc: Global, text: &[u8], notes: &[PlanNote]) -> Result<Option<Plan>, NoMemory> {
    let mut text = without_noted(alloc, text, notes)?;
    for _ in 0..MOST_ROUNDS {
        match Plan::read(alloc, text.as_slice()) {
            Ok(plan) => return Ok(Some(plan)),
            Err(PlanError::NoMemory) => return Err(NoMemory),
            Err(PlanError::Refused(fault)) => {
                if fault.cause == PlanCause::Order {
                    return Ok(None);
                }
                text = without(alloc, text.as_slice(), fault.line)?;
            }
        }
    }
    Ok(None)
}

/// The secondary header flag within the fifth octet of a TM frame.
const FLAG: u8 = 0x80;

/// Whether this is a TM link whose mask leaves out the secondary header flag.
fn leaves_flag(link: &Link) -> bool
    ensures { result ≡ leaves_flag link.now }
{
    match link.layout {
        AnyLayout::Tm(_) => link.mask.octets[4] < FLAG,
        AnyLayout::Tc(_) | AnyLayout::Aos(_) => false,
    }
}

/// The channel and the link that a line names, if it is a `channel` line.
fn placed(line: &[u8]) -> Option<(u64, u64)>
    ensures { result ≡ placed (words_of line.now) }
{
    let mut words = Words::of(line);
    let kind = words.next()?;
    let channel = words.next()?;
    let link = words.next()?;
    if kind != b"channel".as_slice() {
        return None;
    }
    Some((number_of(channel)?, number_of(link)?))
}

/// Whether a line has this channel on such a link.
fn puts_on(plan: &Plan, channel: u8, line: &[u8]) -> bool
    ensures { result ≡ puts_on plan.now.links channel (words_of line.now) }
{
    match placed(line) {
        Some((number, link)) if number == u64::from(channel) && link <= 15 => {
            match plan.link(link as u8) {
                Some(found) => leaves_flag(found),
                None => false,
            }
        }
        _ => false,
    }
}

/// Whether a line of the text does.
fn lies_bare(text: &[u8], plan: &Plan, channel: u8) -> bool
    ensures { result ≡ lies_bare text.now plan.now.links channel }
{
    for line in Lines::of(text) {
        if puts_on(plan, channel, line) {
            return true;
        }
    }
    false
}

/// Whether one of these channels does.
fn any_bare(text: &[u8], plan: &Plan, channels: &[u8]) -> bool
    ensures { result ≡ any_bare text.now plan.now.links channels.now }
{
    channels
        .iter()
        .any(|channel| lies_bare(text, plan, *channel))
}

/// Whether an association under CMAC covers such a channel.
fn is_moved(text: &[u8], plan: &Plan, sa: &NewSa) -> bool
    ensures { result ≡ is_moved text.now plan.now.links sa.now }
{
    match sa.suite {
        Suite::Cmac => any_bare(text, plan, sa.channels.as_slice()),
        Suite::Gcm => false,
    }
}

/// The line of the first such association of a plan, which has this text.
fn moved_line(text: &[u8], plan: &Plan) -> Option<u32>
    ensures { result ≡ moved_line text.now plan.now }
{
    match plan
        .associations()
        .iter()
        .find(|found| is_moved(text, plan, &found.sa))
    {
        Some(found) => Some(found.line),
        None => None,
    }
}

/// How the check of a plan ends.
#[derive(Clone, Copy, Debug, PartialEq, Eq)]
pub enum PlanEnd {
    /// It is a plan, and what `stat` prints of its state was put. If an association under CMAC covers a channel of a TM
    /// link whose mask leaves out the secondary header flag, the line of the first one.
    Plan(Option<u32>),
    /// It is none, and a line was put for each line at fault.
    NoPlan,
    SourceFault,
    OutputFault,
    NoMemory,
}

impl PlanEnd {
    /// The exit status.
    pub fn status(self) -> u8
        ensures { result ≡ plan_status self }
    {
        match self {
            PlanEnd::Plan(_) => DONE,
            PlanEnd::NoPlan => MALFORMED,
            PlanEnd::SourceFault => SOURCE_FAULT,
            PlanEnd::OutputFault => SITE_FAULT,
            PlanEnd::NoMemory => NO_MEMORY,
        }
    }
}

#[tactic(auto, unfolding(crate::specs::Put::note_line))]
fn put_note(text: &mut Vec<u8>, note: &PlanNote) -> Result<(), NoMemory>
    ensures { OnOk result (text.new.items ≡ text.old.items ++ note_line note.now) }
{
    put_octets(text, b"line ")?;
    put_decimal(text, u64::from(note.line))?;
    put_octets(text, b", ")?;
    put_octets(text, note.text.as_slice())?;
    put_octets(text, b"\n")
}

#[tactic(auto, unfolding(crate::specs::Put::note_lines))]
fn put_notes(text: &mut Vec<u8>, notes: &[PlanNote]) -> Result<(), NoMemory>
    ensures { OnOk result (text.new.items ≡ text.old.items ++ note_lines notes.now) }
{
    for note in notes {
        put_note(text, note)?;
    }
    Ok(())
}

/// A line for each note.
fn notes_text(alloc: Global, first: &PlanNote, others: &[PlanNote]) -> Result<Vec<u8>, NoMemory>
    ensures { IfOk result (λ text. text.items ≡ note_line first.now ++ note_lines others.now) }
{
    let mut text = Vec::new(alloc);
    put_note(&mut text, first)?;
    put_notes(&mut text, others)?;
    Ok(text)
}

/// What is put for a text, and how the check of it ends if that was put.
fn said(alloc: Global, text: &[u8]) -> Result<(PlanEnd, Vec<u8>), NoMemory>
    ensures { IfOk result (λ said. EndsPlan text.now said.1.items said.0) }
{
    match check_plan(alloc, text)? {
        Checked::Plan { summary, moved } => Ok((PlanEnd::Plan(moved), summary)),
        Checked::NoPlan { first, others } => {
            Ok((
                PlanEnd::NoPlan,
                notes_text(alloc, &first, others.as_slice())?,
            ))
        }
    }
}

/// Writes what is said of a text.
fn put_said<O: Site>(alloc: Global, sink: &mut O, text: &[u8]) -> PlanEnd
    ensures ends { IsTrue O.told
        → PutsPlan text.now (O.trace sink.old).now.sunk (O.trace sink.new).now.sunk result }
    ensures fault { IsPlanCause ⊥ (Rose (O.faults sink.old) (O.faults sink.new)) result }
{
    match said(alloc, text) {
        Ok((end, put)) => match sink.put(put.as_slice()) {
            Ok(()) => end,
            Err(Failed) => PlanEnd::OutputFault,
        },
        Err(NoMemory) => PlanEnd::NoMemory,
    }
}

/// So many zeros.
fn zeros(alloc: Global, count: usize) -> Result<Vec<u8>, AllocError>
    ensures { IfOk result (λ zeros. vec_len zeros ≡ count) }
{
    vec![in alloc; 0; count]
}

/// Reads a plan to its end into the room, which has one octet more than the longest plan, and writes what is said of
/// it.
fn collect_and_put<S: Source, O: Site>(
    alloc: Global,
    source: &mut S,
    sink: &mut O,
    room: &mut [u8],
) -> PlanEnd
    requires { length room.old ≡ MOST_OCTETS + 1 }
    ensures ends { IsTrue S.told → IsTrue O.told
        → PutsPlan (S.left source.old) (O.trace sink.old).now.sunk (O.trace sink.new).now.sunk result }
    ensures taken { IsTrue S.told → TakesAtMost (MOST_OCTETS + 1) (S.left source.old) (S.left source.new) }
    ensures fault { IsPlanCause (Rose (S.faults source.old) (S.faults source.new))
        (Rose (O.faults sink.old) (O.faults sink.new)) result }
{
    match collect(source, room) {
        Ok(count) => put_said(alloc, sink, &room[..count]),
        Err(Failed) => PlanEnd::SourceFault,
    }
}

/// Reads a plan to its end, and writes a summary of the state that it makes, or a line for each line at fault, the one
/// that `init` names first.
pub fn put_plan<S: Source, O: Site>(alloc: Global, source: &mut S, sink: &mut O) -> PlanEnd
    ensures ends { IsTrue S.told → IsTrue O.told
        → PutsPlan (S.left source.old) (O.trace sink.old).now.sunk (O.trace sink.new).now.sunk result }
    ensures taken { IsTrue S.told → TakesAtMost (MOST_OCTETS + 1) (S.left source.old) (S.left source.new) }
    ensures fault { IsPlanCause (Rose (S.faults source.old) (S.faults source.new))
        (Rose (O.faults sink.old) (O.faults sink.new)) result }
{
    let Ok(mut room) = zeros(alloc, MOST_OCTETS + 1) else {
        return PlanEnd::NoMemory;
    };
    collect_and_put(alloc, source, sink, &mut room)
}
