//! From a source to a sink: text in, recorded input out; recorded input and answers in, text out.
ghost use Rattle.std.specs.Prelude.{◌≡◌, ◌≤◌, ◌∷◌, [], IfOk, IsTrue, MatchOption, ◌⊎◌, ◌++◌, length, OnErr, OnOk};
ghost use Rattle.std.specs.Prelude.{IfNone, IfSome};
ghost use Rattle.sdls_outside.specs.Faults.{HasCause, Rose};
ghost use Rattle.sdls_outside.specs.Moments.{Between};
ghost use Rattle.record_io.specs.Input.{item_octets, IsItem};
ghost use Rattle.record_io.specs.NextItem.{item_found};
ghost use Rattle.input_text.specs.Line.{IsLine, line_item};
ghost use Rattle.text_streams.specs.TextLine.{IfSourceFault, IsLast, TakesLine, PutsRest, Adds, AddsNext, EndsAt};
ghost use Rattle.text_streams.specs.TextLine.{EndsNext, IsFaultCause, ReadsLines, PutsRecords};
ghost use Rattle.text_streams.specs.Spelling.{AddsLine, seen_item};
ghost use Rattle.text_streams.specs.ItemLines.{FailsNextItem, PutsItem, PutsLines, TakesBeginning, counted};
ghost use Rattle.text_streams.specs.AnswerLines.{FailsNext, PutsAnswers, PutsLine, end_of};

use crate::ends::End;
use crate::printing::{put_fence, put_record};
use answer_text::{AnswersEnd, Form, Listing};
use input_text::{Line, LineError, put_item, read_line};
use record_io::{FoundItem, ITEM_HEADER, ItemKind, NextItem, Record, next_item};
use sdls_base::NoMemory;
use sdls_outside::{Failed, Site, Source, collect};
use std::alloc::{AllocError, Global};

/// The most octets of a line.
const MOST_LINE: usize = 8192;

/// What was read next.
#[derive(Drop)]
pub enum NextLine {
    /// A line, without its line feed.
    Line(Vec<u8>),
    /// The last line, which lacks its line feed.
    Last(Vec<u8>),
    /// Nothing stands behind the last line feed.
    End,
    /// The line has more than 8,192 octets.
    Long,
    SourceFault,
}

/// Takes an octet, or none where the source has ended.
fn next_octet<S: Source>(source: &mut S) -> Result<Option<u8>, Failed>
    ensures next { IsTrue S.told → IfOk result (λ next. MatchOption next
        ((S.left source.old ≡ []) × (S.left source.new ≡ []))
        (λ octet. S.left source.old ≡ octet ∷ S.left source.new)) }
    ensures cause { HasCause (S.faults source.old) (S.faults source.new) result }
{
    let mut octet = [0];
    match source.take(&mut octet)? {
        0 => Ok(None),
        _ => Ok(Some(octet[0])),
    }
}

/// What stands behind the last line feed.
fn last_line(line: Vec<u8>) -> NextLine
    ensures { IsLast line.items result }
{
    if line.is_empty() {
        NextLine::End
    } else {
        NextLine::Last(line)
    }
}

/// Takes the octets up to the next line feed, which the last line may lack.
pub fn next_line<S: Source>(alloc: Global, source: &mut S) -> Result<NextLine, AllocError>
    ensures takes { IsTrue S.told → IfOk result (TakesLine (S.left source.old) (S.left source.new)) }
    ensures cause { IfOk result (λ next. IfSourceFault next (Rose (S.faults source.old) (S.faults source.new))) }
    ensures later { S.faults source.old ≤ S.faults source.new }
{
    let mut line = Vec::new(alloc);
    'octets: while line.len() <= MOST_LINE {
        let Ok(next) = next_octet(source) else {
            return Ok(NextLine::SourceFault);
        };
        let Some(octet) = next else {
            return Ok(last_line(line));
        };
        if octet == b'\n' {
            return Ok(NextLine::Line(line));
        }
        line.push(octet)?;
    }
    Ok(NextLine::Long)
}

/// Writes octets. After `Failed` a front of them was put.
pub fn put_octets<O: Site>(sink: &mut O, octets: &[u8]) -> Result<(), Failed>
    ensures put { IsTrue O.told → OnOk result ((O.trace sink.new).now.sunk ≡ (O.trace sink.old).now.sunk
        ++ octets.now) }
    ensures front { IsTrue O.told → OnErr result (Between (O.trace sink.old).now.sunk
        ((O.trace sink.old).now.sunk ++ octets.now) (O.trace sink.new).now.sunk) }
    ensures cause { HasCause (O.faults sink.old) (O.faults sink.new) result }
{
    sink.put(octets)
}

/// Writes what stands in the buffer, which is empty then. After `Failed` a front of it was put.
fn put<O: Site>(sink: &mut O, out: &mut Vec<u8>) -> Result<(), Failed>
    ensures put { IsTrue O.told → OnOk result ((O.trace sink.new).now.sunk ≡ (O.trace sink.old).now.sunk
        ++ out.old.items) }
    ensures empty { OnOk result (out.new.items ≡ []) }
    ensures front { IsTrue O.told → OnErr result (Between (O.trace sink.old).now.sunk
        ((O.trace sink.old).now.sunk ++ out.old.items) (O.trace sink.new).now.sunk) }
    ensures cause { HasCause (O.faults sink.old) (O.faults sink.new) result }
{
    put_octets(sink, out.as_slice())?;
    out.clear();
    Ok(())
}

/// Writes what stands in the buffer, if anything does: who reads has it before the next line comes.
pub fn put_made<O: Site>(sink: &mut O, out: &mut Vec<u8>) -> Result<(), Failed>
    ensures put { IsTrue O.told → OnOk result
        ((O.trace sink.new).now.sunk ++ out.new.items ≡ (O.trace sink.old).now.sunk ++ out.old.items) }
    ensures least { IsTrue O.told → OnOk result (length (O.trace sink.old).now.sunk
        ≤ length (O.trace sink.new).now.sunk) }
    ensures front { IsTrue O.told → OnErr result (Between (O.trace sink.old).now.sunk
        ((O.trace sink.old).now.sunk ++ out.old.items) (O.trace sink.new).now.sunk) }
    ensures cause { HasCause (O.faults sink.old) (O.faults sink.new) result }
{
    if out.is_empty() {
        return Ok(());
    }
    put(sink, out)
}

/// Writes what is left in the buffer, unless the output has failed, and answers how the run ends.
pub fn put_rest<O: Site>(sink: &mut O, mut out: Vec<u8>, end: End) -> End
    ensures put { IsTrue O.told → PutsRest end result (O.trace sink.old).now.sunk out.items
        (O.trace sink.new).now.sunk }
    ensures cause { (result ≡ end) ⊎ ((result ≡ End.OutputFault) × Rose (O.faults sink.old) (O.faults sink.new)) }
    ensures later { O.faults sink.old ≤ O.faults sink.new }
{
    match end {
        End::OutputFault => End::OutputFault,
        end => match put(sink, &mut out) {
            Ok(()) => end,
            Err(Failed) => End::OutputFault,
        },
    }
}

/// Adds the octets of a line's item. After lack of memory nothing was added.
fn add(alloc: Global, out: &mut Vec<u8>, line: &Line) -> Result<(), NoMemory>
    requires { IsLine line.now }
    ensures added { OnOk result (out.new.items ≡ out.old.items ++ item_octets (line_item line.now)) }
    ensures kept { OnErr result (out.new.items ≡ out.old.items) }
{
    let mut item = Vec::new(alloc);
    put_item(alloc, &mut item, line)?;
    out.extend_from_slice(&item)?;
    Ok(())
}

/// Adds what a line says, or says why the text is read no further; then nothing was added.
fn take_line(alloc: Global, out: &mut Vec<u8>, number: u64, text: &[u8]) -> Option<End>
    ensures adds { IfNone result (Adds text.now out.old.items out.new.items) }
    ensures kept { IfSome result (λ _. out.new.items ≡ out.old.items) }
    ensures cause { IfSome result (EndsAt number text.now) }
{
    match read_line(alloc, text) {
        Ok(None) => None,
        Ok(Some(line)) => match add(alloc, out, &line) {
            Ok(()) => None,
            Err(NoMemory) => Some(End::NoMemory),
        },
        Err(LineError::Fault(fault)) => Some(End::LineFault(number, fault)),
        Err(LineError::NoMemory) => Some(End::NoMemory),
    }
}

/// Takes the next line, which has this number, and adds what it says, or says why the text is read no further; then
/// nothing was added.
fn take_next<S: Source>(
    alloc: Global,
    source: &mut S,
    out: &mut Vec<u8>,
    number: u64,
) -> Option<End>
    ensures adds { IsTrue S.told
        → IfNone result (AddsNext (S.left source.old) (S.left source.new) out.old.items out.new.items) }
    ensures kept { IfSome result (λ _. out.new.items ≡ out.old.items) }
    ensures cause { IsTrue S.told → IfSome result (EndsNext number (S.left source.old)) }
    ensures fault { IfSome result (IsFaultCause (Rose (S.faults source.old) (S.faults source.new)) ⊥) }
    ensures later { S.faults source.old ≤ S.faults source.new }
{
    match next_line(alloc, source) {
        Ok(NextLine::Line(text) | NextLine::Last(text)) => take_line(
            alloc,
            out,
            number,
            text.as_slice(),
        ),
        Ok(NextLine::End) => Some(End::Done),
        Ok(NextLine::Long) => Some(End::LongLine(number)),
        Ok(NextLine::SourceFault) => Some(End::SourceFault),
        Err(_) => Some(End::NoMemory),
    }
}

/// Reads the lines up to the end or the first fault, and writes what each says before it reads the next. The rest
/// stands in the buffer.
fn read_lines<S: Source, O: Site>(
    alloc: Global,
    source: &mut S,
    sink: &mut O,
    out: &mut Vec<u8>,
) -> End
    ensures reads { IsTrue S.told → IsTrue O.told → ReadsLines (S.left source.old)
        (O.trace sink.old).now.sunk out.old.items (O.trace sink.new).now.sunk out.new.items result }
    ensures fault { IsFaultCause (Rose (S.faults source.old) (S.faults source.new))
        (Rose (O.faults sink.old) (O.faults sink.new)) result }
    ensures later { O.faults sink.old ≤ O.faults sink.new }
{
    'lines: for number in 1..u64::MAX {
        if let Some(end) = take_next(alloc, source, out, number) {
            return end;
        }
        if let Err(Failed) = put_made(sink, out) {
            return End::OutputFault;
        }
    }
    End::Done
}

/// Writes the recorded input that the lines of the source say. Where a line is at fault the items of the lines before
/// it are put, and nothing of it or of a later one.
pub fn put_records<S: Source, O: Site>(alloc: Global, source: &mut S, sink: &mut O) -> End
    ensures put { IsTrue S.told → IsTrue O.told
        → PutsRecords (S.left source.old) (O.trace sink.old).now.sunk (O.trace sink.new).now.sunk result }
    ensures fault { IsFaultCause (Rose (S.faults source.old) (S.faults source.new))
        (Rose (O.faults sink.old) (O.faults sink.new)) result }
{
    if let Err(Failed) = put_octets(sink, &BEGINNING) {
        return End::OutputFault;
    }
    let mut out = Vec::new(alloc);
    let end = read_lines(alloc, source, sink, &mut out);
    put_rest(sink, out, end)
}

/// The octets that recorded input begins with.
const BEGINNING: [u8; 8] = *b"SDLSREC1";

/// Takes the beginning of recorded input, or says why there is none.
fn take_beginning<S: Source>(source: &mut S) -> Option<End>
    ensures takes { IsTrue S.told → TakesBeginning (S.left source.old) (S.left source.new) result }
    ensures fault { IfSome result (IsFaultCause (Rose (S.faults source.old) (S.faults source.new)) ⊥) }
    ensures later { S.faults source.old ≤ S.faults source.new }
{
    let mut octets = [0; 8];
    match collect(source, &mut octets) {
        Err(Failed) => Some(End::SourceFault),
        Ok(8) if octets == BEGINNING => None,
        Ok(_) => Some(End::NoItem(0)),
    }
}

/// Adds the line of an item.
fn put_item_line(alloc: Global, line: &mut Vec<u8>, found: FoundItem) -> Result<(), NoMemory>
    ensures { IsItem (item_found found)
        → OnOk result (AddsLine (seen_item (item_found found)) line.old.items line.new.items) }
{
    match found.kind {
        ItemKind::Fence => put_fence(alloc, line),
        ItemKind::Recorded(kind) => put_record(
            alloc,
            line,
            Record {
                index: 0,
                kind,
                lane: found.lane,
                link: found.link,
                octets: found.octets,
            },
        ),
    }
}

/// How many octets stand before the next item, if so many stand before this one.
fn offset_behind(offset: u64, found: &FoundItem) -> u64
    ensures { result ≡ counted offset (item_found found.now) }
{
    let octets = found.octets.as_slice().len().saturating_add(ITEM_HEADER);
    offset.saturating_add(octets as u64)
}

/// Takes the next item and writes its line, or says why no line follows. It keeps how many octets stand before an item.
fn put_next_item<S: Source, O: Site>(
    alloc: Global,
    source: &mut S,
    sink: &mut O,
    offset: &mut u64,
) -> Option<End>
    ensures puts { IsTrue S.told → IsTrue O.told → IfNone result (PutsItem offset.old offset.new
        (S.left source.old) (S.left source.new) (O.trace sink.old).now.sunk (O.trace sink.new).now.sunk) }
    ensures fails { IsTrue S.told → IsTrue O.told → IfSome result (FailsNextItem offset.old (S.left source.old)
        (O.trace sink.old).now.sunk (O.trace sink.new).now.sunk) }
    ensures fault { IfSome result (IsFaultCause (Rose (S.faults source.old) (S.faults source.new))
        (Rose (O.faults sink.old) (O.faults sink.new))) }
    ensures later { S.faults source.old ≤ S.faults source.new }
    ensures later_sink { O.faults sink.old ≤ O.faults sink.new }
{
    let found = match next_item(alloc, source) {
        Ok(NextItem::Item(found)) => found,
        Ok(NextItem::End) => return Some(End::Done),
        Ok(NextItem::NoItem) => return Some(End::NoItem(*offset)),
        Ok(NextItem::SourceFault) => return Some(End::SourceFault),
        Err(NoMemory) => return Some(End::NoMemory),
    };
    let behind = offset_behind(*offset, &found);
    let mut line = Vec::new(alloc);
    if let Err(NoMemory) = put_item_line(alloc, &mut line, found) {
        return Some(End::NoMemory);
    }
    match put_octets(sink, line.as_slice()) {
        Ok(()) => {
            *offset = behind;
            None
        }
        Err(Failed) => Some(End::OutputFault),
    }
}

/// Writes the line of each item of the source before it takes the next one, up to the end or the first octets that are
/// no item.
pub fn put_lines<S: Source, O: Site>(alloc: Global, source: &mut S, sink: &mut O) -> End
    ensures put { IsTrue S.told → IsTrue O.told
        → PutsLines (S.left source.old) (O.trace sink.old).now.sunk (O.trace sink.new).now.sunk result }
    ensures fault { IsFaultCause (Rose (S.faults source.old) (S.faults source.new))
        (Rose (O.faults sink.old) (O.faults sink.new)) result }
{
    if let Some(end) = take_beginning(source) {
        return end;
    }
    let mut offset = 8;
    'items: for _ in 0..u64::MAX {
        if let Some(end) = put_next_item(alloc, source, sink, &mut offset) {
            return end;
        }
    }
    End::Done
}

/// How the run ends if no line follows.
fn end_of(end: AnswersEnd) -> End
    ensures { result ≡ end_of end }
{
    match end {
        AnswersEnd::Whole => End::Done,
        AnswersEnd::CutAt(offset) => End::CutAnswer(offset),
        AnswersEnd::NoAnswerAt(offset) => End::NoAnswer(offset),
        AnswersEnd::SourceFault => End::SourceFault,
        AnswersEnd::NoMemory => End::NoMemory,
    }
}

/// Takes the next answer and writes its line, or says why no line follows.
fn put_next_answer<S: Source, O: Site>(
    alloc: Global,
    form: Form,
    source: &mut S,
    sink: &mut O,
    listing: &mut Listing,
) -> Option<End>
    ensures puts { IsTrue S.told → IsTrue O.told → IfNone result (PutsLine form listing.old listing.new
        (S.left source.old) (S.left source.new) (O.trace sink.old).now.sunk (O.trace sink.new).now.sunk) }
    ensures fails { IsTrue S.told → IsTrue O.told → IfSome result (FailsNext form listing.old (S.left source.old)
        (O.trace sink.old).now.sunk (O.trace sink.new).now.sunk) }
    ensures fault { IfSome result (IsFaultCause (Rose (S.faults source.old) (S.faults source.new))
        (Rose (O.faults sink.old) (O.faults sink.new))) }
    ensures later { S.faults source.old ≤ S.faults source.new }
    ensures later_sink { O.faults sink.old ≤ O.faults sink.new }
{
    let mut line = Vec::new(alloc);
    match listing.next_line(alloc, form, source, &mut line) {
        None => match put_octets(sink, line.as_slice()) {
            Ok(()) => None,
            Err(Failed) => Some(End::OutputFault),
        },
        Some(end) => Some(end_of(end)),
    }
}

/// Writes the line of each answer of the source in this form before it takes the next one. If an answer is cut, or
/// octets are none, the lines before it are put.
pub fn put_answers<S: Source, O: Site>(
    alloc: Global,
    form: Form,
    source: &mut S,
    sink: &mut O,
) -> End
    ensures put { IsTrue S.told → IsTrue O.told
        → PutsAnswers form (S.left source.old) (O.trace sink.old).now.sunk (O.trace sink.new).now.sunk result }
    ensures fault { IsFaultCause (Rose (S.faults source.old) (S.faults source.new))
        (Rose (O.faults sink.old) (O.faults sink.new)) result }
{
    let mut listing = Listing::new();
    'answers: for _ in 0..u64::MAX {
        if let Some(end) = put_next_answer(alloc, form, source, sink, &mut listing) {
            return end;
        }
    }
    End::Done
}
