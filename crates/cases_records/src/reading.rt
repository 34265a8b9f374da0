//! Recorded inputs and recordings of runs, and how sources give them.
use case_lines::{Differences, Page, cut, number, replace};
use pair_audit::{AuditEnd, AuditStop, Repeat, audit_recording};
use record_io::{Answer, Reader, Record, RecordKind, SegmentEnd, ShortOctets, answer_header, code};
use sdls_outside::MemSource;

/// The most segments that are read of an input.
const MOST_SEGMENTS: u32 = 64;

/// The most octets of a piece that is tried.
const MOST_PIECE: usize = 64;

/// The octets of a piece of a source that fails.
const FAILING_PIECE: usize = 16;

/// How many calls fail in turn.
const MOST_CALLS: u64 = 64;

/// What the octets of a source are.
#[derive(Clone, Copy)]
enum Kind {
    Input,
    Recording,
}

/// Octets whose source gives at most so many in a call, and fails at one call, or at none.
#[derive(Clone, Copy)]
struct Case<'a> {
    kind: Kind,
    piece: usize,
    failing: Option<u64>,
    octets: &'a [u8],
}

/// The word for a kind.
fn kind_name(kind: RecordKind) -> &'static str {
    match kind {
        RecordKind::Protect => "protect",
        RecordKind::Open => "open",
        RecordKind::Command => "command",
        RecordKind::Monitor => "monitor",
    }
}

/// Writes a record: number, kind, lane, link and length.
fn write_record(record: &Record, page: &mut Page) {
    let (index, kind, lane) = (record.index, kind_name(record.kind), record.lane);
    let (link, len) = (record.link, record.octets.as_slice().len());
    write!(page, " [{index} {kind} {lane} {link} {len}]");
}

fn write_end(end: &SegmentEnd, page: &mut Page) {
    match end {
        SegmentEnd::More => page.push_str(" more, "),
        SegmentEnd::Monitor(record) => {
            page.push_str(" then");
            write_record(record, page);
            page.push_str(", ");
        }
        SegmentEnd::End => page.push_str(" end"),
        SegmentEnd::Malformed(offset) => write!(page, " malformed {offset}"),
        SegmentEnd::SourceFault(faults) => write!(page, " fault {faults}"),
    }
}

/// Writes a segment: how many records, the first and the last, and how it ends.
fn write_segment(records: &[Record], end: &SegmentEnd, page: &mut Page) {
    write!(page, "{}", records.len());
    if let [first, ..] = records {
        write_record(first, page);
    }
    if let [_, .., last] = records {
        write_record(last, page);
    }
    write_end(end, page);
}

/// Reads the next segment and writes it. Returns whether another may follow.
fn read_segment(reader: &mut Reader, source: &mut MemSource, page: &mut Page) -> bool {
    let Ok((records, end)) = reader.next_segment(page.alloc(), source) else {
        page.spoil();
        return false;
    };
    write_segment(records.as_slice(), &end, page);
    reader.take_back(records);
    matches!(end, SegmentEnd::More | SegmentEnd::Monitor(_))
}

/// Writes what the reader answers to what a source has, segment by segment.
fn read_segments(source: &mut MemSource, page: &mut Page) {
    let mut reader = Reader::new(page.alloc());
    for _ in 0..MOST_SEGMENTS {
        if !read_segment(&mut reader, source, page) {
            break;
        }
    }
}

fn write_repeat(repeat: &Repeat, page: &mut Page) {
    let kind = if repeat.pair { "pair" } else { "accept" };
    write!(page, "repeat {kind} {} {}", repeat.key, repeat.number);
    write!(page, " at {} {}", repeat.first, repeat.second);
}

/// Writes what the audit of what a source has says.
fn audit(source: &mut MemSource, page: &mut Page) {
    match audit_recording(page.alloc(), source) {
        Ok(
            AuditEnd::Clean {
                runs,
                uses,
                acceptances,
            },
        ) => write!(page, "ok runs {runs} pairs {uses} accepts {acceptances}"),
        Ok(AuditEnd::Repeated(repeat)) => write_repeat(&repeat, page),
        Ok(AuditEnd::BreaksAt(offset)) => write!(page, "input at {offset}"),
        Err(AuditStop::SourceFault) => page.push_str("source fault"),
        Err(AuditStop::NoMemory) => page.spoil(),
    }
}

/// Writes what the reader or the audit answers to a case.
fn read(case: Case<'_>, page: &mut Page) {
    let (octets, calls) = (page.copy(case.octets), page.list_of(case.failing));
    let mut source = MemSource::new(octets, case.piece.max(1), calls);
    match case.kind {
        Kind::Input => read_segments(&mut source, page),
        Kind::Recording => audit(&mut source, page),
    }
}

/// Takes the next answer, and writes it in a line with its number if it is another than the one before.
fn write_next(differences: &mut Differences, number: u64, page: &mut Page) {
    let is_other = differences.is_other();
    differences.take();
    if is_other {
        page.begin_line();
        write!(page, "{number}: ");
        differences.write_last(page);
    }
}

/// Writes what is answered to each front of a case, where that changes.
fn read_cuts(case: Case<'_>, page: &mut Page) {
    let mut differences = Differences::new(page.alloc());
    for len in 0..=case.octets.len() {
        let octets = &case.octets[..len];
        read(Case { octets, ..case }, differences.next());
        write_next(&mut differences, len as u64, page);
    }
}

/// Writes what is answered if call by call fails, where that changes. The source gives at most 16 octets a call.
fn read_failures(mut case: Case<'_>, page: &mut Page) {
    let mut differences = Differences::new(page.alloc());
    case.piece = FAILING_PIECE;
    for call in 0..MOST_CALLS {
        case.failing = Some(call);
        read(case, differences.next());
        write_next(&mut differences, call, page);
    }
}

/// Writes what is answered in pieces of 1 to 64 octets, if each says the same.
fn read_in_pieces(case: Case<'_>, page: &mut Page) {
    let mut differences = Differences::new(page.alloc());
    read(case, differences.next());
    differences.take();
    for piece in 1..=MOST_PIECE {
        read(Case { piece, ..case }, differences.next());
        if differences.is_other() {
            write!(page, "pieces of {piece}: ");
            differences.take();
            break;
        }
    }
    differences.write_last(page);
}

/// Writes the header of an answer with a value in each place, if its body has three octets.
fn answer_with_header(page: &mut Page) {
    let Ok(body) = b"\x00\x2a\x14".to_vec(page.alloc()) else {
        return page.spoil();
    };
    let header = answer_header(&Answer {
        code: code::NUMBER,
        detail: 5,
        key: 0x8001,
        position: 258,
        number: 0xE93D_7E11,
        body: ShortOctets::new(body),
    });
    page.push_digits(header.as_slice());
}

/// Writes what a case of an input answers: `PIECE CALL OCTETS`, the same behind `cuts`, or `header`.
pub fn answer_input(line: &str, page: &mut Page) {
    if line == "header" {
        return answer_with_header(page);
    }
    let cuts = line.strip_prefix("cuts ");
    let mut words = cuts.unwrap_or(line).split_whitespace();
    let (piece, failing) = (number(&mut words), number(&mut words));
    let octets = page.octets(&mut words);
    let case = Case {
        kind: Kind::Input,
        piece: piece.unwrap_or(1) as usize,
        failing,
        octets: &octets,
    };
    match cuts {
        Some(_) => read_cuts(case, page),
        None => read(case, page),
    }
}

/// A recording from a source that gives all octets in a call.
fn recorded(octets: &[u8]) -> Case<'_> {
    Case {
        kind: Kind::Recording,
        piece: usize::MAX,
        failing: None,
        octets,
    }
}

/// Adds a run behind its length.
fn push_run(recording: &mut Vec<u8>, run: &[u8], page: &mut Page) {
    let len = u32::try_from(run.len()).unwrap_or(u32::MAX);
    page.check(recording.extend_from_slice(&len.to_be_bytes()));
    page.check(recording.extend_from_slice(run));
}

/// Adds a run of so many frames protected under key 1, with the numbers from 1 on, and an empty body each.
fn push_many(recording: &mut Vec<u8>, count: u32, page: &mut Page) {
    page.check(recording.extend_from_slice(&count.saturating_mul(24).to_be_bytes()));
    for number in 1..=u64::from(count) {
        let head = [0, 0, 0, 1, 0, 0, 0, 0, 0, 0, 0, 0, 0, 0, 0, 0];
        page.check(recording.extend_from_slice(&head));
        page.check(recording.extend_from_slice(&number.to_be_bytes()));
    }
}

/// Writes what is answered with each front of these octets as one more run, where that changes.
fn audit_fronts(recording: &mut Vec<u8>, run: &[u8], page: &mut Page) {
    let (mut differences, before) = (Differences::new(page.alloc()), recording.len());
    for len in 0..=run.len() {
        push_run(recording, &run[..len], page);
        read(recorded(recording), differences.next());
        recording.truncate(before);
        write_next(&mut differences, len as u64, page);
    }
}

/// Writes what a step on a recording answers, and nothing if it adds to it alone.
pub fn answer_recording(recording: &mut Vec<u8>, line: &str, page: &mut Page) {
    let (word, rest) = cut(line);
    let mut words = rest.split_whitespace();
    match word {
        "new" => page.check(replace(recording, b"SDLSAUD1")),
        "octets" => {
            let octets = page.octets(&mut words);
            page.check(recording.extend_from_slice(&octets));
        }
        "run" => push_run(recording, &page.octets(&mut words), page),
        "many" => push_many(recording, rest.parse().unwrap_or(0), page),
        "audit" => read(recorded(recording), page),
        "pieces" => read_in_pieces(recorded(recording), page),
        "fails" => read_failures(recorded(recording), page),
        "cuts" => read_cuts(recorded(recording), page),
        "fronts" => audit_fronts(recording, &page.octets(&mut words), page),
        _ => page.push_str("no step"),
    }
}
