// Segments that one worker serves, one after the other, to the end of the input, and the answers that it writes.
ghost use Rattle.std.specs.Prelude.{◌≡◌, ◌≢◌, ◌<◌, ℕ, List, [], ◌∷◌, IfNone, ◌↔◌, ◌+◌, ◌≤◌, ◌++◌, IsTrue, length};
ghost use Rattle.std.specs.Prelude.{vec_len, vec_capacity};
ghost use Rattle.std.specs.List.{All};
ghost use Rattle.std.specs.Arc.{arc_value};
ghost use Rattle.record_io.specs.declared.reader.TheConstants.{LANES};
ghost use Rattle.record_io.specs.declared.item_cursor.Record.{Record};
ghost use Rattle.record_io.specs.Input.{Item};
ghost use Rattle.record_io.specs.Reading.{first_standing, IsReading, SourceSeen, source_seen};
ghost use Rattle.record_io.specs.Answers.{answer_octets, answers_octets};
ghost use Rattle.fsr_log.specs.Report.{report_of};
ghost use Rattle.run_promise.specs.Call.{Begin};
ghost use Rattle.counter_table.specs.Worker.{view};
ghost use Rattle.counter_table.specs.declared.view.View.{View};
ghost use Rattle.law_workers.specs.Deeds.{Ascend};
ghost use Rattle.law_workers.specs.Began.{BeganWith};
ghost use Rattle.frame_workers.specs.Permits.{AreKept};
ghost use Rattle.cli_run.specs.Putting.{IsAlone, OfRun, PutsOctets, TakesOctets};
ghost use Rattle.cli_run.specs.Serving.{came_after, Comes, end_of_stop, EndsAs, Goes, Leads, served_as, ServesSegment};

use crate::running::{count_alone, log_answer, note_all, put_alone};
use frame_workers::{Crew, Gate, KeptPermits, run_segment_by};
use fsr_log::Log;
use kept_threads::Named;
use law_workers::looking_reports;
use record_io::{
    ANSWER_HEADER, Answer, Reader, Record, RecordKind, SegmentEnd, Spare, answer_header,
    answers_have_widths,
};
use run_promise::RunEnd;
use sdls_base::NoMemory;
use sdls_outside::{Site, Source};
use shared_unit::{Unit, Worker};
use std::alloc::{AllocError, Global};
use std::sync::{Arc, Wait};
use std::thread::Threads;
use unit_book::BookFault;

/// Why no more records are served.
#[derive(Clone, Copy, Debug, PartialEq, Eq)]
pub enum Stop {
    /// Memory ran out.
    NoMemory,
    /// The history is full.
    Full,
    /// A put failed.
    PutFailed,
}

fn end_of(stop: Stop) -> RunEnd
    ensures { result ≡ end_of_stop stop }
{
    match stop {
        Stop::NoMemory => RunEnd::NoMemory,
        Stop::Full => RunEnd::SessionFull,
        Stop::PutFailed => RunEnd::PutFailed,
    }
}

/// Whether more records are served, behind answers that were put, or a front of them.
fn stop_after(put: Result<(), BookFault>, full: bool) -> Result<(), Stop>
    ensures { result ≡ served_as put full }
{
    match put {
        Ok(()) if full => Err(Stop::Full),
        Ok(()) => Ok(()),
        Err(_) => Err(Stop::PutFailed),
    }
}

/// What served records say of the run: nothing, where the input may go on.
fn came_after(served: Result<(), Stop>) -> Option<RunEnd>
    ensures { result ≡ came_after served }
{
    match served {
        Err(stop) => Some(end_of(stop)),
        Ok(()) => None,
    }
}

impl<'u, O: Site + Send> Session<'u, O> {
    /// Answers a monitoring message by the log, notes the answer and writes it.
    fn report<R: Wait>(&mut self, rt: &R, alloc: Global, task: &Record) -> Result<(), Stop>
        requires alone { IsAlone self.old.unit.now.counters self.old.unit.now.plan self.old.worker }
        requires kind { task.now.kind ≡ RecordKind.Monitor }
        ensures alone { IsAlone self.new.unit.now.counters self.new.unit.now.plan self.new.worker }
        ensures same { self.new.unit.now ≡ self.old.unit.now }
        ensures opening { (view self.new.worker).turn.known.opening ≡ (view self.old.worker).turn.known.opening }
        ensures serves { OfRun O.told (view self.old.worker) (λ begin. ServesSegment begin (task.now ∷ []) result
            (view self.old.worker) (view self.new.worker) self.old.log self.new.log) }
    {
        let entries = count_alone(rt, self.unit, &mut self.worker);
        let answer = log_answer(alloc, &self.log, task.octets.as_slice(), entries);
        self.log.note(task.index, task.kind, &answer);
        let answers = [answer];
        answers_have_widths(&answers);
        let put = self.put_answers(rt, &answers);
        looking_reports();
        stop_after(put, false)
    }

    /// What the end of a segment that was served says of the run. A Monitor record that ended it is answered.
    fn end_segment<R: Wait>(&mut self, rt: &R, alloc: Global, end: SegmentEnd) -> Option<RunEnd>
        requires alone { IsAlone self.old.unit.now.counters self.old.unit.now.plan self.old.worker }
        requires kind { (task : Record) → end ≡ SegmentEnd.Monitor task → task.kind ≡ RecordKind.Monitor }
        ensures alone { IsAlone self.new.unit.now.counters self.new.unit.now.plan self.new.worker }
        ensures same { self.new.unit.now ≡ self.old.unit.now }
        ensures opening { (view self.new.worker).turn.known.opening ≡ (view self.old.worker).turn.known.opening }
        ensures ends { OfRun O.told (view self.old.worker) (λ begin. EndsAs begin end result (view self.old.worker)
            (view self.new.worker) self.old.log self.new.log) }
    {
        match end {
            SegmentEnd::More => None,
            SegmentEnd::Monitor(task) => came_after(self.report(rt, alloc, &task)),
            SegmentEnd::End => Some(RunEnd::Ended),
            SegmentEnd::Malformed(offset) => Some(RunEnd::Malformed(offset)),
            SegmentEnd::SourceFault(count) => Some(RunEnd::SourceFault(count)),
        }
    }

    /// Handles the records of a segment, and notes and writes their answers in input order.
    fn serve<'s, 'e: 's, E, R: Threads + Wait + Sync, G: Gate + Sync, N: Named + Send + 's>(
        &mut self,
        rt: &R,
        alloc: Global,
        crew: &mut Crew<'s, 'e, E, R, O, G, N>,
        kept: &mut KeptPermits,
        records: &[Record],
        shared: &Arc<Vec<Record>, Global>,
    ) -> Result<(), Stop>
    where
        'u: 'e,
        requires same { records.now ≡ (arc_value shared.now).items }
        requires alone { IsAlone self.old.unit.now.counters self.old.unit.now.plan self.old.worker }
        requires lanes { All (λ (task : Record). task.lane < LANES) records.now }
        requires plain { All (λ (task : Record). task.kind ≢ RecordKind.Monitor) records.now }
        requires ascend { Ascend records.now }
        requires kept { AreKept kept.old (view self.old.worker).turn }
        ensures alone { IsAlone self.new.unit.now.counters self.new.unit.now.plan self.new.worker }
        ensures same { self.new.unit.now ≡ self.old.unit.now }
        ensures opening { (view self.new.worker).turn.known.opening ≡ (view self.old.worker).turn.known.opening }
        ensures serves { OfRun O.told (view self.old.worker)
            (λ begin. ServesSegment begin records.now result (view self.old.worker) (view self.new.worker)
            self.old.log self.new.log) }
        ensures kept { AreKept kept.new (view self.new.worker).turn }
    {
        let segment = match run_segment_by(
            crew,
            alloc,
            self.unit,
            &mut self.worker,
            records,
            shared,
            kept,
            &mut self.spare,
        ) {
            Ok(segment) => segment,
            Err(NoMemory) => return Err(Stop::NoMemory),
        };
        note_all(&mut self.log, records, &segment.answers);
        let put = self.put_answers(rt, &segment.answers);
        answers_have_widths(&segment.answers);
        self.spare.keep_answers(segment.answers);
        stop_after(put, segment.full)
    }

    /// Serves records that were read, and hands their list back to the reader.
    fn serve_read<'s, 'e: 's, E, R: Threads + Wait + Sync, G: Gate + Sync, N: Named + Send + 's>(
        &mut self,
        rt: &R,
        alloc: Global,
        crew: &mut Crew<'s, 'e, E, R, O, G, N>,
        kept: &mut KeptPermits,
        reader: &mut Reader,
        records: Vec<Record>,
    ) -> Result<(), Stop>
    where
        'u: 'e,
        requires alone { IsAlone self.old.unit.now.counters self.old.unit.now.plan self.old.worker }
        requires lanes { All (λ (task : Record). task.lane < LANES) records.items }
        requires plain { All (λ (task : Record). task.kind ≢ RecordKind.Monitor) records.items }
        requires ascend { Ascend records.items }
        requires kept { AreKept kept.old (view self.old.worker).turn }
        ensures alone { IsAlone self.new.unit.now.counters self.new.unit.now.plan self.new.worker }
        ensures same { self.new.unit.now ≡ self.old.unit.now }
        ensures opening { (view self.new.worker).turn.known.opening ≡ (view self.old.worker).turn.known.opening }
        ensures serves { OfRun O.told (view self.old.worker)
            (λ begin. ServesSegment begin records.items result (view self.old.worker) (view self.new.worker)
            self.old.log self.new.log) }
        ensures kept { AreKept kept.new (view self.new.worker).turn }
        ensures read { reader.new ≡ reader.old }
    {
        let Ok(shared) = Arc::new(alloc, records) else {
            return Err(Stop::NoMemory);
        };
        let served = self.serve(rt, alloc, crew, kept, shared.as_slice(), &shared);
        if let Ok(records) = Arc::try_unwrap(shared) {
            reader.take_back(records);
        }
        served
    }

    /// Reads the next segment and serves it. `None`: the input may go on.
    fn serve_next<
        's,
        'e: 's,
        E,
        R: Threads + Wait + Sync,
        S: Source,
        G: Gate + Sync,
        N: Named + Send + 's,
    >(
        &mut self,
        rt: &R,
        alloc: Global,
        crew: &mut Crew<'s, 'e, E, R, O, G, N>,
        kept: &mut KeptPermits,
        source: &mut S,
        reader: &mut Reader,
    ) -> Option<RunEnd>
    where
        'u: 'e,
        requires alone { IsAlone self.old.unit.now.counters self.old.unit.now.plan self.old.worker }
        requires reading { let before : SourceSeen =
            source_seen S.told S.left S.faults source.old in
            (start : SourceSeen) × (items : List Item) × (read : List ℕ)
            × IsReading start before reader.old items read }
        requires kept { AreKept kept.old (view self.old.worker).turn }
        ensures alone { IsAlone self.new.unit.now.counters self.new.unit.now.plan self.new.worker }
        ensures same { self.new.unit.now ≡ self.old.unit.now }
        ensures opening { (view self.new.worker).turn.known.opening ≡ (view self.old.worker).turn.known.opening }
        ensures leads { let before : SourceSeen = source_seen S.told S.left S.faults source.old in
            let after : SourceSeen = source_seen S.told S.left S.faults source.new in
            (start : SourceSeen) (begin : Begin) (first : View)
            → BeganWith O.told begin (view self.old.worker).turn.known.opening
            → Goes start before reader.old begin first (view self.old.worker) self.old.log
            → Leads start after reader.new begin first (view self.new.worker) self.new.log result }
        ensures forth { IfNone result (reader.old.taken < reader.new.taken) }
        ensures kept { AreKept kept.new (view self.new.worker).turn }
    {
        let (records, end) = match reader.next_segment(alloc, source) {
            Ok(read) => read,
            Err(NoMemory) => return Some(RunEnd::NoMemory),
        };
        match self.serve_read(rt, alloc, crew, kept, reader, records) {
            Ok(()) => self.end_segment(rt, alloc, end),
            Err(stop) => Some(end_of(stop)),
        }
    }

    /// Reads and serves segments until the input ends, or something else does.
    pub fn serve_input<
        's,
        'e: 's,
        E,
        R: Threads + Wait + Sync,
        S: Source,
        G: Gate + Sync,
        N: Named + Send + 's,
    >(
        &mut self,
        rt: &R,
        alloc: Global,
        crew: &mut Crew<'s, 'e, E, R, O, G, N>,
        source: &mut S,
    ) -> RunEnd
    where
        'u: 'e,
        requires alone { IsAlone self.old.unit.now.counters self.old.unit.now.plan self.old.worker }
        requires no_log { (view self.old.worker).turn.known.log ≡ [] }
        requires none_made { (view self.old.worker).turn.made ≡ [] }
        requires none_noted { self.old.log ≡ report_of [] }
        ensures alone { IsAlone self.new.unit.now.counters self.new.unit.now.plan self.new.worker }
        ensures same { self.new.unit.now ≡ self.old.unit.now }
        ensures opening { (view self.new.worker).turn.known.opening ≡ (view self.old.worker).turn.known.opening }
        ensures comes { let before : SourceSeen = source_seen S.told S.left S.faults source.old in
            let after : SourceSeen = source_seen S.told S.left S.faults source.new in
            (begin : Begin) → BeganWith O.told begin (view self.old.worker).turn.known.opening
            → Comes before after begin (view self.old.worker) (view self.new.worker) result }
    {
        let mut reader = Reader::new(alloc);
        let mut kept = KeptPermits::new(alloc);
        'segments: loop {
            match self.serve_next(rt, alloc, crew, &mut kept, source, &mut reader) {
                None => {}
                Some(end) => return end,
            }
        }
    }
}

/// The octets of answers that are put at once, at most.
const PIECE: usize = 65536;

/// A unit with the one worker that serves a run, the log of the answers so far, and the octets of answers that are to
/// be put in one piece.
pub struct Session<'e, O: Site> {
    pub(crate) unit: &'e Unit<O>,
    pub(crate) worker: Worker<O>,
    pub(crate) log: Log,
    pub(crate) piece: Vec<u8>,
    pub(crate) spare: Spare,
}

/// Room for a piece of answers. If memory for it runs out, there is none, and answers are put alone.
fn room_for_answers(alloc: Global) -> Vec<u8>
    ensures { result.items ≡ [] }
{
    match Vec::with_capacity(alloc, PIECE) {
        Ok(room) => room,
        Err(AllocError) => Vec::new(alloc),
    }
}

/// Adds octets for which there is room.
fn extend_within(items: &mut Vec<u8>, octets: &[u8])
    requires { vec_len items.old + length octets.now ≤ vec_capacity items.old }
    ensures items { items.new.items ≡ items.old.items ++ octets.now }
    ensures len { vec_len items.new ≡ vec_len items.old + length octets.now }
    ensures capacity { vec_capacity items.old ≤ vec_capacity items.new }
{
    let Ok(()) = items.extend_from_slice(octets) else {
        unreachable!()
    };
}

impl<'e, O: Site> Session<'e, O> {
    /// The session of a unit with its one worker and the log of a run. Nothing was put yet.
    pub fn new(alloc: Global, unit: &'e Unit<O>, worker: Worker<O>, log: Log) -> Session<'e, O>
        ensures unit { result.unit.now ≡ unit.now }
        ensures worker { result.worker ≡ worker }
        ensures log { result.log ≡ log }
        ensures begun { result.piece.items ≡ [] }
    {
        Session {
            unit,
            worker,
            log,
            piece: room_for_answers(alloc),
            spare: Spare::new(alloc),
        }
    }

    /// Writes the piece, and begins another.
    fn put_piece<R: Wait>(&mut self, rt: &R) -> Result<(), BookFault>
        requires alone { IsAlone self.old.unit.now.counters self.old.unit.now.plan self.old.worker }
        ensures alone { IsAlone self.new.unit.now.counters self.new.unit.now.plan self.new.worker }
        ensures same { self.new.unit.now ≡ self.old.unit.now }
        ensures logged { self.new.log ≡ self.old.log }
        ensures begun { self.new.piece.items ≡ [] }
        ensures puts { PutsOctets O.told self.old.piece.items result (view self.old.worker) (view self.new.worker) }
    {
        let put = put_alone(rt, self.unit, &mut self.worker, &self.piece);
        self.piece.clear();
        put
    }

    /// Writes an answer, its header before its body.
    fn put_answer<R: Wait>(&mut self, rt: &R, answer: &Answer) -> Result<(), BookFault>
        requires alone { IsAlone self.old.unit.now.counters self.old.unit.now.plan self.old.worker }
        ensures alone { IsAlone self.new.unit.now.counters self.new.unit.now.plan self.new.worker }
        ensures same { self.new.unit.now ≡ self.old.unit.now }
        ensures logged { self.new.log ≡ self.old.log }
        ensures piece { self.new.piece ≡ self.old.piece }
        ensures puts { PutsOctets O.told (answer_octets answer.now) result (view self.old.worker)
            (view self.new.worker) }
    {
        match put_alone(rt, self.unit, &mut self.worker, &answer_header(answer)) {
            Ok(()) => put_alone(rt, self.unit, &mut self.worker, answer.body.as_slice()),
            Err(fault) => Err(fault),
        }
    }

    /// Whether the piece has room for an answer.
    fn has_room(&self, answer: &Answer) -> bool
        ensures { IsTrue result ↔ (vec_len self.now.piece + (ANSWER_HEADER + length answer.now.body)
            ≤ vec_capacity self.now.piece) }
    {
        let room = self.piece.capacity() - self.piece.len();
        ANSWER_HEADER <= room && answer.body.as_slice().len() <= room - ANSWER_HEADER
    }

    /// Adds an answer to the piece, its header before its body.
    fn keep_answer(&mut self, answer: &Answer)
        requires room { vec_len self.old.piece + (ANSWER_HEADER + length answer.now.body)
            ≤ vec_capacity self.old.piece }
        ensures piece { self.new.piece.items ≡ self.old.piece.items ++ answer_octets answer.now }
        ensures others { (self.new.unit.now ≡ self.old.unit.now) × (self.new.worker ≡ self.old.worker) }
        ensures logged { self.new.log ≡ self.old.log }
    {
        extend_within(&mut self.piece, &answer_header(answer));
        extend_within(&mut self.piece, answer.body.as_slice());
    }

    /// Takes an answer over behind an empty piece: into it, or alone where it never has room.
    fn take_first<R: Wait>(&mut self, rt: &R, answer: &Answer) -> Result<(), BookFault>
        requires alone { IsAlone self.old.unit.now.counters self.old.unit.now.plan self.old.worker }
        requires empty { self.old.piece.items ≡ [] }
        ensures alone { IsAlone self.new.unit.now.counters self.new.unit.now.plan self.new.worker }
        ensures same { self.new.unit.now ≡ self.old.unit.now }
        ensures logged { self.new.log ≡ self.old.log }
        ensures takes { TakesOctets O.told (answer_octets answer.now) result [] self.new.piece.items
            (view self.old.worker) (view self.new.worker) }
    {
        if self.has_room(answer) {
            self.keep_answer(answer);
            return Ok(());
        }
        self.put_answer(rt, answer)
    }

    /// Takes an answer over: into the piece, which is put before where it has no room.
    fn take_answer<R: Wait>(&mut self, rt: &R, answer: &Answer) -> Result<(), BookFault>
        requires alone { IsAlone self.old.unit.now.counters self.old.unit.now.plan self.old.worker }
        ensures alone { IsAlone self.new.unit.now.counters self.new.unit.now.plan self.new.worker }
        ensures same { self.new.unit.now ≡ self.old.unit.now }
        ensures logged { self.new.log ≡ self.old.log }
        ensures takes { TakesOctets O.told (answer_octets answer.now) result self.old.piece.items self.new.piece.items
            (view self.old.worker) (view self.new.worker) }
    {
        if self.has_room(answer) {
            self.keep_answer(answer);
            return Ok(());
        }
        match self.put_piece(rt) {
            Ok(()) => self.take_first(rt, answer),
            Err(fault) => Err(fault),
        }
    }

    /// Writes answers, one after the other, in pieces.
    pub fn put_answers<R: Wait>(&mut self, rt: &R, answers: &[Answer]) -> Result<(), BookFault>
        requires alone { IsAlone self.old.unit.now.counters self.old.unit.now.plan self.old.worker }
        ensures alone { IsAlone self.new.unit.now.counters self.new.unit.now.plan self.new.worker }
        ensures same { self.new.unit.now ≡ self.old.unit.now }
        ensures logged { self.new.log ≡ self.old.log }
        ensures puts { PutsOctets O.told (answers_octets answers.now) result (view self.old.worker)
            (view self.new.worker) }
    {
        self.piece.clear();
        for answer in answers {
            match self.take_answer(rt, answer) {
                Ok(()) => {}
                Err(fault) => return Err(fault),
            }
        }
        self.put_piece(rt)
    }
}
