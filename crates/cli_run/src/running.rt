// The word `run`: a recorded input is served with the unit of an image. At its end what was not used is released, and
// End is written.
ghost use Rattle.std.specs.Prelude.{◌≡◌, ◌≤◌, IsTrue, [], MatchResult, ◌↔◌, ◌<◌, ℕ, length, slice_index, List};
ghost use Rattle.sdls_outside.specs.Disk.{Leaves};
ghost use Rattle.sdls_outside.specs.Faults.{Rose};
ghost use Rattle.record_io.specs.Reading.{SourceSeen, source_seen};
ghost use Rattle.record_io.specs.Answers.{IsAnswer};
ghost use Rattle.record_io.specs.declared.item_cursor.Record.{Record};
ghost use Rattle.fsr_log.specs.Report.{report_of};
ghost use Rattle.run_promise.specs.Call.{call_seen, site_seen};
ghost use Rattle.run_promise.specs.Life.{EndsAndLives};
ghost use Rattle.run_promise.specs.Account.{end_status, end_answer};
ghost use Rattle.run_promise.specs.Log.{entries_of};
ghost use Rattle.unit_book.specs.Book.{BookView, IsKept};
ghost use Rattle.counter_table.specs.Worker.{view};
ghost use Rattle.law_workers.specs.Reporting.{Looked};
ghost use Rattle.law_workers.specs.Views.{entries_in};
ghost use Rattle.law_runs.specs.Refused.{refused_end};
ghost use Rattle.law_runs.specs.Ending.{Finishes, IsToldEnd, PutsEnd};
ghost use Rattle.cli_run.specs.Putting.{IsAlone, OfRun, PutsOctets};
ghost use Rattle.cli_run.specs.Running.{PutsRefusal, RunsUnit};
ghost use Rattle.cli_run.specs.Serving.{Comes};
ghost use Rattle.cli_run.specs.Reporting.{LogAnswers, NotesAll};

use crate::serving::Session;
use frame_workers::{Crew, Gate, LaneTask, LaneWork, Team};
use fsr_log::Log;
use kept_threads::{Fresh, Named};
use law_calls::{putting_settles, putting_works, visiting_works};
use law_image::shown_keeps_rules;
use law_runs::{refused_run_ends, run_ends_well};
use record_io::status::SITE_FAULT;
use record_io::{Answer, Outcome, Record, answer_header, code};
use run_promise::RunEnd;
use sdls_base::NoMemory;
use sdls_outside::{Failed, Site, Source};
use shared_unit::{Unit, Worker};
use std::alloc::Global;
use std::marker::Brand;
use std::sync::Wait;
use std::thread;
use std::thread::Threads;
use unit_book::{Book, BookFault, states_have_bounds};
use unit_image::OpenFault;

/// Why a run ends whose book was not opened.
fn refused_end(fault: OpenFault) -> RunEnd
    ensures { result ≡ refused_end fault }
{
    match fault {
        OpenFault::SiteFault(count) => RunEnd::SiteFault(count),
        OpenFault::Image(offset) => RunEnd::NoState(offset),
        OpenFault::NoMemory => RunEnd::NoMemory,
    }
}

/// The status of a run for which this End was put, or a front of it.
fn status_of(put: Result<(), Failed>, told: RunEnd) -> u8
    ensures { MatchResult put (λ _. result ≡ end_status told) (λ _. result ≡ SITE_FAULT) }
{
    match put {
        Ok(()) => told.status(),
        Err(Failed) => SITE_FAULT,
    }
}

/// Writes End where the book was not opened. `before` is the site's count of faults before the run.
fn refuse<O: Site>(alloc: Global, before: u64, fault: OpenFault, mut site: O) -> Outcome<O>
    requires later { before ≤ O.faults site }
    ensures puts { PutsRefusal O.told before fault (site_seen O.trace O.faults O.put_faults site)
        (site_seen O.trace O.faults O.put_faults result.site) result.status }
    ensures entries { result.entries.items ≡ [] }
{
    let now = site.faults();
    let told = told_end(before, now, now, refused_end(fault), Ok(()));
    let answer = answer_of(alloc, told, 0);
    let put = site.put(&answer_header(&answer));
    Outcome {
        status: status_of(put, told),
        site,
        entries: Vec::new(alloc),
    }
}

/// For contracts alone. Law: the image as it reads is one that a crash may leave. Here a function that starts threads
/// can cite it.
fn image_stays<O: Site>()
    ensures { (site : O) → IsTrue O.told → Leaves (O.trace site).now (O.trace site).now.image }
{}

/// A source that was read, with what came of it.
struct Back<'a, S, T> {
    source: &'a mut S,
    came: T,
}

impl<'a, S, T> Back<'a, S, T> {
    fn into_came(self) -> T
        ensures came { result ≡ self.entry.came }
        ensures source { self.exit.0.now ≡ self.entry.source.now }
    {
        let Back { source: _, came } = self;
        came
    }
}

/// Serves the input of a source by a crew, whose threads end with the call.
fn serve_by_crew<
    'a,
    'e,
    R: Threads + Wait + Sync,
    S: Source,
    O: Site + Send,
    G: Gate + Sync,
    N: Named + Send,
>(
    rt: &'e R,
    alloc: Global,
    source: &'a mut S,
    gate: &'e G,
    unit: &'e Unit<O>,
    worker: Worker<O>,
    log: Log,
    fresh: Fresh<LaneTask<'e, O>>,
) -> Back<'a, S, (Worker<O>, RunEnd)>
    requires book { fresh ≡ N.book }
    requires alone { IsAlone unit.now.counters unit.now.plan worker }
    requires no_log { (view worker).turn.known.log ≡ [] }
    requires none_made { (view worker).turn.made ≡ [] }
    requires none_noted { log ≡ report_of [] }
    ensures alone { IsAlone unit.now.counters unit.now.plan result.came.0 }
    ensures opening { (view result.came.0).turn.known.opening ≡ (view worker).turn.known.opening }
    ensures comes { let seen : SourceSeen = source_seen S.told S.left S.faults source.old
        in
        let after : SourceSeen = source_seen S.told S.left S.faults result.source.now in
        OfRun O.told (view worker) (λ begin. Comes seen after begin (view worker) (view result.came.0) result.came.1) }
    ensures same { result.source.ghost_name ≡ source.entry.ghost_name }
{
    let work = LaneWork::new(rt, alloc, gate);
    let work = &work;
    thread::scope(
        thread::scope_env(),
        rt,
        move |scope| -> Back<S, (Worker<O>, RunEnd)>
            requires book { fresh ≡ N.book }
            requires alone { IsAlone unit.now.counters unit.now.plan worker }
            requires no_log { (view worker).turn.known.log ≡ [] }
            requires none_made { (view worker).turn.made ≡ [] }
            requires none_noted { log ≡ report_of [] }
            ensures alone { IsAlone unit.entry.now.counters unit.entry.now.plan result.came.0 }
            ensures opening { (view result.came.0).turn.known.opening ≡ (view worker).turn.known.opening }
            ensures comes { let seen : SourceSeen = source_seen S.told S.left S.faults source.entry.now
                in
                let after : SourceSeen = source_seen S.told S.left S.faults result.source.now in
                OfRun O.told (view worker)
                (λ begin. Comes seen after begin (view worker) (view result.came.0) result.came.1) }
            ensures same { result.source.ghost_name ≡ source.entry.ghost_name }
        {
            let mut crew: Crew<_, R, O, G, N> = Team::new(scope, rt, alloc, work, fresh);
            let mut session = Session::new(alloc, unit, worker, log);
            let came = session.serve_input(rt, alloc, &mut crew, source);
            crew.end();
            let Session {
                unit: _,
                worker,
                log: _,
                piece: _,
                spare: _,
            } = session;
            Back {
                source,
                came: (worker, came),
            }
        },
    )
}

/// Serves the input of a source with a unit that was opened, and hands the unit back with what came. Where memory is
/// wanting for the log, nothing is read.
fn serve_with_log<R: Threads + Wait + Sync, S: Source, O: Site + Send, G: Gate + Sync>(
    rt: &R,
    alloc: Global,
    source: &mut S,
    gate: &G,
    unit: Unit<O>,
    worker: Worker<O>,
) -> (Unit<O>, Worker<O>, RunEnd)
    requires alone { IsAlone unit.counters unit.plan worker }
    requires no_log { (view worker).turn.known.log ≡ [] }
    requires none_made { (view worker).turn.made ≡ [] }
    ensures alone { IsAlone result.0.counters result.0.plan result.1 }
    ensures opening { (view result.1).turn.known.opening ≡ (view worker).turn.known.opening }
    ensures comes { let seen : SourceSeen = source_seen S.told S.left S.faults source.old
        in
        let after : SourceSeen = source_seen S.told S.left S.faults source.new in
        OfRun O.told (view worker) (λ begin. Comes seen after begin (view worker) (view result.1) result.2) }
{
    let Ok(log) = Log::new(alloc) else {
        return (unit, worker, RunEnd::NoMemory);
    };
    let fresh = Fresh::open();
    let back = serve_by_crew::<R, S, O, G, Brand>(
        rt, alloc, source, gate, &unit, worker, log, fresh,
    );
    let (worker, came) = back.into_came();
    (unit, worker, came)
}

/// Serves the input of a source with a unit that was opened, closes the unit, and ends the run. `before` is the site's
/// count of faults before the run.
fn serve_unit<R: Threads + Wait + Sync, S: Source, O: Site + Send, G: Gate + Sync>(
    rt: &R,
    alloc: Global,
    source: &mut S,
    gate: &G,
    unit: Unit<O>,
    worker: Worker<O>,
    before: u64,
) -> Outcome<O>
    requires alone { IsAlone unit.counters unit.plan worker }
    requires no_log { (view worker).turn.known.log ≡ [] }
    requires none_made { (view worker).turn.made ≡ [] }
    requires before { before ≤ (view worker).turn.known.opening.faults }
    ensures { let seen : SourceSeen = source_seen S.told S.left S.faults source.old
        in
        let after : SourceSeen = source_seen S.told S.left S.faults source.new in
        RunsUnit O.told before seen after (view worker) (site_seen O.trace O.faults O.put_faults result.site)
        result.entries.items result.status }
{
    let (unit, worker, came) = serve_with_log(rt, alloc, source, gate, unit, worker);
    let (book, words) = unit.close(worker);
    states_have_bounds();
    finish(alloc, book, &words, before, came)
}

/// Serves the recorded input of a source with the unit of the site's image: its records in segments, the lanes of a
/// segment at once, the answers in input order, and End behind them.
pub fn run_recorded<R: Threads + Wait + Sync, S: Source, O: Site + Send, G: Gate + Sync>(
    rt: &R,
    alloc: Global,
    source: &mut S,
    site: O,
    gate: &G,
) -> Outcome<O>
    ensures { EndsAndLives (call_seen (source_seen S.told S.left S.faults)
        (site_seen O.trace O.faults O.put_faults) O.told source.old source.new site result.site result.status
        result.entries.items) }
{
    let before = site.faults();
    image_stays::<O>();
    shown_keeps_rules();
    run_ends_well();
    refused_run_ends();
    match Unit::open(rt, alloc, site) {
        Ok((unit, worker)) => serve_unit(rt, alloc, source, gate, unit, worker, before),
        Err((fault, site)) => refuse(alloc, before, fault, site),
    }
}

/// Whether a count of faults rose.
fn rose(before: u64, now: u64) -> bool
    requires { before ≤ now }
    ensures { IsTrue result ↔ Rose before now }
{
    now > before || now == u64::MAX
}

/// The end that is told: a fault of the site that came before all answers were put; else what came; and behind an input
/// that ended, what the release met.
pub(crate) fn told_end(
    before: u64,
    last: u64,
    now: u64,
    came: RunEnd,
    released: Result<(), BookFault>,
) -> RunEnd
    requires last { before ≤ last }
    requires now { last ≤ now }
    ensures { IsToldEnd before last now came released result }
{
    if rose(before, last) {
        return RunEnd::SiteFault(last);
    }
    if came != RunEnd::Ended {
        return came;
    }
    if rose(last, now) {
        return RunEnd::SiteFault(now);
    }
    if released == Err(BookFault::SessionFull) {
        return RunEnd::SessionFull;
    }
    RunEnd::Ended
}

/// The End answer.
pub(crate) fn answer_of(alloc: Global, end: RunEnd, entries: u64) -> Answer
    ensures answer { result ≡ end_answer end entries }
    ensures widths { IsAnswer (end_answer end entries) }
{
    Answer::counting(alloc, code::END, end.status(), end.number(), entries)
}

/// Writes End, and answers the status. Where a put failed before, nothing is put.
fn put_end<O: Site>(alloc: Global, book: &mut Book<O>, came: RunEnd, told: RunEnd) -> u8
    requires kept { IsKept O.told book.old }
    ensures kept { IsKept O.told book.new }
    ensures ends { PutsEnd O.told came told book.old book.new result }
    ensures widths { IsAnswer (end_answer told (length (entries_of book.old.log))) }
{
    let header = answer_header(&answer_of(alloc, told, book.count()));
    if came == RunEnd::PutFailed {
        return SITE_FAULT;
    }
    match book.put(&header) {
        Ok(()) => told.status(),
        Err(_) => SITE_FAULT,
    }
}

/// Releases what the run did not use, and writes End. `before` is the site's count of faults before the run, `words`
/// the rows' words `next`.
pub fn finish<O: Site>(
    alloc: Global,
    mut book: Book<O>,
    words: &[u64],
    before: u64,
    came: RunEnd,
) -> Outcome<O>
    requires kept { IsKept O.told book }
    requires words { length book.state.keys ≤ length words.now }
    requires some { (place : ℕ) → place < length book.state.keys → 1 ≤ slice_index words.now place }
    requires later { before ≤ book.site.faults }
    ensures finishes { Finishes O.told before words.now came book
        (site_seen O.trace O.faults O.put_faults result.site) result.entries.items result.status }
{
    let last = book.faults();
    let released = book.release(words);
    let told = told_end(before, last, book.faults(), came, released);
    let status = put_end(alloc, &mut book, came, told);
    let (site, entries) = book.into_site();
    Outcome {
        status,
        site,
        entries,
    }
}

/// Notes the answers to records, in their order. It takes no memory.
pub(crate) fn note_all(log: &mut Log, records: &[Record], answers: &[Answer])
    requires few { length answers.now ≤ length records.now }
    ensures { NotesAll records.now answers.now log.old log.new }
{
    for place in 0..answers.len() {
        let task = &records[place];
        log.note(task.index, task.kind, &answers[place]);
    }
}

/// The answer of the log to a monitoring message, when the run has so many entries.
pub(crate) fn log_answer(alloc: Global, log: &Log, message: &[u8], entries: u64) -> Answer
    ensures { LogAnswers log.now message.now entries result }
{
    match log.answer(alloc, message) {
        Ok(Ok(reply)) => Answer::numbered(code::MONITORED, 0, 0, entries, reply),
        Ok(Err(offset)) => {
            Answer::counting(alloc, code::MONITOR_FAULT, 0, u64::from(offset), entries)
        }
        Err(NoMemory) => Answer::counting(alloc, code::NO_MEMORY, 0, 0, 0),
    }
}

/// Writes octets. Nobody else does anything meanwhile, since the worker has all shares.
pub(crate) fn put_alone<R: Wait, O: Site>(
    rt: &R,
    unit: &Unit<O>,
    worker: &mut Worker<O>,
    octets: &[u8],
) -> Result<(), BookFault>
    requires alone { IsAlone unit.now.counters unit.now.plan worker.old }
    ensures alone { IsAlone unit.now.counters unit.now.plan worker.new }
    ensures puts { PutsOctets O.told octets.now result (view worker.old) (view worker.new) }
{
    putting_works::<O>();
    putting_settles::<O>();
    unit.put(rt, worker, octets)
}

/// How many entries the run has. Nobody else does anything meanwhile, since the worker has all shares.
pub(crate) fn count_alone<R: Wait, O: Site>(rt: &R, unit: &Unit<O>, worker: &mut Worker<O>) -> u64
    requires alone { IsAlone unit.now.counters unit.now.plan worker.old }
    ensures alone { IsAlone unit.now.counters unit.now.plan worker.new }
    ensures counted { result ≡ length (entries_in (view worker.new)) }
    ensures opening { (view worker.new).turn.known.opening ≡ (view worker.old).turn.known.opening }
    ensures looked { (tasks : List Record) → OfRun O.told (view worker.old)
        (λ begin. Looked begin (view worker.old) (view worker.new) tasks) }
{
    visiting_works::<O>();
    unit.count(rt, worker)
}
