// A lane of a segment: its records one by one, and the permits that it handles frames under and keeps.
ghost use Rattle.std.specs.Prelude.{◌≡◌, ◌≢◌, ◌<◌, ℕ, All, length, slice_index_or, ◌≤◌, ◌+◌, [], IfOk, vec_capacity};
ghost use Rattle.std.specs.Prelude.{Contains};
ghost use Rattle.std.specs.List.{list_any};
ghost use Rattle.frame_shield.specs.declared.protecting_frames.TheConstants.{FRAME_ROOM};
ghost use Rattle.record_io.specs.declared.reader.RecordKind.TheVariants.{Monitor, Command};
ghost use Rattle.record_io.specs.declared.item_cursor.Record.{Record};
ghost use Rattle.record_io.specs.declared.reader.RecordKind.TheVariants as kinds;
ghost use Rattle.counter_table.specs.Worker.{view};
ghost use Rattle.counter_table.specs.declared.view.Turn.{Turn};
ghost use Rattle.law_workers.specs.Deeds.{Ascend};
ghost use Rattle.shared_unit.specs.Turn.{IsReady};
ghost use Rattle.shared_unit.specs.Opening.{IsOpenTrueIfKept};
ghost use Rattle.shared_unit.specs.Protecting.{IsTrueIfKept};
ghost use Rattle.frame_workers.specs.Lanes.{CanRun, HasRun};
ghost use Rattle.frame_workers.specs.Permits.{AreTrueFor, AreKept, is_commanded, KeepsNone};
ghost use Rattle.frame_workers.specs.Records.{HandlesRecord};

use crate::answering::{
    WINDOW_OCTETS, answer_no_memory, commanded_answer, opened_answer, protected_answer,
};
use frame_shield::FRAME_ROOM;
use record_io::{Answer, LANES, Record, RecordKind, Spare};
use sdls_outside::Site;
use shared_unit::{OpenPermit, Permit, SharedBook, Unit, Worker};
use std::alloc::{AllocError, Global};
use std::sync::Wait;
use std::thread::Threads;
use std::{mem, thread};

/// A lane of a segment: its number, its worker with what the worker handles frames under, and the answers to its
/// records, up to one for which the history was full. It is handed from thread to thread, so it has few octets: the
/// room in which frames are protected is made where it runs.
pub struct Lane<B> {
    pub(crate) number: u8,
    pub(crate) worker: counter_table::Worker<B>,
    /// The permits that the lane keeps, at each of its places, or none where there are no places.
    pub(crate) kept: Vec<Permits>,
    pub(crate) answers: Vec<Answer>,
    pub(crate) full: bool,
    /// Lists for the bodies of answers.
    pub(crate) spare: Spare,
}

impl<B> Drop for Lane<B> {
    fn drop(self) {
        let Lane {
            number: _,
            worker: _,
            kept: _,
            answers: _,
            full: _,
            spare: _,
        } = self;
    }
}

impl<B> Lane<B> {
    pub(crate) fn into_parts(self) -> (counter_table::Worker<B>, Vec<Answer>, Spare, Vec<Permits>)
        ensures worker { result.0 ≡ self.worker }
        ensures answers { result.1 ≡ self.answers }
        ensures kept { result.3 ≡ self.kept }
    {
        let Lane {
            number: _,
            worker,
            kept,
            answers,
            full: _,
            spare,
        } = self;
        (worker, answers, spare, kept)
    }
}

/// Handles the records of a lane, one after the other, until the history is full.
pub(crate) fn run_lane<R: Wait, O: Site, G: Gate>(
    rt: &R,
    alloc: Global,
    unit: &Unit<O>,
    records: &[Record],
    gate: &G,
    lane: &mut Lane<SharedBook<O>>,
)
    requires plain { All (λ (task : Record). task.kind ≢ Monitor) records.now }
    requires ascend { Ascend records.now }
    requires can { CanRun (IsReady unit.now.counters unit.now.plan) records.now lane.old }
    ensures ran { HasRun (IsReady unit.now.counters unit.now.plan) O.told records.now lane.old lane.new }
{
    let mut room = [0; FRAME_ROOM];
    for task in records {
        if task.lane != lane.number {
            continue;
        }
        gate.pass(task.lane, task.index);
        let answer = handle(
            rt,
            alloc,
            unit,
            &mut lane.worker,
            &mut lane.kept,
            &mut room,
            &mut lane.spare,
            task,
        );
        gate.done(task.lane, task.index);
        match answer {
            Some(answer) => lane.answers.push_reserved(answer),
            None => {
                lane.full = true;
                return;
            }
        }
    }
}

/// Runs all lanes at the same time. For one lane no thread is started.
pub(crate) fn run_lanes<R: Threads + Wait + Sync, O: Site + Send, G: Gate + Sync>(
    rt: &R,
    alloc: Global,
    unit: &Unit<O>,
    records: &[Record],
    gate: &G,
    lanes: &mut [Lane<SharedBook<O>>],
)
    requires plain { All (λ (task : Record). task.kind ≢ Monitor) records.now }
    requires ascend { Ascend records.now }
    requires can { All (CanRun (IsReady unit.now.counters unit.now.plan) records.now) lanes.old }
    ensures ran { (k : ℕ) (d : _) → k < length lanes.old
        → HasRun (IsReady unit.now.counters unit.now.plan) O.told records.now
        (slice_index_or lanes.old k d) (slice_index_or lanes.new k d) }
    ensures many { length lanes.new ≡ length lanes.old }
{
    if let [lane] = lanes {
        run_lane(rt, alloc, unit, records, gate, lane);
        return;
    }
    let count = lanes.len().max(1);
    thread::for_each_mut(
        rt,
        lanes,
        count,
        &|_, lane| { run_lane(rt, alloc, unit, records, gate, lane) },
    );
}

/// What a caller may see of the work while it goes on: called before and after each record that a lane handles. A
/// monitoring message is none: it is answered between segments, and no gate is called for it.
///
/// `lane` is the lane of the record, `index` its number in the input. The unit relies on nothing that these calls do.
pub trait Gate {
    /// Called before the record is handled.
    fn pass(&self, lane: u8, index: u64);

    /// Called after the record was handled.
    fn done(&self, lane: u8, index: u64);
}

/// A gate that holds nobody.
pub struct OpenGate;

impl Gate for OpenGate {
    fn pass(&self, _lane: u8, _index: u64) {}

    fn done(&self, _lane: u8, _index: u64) {}
}

/// What a frame gains at most: security header and MAC, 30 octets, and the error control field.
const MOST_GAIN: usize = 32;

/// An empty body, with room for a frame of so many octets once it is protected.
fn body_for(alloc: Global, spare: &mut Spare, clear: &[u8]) -> Result<Vec<u8>, AllocError>
    ensures empty { IfOk result (λ body. body.items ≡ []) }
    ensures room { IfOk result (λ body. length clear.now + MOST_GAIN ≤ vec_capacity body) }
{
    spare.take_empty(alloc, clear.len() + MOST_GAIN)
}

/// Protects the record's frame in the room, which is of the lane. The answer's body is taken first, so that no number
/// is used for a frame whose answer wants memory.
fn protect<R: Wait, O: Site>(
    rt: &R,
    alloc: Global,
    unit: &Unit<O>,
    worker: &mut Worker<O>,
    kept: &mut Option<Permit>,
    room: &mut [u8],
    spare: &mut Spare,
    task: &Record,
) -> Option<Answer>
    requires kind { task.now.kind ≡ kinds.Protect }
    requires ready { IsReady unit.now.counters unit.now.plan worker.old }
    requires kept { IsTrueIfKept kept.old (view worker.old).turn }
    requires room { length room.old ≡ FRAME_ROOM }
    ensures kept { IsTrueIfKept kept.new (view worker.new).turn }
    ensures handles { HandlesRecord O.told unit.now.counters unit.now.plan worker.old worker.new task.now result }
{
    let clear = task.octets.as_slice();
    let Ok(body) = body_for(alloc, spare, clear) else {
        return Some(answer_no_memory(alloc));
    };
    let protected = unit.protect(rt, worker, kept, task.link, clear, room);
    protected_answer(alloc, protected, room, body)
}

/// A copy of the octets, with room for the answer that names a window.
fn copy_octets(alloc: Global, spare: &mut Spare, octets: &[u8]) -> Result<Vec<u8>, AllocError>
    ensures items { IfOk result (λ copy. copy.items ≡ octets.now) }
    ensures room { IfOk result (λ copy. WINDOW_OCTETS ≤ vec_capacity copy) }
{
    let mut copy = spare.take_empty(alloc, octets.len().max(WINDOW_OCTETS))?;
    copy.extend_from_slice(octets)?;
    Ok(copy)
}

/// Opens the record's frame in the room of its answer.
fn open<R: Wait, O: Site>(
    rt: &R,
    alloc: Global,
    unit: &Unit<O>,
    worker: &mut Worker<O>,
    kept: &mut Option<OpenPermit>,
    spare: &mut Spare,
    task: &Record,
) -> Option<Answer>
    requires kind { task.now.kind ≡ kinds.Open }
    requires ready { IsReady unit.now.counters unit.now.plan worker.old }
    requires kept { IsOpenTrueIfKept kept.old (view worker.old).turn }
    ensures kept { IsOpenTrueIfKept kept.new (view worker.new).turn }
    ensures handles { HandlesRecord O.told unit.now.counters unit.now.plan worker.old worker.new task.now result }
{
    let octets = task.octets.as_slice();
    let Ok(mut frame) = copy_octets(alloc, spare, octets) else {
        return Some(answer_no_memory(alloc));
    };
    let opened = unit.open_frame(
        rt,
        worker,
        kept,
        task.index,
        task.link,
        octets,
        frame.as_mut_slice(),
    );
    opened_answer(alloc, opened, frame)
}

/// Does the record's command.
fn command<R: Wait, O: Site>(
    rt: &R,
    alloc: Global,
    unit: &Unit<O>,
    worker: &mut Worker<O>,
    task: &Record,
) -> Option<Answer>
    requires kind { task.now.kind ≡ kinds.Command }
    requires ready { IsReady unit.now.counters unit.now.plan worker.old }
    ensures { HandlesRecord O.told unit.now.counters unit.now.plan worker.old worker.new task.now result }
{
    let commanded = unit.command(rt, worker, task.index, task.octets.as_slice());
    commanded_answer(alloc, commanded)
}

/// Handles a record, none of a monitoring message, under the permits that are kept for frames like its own.
fn handle_under<R: Wait, O: Site>(
    rt: &R,
    alloc: Global,
    unit: &Unit<O>,
    worker: &mut Worker<O>,
    kept: &mut Permits,
    room: &mut [u8],
    spare: &mut Spare,
    task: &Record,
) -> Option<Answer>
    requires plain { task.now.kind ≢ kinds.Monitor }
    requires ready { IsReady unit.now.counters unit.now.plan worker.old }
    requires kept { AreTrueFor kept.old (view worker.old).turn }
    requires room { length room.old ≡ FRAME_ROOM }
    ensures kept { AreTrueFor kept.new (view worker.new).turn }
    ensures handles { HandlesRecord O.told unit.now.counters unit.now.plan worker.old worker.new task.now result }
{
    match task.kind {
        RecordKind::Protect => protect(
            rt,
            alloc,
            unit,
            worker,
            &mut kept.to_protect,
            room,
            spare,
            task,
        ),
        RecordKind::Open => open(rt, alloc, unit, worker, &mut kept.to_open, spare, task),
        RecordKind::Command => command(rt, alloc, unit, worker, task),
        RecordKind::Monitor => unreachable!(),
    }
}

/// Handles a record, none of a monitoring message, and a frame that is to be protected in the room. Its permit is kept
/// where there are places. There is no answer where the run has as many entries as it may.
pub(crate) fn handle<R: Wait, O: Site>(
    rt: &R,
    alloc: Global,
    unit: &Unit<O>,
    worker: &mut Worker<O>,
    kept: &mut Vec<Permits>,
    room: &mut [u8],
    spare: &mut Spare,
    task: &Record,
) -> Option<Answer>
    requires plain { task.now.kind ≢ kinds.Monitor }
    requires ready { IsReady unit.now.counters unit.now.plan worker.old }
    requires kept { All (λ permits. AreTrueFor permits (view worker.old).turn) kept.old.items }
    requires room { length room.old ≡ FRAME_ROOM }
    ensures kept { All (λ permits. AreTrueFor permits (view worker.new).turn) kept.new.items }
    ensures handles { HandlesRecord O.told unit.now.counters unit.now.plan worker.old worker.new task.now result }
{
    let place = place_for(task);
    if place < kept.len() {
        return handle_under(rt, alloc, unit, worker, &mut kept[place], room, spare, task);
    }
    let mut unkept = Permits::new();
    handle_under(rt, alloc, unit, worker, &mut unkept, room, spare, task)
}

/// The places at which a lane keeps permits, each for frames of other channels.
pub(crate) const PLACES: usize = 4;

/// The permits that a lane keeps at a place from one record to the next.
#[derive(Drop)]
pub(crate) struct Permits {
    pub(crate) to_protect: Option<Permit>,
    pub(crate) to_open: Option<OpenPermit>,
}

impl Permits {
    /// None yet.
    pub(crate) fn new() -> Permits
        ensures { (v : Turn) → AreTrueFor result v }
    {
        Permits {
            to_protect: None,
            to_open: None,
        }
    }
}

/// A lane's places, with no permit yet. If memory for them runs out there is none, and no permit is kept.
pub(crate) fn new_places(alloc: Global) -> Vec<Permits>
    ensures { (v : Turn) → All (λ permits. AreTrueFor permits v) result.items }
{
    let places: [Permits; PLACES] = [
        Permits::new(),
        Permits::new(),
        Permits::new(),
        Permits::new(),
    ];
    match Vec::from_array(alloc, places) {
        Ok(places) => places,
        Err(_) => Vec::new(alloc),
    }
}

/// The place of the permits for a record, by its link and those octets of a header that tell the channel. Frames of one
/// channel have one place. Those of a TM channel, whose third octet counts, have several.
pub(crate) fn place_for(task: &Record) -> usize
    ensures { result < PLACES }
{
    match task.octets.as_slice() {
        [_, second, third, ..] => {
            let (second, third) = (usize::from(*second), usize::from(*third));
            (usize::from(task.link) + second + second / 2 + third / 4) % PLACES
        }
        _ => 0,
    }
}

/// The permits of the lanes, between two segments of a run. Each lane takes its own when a segment begins, and gives
/// them back when it has ended. If memory for their list runs out none are kept.
#[derive(Drop)]
pub struct KeptPermits {
    pub(crate) lanes: Vec<Vec<Permits>>,
}

/// Whether one of the records is a command.
fn has_command(records: &[Record]) -> bool
    ensures { result ≡ list_any (λ (row : Record). is_commanded row.kind) records.now }
{
    records
        .iter()
        .any(|row| matches!(row.kind, RecordKind::Command))
}

impl KeptPermits {
    /// None, and no place for any.
    pub(crate) fn nowhere(alloc: Global) -> KeptPermits
        ensures { KeepsNone result }
    {
        KeptPermits {
            lanes: Vec::new(alloc),
        }
    }

    /// None yet.
    pub fn new(alloc: Global) -> KeptPermits
        ensures { KeepsNone result }
    {
        let Ok(mut lanes) = Vec::with_capacity(alloc, usize::from(LANES)) else {
            return KeptPermits::nowhere(alloc);
        };
        'lanes: while lanes.len() < usize::from(LANES) {
            lanes.push_reserved(Vec::new(alloc));
        }
        KeptPermits { lanes }
    }

    /// The places of a lane: with what it kept, or new ones.
    pub(crate) fn take(&mut self, alloc: Global, lane: usize) -> Vec<Permits>
        ensures taken { (v : Turn) → AreKept self.old v → All (λ permits. AreTrueFor permits v) result.items }
        ensures left { (v : Turn) → AreKept self.old v → AreKept self.new v }
    {
        if lane < self.lanes.len() && !self.lanes[lane].is_empty() {
            return mem::replace(&mut self.lanes[lane], Vec::new(alloc));
        }
        new_places(alloc)
    }

    /// Keeps the places of a lane.
    pub(crate) fn keep(&mut self, lane: usize, places: Vec<Permits>)
        ensures { (v : Turn) → AreKept self.old v → All (λ permits. AreTrueFor permits v) places.items
            → AreKept self.new v }
    {
        if lane < self.lanes.len() {
            self.lanes[lane] = places;
        }
    }

    /// Drops all permits behind a segment with a command. That alone destroys a key or stops an association.
    pub(crate) fn drop_behind_command(&mut self, alloc: Global, records: &[Record])
        ensures none { (row : Record) → Contains records.now row → row.kind ≡ Command → KeepsNone self.new }
        ensures left { (v : Turn) → AreKept self.old v → AreKept self.new v }
    {
        if has_command(records) {
            *self = KeptPermits::new(alloc);
        }
    }
}
