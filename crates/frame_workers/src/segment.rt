// A segment, and the workers of its lanes, split from one and joined to it again.
ghost use Rattle.std.specs.Prelude.{◌≡◌, ◌≢◌, ◌<◌, ◌≤◌, ℕ, All, [], IfOk, OnErr, length, ◌+◌, true, slice_index_or};
ghost use Rattle.std.specs.Prelude.{vec_capacity};
ghost use Rattle.std.specs.List.{AllPairs, list_any};
ghost use Rattle.sdls_base.specs.declared.TheConstants.{MOST_KEYS};
ghost use Rattle.record_io.specs.declared.reader.RecordKind.TheVariants.{Monitor};
ghost use Rattle.record_io.specs.declared.item_cursor.Record.{Record};
ghost use Rattle.run_promise.specs.Call.{Begin};
ghost use Rattle.run_promise.specs.OneLane.{OneLane};
ghost use Rattle.counter_table.specs.declared.view.Turn.{Turn};
ghost use Rattle.counter_table.specs.Whole.{IsWhole};
ghost use Rattle.counter_table.specs.Worker.{view};
ghost use Rattle.counter_table.specs.Numbers.{ALL_SHARES};
ghost use Rattle.law_workers.specs.Deeds.{Ascend, deeds_of};
ghost use Rattle.law_workers.specs.Order.{Handled, Layout, LiesIn};
ghost use Rattle.law_workers.specs.Alone.{ServedAlone};
ghost use Rattle.law_workers.specs.Words.{MovesWords};
ghost use Rattle.law_workers.specs.Began.{BeganWith};
ghost use Rattle.law_workers.specs.Views.{keeping, meeting, Meets, starting};
ghost use Rattle.law_workers.specs.Ends.{EndsSegment};
ghost use Rattle.law_workers.specs.Lanes.{giving_shares, is_of_lane, MeetAll, meeting_all, Part};
ghost use Rattle.shared_unit.specs.Turn.{IsReady};
ghost use Rattle.frame_workers.specs.Lanes.{left_at, answers_of, HaveOwnNumbers, IsRoom, IsSplit, IsThere, IsUsed};
ghost use Rattle.frame_workers.specs.Lanes.{IsTrueLane, parts_of};
ghost use Rattle.frame_workers.specs.Permits.{AreKept};
ghost use Rattle.frame_workers.specs.Segment.{AreSplit, HandlesSegment, HasRooms, RanFrom};

use crate::answering::place_answers;
use crate::lane::{Gate, KeptPermits, Lane, run_lanes};
use record_io::{Answer, LANES, Record, SEGMENT_RECORDS, Spare};
use sdls_base::NoMemory;
use sdls_outside::Site;
use shared_unit::{SharedBook, Unit, Worker};
use std::alloc::Global;
use std::mem;
use std::sync::Wait;
use std::thread::Threads;
use std::vec::IntoIter;

/// What a segment was answered.
#[derive(Drop)]
pub struct Segment {
    /// In the order of the records, up to the first one for which the history was full.
    pub answers: Vec<Answer>,
    /// Whether there is such a record.
    pub full: bool,
}

/// No answers yet of each lane.
fn no_answers(alloc: Global) -> Result<Vec<IntoIter<Answer, Global>>, NoMemory>
    ensures many { IfOk result (λ parts. length parts.items ≡ LANES) }
    ensures empty { IfOk result (λ parts. (number : ℕ) → left_at number parts.items ≡ []) }
{
    let mut parts = Vec::with_capacity(alloc, usize::from(LANES))?;
    'parts: while parts.len() < usize::from(LANES) {
        parts.push_reserved(Vec::new(alloc).into_iter());
    }
    Ok(parts)
}

/// For contracts alone: splits a worker off and joins it at once. Who has all shares then knows that it did all.
fn look_back<O: Site>(unit: &Unit<O>, worker: &mut Worker<O>)
    requires ready { IsReady unit.now.counters unit.now.plan worker.old }
    requires two { 1 < (view worker.old).numbers.shares }
    ensures ready { IsReady unit.now.counters unit.now.plan worker.new }
    ensures joined { view worker.new ≡ meeting (keeping (view worker.old)) (starting (view worker.old)) }
    ensures meets { Meets MOST_KEYS (keeping (view worker.old)) (starting (view worker.old)) }
    ensures whole { (view worker.new).numbers.shares ≡ ALL_SHARES → IsWhole MOST_KEYS (view worker.new) }
{
    let other = unit.split(worker);
    unit.join(worker, other);
}

/// A segment whose lanes are to run, with rooms for its answers.
pub(crate) struct Begun<O: Site> {
    pub(crate) lanes: Vec<Lane<SharedBook<O>>>,
    parts: Vec<IntoIter<Answer, Global>>,
    answers: Vec<Answer>,
}

/// Splits a worker off for each lane that has records, with the permits that it kept.
pub(crate) fn begin_segment<O: Site>(
    alloc: Global,
    unit: &Unit<O>,
    worker: &mut Worker<O>,
    records: &[Record],
    kept: &mut KeptPermits,
    spare: &mut Spare,
) -> Result<Begun<O>, NoMemory>
    requires ready { IsReady unit.now.counters unit.now.plan worker.old }
    requires shares { LANES < (view worker.old).numbers.shares }
    requires kept { AreKept kept.old (view worker.old).turn }
    requires lanes { All (λ (task : Record). task.lane < LANES) records.now }
    ensures ready { IsReady unit.now.counters unit.now.plan worker.new }
    ensures no_memory { OnErr result (view worker.new ≡ view worker.old) }
    ensures split { IfOk result (λ begun. AreSplit (IsReady unit.now.counters unit.now.plan) records.now
        (view worker.old) (view worker.new) begun.lanes.items) }
    ensures rooms { IfOk result (λ begun. HasRooms records.now begun.parts.items begun.answers) }
    ensures left { (v : Turn) → AreKept kept.old v → AreKept kept.new v }
{
    let used = used_lanes(records);
    let rooms = rooms_for(alloc, records, &used)?;
    let mut lanes = Vec::with_capacity(alloc, usize::from(LANES))?;
    let parts = no_answers(alloc)?;
    let answers = Vec::with_capacity(alloc, records.len())?;
    split_lanes(
        alloc, unit, worker, records, &used, rooms, kept, spare, &mut lanes,
    );
    Ok(Begun {
        lanes,
        parts,
        answers,
    })
}

/// Joins the workers of lanes that ran, keeps their permits, and places their answers.
pub(crate) fn end_segment<O: Site>(
    unit: &Unit<O>,
    worker: &mut Worker<O>,
    records: &[Record],
    begun: Begun<O>,
    kept: &mut KeptPermits,
    spare: &mut Spare,
) -> Segment
    requires ready { IsReady unit.now.counters unit.now.plan worker.old }
    requires ran { (before : _) × (old : _) × RanFrom (IsReady unit.now.counters unit.now.plan) O.told records.now
        before (view worker.old) old begun.lanes.items }
    requires rooms { HasRooms records.now begun.parts.items begun.answers }
    requires lanes { All (λ (task : Record). task.lane < LANES) records.now }
    requires plain { All (λ (task : Record). task.kind ≢ Monitor) records.now }
    requires ascend { Ascend records.now }
    ensures ready { IsReady unit.now.counters unit.now.plan worker.new }
    ensures shares { (before : _) (old : _) → RanFrom (IsReady unit.now.counters unit.now.plan) O.told records.now
        before (view worker.old) old begun.lanes.items
        → (view worker.new).numbers.shares ≡ (view before).numbers.shares }
    ensures handles { (before : _) (old : _) → RanFrom (IsReady unit.now.counters unit.now.plan) O.told records.now
        before (view worker.old) old begun.lanes.items
        → HandlesSegment O.told (view before) (view worker.new) records.now result.answers.items result.full }
    ensures kept { (before : _) (old : _) → RanFrom (IsReady unit.now.counters unit.now.plan) O.told records.now
        before (view worker.old) old begun.lanes.items
        → AreKept kept.old (view before).turn → AreKept kept.new (view worker.new).turn }
{
    let Begun {
        lanes,
        mut parts,
        mut answers,
    } = begun;
    join_lanes(unit, worker, lanes, parts.as_mut_slice(), kept, spare);
    look_back(unit, worker);
    let full = place_answers(records, parts.as_mut_slice(), &mut answers);
    Segment { answers, full }
}

/// Handles the records of a segment, the lanes at the same time, each by a worker of its own, and the records of a lane
/// one after the other. The answers stand in the order of the records. If memory runs out, no record was handled.
/// None of them is a Monitor record, which no worker handles. The bodies of answers are spare lists, if there are any.
pub fn run_segment<R: Threads + Wait + Sync, O: Site + Send, G: Gate + Sync>(
    rt: &R,
    alloc: Global,
    unit: &Unit<O>,
    worker: &mut Worker<O>,
    records: &[Record],
    spare: &mut Spare,
    gate: &G,
) -> Result<Segment, NoMemory>
    requires ready { IsReady unit.now.counters unit.now.plan worker.old }
    requires shares { LANES < (view worker.old).numbers.shares }
    requires lanes { All (λ (task : Record). task.lane < LANES) records.now }
    requires plain { All (λ (task : Record). task.kind ≢ Monitor) records.now }
    requires ascend { Ascend records.now }
    ensures ready { IsReady unit.now.counters unit.now.plan worker.new }
    ensures shares { (view worker.new).numbers.shares ≡ (view worker.old).numbers.shares }
    ensures no_memory { OnErr result (view worker.new ≡ view worker.old) }

    // Each answer fits its record; entries of one lane stand in input order, and nothing was put.
    ensures handled { IfOk result (λ segment. (begin : Begin) (layout : Layout) (number : ℕ)
        → BeganWith O.told begin (view worker.old).turn.known.opening → LiesIn layout number records.now
        → Handled layout begin (view worker.old) (view worker.new) records.now
        (deeds_of number records.now segment.answers.items)) }

    // All records are answered, or those before the first for which the history was full.
    ensures full { IfOk result (λ segment. (begin : Begin) → BeganWith O.told begin (view worker.old).turn.known.opening
        → EndsSegment begin (view worker.old) (view worker.new) records.now segment.answers.items segment.full) }

    // Where all records are of one lane, they were served in turn, each in the history that those before it left, if
    // nobody else made a line or moved a word meanwhile.
    ensures alone { OneLane records.now → IfOk result (λ segment. (begin : Begin) (number : ℕ)
        → BeganWith O.told begin (view worker.old).turn.known.opening
        → ServedAlone begin (view worker.old) (view worker.new) (length records.now)
        (deeds_of number records.now segment.answers.items)) }

    // On however many lanes: each record moved a word once at most, as its answer says.
    ensures moved { IfOk result (λ segment. (begin : Begin) (number : ℕ)
        → BeganWith O.told begin (view worker.old).turn.known.opening
        → MovesWords begin (view worker.old) (view worker.new) records.now
        (deeds_of number records.now segment.answers.items)) }

    // Who has all shares did all.
    ensures whole { (view worker.old).numbers.shares ≡ ALL_SHARES
        → IfOk result (λ segment. IsWhole MOST_KEYS (view worker.new)) }
{
    let mut kept = KeptPermits::nowhere(alloc);
    let mut begun = begin_segment(alloc, unit, worker, records, &mut kept, spare)?;
    run_lanes(rt, alloc, unit, records, gate, begun.lanes.as_mut_slice());
    Ok(end_segment(unit, worker, records, begun, &mut kept, spare))
}

/// The lanes that there may be.
const MOST_LANES: usize = LANES as usize;

/// Which lanes have records.
#[derive(Drop)]
pub(crate) struct Used {
    pub(crate) lanes: [bool; MOST_LANES],
}

impl Used {
    /// How many lanes have records.
    fn count(&self) -> usize
        ensures { result ≤ LANES }
    {
        self.lanes.iter().filter(|used| **used).count()
    }
}

/// The spare lists of one of so many lanes: each is given as many, and one lane alone all.
fn share_for(alloc: Global, spare: &mut Spare, lanes: usize) -> Spare
    ensures { result + spare.new ≡ spare.old }
{
    if lanes <= 1 {
        return mem::replace(spare, Spare::new(alloc));
    }
    spare.share(alloc, SEGMENT_RECORDS / lanes)
}

/// Which lanes the records are of.
pub(crate) fn used_lanes(records: &[Record]) -> Used
    requires { All (λ (task : Record). task.lane < LANES) records.now }
    ensures { IsUsed result.lanes records.now }
{
    let mut lanes = [false; MOST_LANES];
    for task in records {
        lanes[usize::from(task.lane)] = true;
    }
    Used { lanes }
}

/// A room for the answers of a lane: for as many as there are records, where one of them is the lane's.
fn room_for(
    alloc: Global,
    records: &[Record],
    used: &Used,
    number: u8,
) -> Result<Vec<Answer>, NoMemory>
    requires used { IsUsed used.now.lanes records.now }
    requires number { number < LANES }
    ensures { IfOk result (λ room. IsRoom records.now number room) }
{
    if !used.lanes[usize::from(number)] {
        return Ok(Vec::new(alloc));
    }
    let room = Vec::with_capacity(alloc, records.len())?;
    Ok(room)
}

/// Rooms for the answers of the lanes.
pub(crate) fn rooms_for(
    alloc: Global,
    records: &[Record],
    used: &Used,
) -> Result<Vec<Vec<Answer>>, NoMemory>
    requires used { IsUsed used.now.lanes records.now }
    ensures many { IfOk result (λ rooms. length rooms.items ≡ LANES) }
    ensures rooms { IfOk result (λ rooms. (k : ℕ) (d : _) → k < LANES
        → IsRoom records.now k (slice_index_or rooms.items k d)) }
{
    let mut rooms = Vec::with_capacity(alloc, usize::from(LANES))?;
    for number in 0..LANES {
        let room = room_for(alloc, records, used, number)?;
        rooms.push_reserved(room);
    }
    Ok(rooms)
}

/// Splits a worker off for each lane that has records, and gives it its permits and a share of the spare lists.
pub(crate) fn split_lanes<O: Site>(
    alloc: Global,
    unit: &Unit<O>,
    worker: &mut Worker<O>,
    records: &[Record],
    used: &Used,
    mut rooms: Vec<Vec<Answer>>,
    kept: &mut KeptPermits,
    spare: &mut Spare,
    lanes: &mut Vec<Lane<SharedBook<O>>>,
)
    requires ready { IsReady unit.now.counters unit.now.plan worker.old }
    requires shares { LANES < (view worker.old).numbers.shares }
    requires kept { AreKept kept.old (view worker.old).turn }
    requires used { IsUsed used.now.lanes records.now }
    requires many { length rooms.items ≡ LANES }
    requires rooms { (k : ℕ) (d : _) → k < LANES → IsRoom records.now k (slice_index_or rooms.items k d) }
    requires room { (lanes.old.items ≡ []) × (LANES ≤ vec_capacity lanes.old) }
    ensures ready { IsReady unit.now.counters unit.now.plan worker.new }
    ensures many { length lanes.new.items ≤ LANES }
    ensures given { view worker.new ≡ giving_shares (length lanes.new.items) (view worker.old) }
    ensures split { All (IsSplit (IsReady unit.now.counters unit.now.plan) records.now (view worker.old))
        lanes.new.items }
    ensures apart { AllPairs HaveOwnNumbers lanes.new.items }
    ensures each { (number : ℕ) → number < LANES → list_any (is_of_lane number) records.now ≡ true
        → IsThere number lanes.new.items }
    ensures left { (v : Turn) → AreKept kept.old v → AreKept kept.new v }
{
    let count = used.count();
    'rooms: while let Some(answers) = rooms.pop() {
        let number = rooms.len() as u8;
        if !used.lanes[usize::from(number)] {
            continue;
        }
        let split = unit.split(worker);
        lanes.push_reserved(Lane {
            number,
            worker: split,
            kept: kept.take(alloc, usize::from(number)),
            answers,
            full: false,
            spare: share_for(alloc, spare, count),
        });
    }
}

/// Joins the lanes' workers, the last lane first, and keeps the answers of each under its number. Spare lists that a
/// lane did not fill come back, and its permits are kept.
pub(crate) fn join_lanes<O: Site>(
    unit: &Unit<O>,
    worker: &mut Worker<O>,
    mut lanes: Vec<Lane<SharedBook<O>>>,
    parts: &mut [IntoIter<Answer, Global>],
    kept: &mut KeptPermits,
    spare: &mut Spare,
)
    requires ready { IsReady unit.now.counters unit.now.plan worker.old }
    requires lanes { All (λ lane. IsReady unit.now.counters unit.now.plan lane.worker × (lane.number < LANES))
        lanes.items }
    requires apart { AllPairs HaveOwnNumbers lanes.items }
    requires many { length parts.old ≡ LANES }
    requires empty { (number : ℕ) → left_at number parts.old ≡ [] }
    ensures ready { IsReady unit.now.counters unit.now.plan worker.new }
    ensures joined { view worker.new ≡ meeting_all (view worker.old) (parts_of lanes.items) }
    ensures meet { MeetAll MOST_KEYS (view worker.old) (parts_of lanes.items) }
    ensures many { length parts.new ≡ LANES }
    ensures parts { (number : ℕ) → left_at number parts.new ≡ answers_of number (parts_of lanes.items) }
    ensures kept { (v : Turn) → AreKept kept.old v → All (IsTrueLane v) lanes.items → AreKept kept.new v }
{
    'lanes: while let Some(lane) = lanes.pop() {
        let number = usize::from(lane.number);
        let (other, answers, left, places) = lane.into_parts();
        unit.join(worker, other);
        spare.rejoin(left);
        kept.keep(number, places);
        parts[number] = answers.into_iter();
    }
}
