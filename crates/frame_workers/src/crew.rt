// Lanes that are run by threads which last for the run.
ghost use mathlib.Core.List.{IsPrefix};
ghost use Rattle.std.specs.Prelude.{◌≡◌, ◌≢◌, ◌<◌, ℕ, All, Contains, IfOk, IfErr, IsOk, OnErr, Some, length};
ghost use Rattle.std.specs.Prelude.{slice_get, vec_capacity};
ghost use Rattle.std.specs.Arc.{arc_value};
ghost use Rattle.record_io.specs.declared.reader.TheConstants.{LANES};
ghost use Rattle.record_io.specs.declared.reader.RecordKind.TheVariants.{Command, Monitor};
ghost use Rattle.record_io.specs.declared.item_cursor.Record.{Record};
ghost use Rattle.counter_table.specs.Worker.{view};
ghost use Rattle.law_workers.specs.Deeds.{Ascend};
ghost use Rattle.shared_unit.specs.Turn.{IsReady};
ghost use Rattle.frame_workers.specs.Segment.{HandlesSegment};
ghost use Rattle.frame_workers.specs.Lanes.{CanRun, HasRun, HaveRun};
ghost use Rattle.frame_workers.specs.Permits.{AreKept, KeepsNone};

use crate::lane::{Gate, KeptPermits, Lane, run_lane};
use crate::segment::{Segment, begin_segment, end_segment};
use kept_threads::{Fresh, Helper, Jobs, Named, Work};
use record_io::{Record, Spare};
use sdls_base::NoMemory;
use sdls_outside::Site;
use shared_unit::{SharedBook, Unit, Worker};
use std::alloc::Global;
use std::sync::{Arc, Wait};
use std::thread::{Scope, Threads};

/// A lane that is to handle its records of a segment.
pub struct LaneTask<'e, O: Site> {
    pub(crate) unit: &'e Unit<O>,
    pub(crate) records: Arc<Vec<Record>, Global>,
    pub(crate) lane: Lane<SharedBook<O>>,
}

impl<'e, O: Site> Drop for LaneTask<'e, O> {
    fn drop(self) {
        let LaneTask {
            unit: _,
            records: _,
            lane: _,
        } = self;
    }
}

impl<'e, O: Site> LaneTask<'e, O> {
    fn into_parts(self) -> (&'e Unit<O>, Arc<Vec<Record>, Global>, Lane<SharedBook<O>>)
        ensures unit { result.0 ≡ self.entry.unit }
        ensures records { result.1 ≡ self.entry.records }
        ensures lane { result.2 ≡ self.entry.lane }
    {
        let LaneTask {
            unit,
            records,
            lane,
        } = self;
        (unit, records, lane)
    }
}

/// How a lane handles its records.
#[derive(Drop)]
pub struct LaneWork<'e, R: Wait, G: Gate> {
    rt: &'e R,
    alloc: Global,
    gate: &'e G,
}

impl<'e, R: Wait, G: Gate> LaneWork<'e, R, G> {
    /// By this gate.
    pub fn new(rt: &'e R, alloc: Global, gate: &'e G) -> LaneWork<'e, R, G> {
        LaneWork { rt, alloc, gate }
    }
}

impl<'e, R: Wait, O: Site, G: Gate> Work<LaneTask<'e, O>, Lane<SharedBook<O>>>
    for LaneWork<'e, R, G> {
    ghost can = { λ task. All (λ (row : Record). row.kind ≢ Monitor) (arc_value task.records).items
        × (Ascend (arc_value task.records).items
        × CanRun (IsReady task.unit.now.counters task.unit.now.plan) (arc_value task.records).items task.lane) };

    ghost does = { λ task lane. HasRun (IsReady task.unit.now.counters task.unit.now.plan) O.told
        (arc_value task.records).items task.lane lane };

    fn work(&self, task: LaneTask<'e, O>) -> Lane<SharedBook<O>> {
        let (unit, records, mut lane) = task.into_parts();
        run_lane(self.rt, self.alloc, unit, &records, self.gate, &mut lane);
        lane
    }
}

/// A thread that runs lanes.
type LaneHelper<'e, R, O, G, N> = Helper<
    LaneTask<'e, O>,
    Lane<SharedBook<O>>,
    N,
    LaneWork<'e, R, G>,
>;

/// Hands a lane to the first helper, and returns the place of its task. The lane comes back where it is the last one,
/// and where there is no helper.
fn hand_lane<'e, R: Wait, O: Site, G: Gate, N: Named>(
    work: &LaneWork<'e, R, G>,
    jobs: &mut Jobs<LaneTask<'e, O>, N>,
    helpers: &[LaneHelper<'e, R, O, G, N>],
    is_last: bool,
    unit: &'e Unit<O>,
    records: &Arc<Vec<Record>, Global>,
    lane: Lane<SharedBook<O>>,
) -> Result<u64, Lane<SharedBook<O>>>
    requires plain { All (λ (row : Record). row.kind ≢ Monitor) (arc_value records.now).items }
    requires ascend { Ascend (arc_value records.now).items }
    requires can { CanRun (IsReady unit.now.counters unit.now.plan) (arc_value records.now).items lane }
    ensures asked { IfOk result (λ place. (task : _) × (slice_get jobs.new place ≡ Some task)
        × ((after : _) → HasRun (IsReady task.unit.now.counters task.unit.now.plan) O.told
        (arc_value task.records).items task.lane after
        → HasRun (IsReady unit.now.counters unit.now.plan) O.told (arc_value records.now).items lane after)) }
    ensures some { IsOk result → 0 < length helpers.now }
    ensures back { IfErr result (λ back. back ≡ lane) }
    ensures grows { IsPrefix jobs.old jobs.new }
{
    if is_last || helpers.is_empty() {
        return Err(lane);
    }
    let Ok(records) = Arc::try_clone(records) else {
        return Err(lane);
    };
    let task = LaneTask {
        unit,
        records,
        lane,
    };
    match helpers[0].hand(work.rt, jobs, task) {
        Ok(place) => Ok(place),
        Err(task) => {
            let (_, _, lane) = task.into_parts();
            Err(lane)
        },
    }
}

/// Runs the lanes: the first one here, and each other one by a helper of its own, at the same time.
fn run_with<'e, R: Wait, O: Site, G: Gate, N: Named>(
    work: &LaneWork<'e, R, G>,
    jobs: &mut Jobs<LaneTask<'e, O>, N>,
    helpers: &[LaneHelper<'e, R, O, G, N>],
    unit: &'e Unit<O>,
    records: &Arc<Vec<Record>, Global>,
    lanes: &mut Vec<Lane<SharedBook<O>>>,
)
    requires plain { All (λ (row : Record). row.kind ≢ Monitor) (arc_value records.now).items }
    requires ascend { Ascend (arc_value records.now).items }
    requires can { All (CanRun (IsReady unit.now.counters unit.now.plan) (arc_value records.now).items)
        lanes.old.items }
    ensures ran { HaveRun (IsReady unit.now.counters unit.now.plan) O.told (arc_value records.now).items
        lanes.old.items lanes.new.items }
    ensures room { vec_capacity lanes.new ≡ vec_capacity lanes.old }
    ensures grows { IsPrefix jobs.old jobs.new }
{
    let Some(lane) = lanes.pop() else {
        return;
    };
    match hand_lane(work, jobs, helpers, lanes.is_empty(), unit, records, lane) {
        Ok(place) => {
            run_with(work, jobs, &helpers[1..], unit, records, lanes);
            lanes.push_reserved(helpers[0].take(work.rt, jobs, place));
        }
        Err(mut lane) => {
            run_with(work, jobs, helpers, unit, records, lanes);
            run_lane(work.rt, work.alloc, unit, records, work.gate, &mut lane);
            lanes.push_reserved(lane);
        }
    }
}

/// Threads that are kept, and started when they are first needed.
pub struct Team<'s, E, R, J: Drop, A: Drop, N: Named, W: Work<J, A>> {
    scope: &'s Scope<'s, E>,
    rt: &'s R,
    alloc: Global,
    work: &'s W,
    jobs: Jobs<J, N>,
    helpers: Vec<Helper<J, A, N, W>>,
}

impl<'s, E, R, J: Drop, A: Drop, N: Named, W: Work<J, A>> Team<'s, E, R, J, A, N, W> {
    /// A team with no thread yet.
    pub fn new(
        scope: &'s Scope<'s, E>,
        rt: &'s R,
        alloc: Global,
        work: &'s W,
        fresh: Fresh<J>,
    ) -> Team<'s, E, R, J, A, N, W>
        requires { fresh ≡ N.book }
    {
        Team {
            scope,
            rt,
            alloc,
            work,
            jobs: Jobs::new(fresh),
            helpers: Vec::new(alloc),
        }
    }

    /// Ends the threads.
    pub fn end(self) {
        let Team {
            scope: _,
            rt: _,
            alloc: _,
            work: _,
            jobs: _,
            helpers: _,
        } = self;
    }
}

impl<
    's,
    E,
    R: Threads + Wait + Sync,
    J: Drop + Send + 's,
    A: Drop + Send + 's,
    N: Named + Send + 's,
    W: Work<J, A> + Send + Sync + 's,
> Team<'s, E, R, J, A, N, W> {
    /// Starts threads, until there are so many or the next one cannot be started.
    pub fn start(&mut self, count: usize) {
        for _ in self.helpers.len()..count {
            let Ok(helper) = Helper::start(self.scope, self.rt, self.alloc, self.work) else {
                return;
            };
            let Ok(()) = self.helpers.push(helper) else {
                return;
            };
        }
    }
}

/// The threads that run the lanes of a run's segments.
pub type Crew<'s, 'e, E, R, O, G, N> = Team<
    's,
    E,
    R,
    LaneTask<'e, O>,
    Lane<SharedBook<O>>,
    N,
    LaneWork<'e, R, G>,
>;

/// Runs the lanes at the same time. For one lane no thread is started.
fn run_by_crew<
    's,
    'e: 's,
    E,
    R: Threads + Wait + Sync,
    O: Site + Send,
    G: Gate + Sync,
    N: Named + Send + 's,
>(
    crew: &mut Crew<'s, 'e, E, R, O, G, N>,
    unit: &'e Unit<O>,
    records: &Arc<Vec<Record>, Global>,
    lanes: &mut Vec<Lane<SharedBook<O>>>,
)
    requires plain { All (λ (row : Record). row.kind ≢ Monitor) (arc_value records.now).items }
    requires ascend { Ascend (arc_value records.now).items }
    requires can { All (CanRun (IsReady unit.now.counters unit.now.plan) (arc_value records.now).items)
        lanes.old.items }
    ensures ran { HaveRun (IsReady unit.now.counters unit.now.plan) O.told (arc_value records.now).items
        lanes.old.items lanes.new.items }
{
    crew.start(lanes.len().max(1) - 1);
    run_with(
        crew.work,
        &mut crew.jobs,
        &crew.helpers,
        unit,
        records,
        lanes,
    );
}

/// As `run_segment`, by the threads of a crew, which share the records. A lane begins with the permits that it kept.
/// Behind a segment with a command none is kept: that alone destroys a key, or stops an association.
pub fn run_segment_by<
    's,
    'e: 's,
    E,
    R: Threads + Wait + Sync,
    O: Site + Send,
    G: Gate + Sync,
    N: Named + Send + 's,
>(
    crew: &mut Crew<'s, 'e, E, R, O, G, N>,
    alloc: Global,
    unit: &'e Unit<O>,
    worker: &mut Worker<O>,
    records: &[Record],
    shared: &Arc<Vec<Record>, Global>,
    kept: &mut KeptPermits,
    spare: &mut Spare,
) -> Result<Segment, NoMemory>
    requires same { records.now ≡ (arc_value shared.now).items }
    requires ready { IsReady unit.now.counters unit.now.plan worker.old }
    requires shares { LANES < (view worker.old).numbers.shares }
    requires lanes { All (λ (row : Record). row.lane < LANES) records.now }
    requires plain { All (λ (row : Record). row.kind ≢ Monitor) records.now }
    requires ascend { Ascend records.now }
    requires kept { AreKept kept.old (view worker.old).turn }
    ensures ready { IsReady unit.now.counters unit.now.plan worker.new }
    ensures shares { (view worker.new).numbers.shares ≡ (view worker.old).numbers.shares }
    ensures no_memory { OnErr result (view worker.new ≡ view worker.old) }
    ensures handles { IfOk result (λ segment. HandlesSegment O.told (view worker.old) (view worker.new) records.now
        segment.answers.items segment.full) }
    ensures kept { AreKept kept.new (view worker.new).turn }
    ensures none_behind_command { IfOk result (λ segment. (row : Record) → Contains records.now row
        → row.kind ≡ Command → KeepsNone kept.new) }
{
    let mut begun = begin_segment(alloc, unit, worker, records, kept, spare)?;
    run_by_crew(crew, unit, shared, &mut begun.lanes);
    let segment = end_segment(unit, worker, records, begun, kept, spare);
    kept.drop_behind_command(alloc, records);
    Ok(segment)
}
