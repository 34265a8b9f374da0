//! A unit in memory, with its image and the one worker that serves its segments.
ghost use Rattle.std.specs.Prelude.{◌≡◌, ◌≢◌, ◌-◌, ◌%◌, ◌≤◌, ℕ, true, IfOk, length, vec_len};
ghost use Rattle.std.specs.List.{All, list_any};
ghost use Rattle.sdls_outside.specs.Crash.{fresh};
ghost use Rattle.sdls_outside.specs.MemSite.{site_trace};
ghost use Rattle.unit_plan.specs.PlanLines.{PlanLines};
ghost use Rattle.unit_state.specs.declared.state.State.{State};
ghost use Rattle.unit_image.specs.Beginning.{SaysPlan, image_of_plan};
ghost use Rattle.record_io.specs.declared.item_cursor.Record.{Record};
ghost use Rattle.run_promise.specs.Call.{Begin};
ghost use Rattle.counter_table.specs.Worker.{view};
ghost use Rattle.law_workers.specs.Deeds.{Ascend};
ghost use Rattle.law_workers.specs.Began.{BeganWith};
ghost use Rattle.unit_drill.specs.Chunks.{HandlesSegment, MayServe, UnitIsOpened};
ghost use Rattle.unit_drill.specs.UnitRun.{says_fault};
ghost use Rattle.unit_drill.specs.Plans.{receiver_plan, sender_plan};

use frame_workers::{Gate, run_segment};
use record_io::code::{SITE_FAULT, STOPPED};
use record_io::{Answer, Record, RecordKind, Spare, answers_have_widths};
use sdls_base::{CONTENT_LENGTH_TWO, NoMemory};
use sdls_outside::{Crash, MemSite};
use shared_unit::{Unit, Worker};
use std::alloc::{AllocError, Global};
use std::sync::Wait;
use std::thread::Threads;
use unit_image::create_image;
use unit_plan::{MOST_OCTETS, Plan};
use unit_state::State;

pub(crate) struct DrillUnit {
    pub(crate) unit: Unit<MemSite>,
    pub(crate) worker: Worker<MemSite>,
}

impl Drop for DrillUnit {
    fn drop(self) {
        let DrillUnit { unit: _, worker: _ } = self;
    }
}

/// Whether the answer says that the unit's site has failed.
fn says_fault(answer: &Answer) -> bool
    ensures { result ≡ says_fault answer.now }
{
    answer.code == SITE_FAULT || answer.code == STOPPED
}

fn has_fault(answers: &[Answer]) -> bool
    ensures { result ≡ list_any says_fault answers.now }
{
    answers.iter().any(|answer| says_fault(answer))
}

impl DrillUnit {
    /// A unit of the image that this plan begins with. Whatever refuses it is lack of memory: the image is that of a
    /// plan.
    pub(crate) fn open<R: Wait>(rt: &R, alloc: Global, plan: &[u8]) -> Result<DrillUnit, NoMemory>
        requires { length plan.now ≤ MOST_OCTETS }
        ensures { IfOk result (λ made. MayServe made.unit.counters made.unit.plan made.worker
            × ((begin : Begin) × UnitIsOpened plan.now begin (view made.worker))) }
    {
        let site = site_of(alloc, plan)?;
        match Unit::open(rt, alloc, site) {
            Ok((unit, worker)) => Ok(DrillUnit { unit, worker }),
            Err((_, _)) => Err(NoMemory),
        }
    }

    /// Handles the records of a segment. A fault of the unit's own site is lack of memory.
    pub(crate) fn serve<R: Threads + Wait + Sync, G: Gate + Sync>(
        &mut self,
        rt: &R,
        alloc: Global,
        records: &[Record],
        gate: &G,
    ) -> Result<Vec<Answer>, NoMemory>
        requires may { MayServe self.old.unit.counters self.old.unit.plan self.old.worker }
        requires lanes { (ahead : ℕ) × All (λ (task : Record). task.lane ≡ (task.index - ahead) % 4) records.now }
        requires plain { All (λ (task : Record). task.kind ≢ RecordKind.Monitor) records.now }
        requires ascend { Ascend records.now }
        ensures may { MayServe self.new.unit.counters self.new.unit.plan self.new.worker }
        ensures serves { IfOk result (λ answers. (begin : Begin)
            → BeganWith true begin (view self.old.worker).turn.known.opening
            → HandlesSegment begin (view self.old.worker) (view self.new.worker) records.now answers.items
            × BeganWith true begin (view self.new.worker).turn.known.opening) }
        ensures few { IfOk result (λ answers. vec_len answers ≤ length records.now) }
    {
        let mut spare = Spare::new(alloc);
        let segment = run_segment(
            rt,
            alloc,
            &self.unit,
            &mut self.worker,
            records,
            &mut spare,
            gate,
        )?;
        if has_fault(&segment.answers) {
            return Err(NoMemory);
        }
        answers_have_widths(&segment.answers);
        Ok(segment.answers)
    }
}

const SENDER: &[u8] = b"sdls 1
device 00000d01
slots 8192
block 64
accept 64
link 0 tc noseg fecf -
channel 0 0 1 0 -
channel 1 0 1 1 -
channel 2 0 1 2 -
channel 3 0 1 3 -
key 32769 active 01010101010101010101010101010101
key 257 active 02020202020202020202020202020202
key 32771 active 03030303030303030303030303030303
key 259 active 04040404040404040404040404040404
sa 1 send cmac 32769 1 4294967296 0
sa 2 send gcm 257 1 4294967296 1
sa 3 send cmac 32771 1 4294967296 2
sa 4 send gcm 259 1 4294967296 3
";

const RECEIVER: &[u8] = b"sdls 1
device 00000d02
slots 8192
block 64
accept 64
link 0 tc noseg fecf -
channel 0 0 1 0 -
channel 1 0 1 1 -
channel 2 0 1 2 -
channel 3 0 1 3 -
key 32769 active 01010101010101010101010101010101
key 257 active 02020202020202020202020202020202
key 32771 active 03030303030303030303030303030303
key 259 active 04040404040404040404040404040404
sa 1 receive cmac 32769 1 4294967296 0
sa 2 receive gcm 257 1 4294967296 1
sa 3 receive cmac 32771 1 4294967296 2
sa 4 receive gcm 259 1 4294967296 3
";

/// The plan of the unit that sends.
#[tactic(auto, unfolding(crate::specs::Plans::sender_plan))]
pub(crate) fn sender_plan() -> &'static [u8]
    ensures lines { result.now ≡ sender_plan }
    ensures short { length result.now ≤ MOST_OCTETS }
{
    SENDER
}

/// The plan of the unit that receives.
#[tactic(auto, unfolding(crate::specs::Plans::receiver_plan))]
pub(crate) fn receiver_plan() -> &'static [u8]
    ensures lines { result.now ≡ receiver_plan }
    ensures short { length result.now ≤ MOST_OCTETS }
{
    RECEIVER
}

/// So many zeros.
fn zeros(alloc: Global, count: usize) -> Result<Vec<u8>, AllocError>
    ensures { IfOk result (λ zeros. vec_len zeros ≡ count) }
{
    vec![in alloc; 0; count]
}

/// The plan that a text is, and the state that its lines make. Whatever refuses it is out of memory.
fn plan_of(alloc: Global, text: &[u8]) -> Result<(Plan, State), NoMemory>
    ensures { IfOk result (λ made. SaysPlan text.now made.0 made.1) }
{
    let Ok(plan) = Plan::read(alloc, text) else {
        return Err(NoMemory);
    };
    let Ok(state) = State::initial(alloc, &plan) else {
        return Err(NoMemory);
    };
    Ok((plan, state))
}

/// A site in memory that holds the image that the plan of a text begins with, all of it synced. Whatever refuses it is
/// out of memory.
pub(crate) fn site_of(alloc: Global, text: &[u8]) -> Result<MemSite, NoMemory>
    requires { length text.now ≤ MOST_OCTETS }
    ensures { IfOk result (λ site. (plan : PlanLines) × (first : State) × SaysPlan text.now plan first
        × (site_trace site ≡ fresh (image_of_plan text.now plan first))) }
{
    let (plan, state) = plan_of(alloc, text)?;
    let mut bare = zeros(alloc, text.len() + 1)?;
    let mut content = zeros(alloc, CONTENT_LENGTH_TWO)?;
    let mut site = MemSite::new(alloc, Vec::new(alloc), Vec::new(alloc), None);
    match create_image(&mut site, text, &plan, &state, &mut bare, &mut content) {
        Ok(()) => Ok(site.crashed(Crash::Kept)),
        Err(_) => Err(NoMemory),
    }
}
