//! The two units of a drill, one chunk of frames, and those of them that arrive over a link.
ghost use Rattle.std.specs.Prelude.{◌*◌, ◌+◌, ◌≤◌, IfOk, ◌≡◌, ◌<◌, ◌^◌, length, map, slice_get, vec_len};
ghost use Rattle.unit_drill.specs.Chunks.{AreFew, AreOpened, GoOn, IsChunk, MayServeBoth};
ghost use Rattle.unit_drill.specs.LinkChunks.{IsLinkChunk};
ghost use Rattle.unit_drill.specs.Arriving.{arrived_frames, arrived_task, arrived_tasks, chunk_events, count_lost};
ghost use Rattle.unit_drill.specs.Arriving.{octets_in, releases};

use crate::counts::{Counts, count_accepted, count_code, count_fields, count_given};
use crate::records::{CHUNK, DRILL_LANES, open_task, open_tasks, protect_tasks, replay_tasks};
use crate::unit::{DrillUnit, receiver_plan, sender_plan};
use frame_workers::Gate;
use link_world::{LinkEvent, add_deliveries, is_lost, link_run};
use record_io::code::{NUMBER, PROTECTED};
use record_io::{Answer, Record, ShortOctets};
use sdls_base::NoMemory;
use std::alloc::Global;
use std::sync::Wait;
use std::thread::Threads;

/// The two units of a drill.
pub(crate) struct Pair {
    pub(crate) sender: DrillUnit,
    pub(crate) receiver: DrillUnit,
}

impl Drop for Pair {
    fn drop(self) {
        let Pair {
            sender: _,
            receiver: _,
        } = self;
    }
}

impl Pair {
    /// The two units, each opened on the image that its plan begins with.
    pub(crate) fn open<R: Wait>(rt: &R, alloc: Global) -> Result<Pair, NoMemory>
        ensures ready { IfOk result MayServeBoth }
        ensures opened { IfOk result AreOpened }
    {
        Ok(Pair {
            sender: DrillUnit::open(rt, alloc, sender_plan())?,
            receiver: DrillUnit::open(rt, alloc, receiver_plan())?,
        })
    }

    /// Protects the frames of a chunk, those before `end`, opens those that were protected, and opens the first of them
    /// again.
    pub(crate) fn serve_chunk<R: Threads + Wait + Sync, G: Gate + Sync>(
        &mut self,
        rt: &R,
        alloc: Global,
        chunk: u64,
        end: u64,
        gate: &G,
    ) -> Result<Counts, NoMemory>
        requires few { chunk ≤ 1024 }
        requires least { CHUNK * chunk ≤ end }
        requires most { end ≤ CHUNK * chunk + CHUNK }
        requires ready { MayServeBoth self.old }
        ensures ready { IfOk result (λ _. MayServeBoth self.new) }
        ensures chunk { IfOk result (λ counts. GoOn (λ one other s t v w. IsChunk one other chunk end s t v w counts)
            self.old self.new) }
        ensures few { IfOk result AreFew }
    {
        let first = CHUNK * chunk;
        let tasks = protect_tasks(alloc, first, end)?;
        let sent = self.sender.serve(rt, alloc, &tasks, gate)?;
        let received = open_tasks(alloc, chunk, first, &sent)?;
        let opened = self.receiver.serve(rt, alloc, &received, gate)?;
        let again = replay_tasks(alloc, chunk, first, &sent)?;
        let replayed = self.receiver.serve(rt, alloc, &again, gate)?;
        let accepted = count_accepted(&received, &opened, chunk) + count_fields(&replayed, first);
        let rejected = count_code(&opened, NUMBER) + count_code(&replayed, NUMBER);
        Ok(Counts {
            protected: count_code(&sent, PROTECTED) as u64,
            lost: 0,
            accepted: accepted as u64,
            rejected: rejected as u64,
        })
    }

    /// Protects the frames of a chunk, those before `end`, and opens those that arrive over the link, in the order of
    /// their arrival.
    pub(crate) fn serve_link_chunk<R: Threads + Wait + Sync, G: Gate + Sync>(
        &mut self,
        rt: &R,
        alloc: Global,
        chunk: u64,
        end: u64,
        gate: &G,
    ) -> Result<Counts, NoMemory>
        requires few { chunk ≤ 1024 }
        requires least { CHUNK * chunk ≤ end }
        requires most { end ≤ CHUNK * chunk + CHUNK }
        requires ready { MayServeBoth self.old }
        ensures ready { IfOk result (λ _. MayServeBoth self.new) }
        ensures chunk { IfOk result (λ counts. GoOn
            (λ one other s t v w. IsLinkChunk one other chunk end s t v w counts) self.old self.new) }
        ensures few { IfOk result AreFew }
    {
        let first = CHUNK * chunk;
        let tasks = protect_tasks(alloc, first, end)?;
        let sent = self.sender.serve(rt, alloc, &tasks, gate)?;
        let arrived = arrived_frames(alloc, first, &sent)?;
        let received = arrived_tasks(alloc, CHUNK_PLACES * chunk, first, &sent, &arrived)?;
        let opened = self.receiver.serve(rt, alloc, &received, gate)?;
        Ok(Counts {
            protected: count_code(&sent, PROTECTED) as u64,
            lost: count_lost(&sent) as u64,
            accepted: count_given(&arrived, &opened) as u64,
            rejected: count_code(&opened, NUMBER) as u64,
        })
    }
}

/// The places that a chunk has for the records of frames that arrive: more than there are of these.
pub(crate) const CHUNK_PLACES: u64 = 1_024;

/// The releases of a chunk: its frames that were protected, by their numbers in it.
#[tactic(auto, using(crate::proofs::Arrivals::release_more, crate::proofs::Arrivals::release_skips))]
fn releases(alloc: Global, sent: &[Answer]) -> Result<Vec<LinkEvent>, NoMemory>
    requires { length sent.now ≤ CHUNK }
    ensures { IfOk result (λ events. events.items ≡ releases 0 sent.now) }
{
    let mut events = Vec::new(alloc);
    for (k, answer) in sent.iter().enumerate() {
        if answer.code == PROTECTED {
            events.push(LinkEvent::Release(k as u32))?;
        }
    }
    Ok(events)
}

/// What happens on the link with a chunk: releases, then deliveries.
fn chunk_events(alloc: Global, sent: &[Answer]) -> Result<Vec<LinkEvent>, NoMemory>
    requires { length sent.now ≤ CHUNK }
    ensures { IfOk result (λ events. events.items ≡ chunk_events sent.now) }
{
    let mut events = releases(alloc, sent)?;
    add_deliveries(&mut events, sent.len() as u32)?;
    Ok(events)
}

/// The numbers of these frames of a chunk, which begins with this one.
fn numbers_from(alloc: Global, first: u64, arrived: &[u32]) -> Result<Vec<u64>, NoMemory>
    requires { first < 2 ^ 63 }
    ensures items { IfOk result (λ numbers. numbers.items ≡ map (λ k. first + k) arrived.now) }
    ensures many { IfOk result (λ numbers. vec_len numbers ≡ length arrived.now) }
{
    let mut numbers = Vec::new(alloc);
    for k in arrived {
        numbers.push(first + u64::from(*k))?;
    }
    Ok(numbers)
}

/// The frames of a chunk that arrive over a link, in their order: of those from a number on with these answers.
#[tactic(auto, using(crate::proofs::Arrivals::few_arrived))]
pub(crate) fn arrived_frames(
    alloc: Global,
    first: u64,
    sent: &[Answer],
) -> Result<Vec<u64>, NoMemory>
    requires chunk { length sent.now ≤ CHUNK }
    requires first { first < 2 ^ 63 }
    ensures frames { IfOk result (λ numbers. numbers.items ≡ arrived_frames first sent.now) }
    ensures few { IfOk result (λ numbers. vec_len numbers ≤ 3 * length sent.now) }
{
    let events = chunk_events(alloc, sent)?;
    let arrived = link_run(alloc, sent.len() as u32, &events)?;
    numbers_from(alloc, first, &arrived)
}

/// The octets of the frame with this number in the chunk.
fn octets_in(alloc: Global, sent: &[Answer], k: u64) -> Result<ShortOctets, NoMemory>
    ensures { IfOk result (λ octets. octets ≡ octets_in (slice_get sent.now k)) }
{
    match sent.get(k as usize) {
        Some(answer) => Ok(answer.body.clone()?),
        None => Ok(ShortOctets::none(alloc)),
    }
}

/// A frame that arrived, to be opened as the record at this place.
fn arrived_task(place: u64, number: u64, octets: ShortOctets) -> Record
    requires { place < 2 ^ 61 }
    ensures { result ≡ arrived_task place number octets }
{
    open_task(DRILL_LANES * place + number % DRILL_LANES, number, octets)
}

/// The frames that arrived of a chunk with these answers, to be opened: records from this place on.
#[tactic(auto, using(crate::proofs::Arrivals::arrived_more))]
pub(crate) fn arrived_tasks(
    alloc: Global,
    place: u64,
    first: u64,
    sent: &[Answer],
    numbers: &[u64],
) -> Result<Vec<Record>, NoMemory>
    requires { place + length numbers.now < 2 ^ 61 }
    ensures items { IfOk result (λ tasks. tasks.items ≡ arrived_tasks place first sent.now numbers.now) }
    ensures many { IfOk result (λ tasks. vec_len tasks ≡ length numbers.now) }
{
    let mut tasks = Vec::new(alloc);
    for (at, number) in numbers.iter().enumerate() {
        let octets = octets_in(alloc, sent, number.saturating_sub(first))?;
        tasks.push(arrived_task(place + at as u64, *number, octets))?;
    }
    Ok(tasks)
}

/// How many frames of a chunk were protected and lost.
#[tactic(auto, using(crate::proofs::Arrivals::few_lost))]
pub(crate) fn count_lost(sent: &[Answer]) -> usize
    requires { length sent.now ≤ CHUNK }
    ensures count { result ≡ count_lost sent.now }
    ensures few { result ≤ length sent.now }
{
    (0..sent.len() as u32)
        .zip(sent.iter())
        .filter(|(k, answer)| answer.code == PROTECTED && is_lost(*k))
        .count()
}
