//! What a link delivers of the frames that were released.
ghost use Rattle.std.specs.Prelude.{◌≡◌, IfOk, OnOk, List, [], ◌∷◌, ◌++◌, length, option_to_list, map, ◌<◌, ℕ};
ghost use Rattle.std.specs.List.{All, Contains};
ghost use Rattle.link_world.specs.Link.{AreMarked, arrival, arrivals};
ghost use Rattle.link_world.specs.declared.link.LinkEvent.TheVariants.{Deliver, Release};
ghost use Rattle.link_world.specs.Fate.{fate_of};
ghost use Rattle.link_world.specs.Chunk.{deliveries, in_turn, is_lost, late, lates, turns};
ghost use Rattle.link_world.specs.declared.link.LinkEvent.{LinkEvent};
ghost use Rattle.link_world.specs.Delivered.{AreDelivered, IsDeliveredAt};

use crate::fates::Fate;
use sdls_base::NoMemory;
use std::alloc::Global;

/// What happens on a link.
#[derive(Clone, Copy, Debug, PartialEq, Eq)]
pub enum LinkEvent {
    /// The sender releases the frame with this number.
    Release(u32),
    /// The link delivers it, if it was released.
    Deliver(u32),
}

/// The numbers of the frames that arrive, of so many, in the order of deliveries. A frame arrives if it is delivered
/// after its release; else nothing does.
pub fn link_run(alloc: Global, count: u32, events: &[LinkEvent]) -> Result<Vec<u32>, NoMemory>
    ensures { IfOk result (λ arrived. arrived.items ≡ arrivals count events.now) }
{
    let mut released = vec![in alloc; false; count as usize]?;
    let mut arrived = Vec::new(alloc);
    for event in events {
        heed(&mut released, &mut arrived, *event)?;
    }
    Ok(arrived)
}

/// Heeds an event: what arrives at it joins what arrived, and a release is noted.
fn heed(released: &mut Vec<bool>, arrived: &mut Vec<u32>, event: LinkEvent) -> Result<(), NoMemory>
    ensures size { length released.new.items ≡ length released.old.items }
    ensures marks { (before : List LinkEvent) → OnOk result (AreMarked before released.old.items
        → AreMarked (before ++ event ∷ []) released.new.items) }
    ensures arrives { (before : List LinkEvent) → OnOk result (AreMarked before released.old.items
        → arrived.new.items ≡ arrived.old.items ++ arrival (length released.old.items) before event) }
{
    if let Some(frame) = arriving(released, event) {
        arrived.push(frame)?;
    }
    note(released, event);
    Ok(())
}

/// The frame that arrives at an event, if one does.
fn arriving(released: &[bool], event: LinkEvent) -> Option<u32>
    ensures { (before : List LinkEvent) → AreMarked before released.now
        → option_to_list result ≡ arrival (length released.now) before event }
{
    match event {
        LinkEvent::Release(_) => None,
        LinkEvent::Deliver(frame) => match released.get(frame as usize) {
            Some(true) => Some(frame),
            _ => None,
        },
    }
}

/// Notes that a frame was released.
fn note(released: &mut Vec<bool>, event: LinkEvent)
    ensures size { length released.new.items ≡ length released.old.items }
    ensures marks { (before : List LinkEvent) → AreMarked before released.old.items
        → AreMarked (before ++ event ∷ []) released.new.items }
{
    if let LinkEvent::Release(frame) = event {
        let frame = frame as usize;
        if frame < released.len() {
            released[frame] = true;
        }
    }
}

/// The fate of the frame with this number in its chunk, counted from 0.
pub fn fate(k: u32) -> Fate
    ensures { result ≡ fate_of k }
{
    if k % 7 == 3 {
        Fate::Lost
    } else if k % 16 == 5 {
        Fate::Late
    } else if k % 5 == 2 {
        Fate::Twice
    } else {
        Fate::Once
    }
}

/// Whether the link loses the frame with this number in its chunk.
pub fn is_lost(k: u32) -> bool
    ensures { result ≡ is_lost (fate_of k) }
{
    match fate(k) {
        Fate::Lost => true,
        Fate::Once | Fate::Twice | Fate::Late => false,
    }
}

/// Adds what is delivered of a frame in its turn.
fn add_turn(events: &mut Vec<LinkEvent>, k: u32) -> Result<(), NoMemory>
    ensures { OnOk result (events.new.items ≡ events.old.items ++ map Deliver (in_turn k (fate_of k))) }
{
    match fate(k) {
        Fate::Lost | Fate::Late => {}
        Fate::Once => events.push(LinkEvent::Deliver(k))?,
        Fate::Twice => events.extend_from_slice(&[LinkEvent::Deliver(k), LinkEvent::Deliver(k)])?,
    }
    Ok(())
}

/// Adds what is delivered of a frame when all had their turn.
fn add_late(events: &mut Vec<LinkEvent>, k: u32) -> Result<(), NoMemory>
    ensures { OnOk result (events.new.items ≡ events.old.items ++ map Deliver (late k (fate_of k))) }
{
    match fate(k) {
        Fate::Late => events.push(LinkEvent::Deliver(k))?,
        Fate::Lost | Fate::Once | Fate::Twice => {}
    }
    Ok(())
}

/// Adds what is delivered of so many frames in their turns.
#[tactic(auto, using(crate::proofs::Delivering::one_turn, crate::proofs::Delivering::none_yet))]
fn add_turns(events: &mut Vec<LinkEvent>, count: u32) -> Result<(), NoMemory>
    ensures { OnOk result (events.new.items ≡ events.old.items ++ map Deliver (turns count)) }
{
    for k in 0..count {
        add_turn(events, k)?;
    }
    Ok(())
}

/// Adds the late ones of so many frames.
#[tactic(auto, using(crate::proofs::Delivering::one_late, crate::proofs::Delivering::none_yet))]
fn add_lates(events: &mut Vec<LinkEvent>, count: u32) -> Result<(), NoMemory>
    ensures { OnOk result (events.new.items ≡ events.old.items ++ map Deliver (lates count)) }
{
    for k in 0..count {
        add_late(events, k)?;
    }
    Ok(())
}

/// Adds what a link delivers of a chunk of so many frames, behind their releases: each frame in its turn, none, one or
/// two times; then the late ones, in their order.
#[tactic(auto, using(crate::proofs::Delivering::both_parts))]
pub fn add_deliveries(events: &mut Vec<LinkEvent>, count: u32) -> Result<(), NoMemory>
    ensures { OnOk result (events.new.items ≡ events.old.items ++ map Deliver (deliveries count)) }
{
    add_turns(events, count)?;
    add_lates(events, count)
}

/// Law: whatever happens on a link, the frames that arrive were delivered in this order, each after its release, and
/// are of those counted; and each such delivery arrives.
pub fn arrivals_were_released()
    ensures below { (count : ℕ) (events : List LinkEvent) → All (λ frame. frame < count) (arrivals count events) }
    ensures delivered { (count : ℕ) (events : List LinkEvent) → AreDelivered events 0 (arrivals count events) }
    ensures all { (count : ℕ) (events : List LinkEvent) (place frame : ℕ) → frame < count
        → IsDeliveredAt events place frame → Contains (arrivals count events) frame }
{}

/// Law: if each frame of a chunk was released, its deliveries all arrive, behind what arrived before.
pub fn released_chunk_arrives()
    ensures { (count : ℕ) (before : List LinkEvent)
        → ((frame : ℕ) → frame < count → Contains before (Release frame))
        → arrivals count (before ++ map Deliver (deliveries count)) ≡ arrivals count before ++ deliveries count }
{}
