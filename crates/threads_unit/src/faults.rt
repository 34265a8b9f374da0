ghost use Rattle.shared_unit.specs.Turn.{IsReady};

use crate::setting::{CLEAR, opened};
use case_units::{TELECOMMAND_SENDER, image_of_sender};
use sdls_outside::MemSite;
use shared_unit::{Protected, Unit, Worker};
use std::sync::Wait;
use std::test::Fail;
use std::thread::{Threads, join};
use unit_book::BookFault;

/// The site's call that syncs the gate of the first entry: calls 0 to 24 open the image, and 25 to 28 append that
/// entry.
const SYNC_OF_THE_GATE: u64 = 28;

// Why a frame is not protected, and after how many entries.
fn fault<R: Wait>(
    rt: &R,
    unit: &Unit<MemSite>,
    mut worker: Worker<MemSite>,
) -> Option<(BookFault, u64)>
    requires { IsReady unit.now.counters unit.now.plan worker }
{
    let mut out = [0; 2048];
    match unit.protect(rt, &mut worker, &mut None, 0, &CLEAR, &mut out) {
        Protected::Fault(fault, position) => Some((fault, position)),
        _ => None,
    }
}

// The same on another thread.
fn fault_there<R: Threads + Wait + Sync>(
    rt: &R,
    unit: &Unit<MemSite>,
    worker: Worker<MemSite>,
) -> Option<(BookFault, u64)>
    requires { IsReady unit.now.counters unit.now.plan worker }
{
    let (found, ()) = join(rt, move || fault(rt, unit, worker), || ());
    found
}

#[test]
fn a_fault_under_the_turn_stops_the_other_thread(rt: HostRuntime) -> Result<(), Fail> {
    let alloc = rt.alloc();
    let failing = vec![in alloc; SYNC_OF_THE_GATE]?;
    let image = image_of_sender(alloc, 16, 4, TELECOMMAND_SENDER).ok_or("no image")?;
    let (unit, mut first) = opened(&rt, alloc, image, failing).ok_or("no unit")?;
    let second = unit.split(&mut first);
    assert_eq!(rt;
        fault_there(&rt, &unit, first),
        Some((BookFault::SiteFault(1), 1))
    );
    assert_eq!(rt; fault(&rt, &unit, second), Some((BookFault::Stopped(1), 1)));
    Ok(())
}
