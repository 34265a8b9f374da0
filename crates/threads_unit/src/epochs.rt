ghost use Rattle.std.specs.Prelude.{◌≡◌};
ghost use Rattle.shared_unit.specs.Permit.{IsOfPermit, IsTrueFor};
ghost use Rattle.shared_unit.specs.Turn.{IsReady};
ghost use Rattle.counter_table.specs.Worker.{view};

use crate::setting::{CLEAR, opened};
use case_units::{TELECOMMAND_SENDER, image_of_sender};
use sdls_outside::MemSite;
use shared_unit::{Permit, PermitReply, Ready, Unit, Worker};
use std::sync::Wait;
use std::test::Fail;
use std::thread::{Threads, join};

/// The message that stops association 7.
const STOP: &[u8] = b"\x1e\x00\x10\x00\x07";

// Whether the association was stopped.
fn stop<R: Wait>(rt: &R, unit: &Unit<MemSite>, mut worker: Worker<MemSite>) -> bool
    requires { IsReady unit.now.counters unit.now.plan worker }
{
    unit.command(rt, &mut worker, 0, STOP).is_ok()
}

// The same on another thread.
fn stop_there<R: Threads + Wait + Sync>(
    rt: &R,
    unit: &Unit<MemSite>,
    worker: Worker<MemSite>,
) -> bool
    requires { IsReady unit.now.counters unit.now.plan worker }
{
    let (stopped, ()) = join(rt, move || stop(rt, unit, worker), || ());
    stopped
}

// The epoch in which the permit's frame is stale.
fn stale_epoch(unit: &Unit<MemSite>, mut worker: Worker<MemSite>, permit: &Permit) -> Option<u64>
    requires ready { IsReady unit.now.counters unit.now.plan worker }
    requires permit { IsTrueFor permit.now (view worker).turn }
    requires frame { IsOfPermit unit.now.plan permit.now CLEAR }
{
    let mut out = [0; 2048];
    match unit.protect_ready(&mut worker, permit, &CLEAR, &mut out) {
        Ready::Stale(epoch) => Some(epoch),
        _ => None,
    }
}

#[test]
fn a_stop_makes_the_other_threads_permit_stale(rt: HostRuntime) -> Result<(), Fail> {
    let alloc = rt.alloc();
    let image = image_of_sender(alloc, 16, 4, TELECOMMAND_SENDER).ok_or("no image")?;
    let (unit, mut first) = opened(&rt, alloc, image, Vec::new(alloc)).ok_or("no unit")?;
    let mut second = unit.split(&mut first);
    let PermitReply::Permit(permit) = unit.permit(&rt, &mut second, 0, &CLEAR) else {
        panic!(rt; "the association is operational")
    };
    assert!(rt; stop_there(&rt, &unit, first));
    let epoch = stale_epoch(&unit, second, &permit).ok_or("not stale")?;
    assert!(rt; permit.epoch < epoch);
    Ok(())
}
