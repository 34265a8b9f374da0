ghost use Rattle.std.specs.Prelude.{IfSome};
ghost use Rattle.shared_unit.specs.Turn.{IsReady};

use crate::setting::{CLEAR, opened};
use case_units::{TELECOMMAND_SENDER, image_of_sender};
use sdls_outside::MemSite;
use shared_unit::{Protected, Unit, Worker};
use std::alloc::Global;
use std::sync::Wait;
use std::test::Fail;
use std::thread::{Threads, join};

const FRAMES: u64 = 10_000;

// Protects so many frames: the numbers that were used. `None` is a refusal, or that memory ran out.
fn protected<R: Wait>(
    rt: &R,
    alloc: Global,
    unit: &Unit<MemSite>,
    mut worker: Worker<MemSite>,
) -> Option<(Worker<MemSite>, Vec<u64>)>
    requires { IsReady unit.now.counters unit.now.plan worker }
    ensures { IfSome result (λ done. IsReady unit.now.counters unit.now.plan done.0) }
{
    let mut out = [0; 2048];
    let mut kept = None;
    let mut numbers = Vec::new(alloc);
    'frames: for _ in 0..FRAMES {
        match unit.protect(rt, &mut worker, &mut kept, 0, &CLEAR, &mut out) {
            Protected::Done(done) => numbers.push(done.number).ok()?,
            _ => return None,
        }
    }
    Some((worker, numbers))
}

// The same on two threads: a worker that is left, and the numbers of both.
fn protected_on_two<R: Threads + Wait + Sync>(
    rt: &R,
    alloc: Global,
    unit: &Unit<MemSite>,
    one: Worker<MemSite>,
    two: Worker<MemSite>,
) -> Option<(Worker<MemSite>, Vec<u64>, Vec<u64>)>
    requires one { IsReady unit.now.counters unit.now.plan one }
    requires two { IsReady unit.now.counters unit.now.plan two }
    ensures { IfSome result (λ done. IsReady unit.now.counters unit.now.plan done.0) }
{
    let (one, two) = join(
        rt,
        move || protected(rt, alloc, unit, one),
        move || protected(rt, alloc, unit, two),
    );
    let (worker, numbers) = one?;
    let (_, others) = two?;
    Some((worker, numbers, others))
}

/// Each reserve takes a slot of 16, so that the banks turn again and again meanwhile.
#[test]
fn two_threads_protect_under_one_key(rt: HostRuntime) -> Result<(), Fail> {
    let alloc = rt.alloc();
    let image = image_of_sender(alloc, 16, 64, TELECOMMAND_SENDER).ok_or("no image")?;
    let (unit, mut first) = opened(&rt, alloc, image, Vec::new(alloc)).ok_or("no unit")?;
    let second = unit.split(&mut first);
    let (mut worker, mut numbers, others) = protected_on_two(
        &rt, alloc, &unit, first, second,
    ).ok_or("not protected")?;
    numbers.extend_from_slice(&others)?;
    numbers.sort()?;
    numbers.dedup();
    assert_eq!(rt; numbers.len(), 20_000);
    // A reserve moves the mark by 64 at least, and the last number is 20,000.
    assert!(rt; unit.count(&rt, &mut worker) <= 313);
    Ok(())
}
