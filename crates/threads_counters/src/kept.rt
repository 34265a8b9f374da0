ghost use Rattle.std.specs.Prelude.{◌≡◌, ◌*◌, ℕ, ⊤};

use kept_threads::{Fresh, Helper, Jobs, Named, Work};
use std::alloc::Global;
use std::marker::Brand;
use std::sync::Wait;
use std::sync::atomic::{AtomicU64, Ordering};
use std::test::Fail;
use std::thread;
use std::thread::Threads;

/// How often both threads have a job.
const ROUNDS: u32 = 8;

/// The turns that a job waits for another at most, and lets other threads run.
const TURNS: u32 = 2_000_000;

/// Numbers are doubled, those of a round at the same time.
#[derive(Drop)]
struct Doubling {
    begun: AtomicU64,
    missed: AtomicU64,
}

impl Doubling {
    fn new() -> Self {
        Doubling {
            begun: AtomicU64::new(0),
            missed: AtomicU64::new(0),
        }
    }

    fn has_missed(&self) -> bool {
        self.missed.load(Ordering::SeqCst) != 0
    }

    /// Waits until so many jobs have begun, or until another gave up. If they never begin, it is noted.
    fn wait(&self, all: u64) {
        for _ in 0..TURNS {
            if self.begun.load(Ordering::SeqCst) >= all || self.has_missed() {
                return;
            }
            thread::yield_now();
        }
        self.missed.store(1, Ordering::SeqCst);
    }
}

impl Work<u32, u64> for Doubling {
    ghost can = { λ _. ⊤ };

    ghost does = { λ number double. double ≡ 2 * number };

    /// The numbers of round r are 2 r and 2 r + 1.
    fn work(&self, number: u32) -> u64 {
        self.begun.fetch_add(1, Ordering::SeqCst);
        let number = u64::from(number);
        self.wait(2 * (number / 2) + 2);
        2 * number
    }
}

// The place and the answer of each number. `None` if memory ran out.
fn doubles<R: Wait, N: Named>(
    rt: &R,
    alloc: Global,
    jobs: &mut Jobs<u32, N>,
    one: &Helper<u32, u64, N, Doubling>,
    two: &Helper<u32, u64, N, Doubling>,
) -> Option<Vec<(u64, u64)>> {
    let mut answers = Vec::new(alloc);
    for round in 0..ROUNDS {
        let first = one.hand(rt, jobs, 2 * round).ok()?;
        let second = two.hand(rt, jobs, 2 * round + 1).ok()?;
        let of_second = two.take(rt, jobs, second);
        let of_first = one.take(rt, jobs, first);
        answers.push((first, of_first)).ok()?;
        answers.push((second, of_second)).ok()?;
    }
    Some(answers)
}

// The same, by threads that are started here and end with the call.
fn doubles_there<'e, R: Threads + Wait + Sync, N: Named + Send>(
    rt: &'e R,
    alloc: Global,
    work: &'e Doubling,
    fresh: Fresh<u32>,
) -> Option<Vec<(u64, u64)>>
    requires { fresh ≡ N.book }
{
    thread::scope(
        thread::scope_env(),
        rt,
        move |scope| -> Option<Vec<(u64, u64)>>
            requires { fresh ≡ N.book }
        {
            let mut jobs: Jobs<u32, N> = Jobs::new(fresh);
            let one = Helper::start(scope, rt, alloc, work).ok()?;
            let two = Helper::start(scope, rt, alloc, work).ok()?;
            doubles(rt, alloc, &mut jobs, &one, &two)
        },
    )
}

// The same, by a log that is opened here.
fn doubled<R: Threads + Wait + Sync>(
    rt: &R,
    alloc: Global,
    work: &Doubling,
) -> Option<Vec<(u64, u64)>> {
    let fresh = Fresh::open();
    doubles_there::<R, Brand>(rt, alloc, work, fresh)
}

/// Each job waits until the other thread has begun its own: a helper that did its job before the next one is handed
/// would wait for itself. What was done comes back under the place of its job, whichever is asked for first.
#[test]
fn two_helpers_work_at_the_same_time(rt: HostRuntime) -> Result<(), Fail> {
    let alloc = rt.alloc();
    let work = Doubling::new();
    let answers = doubled(&rt, alloc, &work).ok_or("memory")?;
    assert!(rt; !work.has_missed());
    let wanted = (0..2 * u64::from(ROUNDS)).map(|place| (place, 2 * place));
    assert!(rt; answers.iter().copied().eq(wanted));
    Ok(())
}
