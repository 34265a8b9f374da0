ghost use Rattle.std.specs.Prelude.{◌≡◌, ◌<◌, ◌≤◌, ◌^◌, ℕ, [], ◌∷◌, false, true, IfSome};
ghost use Rattle.counter_table.specs.Known.{unopened};
ghost use Rattle.counter_table.specs.Worker.{view, rows_of, IsOf};

use counter_table::{Arm, Counted, Counters, Worker};
use std::alloc::Global;
use std::sync::Wait;
use std::test::Fail;
use std::thread::{Threads, join};

const END: u64 = 1 << 40;

const TIMES: u64 = 1000;

// A book of one row, which also counts how often it was held.
#[derive(Drop)]
struct Tally {
    mark: u64,
    changes: u64,
    held: u64,
}

impl Counted for Tally {
    ghost told = { λ t. record {
      marks = t.mark ∷ [];
      log = [];
      changes = t.changes;
      faults = 0;
      standing = 0;
      put_faults = 0;
      opening = unopened;
    } };

    fn mark(&self, row: u16) -> u64 {
        match row {
            0 => self.mark,
            _ => 1,
        }
    }

    fn changes(&self) -> u64 {
        self.changes
    }
}

// Draws numbers from row 0. `None` if memory or the numbers ran out.
fn drawn<B: Counted>(
    alloc: Global,
    counters: &Counters<B>,
    mut worker: Worker<B>,
) -> Option<(Worker<B>, Vec<u64>)>
    requires own { IsOf counters.now worker }
    requires row { 0 < rows_of counters.now }
    requires free { (view worker).turn.holds ≡ false }
    ensures own { IfSome result (λ r. IsOf counters.now r.0) }
    ensures free { IfSome result (λ r. (view r.0).turn.holds ≡ false) }
{
    let mut numbers = Vec::new(alloc);
    for _ in 0..TIMES {
        let Arm::Armed(armed) = counters.arm(&mut worker, 0, END) else {
            return None;
        };
        let ticket = counters.draw(&mut worker, armed);
        numbers.push(ticket.number()).ok()?;
    }
    Some((worker, numbers))
}

#[test]
fn two_threads_draw_different_numbers(rt: HostRuntime) -> Result<(), Fail> {
    let (counters, mut first) = Counters::<Tally>::new(rt.alloc(), 1)?;
    let second = counters.split(&mut first);
    let alloc = rt.alloc();
    let shared = &counters;
    let (one, two) = join(
        &rt,
        move || drawn(alloc, shared, first),
        move || drawn(alloc, shared, second),
    );
    let (mut first, mut numbers) = one.ok_or("memory")?;
    let (second, others) = two.ok_or("memory")?;
    counters.join(&mut first, second);
    numbers.extend_from_slice(&others)?;
    numbers.sort()?;
    for (number, wanted) in numbers.iter().zip(1..=2 * TIMES) {
        assert_eq!(rt; *number, wanted);
    }
    assert_eq!(rt; numbers.len(), 2000);
    Ok(())
}

#[test]
fn numbers_end_below_the_end(rt: HostRuntime) -> Result<(), Fail> {
    let (counters, mut worker) = Counters::<Tally>::new(rt.alloc(), 2)?;
    for wanted in 1..3 {
        let Arm::Armed(armed) = counters.arm(&mut worker, 1, 3) else {
            panic!(rt; "a number is left")
        };
        let ticket = counters.draw(&mut worker, armed);
        assert_eq!(rt; ticket.number(), wanted);

        // No limit was lifted, so the ticket comes back.
        let Err(ticket) = counters.peek_limit(&mut worker, ticket) else {
            panic!(rt; "no number is funded")
        };
        assert_eq!(rt; ticket.number(), wanted);
    }
    let Arm::Exhausted(found) = counters.arm(&mut worker, 1, 3) else {
        panic!(rt; "no number is left")
    };
    assert_eq!(rt; found, 3);
    Ok(())
}

const FIRST: Tally = Tally {
    mark: 11,
    changes: 0,
    held: 0,
};

#[test]
fn a_raise_never_lowers(rt: HostRuntime) -> Result<(), Fail> {
    let (counters, mut worker) = Counters::<Tally>::new(rt.alloc(), 1)?;
    counters.fill(&mut worker, FIRST);
    let held = counters.take(&rt, &mut worker);
    let before = counters.raise_next(&mut worker, &held, 0, 10);
    assert_eq!(rt; before, 1);
    let before = counters.raise_next(&mut worker, &held, 0, 5);
    assert_eq!(rt; before, 10);
    counters.give(&mut worker, held);
    let Arm::Armed(armed) = counters.arm(&mut worker, 0, END) else {
        panic!(rt; "a number is left")
    };
    let ticket = counters.draw(&mut worker, armed);
    assert_eq!(rt; ticket.number(), 10);
    Ok(())
}

#[test]
fn a_number_below_the_mark_is_funded(rt: HostRuntime) -> Result<(), Fail> {
    let (counters, mut worker) = Counters::<Tally>::new(rt.alloc(), 1)?;
    counters.fill(&mut worker, FIRST);
    let held = counters.take(&rt, &mut worker);
    counters.lift(&mut worker, &held, 0);
    counters.give(&mut worker, held);
    let Arm::Armed(armed) = counters.arm(&mut worker, 0, END) else {
        panic!(rt; "a number is left")
    };
    let ticket = counters.draw(&mut worker, armed);
    let Ok(funded) = counters.peek_limit(&mut worker, ticket) else {
        panic!(rt; "the number is funded")
    };
    assert_eq!(rt; funded.number(), 1);
    Ok(())
}

#[test]
fn the_epoch_follows_the_changes(rt: HostRuntime) -> Result<(), Fail> {
    let (counters, mut worker) = Counters::<Tally>::new(rt.alloc(), 1)?;
    counters.fill(&mut worker, FIRST);
    let mut held = counters.take(&rt, &mut worker);
    let Some(changes) = held.book.changes.checked_add(1) else {
        panic!(rt; "there was no change before")
    };
    held.book.changes = changes;
    counters.turn_epoch(&mut worker, &held);
    counters.give(&mut worker, held);
    let epoch = counters.see_epoch(&mut worker);
    assert_eq!(rt; epoch, 1);
    Ok(())
}

// Takes the book and counts, so many times.
fn counted<R: Wait>(rt: &R, counters: &Counters<Tally>, mut worker: Worker<Tally>) -> Worker<Tally>
    requires own { IsOf counters.now worker }
    requires free { (view worker).turn.holds ≡ false }
    requires filled { (view worker).turn.filled ≡ true }
    ensures own { IsOf counters.now result }
    ensures free { (view result).turn.holds ≡ false }
    ensures filled { (view result).turn.filled ≡ true }
    ensures shares { (view result).numbers.shares ≡ (view worker).numbers.shares }
{
    for _ in 0..TIMES {
        let mut held = counters.take(rt, &mut worker);
        held.book.held = held.book.held.wrapping_add(1);
        counters.give(&mut worker, held);
    }
    worker
}

#[test]
fn two_threads_take_turns(rt: HostRuntime) -> Result<(), Fail> {
    let (counters, mut first) = Counters::<Tally>::new(rt.alloc(), 1)?;
    counters.fill(&mut first, FIRST);
    let second = counters.split(&mut first);
    let shared = &counters;
    let (mut first, second) = join(
        &rt,
        move || counted(&rt, shared, first),
        move || counted(&rt, shared, second),
    );
    counters.join(&mut first, second);
    let (book, _nexts) = counters.close(first);
    assert_eq!(rt; book.held, 2000);
    assert_eq!(rt; book.mark, 11);
    Ok(())
}
