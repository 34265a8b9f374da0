//! The beginning and the end of the counters, and the shares of their workers.
ghost use Rattle.std.specs.Prelude.{◌≡◌, ◌+◌, ◌*◌, ◌<◌, ◌≤◌, ℕ, false, true, Some, IfOk, replicate, slice_set};
ghost use Rattle.std.specs.Prelude.{slice_index, length, vec_capacity, []};
ghost use mathlib.Core.Option.{some};
ghost use lib.ListN.{get_elem?};
ghost use Rattle.std.specs.Mem.Slots.{slots_items, slots_len, IsFull};
ghost use Rattle.sdls_base.specs.Numbers.{tally};
ghost use Rattle.counter_table.specs.declared.drawing.TheConstants.{ROW_WORDS};
ghost use Rattle.counter_table.specs.declared.turns.TheConstants.{EPOCH};
ghost use Rattle.counter_table.specs.Numbers.{ALL_SHARES, joined, keeper, newcomer};
ghost use Rattle.counter_table.specs.Turn.{beginner, merged};
ghost use Rattle.counter_table.specs.Rule.{next_at};
ghost use Rattle.counter_table.specs.Play.{first_view};
ghost use Rattle.counter_table.specs.Close.{ClosesCounters};
ghost use Rattle.counter_table.specs.Whole.{IsWhole, Look, Meet};
ghost use Rattle.counter_table.specs.Worker.{view, rows_of, IsOf, IsSame};

use crate::counters::{Counters, Worker};
use crate::drawing::{ROW_WORDS, next_word};
use crate::rule::{Counted, Looks, Shares, Told};
use crate::turns::EPOCH;
use atomic_table::{Closed, Table};
use sdls_base::NoMemory;
use std::alloc::{AllocError, Global};
use std::marker::Brand;

// The words at the start: turn and epoch are 0, and each row begins with 1.
fn first_words(alloc: Global, rows: u16) -> Result<Vec<u64>, AllocError>
    ensures { IfOk result (λ words. words.items ≡ slice_set (slice_set (replicate (ROW_WORDS * rows + ROW_WORDS) 1) 0 0)
        EPOCH 0) }
{
    let mut words = Vec::from_elem(alloc, 1, ROW_WORDS * usize::from(rows) + ROW_WORDS)?;
    words[0] = 0;
    words[EPOCH] = 0;
    Ok(words)
}

impl<B: Counted> Counters<B> {
    /// Counters of so many rows, each with `next` and `limit` 1, with no book yet, and the first worker, which has all
    /// shares.
    pub fn new(alloc: Global, rows: u16) -> Result<(Counters<B>, Worker<B>), NoMemory>
        requires { 0 < rows }
        ensures { IfOk result (λ made. (rows_of made.0 ≡ rows) × IsOf made.0 made.1 × (view made.1 ≡ first_view)) }
    {
        let room = Vec::with_capacity(alloc, usize::from(rows))?;
        let words = first_words(alloc, rows)?;
        let (table, seat) = Table::vacant(alloc, &words, 1, &rows)?;
        Ok((Counters { table, rows, room }, Worker { seat }))
    }

    /// Gives one of the worker's shares to a new worker, which has seen as much.
    pub fn split(&self, worker: &mut Worker<B>) -> Worker<B>
        requires own { IsOf self.now worker.old }
        requires two { 1 < (view worker.old).numbers.shares }
        ensures same { IsSame worker.old worker.new }
        ensures keeper { view worker.new ≡ record {
          numbers = keeper (view worker.old).numbers;
          turn =
              (view worker.old).turn;
        } }
        ensures own { IsOf self.now result }
        ensures newcomer { view result ≡ record {
          numbers = newcomer (view worker.old).numbers;
          turn = beginner
              (view worker.old).turn;
        } }
    {
        let seat = self.table.shared.split_seat::<Shares>(&mut worker.seat);
        Worker { seat }
    }

    /// Ends the other worker. All that it did and knew is then this one's.
    pub fn join(&self, worker: &mut Worker<B>, other: Worker<B>)
        requires own { IsOf self.now worker.old }
        requires others { IsOf self.now other }
        requires free { (view other).turn.holds ≡ false }
        ensures same { IsSame worker.old worker.new }
        ensures joined { view worker.new ≡ record {
          numbers = joined (view worker.old).numbers (view other).numbers;
          turn = merged (view worker.old).turn (view other).turn;
        } }

        // No number of a row was drawn twice, be it by one of the two or by both.
        ensures apart { (row x : ℕ) → row < rows_of self.now
            → tally row x (view worker.old).numbers.drawn + tally row x (view other).numbers.drawn ≤ 1 }

        // What both knew is of an earlier time, and no place was made twice.
        ensures meet { (view worker.old).turn.holds ≡ false → (view worker.old).turn.filled ≡ true
            → Meet (view worker.old).turn (view other).turn }

        // Who has all shares did all.
        ensures whole { (view worker.new).numbers.shares ≡ ALL_SHARES → IsWhole (rows_of self.now) (view worker.new) }
    {
        let seat = other.into_seat();
        self.table
            .shared
            .join_seat::<Shares>(&mut worker.seat, seat);
        self.look::<Brand>(worker, self.rows);
    }

    /// Ends the counters, and gives the book and each row's word `next`. All workers but this one were joined.
    pub fn close(self, worker: Worker<B>) -> (B, Vec<u64>)
        requires own { IsOf self worker }
        requires all { (view worker).numbers.shares ≡ ALL_SHARES }
        requires free { (view worker).turn.holds ≡ false }
        requires filled { (view worker).turn.filled ≡ true }
        ensures { ClosesCounters (rows_of self) (view worker) (B.told result.0) result.1.items }
    {
        let (table, rows, room) = self.into_parts();
        let mut closed = table.close_with(worker.into_seat());
        let nexts = nexts_of(&closed, rows, room);
        let last = closed.take(0);
        closed.free();
        let Some(book) = last else { unreachable!() };
        (book, nexts)
    }

    // A load that shows that no number was drawn twice, and what all shares mean.
    fn look<T: Told>(&self, worker: &mut Worker<B>, rows: u16)
        requires own { IsOf self.now worker.old }
        requires rows { (rows ≡ rows_of self.now) × (rows ≡ T.number) }
        ensures same { IsSame worker.old worker.new }
        ensures view { view worker.new ≡ view worker.old }
        ensures apart { (row x : ℕ) → row < rows → tally row x (view worker.old).numbers.drawn ≤ 1 }
        ensures whole { (view worker.old).numbers.shares ≡ ALL_SHARES → IsWhole rows (view worker.old) }
        ensures look { Look (view worker.old).turn }
    {
        // For contracts alone.
        let _rows = rows;
        self.table.shared.load::<Looks<T>>(&mut worker.seat, EPOCH);
    }
}

// The rows' words `next`, in the room that was kept for them.
fn nexts_of<S>(closed: &Closed<S, Global>, rows: u16, mut room: Vec<u64>) -> Vec<u64>
    requires size { slots_len closed.now.words ≡ ROW_WORDS * rows + ROW_WORDS }
    requires full { IsFull closed.now.words }
    requires room { (room.items ≡ []) × (rows ≤ vec_capacity room) }
    ensures rows { length result.items ≡ rows }
    ensures nexts { (row : ℕ) → row < rows → slice_index result.items row
        ≡ slice_index (slots_items closed.now.words) (next_at row) }
{
    for row in 0..rows {
        room.push_reserved(closed.word(next_word(row)));
    }
    room
}
