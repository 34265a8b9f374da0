//! The turn, the book and the epoch. Of these calls `take` alone waits.
ghost use Rattle.std.specs.Prelude.{◌≡◌, ◌+◌, ◌<◌, ◌≤◌, ◌^◌, ℕ, true, false, [], ◌∷◌, Some, None, max, slice_index_or};
ghost use Rattle.counter_table.specs.Known.{known_mark, LowersNoMark, MayFill, MayGive};
ghost use Rattle.counter_table.specs.Numbers.{lifting, raising, top, ALL_SHARES};
ghost use Rattle.counter_table.specs.Turn.{epoch_seen, filling, giving, learning, seeing, taking, turning};
ghost use Rattle.counter_table.specs.Play.{Follows, IsAsKnown, IsCovered, Took};
ghost use Rattle.counter_table.specs.Worker.{view, rows_of, IsOf, IsSame, KeepsNumbers, KeepsTurn};

use crate::counters::{Counters, Held, Worker};
use crate::drawing::{limit_word, next_word};
use crate::rule::{Counted, Empties, Fills, Gives, Lifts, Raises, Sees, Takes, Told, Turns};
use crate::view::View;
use atomic_table::Seat;
use std::marker::Brand;
use std::sync::Wait;

// The word of the turn, and what it holds.
const TURN: usize = 0;

const FREE: u64 = 0;

const TAKEN: u64 = 2;

// Taken, and waited for.
const WAITED: u64 = 3;

/// The word of the epoch: on a cache line of its own, which no turn writes to.
pub(crate) const EPOCH: usize = 8;

impl<B: Counted> Counters<B> {
    /// Writes the first book in its place. All workers but this one were joined.
    pub fn fill(&self, worker: &mut Worker<B>, book: B)
        requires own { IsOf self.now worker.old }
        requires all { (view worker.old).numbers.shares ≡ ALL_SHARES }
        requires free { (view worker.old).turn.holds ≡ false }
        requires first { (view worker.old).turn.filled ≡ false }
        requires book { MayFill (B.told book) }
        ensures same { KeepsNumbers worker.old worker.new }
        ensures turn { (view worker.new).turn ≡ filling (B.told book) (view worker.old).turn }
    {
        let shared = &self.table.shared;
        shared.swap::<Empties>(&mut worker.seat, TURN, TAKEN);
        self.put_in(&mut worker.seat, book);
        shared.swap::<Fills>(&mut worker.seat, TURN, FREE);
    }

    /// Takes the turn, and with it the book. Waits while another worker holds the turn.
    pub fn take<R: Wait>(&self, rt: &R, worker: &mut Worker<B>) -> Held<B>
        requires own { IsOf self.now worker.old }
        requires free { (view worker.old).turn.holds ≡ false }
        requires filled { (view worker.old).turn.filled ≡ true }
        ensures same { KeepsNumbers worker.old worker.new }
        ensures turn { (view worker.new).turn ≡ taking (B.told result.book) (view worker.old).turn }
        ensures follows { Follows (view worker.old).turn (B.told result.book) }

        // No number was spent that is not below its row's mark.
        ensures covered { IsCovered (rows_of self.now) (view worker.old).numbers (B.told result.book) }

        // Who has all shares finds the book as it was known.
        ensures as_known { (view worker.old).numbers.shares ≡ ALL_SHARES
            → IsAsKnown (view worker.old).turn (B.told result.book) }
    {
        self.seize::<Brand, R>(rt, &mut worker.seat, self.rows);
        let book = self.lift_out(&mut worker.seat);
        Held { book }
    }

    /// Gives the book and the turn back.
    pub fn give(&self, worker: &mut Worker<B>, held: Held<B>)
        requires own { IsOf self.now worker.old }
        requires turn { (view worker.old).turn.holds ≡ true }
        requires filled { (view worker.old).turn.filled ≡ true }
        requires book { MayGive (view worker.old).turn.known (B.told held.book) }
        ensures same { KeepsNumbers worker.old worker.new }
        ensures turn { (view worker.new).turn ≡ giving (B.told held.book) (view worker.old).turn }
    {
        let Held { book } = held;
        self.put_in(&mut worker.seat, book);
        let shared = &self.table.shared;
        if shared.swap::<Gives>(&mut worker.seat, TURN, FREE) == WAITED {
            shared.wake_one(TURN);
        }
    }

    /// Lifts the row's limit to the mark of the held book, by one fetch-max.
    pub fn lift(&self, worker: &mut Worker<B>, held: &Held<B>, row: u16)
        requires own { IsOf self.now worker.old }
        requires row { row < rows_of self.now }
        requires turn { (view worker.old).turn.holds ≡ true }
        requires filled { (view worker.old).turn.filled ≡ true }
        requires marks { LowersNoMark (view worker.old).turn.known (B.told held.now.book) }
        ensures same { IsSame worker.old worker.new }
        ensures numbers { (view worker.new).numbers ≡ lifting row (known_mark (B.told held.now.book) row)
            (view worker.old).numbers }
        ensures turn { (view worker.new).turn ≡ learning (B.told held.now.book).marks (view worker.old).turn }
    {
        let mark = held.book.mark(row);
        self.max_to_lift::<Brand>(worker, held, row, mark);
    }

    /// Raises the row's word `next` to the number, by one fetch-max, and answers the word before.
    pub fn raise_next(&self, worker: &mut Worker<B>, _held: &Held<B>, row: u16, number: u64) -> u64
        requires own { IsOf self.now worker.old }
        requires row { row < rows_of self.now }
        requires turn { (view worker.old).turn.holds ≡ true }
        requires number { number ≤ 2 ^ 48 }
        ensures same { KeepsTurn worker.old worker.new }
        ensures found { top row (view worker.old).numbers.nexts ≤ result }
        ensures positive { 0 < result }
        ensures numbers { (view worker.new).numbers ≡ raising row number result (view worker.old).numbers }
    {
        self.max_to_raise::<Brand>(worker, row, number)
    }

    /// The epoch, by one load.
    pub fn see_epoch(&self, worker: &mut Worker<B>) -> u64
        requires { IsOf self.now worker.old }
        ensures same { KeepsNumbers worker.old worker.new }
        ensures turn { (view worker.new).turn ≡ seeing result (view worker.old).turn }
        ensures seen { epoch_seen (view worker.old).turn ≤ result }

        // The holder of the turn finds the count that it knows.
        ensures held { (view worker.old).turn.holds ≡ true → result ≡ (view worker.old).turn.known.changes }
    {
        self.table.shared.load::<Sees>(&mut worker.seat, EPOCH)
    }

    /// Turns the epoch to the held book's count of changes, which is one above, by one fetch-add.
    pub fn turn_epoch(&self, worker: &mut Worker<B>, held: &Held<B>)
        requires own { IsOf self.now worker.old }
        requires turn { (view worker.old).turn.holds ≡ true }
        requires filled { (view worker.old).turn.filled ≡ true }
        requires changes { (B.told held.now.book).changes ≡ (view worker.old).turn.known.changes + 1 }
        ensures same { KeepsNumbers worker.old worker.new }
        ensures turn { (view worker.new).turn ≡ turning (view worker.old).turn }
    {
        let changes = held.book.changes();
        self.add_to_epoch(worker, changes);
    }

    fn add_to_epoch(&self, worker: &mut Worker<B>, changes: u64)
        requires own { IsOf self.now worker.old }
        requires turn { (view worker.old).turn.holds ≡ true }
        requires filled { (view worker.old).turn.filled ≡ true }
        requires changes { changes ≡ (view worker.old).turn.known.changes + 1 }
        ensures same { KeepsNumbers worker.old worker.new }
        ensures turn { (view worker.new).turn ≡ turning (view worker.old).turn }
    {
        let before = self
            .table
            .shared
            .fetch_add::<Turns>(&mut worker.seat, EPOCH, 1);
        prove!(before + 1 == changes);
    }

    fn max_to_lift<T: Told>(&self, worker: &mut Worker<B>, held: &Held<B>, row: u16, mark: u64)
        requires own { IsOf self.now worker.old }
        requires row { row < rows_of self.now }
        requires turn { (view worker.old).turn.holds ≡ true }
        requires filled { (view worker.old).turn.filled ≡ true }
        requires marks { LowersNoMark (view worker.old).turn.known (B.told held.now.book) }
        requires mark { mark ≡ known_mark (B.told held.now.book) row }
        requires told { (row ≡ T.of_row) × (mark ≡ T.number) × ((B.told held.now.book).marks ≡ T.marks) }
        ensures same { IsSame worker.old worker.new }
        ensures numbers { (view worker.new).numbers ≡ lifting row mark (view worker.old).numbers }
        ensures turn { (view worker.new).turn ≡ learning (B.told held.now.book).marks (view worker.old).turn }
    {
        // For contracts alone.
        let _held = held;
        let at = limit_word(row);
        self.table
            .shared
            .fetch_max::<Lifts<T>>(&mut worker.seat, at, mark);
    }

    fn max_to_raise<T: Told>(&self, worker: &mut Worker<B>, row: u16, number: u64) -> u64
        requires own { IsOf self.now worker.old }
        requires row { row < rows_of self.now }
        requires number { number ≤ 2 ^ 48 }
        requires told { (row ≡ T.of_row) × (number ≡ T.number) }
        ensures same { KeepsTurn worker.old worker.new }
        ensures found { top row (view worker.old).numbers.nexts ≤ result }
        ensures positive { 0 < result }
        ensures numbers { (view worker.new).numbers ≡ raising row number result (view worker.old).numbers }
    {
        let at = next_word(row);
        self.table
            .shared
            .fetch_max::<Raises<T>>(&mut worker.seat, at, number)
    }

    // Swaps the turn's word until it was free.
    fn seize<T: Told, R: Wait>(&self, rt: &R, seat: &mut Seat<Option<B>, View>, rows: u16)
        requires rows { (rows ≡ rows_of self.now) × (rows ≡ T.number) }
        requires own { seat.old.table_id ≡ self.now.table.shared.table_id }
        requires alive { 0 < seat.old.me.0.numbers.shares }
        requires filled { seat.old.me.0.turn.filled ≡ true }
        ensures same { (seat.new.table_id ≡ seat.old.table_id) × (seat.new.id ≡ seat.old.id) }
        ensures took { Took B.told rows seat.old.me seat.new.me }
    {
        // For contracts alone.
        let _rows = rows;
        let shared = &self.table.shared;
        let mut taken = TAKEN;
        for _ in rt.forever() {
            if shared.swap::<Takes<T>>(seat, TURN, taken) == FREE {
                return;
            }
            taken = WAITED;
            shared.park(rt, TURN, WAITED as u32);
        }
        unreachable!()
    }

    // Takes the book out of its slot.
    fn lift_out(&self, seat: &mut Seat<Option<B>, View>) -> B
        requires own { seat.old.table_id ≡ self.now.table.shared.table_id }
        requires full { (book : B) × (seat.old.me.1 ≡ (0, Some book) ∷ []) }
        ensures same { (seat.new.table_id ≡ seat.old.table_id) × (seat.new.id ≡ seat.old.id) }
        ensures book { seat.old.me.1 ≡ (0, Some result) ∷ [] }
        ensures empty { seat.new.me ≡ (seat.old.me.0, (0, None) ∷ []) }
    {
        let found = self.table.shared.exchange(seat, 0, None);
        let Some(book) = found else { unreachable!() };
        book
    }

    // Writes a book into its slot.
    fn put_in(&self, seat: &mut Seat<Option<B>, View>, book: B)
        requires own { seat.old.table_id ≡ self.now.table.shared.table_id }
        requires empty { seat.old.me.1 ≡ (0, None) ∷ [] }
        ensures same { (seat.new.table_id ≡ seat.old.table_id) × (seat.new.id ≡ seat.old.id) }
        ensures full { seat.new.me ≡ (seat.old.me.0, (0, Some book) ∷ []) }
    {
        let found = self.table.shared.exchange(seat, 0, Some(book));
        let None = found else { unreachable!() };
    }
}
