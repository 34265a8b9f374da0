//! Commands: the words are asked first, under the turn.
ghost use Rattle.std.specs.Prelude.{◌≡◌, ◌⊎◌, ◌<◌, ◌+◌, ℕ, Some, true};
ghost use Rattle.key_book.specs.KeyBook.{place_of};
ghost use Rattle.unit_book.specs.Book.{BookView, IsKept};
ghost use Rattle.unit_book.specs.Needs.{NamesKey};
ghost use Rattle.counter_table.specs.Known.{LowersNoMark};
ghost use Rattle.counter_table.specs.Worker.{view, IsSame, IsOf, KeepsNumbers};
ghost use Rattle.shared_unit.specs.Calls.{WithPosition};
ghost use Rattle.shared_unit.specs.Commanding.{IsCommanded, IsSeen, knowing};
ghost use Rattle.shared_unit.specs.Going.{GoesUp};
ghost use Rattle.shared_unit.specs.Sharing.{KnowsHeld};
ghost use Rattle.shared_unit.specs.Told.{known_of_book};
ghost use Rattle.shared_unit.specs.Turn.{FindsCovered, IsReady, Visits};
ghost use Rattle.ep_core.specs.declared.judging.Need.TheVariants as needs;

use crate::shared_book::SharedBook;
use crate::unit::{Unit, Worker};
use counter_table::{Counted, Held};
use ep_core::{Need, Reply};
use sdls_base::{KeyId, Seen};
use sdls_outside::Site;
use std::sync::Wait;
use unit_book::BookFault;

impl<O: Site> Unit<O> {
    // Draws a number of the key, reserves and spends it.
    fn draw_and_reserve(
        &self,
        worker: &mut Worker<O>,
        held: &mut Held<SharedBook<O>>,
        key: KeyId,
    ) -> Result<Seen, BookFault>
        requires own { IsOf self.now.counters worker.old }
        requires turn { (view worker.old).turn.holds ≡ true }
        requires filled { (view worker.old).turn.filled ≡ true }
        requires marks { LowersNoMark (view worker.old).turn.known
            (known_of_book held.old.book) }
        requires key { (row : ℕ) × (place_of held.old.book.state.keys key ≡ Some row) }
        requires kept { IsKept O.told held.old.book }
        ensures same { IsSame worker.old worker.new }
        ensures kept { IsKept O.told held.new.book }
        ensures goes_on { GoesUp held.old.book held.new.book }
        ensures seen { IsSeen (needs.Number key) result held.old.book held.new.book (view worker.old)
            (view worker.new) }
    {
        let row = held.book.row_in(key);
        let ticket = match self.draw_below(worker, row, key.end()) {
            Ok(ticket) => ticket,
            Err(number) => return Ok(Seen::Exhausted(number)),
        };
        let funded = self.reserve_and_spend(worker, held, key, row, ticket)?;
        Ok(Seen::Number(funded.number()))
    }

    // What the words show for a need of the held book.
    fn meet_need(
        &self,
        worker: &mut Worker<O>,
        held: &mut Held<SharedBook<O>>,
        need: Need,
    ) -> Result<Seen, BookFault>
        requires own { IsOf self.now.counters worker.old }
        requires turn { (view worker.old).turn.holds ≡ true }
        requires filled { (view worker.old).turn.filled ≡ true }
        requires marks { LowersNoMark (view worker.old).turn.known
            (known_of_book held.old.book) }
        requires names { NamesKey held.old.book.state need }
        requires kept { IsKept O.told held.old.book }
        ensures same { IsSame worker.old worker.new }
        ensures kept { IsKept O.told held.new.book }
        ensures goes_on { GoesUp held.old.book held.new.book }
        ensures seen { IsSeen need result held.old.book held.new.book (view worker.old) (view worker.new) }
    {
        match need {
            Need::Nothing => Ok(Seen::Nothing),
            Need::Look(key) => {
                let row = held.book.row_in(key);
                Ok(Seen::Word(self.counters.raise_next(worker, held, row, 1)))
            }
            Need::Raise(key, number) => {
                let row = held.book.row_in(key);
                Ok(Seen::Word(self.counters.raise_next(worker, held, row, number)))
            }
            Need::Number(key) => self.draw_and_reserve(worker, held, key),
        }
    }

    // Turns the epoch where the count of changes went on.
    fn turn_epoch_if_changed(&self, worker: &mut Worker<O>, held: &Held<SharedBook<O>>, before: u64)
        requires own { IsOf self.now.counters worker.old }
        requires turn { (view worker.old).turn.holds ≡ true }
        requires filled { (view worker.old).turn.filled ≡ true }
        requires known { (view worker.old).turn.known.changes ≡ before }
        requires one { (held.now.book.changes ≡ before) ⊎ (held.now.book.changes ≡ before + 1) }
        ensures same { KeepsNumbers worker.old worker.new }
        ensures turn { (view worker.new).turn ≡ knowing held.now.book.changes (view worker.old).turn }
    {
        if held.book.changes() != before {
            self.counters.turn_epoch(worker, held);
        }
    }

    // The command in the held book. The epoch is turned once its change is stored.
    fn do_command(
        &self,
        worker: &mut Worker<O>,
        held: &mut Held<SharedBook<O>>,
        index: u64,
        pdu: &[u8],
    ) -> Result<(Reply, u64), BookFault>
        requires own { IsOf self.now.counters worker.old }
        requires turn { (view worker.old).turn.holds ≡ true }
        requires filled { (view worker.old).turn.filled ≡ true }
        requires known { (view worker.old).turn.known ≡ known_of_book held.old.book }
        ensures same { IsSame worker.old worker.new }
        ensures was_kept { IsKept O.told held.old.book }
        ensures kept { IsKept O.told held.new.book }
        ensures goes_on { GoesUp held.old.book held.new.book }
        ensures holds { KnowsHeld (known_of_book held.new.book) (view worker.old).turn
            (view worker.new).turn }
        ensures step { IsCommanded index pdu.now result held.old.book held.new.book (view worker.old).numbers
            (view worker.new).numbers }
    {
        let Ok(need) = held.book.need(pdu) else {
            return Err(BookFault::NoMemory);
        };
        let seen = self.meet_need(worker, held, need)?;
        let before = held.book.changes();
        let reply = match held.book.command(index, pdu, seen) {
            Ok(reply) => reply,
            Err(fault) => return Err(fault),
        };
        self.turn_epoch_if_changed(worker, held, before);
        Ok(reply)
    }

    /// Handles the record with this number, whose octets are a message of a command (CCSDS 355.1-B-1): looks at the
    /// words that it needs, does it in the book, and turns the epoch where it changed the state. Answers the reply and
    /// its position. Beside a fault stands the count of the run's entries. A number that was drawn and a word that was
    /// raised for it stay so.
    pub fn command<R: Wait>(
        &self,
        rt: &R,
        worker: &mut Worker<O>,
        index: u64,
        pdu: &[u8],
    ) -> Result<(Reply, u64), (BookFault, u64)>
        requires ready { IsReady self.now.counters self.now.plan worker.old }
        ensures ready { IsReady self.now.counters self.now.plan worker.new }
        ensures same { IsSame worker.old worker.new }
        ensures shares { (view worker.new).numbers.shares ≡ (view worker.old).numbers.shares }
        ensures commanded { (found given : BookView)
            × Visits O.told found given (view worker.old).turn (view worker.new).turn
            × WithPosition result (known_of_book given)
            (λ answer. IsCommanded index pdu.now answer found given (view worker.old).numbers
            (view worker.new).numbers) }

        // No number was spent by the worker that is not below its row's mark in the book that the call found.
        ensures covered { FindsCovered O.told (view worker.old) (view worker.new) }
    {
        let mut held = self.counters.take(rt, worker);
        let result = self.do_command(worker, &mut held, index, pdu);
        let count = held.book.count();
        self.counters.give(worker, held);
        match result {
            Ok(reply) => Ok(reply),
            Err(fault) => Err((fault, count)),
        }
    }
}
