//! The way of a number: a row is armed, the number is drawn, and it is spent below the limit. Each call is one step on
//! one word. What a step hands a worker for the next is spent by use: it can be neither copied nor made.
ghost use Rattle.std.specs.Prelude.{◌≡◌, ◌+◌, ◌*◌, ◌<◌, ◌≤◌, ◌^◌, ℕ, Some, MatchResult};
ghost use Rattle.counter_table.specs.Numbers.{arming, drawing, peeking, spending, returning, top};
ghost use Rattle.counter_table.specs.Rule.{next_at, limit_at};
ghost use Rattle.counter_table.specs.Worker.{view, rows_of, IsOf, KeepsTurn, MatchArm};

use crate::counters::{Counters, Worker};
use crate::rule::{Arms, Counted, Draws, Peeks, Told};
use std::marker::{Brand, Model};

// The words of each row, and those in front of the first row, so that no two rows share a cache line.
pub(crate) const ROW_WORDS: usize = 16;

pub(crate) fn next_word(row: u16) -> usize
    ensures { result ≡ next_at row }
{
    ROW_WORDS * usize::from(row) + ROW_WORDS
}

pub(crate) fn limit_word(row: u16) -> usize
    ensures { result ≡ limit_at row }
{
    next_word(row) + 1
}

impl<B: Counted> Counters<B> {
    /// Arms the worker for one draw from the row, where the row's word `next` is found below the end, by one load.
    pub fn arm(&self, worker: &mut Worker<B>, row: u16, end: u64) -> Arm
        requires own { IsOf self.now worker.old }
        requires row { row < rows_of self.now }
        requires end { end ≤ 2 ^ 48 }
        ensures same { KeepsTurn worker.old worker.new }

        // Of the word n that was found, which is no less than any that the worker saw before.
        ensures found { (n : ℕ) × (top row (view worker.old).numbers.nexts ≤ n)
            × ((view worker.new).numbers ≡ arming row end n (view worker.old).numbers)
            × MatchArm result (λ armed. (armed ≡ row) × (n < end)) (λ word. (word ≡ n) × (end ≤ n)) }
    {
        let found = self.load_to_arm::<Brand>(worker, row, end);
        if found < end {
            Arm::Armed(Armed { row })
        } else {
            Arm::Exhausted(found)
        }
    }

    /// Draws a number from the row, by one fetch-add. No other draw gives it.
    pub fn draw(&self, worker: &mut Worker<B>, armed: Armed) -> Ticket
        requires own { IsOf self.now worker.old }
        requires row { armed < rows_of self.now }
        requires armed { (view worker.old).numbers.armed ≡ Some armed }
        ensures same { KeepsTurn worker.old worker.new }
        ensures row { result.0 ≡ armed }
        ensures found { top armed (view worker.old).numbers.nexts ≤ result.1 }
        ensures positive { 0 < result.1 }
        ensures numbers { (view worker.new).numbers ≡ drawing armed result.1 (view worker.old).numbers }
    {
        let Armed { row } = armed;
        let number = self.add_to_draw::<Brand>(worker, row);
        Ticket { row, number }
    }

    /// Spends the ticket where its number is below the row's limit, by one load. Else the ticket comes back.
    pub fn peek_limit(&self, worker: &mut Worker<B>, ticket: Ticket) -> Result<Funded, Ticket>
        requires own { IsOf self.now worker.old }
        requires row { ticket.0 < rows_of self.now }
        requires last { (view worker.old).numbers.last ≡ Some ticket }
        ensures same { KeepsTurn worker.old worker.new }

        // Of the limit n that was found, which is no less than any that the worker saw before.
        ensures found { (n : ℕ) × (top ticket.0 (view worker.old).numbers.limits ≤ n)
            × ((view worker.new).numbers ≡ peeking ticket.0 ticket.1 n (view worker.old).numbers)
            × MatchResult result (λ funded. (funded ≡ ticket) × (ticket.1 < n))
            (λ back. (back ≡ ticket) × (n ≤ ticket.1)) }
    {
        let Ticket { row, number } = ticket;
        let limit = self.load_to_peek::<Brand>(worker, row, number);
        if number < limit {
            Ok(Funded { row, number })
        } else {
            Err(Ticket { row, number })
        }
    }

    fn load_to_arm<T: Told>(&self, worker: &mut Worker<B>, row: u16, end: u64) -> u64
        requires own { IsOf self.now worker.old }
        requires row { row < rows_of self.now }
        requires end { end ≤ 2 ^ 48 }
        requires told { (row ≡ T.of_row) × (end ≡ T.number) }
        ensures same { KeepsTurn worker.old worker.new }
        ensures found { top row (view worker.old).numbers.nexts ≤ result }
        ensures numbers { (view worker.new).numbers ≡ arming row end result (view worker.old).numbers }
    {
        let at = next_word(row);
        self.table.shared.load::<Arms<T>>(&mut worker.seat, at)
    }

    fn add_to_draw<T: Told>(&self, worker: &mut Worker<B>, row: u16) -> u64
        requires own { IsOf self.now worker.old }
        requires row { row < rows_of self.now }
        requires armed { (view worker.old).numbers.armed ≡ Some row }
        requires told { row ≡ T.of_row }
        ensures same { KeepsTurn worker.old worker.new }
        ensures found { top row (view worker.old).numbers.nexts ≤ result }
        ensures positive { 0 < result }
        ensures numbers { (view worker.new).numbers ≡ drawing row result (view worker.old).numbers }
    {
        let at = next_word(row);
        self.table
            .shared
            .fetch_add::<Draws<T>>(&mut worker.seat, at, 1)
    }

    fn load_to_peek<T: Told>(&self, worker: &mut Worker<B>, row: u16, number: u64) -> u64
        requires own { IsOf self.now worker.old }
        requires row { row < rows_of self.now }
        requires last { (view worker.old).numbers.last ≡ Some (row, number) }
        requires told { (row ≡ T.of_row) × (number ≡ T.number) }
        ensures same { KeepsTurn worker.old worker.new }
        ensures found { top row (view worker.old).numbers.limits ≤ result }
        ensures numbers { (view worker.new).numbers ≡ peeking row number result (view worker.old).numbers }
    {
        let at = limit_word(row);
        self.table.shared.load::<Peeks<T>>(&mut worker.seat, at)
    }
}

/// The right to draw from a row. Contracts see it as the row.
#[derive(Drop)]
pub struct Armed {
    pub(crate) row: u16,
}

impl Model for Armed {
    ghost use Rattle.std.specs.Prelude.{ℕ};

    ghost Value = { ℕ };

    ghost view = { λ armed. armed.row };
}

/// A number that was drawn from a row. Contracts see it as the pair of row and number.
#[derive(Drop)]
pub struct Ticket {
    pub(crate) row: u16,
    pub(crate) number: u64,
}

impl Model for Ticket {
    ghost use Rattle.std.specs.Prelude.{ℕ};

    ghost Value = { ℕ × ℕ };

    ghost view = { λ ticket. (ticket.row, ticket.number) };
}

impl Ticket {
    pub fn number(&self) -> u64
        ensures { result ≡ self.now.1 }
    {
        self.number
    }
}

/// A drawn number that was found below its row's limit, and is spent. Contracts see it as the pair of row and number.
#[derive(Drop)]
pub struct Funded {
    pub(crate) row: u16,
    pub(crate) number: u64,
}

impl Model for Funded {
    ghost use Rattle.std.specs.Prelude.{ℕ};

    ghost Value = { ℕ × ℕ };

    ghost view = { λ funded. (funded.row, funded.number) };
}

impl Funded {
    pub fn number(&self) -> u64
        ensures { result ≡ self.now.1 }
    {
        self.number
    }
}

/// The answer of `arm`.
#[derive(Drop)]
pub enum Arm {
    Armed(Armed),
    /// The word `next` that was found, at or above the end.
    Exhausted(u64),
}
