//! The counters, and what steps on them.
ghost use Rattle.std.specs.Prelude.{◌≡◌, ◌+◌, ◌*◌, ◌<◌, ◌≤◌, true, [], vec_capacity};
ghost use Rattle.counter_table.specs.Turn.{slots_fit};
ghost use Rattle.counter_table.specs.declared.drawing.TheConstants.{ROW_WORDS};

use crate::rule::{Counted, Rule};
use crate::view::View;
use atomic_table::{Seat, Table};
use std::alloc::Global;

/// For each row a word `next` and a word `limit`, each row on cache lines of its own, the word `epoch`, the turn, and a
/// book.
pub struct Counters<B: Counted> {
    pub(crate) table: Table<Option<B>, View, u16, Rule, Global>,
    pub(crate) rows: u16,
    // Room for the words `next` at the end.
    pub(crate) room: Vec<u64>,
    ghost sized: { (table.shared.table_id.words ≡ ROW_WORDS * rows + ROW_WORDS) × (table.shared.table_id.slots ≡ 1)
        × (table.shared.key ≡ rows) × (0 < rows) },
    ghost roomy: { (room.items ≡ []) × (rows ≤ vec_capacity room) },
}

impl<B: Counted> Counters<B> {
    pub(crate) fn into_parts(self) -> (Table<Option<B>, View, u16, Rule, Global>, u16, Vec<u64>)
        ensures table { result.0 ≡ self.table }
        ensures rows { result.1 ≡ self.rows }
        ensures room { result.2 ≡ self.room }
    {
        let Counters { table, rows, room } = self;
        (table, rows, room)
    }
}

impl<B: Counted + Drop> Drop for Counters<B> {
    fn drop(self) {
        let Counters {
            table: _,
            rows: _,
            room: _,
        } = self;
    }
}

/// One who steps on the counters. It has no bytes.
pub struct Worker<B> {
    pub(crate) seat: Seat<Option<B>, View>,
    ghost alive: { 0 < seat.me.0.numbers.shares },
    ghost slots: { slots_fit seat.me.0.turn.holds seat.me.1 ≡ true },
}

impl<B> Worker<B> {
    pub(crate) fn into_seat(self) -> Seat<Option<B>, View>
        ensures { result ≡ self.seat }
    {
        let Worker { seat } = self;
        seat
    }
}

impl<B> Drop for Worker<B> {
    fn drop(self) {
        let Worker { seat: _ } = self;
    }
}

/// The book, while its holder has the turn.
pub struct Held<B> {
    pub book: B,
}
