//! What a worker knows. No value of these types is ever made: they are what contracts see of a worker.

use sdls_base::Logged;
use std::collections::LinkedList;
use std::marker::Model;
use unit_plan::Plan;
use unit_state::State;

/// What a worker knows of the rows' numbers. A pair is a row with a number, and of each list the newest is the last.
pub struct Numbers {
    /// Its part of all shares.
    pub shares: u64,
    /// The row that it is armed for.
    pub armed: Option<u64>,
    /// The number that it drew last, until it is spent.
    pub last: Option<(u64, u64)>,
    /// Whether it loaded a limit since its last draw.
    pub peeked: bool,
    /// The numbers that it drew.
    pub drawn: LinkedList<(u64, u64)>,
    /// The numbers that it spent.
    pub spent: LinkedList<(u64, u64)>,
    /// The numbers that it raised words `next` to.
    pub raised: LinkedList<(u64, u64)>,
    /// How much its draws and raises added to words `next`.
    pub added: LinkedList<(u64, u64)>,
    /// The words `next` that it found or left.
    pub nexts: LinkedList<(u64, u64)>,
    /// The words `limit` that it found, or lifted to a mark.
    pub limits: LinkedList<(u64, u64)>,
    /// How many tickets came back to it.
    pub tickets: u64,
}

/// What a site held, call by call. Contracts see it as its trace.
pub struct Trail {
    octets: LinkedList<u8>,
}

impl Model for Trail {
    ghost use Rattle.sdls_outside.specs.Moments.{Trace};
    ghost use Rattle.counter_table.specs.Trail.{no_trace};

    ghost Value = { Trace };

    ghost view = { λ _. no_trace };
}

/// What a run began with: the image as it was read, the plan that it holds and the state that it shows; and of the
/// site, as the opening left it, what it held until then and the count of faults.
pub struct Opening {
    pub image: LinkedList<u8>,
    pub plan: Plan,
    pub start: State,
    pub trail: Trail,
    pub faults: u64,
}

/// What a book shows contracts.
pub struct Known {
    /// The mark of each row, from row 0 on.
    pub marks: LinkedList<u64>,
    /// The run's entries and pieces.
    pub log: LinkedList<Logged>,
    /// The count of changes of the state in this run.
    pub changes: u64,
    /// The site's count of faults.
    pub faults: u64,
    /// How many entries of the log stand: all but a last one whose append failed.
    pub standing: u64,
    /// The site's count of puts that failed.
    pub put_faults: u64,
    pub opening: Opening,
}

/// What a worker knows of the book and of the turn.
pub struct Turn {
    /// Whether it holds the turn.
    pub holds: bool,
    /// Whether it knows that a book was filled.
    pub filled: bool,
    /// How often it took the turn.
    pub turns: u64,
    /// The word `epoch` that it loaded last.
    pub epoch: u64,
    /// How often it loaded that word.
    pub loads: u64,
    /// What it knew of the book last. The marks count while it holds the turn.
    pub known: Known,
    /// The places of the log that it made.
    pub made: LinkedList<u64>,
    /// What the two workers knew that became this one last.
    pub one: Known,
    pub other: Known,
}

/// What a worker knows.
pub struct View {
    pub numbers: Numbers,
    pub turn: Turn,
}
