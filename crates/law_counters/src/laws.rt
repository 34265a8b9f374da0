//! What ties the counters to the pure core.
ghost use Rattle.law_counters.specs.Laws.{RuledAreKept, MovesTie, ToldAfter, SpentStay, StoresTie, SplitTies, JoinTies};
ghost use Rattle.law_counters.specs.Run.{RunsTie};

use counter_table::Counted;

/// Law: where the rule of the counters holds, the world that they stand for is kept.
pub fn kept_where_ruled<B: Counted>()
    ensures { RuledAreKept B.told }
{}

/// Law: each step of the counters leads to the world that its steps in the core give.
pub fn moves_tie<B: Counted>()
    ensures { MovesTie B.told }
{}

/// Law: what the counters tell the worker that steps is what the scene then has of it.
pub fn told_after<B: Counted>()
    ensures { ToldAfter B.told }
{}

/// Law: after each step the used pairs are those that the workers spent.
pub fn spent_stay()
    ensures { SpentStay }
{}

/// Law: a mark that the holder's book stores is written and synced in the core.
pub fn stores_tie<B: Counted>()
    ensures { StoresTie B.told }
{}

/// Law: what workers do in any order, one after the other, is a list of steps of the core.
pub fn runs_tie<B: Counted>()
    ensures { RunsTie B.told }
{}

/// Law: a split makes no step of the core, and adds an idle actor.
pub fn split_ties()
    ensures { SplitTies }
{}

/// Law: a join makes no step of the core. The one actor then has what both drew and used.
pub fn join_ties()
    ensures { JoinTies }
{}
