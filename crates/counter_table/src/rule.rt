//! The rule of the counters, and what each step says. Apart from `Counted`, all of it is here
//! for contracts alone.
ghost use Rattle.std.specs.Prelude.{◌≡◌};
ghost use Rattle.std.specs.Prelude.{ℕ, List, []};
ghost use Rattle.counter_table.specs.declared.view.Known.{Known};
ghost use Rattle.counter_table.specs.Known.{known_mark};
ghost use Rattle.counter_table.specs.Numbers.{newcomer, keeper, joined};
ghost use Rattle.counter_table.specs.Turn.{beginner, merged};
ghost use Rattle.counter_table.specs.Rule.{IsKept};
ghost use Rattle.counter_table.specs.Play.{first_view, no_view, arms, draws, peeks, raises, lifts, sees, turns, looks};
ghost use Rattle.counter_table.specs.Play.{takes, gives, empties, fills};

use crate::view::View;
use atomic_table::{Join, Play, Split, TableRule};
use std::marker::{Brand, PhantomData};

/// A book that the counters can keep: it shows contracts its marks and its count of changes.
pub trait Counted {
    /// What the book shows contracts.
    ghost told: { Self → Known };

    /// The mark of a row, and 1 where the book has no such row.
    fn mark(&self, row: u16) -> u64
        ensures { result ≡ known_mark (told self.now) row };

    /// How often the state was changed.
    fn changes(&self) -> u64
        ensures { result ≡ (told self.now).changes };
}

/// The rule that holds between any two steps of any workers.
pub struct Rule;

impl<B: Counted> TableRule<Option<B>, View, u16> for Rule {
    ghost holds = { IsKept B.told };

    ghost first = { λ _. first_view };
}

// What a step says beyond the words that it reads: each call picks it.
pub(crate) trait Told {
    ghost of_row: { ℕ };

    ghost number: { ℕ };

    ghost marks: { List ℕ };
}

impl Told for Brand {
    ghost of_row = { 0 };

    ghost number = { 0 };

    ghost marks = { [] };
}

pub(crate) struct Arms<T>(PhantomData<T>);

impl<S, T: Told> Play<S, View> for Arms<T> {
    ghost then = { λ _. arms T.of_row T.number };
}

pub(crate) struct Draws<T>(PhantomData<T>);

impl<S, T: Told> Play<S, View> for Draws<T> {
    ghost then = { λ _. draws T.of_row };
}

pub(crate) struct Peeks<T>(PhantomData<T>);

impl<S, T: Told> Play<S, View> for Peeks<T> {
    ghost then = { λ _. peeks T.of_row T.number };
}

pub(crate) struct Raises<T>(PhantomData<T>);

impl<S, T: Told> Play<S, View> for Raises<T> {
    ghost then = { λ _. raises T.of_row T.number };
}

pub(crate) struct Lifts<T>(PhantomData<T>);

impl<S, T: Told> Play<S, View> for Lifts<T> {
    ghost then = { λ _. lifts T.of_row T.number T.marks };
}

pub(crate) struct Looks<T>(PhantomData<T>);

impl<S, T: Told> Play<S, View> for Looks<T> {
    ghost then = { λ _. looks T.number };
}

pub(crate) struct Sees;

impl<S> Play<S, View> for Sees {
    ghost then = { λ _. sees };
}

pub(crate) struct Turns;

impl<S> Play<S, View> for Turns {
    ghost then = { λ _. turns };
}

pub(crate) struct Takes<T>(PhantomData<T>);

impl<B: Counted, T: Told> Play<Option<B>, View> for Takes<T> {
    ghost then = { λ _. takes B.told T.number };
}

pub(crate) struct Gives;

impl<B: Counted> Play<Option<B>, View> for Gives {
    ghost then = { λ _. gives B.told };
}

pub(crate) struct Empties;

impl<B: Counted> Play<Option<B>, View> for Empties {
    ghost then = { λ _. empties B.told };
}

pub(crate) struct Fills;

impl<B: Counted> Play<Option<B>, View> for Fills {
    ghost then = { λ _. fills B.told };
}

pub(crate) struct Shares;

impl Split<View> for Shares {
    ghost left = { λ v. record { numbers = keeper v.numbers; turn = v.turn } };

    ghost right = { λ v. record { numbers = newcomer v.numbers; turn = beginner v.turn } };
}

impl Join<View> for Shares {
    ghost both = { λ v w. record { numbers = joined v.numbers w.numbers; turn = merged v.turn w.turn } };

    ghost spent = { no_view };
}
