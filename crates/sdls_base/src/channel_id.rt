ghost use Rattle.std.specs.Prelude.{◌≡◌, ◌≤◌};
ghost use Rattle.std.specs.Option.{SomeIff};

use std::marker::Model;

/// A channel of the unit, by its number in the plan, 0 to 63 (profile).
#[derive(Clone, Copy, Debug, PartialEq, Eq, PartialOrd, Ord, Hash)]
pub struct ChannelId {
    number: u8,
}

impl Model for ChannelId {
    ghost use Rattle.std.specs.Prelude.{ℕ, ◌≤◌};

    ghost Value = { ℕ };

    ghost view = { λ c. c.number };

    ghost invariant = { λ c. c.number ≤ 63 };

    ghost inverse = { λ n. record { number = n } };
}

impl ChannelId {
    pub fn new(n: u8) -> Option<ChannelId>
        ensures { SomeIff result (n ≤ 63) n }
    {
        if n <= 63 {
            Some(ChannelId { number: n })
        } else {
            None
        }
    }

    pub fn get(&self) -> u8
        ensures number { result ≡ self.now }
        ensures bounds { result ≤ 63 }
    {
        self.number
    }
}
