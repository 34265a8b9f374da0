ghost use Rattle.std.specs.Prelude.{◌≡◌, ◌≢◌, ◌<◌};
ghost use Rattle.std.specs.Option.{SomeIff};

use std::marker::Model;

/// The security parameter index, which names a security association (CCSDS 355.0-B-2). 0 and 65,535 are reserved.
#[derive(Clone, Copy, Debug, PartialEq, Eq, PartialOrd, Ord, Hash)]
pub struct Spi {
    number: u16,
}

impl Model for Spi {
    ghost use Rattle.std.specs.Prelude.{ℕ, ◌<◌};

    ghost Value = { ℕ };

    ghost view = { λ s. s.number };

    ghost invariant = { λ s. (0 < s.number) × (s.number < 65535) };

    ghost inverse = { λ n. record { number = n } };
}

impl Spi {
    pub fn new(n: u16) -> Option<Spi>
        ensures { SomeIff result ((n ≢ 0) × (n ≢ 65535)) n }
    {
        match n {
            0 | u16::MAX => None,
            number => Some(Spi { number }),
        }
    }

    pub fn get(&self) -> u16
        ensures number { result ≡ self.now }
        ensures bounds { (0 < result) × (result < 65535) }
    {
        self.number
    }
}
