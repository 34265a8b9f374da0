ghost use Rattle.std.specs.Prelude.{◌≡◌, ◌≢◌, ◌<◌};
ghost use Rattle.std.specs.Option.{SomeIff};
ghost use Rattle.sdls_base.specs.KeyId.{class_of, end_of};

use crate::octets::Octets;
use std::fmt;
use std::marker::Model;

/// What a key serves for, which follows from its identifier (profile).
#[derive(Clone, Copy, Debug, PartialEq, Eq)]
pub enum KeyClass {
    /// Wraps session keys, under GCM: identifiers 1 to 255.
    Master,
    /// A session key of the GCM suite: identifiers 256 to 32,767.
    Gcm,
    /// A session key of the CMAC suite: identifiers 32,768 to 65,535.
    Cmac,
}

/// The identifier of a key. 0 names none.
#[derive(Clone, Copy, Debug, PartialEq, Eq, PartialOrd, Ord, Hash)]
pub struct KeyId {
    number: u16,
}

impl Model for KeyId {
    ghost use Rattle.std.specs.Prelude.{ℕ, ◌<◌};

    ghost Value = { ℕ };

    ghost view = { λ k. k.number };

    ghost invariant = { λ k. 0 < k.number };

    ghost inverse = { λ n. record { number = n } };
}

impl KeyId {
    pub fn new(n: u16) -> Option<KeyId>
        ensures { SomeIff result (n ≢ 0) n }
    {
        match n {
            0 => None,
            number => Some(KeyId { number }),
        }
    }

    pub fn get(&self) -> u16
        ensures number { result ≡ self.now }
        ensures bounds { 0 < result }
    {
        self.number
    }

    pub fn class(&self) -> KeyClass
        ensures { result ≡ class_of self.now }
    {
        match self.number {
            0..=255 => KeyClass::Master,
            256..=32_767 => KeyClass::Gcm,
            _ => KeyClass::Cmac,
        }
    }

    /// The first number that the key can no longer serve: the numbers of a key are from 1 to below its end.
    pub fn end(&self) -> u64
        ensures { result ≡ end_of self.now }
    {
        match self.class() {
            KeyClass::Master | KeyClass::Gcm => 1 << 48,
            KeyClass::Cmac => 1 << 32,
        }
    }
}

/// A key to be loaded. `Debug` prints its identifier alone.
#[derive(Clone, Drop)]
pub struct KeyItem {
    pub id: KeyId,
    /// The key itself, 16 or 32 octets where a call says so.
    pub bytes: Octets,
}

impl fmt::Debug for KeyItem {
    fn fmt<W: fmt::Write>(&self, f: &mut fmt::Formatter<W>) -> fmt::Result {
        write!(f, "KeyItem({})", self.id.get())
    }
}
