//! Octets that a length field counts.
ghost use Rattle.std.specs.Prelude.{◌≡◌, ◌<◌, ◌^◌, [], length};

use sdls_base::Octets;
use std::alloc::{AllocError, Global};
use std::fmt;
use std::marker::Model;

/// Octets, fewer than 2^32 of them, so that a length field of 4 octets counts them. `Debug` prints their number alone,
/// since they may be a key's.
#[derive(Drop)]
pub struct ShortOctets {
    octets: Octets,
}

impl Model for ShortOctets {
    ghost use Rattle.std.specs.Prelude.{List, ℕ, ◌<◌, ◌^◌, length};

    ghost Value = { List ℕ };

    ghost view = { λ short. short.octets };

    ghost invariant = { λ short. length short.octets < 2 ^ 32 };
}

impl ShortOctets {
    pub fn new(items: Vec<u8>) -> ShortOctets
        requires { length items.items < 2 ^ 32 }
        ensures { result ≡ items.items }
    {
        ShortOctets {
            octets: Octets::new(items),
        }
    }

    /// No octets. It takes no memory.
    pub fn none(alloc: Global) -> ShortOctets
        ensures { result ≡ [] }
    {
        ShortOctets {
            octets: Octets::new(Vec::new(alloc)),
        }
    }

    pub fn as_slice(&self) -> &[u8]
        ensures octets { result.now ≡ self.now }
        ensures few { length self.now < 2 ^ 32 }
    {
        self.octets.as_slice()
    }

    /// The items, given back without taking memory.
    pub fn into_vec(self) -> Vec<u8>
        ensures octets { result.items ≡ self }
        ensures few { length result.items < 2 ^ 32 }
    {
        self.octets.into_vec()
    }
}

impl Clone for ShortOctets {
    ghost is_clone = { λ octets copy. copy ≡ octets };

    fn clone(&self) -> Result<ShortOctets, AllocError> {
        let octets = self.octets.clone()?;
        Ok(ShortOctets { octets })
    }
}

impl fmt::Debug for ShortOctets {
    fn fmt<W: fmt::Write>(&self, f: &mut fmt::Formatter<W>) -> fmt::Result {
        write!(f, "ShortOctets({})", self.octets.as_slice().len())
    }
}
