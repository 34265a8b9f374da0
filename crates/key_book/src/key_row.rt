ghost use Rattle.sha2.specs.Sha256.{sha256};
ghost use Rattle.std.specs.Prelude.{◌≡◌, length, ◌≤◌, [], take};
ghost use Rattle.sdls_base.specs.Bounds.{IsKeyLength};
ghost use Rattle.key_book.specs.KeyRow.{new_row, in_state};

use sdls_base::{KeyId, KeyItem, KeyState};
use sha2::{Digest, Sha256};
use std::alloc::AllocError;
use std::fmt;
use std::marker::Model;

/// What a unit knows of a key. `Debug` prints its identifier and state alone.
#[derive(Clone, Copy)]
pub struct KeyRow {
    pub id: KeyId,
    pub state: KeyState,
    /// The key itself, 16 or 32 octets; none once it is destroyed.
    pub bytes: KeyOctets,
    /// The SHA-256 digest of the key, which stays.
    pub digest: [u8; 32],
    /// Numbers below it may have been used for sending.
    pub mark: u64,
    /// Numbers up to it may have been accepted.
    pub floor: u64,
}

impl fmt::Debug for KeyRow {
    fn fmt<W: fmt::Write>(&self, f: &mut fmt::Formatter<W>) -> fmt::Result {
        write!(f, "KeyRow({}, {:?})", self.id.get(), self.state)
    }
}

/// The SHA-256 digest of a key (FIPS 180-4). Takes no memory.
pub fn digest(bytes: &[u8]) -> [u8; 32]
    ensures { result ≡ sha256 bytes.now }
{
    Sha256::digest(bytes)
}

impl KeyRow {
    /// The row of a key that is loaded, with the digest of its octets.
    pub(crate) fn loaded(item: &KeyItem, digest: [u8; 32]) -> KeyRow
        requires length { IsKeyLength (length item.now.bytes) }
        requires digest { digest ≡ sha256 item.now.bytes }
        ensures { result ≡ new_row item.now }
    {
        KeyRow {
            id: item.id,
            state: KeyState::PreActive,
            bytes: KeyOctets::new(item.bytes.as_slice()),
            digest,
            mark: 1,
            floor: 0,
        }
    }

    /// Takes a state, and drops the key's octets if that is destroyed.
    pub(crate) fn enter(&mut self, to: KeyState)
        ensures { self.new ≡ in_state self.old to }
    {
        self.state = to;
        if to == KeyState::Destroyed {
            self.bytes = KeyOctets::none();
        }
    }
}

/// The most octets of a key.
pub const MOST_OCTETS: usize = 32;

/// The octets of a key, at most [`MOST_OCTETS`], which lie in the value itself: neither making nor copying it takes
/// memory. `Debug` prints their number alone.
#[derive(Copy)]
pub struct KeyOctets {
    room: [u8; MOST_OCTETS],
    used: usize,
}

impl Model for KeyOctets {
    ghost use Rattle.std.specs.Prelude.{List, ℕ, length, take};
    ghost use Rattle.std.proofs.Common.{ap, ◌∙◌};
    ghost use Rattle.key_book.specs.KeyOctets.{padded, IsPadded};

    ghost Value = { List ℕ };

    ghost view = { λ octets. take octets.used octets.room };

    ghost invariant = { λ octets. IsPadded octets.room octets.used };

    ghost inverse = { λ octets. record { room = padded octets; used = length octets } };

    ghost inverse_ok = { λ octets h.
        ap (λ room. record { room = room; used = length (take octets.used octets.room) }) h.zeros
        ∙ ap (λ used. record { room = octets.room; used = used }) h.seen };
}

impl KeyOctets {
    /// No octets.
    pub fn none() -> KeyOctets
        ensures { result ≡ [] }
    {
        KeyOctets {
            room: [0; MOST_OCTETS],
            used: 0,
        }
    }

    pub fn new(octets: &[u8]) -> KeyOctets
        requires { length octets.now ≤ MOST_OCTETS }
        ensures { result ≡ octets.now }
    {
        let mut room = [0; MOST_OCTETS];
        room[..octets.len()].copy_from_slice(octets);
        KeyOctets {
            room,
            used: octets.len(),
        }
    }

    pub fn as_slice(&self) -> &[u8]
        ensures { result.now ≡ self.now }
    {
        &self.room[..self.used]
    }
}

impl Clone for KeyOctets {
    ghost is_clone = { λ octets copy. copy ≡ octets };

    fn clone(&self) -> Result<KeyOctets, AllocError> {
        Ok(*self)
    }
}

impl fmt::Debug for KeyOctets {
    fn fmt<W: fmt::Write>(&self, f: &mut fmt::Formatter<W>) -> fmt::Result {
        write!(f, "KeyOctets({})", self.as_slice().len())
    }
}
