ghost use Rattle.std.specs.Prelude.{◌≡◌, ◌+◌, ◌*◌, ◌≤◌, ◌↔◌, length, map, replicate, take, IfOk, IfErr, IsOk};
ghost use Rattle.sdls_base.specs.Bounds.{IsKeyLength};
ghost use Rattle.aes_block.specs.Aes.{encrypted};
ghost use Rattle.aes_block.specs.Schedule.{IsKeyWords};

use crate::cipher::{encrypt_four, encrypt_one, encrypt_three};
use crate::expansion::{expand, keys_of};
use std::marker::Model;
use std::simd::u8x16;
use thiserror::Error;

/// A key of a length that is neither 16 nor 32 octets: its length.
#[derive(Clone, Copy, Debug, PartialEq, Eq, Error)]
#[error("key of {0} octets is neither of 16 nor of 32")]
pub struct KeyLength(pub usize);

/// A key, expanded. It has no `Debug`, so that no log shows it.
#[derive(Drop)]
pub struct Schedule {
    // The key's octets, and zeros after them: for contracts alone.
    key: [u8; 32],
    key_words: usize,
    keys: [[u8; 16]; 15],
    // The block of zeros, enciphered.
    zeros: [u8; 16],
}

impl Model for Schedule {
    ghost use Rattle.std.specs.Prelude.{◌*◌, ℕ, List, take};
    ghost use Rattle.aes_block.specs.Schedule.{IsExpanded};

    // The octets of the key.
    ghost Value = { List ℕ };

    ghost view = { λ s. take (4 * s.key_words) s.key };

    ghost invariant = { λ s. IsExpanded (take (4 * s.key_words) s.key) s.key_words s.keys s.zeros };
}

fn filled(key: &[u8]) -> [u8; 32]
    requires { length key.now ≤ 32 }
    ensures { take (length key.now) result ≡ key.now }
{
    let mut octets = [0u8; 32];
    octets[..key.len()].copy_from_slice(key);
    octets
}

// The schedule of a key of `key_words` words.
fn expanded(key: &[u8], key_words: usize) -> Schedule
    requires words { IsKeyWords key_words }
    requires key { length key.now ≡ 4 * key_words }
    ensures { result ≡ key.now }
{
    let keys = keys_of(&expand(key, key_words), key_words + 6);
    let zeros = encrypt_one(&keys, key_words + 6, u8x16::splat(0)).to_array();
    Schedule {
        key: filled(key),
        key_words,
        keys,
        zeros,
    }
}

impl Schedule {
    /// Expands a key of 16 or 32 octets. The error is its length, where that is another.
    pub fn new(key: &[u8]) -> Result<Schedule, KeyLength>
        ensures ok { IfOk result (λ schedule. schedule ≡ key.now) }
        ensures when { IsOk result ↔ IsKeyLength (length key.now) }
        ensures err { IfErr result (λ e. e.0 ≡ length key.now) }
    {
        match key.len() {
            16 => Ok(expanded(key, 4)),
            32 => Ok(expanded(key, 8)),
            other => Err(KeyLength(other)),
        }
    }

    /// Enciphers one block of 16 octets.
    pub fn encrypt(&self, block: [u8; 16]) -> [u8; 16]
        ensures { result ≡ encrypted self.now block }
    {
        self.encrypt_vector(u8x16::from_array(block)).to_array()
    }

    /// The same, of a block that stands in a vector.
    pub fn encrypt_vector(&self, block: u8x16) -> u8x16
        ensures { result ≡ encrypted self.now block }
    {
        encrypt_one(&self.keys, self.key_words + 6, block)
    }

    /// Enciphers three blocks of 16 octets, each for itself.
    pub fn encrypt3(&self, blocks: [[u8; 16]; 3]) -> [[u8; 16]; 3]
        ensures { result ≡ map (encrypted self.now) blocks }
    {
        encrypt_three(&self.keys, self.key_words + 6, &blocks)
    }

    /// Enciphers four blocks of 16 octets, each for itself.
    pub fn encrypt4(&self, blocks: [[u8; 16]; 4]) -> [[u8; 16]; 4]
        ensures { result ≡ map (encrypted self.now) blocks }
    {
        encrypt_four(&self.keys, self.key_words + 6, &blocks)
    }

    fn encrypt_each(&self, blocks: &[[u8; 16]; 8]) -> [[u8; 16]; 8]
        ensures { result ≡ map (encrypted self.now) blocks.now }
    {
        let [a, b, c, d, e, f, g, h] = *blocks;
        let [a, b, c, d] = self.encrypt4([a, b, c, d]);
        let [e, f, g, h] = self.encrypt4([e, f, g, h]);
        [a, b, c, d, e, f, g, h]
    }

    /// Enciphers eight blocks of 16 octets, each for itself.
    pub fn encrypt8(&self, blocks: [[u8; 16]; 8]) -> [[u8; 16]; 8]
        ensures { result ≡ map (encrypted self.now) blocks }
    {
        self.encrypt_each(&blocks)
    }

    /// The block of zeros, enciphered once, by [`Schedule::new`]. CMAC's subkeys and GCM's hash
    /// subkey come of it.
    pub fn enciphered_zeros(&self) -> [u8; 16]
        ensures { result ≡ encrypted self.now (replicate 16 0) }
    {
        self.zeros
    }
}
