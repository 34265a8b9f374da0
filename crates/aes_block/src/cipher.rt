// Blocks enciphered by the round keys of a schedule (FIPS 197, 5.1). Several blocks at once do not wait for one
// another.

// The rounds of the cipher on the basis, with all sixteen octets of the state in a vector (FIPS 197, 5.1).
ghost use Rattle.std.specs.Prelude.{◌≡◌, ℕ, ◌<◌, List, map};
ghost use Rattle.aes_block.specs.Aes.{cipher, add_round_key, mix_columns, shift_rows, sub_bytes};
ghost use Rattle.aes_block.specs.Vectors.{HoldsKeys, row_below};
ghost use Rattle.aes_block.specs.Basis.{element, with_constant};

use crate::substitution::{on_basis, sub_octets, sub_once, sub_twice};
use std::simd::u8x16;

fn vector(octets: &[u8; 16]) -> u8x16
    ensures { result ≡ octets.now }
{
    u8x16::from_array(*octets)
}

pub fn encrypt_one(keys: &[[u8; 16]; 15], rounds: usize, block: u8x16) -> u8x16
    requires some { 0 < rounds }
    requires most { rounds < 15 }
    ensures { (words : List ℕ) → HoldsKeys words rounds keys.now → result ≡ cipher words rounds block }
{
    let mut state = first_round(block, vector(&keys[0]));
    'rounds: for round in 1..rounds {
        state = next_round(state, vector(&keys[round]));
    }
    last_round(state, vector(&keys[rounds]))
}

pub fn encrypt_three(keys: &[[u8; 16]; 15], rounds: usize, blocks: &[[u8; 16]; 3]) -> [[u8; 16]; 3]
    requires some { 0 < rounds }
    requires most { rounds < 15 }
    ensures { (words : List ℕ) → HoldsKeys words rounds keys.now → result ≡ map (cipher words rounds) blocks.now }
{
    let first = vector(&keys[0]);
    let mut a = first_round(vector(&blocks[0]), first);
    let mut b = first_round(vector(&blocks[1]), first);
    let mut c = first_round(vector(&blocks[2]), first);
    'rounds: for round in 1..rounds {
        let key = vector(&keys[round]);
        a = next_round(a, key);
        b = next_round(b, key);
        c = next_round(c, key);
    }
    let last = vector(&keys[rounds]);
    [
        last_round(a, last).to_array(),
        last_round(b, last).to_array(),
        last_round(c, last).to_array(),
    ]
}

pub fn encrypt_four(keys: &[[u8; 16]; 15], rounds: usize, blocks: &[[u8; 16]; 4]) -> [[u8; 16]; 4]
    requires some { 0 < rounds }
    requires most { rounds < 15 }
    ensures { (words : List ℕ) → HoldsKeys words rounds keys.now → result ≡ map (cipher words rounds) blocks.now }
{
    let first = vector(&keys[0]);
    let mut a = first_round(vector(&blocks[0]), first);
    let mut b = first_round(vector(&blocks[1]), first);
    let mut c = first_round(vector(&blocks[2]), first);
    let mut d = first_round(vector(&blocks[3]), first);
    'rounds: for round in 1..rounds {
        let key = vector(&keys[round]);
        a = next_round(a, key);
        b = next_round(b, key);
        c = next_round(c, key);
        d = next_round(d, key);
    }
    let last = vector(&keys[rounds]);
    [
        last_round(a, last).to_array(),
        last_round(b, last).to_array(),
        last_round(c, last).to_array(),
        last_round(d, last).to_array(),
    ]
}

#[inline(always)]
fn shift_rows(state: u8x16) -> u8x16
    ensures { result ≡ shift_rows state }
{
    state.swizzle([0, 5, 10, 15, 4, 9, 14, 3, 8, 13, 2, 7, 12, 1, 6, 11])
}

// In each place the octet of its column that stands a row below, and under the last row the first.
#[inline(always)]
fn row_below(state: u8x16) -> u8x16
    ensures { result ≡ row_below 1 state }
{
    state.swizzle([1, 2, 3, 0, 5, 6, 7, 4, 9, 10, 11, 8, 13, 14, 15, 12])
}

#[inline(always)]
fn row_above(state: u8x16) -> u8x16
    ensures { result ≡ row_below 3 state }
{
    state.swizzle([3, 0, 1, 2, 7, 4, 5, 6, 11, 8, 9, 10, 15, 12, 13, 14])
}

// The block under the first round key.
#[inline(always)]
pub fn first_round(block: u8x16, key: u8x16) -> u8x16
    ensures { map element result ≡ add_round_key block key }
{
    on_basis(block ^ key)
}

// A whole round: `SubBytes`, `ShiftRows`, `MixColumns`, `AddRoundKey`. A row of the matrix times a column is two times
// the octet, two times and once the one below it, once the third, and once the one above.
#[inline(always)]
pub fn next_round(state: u8x16, key: u8x16) -> u8x16
    ensures { (k : List ℕ) → map element key ≡ with_constant k
        → map element result ≡ add_round_key (mix_columns (shift_rows (sub_bytes (map element state)))) k }
{
    let shifted = shift_rows(state);
    let once = sub_once(shifted);
    let with_below = sub_twice(shifted) ^ row_below(once);
    row_below(with_below) ^ (with_below ^ (row_above(once) ^ key))
}

// The last round, which has no `MixColumns`, to octets.
#[inline(always)]
pub fn last_round(state: u8x16, key: u8x16) -> u8x16
    ensures { (k : List ℕ) → key ≡ with_constant k
        → result ≡ add_round_key (shift_rows (sub_bytes (map element state))) k }
{
    sub_octets(shift_rows(state)) ^ key
}
