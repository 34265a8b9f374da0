// GHASH over octets (SP 800-38D, 6.4).

// Sums of 256 bits in three vectors of two halves, and what they are in the field (SP 800-38D, 6.3).

// GF(2^128): steps by powers of x (SP 800-38D, 6.3), and numbers as octets in a vector.
ghost use Rattle.std.specs.Prelude.{◌≡◌, ◌+◌, ◌-◌, ◌*◌, ◌<◌, ◌≤◌, ◌++◌, length, replicate, ◌%◌, ◌^◌, bit_xor};
ghost use Rattle.std.specs.Int.{w128, from_be_bytes};
ghost use Rattle.std.specs.Simd.Lanes.{digits_l};
ghost use Rattle.gcm.specs.Field.{ghash, by_x};
ghost use Rattle.gcm.specs.Gcm.{block_at, blocks, hashed, lengths, padded};
ghost use Rattle.gcm.specs.Folded.{folded};
ghost use Rattle.gcm.specs.Rows.{by_powers, pair, sum_of};

use crate::table::Table;
use std::simd::{u8x16, u64x2};

fn block_at(octets: &[u8], i: usize) -> u128
    requires { 16 * i + 16 ≤ length octets.now }
    ensures { result ≡ block_at octets.now i }
{
    u128::from_be_bytes(u8x16::from_slice(&octets[16 * i..]).to_array())
}

// A short block, filled up with zeros.
fn filled(rest: &[u8]) -> [u8; 16]
    requires { length rest.now < 16 }
    ensures { result ≡ rest.now ++ replicate (16 - length rest.now) 0 }
{
    let mut out = [0u8; 16];
    out[..rest.len()].copy_from_slice(rest);
    out
}

fn last_block(rest: &[u8]) -> u128
    requires { length rest.now < 16 }
    ensures { result ≡ from_be_bytes w128 (rest.now ++ replicate (16 - length rest.now) 0) }
{
    u128::from_be_bytes(filled(rest))
}

// Folds the whole blocks of `octets` into `start`.
fn fold_whole(table: &Table, start: u128, octets: &[u8]) -> u128
    ensures { result ≡ folded table.now start (blocks octets.now) }
{
    let mut y = start;
    'blocks: for i in 0..octets.len() / 16 {
        y = table.product(y ^ block_at(octets, i));
    }
    y
}

// Folds all of `octets` into `start`, filled up with zeros to whole blocks.
fn fold_padded(table: &Table, start: u128, octets: &[u8]) -> u128
    ensures { result ≡ folded table.now start (blocks (padded octets.now)) }
{
    let y = fold_whole(table, start, octets);
    let whole = octets.len() / 16 * 16;
    if whole == octets.len() {
        return y;
    }
    table.product(y ^ last_block(&octets[whole..]))
}

// The block of both lengths.
fn lengths(aad: usize, text: usize) -> u128
    requires aad { aad ≤ 65536 }
    requires text { text ≤ 65536 }
    ensures { result ≡ from_be_bytes w128 (lengths aad text) }
{
    let [a0, a1, a2, a3, a4, a5, a6, a7] = (8 * aad as u64).to_be_bytes();
    let [b0, b1, b2, b3, b4, b5, b6, b7] = (8 * text as u64).to_be_bytes();
    u128::from_be_bytes([
        a0, a1, a2, a3, a4, a5, a6, a7, b0, b1, b2, b3, b4, b5, b6, b7,
    ])
}

// GHASH of the additional data, the ciphertext and the block of their lengths.
pub fn hash(table: &Table, aad: &[u8], text: &[u8]) -> u128
    requires aad { length aad.now ≤ 65536 }
    requires text { length text.now ≤ 65536 }
    ensures { result ≡ ghash table.now (blocks (hashed aad.now text.now)) }
{
    let y = fold_padded(table, fold_padded(table, 0, aad), text);
    // For contracts alone.
    let _ = &table.subkey;
    table.product(y ^ lengths(aad.len(), text.len()))
}

// Adds a row that is to be shifted right by `shift` from the upper half on, and one from the middle on.
#[inline(always)]
pub fn with_rows(
    high: u64x2,
    middle: u64x2,
    low: u64x2,
    upper: u64x2,
    lower: u64x2,
    shift: u64,
) -> (u64x2, u64x2, u64x2)
    requires some { 0 < shift }
    requires less { shift < 64 }
    ensures { sum_of result.0 result.1 result.2
        ≡ bit_xor (sum_of high middle low)
        (bit_xor (pair upper * 2 ^ (128 - shift)) (pair lower * 2 ^ (64 - shift))) }
{
    let (right, left) = (u64x2::splat(shift), u64x2::splat(64 - shift));
    (
        high ^ (upper >> right),
        (middle ^ (upper << left)) ^ (lower >> right),
        low ^ (lower << left),
    )
}

// The sum times x^128, where its lowest octet is 0: x^128 is 1 + x + x^2 + x^7, and no bit leaves by the last.
#[inline(always)]
pub fn reduced(high: u64x2, middle: u64x2, low: u64x2) -> u128
    requires { sum_of high middle low % 2 ^ 8 ≡ 0 }
    ensures { result ≡ by_powers 128 (sum_of high middle low) }
{
    let [high_0, high_1] = high.to_array();
    let [middle_0, middle_1] = middle.to_array();
    let [low_0, low_1] = low.to_array();
    let rest = joined(low_0, low_1 ^ middle_0);
    joined(high_0 ^ middle_1, high_1) ^ rest ^ (rest >> 1) ^ ((rest >> 2) ^ (rest >> 7))
}

const REDUCED: u128 = 0xe1 << 120;

// `v` times x.
pub fn by_x(v: u128) -> u128
    ensures { result ≡ by_x v }
{
    (v >> 1) ^ ((v & 1) * REDUCED)
}

// The octets of a number, the lowest first.
#[inline(always)]
pub fn octets_of(v: u128) -> u8x16
    ensures { result ≡ digits_l 256 16 v }
{
    let (low, high) = ((v % (1 << 64)) as u64, (v >> 64) as u64);
    u64x2::from_array([low, high]).to_le_bytes()
}

// The number of two halves.
#[inline(always)]
pub fn joined(low: u64, high: u64) -> u128
    ensures { result ≡ high * 2 ^ 64 + low }
{
    ((high as u128) << 64) | low as u128
}
