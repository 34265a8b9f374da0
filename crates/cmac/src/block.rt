ghost use Rattle.std.specs.Prelude.{◌≡◌, ℕ, ◌+◌, ◌-◌, ◌*◌, ◌<◌, ◌≤◌, ◌∷◌, ◌++◌, List, length, take, drop, replicate};
ghost use Rattle.std.specs.Int.{w128, to_be_bytes};
ghost use Rattle.aes_block.specs.Aes.{encrypted};
ghost use Rattle.cmac.specs.Cmac.{chain, doubled, last_block, mac, subkey1, subkey2, xored};

use aes_block::Schedule;
use std::simd::{u8x16, u64x2};

fn xor(a: [u8; 16], b: [u8; 16]) -> u8x16
    ensures { result ≡ xored a b }
{
    u8x16::from_array(a) ^ u8x16::from_array(b)
}

// The block of `text` from octet `at` on, xored into `chained`.
fn xor_block(chained: u8x16, text: &[u8], at: usize) -> u8x16
    requires { at + 16 ≤ length text.now }
    ensures { result ≡ xored chained (take 16 (drop at text.now)) }
{
    chained ^ u8x16::from_slice(&text[at..])
}

// The octets of a number, which stand in a vector with the lowest first.
fn octets_of(n: u128) -> [u8; 16]
    ensures { result ≡ to_be_bytes w128 n }
{
    let (low, high) = ((n % (1 << 64)) as u64, (n >> 64) as u64);
    u64x2::from_array([low, high])
        .to_le_bytes()
        .reverse()
        .to_array()
}

fn doubled(n: u128) -> u128
    ensures { to_be_bytes w128 result ≡ doubled (to_be_bytes w128 n) }
{
    (n << 1) ^ ((n >> 127) * 0x87)
}

// The first subkey, as a number.
fn first_subkey(key: &Schedule) -> u128
    ensures { to_be_bytes w128 result ≡ subkey1 key.now }
{
    doubled(u128::from_be_bytes(key.enciphered_zeros()))
}

fn subkey1(key: &Schedule) -> [u8; 16]
    ensures { result ≡ subkey1 key.now }
{
    octets_of(first_subkey(key))
}

fn subkey2(key: &Schedule) -> [u8; 16]
    ensures { result ≡ subkey2 key.now }
{
    octets_of(doubled(first_subkey(key)))
}

// A short block, filled up by a bit 1 and zeros.
fn padded(rest: &[u8]) -> [u8; 16]
    requires { length rest.now < 16 }
    ensures { result ≡ rest.now ++ 0x80 ∷ replicate (15 - length rest.now) 0 }
{
    let mut out = [0u8; 16];
    out[..rest.len()].copy_from_slice(rest);
    out[rest.len()] = 0x80;
    out
}

fn whole(rest: &[u8]) -> [u8; 16]
    requires { length rest.now ≡ 16 }
    ensures { result ≡ rest.now }
{
    u8x16::from_slice(rest).to_array()
}

fn last_block(key: &Schedule, rest: &[u8]) -> u8x16
    requires { length rest.now ≤ 16 }
    ensures { result ≡ last_block key.now rest.now }
{
    if rest.len() == 16 {
        xor(subkey1(key), whole(rest))
    } else {
        xor(subkey2(key), padded(rest))
    }
}

// The MAC of a text whose last block is `rest`, from the chain over the blocks before it.
pub fn closed(key: &Schedule, chained: u8x16, rest: &[u8]) -> [u8; 16]
    requires { length rest.now ≤ 16 }
    ensures { result ≡ encrypted key.now (xored chained (last_block key.now rest.now)) }
{
    key.encrypt_vector(chained ^ last_block(key, rest))
        .to_array()
}

// One more block in the chain.
pub fn chained_on(key: &Schedule, chained: u8x16, text: &[u8], at: usize) -> u8x16
    requires { at + 16 ≤ length text.now }
    ensures { result ≡ encrypted key.now (xored chained (take 16 (drop at text.now))) }
{
    key.encrypt_vector(xor_block(chained, text, at))
}

// The first `blocks` blocks of `text` in the chain, after those before it.
pub fn chained_over(key: &Schedule, chained: u8x16, text: &[u8], blocks: usize) -> u8x16
    requires { 16 * blocks ≤ length text.now }
    ensures { (whole : List ℕ) (before : ℕ) → chained ≡ chain key.now whole before → text.now ≡ drop (16 * before) whole
        → result ≡ chain key.now whole (before + blocks) }
{
    let mut last = chained;
    'blocks: for i in 0..blocks {
        let next = chained_on(key, last, text, 16 * i);
        last = next;
    }
    last
}

/// The MAC of a text, of 16 octets.
pub fn mac(key: &Schedule, text: &[u8]) -> [u8; 16]
    ensures { result ≡ mac key.now text.now }
{
    let before_last = text.len().saturating_sub(1) / 16;
    let chained = chained_over(key, u8x16::splat(0), text, before_last);
    closed(key, chained, &text[16 * before_last..])
}
