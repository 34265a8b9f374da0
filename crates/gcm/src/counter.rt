// Counter mode (SP 800-38D, 6.2 and 6.5).

ghost use Rattle.std.specs.Prelude.{◌≡◌, ℕ, ◌+◌, ◌-◌, ◌*◌, ◌^◌, ◌<◌, ◌≤◌, List, length};
ghost use Rattle.gcm.specs.Gcm.{gctr, counter_block};
ghost use Rattle.gcm.specs.Counter.{IsEncipheredBelow, XorsPad, first_pads, four_counters};

use aes_block::Schedule;
use std::simd::u8x16;

// The block after `count` steps from the first, which is that of 1.
pub fn counter_block(iv: &[u8; 12], count: u32) -> [u8; 16]
    ensures { result ≡ counter_block iv.now count }
{
    let [a, b, c, d, e, f, g, h, i, j, k, l] = *iv;
    let [w, x, y, z] = 1u32.wrapping_add(count).to_be_bytes();
    [a, b, c, d, e, f, g, h, i, j, k, l, w, x, y, z]
}

// Xors the octets of `pad` into the text from `start` on, as far as it goes.
fn xor_octets(text: &mut [u8], start: usize, pad: &[u8; 16])
    requires { start ≤ 65536 }
    ensures { XorsPad start (start + 16) pad.now text.old text.new }
{
    let end = text.len().min(start + 16);
    'octets: for k in start..end {
        text[k] ^= pad[k - start];
    }
}

// Xors the pad into a whole block of the text, from `start` on.
fn xor_block(text: &mut [u8], start: usize, pad: &[u8; 16])
    requires { start + 16 ≤ length text.old }
    ensures { XorsPad start (start + 16) pad.now text.old text.new }
{
    let sum = u8x16::from_slice(&text[start..]) ^ u8x16::from_array(*pad);
    sum.copy_to_slice(&mut text[start..]);
}

// Xors the pad into the text from `start` on, whether a whole block is left of it, or less, or nothing.
fn xor_pad(text: &mut [u8], start: usize, pad: &[u8; 16])
    requires { start ≤ 65536 }
    ensures { XorsPad start (start + 16) pad.now text.old text.new }
{
    if start + 16 <= text.len() {
        xor_block(text, start, pad);
    } else {
        xor_octets(text, start, pad);
    }
}

fn four_counters(iv: &[u8; 12], count: u32) -> [[u8; 16]; 4]
    requires { count + 3 < 2 ^ 32 }
    ensures { result ≡ four_counters iv.now count }
{
    [
        counter_block(iv, count),
        counter_block(iv, count + 1),
        counter_block(iv, count + 2),
        counter_block(iv, count + 3),
    ]
}

// Enciphers four blocks of the text, from block `first` on, as far as it goes.
fn count_four(key: &Schedule, iv: &[u8; 12], text: &mut [u8], first: usize)
    requires { first ≤ 4092 }
    ensures { (clear : List ℕ) → IsEncipheredBelow key.now iv.now clear text.old (16 * first)
        → IsEncipheredBelow key.now iv.now clear text.new (16 * (first + 4)) }
{
    let pads = key.encrypt4(four_counters(iv, first as u32 + 1));
    'pads: for i in 0..4usize {
        xor_pad(text, 16 * (first + i), &pads[i]);
    }
}

/// What masks the tag, and the pads of the first two blocks: a short text needs no more.
pub fn first_pads(key: &Schedule, iv: &[u8; 12]) -> [[u8; 16]; 3]
    ensures { result ≡ first_pads key.now iv.now }
{
    key.encrypt3([
        counter_block(iv, 0),
        counter_block(iv, 1),
        counter_block(iv, 2),
    ])
}

/// Enciphers the text where it lies; a second time deciphers it.
pub fn count_over(key: &Schedule, iv: &[u8; 12], first: &[[u8; 16]; 3], text: &mut [u8])
    requires short { length text.old ≤ 65536 }
    requires first { first.now ≡ first_pads key.now iv.now }
    ensures { text.new ≡ gctr key.now iv.now text.old }
{
    xor_pad(text, 0, &first[1]);
    xor_pad(text, 16, &first[2]);
    let count = text.len().div_ceil(16);
    let fours = count.saturating_sub(2) / 4;
    'fours: for group in 0..fours {
        count_four(key, iv, text, 2 + 4 * group);
    }
    'rest: for i in 2 + 4 * fours..count {
        let pad = key.encrypt(counter_block(iv, i as u32 + 1));
        xor_pad(text, 16 * i, &pad);
    }
}
