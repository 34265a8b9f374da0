// The key expansion (FIPS 197, 5.2).

ghost use Rattle.std.specs.Prelude.{◌≡◌, ℕ, ◌+◌, ◌*◌, ◌<◌, ◌≤◌, ◌∷◌, [], length, map, take};
ghost use Rattle.aes_block.specs.Aes.{changed, next_word, rcon, round_key, sub_word, word_at};
ghost use Rattle.aes_block.specs.Basis.{element, with_constant};
ghost use Rattle.aes_block.specs.Schedule.{IsKeyWords, IsSchedule};
ghost use Rattle.aes_block.specs.Vectors.{HoldsKeys, columns};

use crate::substitution::{on_basis, sub_bytes};
use std::simd::{u8x16, u32x4};

// `Rcon`, whose first is that of 1.
const RCON: [u32; 10] = [
    0x0100_0000,
    0x0200_0000,
    0x0400_0000,
    0x0800_0000,
    0x1000_0000,
    0x2000_0000,
    0x4000_0000,
    0x8000_0000,
    0x1b00_0000,
    0x3600_0000,
];

fn rcon(k: usize) -> u32
    requires some { 0 < k }
    requires within { k ≤ 10 }
    ensures { result ≡ rcon k }
{
    RCON[k - 1]
}

fn sub_word(word: u32) -> u32
    ensures { result ≡ sub_word word }
{
    let [a, b, c, d] = word.to_be_bytes();
    let word_alone = [a, b, c, d, 0, 0, 0, 0, 0, 0, 0, 0, 0, 0, 0, 0];
    let [a, b, c, d, ..] = sub_bytes(u8x16::from_array(word_alone)).to_array();
    u32::from_be_bytes([a, b, c, d])
}

// What word `i` adds to the word one key before it, from the word just before it.
fn changed(key_words: usize, before: u32, i: usize) -> u32
    requires words { IsKeyWords key_words }
    requires low { key_words ≤ i }
    requires high { i < 4 * (key_words + 7) }
    ensures { result ≡ changed key_words before i }
{
    if i % key_words == 0 {
        sub_word(before.rotate_left(8)) ^ rcon(i / key_words)
    } else if key_words == 8 && i % 8 == 4 {
        sub_word(before)
    } else {
        before
    }
}

fn next_word(key_words: usize, words: &[u32], i: usize) -> u32
    requires words { IsKeyWords key_words }
    requires low { key_words ≤ i }
    requires high { i < 4 * (key_words + 7) }
    requires made { i ≤ length words.now }
    ensures { result ≡ next_word key_words words.now i }
{
    words[i - key_words] ^ changed(key_words, words[i - 1], i)
}

fn word_at(key: &[u8], at: usize) -> u32
    requires { at + 4 ≤ length key.now }
    ensures { result ≡ word_at key.now at }
{
    u32::from_be_bytes([key[at], key[at + 1], key[at + 2], key[at + 3]])
}

// The words of a key of `key_words` words, and those that follow from them.
pub fn expand(key: &[u8], key_words: usize) -> [u32; 60]
    requires words { IsKeyWords key_words }
    requires key { length key.now ≡ 4 * key_words }
    ensures { IsSchedule key_words key.now result }
{
    let mut words = [0u32; 60];
    'firsts: for i in 0..key_words {
        words[i] = word_at(key, 4 * i);
    }
    'others: for i in key_words..4 * (key_words + 7) {
        words[i] = next_word(key_words, &words, i);
    }
    words
}

// The octets of four words. They stand in a vector with the last of each word first.
fn octets_of_words(a: u32, b: u32, c: u32, d: u32) -> u8x16
    ensures { result ≡ columns (a ∷ b ∷ c ∷ d ∷ []) }
{
    u32x4::from_array([a, b, c, d])
        .to_le_bytes()
        .swizzle([3, 2, 1, 0, 7, 6, 5, 4, 11, 10, 9, 8, 15, 14, 13, 12])
}

fn round_key(words: &[u32; 60], round: usize) -> u8x16
    requires { round < 15 }
    ensures { result ≡ round_key words.now round }
{
    octets_of_words(
        words[4 * round],
        words[4 * round + 1],
        words[4 * round + 2],
        words[4 * round + 3],
    )
}

fn with_constant(key: u8x16) -> u8x16
    ensures { result ≡ with_constant key }
{
    key ^ u8x16::splat(0x63)
}

// The round keys as the rounds add them.
pub fn keys_of(words: &[u32; 60], rounds: usize) -> [[u8; 16]; 15]
    requires some { 0 < rounds }
    requires most { rounds < 15 }
    ensures { HoldsKeys words.now rounds result }
{
    let mut keys = [[0u8; 16]; 15];
    keys[0] = round_key(words, 0).to_array();
    'rounds: for round in 1..rounds {
        keys[round] = on_basis(with_constant(round_key(words, round))).to_array();
    }
    keys[rounds] = with_constant(round_key(words, rounds)).to_array();
    keys
}
