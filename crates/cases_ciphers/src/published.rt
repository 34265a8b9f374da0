// GCM against the cases that were published with it, and the blocks and MACs that the standards publish.

use crate::{count, mac_by_pieces};
use aes_block::{KeyLength, Schedule};
use cmac::mac;
use gcm::{BadTag, open_in_place, seal_in_place};

/// A published case of GCM: how many octets key, additional data and text have, the sealed text, and the tag. Texts are
/// written in blocks, and filled up with zeros past their lengths.
type Case = (usize, usize, usize, [u128; 4], u128);

const KEY: u128 = 0xfeffe9928665731c6d6a8f9467308308;

pub const IV: [u8; 12] = [
    0xca, 0xfe, 0xba, 0xbe, 0xfa, 0xce, 0xdb, 0xad, 0xde, 0xca, 0xf8, 0x88,
];

const AAD: [u128; 2] = [
    0xfeedfacedeadbeeffeedfacedeadbeef,
    0xabaddad2000000000000000000000000,
];

const TEXT: [u128; 4] = [
    0xd9313225f88406e5a55909c5aff5269a,
    0x86a7a9531534f7da2e4c303d8a318a72,
    0x1c3c0c95956809532fcf0e2449a6b525,
    0xb16aedf5aa0de657ba637b391aafd255,
];

const SEALED_128: [u128; 4] = [
    0x42831ec2217774244b7221b784d0d49c,
    0xe3aa212f2c02a4e035c17e2329aca12e,
    0x21d514b25466931c7d8f6a5aac84aa05,
    0x1ba30b396a0aac973d58e091473f5985,
];

const SEALED_256: [u128; 4] = [
    0x522dc1f099567d07f47f37a32a84427d,
    0x643a8cdcbfe5c0c97598a2bd2555d1aa,
    0x8cb08e48590dbb3da7b08b1056828838,
    0xc5f61e6393ba7a0abcc9f662898015ad,
];

const ZEROS_128: [u128; 4] = [0x0388dace60b6a392f328c2b971b2fe78, 0, 0, 0];

const ZEROS_256: [u128; 4] = [0xcea7403d4d606b6e074ec5d3baf39d18, 0, 0, 0];

// The test cases 1, 2, 13 and 14 of the GCM specification submitted to NIST (McGrew and Viega): key, vector and text
// are zeros.
const OF_ZEROS: [Case; 4] = [
    (16, 0, 0, [0; 4], 0x58e2fccefa7e3061367f1d57a4e7455a),
    (16, 0, 16, ZEROS_128, 0xab6e47d42cec13bdf53a67b21257bddf),
    (32, 0, 0, [0; 4], 0x530f8afbc74536b9a963b4f1c4cb738b),
    (32, 0, 16, ZEROS_256, 0xd0d1c8a799996bf0265b98b5d48ab919),
];

// The test cases 3, 4, 15 and 16. A key of 32 octets is the block twice.
const OF_WORDS: [Case; 4] = [
    (16, 0, 64, SEALED_128, 0x4d5c2af327cd64a62cf35abd2ba6fab4),
    (16, 20, 60, SEALED_128, 0x5bc94fbc3221a5db94fae95ae7121a47),
    (32, 0, 64, SEALED_256, 0xb094dac5d93471bdec1a502270e3cc6c),
    (32, 20, 60, SEALED_256, 0x76fc6ece0f4e1768cddf8853bb2d551b),
];

fn octets_of(blocks: &[u128; 4]) -> [u8; 64] {
    let mut octets = [0u8; 64];
    for i in 0..4 {
        octets[16 * i..16 * i + 16].copy_from_slice(&blocks[i].to_be_bytes());
    }
    octets
}

/// Whether the case seals as it should, and opens, and does not open under another tag.
fn agrees(key: u128, iv: &[u8; 12], text: &[u128; 4], case: &Case) -> bool {
    let (key_len, aad_len, text_len, sealed, wanted) = *case;
    if key_len > 32 || aad_len > 20 || text_len > 64 {
        return false;
    }
    let Ok(key) = Schedule::new(&octets_of(&[key, key, 0, 0])[..key_len]) else {
        return false;
    };
    let aad = octets_of(&[AAD[0], AAD[1], 0, 0]);
    let (clear, sealed, mut octets) = (octets_of(text), octets_of(&sealed), octets_of(text));
    let (aad, text) = (&aad[..aad_len], &mut octets[..text_len]);
    let tag = seal_in_place(&key, iv, aad, text);
    if tag != wanted.to_be_bytes() || &*text != &sealed[..text_len] {
        return false;
    }
    let wrong = (wanted ^ 1).to_be_bytes();
    open_in_place(&key, iv, aad, text, &wrong) == Err(BadTag)
        && open_in_place(&key, iv, aad, text, &tag) == Ok(())
        && &*text == &clear[..text_len]
}

/// How many of the cases agree.
pub fn published_cases() -> u32 {
    let mut agreed = 0u32;
    for (of_zeros, of_words) in OF_ZEROS.iter().zip(OF_WORDS.iter()) {
        count(&mut agreed, agrees(0, &[0; 12], &[0; 4], of_zeros));
        count(&mut agreed, agrees(KEY, &IV, &TEXT, of_words));
    }
    agreed
}

/// The key of FIPS 197 (2001), C.3; its first 16 octets are that of C.1.
const COUNTED: [u8; 32] = [
    0x00, 0x01, 0x02, 0x03, 0x04, 0x05, 0x06, 0x07, 0x08, 0x09, 0x0a, 0x0b, 0x0c, 0x0d, 0x0e, 0x0f,
    0x10, 0x11, 0x12, 0x13, 0x14, 0x15, 0x16, 0x17, 0x18, 0x19, 0x1a, 0x1b, 0x1c, 0x1d, 0x1e, 0x1f,
];

/// The block of C.1 and C.3, and what comes of it under keys of 16 and of 32 octets.
const BLOCK: u128 = 0x00112233445566778899aabbccddeeff;

const BLOCKS: [(usize, u128); 2] = [
    (16, 0x69c4e0d86a7b0430d8cdb78070b4c55a),
    (32, 0x8ea2b7ca516745bfeafc49904b496089),
];

/// The first octets of others, none if these are fewer.
fn first(octets: &[u8], length: usize) -> &[u8] {
    octets.get(..length).unwrap_or(&[])
}

/// How many blocks are enciphered as the standard has them.
pub fn published_blocks() -> u32 {
    let mut agreed = 0u32;
    for (length, wanted) in BLOCKS {
        if let Ok(key) = Schedule::new(first(&COUNTED, length)) {
            let same = key.encrypt(BLOCK.to_be_bytes()) == wanted.to_be_bytes();
            count(&mut agreed, same);
        }
    }
    agreed
}

/// How many of five other lengths are refused.
pub fn refused_lengths() -> u32 {
    let mut agreed = 0u32;
    for length in [0usize, 15, 17, 24, 31] {
        let refused = Schedule::new(first(&COUNTED, length)).err();
        count(&mut agreed, refused == Some(KeyLength(length)));
    }
    agreed
}

/// The keys of SP 800-38A and SP 800-38B, and their text.
const KEY_256: [u8; 32] = [
    0x60, 0x3d, 0xeb, 0x10, 0x15, 0xca, 0x71, 0xbe, 0x2b, 0x73, 0xae, 0xf0, 0x85, 0x7d, 0x77, 0x81,
    0x1f, 0x35, 0x2c, 0x07, 0x3b, 0x61, 0x08, 0xd7, 0x2d, 0x98, 0x10, 0xa3, 0x09, 0x14, 0xdf, 0xf4,
];

const KEY_128: u128 = 0x2b7e151628aed2a6abf7158809cf4f3c;

const WORDS: [u128; 4] = [
    0x6bc1bee22e409f96e93d7e117393172a,
    0xae2d8a571e03ac9c9eb76fac45af8e51,
    0x30c81c46a35ce411e5fbc1191a0a52ef,
    0xf69f2445df4f9b17ad2b417be66c3710,
];

/// SP 800-38B, D.1: the MAC of the first octets of the text under AES-128.
const MACS_128: [(usize, u128); 4] = [
    (0, 0xbb1d6929e95937287fa37d129b756746),
    (16, 0x070a16b46b4d4144f79bdd9dd04a287c),
    (40, 0xdfa66747de9ae63030ca32611497c827),
    (64, 0x51f0bebf7e3b9d92fc49741779363cfe),
];

/// SP 800-38B, D.3: the same under AES-256.
const MACS_256: [(usize, u128); 4] = [
    (0, 0x028962f61b7bf89efc6b551f4667d983),
    (16, 0x28a7023f452e8f82bd4bf28d8c37c35c),
    (40, 0xaaf3d8f1de5640c232f5b169b9c911e6),
    (64, 0xe1992190549f6ed5696a2c056c315410),
];

/// How many MACs of the text's beginnings are those wanted, each made in pieces of these lengths. A length of 0 is one
/// call of `mac`.
fn macs_under(key: &[u8], wanted: &[(usize, u128); 4], pieces: &[usize]) -> u32 {
    let Ok(key) = Schedule::new(key) else {
        return 0;
    };
    let (octets, mut agreed) = (octets_of(&WORDS), 0u32);
    for (length, wanted) in *wanted {
        let text = first(&octets, length);
        for piece in pieces {
            let made = match *piece {
                0 => mac(&key, text),
                piece => mac_by_pieces(&key, text, piece),
            };
            count(&mut agreed, made == wanted.to_be_bytes());
        }
    }
    agreed
}

/// How many MACs are those of the standard.
pub fn published_macs() -> u32 {
    let of_128 = macs_under(&KEY_128.to_be_bytes(), &MACS_128, &[0]);
    of_128.wrapping_add(macs_under(&KEY_256, &MACS_256, &[0]))
}

/// The same of D.1, with each text in pieces of 1, 16, 17 and 64 octets.
pub fn published_macs_by_pieces() -> u32 {
    macs_under(&KEY_128.to_be_bytes(), &MACS_128, &[1, 16, 17, 64])
}
