//! Cases of the ciphers and of the frame error control field, each against a plain way to the same
//! octets. Prints how many of each table agree.
#![tactic(auto)]

mod published;

ghost use Rattle.std.specs.Prelude.{◌≤◌, length};

use aes_block::Schedule;
use cmac::{Running, mac};
use gcm::{Table, seal_in_place};
use published::{
    IV, published_blocks, published_cases, published_macs, published_macs_by_pieces,
    refused_lengths,
};
use sdls_base::fecf;
use std::alloc::Global;
use std::{array, io};

/// Counts a case that agrees.
pub fn count(agreed: &mut u32, agrees: bool) {
    *agreed = agreed.wrapping_add(u32::from(agrees));
}

pub fn mac_by_pieces(key: &Schedule, text: &[u8], piece: usize) -> [u8; 16] {
    let mut running = Running::new(key);
    for part in text.chunks(piece.max(1)) {
        running.update(part);
    }
    running.finish()
}

/// Texts of 0 to 65 octets, in pieces of 1 to 66.
fn pieces(key: &Schedule) -> u32 {
    let octets: [u8; 65] = array::from_fn(|i| ((i % 256) as u8).wrapping_mul(29));
    let mut agreed = 0u32;
    for length in 0..66 {
        let text = &octets[..length];
        for piece in 1..67 {
            let same = mac_by_pieces(key, text, piece) == mac(key, text);
            count(&mut agreed, same);
        }
    }
    agreed
}

/// Each octet in all places of one of eight blocks.
fn eights(key: &Schedule) -> u32 {
    let mut agreed = 0u32;
    for group in 0..32u8 {
        let mut blocks = [[0u8; 16]; 8];
        for i in 0..8usize {
            blocks[i] = [8 * group + i as u8; 16];
        }
        let enciphered = key.encrypt8(blocks);
        for i in 0..8usize {
            count(&mut agreed, enciphered[i] == key.encrypt(blocks[i]));
        }
    }
    agreed
}

/// The product in GF(2^128) by Horner's rule, from the coefficient of x^127 down (SP 800-38D, 6.3).
fn times(a: u128, b: u128) -> u128 {
    let mut product = 0u128;
    for i in 0..128u32 {
        let carry = if product & 1 == 1 { 0xe1 << 120 } else { 0 };
        let term = if (a >> i) & 1 == 1 { b } else { 0 };
        product = (product >> 1) ^ carry ^ term;
    }
    product
}

/// Each octet in each place of a block, times a subkey.
fn products() -> u32 {
    let subkey = 0x66e94bd4ef8a2c3b884cfa59ca342b2eu128;
    let table = Table::new(subkey.to_be_bytes());
    let mut agreed = 0u32;
    for octet in 0..=255u8 {
        for place in 0..16usize {
            let mut block = [0u8; 16];
            block[place] = octet;
            let product = times(u128::from_be_bytes(block), subkey);
            count(&mut agreed, table.times(block) == product.to_be_bytes());
        }
    }
    agreed
}

/// The register, bit by bit (CCSDS 232.0-B-4, Frame Error Control Field).
fn register(octets: &[u8]) -> u16 {
    let mut register = 0xFFFFu16;
    for octet in octets {
        register ^= u16::from(*octet) << 8;
        for _ in 0..8 {
            let carry = if register >> 15 == 1 { 0x1021 } else { 0 };
            register = (register << 1) ^ carry;
        }
    }
    register
}

/// Texts of 0 to 299 octets.
fn fields() -> u32 {
    let text: [u8; 299] = array::from_fn(|i| (i % 256) as u8);
    let mut agreed = 0u32;
    for length in 0..300 {
        let same = fecf(&text[..length]) == register(&text[..length]);
        count(&mut agreed, same);
    }
    agreed
}

/// The sum of X1 * H^m to Xm * H.
fn ghash(h: u128, blocks: &[u128]) -> u128 {
    let mut sum = 0u128;
    for (i, block) in blocks.iter().enumerate() {
        let mut term = *block;
        for _ in i..blocks.len() {
            term = times(term, h);
        }
        sum ^= term;
    }
    sum
}

/// The blocks of the octets, the last of them filled up with zeros.
fn push_blocks(blocks: &mut Vec<u128>, octets: &[u8]) -> io::Result<()> {
    for part in octets.chunks(16) {
        let mut block = [0u8; 16];
        let end = part.len().min(16);
        block[..end].copy_from_slice(&part[..end]);
        blocks.push(u128::from_be_bytes(block))?;
    }
    Ok(())
}

/// The enciphered block that stands `count` after J0.
fn pad(key: &Schedule, count: u32) -> [u8; 16] {
    let mut block = [0u8; 16];
    block[..12].copy_from_slice(&IV);
    block[12..].copy_from_slice(&count.wrapping_add(1).to_be_bytes());
    key.encrypt(block)
}

/// Enciphers the text, and returns the tag: octet by octet, with each power of the hash subkey made afresh.
fn plain_seal(alloc: Global, key: &Schedule, aad: &[u8], text: &mut [u8]) -> io::Result<[u8; 16]>
    requires aad { length aad.now ≤ 65536 }
    requires text { length text.old ≤ 65536 }
{
    for i in 0..text.len() {
        text[i] ^= pad(key, (i / 16) as u32 + 1)[i % 16];
    }
    let mut blocks = Vec::new(alloc);
    push_blocks(&mut blocks, aad)?;
    push_blocks(&mut blocks, text)?;
    blocks.push(((8 * aad.len() as u128) << 64) | (8 * text.len() as u128))?;
    let h = u128::from_be_bytes(key.encrypt([0; 16]));
    let mask = u128::from_be_bytes(pad(key, 0));
    Ok((ghash(h, &blocks) ^ mask).to_be_bytes())
}

/// Texts of 0 to 257 octets: those to 65 with additional data of each length from 0 to 33, and each longer one with
/// additional data of one of these lengths.
fn lengths(alloc: Global, key: &Schedule) -> io::Result<u32> {
    let octets: [u8; 257] = array::from_fn(|i| (i % 256) as u8);
    let mut agreed = 0u32;
    for text_len in 0..258usize {
        let one = text_len % 34;
        let (least, most) = if text_len < 66 { (0, 33) } else { (one, one) };
        for aad_len in least..=most {
            let (mut text, mut plain, aad) = (octets, octets, &octets[..aad_len]);
            let tag = seal_in_place(key, &IV, aad, &mut text[..text_len]);
            let plain_tag = plain_seal(alloc, key, aad, &mut plain[..text_len])?;
            count(&mut agreed, tag == plain_tag && text == plain);
        }
    }
    Ok(agreed)
}

fn main(rt: HostRuntime) -> io::Result<()> {
    let Ok(key) = Schedule::new(&[5; 16]) else {
        return Err(io::ErrorKind::InvalidInput.into());
    };
    for (table, agreed) in [
        ("MACs by pieces", pieces(&key)),
        ("blocks by eight", eights(&key)),
        ("products", products()),
        ("error control fields", fields()),
        ("published cases of GCM", published_cases()),
        ("GCM at each length", lengths(rt.alloc(), &key)?),
        ("published blocks", published_blocks()),
        ("refused key lengths", refused_lengths()),
        ("published MACs", published_macs()),
        ("published MACs by pieces", published_macs_by_pieces()),
    ] {
        println!(rt; "{table}: {agreed} agree")?;
    }
    Ok(())
}
