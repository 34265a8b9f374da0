ghost use Rattle.std.specs.Prelude.{◌≡◌, ℕ, ◌≤◌, ◌↔◌, List, length, Some, None, IsErr, OnOk, OnErr};
ghost use Rattle.aes_block.specs.Aes.{encrypted};
ghost use Rattle.gcm.specs.Gcm.{counter_block, gcm_open, gcm_seal, tag_of};

use crate::counter::{count_over, first_pads};
use crate::hash::hash;
use crate::table::Table;
use aes_block::Schedule;
use sdls_base::same_octets;
use thiserror::Error;

/// The tag is not the ciphertext's.
#[derive(Clone, Copy, Debug, PartialEq, Eq, Error)]
#[error("tag is not the ciphertext's")]
pub struct BadTag;

/// Law: what was sealed opens to what was sealed, and nothing else opens.
pub fn opens_what_was_sealed()
    ensures { (key iv aad clear text tag : List ℕ)
        → (gcm_open key iv aad text tag ≡ Some clear) ↔ (gcm_seal key iv aad clear ≡ (text, tag)) }
{}

// The tag, whose mask is J0 enciphered.
fn tag_of(key: &Schedule, mask: &[u8; 16], aad: &[u8], text: &[u8]) -> [u8; 16]
    requires aad { length aad.now ≤ 65536 }
    requires text { length text.now ≤ 65536 }
    ensures { (iv : List ℕ) → mask.now ≡ encrypted key.now (counter_block iv 0)
        → result ≡ tag_of key.now iv aad.now text.now }
{
    let table = Table::new(key.enciphered_zeros());
    (hash(&table, aad, text) ^ u128::from_be_bytes(*mask)).to_be_bytes()
}

/// Enciphers the text where it lies, and gives the tag of the ciphertext and the additional data.
/// Each has at most 65,536 octets.
pub fn seal_in_place(key: &Schedule, iv: &[u8; 12], aad: &[u8], text: &mut [u8]) -> [u8; 16]
    requires aad { length aad.now ≤ 65536 }
    requires text { length text.old ≤ 65536 }
    ensures { (text.new, result) ≡ gcm_seal key.now iv.now aad.now text.old }
{
    let first = first_pads(key, iv);
    count_over(key, iv, &first, text);
    tag_of(key, &first[0], aad, text)
}

/// Deciphers the text where it lies, if `tag` is the tag of the ciphertext and the additional
/// data. Each has at most 65,536 octets.
pub fn open_in_place(
    key: &Schedule,
    iv: &[u8; 12],
    aad: &[u8],
    text: &mut [u8],
    tag: &[u8; 16],
) -> Result<(), BadTag>
    requires aad { length aad.now ≤ 65536 }
    requires text { length text.old ≤ 65536 }
    ensures opened { OnOk result (gcm_open key.now iv.now aad.now text.old tag.now ≡ Some text.new) }
    ensures refused { IsErr result ↔ (gcm_open key.now iv.now aad.now text.old tag.now ≡ None) }
    ensures unchanged { OnErr result (text.new ≡ text.old) }
{
    let first = first_pads(key, iv);
    let right = tag_of(key, &first[0], aad, text);
    if !same_octets(tag, &right) {
        return Err(BadTag);
    }
    count_over(key, iv, &first, text);
    Ok(())
}
