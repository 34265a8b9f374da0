ghost use Rattle.std.specs.Prelude.{◌≡◌, ℕ, ◌<◌, length, slice_index, bit_and};
ghost use Rattle.sdls_header.specs.Authenticated.{masked_octets};

use sdls_base::Spi;

/// Puts each octet of a frame's prefix under its octet of the mask (CCSDS 355.0-B-2, authentication bit mask), where it
/// lies. Past the mask's end the mask is 00; what the mask has past the prefix is not looked at.
pub fn mask_in_place(prefix: &mut [u8], mask: &[u8])
    ensures octets { (i : ℕ) → i < length prefix.old
        → slice_index prefix.new i ≡ bit_and (slice_index prefix.old i) (slice_index mask.now i) }
    ensures text { prefix.new ≡ masked_octets prefix.old mask.now }
{
    let under = prefix.len().min(mask.len());
    'octets: for i in 0..under {
        prefix[i] &= mask[i];
    }
    'rest: for i in under..prefix.len() {
        prefix[i] = 0;
    }
}

/// Writes a frame's prefix under the mask into `out`, as [`mask_in_place`] leaves it.
pub fn masked(prefix: &[u8], mask: &[u8], out: &mut [u8])
    requires { length prefix.now ≡ length out.old }
    ensures octets { (i : ℕ) → i < length prefix.now
        → slice_index out.new i ≡ bit_and (slice_index prefix.now i) (slice_index mask.now i) }
    ensures text { out.new ≡ masked_octets prefix.now mask.now }
{
    out.copy_from_slice(prefix);
    mask_in_place(out, mask);
}

/// The number of a protected frame, as the security header carries it (profile).
#[derive(Clone, Copy, Debug, PartialEq, Eq)]
pub enum Vector {
    /// The sequence number of the CMAC suite, 4 octets.
    Sequence(u32),
    /// The initialization vector of the GCM suite: the sender's device field, and the number in 8 octets.
    Wide { device: [u8; 4], number: u64 },
}

/// Security Header (CCSDS 355.0-B-2): the security parameter index, then the vector. It has no pad length field
/// (profile).
#[derive(Clone, Copy, Debug)]
pub struct SecurityHeader {
    pub spi: Spi,
    pub vector: Vector,
}

/// The room of a protected frame, taken apart.
#[derive(Clone, Copy, Debug)]
pub struct Split<'a> {
    /// The security header's octets.
    pub header: &'a [u8],
    pub vector: Vector,
    /// The data field.
    pub field: &'a [u8],
    /// The security trailer, 16 octets.
    pub mac: &'a [u8],
}
