ghost use Rattle.std.specs.Prelude.{◌≡◌, ◌↔◌, length, ◌+◌, ◌≤◌, IsTrue, replicate, ◌/◌, ◌%◌, ◌^◌, ◌<◌, ◌++◌, ◌==◌};
ghost use Rattle.std.specs.Prelude.{[], take, drop, unwrap_or, option_copied};
ghost use Rattle.std.specs.Str.{bytes_eq};
ghost use Rattle.sdls_base.specs.Places.{word_at, double_word_at, number_at};
ghost use Rattle.sdls_base.specs.ErrorControl.{with_error_control, before_error_control, error_control_length};
ghost use Rattle.sdls_base.specs.ErrorControl.{fails_error_control};

use crate::error_control::fecf;
use std::alloc::AllocError;
use std::fmt;
use std::marker::Model;

/// Octets. `Debug` prints their number alone, since they may be a key's.
#[derive(Drop)]
pub struct Octets {
    items: Vec<u8>,
}

impl Model for Octets {
    ghost use Rattle.std.specs.Prelude.{List, ℕ};

    ghost Value = { List ℕ };

    ghost view = { λ octets. octets.items.items };
}

impl Octets {
    pub fn new(items: Vec<u8>) -> Octets
        ensures { result ≡ items.items }
    {
        Octets { items }
    }

    pub fn as_slice(&self) -> &[u8]
        ensures { result.now ≡ self.now }
    {
        self.items.as_slice()
    }

    /// The items, given back without taking memory.
    pub fn into_vec(self) -> Vec<u8>
        ensures { result.items ≡ self }
    {
        self.items
    }
}

impl Clone for Octets {
    ghost is_clone = { λ octets copy. copy ≡ octets };

    fn clone(&self) -> Result<Octets, AllocError> {
        let items = self.items.clone()?;
        Ok(Octets { items })
    }
}

impl fmt::Debug for Octets {
    fn fmt<W: fmt::Write>(&self, f: &mut fmt::Formatter<W>) -> fmt::Result {
        write!(f, "Octets({})", self.items.len())
    }
}

/// Whether the octets are the same. All of them are looked at, wherever they differ: no octet decides what is done
/// with the next, so the time that it takes does not tell how much of a MAC was right. Other lengths are told at once.
pub fn same_octets(left: &[u8], right: &[u8]) -> bool
    ensures { result ≡ bytes_eq left.now right.now }
{
    left.len() == right.len() && differences(left, right) == 0
}

/// The differences of all pairs of octets, folded into one octet.
fn differences(left: &[u8], right: &[u8]) -> u8
    requires { length left.now ≡ length right.now }
    ensures { (result ≡ 0) ↔ (left.now ≡ right.now) }
{
    let mut found = 0;
    for (i, octet) in left.iter().enumerate() {
        found |= *octet ^ right[i];
    }
    found
}

/// The number of 2 octets at a place, the most significant octet first.
pub fn word_at(octets: &[u8], at: usize) -> u16
    requires { at + 2 ≤ length octets.now }
    ensures { result ≡ word_at at octets.now }
{
    u16::from_be_bytes([octets[at], octets[at + 1]])
}

/// The number of 4 octets at a place, the most significant octet first.
pub fn double_word_at(octets: &[u8], at: usize) -> u32
    requires { at + 4 ≤ length octets.now }
    ensures { result ≡ double_word_at at octets.now }
{
    u32::from_be_bytes([octets[at], octets[at + 1], octets[at + 2], octets[at + 3]])
}

/// The number of 8 octets at a place, the most significant octet first.
pub fn number_at(octets: &[u8], at: usize) -> u64
    requires { at + 8 ≤ length octets.now }
    ensures { result ≡ number_at at octets.now }
{
    u64::from_be_bytes([
        octets[at],
        octets[at + 1],
        octets[at + 2],
        octets[at + 3],
        octets[at + 4],
        octets[at + 5],
        octets[at + 6],
        octets[at + 7],
    ])
}

/// Whether all octets are 0. None decides whether the next is looked at, so many are joined at a time.
pub fn are_zeros(octets: &[u8]) -> bool
    ensures { IsTrue result ↔ (octets.now ≡ replicate (length octets.now) 0) }
{
    octets.iter().fold(0, |all, octet| all | *octet) == 0
}

/// Writes `octets` into `out` from place `at` on, and answers the place after them.
pub fn put(out: &mut [u8], at: usize, octets: &[u8]) -> usize
    requires { at + length octets.now ≤ length out.old }
    ensures place { result ≡ at + length octets.now }
    ensures written { take result out.new ≡ take at out.old ++ octets.now }
    ensures rest { drop result out.new ≡ drop result out.old }
{
    let end = at + octets.len();
    out[at..end].copy_from_slice(octets);
    end
}

/// Writes the frame error control field over the first `at` octets of `out` behind them, where the layout has one,
/// and answers the place after it.
pub fn put_fecf(out: &mut [u8], at: usize, has_fecf: bool) -> usize
    requires { at + error_control_length has_fecf ≤ length out.old }
    ensures place { result ≡ at + error_control_length has_fecf }
    ensures written { take result out.new ≡ with_error_control has_fecf (take at out.old) }
    ensures rest { drop result out.new ≡ drop result out.old }
{
    if has_fecf {
        let field = fecf(&out[..at]).to_be_bytes();
        put(out, at, &field)
    } else {
        at
    }
}

/// The octets before the frame error control field, where the layout has one.
pub fn before_fecf(frame: &[u8], has_fecf: bool) -> &[u8]
    requires { error_control_length has_fecf ≤ length frame.now }
    ensures { result.now ≡ before_error_control has_fecf frame.now }
{
    if has_fecf {
        &frame[..frame.len() - 2]
    } else {
        frame
    }
}

/// Whether the layout has a frame error control field, and the last two octets are not that over the octets before
/// them.
pub fn fecf_fails(frame: &[u8], has_fecf: bool) -> bool
    requires { error_control_length has_fecf ≤ length frame.now }
    ensures { result ≡ fails_error_control has_fecf frame.now }
{
    if has_fecf {
        let (octets, field) = frame.split_at(frame.len() - 2);
        field != fecf(octets).to_be_bytes().as_slice()
    } else {
        false
    }
}

/// The bit of an octet that is worth 2^k.
pub fn flag(octet: u8, k: u32) -> bool
    requires { k < 8 }
    ensures { result ≡ (octet / 2 ^ k % 2 == 1) }
{
    (octet >> k) & 1 == 1
}

/// Writes a field that may be absent, as `put` does.
pub fn put_optional(out: &mut [u8], at: usize, field: Option<&[u8]>) -> usize
    requires { at + length (unwrap_or (option_copied field) []) ≤ length out.old }
    ensures place { result ≡ at + length (unwrap_or (option_copied field.entry) []) }
    ensures written { take result out.new ≡ take at out.old ++ unwrap_or (option_copied field.entry) [] }
    ensures rest { drop result out.new ≡ drop result out.old }
{
    match field {
        Some(octets) => put(out, at, octets),
        None => at,
    }
}

/// Writes the frame of a link whose frames have one length: the primary header, what stands between it and the room,
/// the room, the operational control field where there is one, and the frame error control field where the layout has
/// one (CCSDS 132.0-B-3 and 732.0-B-4, Transfer Frame). Answers the frame's octets.
pub fn put_frame(
    out: &mut [u8],
    header: &[u8],
    between: &[u8],
    room: &[u8],
    ocf: Option<&[u8]>,
    has_fecf: bool,
) -> usize
    requires { length header.now + length between.now + length room.now
        + length (unwrap_or (option_copied ocf) []) + error_control_length has_fecf ≤ length out.old }
    ensures count { result ≡ length header.now + length between.now + length room.now
        + length (unwrap_or (option_copied ocf.entry) []) + error_control_length has_fecf }
    ensures written { out.new ≡ with_error_control has_fecf
        ((header.now ++ between.now) ++ room.now ++ unwrap_or (option_copied ocf.entry) []) ++ drop result out.old }
{
    let header_end = put(out, 0, header);
    let room_start = put(out, header_end, between);
    let room_end = put(out, room_start, room);
    let body_end = put_optional(out, room_end, ocf);
    put_fecf(out, body_end, has_fecf)
}
