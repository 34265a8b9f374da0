// A clear frame is protected: prefix, security header, data field, security trailer and error control field are written
// into a room, one behind the other. `Protects` of specs/Protects.antt says which octets these are.
ghost use Rattle.std.specs.Prelude.{◌≡◌, ◌+◌, ◌^◌, ◌<◌, ◌≤◌, [], ◌++◌, unwrap_or, option_copied, None, Some, length};
ghost use Rattle.std.specs.Prelude.{take, drop, MatchResult, ℕ, List};
ghost use Rattle.std.specs.Bool.{OnTrue, OnFalse};
ghost use Rattle.sdls_base.specs.declared.layout.FrameFault.{FrameFault};
ghost use Rattle.sdls_base.specs.KeyId.{end_of};
ghost use Rattle.sdls_base.specs.Suite.{overhead_of};
ghost use Rattle.sdls_base.specs.Link.{IsInBounds};
ghost use Rattle.cmac.specs.Cmac.{mac};
ghost use Rattle.sdls_header.specs.SecurityHeader.{IsVectorOf, header_octets};
ghost use Rattle.sdls_header.specs.Authenticated.{authenticated, masked_octets};
ghost use Rattle.frame_shield.specs.Binding.{IsBinding, clear_fault, clear_layout, gain_of};
ghost use Rattle.frame_shield.specs.Body.{IsBody, IsLayout};
ghost use Rattle.frame_shield.specs.Protects.{Protects};
ghost use Rattle.frame_shield.specs.Secured.{vector_for, sealed, number_of};
ghost use Rattle.frame_shield.specs.Shield.{most_of, prefix_for, room_behind, room_for};
ghost use Rattle.frame_shield.specs.ShieldFault.{fault_number};
ghost use Rattle.frame_shield.specs.AnyFrame.{first_fault};

use crate::binding::{Binding, clear_layout, gain_of};
use aes_block::Schedule;
use cmac::{Running, mac};
use gcm::{BadTag, open_in_place, opens_what_was_sealed, seal_in_place};
use sdls_base::{
    AnyLayout, AosLayout, FrameFault, Suite, TcLayout, TmLayout, put, put_fecf, put_optional,
    same_octets,
};
use sdls_header::{SecurityHeader, Vector, mask_in_place, masked, wide_octets, write_header};
use std::marker::Model;
use thiserror::Error;

/// The octets of room that each protected frame fits into.
pub const FRAME_ROOM: usize = 2048;

/// Why a frame is not protected.
#[derive(Clone, Copy, Debug, PartialEq, Eq, Error)]
pub enum ShieldFault {
    /// The clear frame has not its layout: the number of the first check that fails.
    #[error("clear frame has not its layout: check {0} fails")]
    Layout(u8),
    /// The frame is on no channel of the plan.
    #[error("frame is on no channel of the plan")]
    Channel,
    /// No operational association covers the channel.
    #[error("channel has no operational association")]
    State,
}

/// Whether a clear frame has its layout: that of the link, without frame error control field, and shorter by what the
/// frame is to gain. The fault is `Layout`, and no other.
pub fn fits(binding: &Binding, clear: &[u8]) -> Result<(), ShieldFault>
    requires { IsBinding binding.now }
    ensures { MatchResult result
        (λ _. clear_fault binding.now clear.now ≡ None)
        (λ refusal. (fault : FrameFault) × (clear_fault binding.now clear.now ≡ Some fault)
        × (refusal ≡ ShieldFault.Layout (fault_number fault))) }
{
    match fault_of(clear, &clear_layout(binding.suite, &binding.link.layout)) {
        None => Ok(()),
        Some(fault) => Err(ShieldFault::Layout(fault as u8)),
    }
}

/// Writes the prefix of the protected frame of `count` octets into the front of `out`.
fn put_prefix(out: &mut [u8], layout: &AnyLayout, prefix: &[u8], count: usize) -> usize
    requires prefix { 5 ≤ length prefix.now }
    requires layout { IsInBounds layout.now }
    requires count { (1 ≤ count) × (count ≤ most_of layout.now) }
    requires room { length prefix.now ≤ length out.old }
    ensures place { result ≡ length prefix.now }
    ensures written { take result out.new ≡ prefix_for layout.now prefix.now count }
    ensures rest { drop result out.new ≡ drop result out.old }
{
    match layout {
        AnyLayout::Tc(_) => tc_frame::put_prefix(out, prefix, count),
        AnyLayout::Tm(_) | AnyLayout::Aos(_) => put(out, 0, prefix),
    }
}

/// Writes a security header into `out` from place `at` on, and answers the place after it.
fn put_header(out: &mut [u8], at: usize, header: &SecurityHeader) -> usize
    requires { at + 14 ≤ length out.old }
    ensures place { result ≡ at + length (header_octets header.now) }
    ensures written { take result out.new ≡ take at out.old ++ header_octets header.now }
    ensures rest { drop result out.new ≡ drop result out.old }
{
    let mut octets = [0; 14];
    let count = write_header(header, &mut octets);
    put(out, at, &octets[..count])
}

/// Writes security header, text and MAC of a data field into `out` from `at` on. The MAC covers what stands before
/// `at`.
fn put_room(out: &mut [u8], at: usize, binding: &Binding, vector: Vector, field: &[u8]) -> usize
    requires vector { IsVectorOf binding.now.suite vector }
    requires front { at ≤ 70 }
    requires field { length field.now ≤ FRAME_ROOM }
    requires room { at + overhead_of binding.now.suite + length field.now ≤ length out.old }
    ensures place { result ≡ at + overhead_of binding.now.suite + length field.now }
    ensures written { take result out.new ≡ take at out.old
        ++ room_behind binding.now vector (take at out.old) field.now }
    ensures rest { drop result out.new ≡ drop result out.old }
{
    let header = SecurityHeader {
        spi: binding.spi,
        vector,
    };
    let text_start = put_header(out, at, &header);
    let text_end = put(out, text_start, field);
    let mac = seal(&binding.schedule, vector, &mut out[..text_end], text_start);
    put(out, text_end, &mac)
}

/// Writes prefix, security header, text and MAC of the protected frame of `count` octets into the front of `out`. The
/// MAC is over the masked prefix, which stands in the prefix's place until it is made.
fn put_secured(
    out: &mut [u8],
    binding: &Binding,
    vector: Vector,
    prefix: &[u8],
    field: &[u8],
    count: usize,
) -> usize
    requires mask { binding.now.link.mask.length ≤ 6 }
    requires vector { IsVectorOf binding.now.suite vector }
    requires layout { IsInBounds binding.now.link.layout }
    requires count { (1 ≤ count) × (count ≤ most_of binding.now.link.layout) }
    requires prefix { (5 ≤ length prefix.now) × (length prefix.now ≤ 70) }
    requires field { length field.now ≤ FRAME_ROOM }
    requires room { length prefix.now + overhead_of binding.now.suite + length field.now ≤ length out.old }
    ensures place { result ≡ length prefix.now + overhead_of binding.now.suite + length field.now }
    ensures written { let front = prefix_for binding.now.link.layout prefix.now count in
        take result out.new ≡ front ++ room_for binding.now vector front field.now }
    ensures rest { drop result out.new ≡ drop result out.old }
{
    let layout = &binding.link.layout;
    let room_start = put_prefix(out, layout, prefix, count);
    mask_in_place(&mut out[..room_start], binding.link.mask.as_slice());
    let room_end = put_room(out, room_start, binding, vector, field);
    put_prefix(out, layout, prefix, count);
    room_end
}

/// The vector of the suite that carries a number.
fn vector_for(suite: Suite, device: [u8; 4], number: u64) -> Vector
    requires { suite ≡ Suite.Cmac → number < 2 ^ 32 }
    ensures vector { result ≡ vector_for suite device number }
    ensures kind { IsVectorOf suite result }
{
    match suite {
        Suite::Cmac => Vector::Sequence(number as u32),
        Suite::Gcm => Vector::Wide { device, number },
    }
}

/// The body of a clear frame, and how long its parts are.
fn clear_body<'a>(binding: &Binding, clear: &'a [u8]) -> Body<'a>
    requires binding { IsBinding binding.now }
    requires fits { clear_fault binding.now clear.now ≡ None }
    ensures body { IsBody (clear_layout binding.now.suite binding.now.link.layout) clear.now result }
    ensures least { 5 ≤ length result.prefix.now }
    ensures most { length result.prefix.now ≤ 70 }
    ensures whole { length clear.now ≡ length result.prefix.now + length result.room.now
        + length (unwrap_or (option_copied result.ocf) []) }
    ensures gain { length clear.now + gain_of binding.now.suite binding.now.link.layout
        ≤ most_of binding.now.link.layout }
    ensures short { most_of binding.now.link.layout ≤ FRAME_ROOM }
{
    body_of(clear, &clear_layout(binding.suite, &binding.link.layout))
}

/// Protects a clear frame under a number of the key: writes the protected frame into the front of `out`, and answers
/// the frame's octets. In a TC frame the length field becomes that of the protected frame. The operational control
/// field is carried over. What `out` has behind the frame stays.
pub fn shield(binding: &Binding, number: u64, clear: &[u8], out: &mut [u8]) -> usize
    requires binding { IsBinding binding.now }
    requires fits { clear_fault binding.now clear.now ≡ None }
    requires number { (1 ≤ number) × (number < end_of binding.now.key) }
    requires room { FRAME_ROOM ≤ length out.old }
    ensures count { result ≡ length clear.now + gain_of binding.now.suite binding.now.link.layout }
    ensures protected { Protects binding.now number clear.now (take result out.new) }
    ensures rest { drop result out.new ≡ drop result out.old }
{
    let layout = &binding.link.layout;
    let body = clear_body(binding, clear);
    let count = clear.len() + gain_of(binding.suite, layout);
    let vector = vector_for(binding.suite, binding.device, number);
    let room_end = put_secured(out, binding, vector, body.prefix, body.room, count);
    let body_end = put_optional(out, room_end, body.ocf);
    put_fecf(out, body_end, layout.has_fecf())
}

/// The octets of a frame of any kind before its frame error control field.
#[derive(Clone, Copy)]
pub struct Body<'a> {
    /// What stands before the security header.
    pub prefix: &'a [u8],
    /// What stands after the prefix, and before the operational control field.
    pub room: &'a [u8],
    /// Operational control field, 4 octets.
    pub ocf: Option<&'a [u8]>,
}

fn tc_body<'a>(frame: &'a [u8], layout: &TcLayout) -> Body<'a>
    requires { first_fault (AnyLayout.Tc layout.now) frame.now ≡ None }
    ensures { IsBody (AnyLayout.Tc layout.now) frame.now result }
{
    let parts = tc_frame::take_apart(frame, layout);
    Body {
        prefix: parts.prefix,
        room: parts.room,
        ocf: None,
    }
}

fn tm_body<'a>(frame: &'a [u8], layout: &TmLayout) -> Body<'a>
    requires layout { IsLayout (AnyLayout.Tm layout.now) }
    requires faultless { first_fault (AnyLayout.Tm layout.now) frame.now ≡ None }
    ensures { IsBody (AnyLayout.Tm layout.now) frame.now result }
{
    let parts = tm_frame::take_apart(frame, layout);
    Body {
        prefix: parts.prefix,
        room: parts.room,
        ocf: parts.ocf,
    }
}

fn aos_body<'a>(frame: &'a [u8], layout: &AosLayout) -> Body<'a>
    requires layout { IsLayout (AnyLayout.Aos layout.now) }
    requires faultless { first_fault (AnyLayout.Aos layout.now) frame.now ≡ None }
    ensures { IsBody (AnyLayout.Aos layout.now) frame.now result }
{
    let parts = aos_frame::take_apart(frame, layout);
    Body {
        prefix: parts.prefix,
        room: parts.room,
        ocf: parts.ocf,
    }
}

/// The first check of a frame of the layout that fails. None where the octets are such a frame.
pub fn fault_of(frame: &[u8], layout: &AnyLayout) -> Option<FrameFault>
    requires { IsLayout layout.now }
    ensures { result ≡ first_fault layout.now frame.now }
{
    match layout {
        AnyLayout::Tc(layout) => tc_frame::fault_of(frame, layout),
        AnyLayout::Tm(layout) => tm_frame::fault_of(frame, layout),
        AnyLayout::Aos(layout) => aos_frame::fault_of(frame, layout),
    }
}

/// Takes a frame of the layout apart of which it is known that no check fails: none is made again.
pub fn body_of<'a>(frame: &'a [u8], layout: &AnyLayout) -> Body<'a>
    requires layout { IsLayout layout.now }
    requires faultless { first_fault layout.now frame.now ≡ None }
    ensures { IsBody layout.now frame.now result }
{
    match layout {
        AnyLayout::Tc(layout) => tc_body(frame, layout),
        AnyLayout::Tm(layout) => tm_body(frame, layout),
        AnyLayout::Aos(layout) => aos_body(frame, layout),
    }
}

/// The MAC over one text followed by another.
fn mac_over(key: &Schedule, covered: &[u8], field: &[u8]) -> [u8; 16]
    ensures { result ≡ mac key.now (covered.now ++ field.now) }
{
    let mut running = Running::new(key);
    running.update(covered);
    running.update(field);
    running.finish()
}

/// The number that a vector carries.
pub fn number_of(vector: Vector) -> u64
    ensures { result ≡ number_of vector }
{
    match vector {
        Vector::Sequence(number) => u64::from(number),
        Vector::Wide { number, .. } => number,
    }
}

/// Makes the text of a data field where it lies, from `start` on, and gives its MAC, which covers what stands before
/// it.
pub fn seal(key: &Schedule, vector: Vector, octets: &mut [u8], start: usize) -> [u8; 16]
    requires start { start ≤ length octets.old }
    requires most { length octets.old ≤ 65536 }
    ensures covered { take start octets.new ≡ take start octets.old }
    ensures text { (drop start octets.new, result)
        ≡ sealed key.now vector (take start octets.old) (drop start octets.old) }
{
    match vector {
        Vector::Sequence(_) => mac(key, octets),
        Vector::Wide { device, number } => {
            let (covered, text) = octets.split_at_mut(start);
            seal_in_place(key, &wide_octets(device, number), covered, text)
        }
    }
}

/// Makes the data field of a text where it lies, if `mac` is the right one, and says whether it is.
pub fn open(key: &Schedule, vector: Vector, covered: &[u8], text: &mut [u8], mac: &[u8; 16]) -> bool
    requires covered { length covered.now ≤ 65536 }
    requires text { length text.old ≤ 65536 }
    ensures opened { OnTrue result (sealed key.now vector covered.now text.new ≡ (text.old, mac.now)) }
    ensures refused { OnFalse result ((field : List ℕ)
        → ¬ (sealed key.now vector covered.now field ≡ (text.old, mac.now))) }
    ensures unchanged { OnFalse result (text.new ≡ text.old) }
{
    match vector {
        Vector::Sequence(_) => same_octets(&mac_over(key, covered, text), mac),
        Vector::Wide { device, number } => {
            opens_what_was_sealed();
            match open_in_place(key, &wide_octets(device, number), covered, text, mac) {
                Ok(()) => true,
                Err(BadTag) => false,
            }
        }
    }
}

/// The most octets: a primary header of 6, an insert zone of 64 and a security header of 14.
const MOST: usize = 84;

/// What a MAC covers before the data field: the masked prefix, then the security header.
#[derive(Drop)]
pub struct Covered {
    octets: [u8; MOST],
    used: usize,
}

impl Model for Covered {
    ghost use Rattle.std.specs.Prelude.{◌≤◌, List, ℕ, take};

    ghost Value = { List ℕ };

    ghost view = { λ covered. take covered.used covered.octets };

    ghost invariant = { λ covered. covered.used ≤ 84 };
}

/// Writes the prefix under the mask into the front of `out`.
fn put_masked(out: &mut [u8], prefix: &[u8], mask: &[u8])
    requires { length prefix.now ≤ length out.old }
    ensures { out.new ≡ masked_octets prefix.now mask.now ++ drop (length prefix.now) out.old }
{
    masked(prefix, mask, &mut out[..prefix.len()]);
}

impl Covered {
    /// The covered text of a frame with this prefix, of at most 70 octets, and a security header of these octets, at
    /// most 14.
    pub fn new(prefix: &[u8], mask: &[u8], header: &[u8]) -> Covered
        requires prefix { length prefix.now ≤ 70 }
        requires header { length header.now ≤ 14 }
        ensures { result ≡ authenticated mask.now prefix.now header.now }
    {
        let mut octets = [0; MOST];
        put_masked(&mut octets, prefix, mask);
        let used = put(&mut octets, prefix.len(), header);
        Covered { octets, used }
    }

    pub fn as_slice(&self) -> &[u8]
        ensures text { result.now ≡ self.now }
        ensures most { length result.now ≤ 84 }
    {
        &self.octets[..self.used]
    }
}
