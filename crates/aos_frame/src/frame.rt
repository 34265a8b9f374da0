//! The primary header at the front of a frame, also of one that is not whole.
ghost use Rattle.std.specs.Prelude.{◌≡◌, ◌≤◌, length, nat_lt, ◌+◌, [], ◌++◌, take, Some, None, IfOk, IsOkAnd};
ghost use Rattle.std.specs.Prelude.{MatchResult, unwrap_or, option_copied, ◌^◌, ◌<◌, drop};
ghost use Rattle.sdls_base.specs.ErrorControl.{with_error_control};
ghost use Rattle.sdls_base.specs.Fields.{packed};
ghost use Rattle.aos_frame.specs.Header.{spacecraft_of, virtual_channel_of, is_idle};
ghost use Rattle.aos_frame.specs.AosFrame.{AosParts, AosFrame, IsLayout, view, prefix_of, FitsLayout, primary_header};
ghost use Rattle.aos_frame.specs.AosFrame.{frame_of};
ghost use Rattle.aos_frame.specs.FirstFault.{first_fault};
ghost use Rattle.aos_frame.specs.Reading.{parts_in};

use sdls_base::{AosLayout, FrameFault, before_fecf, cut_ocf, fecf_fails, flag, put_frame};

/// The parts of a frame. `prefix` is what `read` found before the room; `write` does not look at it.
#[derive(Clone, Copy, Debug)]
pub struct Parts<'a> {
    /// Spacecraft identifier, 8 bits.
    pub spacecraft: u8,
    /// Virtual channel identifier, 6 bits.
    pub channel: u8,
    /// Virtual channel frame count, 24 bits.
    pub count: u32,
    pub replay: bool,
    /// Virtual channel frame count usage flag.
    pub cycle_use: bool,
    /// Virtual channel frame count cycle, 4 bits.
    pub cycle: u8,
    pub insert: &'a [u8],
    /// The primary header and the insert zone.
    pub prefix: &'a [u8],
    /// The octets after the prefix, and before the operational control field and the frame error control field.
    pub room: &'a [u8],
    /// Operational control field, 4 octets.
    pub ocf: Option<&'a [u8]>,
}

/// The octets of the primary header.
pub(crate) const HEADER: usize = 6;

/// The virtual channel of idle frames.
const IDLE: u8 = 63;

/// Whether a frame has not the octets of its primary header.
pub fn lacks_header(frame: &[u8]) -> bool
    ensures { result ≡ nat_lt (length frame.now) 6 }
{
    frame.len() < HEADER
}

/// The spacecraft identifier.
pub fn spacecraft_of(frame: &[u8]) -> u8
    requires { 2 ≤ length frame.now }
    ensures { result ≡ spacecraft_of frame.now }
{
    ((u16::from_be_bytes([frame[0], frame[1]]) >> 6) & 0xFF) as u8
}

/// The virtual channel identifier.
pub fn virtual_channel_of(frame: &[u8]) -> u8
    requires { 2 ≤ length frame.now }
    ensures { result ≡ virtual_channel_of frame.now }
{
    frame[1] & 0x3F
}

/// Whether the frame is idle: it carries no data.
pub fn is_idle(frame: &[u8]) -> bool
    requires { 2 ≤ length frame.now }
    ensures { result ≡ is_idle frame.now }
{
    virtual_channel_of(frame) == IDLE
}

/// The first check of a frame of the layout that fails: `Short`, `Long`, `Version`, `Spare`, `Fecf`. None where the
/// octets are such a frame.
pub fn fault_of(frame: &[u8], layout: &AosLayout) -> Option<FrameFault>
    requires { IsLayout layout.now }
    ensures { result ≡ first_fault layout.now frame.now }
{
    let length = usize::from(layout.length);
    if frame.len() < length {
        return Some(FrameFault::Short);
    }
    if frame.len() > length {
        return Some(FrameFault::Long);
    }
    if frame[0] >> 6 != 1 {
        return Some(FrameFault::Version);
    }
    if (frame[5] >> 4) & 3 != 0 {
        return Some(FrameFault::Spare);
    }
    if fecf_fails(frame, layout.fecf) {
        return Some(FrameFault::Fecf);
    }
    None
}

fn parts_of<'a>(body: &'a [u8], layout: &AosLayout) -> Parts<'a>
    requires { 10 + layout.now.insert ≤ length body.now }
    ensures parts { view result ≡ parts_in layout.now body.now }
    ensures prefix { result.prefix.now ≡ take (6 + layout.now.insert) body.now }
{
    let signals = body[5];
    let start = HEADER + usize::from(layout.insert);
    let (front, ocf) = cut_ocf(body, layout.ocf);
    Parts {
        spacecraft: spacecraft_of(body),
        channel: virtual_channel_of(body),
        count: u32::from_be_bytes([0, body[2], body[3], body[4]]),
        replay: flag(signals, 7),
        cycle_use: flag(signals, 6),
        cycle: signals & 0xF,
        insert: &body[HEADER..start],
        prefix: &body[..start],
        room: &front[start..],
        ocf,
    }
}

/// Takes a frame of the layout apart of which it is known that no check fails: none is made again.
pub fn take_apart<'a>(frame: &'a [u8], layout: &AosLayout) -> Parts<'a>
    requires layout { IsLayout layout.now }
    requires faultless { first_fault layout.now frame.now ≡ None }
    ensures found { AosFrame layout.now (view result) frame.now }
    ensures prefix { result.prefix.now ≡ prefix_of (view result) }
    ensures prefix_length { length result.prefix.now ≡ 6 + layout.now.insert }
    ensures whole { frame.now ≡ with_error_control layout.now.fecf
        (result.prefix.now ++ result.room.now ++ unwrap_or (view result).ocf []) }
{
    parts_of(before_fecf(frame, layout.fecf), layout)
}

/// Takes a frame of the layout apart, or names the first check that fails: `Short`, `Long`, `Version`, `Spare`, `Fecf`.
pub fn read<'a>(frame: &'a [u8], layout: &AosLayout) -> Result<Parts<'a>, FrameFault>
    requires { IsLayout layout.now }
    // What is read is a frame with these parts, octet for octet.
    ensures found { IfOk result (λ parts. AosFrame layout.now (view parts) frame.now) }
    ensures prefix { IfOk result (λ parts. parts.prefix.now ≡ prefix_of (view parts)) }
    ensures prefix_length { IfOk result (λ parts. length parts.prefix.now ≡ 6 + layout.now.insert) }
    ensures whole { IfOk result (λ parts. frame.now ≡ with_error_control layout.now.fecf
        (parts.prefix.now ++ parts.room.now ++ unwrap_or (view parts).ocf [])) }

    // What is a frame is read, and has no other parts.
    ensures only { (parts : AosParts) → AosFrame layout.now parts frame.now
        → IsOkAnd result (λ found. view found ≡ parts) }

    // The fault is the first check that fails; there is none where parts are read.
    ensures fault { MatchResult result (λ _. first_fault layout.now frame.now ≡ None)
        (λ fault. first_fault layout.now frame.now ≡ Some fault) }
{
    match fault_of(frame, layout) {
        Some(fault) => Err(fault),
        None => Ok(take_apart(frame, layout)),
    }
}

fn header_of(parts: &Parts<'_>) -> [u8; 6]
    requires spacecraft { parts.now.spacecraft < 2 ^ 8 }
    requires channel { parts.now.channel < 2 ^ 6 }
    requires count { parts.now.count < 2 ^ 24 }
    requires cycle { parts.now.cycle < 2 ^ 4 }
    ensures { result ≡ packed (primary_header (view parts.now)) }
{
    let first = (1 << 14) | (u16::from(parts.spacecraft) << 6) | u16::from(parts.channel);
    let [version, channel] = first.to_be_bytes();
    let [_, high, middle, low] = parts.count.to_be_bytes();
    let signals = (u8::from(parts.replay) << 7) | (u8::from(parts.cycle_use) << 6) | parts.cycle;
    [version, channel, high, middle, low, signals]
}

/// Writes the frame of the layout with these parts into the front of `out`, with its frame error control field, and
/// answers the frame's octets. `parts.prefix` is not looked at.
pub fn write(parts: &Parts<'_>, layout: &AosLayout, out: &mut [u8]) -> usize
    requires layout { IsLayout layout.now }
    requires fits { FitsLayout layout.now (view parts.now) }
    requires room { layout.now.length ≤ length out.old }
    ensures count { result ≡ layout.now.length }
    ensures written { out.new ≡ frame_of layout.now (view parts.now) ++ drop result out.old }
{
    put_frame(
        out,
        &header_of(parts),
        parts.insert,
        parts.room,
        parts.ocf,
        layout.fecf,
    )
}
