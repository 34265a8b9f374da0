//! The headers at the front of a frame, also of one that is not whole.
ghost use Rattle.std.specs.Prelude.{◌≡◌, ◌+◌, ◌≤◌, ◌<◌, length, take, drop, nat_lt, ◌++◌, Bool, if◌then◌else◌, Some};
ghost use Rattle.std.specs.Prelude.{None, IfOk, IsOkAnd, MatchResult, slice_index, ◌^◌};
ghost use Rattle.std.specs.Option.{option_to_list};
ghost use Rattle.sdls_base.specs.ErrorControl.{with_error_control};
ghost use Rattle.sdls_base.specs.Fields.{packed};
ghost use Rattle.tc_frame.specs.FirstFault.{control_of, first_fault, segment_length, least};
ghost use Rattle.tc_frame.specs.Header.{header_length, spacecraft_of, virtual_channel_of, map_of, with_length_field};
ghost use Rattle.tc_frame.specs.TcFrame.{has_segment, TcParts, TcFrame, view, prefix_of, FitsLayout, primary_header};
ghost use Rattle.tc_frame.specs.TcFrame.{frame_length, frame_of};
ghost use Rattle.tc_frame.specs.Reading.{parts_in};

use sdls_base::{FrameFault, TcLayout, before_fecf, fecf_fails, flag, put, put_fecf};

/// The parts of a frame. `prefix` is what `read` found before the room; `write` does not look at it.
#[derive(Clone, Copy, Debug)]
pub struct Parts<'a> {
    pub bypass: bool,
    /// Control command flag: the frame carries no segment header and is not protected.
    pub control: bool,
    /// Spacecraft identifier, 10 bits.
    pub spacecraft: u16,
    /// Virtual channel identifier, 6 bits.
    pub channel: u8,
    /// Frame sequence number.
    pub sequence: u8,
    /// Segment header: sequence flags 2 bits, MAP identifier 6 bits.
    pub segment: Option<u8>,
    /// The primary header and the segment header.
    pub prefix: &'a [u8],
    /// The octets after the prefix, and before the frame error control field.
    pub room: &'a [u8],
}

/// The octets of the primary header.
pub(crate) const HEADER: usize = 5;

/// Whether the frame is a control command.
pub fn is_control(frame: &[u8]) -> bool
    requires { 0 < length frame.now }
    ensures { result ≡ control_of frame.now }
{
    flag(frame[0], 4)
}

/// Whether a frame that begins so has a segment header.
pub(crate) fn segmented(frame: &[u8], layout: &TcLayout) -> bool
    requires { 0 < length frame.now }
    ensures { result ≡ has_segment layout.now (control_of frame.now) }
{
    layout.segment && !is_control(frame)
}

/// Whether a frame has not the octets of its primary header, and of its segment header where it should have one.
pub fn lacks_header(frame: &[u8], layout: &TcLayout) -> bool
    ensures { result ≡ nat_lt (length frame.now) (header_length layout.now frame.now) }
{
    frame.len() < HEADER || (segmented(frame, layout) && frame.len() < HEADER + 1)
}

/// The spacecraft identifier.
pub fn spacecraft_of(frame: &[u8]) -> u16
    requires { 2 ≤ length frame.now }
    ensures { result ≡ spacecraft_of frame.now }
{
    u16::from_be_bytes([frame[0], frame[1]]) & 0x3FF
}

/// The virtual channel identifier.
pub fn virtual_channel_of(frame: &[u8]) -> u8
    requires { 3 ≤ length frame.now }
    ensures { result ≡ virtual_channel_of frame.now }
{
    frame[2] >> 2
}

/// The MAP identifier, where the frame has a segment header.
pub fn map_of(frame: &[u8], layout: &TcLayout) -> Option<u8>
    requires { header_length layout.now frame.now ≤ length frame.now }
    ensures { result ≡ map_of layout.now frame.now }
{
    if segmented(frame, layout) {
        Some(frame[HEADER] & 0x3F)
    } else {
        None
    }
}

/// Writes a prefix into the front of `out`, with the length field of a frame of `count` octets, and answers the place
/// after it.
pub fn put_prefix(out: &mut [u8], prefix: &[u8], count: usize) -> usize
    requires prefix { 5 ≤ length prefix.now }
    requires count { (1 ≤ count) × (count ≤ 1024) }
    requires room { length prefix.now ≤ length out.old }
    ensures place { result ≡ length prefix.now }
    ensures written { take result out.new ≡ with_length_field prefix.now count }
    ensures rest { drop result out.new ≡ drop result out.old }
{
    let [high, low] = ((count - 1) as u16).to_be_bytes();
    let header = [
        prefix[0],
        prefix[1],
        (prefix[2] & 0xFC) + high,
        low,
        prefix[4],
    ];
    let header_end = put(out, 0, &header);
    put(out, header_end, &prefix[HEADER..])
}

/// The octets that the frame needs at least.
fn least_length(frame: &[u8], layout: &TcLayout) -> usize
    requires { 0 < length frame.now }
    ensures { result ≡ least layout.now frame.now }
{
    let header = if segmented(frame, layout) {
        HEADER + 1
    } else {
        HEADER
    };
    if layout.fecf { header + 2 } else { header }
}

/// The first check of a frame of the layout that fails: `Short`, `Long`, `LengthField`, `Version`, `Spare`, `Fecf`.
/// None where the octets are such a frame.
pub fn fault_of(frame: &[u8], layout: &TcLayout) -> Option<FrameFault>
    ensures { result ≡ first_fault layout.now frame.now }
{
    if frame.len() < HEADER || frame.len() < least_length(frame, layout) {
        return Some(FrameFault::Short);
    }
    if frame.len() > usize::from(layout.most) {
        return Some(FrameFault::Long);
    }
    let length_field = u16::from_be_bytes([frame[2], frame[3]]) & 0x3FF;
    if usize::from(length_field) != frame.len() - 1 {
        return Some(FrameFault::LengthField);
    }
    if frame[0] >> 6 != 0 {
        return Some(FrameFault::Version);
    }
    if (frame[0] >> 2) & 3 != 0 {
        return Some(FrameFault::Spare);
    }
    if fecf_fails(frame, layout.fecf) {
        return Some(FrameFault::Fecf);
    }
    None
}

/// The octets of the prefix, and the segment header where the frame has one.
fn cut_segment(body: &[u8], has_segment: bool) -> (usize, Option<u8>)
    requires { 5 + (if has_segment then 1 else 0) ≤ length body.now }
    ensures start { result.0 ≡ 5 + (if has_segment then 1 else 0) }
    ensures segment { result.1 ≡ (if has_segment then Some (slice_index body.now 5) else None) }
{
    if has_segment {
        (HEADER + 1, Some(body[HEADER]))
    } else {
        (HEADER, None)
    }
}

fn parts_of<'a>(body: &'a [u8], layout: &TcLayout) -> Parts<'a>
    requires { 5 + segment_length layout.now body.now ≤ length body.now }
    ensures parts { view result ≡ parts_in layout.now body.now }
    ensures prefix { result.prefix.now ≡ take (5 + segment_length layout.now body.now) body.now }
{
    let (start, segment) = cut_segment(body, segmented(body, layout));
    Parts {
        bypass: flag(body[0], 5),
        control: is_control(body),
        spacecraft: spacecraft_of(body),
        channel: virtual_channel_of(body),
        sequence: body[4],
        segment,
        prefix: &body[..start],
        room: &body[start..],
    }
}

/// Takes a frame of the layout apart of which it is known that no check fails: none is made again.
pub fn take_apart<'a>(frame: &'a [u8], layout: &TcLayout) -> Parts<'a>
    requires faultless { first_fault layout.now frame.now ≡ None }
    ensures found { TcFrame layout.now (view result) frame.now }
    ensures prefix { result.prefix.now ≡ prefix_of layout.now (view result) }
    ensures whole { frame.now ≡ with_error_control layout.now.fecf (result.prefix.now ++ result.room.now) }
{
    parts_of(before_fecf(frame, layout.fecf), layout)
}

/// Takes a frame of the layout apart, or names the first check that fails: `Short`, `Long`, `LengthField`, `Version`,
/// `Spare`, `Fecf`.
pub fn read<'a>(frame: &'a [u8], layout: &TcLayout) -> Result<Parts<'a>, FrameFault>
    // What is read is a frame with these parts, octet for octet.
    ensures found { IfOk result (λ parts. TcFrame layout.now (view parts) frame.now) }
    ensures prefix { IfOk result (λ parts. parts.prefix.now ≡ prefix_of layout.now (view parts)) }
    ensures whole { IfOk result (λ parts. frame.now
        ≡ with_error_control layout.now.fecf (parts.prefix.now ++ parts.room.now)) }

    // What is a frame is read, and has no other parts.
    ensures only { (parts : TcParts) → TcFrame layout.now parts frame.now
        → IsOkAnd result (λ found. view found ≡ parts) }

    // The fault is the first check that fails; there is none where parts are read.
    ensures fault { MatchResult result (λ _. first_fault layout.now frame.now ≡ None)
        (λ fault. first_fault layout.now frame.now ≡ Some fault) }
{
    match fault_of(frame, layout) {
        Some(fault) => Err(fault),
        None => Ok(take_apart(frame, layout)),
    }
}

fn header_of(parts: &Parts<'_>, length: u16) -> [u8; 5]
    requires spacecraft { parts.now.spacecraft < 2 ^ 10 }
    requires channel { parts.now.channel < 2 ^ 6 }
    requires sequence { parts.now.sequence < 2 ^ 8 }
    requires least { 1 ≤ length }
    requires most { length ≤ 2 ^ 10 }
    ensures { result ≡ packed (primary_header (view parts.now) length) }
{
    let flags = (u16::from(parts.bypass) << 13) | (u16::from(parts.control) << 12);
    let [first, second] = (flags | parts.spacecraft).to_be_bytes();
    let [third, fourth] = ((u16::from(parts.channel) << 10) | (length - 1)).to_be_bytes();
    [first, second, third, fourth, parts.sequence]
}

fn put_segment(out: &mut [u8], at: usize, segment: Option<u8>) -> usize
    requires { at + length (option_to_list segment) ≤ length out.old }
    ensures place { result ≡ at + length (option_to_list segment) }
    ensures written { take result out.new ≡ take at out.old ++ option_to_list segment }
    ensures rest { drop result out.new ≡ drop result out.old }
{
    match segment {
        Some(octet) => put(out, at, &[octet]),
        None => at,
    }
}

fn length_of(parts: &Parts<'_>, layout: &TcLayout) -> u16
    requires { frame_length layout.now (view parts.now) ≤ 2 ^ 10 }
    ensures { result ≡ frame_length layout.now (view parts.now) }
{
    let segment = if parts.segment.is_some() { 1 } else { 0 };
    let fecf = if layout.fecf { 2 } else { 0 };
    (5 + segment + parts.room.len() + fecf) as u16
}

/// Writes the frame of the layout with these parts into the front of `out`, with its length field and its frame error
/// control field, and answers the frame's octets. `parts.prefix` is not looked at.
pub fn write(parts: &Parts<'_>, layout: &TcLayout, out: &mut [u8]) -> usize
    requires fits { FitsLayout layout.now (view parts.now) }
    requires room { frame_length layout.now (view parts.now) ≤ length out.old }
    ensures count { result ≡ frame_length layout.now (view parts.now) }
    ensures written { out.new ≡ frame_of layout.now (view parts.now) ++ drop result out.old }
{
    let length = length_of(parts, layout);
    let header_end = put(out, 0, &header_of(parts, length));
    let room_start = put_segment(out, header_end, parts.segment);
    let room_end = put(out, room_start, parts.room);
    put_fecf(out, room_end, layout.fecf)
}
