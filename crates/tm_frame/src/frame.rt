//! The primary header at the front of a frame, also of one that is not whole.
ghost use Rattle.std.specs.Prelude.{◌≡◌, ◌≤◌, length, nat_lt, ◌+◌, ◌-◌, ◌<◌, [], ◌++◌, take, Some, None, IfOk};
ghost use Rattle.std.specs.Prelude.{IsOkAnd, MatchResult, unwrap_or, ◌^◌, drop};
ghost use Rattle.sdls_base.specs.ControlField.{ocf_length};
ghost use Rattle.sdls_base.specs.ErrorControl.{with_error_control, error_control_length};
ghost use Rattle.sdls_base.specs.Fields.{packed};
ghost use Rattle.tm_frame.specs.Header.{spacecraft_of, virtual_channel_of};
ghost use Rattle.tm_frame.specs.TmFrame.{TmParts, TmFrame, IsLayout, view, prefix_of, FitsLayout, primary_header};
ghost use Rattle.tm_frame.specs.TmFrame.{frame_of};
ghost use Rattle.tm_frame.specs.FirstFault.{first_fault, ocf_flag, status_of, data_length, fails_secondary};
ghost use Rattle.tm_frame.specs.Reading.{parts_in, secondary_length};

use sdls_base::{FrameFault, TmLayout, before_fecf, cut_ocf, fecf_fails, flag, put_frame};

/// The parts of a frame. `prefix` is what `read` found before the room; `write` does not look at it.
#[derive(Clone, Copy, Debug)]
pub struct Parts<'a> {
    /// Spacecraft identifier, 10 bits.
    pub spacecraft: u16,
    /// Virtual channel identifier, 3 bits.
    pub channel: u8,
    /// Master channel frame count.
    pub master_count: u8,
    /// Virtual channel frame count.
    pub channel_count: u8,
    /// Data field status: secondary header flag, synchronization flag, packet order flag, segment length identifier
    /// 2 bits, first header pointer 11 bits.
    pub status: u16,
    /// The secondary header, with its first octet; empty where the status has no flag for it.
    pub secondary: &'a [u8],
    /// The primary header and the secondary header.
    pub prefix: &'a [u8],
    /// The octets after the prefix, and before the operational control field and the frame error control field.
    pub room: &'a [u8],
    /// Operational control field, 4 octets.
    pub ocf: Option<&'a [u8]>,
}

/// The octets of the primary header.
pub(crate) const HEADER: usize = 6;

/// Whether a frame has not the octets of its primary header.
pub fn lacks_header(frame: &[u8]) -> bool
    ensures { result ≡ nat_lt (length frame.now) 6 }
{
    frame.len() < HEADER
}

/// The spacecraft identifier.
pub fn spacecraft_of(frame: &[u8]) -> u16
    requires { 2 ≤ length frame.now }
    ensures { result ≡ spacecraft_of frame.now }
{
    (u16::from_be_bytes([frame[0], frame[1]]) >> 4) & 0x3FF
}

/// The virtual channel identifier.
pub fn virtual_channel_of(frame: &[u8]) -> u8
    requires { 2 ≤ length frame.now }
    ensures { result ≡ virtual_channel_of frame.now }
{
    (frame[1] >> 1) & 7
}

fn status(frame: &[u8]) -> u16
    requires { 6 ≤ length frame.now }
    ensures { result ≡ status_of frame.now }
{
    u16::from_be_bytes([frame[4], frame[5]])
}

/// The octets between the primary header and the fields at the frame's end.
fn octets_of_data(frame: &[u8], layout: &TmLayout) -> usize
    requires { 12 ≤ length frame.now }
    ensures { result ≡ data_length layout.now frame.now }
{
    let fecf = if layout.fecf { 2 } else { 0 };
    let ocf = if flag(frame[1], 0) { 4 } else { 0 };
    frame.len() - fecf - ocf - HEADER
}

fn secondary_fails(frame: &[u8], layout: &TmLayout) -> bool
    requires { 12 ≤ length frame.now }
    ensures { result ≡ fails_secondary layout.now frame.now }
{
    let first = frame[6];
    status(frame) >> 15 == 1
        && (first >> 6 != 0 || octets_of_data(frame, layout) < usize::from(first & 0x3F) + 1)
}

/// The first check of a frame of the layout that fails: `Short`, `Long`, `Version`, `SecondaryHeader`, `Fecf`. None
/// where the octets are such a frame.
pub fn fault_of(frame: &[u8], layout: &TmLayout) -> Option<FrameFault>
    requires { IsLayout layout.now }
    ensures { result ≡ first_fault layout.now frame.now }
{
    let length = usize::from(layout.length);
    if frame.len() < length {
        return Some(FrameFault::Short);
    }
    if frame.len() > length {
        return Some(FrameFault::Long);
    }
    if frame[0] >> 6 != 0 {
        return Some(FrameFault::Version);
    }
    if secondary_fails(frame, layout) {
        return Some(FrameFault::SecondaryHeader);
    }
    if fecf_fails(frame, layout.fecf) {
        return Some(FrameFault::Fecf);
    }
    None
}

fn octets_of_secondary(body: &[u8]) -> usize
    requires { 7 ≤ length body.now }
    ensures { result ≡ secondary_length body.now }
{
    if status(body) >> 15 == 1 {
        usize::from(body[6] & 0x3F) + 1
    } else {
        0
    }
}

fn parts_of(body: &[u8]) -> Parts<'_>
    requires header { 10 ≤ length body.now }
    requires room { 6 + secondary_length body.now ≤ length body.now - ocf_length (ocf_flag body.now) }
    ensures parts { view result ≡ parts_in body.now }
    ensures prefix { result.prefix.now ≡ take (6 + secondary_length body.now) body.now }
{
    let start = HEADER + octets_of_secondary(body);
    let (front, ocf) = cut_ocf(body, flag(body[1], 0));
    Parts {
        spacecraft: spacecraft_of(body),
        channel: virtual_channel_of(body),
        master_count: body[2],
        channel_count: body[3],
        status: status(body),
        secondary: &body[HEADER..start],
        prefix: &body[..start],
        room: &front[start..],
        ocf,
    }
}

/// Takes a frame of the layout apart of which it is known that no check fails: none is made again.
pub fn take_apart<'a>(frame: &'a [u8], layout: &TmLayout) -> Parts<'a>
    requires layout { IsLayout layout.now }
    requires faultless { first_fault layout.now frame.now ≡ None }
    ensures found { TmFrame layout.now (view result) frame.now }
    ensures prefix { result.prefix.now ≡ prefix_of (view result) }
    ensures whole { frame.now ≡ with_error_control layout.now.fecf
        (result.prefix.now ++ result.room.now ++ unwrap_or (view result).ocf []) }
{
    parts_of(before_fecf(frame, layout.fecf))
}

/// Takes a frame of the layout apart, or names the first check that fails: `Short`, `Long`, `Version`,
/// `SecondaryHeader`, `Fecf`.
pub fn read<'a>(frame: &'a [u8], layout: &TmLayout) -> Result<Parts<'a>, FrameFault>
    requires { IsLayout layout.now }
    // What is read is a frame with these parts, octet for octet.
    ensures found { IfOk result (λ parts. TmFrame layout.now (view parts) frame.now) }
    ensures prefix { IfOk result (λ parts. parts.prefix.now ≡ prefix_of (view parts)) }
    ensures whole { IfOk result (λ parts. frame.now ≡ with_error_control layout.now.fecf
        (parts.prefix.now ++ parts.room.now ++ unwrap_or (view parts).ocf [])) }

    // What is a frame is read, and has no other parts.
    ensures only { (parts : TmParts) → TmFrame layout.now parts frame.now
        → IsOkAnd result (λ found. view found ≡ parts) }

    // The fault is the first check that fails; there is none where parts are read.
    ensures fault { MatchResult result (λ _. first_fault layout.now frame.now ≡ None)
        (λ fault. first_fault layout.now frame.now ≡ Some fault) }
{
    match fault_of(frame, layout) {
        Some(fault) => Err(fault),
        None => Ok(take_apart(frame, layout)),
    }
}

fn header_of(parts: &Parts<'_>) -> [u8; 6]
    requires spacecraft { parts.now.spacecraft < 2 ^ 10 }
    requires channel { parts.now.channel < 2 ^ 3 }
    requires master_count { parts.now.master_count < 2 ^ 8 }
    requires channel_count { parts.now.channel_count < 2 ^ 8 }
    requires status { parts.now.status < 2 ^ 16 }
    ensures { result ≡ packed (primary_header (view parts.now)) }
{
    let low = (u16::from(parts.channel) << 1) | u16::from(parts.ocf.is_some());
    let [first, second] = ((parts.spacecraft << 4) | low).to_be_bytes();
    let [fifth, sixth] = parts.status.to_be_bytes();
    [
        first,
        second,
        parts.master_count,
        parts.channel_count,
        fifth,
        sixth,
    ]
}

/// Writes the frame of the layout with these parts into the front of `out`, with its frame error control field, and
/// answers the frame's octets. `parts.prefix` is not looked at.
pub fn write(parts: &Parts<'_>, layout: &TmLayout, out: &mut [u8]) -> usize
    requires layout { IsLayout layout.now }
    requires fits { FitsLayout layout.now (view parts.now) }
    requires room { layout.now.length ≤ length out.old }
    ensures count { result ≡ layout.now.length }
    ensures written { out.new ≡ frame_of layout.now (view parts.now) ++ drop result out.old }
{
    put_frame(
        out,
        &header_of(parts),
        parts.secondary,
        parts.room,
        parts.ocf,
        layout.fecf,
    )
}
