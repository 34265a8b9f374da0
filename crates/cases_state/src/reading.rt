// Frames read, and written again.
ghost use Rattle.std.specs.Prelude.{◌≤◌, ◌+◌, length};

use case_lines::{Digits, Page, Words, short};
use frame_shield::{AnyLayout, FRAME_ROOM};
use sdls_base::{AosLayout, FrameFault, TcLayout, TmLayout};

/// What stands in octets that are not written.
const UNTOUCHED: u8 = 0x55;

/// Whether the front is the frame, and the rest untouched.
fn is_frame(out: &[u8], count: usize, frame: &[u8]) -> bool {
    match out.split_at_checked(count) {
        Some((front, rest)) => front == frame && rest.iter().all(|octet| *octet == UNTOUCHED),
        None => false,
    }
}

/// Writes what stands before the security header, and what stands from there on.
fn write_octets(prefix: &[u8], room: &[u8], page: &mut Page) {
    write!(page, "prefix {} room {}", Digits(prefix), Digits(room));
}

/// Writes the operational control field, `-` if there is none, and whether the frame is written again.
fn write_end(ocf: Option<&[u8]>, again: bool, page: &mut Page) {
    page.push_str(" ocf ");
    match ocf {
        Some(octets) => page.push_digits(octets),
        None => page.push_str("-"),
    }
    write!(page, " again {again}");
}

/// Nothing where the parts of a frame were written, or the first check that fails.
type Checked = Result<(), FrameFault>;

/// Writes the parts of a TC frame and whether it is written again.
fn read_tc(layout: &TcLayout, frame: &[u8], out: &mut [u8], page: &mut Page) -> Checked
    requires { FRAME_ROOM ≤ length out.old }
{
    let parts = tc_frame::read(frame, layout)?;
    let count = tc_frame::write(&parts, layout, out);
    write!(page, "bypass {} control {} ", parts.bypass, parts.control);
    write!(page, "{}/{} ", parts.spacecraft, parts.channel);
    write!(page, "sequence {} ", parts.sequence);
    write!(page, "segment {:?} ", parts.segment);
    write_octets(parts.prefix, parts.room, page);
    write!(page, " again {}", is_frame(out, count, frame));
    Ok(())
}

/// The same of a TM frame.
fn read_tm(layout: &TmLayout, frame: &[u8], out: &mut [u8], page: &mut Page) -> Checked {
    if layout.length < 12 || usize::from(layout.length) > out.len() {
        page.push_str("no layout");
        return Ok(());
    }
    let parts = tm_frame::read(frame, layout)?;
    let count = tm_frame::write(&parts, layout, out);
    write!(page, "{}/{} ", parts.spacecraft, parts.channel);
    let (master, own) = (parts.master_count, parts.channel_count);
    write!(page, "counts {master} {own} status {:04x} ", parts.status);
    write!(page, "secondary {} ", Digits(parts.secondary));
    write_octets(parts.prefix, parts.room, page);
    write_end(parts.ocf, is_frame(out, count, frame), page);
    Ok(())
}

/// The same of an AOS frame.
fn read_aos(layout: &AosLayout, frame: &[u8], out: &mut [u8], page: &mut Page) -> Checked {
    if layout.length < 12 + u16::from(layout.insert) || usize::from(layout.length) > out.len() {
        page.push_str("no layout");
        return Ok(());
    }
    let parts = aos_frame::read(frame, layout)?;
    let count = aos_frame::write(&parts, layout, out);
    write!(page, "{}/{} ", parts.spacecraft, parts.channel);
    write!(page, "count {:06x} replay {} ", parts.count, parts.replay);
    write!(page, "use {} cycle {} ", parts.cycle_use, parts.cycle);
    write!(page, "insert {} ", Digits(parts.insert));
    write_octets(parts.prefix, parts.room, page);
    write_end(parts.ocf, is_frame(out, count, frame), page);
    Ok(())
}

/// Writes the parts of the frame that the words say and whether it is written again, or the first check that fails. Of a
/// TC frame the words say first how many octets it has at most.
pub fn answer(layout: AnyLayout, words: &mut Words<'_>, page: &mut Page) {
    let layout = match layout {
        AnyLayout::Tc(layout) => AnyLayout::Tc(TcLayout {
            most: short(words).unwrap_or(0),
            ..layout
        }),
        layout => layout,
    };
    let frame = page.octets(words);
    let mut out = [UNTOUCHED; FRAME_ROOM];
    let read = match &layout {
        AnyLayout::Tc(layout) => read_tc(layout, &frame, &mut out, page),
        AnyLayout::Tm(layout) => read_tm(layout, &frame, &mut out, page),
        AnyLayout::Aos(layout) => read_aos(layout, &frame, &mut out, page),
    };
    if let Err(fault) = read {
        write!(page, "{fault}");
    }
}
