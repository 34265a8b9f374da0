//! Messages, read and written back.
use case_lines::{Page, cut, set_octets};
use ep_codec::{PduError, read_pdu, read_reply, write_pdu, write_reply};
use sdls_base::{NoMemory, Octets};
use std::alloc::Global;
use std::fmt::Debug;

/// Writes a message that was read, and whether its octets are written again.
fn write_message<M: Debug>(
    message: &M,
    again: Result<Octets, NoMemory>,
    octets: &[u8],
    page: &mut Page,
) {
    match again {
        Ok(again) => {
            let is_same = again.as_slice() == octets;
            write!(page, "{message:?}, written again: {is_same}");
        }
        Err(NoMemory) => page.spoil(),
    }
}

/// Writes what is read of a command, and whether its octets are written again, or the first fault.
fn read_command(octets: &[u8], page: &mut Page) {
    match read_pdu(page.alloc(), octets) {
        Ok(command) => {
            let again = write_pdu(page.alloc(), &command);
            write_message(&command, again, octets, page);
        }
        Err(error) => write!(page, "{error}"),
    }
}

/// The same of a reply.
fn read_again(octets: &[u8], page: &mut Page) {
    match read_reply(page.alloc(), octets) {
        Ok(reply) => {
            let again = write_reply(page.alloc(), &reply);
            write_message(&reply, again, octets, page);
        }
        Err(error) => write!(page, "{error}"),
    }
}

/// The octet of the first fault of what was read, none where there is none.
fn fault_of<M: Drop>(read: Result<M, PduError>) -> Option<u32> {
    match read {
        Err(PduError::Fault(at)) => Some(at),
        _ => None,
    }
}

/// Writes at how many octets a cut of the command is reported to be its first fault.
fn count_cuts(octets: &[u8], page: &mut Page) {
    let mut reported: u32 = 0;
    for end in 0..octets.len() {
        let fault = fault_of(read_pdu(page.alloc(), &octets[..end]));
        if fault.is_some_and(|at| at as usize == end) {
            reported = reported.saturating_add(1);
        }
    }
    write!(page, "{reported}");
}

/// Whether messages of this tag may have so many octets of data, which are all of the room behind the header.
fn is_allowed(alloc: Global, tag: u8, length: u16, room: &mut [u8]) -> bool {
    let [high, low] = length.wrapping_mul(8).to_be_bytes();
    let Some(message) = room.get_mut(..usize::from(length) + 3) else {
        return false;
    };
    set_octets(message, 0, &[tag, high, low]);
    let fault = if tag < 0x80 {
        fault_of(read_pdu(alloc, message))
    } else {
        fault_of(read_reply(alloc, message))
    };
    fault != Some(1)
}

/// Writes the lengths up to a greatest one that messages of a tag may have, all of whose data are the room's.
fn write_lengths(tag: u8, greatest: u16, room: &mut [u8], page: &mut Page) {
    page.push_str("lengths");
    for length in 0..=greatest {
        if is_allowed(page.alloc(), tag, length, room) {
            write!(page, " {length}");
        }
    }
}

/// Writes the lengths up to a greatest one that messages of a tag may have whose data are octets of 1: `TAG GREATEST`,
/// the tag in hexadecimal.
fn answer_lengths(text: &str, page: &mut Page) {
    let (tag, greatest) = cut(text);
    let tag = u8::from_str_radix(tag, 16).unwrap_or(0);
    let greatest: u16 = greatest.parse().unwrap_or(0);
    match vec![in page.alloc(); 1; usize::from(greatest) + 3] {
        Ok(mut room) => write_lengths(tag, greatest, room.as_mut_slice(), page),
        Err(_) => page.spoil(),
    }
}

/// Writes what a step on messages answers: `command`, `reply`, `cuts`, or `lengths`.
pub fn answer(word: &str, text: &str, page: &mut Page) {
    match word {
        "command" => read_command(&page.octets_at(text, 0), page),
        "reply" => read_again(&page.octets_at(text, 0), page),
        "cuts" => count_cuts(&page.octets_at(text, 0), page),
        _ => answer_lengths(text, page),
    }
}
