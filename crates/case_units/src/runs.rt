//! Recorded inputs of runs, and the answers that runs wrote.
use case_lines::{Page, number_in};
use std::alloc::{AllocError, Global};

/// What an input begins with.
pub const BEGINNING: &[u8] = b"SDLSREC1";

/// A fence.
pub const FENCE: &[u8] = &[0; 6];

/// A recorded telecommand frame of link 0 with an empty data field, on lane 0: the header of the record, then six
/// octets.
pub const TELECOMMAND: &[u8] = b"\x01\x00\x00\x00\x00\x06\x00\x2a\x14\x05\x09\xc3";

/// The pieces, one behind the other.
pub fn joined(alloc: Global, pieces: &[&[u8]]) -> Result<Vec<u8>, AllocError> {
    let mut octets = Vec::new(alloc);
    for piece in pieces {
        octets.extend_from_slice(piece)?;
    }
    Ok(octets)
}

/// Appends a record of this kind.
pub fn push_record(
    input: &mut Vec<u8>,
    kind: u8,
    lane: u8,
    link: u8,
    octets: &[u8],
) -> Result<(), AllocError> {
    let [high, low] = ((octets.len() % 65_536) as u16).to_be_bytes();
    input.extend_from_slice(&[kind, lane, link, 0, high, low])?;
    input.extend_from_slice(octets)
}

/// Appends this record, moved to this lane.
pub fn push_on_lane(input: &mut Vec<u8>, record: &[u8], lane: u8) -> Result<(), AllocError> {
    let at = input.len() + 1;
    input.extend_from_slice(record)?;
    if let Some(octet) = input.get_mut(at) {
        *octet = lane;
    }
    Ok(())
}

/// Appends a recorded telecommand frame on this lane.
pub fn push_frame(input: &mut Vec<u8>, lane: u8) -> Result<(), AllocError> {
    push_on_lane(input, TELECOMMAND, lane)
}

/// The octets of an answer before its body.
const HEADER: usize = 24;

/// An answer whose header was written: where it begins and where it ends, and the fields of its header. Its position
/// depends on the schedule of lanes.
#[derive(Clone, Copy)]
pub struct Answer {
    pub at: usize,
    pub to: usize,
    pub code: u8,
    pub detail: u8,
    pub key: u64,
    pub position: u64,
    pub number: u64,
}

impl Answer {
    /// The answer with this header, at this place.
    fn new(at: usize, header: &[u8]) -> Answer {
        let length = number_in(header, 4, 8) as usize;
        Answer {
            at,
            to: at.saturating_add(HEADER).saturating_add(length),
            code: header.first().copied().unwrap_or(0),
            detail: header.get(1).copied().unwrap_or(0),
            key: number_in(header, 2, 4),
            position: number_in(header, 8, 16),
            number: number_in(header, 16, 24),
        }
    }

    /// Where the body begins.
    pub fn from(&self) -> usize {
        self.at.saturating_add(HEADER)
    }

    /// The body, if it was written to its end.
    pub fn body<'a>(&self, sunk: &'a [u8]) -> Option<&'a [u8]> {
        sunk.get(self.from()..self.to)
    }

    /// The same of an answer with this code, none of another one.
    pub fn body_of<'a>(&self, code: u8, sunk: &'a [u8]) -> Option<&'a [u8]> {
        if self.code == code {
            self.body(sunk)
        } else {
            None
        }
    }

    /// Whether both have one number of a key.
    pub fn has_number_of(&self, other: &Answer) -> bool {
        self.key == other.key && self.number == other.number
    }
}

/// Adds the answers that a run wrote.
pub fn push_answers(sunk: &[u8], answers: &mut Vec<Answer>, page: &mut Page) {
    let mut at = 0usize;
    for _ in 0..sunk.len() {
        let Some(header) = sunk.get(at..at.saturating_add(HEADER)) else {
            break;
        };
        let answer = Answer::new(at, header);
        at = answer.to;
        page.check(answers.push(answer));
    }
}
