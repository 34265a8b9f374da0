//! The frames of a drill, by their numbers from 0 on, and the records that the units are handed, chunk by chunk.
ghost use Rattle.std.specs.Prelude.{◌≡◌, ◌+◌, ◌-◌, ◌%◌, ◌<◌, ◌≤◌, ◌^◌, IfOk, length, vec_len};
ghost use Rattle.unit_drill.specs.Frames.{open_task, open_tasks, protect_task, protect_tasks, replay_tasks};
ghost use Rattle.unit_drill.specs.Frames.{clear_frame, data_field, field_octet};

use record_io::code::PROTECTED;
use record_io::{Answer, Record, RecordKind, ShortOctets};
use sdls_base::NoMemory;
use std::alloc::Global;

/// The frames of a chunk; the last one may have fewer.
pub(crate) const CHUNK: u64 = 256;

fn lane_of(number: u64) -> u8
    ensures { result ≡ number % DRILL_LANES }
{
    (number % DRILL_LANES) as u8
}

/// A frame that is to be protected. Its record has the frame's number.
fn protect_task(alloc: Global, number: u64) -> Result<Record, NoMemory>
    ensures { IfOk result (λ task. task ≡ protect_task number) }
{
    Ok(Record {
        index: number,
        kind: RecordKind::Protect,
        lane: lane_of(number),
        link: 0,
        octets: clear_frame(alloc, number)?,
    })
}

/// The frames from one number to before another, to be protected.
#[tactic(auto, using(crate::proofs::MoreTasks::protect_more, crate::proofs::MoreTasks::none_yet))]
pub(crate) fn protect_tasks(alloc: Global, first: u64, end: u64) -> Result<Vec<Record>, NoMemory>
    requires { first ≤ end }
    ensures items { IfOk result (λ tasks. tasks.items ≡ protect_tasks first (end - first)) }
    ensures many { IfOk result (λ tasks. vec_len tasks ≡ end - first) }
{
    let mut tasks = Vec::new(alloc);
    for number in first..end {
        tasks.push(protect_task(alloc, number)?)?;
    }
    Ok(tasks)
}

/// A protected frame that is to be opened, as the record with this index.
pub(crate) fn open_task(index: u64, number: u64, octets: ShortOctets) -> Record
    ensures { result ≡ open_task index number octets }
{
    Record {
        index,
        kind: RecordKind::Open,
        lane: lane_of(number),
        link: 0,
        octets,
    }
}

/// The frames that were protected, of those from a number on with these answers, to be opened. The records of the
/// second unit run ahead of the numbers of the frames by so many.
#[tactic(auto, using(crate::proofs::MoreTasks::open_more, crate::proofs::MoreTasks::open_skips))]
pub(crate) fn open_tasks(
    alloc: Global,
    ahead: u64,
    first: u64,
    answers: &[Answer],
) -> Result<Vec<Record>, NoMemory>
    requires { first + length answers.now + ahead < 2 ^ 63 }
    ensures items { IfOk result (λ tasks. tasks.items ≡ open_tasks ahead first answers.now) }
    ensures few { IfOk result (λ tasks. vec_len tasks ≤ length answers.now) }
{
    let mut tasks = Vec::new(alloc);
    for (place, answer) in answers.iter().enumerate() {
        if answer.code == PROTECTED {
            let number = first + place as u64;
            let octets = answer.body.clone()?;
            tasks.push(open_task(number + ahead, number, octets))?;
        }
    }
    Ok(tasks)
}

/// The first of these frames again, where it was protected.
pub(crate) fn replay_tasks(
    alloc: Global,
    ahead: u64,
    first: u64,
    answers: &[Answer],
) -> Result<Vec<Record>, NoMemory>
    requires { first + CHUNK + ahead < 2 ^ 63 }
    ensures items { IfOk result (λ tasks. tasks.items ≡ replay_tasks ahead first answers.now) }
    ensures few { IfOk result (λ tasks. vec_len tasks ≤ 1) }
{
    let mut tasks = Vec::new(alloc);
    if let [answer, ..] = answers {
        if answer.code == PROTECTED {
            let octets = answer.body.clone()?;
            tasks.push(open_task(first + CHUNK + ahead, first, octets))?;
        }
    }
    Ok(tasks)
}

/// The lanes, each with a virtual channel of its own.
pub(crate) const DRILL_LANES: u64 = 4;

/// The octets of a data field.
pub(crate) const FIELD_LENGTH: usize = 32;

/// The octets of the TC primary header.
const HEADER_LENGTH: usize = 5;

/// An octet of the data field of a frame.
fn field_octet(number: u64, place: usize) -> u8
    ensures { result ≡ field_octet number place }
{
    ((7 * (number % 256) + 13 * (place as u64 % 256)) % 256) as u8
}

/// The data field of a frame.
#[tactic(auto, using(crate::proofs::Fields::are_octets))]
pub(crate) fn data_field(number: u64) -> [u8; FIELD_LENGTH]
    ensures { result ≡ data_field number }
{
    let mut field = [0; FIELD_LENGTH];
    for (place, octet) in field.iter_mut().enumerate() {
        *octet = field_octet(number, place);
    }
    field
}

/// A TC transfer frame in clear (CCSDS 232.0-B-4): version and flags 0, spacecraft 1, the virtual channel that goes
/// with the lane, 36 as the length field, the sequence number, the data field.
pub(crate) fn clear_frame(alloc: Global, number: u64) -> Result<ShortOctets, NoMemory>
    ensures { IfOk result (λ frame. frame ≡ clear_frame number) }
{
    let channel = (number % DRILL_LANES) as u8;
    let sequence = (number % 256) as u8;
    let mut frame = Vec::with_capacity(alloc, HEADER_LENGTH + FIELD_LENGTH)?;
    frame.extend_from_slice(&[0, 1, 4 * channel, 36, sequence])?;
    frame.extend_from_slice(&data_field(number))?;
    Ok(ShortOctets::new(frame))
}
