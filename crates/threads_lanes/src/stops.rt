// A stop on one of sixteen lanes.
use crate::answers::{Head, PROTECTED, counted, numbers_of};
use crate::support::{sound, told};
use crate::watch::Watch;
use case_units::{BEGINNING, TELECOMMAND_SENDER, image_of_sender, push_frame};
use sdls_run::status::DONE;
use std::alloc::{AllocError, Global};
use std::test::Fail;

/// The stop of association 7, on lane 5.
const STOP: &[u8] = b"\x03\x05\x00\x00\x00\x05\x1e\x00\x10\x00\x07";

/// How many records there are, dealt out to all lanes in turn.
const RECORDS: u64 = 256;

/// The record that stops the association: the ninth of lane 5.
const STOPS: u64 = 8 * 16 + 5;

// The codes of answers.
const COMMAND_DONE: u8 = 0x03;

const NOT_OPERATIONAL: u8 = 0x14;

const END: u8 = 0xff;

fn records(alloc: Global) -> Result<Vec<u8>, AllocError> {
    let mut input = Vec::from_slice(alloc, BEGINNING)?;
    for index in 0..RECORDS {
        if index == STOPS {
            input.extend_from_slice(STOP)?;
        } else {
            push_frame(&mut input, (index % 16) as u8)?;
        }
    }
    Ok(input)
}

/// Whether the answer is one that is due at its place.
fn is_due(index: u64, head: &Head) -> bool {
    match (index, head.code) {
        (STOPS, code) => code == COMMAND_DONE,
        (RECORDS, code) => code == END,
        // The stop is the first change, so frames before it are of epoch 0, and those behind it of epoch 1.
        (_, PROTECTED) => head.position == 0 && (index % 16 != 5 || index < STOPS),
        (_, NOT_OPERATIONAL) => head.position == 1 && (index % 16 != 5 || STOPS < index),
        _ => false,
    }
}

/// Each frame is answered by the state of its own position: on the lane of the stop those before it are protected, and
/// those behind it are not. On another lane a frame may come before the stop or behind it, and its position says which.
#[test]
fn each_frame_is_judged_at_its_position(rt: HostRuntime) -> Result<(), Fail> {
    let alloc = rt.alloc();
    let site = sound(alloc, image_of_sender(alloc, 16, 64, TELECOMMAND_SENDER))?;
    let input = records(alloc)?;
    let told = told(&rt, alloc, site, input, &Watch::Open, RECORDS + 1)?;
    assert_eq!(rt; told.status, DONE);
    for (index, head) in (0..=RECORDS).zip(told.heads.iter()) {
        assert!(rt; is_due(index, head), "answer {index}: {head:?}");
    }
    let heads = told.heads.as_slice();
    let numbers = numbers_of(alloc, heads, 32769)?;
    assert_eq!(rt; numbers.len(), counted(heads, PROTECTED));
    assert!(rt; numbers.len() >= 8);
    Ok(())
}
