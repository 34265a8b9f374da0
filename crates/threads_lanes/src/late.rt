// Frames in any order, opened on four lanes at once under a back window.
use crate::answers::{Head, counted};
use crate::runs::life;
use crate::support::{sound, told};
use crate::watch::Watch;
use case_units::{BEGINNING, FENCE, TELECOMMAND_SENDER, image_of, image_of_sender, push_frame};
use sdls_run::status::DONE;
use std::alloc::{AllocError, Global};
use std::sync::Wait;
use std::test::Fail;
use std::thread::Threads;

/// A plan of one telecommand channel that is received under CMAC, with a window of 64.
const RECEIVER: &[u8] = b"sdls 1
device d0000001
slots 256
block 4
accept 1
link 0 tc seg nofecf -
channel 0 0 42 5 3
key 32769 active 2b7e151628aed2a6abf7158809cf4f3c
sa 7 receive cmac 32769 1 64 0
";

/// The command that gives association 7 the width 64 and the back window 64.
const WINDOW: &[u8] =
    b"\x03\x00\x00\x00\x00\x0d\x15\x00\x50\x00\x07\x40\x00\x00\x00\x00\x00\x00\x40";

/// How many numbers each segment has, and how many there are in all.
const NUMBERS: usize = 64;

const ALL: u64 = 192;

/// The octets before the body of an answer, and those of the answer to a frame that is protected: the frame has 28.
const HEAD: usize = 24;

const ANSWER: usize = 52;

// The codes of answers.
const ACCEPTED: u8 = 0x01;

const NUMBER: u8 = 0x17;

/// The answers to frames that are protected under the numbers from 1 on, in their order.
fn protected<R: Threads + Wait + Sync>(rt: &R, alloc: Global) -> Result<Vec<u8>, Fail> {
    let site = sound(alloc, image_of_sender(alloc, 16, 1024, TELECOMMAND_SENDER))?;
    let mut input = Vec::from_slice(alloc, BEGINNING)?;
    for _ in 0..ALL {
        push_frame(&mut input, 0)?;
    }
    let (_, _, site) = life(rt, alloc, input, site, &Watch::Open)?;
    Ok(Vec::from_slice(alloc, site.sunk())?)
}

/// Appends a record that opens a frame of 28 octets on this lane.
fn push_opened(input: &mut Vec<u8>, frame: &[u8], lane: u8) -> Result<(), AllocError> {
    input.extend_from_slice(&[2, lane, 0, 0, 0, 28])?;
    input.extend_from_slice(frame)
}

/// Appends a segment: the frames of these answers in a mixed order, the highest first, each on two of four lanes.
fn push_segment(input: &mut Vec<u8>, answers: &[u8]) -> Result<(), Fail> {
    for index in 0..2 * NUMBERS {
        let answer = answers
            .chunks(ANSWER)
            .nth(NUMBERS - 1 - index * 37 % NUMBERS)
            .ok_or("an answer lacks")?;
        let frame = answer.get(HEAD..).ok_or("an answer is cut")?;
        push_opened(input, frame, ((index + index / NUMBERS) % 4) as u8)?;
    }
    input.extend_from_slice(FENCE)?;
    Ok(())
}

/// The command, then a segment for each 64 numbers.
fn records(alloc: Global, protected: &[u8]) -> Result<Vec<u8>, Fail> {
    let mut input = Vec::from_slice(alloc, BEGINNING)?;
    input.extend_from_slice(WINDOW)?;
    input.extend_from_slice(FENCE)?;
    for answers in protected.chunks(ANSWER * NUMBERS).take(3) {
        push_segment(&mut input, answers)?;
    }
    Ok(input)
}

/// The numbers that were accepted, in ascending order.
fn accepted(alloc: Global, heads: &[Head]) -> Result<Vec<u64>, Fail> {
    let mut numbers = Vec::new(alloc);
    for head in heads {
        if head.code == ACCEPTED {
            numbers.push(head.number)?;
        }
    }
    numbers.sort()?;
    Ok(numbers)
}

/// 64 numbers in a row lie in a window of 64 with a back window of 64, in whatever order four lanes take them. Each is
/// accepted once, and refused the other time.
#[test]
fn each_number_is_accepted_once(rt: HostRuntime) -> Result<(), Fail> {
    let alloc = rt.alloc();
    let protected = protected(&rt, alloc)?;
    let site = sound(alloc, image_of(alloc, RECEIVER))?;
    let input = records(alloc, protected.as_slice())?;
    let told = told(&rt, alloc, site, input, &Watch::Open, 2 * ALL + 2)?;
    // an entry for the command and for each frame
    assert_eq!(rt; (told.status, told.entries), (DONE, 385));
    let heads = told.heads.as_slice();
    let numbers = accepted(alloc, heads)?;
    assert!(rt; numbers.iter().copied().eq(1..=ALL));
    assert_eq!(rt; counted(heads, NUMBER), 192);
    Ok(())
}
