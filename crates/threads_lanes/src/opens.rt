// One frame, opened on sixteen lanes at once.
use crate::answers::Head;
use crate::support::{sound, told};
use crate::waits::{Count, Flag};
use crate::watch::Watch;
use case_units::{BEGINNING, image_of, push_on_lane};
use sdls_run::Gate;
use sdls_run::status::DONE;
use std::alloc::{AllocError, Global};
use std::process::Abort;
use std::test::Fail;

/// A plan of one telecommand channel that is received under CMAC.
const RECEIVER: &[u8] = b"sdls 1
device d0000001
slots 16
block 4
accept 1
link 0 tc seg nofecf -
channel 0 0 42 5 3
key 32769 active 2b7e151628aed2a6abf7158809cf4f3c
sa 7 receive cmac 32769 1 1 0
";

/// The protected frame of `docs/FRAMES.md`, to be opened: its number is 1, and its data field is empty.
const PROTECTED_FRAME: &[u8] =
    b"\x02\x00\x00\x00\x00\x1c\x00\x2a\x14\x1b\x09\xc3\x00\x07\x00\x00\x00\x01\x7c\xf7\x6a\xa4\xd9\x74\x8e\xe7\x06\
      \x40\x3d\xf6\x1c\x55\xef\xee";

/// How many lanes there are.
const LANES: u8 = 16;

// The codes of answers.
const ACCEPTED: u8 = 0x01;

const NUMBER: u8 = 0x17;

/// A gate at which the first records of all lanes wait for each other.
#[derive(Drop)]
pub(crate) struct Crowd {
    come: Count,
    missed: Flag,
}

impl Gate for Crowd {
    fn pass(&self, _lane: u8, _index: u64) {
        self.come.raise();
        self.come.wait(u64::from(LANES), &self.missed);
    }

    fn done(&self, _lane: u8, _index: u64) {}
}

/// The frame, once on each lane.
fn records(alloc: Global) -> Result<Vec<u8>, AllocError> {
    let mut input = Vec::from_slice(alloc, BEGINNING)?;
    for lane in 0..LANES {
        push_on_lane(&mut input, PROTECTED_FRAME, lane)?;
    }
    Ok(input)
}

/// The first entry accepts the frame, with no data. Each later one refuses its number, with two numbers as body.
fn judge(rt: &impl Abort, head: &Head) {
    let wanted = if head.position == 1 {
        (ACCEPTED, 32769, 0, 1)
    } else {
        (NUMBER, 32769, 16, 1)
    };
    assert_eq!(rt; (head.code, head.key, head.length, head.number), wanted);
}

/// The positions, in ascending order.
fn positions_of(alloc: Global, heads: &[Head]) -> Result<Vec<u64>, Fail> {
    let mut positions = Vec::new(alloc);
    for head in heads {
        positions.push(head.position)?;
    }
    positions.sort()?;
    Ok(positions)
}

/// All lanes of a segment run at the same time: a lane that waited for another to end would wait at the gate for ever.
/// The frame is accepted on one of them, whichever is first, and on no other.
#[test]
fn sixteen_lanes_accept_a_frame_once(rt: HostRuntime) -> Result<(), Fail> {
    let alloc = rt.alloc();
    let gate = Crowd {
        come: Count::new(),
        missed: Flag::new(),
    };
    let site = sound(alloc, image_of(alloc, RECEIVER))?;
    let input = records(alloc)?;
    let told = told(&rt, alloc, site, input, &Watch::Crowd(&gate), 17)?;
    assert_eq!(rt; (gate.come.value(), gate.missed.is_set()), (16, false));
    // an entry for each frame
    assert_eq!(rt; (told.status, told.entries), (DONE, 16));
    let (end, opened) = told.heads.split_last().ok_or("no answer")?;
    assert_eq!(rt; (end.code, end.position), (0xff, 16));
    for head in opened {
        judge(&rt, head);
    }
    let positions = positions_of(alloc, opened)?;
    assert!(rt; positions.iter().copied().eq(1..=16));
    Ok(())
}
