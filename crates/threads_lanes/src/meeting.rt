// Lanes beside each other, seen by a gate that holds a lane until another was seen.
use crate::answers::Head;
use crate::support::{sound, told};
use crate::waits::Flag;
use crate::watch::Watch;
use case_units::{BEGINNING, TELECOMMAND, TWO_SENDERS, image_of_sender};
use sdls_run::Gate;
use sdls_run::status::DONE;
use std::alloc::{AllocError, Global};
use std::process::Abort;
use std::test::Fail;

/// The stop of association 9, on lane 1.
pub(crate) const STOP: &[u8] = b"\x03\x01\x00\x00\x00\x05\x1e\x00\x10\x00\x09";

/// A frame to be protected on link 1, on lane 1.
pub(crate) const TELEMETRY: &[u8] =
    b"\x01\x01\x01\x00\x00\x20\x02\xa5\x11\x22\x98\x00\x03\xaa\xbb\xcc\x40\x41\x42\x43\x44\x45\x46\x47\x48\x49\x4a\
      \x4b\x4c\x4d\x4e\x4f\x50\x51\x0a\x0b\x0c\x0d";

/// A gate at which the first records of two lanes wait for each other.
#[derive(Drop)]
pub(crate) struct Meeting {
    first: Flag,
    second: Flag,
    missed: Flag,
}

impl Meeting {
    pub(crate) fn new() -> Self {
        Meeting {
            first: Flag::new(),
            second: Flag::new(),
            missed: Flag::new(),
        }
    }

    /// Whether both lanes came, and each saw the other.
    pub(crate) fn has_held(&self) -> bool {
        self.first.is_set() && self.second.is_set() && !self.missed.is_set()
    }
}

impl Gate for Meeting {
    fn pass(&self, lane: u8, index: u64) {
        match (lane, index) {
            (0, 0) => {
                self.first.set();
                self.second.wait(&self.missed);
            }
            (1, 1) => {
                self.second.set();
                self.first.wait(&self.missed);
            }
            _ => {}
        }
    }

    fn done(&self, _lane: u8, _index: u64) {}
}

/// A frame on lane 0 and the stop on lane 1, then 49 frames on each.
fn records(alloc: Global) -> Result<Vec<u8>, AllocError> {
    let mut input = Vec::from_slice(alloc, BEGINNING)?;
    input.extend_from_slice(TELECOMMAND)?;
    input.extend_from_slice(STOP)?;
    for _ in 0..49 {
        input.extend_from_slice(TELECOMMAND)?;
        input.extend_from_slice(TELEMETRY)?;
    }
    Ok(input)
}

/// The answer has the code, the length and the number that are due.
fn judge(rt: &impl Abort, index: u64, head: &Head) {
    let wanted = match index {
        1 => (0x03, 3, 0),
        100 => (0xff, 0, 0),
        index if index % 2 == 0 => (0x00, 28, index / 2 + 1),
        _ => (0x14, 0, 0),
    };
    assert_eq!(rt;
        (head.code, head.length, head.number),
        wanted,
        "answer {index}"
    );
}

/// The lanes of a segment run at the same time: one thread would wait for itself. A stop on one lane stops no frame on
/// the other, and each frame behind it on its own.
#[test]
fn two_lanes_run_beside_each_other(rt: HostRuntime) -> Result<(), Fail> {
    let alloc = rt.alloc();
    let gate = Meeting::new();
    let site = sound(alloc, image_of_sender(alloc, 16, 64, TWO_SENDERS))?;
    let input = records(alloc)?;
    let told = told(&rt, alloc, site, input, &Watch::Meeting(&gate), 101)?;
    assert!(rt; gate.has_held());
    // a reserve, the stop, and a release
    assert_eq!(rt; (told.status, told.entries), (DONE, 3));
    for (index, head) in (0..101).zip(told.heads.iter()) {
        judge(&rt, index, head);
    }
    Ok(())
}
