// A lane that keeps its permit goes on while another lane has the turn.
use crate::meeting::STOP;
use crate::support::{sound, told};
use crate::waits::Flag;
use crate::watch::Watch;
use case_units::{BEGINNING, FENCE, TELECOMMAND, TWO_SENDERS, image_of_sender, joined};
use sdls_run::Gate;
use sdls_run::status::DONE;
use std::alloc::Global;
use std::process::Abort;
use std::sync::Wait;
use std::test::Fail;
use std::thread::Threads;

/// Where two lanes and the site are.
#[derive(Drop)]
pub(crate) struct Storing {
    first_done: Flag,
    stop_begun: Flag,
    syncing: Flag,
    second_done: Flag,
    missed: Flag,
}

impl Storing {
    fn new() -> Self {
        Storing {
            first_done: Flag::new(),
            stop_begun: Flag::new(),
            syncing: Flag::new(),
            second_done: Flag::new(),
            missed: Flag::new(),
        }
    }

    /// Whether each step was seen, and no wait ended before what it was for.
    fn has_held(&self) -> bool {
        self.stop_begun.is_set()
            && self.syncing.is_set()
            && self.second_done.is_set()
            && !self.missed.is_set()
    }

    /// Holds the first sync of the stop until the second frame is done.
    pub(crate) fn hold_sync(&self) {
        if self.stop_begun.is_set() {
            self.syncing.set();
            self.second_done.wait(&self.missed);
        }
    }
}

impl Gate for Storing {
    fn pass(&self, lane: u8, index: u64) {
        match (lane, index) {
            (1, 1) => {
                self.first_done.wait(&self.missed);
                self.stop_begun.set();
            }
            (0, 2) => self.syncing.wait(&self.missed),
            _ => {}
        }
    }

    fn done(&self, lane: u8, index: u64) {
        match (lane, index) {
            (0, 0) => self.first_done.set(),
            (0, 2) => self.second_done.set(),
            _ => {}
        }
    }
}

/// Whether the second frame of lane 0 is protected while the stop of lane 1 is being stored, under the turn.
fn takes_no_turn<R: Threads + Wait + Sync + Abort>(
    rt: &R,
    alloc: Global,
    pieces: &[&[u8]],
) -> Result<(), Fail> {
    let input = joined(alloc, pieces)?;
    let site = sound(alloc, image_of_sender(alloc, 16, 64, TWO_SENDERS))?;
    let storing = Storing::new();
    let told = told(rt, alloc, site, input, &Watch::Storing(&storing), 4)?;
    assert!(rt; storing.has_held());
    // a reserve, the stop, and a release
    assert_eq!(rt; (told.status, told.entries), (DONE, 3));
    let found = told
        .heads
        .iter()
        .map(|head| (head.code, head.position, head.number));
    let wanted = [(0x00, 0, 1), (0x03, 2, 0), (0x00, 0, 2), (0xff, 3, 0)];
    assert!(rt; found.eq(wanted));
    Ok(())
}

/// Lane 0 protects two frames, and lane 1 stops an association of another channel between them. While the stop is being
/// stored, under the turn, the second frame is protected: it needs the permit of the first, since a new one would need
/// the turn.
#[test]
fn a_lane_with_a_permit_takes_no_turn(rt: HostRuntime) -> Result<(), Fail> {
    takes_no_turn(
        &rt,
        rt.alloc(),
        &[BEGINNING, TELECOMMAND, STOP, TELECOMMAND],
    )
}

/// So it is if the first frame is of the segment before.
#[test]
fn a_permit_passes_to_the_next_segment(rt: HostRuntime) -> Result<(), Fail> {
    takes_no_turn(
        &rt,
        rt.alloc(),
        &[BEGINNING, TELECOMMAND, FENCE, STOP, TELECOMMAND],
    )
}
