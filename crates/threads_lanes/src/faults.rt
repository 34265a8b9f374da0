// A disk that fails under one of sixteen lanes.
use crate::answers::{Head, PROTECTED, counted, numbers_of};
use crate::support::told;
use crate::watch::Watch;
use case_units::{BEGINNING, FENCE, TELECOMMAND, TELECOMMAND_SENDER, image_of_sender, push_frame};
use sdls_outside::MemSite;
use sdls_run::status::SITE_FAULT;
use std::alloc::{AllocError, Global};
use std::process::Abort;
use std::test::Fail;

/// The site's call that syncs the gate of the second entry. Calls 0 to 24 open the image, 25 to 28 append the first
/// entry, 29 writes the first answer, and 30 to 33 append the second entry.
const SYNC_OF_THE_SECOND_GATE: u64 = 33;

// The codes of answers.
const FAILED: u8 = 0x31;

const STOPPED: u8 = 0x32;

/// A frame and a fence, then six frames on each lane.
fn records(alloc: Global) -> Result<Vec<u8>, AllocError> {
    let mut input = Vec::from_slice(alloc, BEGINNING)?;
    input.extend_from_slice(TELECOMMAND)?;
    input.extend_from_slice(FENCE)?;
    for index in 0..96u64 {
        push_frame(&mut input, (index % 16) as u8)?;
    }
    Ok(input)
}

/// An answer that is no frame has the count of faults, and that of the entries.
fn judge(rt: &impl Abort, heads: &[Head]) {
    for head in heads {
        if head.code != PROTECTED {
            assert_eq!(rt; (head.number, head.position), (1, 2));
        }
    }
}

/// One frame is answered, so that numbers to 4 are reserved. Then sixteen lanes protect six frames each, and the site
/// fails at the next reserve: that lane names the fault, the three numbers that are left are used, and all other frames
/// are refused.
#[test]
fn a_fault_under_one_lane_stops_the_others(rt: HostRuntime) -> Result<(), Fail> {
    let alloc = rt.alloc();
    let image = image_of_sender(alloc, 16, 4, TELECOMMAND_SENDER).ok_or("no image")?;
    let failing = vec![in alloc; SYNC_OF_THE_SECOND_GATE]?;
    let site = MemSite::new(alloc, image, failing, None);
    let told = told(&rt, alloc, site, records(alloc)?, &Watch::Open, 98)?;
    assert_eq!(rt; (told.status, told.entries), (SITE_FAULT, 2));
    let heads = told.heads.as_slice();
    let numbers = numbers_of(alloc, heads, 32769)?;
    assert_eq!(rt; numbers.as_slice(), [1, 2, 3, 4].as_slice());
    assert_eq!(rt; counted(heads, PROTECTED), 4);
    assert_eq!(rt; counted(heads, FAILED), 1);
    assert_eq!(rt; counted(heads, STOPPED), 92);
    judge(&rt, heads);
    Ok(())
}
