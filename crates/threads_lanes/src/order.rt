// Records of one lane alone.
use crate::support::{sound, told};
use crate::watch::Watch;
use case_units::{BEGINNING, TELECOMMAND_SENDER, image_of_sender, push_frame};
use sdls_run::status::DONE;
use std::alloc::{AllocError, Global};
use std::test::Fail;

fn records(alloc: Global) -> Result<Vec<u8>, AllocError> {
    let mut input = Vec::from_slice(alloc, BEGINNING)?;
    for _ in 0..1024 {
        push_frame(&mut input, 15)?;
    }
    Ok(input)
}

/// The most records of a segment, on one lane, are answered in order: number after number.
#[test]
fn one_lane_answers_number_after_number(rt: HostRuntime) -> Result<(), Fail> {
    let alloc = rt.alloc();
    let site = sound(alloc, image_of_sender(alloc, 16, 1024, TELECOMMAND_SENDER))?;
    let input = records(alloc)?;
    let told = told(&rt, alloc, site, input, &Watch::Open, 1025)?;
    // One reserve: its mark is the number that comes next, so that nothing is released.
    assert_eq!(rt; (told.status, told.entries), (DONE, 1));
    for (number, head) in (1..=1024).zip(told.heads.iter()) {
        assert_eq!(rt; (head.code, head.position, head.number), (0, 0, number));
    }
    Ok(())
}
