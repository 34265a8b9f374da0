// Two lanes that alternate between two associations.
use crate::answers::{Head, numbers_of};
use crate::meeting::{Meeting, TELEMETRY};
use crate::support::{sound, told};
use crate::watch::Watch;
use case_units::{BEGINNING, TELECOMMAND, TWO_SENDERS, image_of_sender, push_on_lane};
use sdls_run::status::DONE;
use std::alloc::{AllocError, Global};
use std::process::Abort;
use std::test::Fail;

/// How many records there are, on two lanes in turn.
const RECORDS: u64 = 128;

// The keys of the telecommand and of the telemetry channel.
const TELECOMMAND_KEY: u64 = 32769;

const TELEMETRY_KEY: u64 = 256;

/// Whether the record is a telecommand frame: on lane 0 the first of each two, on lane 1 the second.
fn is_telecommand(index: u64) -> bool {
    matches!(index % 4, 0 | 3)
}

fn records(alloc: Global) -> Result<Vec<u8>, AllocError> {
    let mut input = Vec::from_slice(alloc, BEGINNING)?;
    for index in 0..RECORDS {
        let record = if is_telecommand(index) {
            TELECOMMAND
        } else {
            TELEMETRY
        };
        push_on_lane(&mut input, record, (index % 2) as u8)?;
    }
    Ok(input)
}

/// The frame is protected under the key of its association, and has its length.
fn judge(rt: &impl Abort, index: u64, head: &Head) {
    let wanted = if is_telecommand(index) {
        (0, TELECOMMAND_KEY, 28)
    } else {
        (0, TELEMETRY_KEY, 64)
    };
    assert_eq!(rt;
        (head.code, head.key, head.length),
        wanted,
        "answer {index}"
    );
}

/// Each lane protects a frame of the one association, then one of the other, and the lanes do so beside each other.
/// Each key has served with each of its numbers once, and with no other.
#[test]
fn two_lanes_alternate_between_two_associations(rt: HostRuntime) -> Result<(), Fail> {
    let alloc = rt.alloc();
    let gate = Meeting::new();
    // Blocks of four numbers, so that the lanes often reserve.
    let site = sound(alloc, image_of_sender(alloc, 64, 4, TWO_SENDERS))?;
    let input = records(alloc)?;
    let told = told(&rt, alloc, site, input, &Watch::Meeting(&gate), RECORDS + 1)?;
    assert!(rt; gate.has_held());
    assert_eq!(rt; told.status, DONE);
    for (index, head) in (0..RECORDS).zip(told.heads.iter()) {
        judge(&rt, index, head);
    }
    for key in [TELECOMMAND_KEY, TELEMETRY_KEY] {
        let numbers = numbers_of(alloc, told.heads.as_slice(), key)?;
        assert!(rt; numbers.iter().copied().eq(1..=64), "key {key}");
    }
    Ok(())
}
