ghost use Rattle.shared_unit.specs.Turn.{IsReady};

use crate::setting::opened;
use case_units::image_of;
use ep_core::Reply;
use sdls_outside::MemSite;
use shared_unit::{Protected, Unit, Worker};
use std::sync::Wait;
use std::test::Fail;
use std::thread::{Threads, join};

/// A telecommand channel that is received, and a telemetry channel; key 1 is a master key.
const PLAN: &[u8] = b"sdls 1
device 00000001
slots 64
block 64
accept 1
link 0 tc noseg nofecf -
link 1 tm 64 nofecf -
channel 0 0 42 5 -
channel 1 1 42 2 -
key 1 active 101112131415161718191a1b1c1d1e1f
key 33000 active 44444444444444444444444444444444
sa 1 receive cmac 33000 1 1000 0
";

/// Loads keys 256 and 32769 under the master key, activates both, makes association 2 on the telemetry channel, keys it
/// with key 256 from number 2 on, and starts it. The load was sealed by another program.
const MESSAGES: [&[u8]; 5] = [
    b"\x01\x02\xa0\x00\x01\x00\x00\x00\x00\x00\x00\x00\x00\x00\x00\x00\x01\xc6\x85\x49\xec\x28\x65\x2b\xb4\xd4\xa8\
      \xb6\x92\x43\x46\x09\xad\
      \x5e\x78\xb0\xf8\x66\x75\x83\xaf\x4e\x90\x82\x0d\xea\xcd\x1b\x98\x7f\x16\xca\x31\x28\x8a\xd2\x45\x78\x36\x9d\
      \x62\x24\x47\x3f\xd9\xb6\
      \x04\x74\x09\x0b\xe5\xc8\x19\xa6\x41\xd2\x6e\x51\x8b\x5e\x4c\x1a\xb9\x3c\x27\x21\x5e",
    b"\x02\x00\x20\x01\x00\x80\x01",
    b"\x11\x00\x70\x00\x02\x01\x02\x00\x00\x00\x00\x00\x00\x00\x40\x01\x01",
    b"\x16\x00\x60\x00\x02\x01\x00\x00\x00\x00\x00\x00\x00\x00\x02",
    b"\x1b\x00\x10\x00\x02",
];

/// A frame of the telemetry channel in clear.
const CLEAR: [u8; 34] =
    *b"\x02\xa4\x11\x22\x18\x00\x00\x00\x00\x00\x00\x00\x00\x00\x00\x00\x00\x00\x00\x00\x00\x00\x00\x00\x00\x00\x00\
      \x00\x00\x00\x00\x00\x00\x00";

// Whether all messages are done.
fn keyed<R: Wait>(rt: &R, unit: &Unit<MemSite>, mut worker: Worker<MemSite>) -> bool
    requires { IsReady unit.now.counters unit.now.plan worker }
{
    for message in MESSAGES {
        match unit.command(rt, &mut worker, 0, message) {
            Ok((Reply::Done { .. }, _)) => {}
            _ => return false,
        }
    }
    true
}

// The same on another thread.
fn keyed_there<R: Threads + Wait + Sync>(
    rt: &R,
    unit: &Unit<MemSite>,
    worker: Worker<MemSite>,
) -> bool
    requires { IsReady unit.now.counters unit.now.plan worker }
{
    let (keyed, ()) = join(rt, move || keyed(rt, unit, worker), || ());
    keyed
}

// Protects a frame of the telemetry channel: the key and the number.
fn protected<R: Wait>(
    rt: &R,
    unit: &Unit<MemSite>,
    mut worker: Worker<MemSite>,
) -> Option<(u16, u64)>
    requires { IsReady unit.now.counters unit.now.plan worker }
{
    let mut out = [0; 2048];
    match unit.protect(rt, &mut worker, &mut None, 1, &CLEAR, &mut out) {
        Protected::Done(done) => Some((done.key.get(), done.number)),
        _ => None,
    }
}

#[test]
fn loaded_keys_are_used_at_once(rt: HostRuntime) -> Result<(), Fail> {
    let alloc = rt.alloc();
    let image = image_of(alloc, PLAN).ok_or("no image")?;
    let (unit, mut first) = opened(&rt, alloc, image, Vec::new(alloc)).ok_or("no unit")?;
    let second = unit.split(&mut first);
    assert!(rt; keyed_there(&rt, &unit, first));
    // The association was keyed with the number 2.
    assert_eq!(rt; protected(&rt, &unit, second), Some((256, 2)));
    Ok(())
}
