// What the tests share: units over sites in memory, and a frame that is protected.
ghost use Rattle.std.specs.Prelude.{◌≡◌, IfSome};
ghost use Rattle.counter_table.specs.Worker.{view};
ghost use Rattle.shared_unit.specs.Turn.{IsReady};

use sdls_outside::MemSite;
use shared_unit::{Unit, Worker};
use std::alloc::Global;
use std::sync::Wait;

/// A frame of the telecommand channel in clear, with an empty data field.
pub(crate) const CLEAR: [u8; 6] = *b"\x00\x2a\x14\x05\x09\xc3";

/// A unit of the image, whose site fails at these calls, and its first worker.
pub(crate) fn opened<R: Wait>(
    rt: &R,
    alloc: Global,
    image: Vec<u8>,
    failing: Vec<u64>,
) -> Option<(Unit<MemSite>, Worker<MemSite>)>
    ensures ready { IfSome result (λ made. IsReady made.0.counters made.0.plan made.1) }
    ensures shares { IfSome result (λ made. (view made.1).numbers.shares ≡ 1024) }
{
    Unit::open(rt, alloc, MemSite::new(alloc, image, failing, None)).ok()
}
