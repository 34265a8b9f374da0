//! Permits, as the holder of the turn gives them.
ghost use Rattle.std.specs.Prelude.{ℕ};
ghost use Rattle.unit_book.specs.Book.{BookView, IsKept};
ghost use Rattle.counter_table.specs.declared.view.Turn.{Turn};
ghost use Rattle.counter_table.specs.Worker.{view, KeepsNumbers};
ghost use Rattle.shared_unit.specs.declared.permit.Permit.{Permit};
ghost use Rattle.shared_unit.specs.Permit.{IfPermit, IsOfPermit, IsTrueFor, Permits};
ghost use Rattle.shared_unit.specs.Turn.{KnowsMoreOfBook, IsReady, Visits};

use crate::shared_book::SharedBook;
use crate::unit::{Unit, Worker};
use counter_table::{Counted, Ticket};
use frame_checks::{ChannelBinding, Opener};
use frame_shield::{Binding, ShieldFault};
use sdls_base::{ChannelId, KeyId};
use sdls_outside::Site;
use std::sync::Wait;
use unit_book::BookFault;

/// What frames of a channel are protected under, since an epoch.
#[derive(Drop)]
pub struct Permit {
    pub binding: Binding,
    /// The place of the key, in loading order.
    pub row: u16,
    pub epoch: u64,
    pub channel: ChannelId,
    /// The link of the channel.
    pub link: u8,
}

/// What frames of a channel that name an association are opened under, since an epoch.
#[derive(Drop)]
pub struct OpenPermit {
    pub opener: Opener,
    pub epoch: u64,
}

/// The answer of `permit`.
#[derive(Drop)]
pub enum PermitReply {
    Permit(Permit),
    /// The frame is sent as it stands.
    Clear,
    /// The first check that fails, and the epoch in which it does.
    Refused(ShieldFault, u64),
}

/// A frame that was protected.
#[derive(Clone, Copy, Debug, PartialEq, Eq)]
pub struct Done {
    pub key: KeyId,
    pub number: u64,
    /// The epoch in which the association was operational.
    pub epoch: u64,
    /// The octets of the protected frame.
    pub length: usize,
}

/// The answer of `protect_ready`.
#[derive(Drop)]
pub enum Ready {
    Done(Done),
    /// The number that was drawn is at or above the limit.
    NeedBlock(Ticket),
    /// The epoch went on: the one that was seen.
    Stale(u64),
    /// The key has no number left: the word or the number that was found, at or above the key's end.
    Exhausted(u64),
    /// The clear frame has not its layout.
    Refused(ShieldFault),
}

/// The answer of `protect`.
#[derive(Drop)]
pub enum Protected {
    Done(Done),
    /// The frame is sent as it stands.
    Clear,
    /// The first check that fails, and an epoch in which it does; 0 where the plan is enough for it.
    Refused(ShieldFault, u64),
    /// The key has no number left: the key, the word or the number that was found, at or above its end, and the epoch.
    Exhausted(KeyId, u64, u64),
    /// The reserve of a number was refused: why, and the count of the run's entries.
    Fault(BookFault, u64),
}

/// Law: a permit that is true for a worker stays true while what the worker knows grows.
pub fn permits_stay()
    ensures { (permit : Permit) (v w : Turn) → KnowsMoreOfBook v w → IsTrueFor permit v → IsTrueFor permit w }
{}

/// What the held book permits for a frame.
pub(crate) fn permit_in<O: Site>(shared: &SharedBook<O>, link: u8, clear: &[u8]) -> PermitReply
    ensures kept { IsKept O.told shared.now }
    ensures permits { Permits link clear.now result shared.now }
{
    let epoch = shared.changes();
    match shared.binding(link, clear) {
        Err(fault) => PermitReply::Refused(fault, epoch),
        Ok(None) => PermitReply::Clear,
        Ok(Some(found)) => {
            let ChannelBinding { channel, binding } = found;
            let row = shared.row_in(binding.key);
            PermitReply::Permit(Permit {
                binding,
                row,
                epoch,
                channel,
                link,
            })
        }
    }
}

impl<O: Site> Unit<O> {
    /// A permit for the channel of a frame in clear, as the book stands.
    pub fn permit<R: Wait>(
        &self,
        rt: &R,
        worker: &mut Worker<O>,
        link: u8,
        clear: &[u8],
    ) -> PermitReply
        requires ready { IsReady self.now.counters self.now.plan worker.old }
        ensures ready { IsReady self.now.counters self.now.plan worker.new }
        ensures numbers { KeepsNumbers worker.old worker.new }
        ensures permitted { (found : BookView) × Visits O.told found found
            (view worker.old).turn (view worker.new).turn
            × Permits link clear.now result found }
        ensures trusted { IfPermit result (λ permit. IsTrueFor permit (view worker.new).turn
            × IsOfPermit self.now.plan permit clear.now) }
    {
        let held = self.counters.take(rt, worker);
        let reply = permit_in(&held.book, link, clear);
        self.counters.give(worker, held);
        reply
    }
}
