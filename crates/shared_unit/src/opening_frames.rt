//! A frame is opened: before the turn where a permit is kept for it, and else under the turn.
ghost use Rattle.std.specs.Prelude.{◌≡◌, ℕ, length, MatchResult};
ghost use Rattle.sdls_base.specs.declared.TheConstants.{MOST_KEYS};
ghost use Rattle.frame_checks.specs.Accepting.{LeavesOctets, field_in};
ghost use Rattle.frame_checks.specs.Trying.{IsOpener};
ghost use Rattle.counter_table.specs.declared.view.Turn.{Turn};
ghost use Rattle.counter_table.specs.Worker.{view, KeepsNumbers};
ghost use Rattle.unit_book.specs.Book.{BookView, IsKept};
ghost use Rattle.unit_book.specs.Records.{OpensWithEntry, RefusesFrame};
ghost use Rattle.shared_unit.specs.declared.permit.OpenPermit.{OpenPermit};
ghost use Rattle.shared_unit.specs.Calls.{WithPosition};
ghost use Rattle.shared_unit.specs.Going.{GoesUp};
ghost use Rattle.shared_unit.specs.Opening.{IsNewOrKept, IsOpenTrueFor, IsOpenTrueIfKept, IsTriedUnder, OpensInBook};
ghost use Rattle.shared_unit.specs.Told.{known_of_book};
ghost use Rattle.shared_unit.specs.Turn.{FindsCovered, IsReady, KnowsMoreOfBook, Visits};

use crate::permit::OpenPermit;
use crate::shared_book::SharedBook;
use crate::unit::{Unit, Worker};
use counter_table::Counted;
use frame_checks::{OpenReply, Opener, try_frame};
use frame_shield::Opened;
use sdls_outside::Site;
use std::sync::Wait;
use unit_book::BookFault;

/// Law: a permit to open that is true for a worker stays true while what the worker knows grows.
pub fn open_permits_stay()
    ensures { (permit : OpenPermit) (v w : Turn) → KnowsMoreOfBook v w → IsOpenTrueFor permit v
        → IsOpenTrueFor permit w }
{}

/// Opens a frame that came as these octets in the held book, under what opens such frames.
fn open_under<O: Site>(
    shared: &mut SharedBook<O>,
    opener: &Opener,
    index: u64,
    link: u8,
    octets: &[u8],
    frame: &mut [u8],
) -> Result<(OpenReply, u64), BookFault>
    requires opener { IsOpener shared.old.plan shared.old.state opener.now }
    requires octets { frame.old ≡ octets.now }
    ensures is_kept { IsKept O.told shared.new }
    ensures made { MatchResult result
        (λ answer. OpensWithEntry index link octets.now (field_in answer.0 frame.new) shared.old shared.new
        answer.0 answer.1
        × LeavesOctets answer.0 octets.now frame.new)
        (RefusesFrame index link octets.now shared.old shared.new) }
    ensures goes_on { GoesUp shared.old shared.new }
    ensures changes { shared.new.changes ≡ shared.old.changes }
{
    match shared.try_frame(opener, link, frame) {
        Some(opened) => shared.accept_tried(index, opener, link, octets, frame, opened),
        None => shared.accept(index, link, frame),
    }
}

/// Opens a frame that came as these octets in the held book, and keeps what opens such frames. A frame that was tried
/// is judged by its number, where the book is still in the permit's epoch.
fn open_in<O: Site>(
    shared: &mut SharedBook<O>,
    kept: &mut Option<OpenPermit>,
    tried: Option<Opened>,
    index: u64,
    link: u8,
    octets: &[u8],
    frame: &mut [u8],
) -> Result<(OpenReply, u64), BookFault>
    requires kept { OpensInBook kept.old shared.old }
    requires tried { IsTriedUnder shared.old.plan kept.old link octets.now frame.old tried }
    requires long { length octets.now ≡ length frame.old }
    ensures was_kept { IsKept O.told shared.old }
    ensures is_kept { IsKept O.told shared.new }
    ensures made { MatchResult result
        (λ answer. OpensWithEntry index link octets.now (field_in answer.0 frame.new) shared.old shared.new
        answer.0 answer.1
        × LeavesOctets answer.0 octets.now frame.new)
        (RefusesFrame index link octets.now shared.old shared.new) }
    ensures goes_on { GoesUp shared.old shared.new }
    ensures changes { shared.new.changes ≡ shared.old.changes }
    ensures renewed { IsNewOrKept kept.old kept.new shared.old }
{
    let epoch = shared.changes();
    if let Some(opened) = tried {
        if let Some(permit) = &*kept {
            if permit.epoch == epoch {
                return shared.accept_tried(index, &permit.opener, link, octets, frame, opened);
            }
        }
        frame.copy_from_slice(octets);
    }
    let Some(opener) = shared.opener(link, frame) else {
        return shared.accept(index, link, frame);
    };
    let result = open_under(shared, &opener, index, link, octets, frame);
    *kept = Some(OpenPermit { opener, epoch });
    result
}

impl<O: Site> Unit<O> {
    /// Opens a frame in place under a kept permit, where the frame is of its channel and names its association.
    fn try_kept(&self, kept: &Option<OpenPermit>, link: u8, frame: &mut [u8]) -> Option<Opened>
        requires kept { (v : Turn) × IsOpenTrueIfKept kept.now v × (v.known.opening.plan ≡ self.now.plan) }
        ensures { IsTriedUnder self.now.plan kept.now link frame.old frame.new result }
    {
        let Some(permit) = kept else {
            return None;
        };
        try_frame(&self.plan, &permit.opener, link, frame)
    }

    /// Handles the record with this number, whose frame came on this link as these octets: opens the frame in place
    /// where no check fails, and answers the reply and its position (CCSDS 355.0-B-2, ProcessSecurity). Under a kept
    /// permit of the frame the MAC is compared and the frame deciphered before the turn is taken, and under the turn
    /// its number is judged, if no command has changed the state since. Beside a fault stands the count of the run's
    /// entries. After an answer that is not `Accepted` the frame's octets may be any. Takes no memory.
    pub fn open_frame<R: Wait>(
        &self,
        rt: &R,
        worker: &mut Worker<O>,
        kept: &mut Option<OpenPermit>,
        index: u64,
        link: u8,
        octets: &[u8],
        frame: &mut [u8],
    ) -> Result<(OpenReply, u64), (BookFault, u64)>
        requires ready { IsReady self.now.counters self.now.plan worker.old }
        requires kept { IsOpenTrueIfKept kept.old (view worker.old).turn }
        requires octets { octets.now ≡ frame.old }
        ensures ready { IsReady self.now.counters self.now.plan worker.new }
        ensures numbers { KeepsNumbers worker.old worker.new }
        ensures kept { IsOpenTrueIfKept kept.new (view worker.new).turn }
        ensures opened { (found given : BookView) × Visits O.told found given
            (view worker.old).turn (view worker.new).turn
            × WithPosition result (known_of_book given) (λ answer. MatchResult answer
            (λ told. OpensWithEntry index link frame.old (field_in told.0 frame.new) found given told.0 told.1
            × LeavesOctets told.0 frame.old frame.new)
            (RefusesFrame index link frame.old found given)) }

        // No number was spent by the worker that is not below its row's mark in the book that the call found.
        ensures covered { FindsCovered O.told (view worker.old) (view worker.new) }
    {
        let tried = self.try_kept(&*kept, link, frame);
        let mut held = self.counters.take(rt, worker);
        held.book.look();
        let result = open_in(&mut held.book, kept, tried, index, link, octets, frame);
        let count = held.book.count();
        self.counters.give(worker, held);
        match result {
            Ok(answer) => Ok(answer),
            Err(fault) => Err((fault, count)),
        }
    }
}
