//! A frame is protected: with the kept permit, by steps on words alone, where that still holds, and else under the
//! turn. There the block of a number that was drawn at or above the limit is reserved.
ghost use Rattle.std.specs.Prelude.{◌≡◌, ◌≤◌, ◌<◌, ◌+◌, ℕ, length, Some, Ok, IfSome, ◌^◌, true, OnErr, None};
ghost use Rattle.sdls_base.specs.declared.TheConstants.{MOST_KEYS};
ghost use Rattle.sdls_base.specs.KeyId.{end_of};
ghost use Rattle.frame_shield.specs.declared.protecting_frames.TheConstants.{FRAME_ROOM};
ghost use Rattle.frame_shield.specs.Binding.{IsBinding, clear_fault};
ghost use Rattle.key_book.specs.KeyBook.{place_of};
ghost use Rattle.frame_checks.specs.ProtectingFrames.{channel_check};
ghost use Rattle.unit_image.specs.Image.{Held};
ghost use Rattle.unit_book.specs.Book.{IsKept};
ghost use Rattle.counter_table.specs.Turn.{epoch_seen};
ghost use Rattle.counter_table.specs.Worker.{view, IsSame, IsOf, KeepsTurn};
ghost use Rattle.counter_table.specs.Known.{LowersNoMark};
ghost use Rattle.shared_unit.specs.declared.permit.Permit.{Permit};
ghost use Rattle.shared_unit.specs.declared.permit.Done.{Done};
ghost use Rattle.shared_unit.specs.Permit.{IsOfPermit, IsTrueFor, IsReadyStep, LeavesUnready};
ghost use Rattle.shared_unit.specs.Protecting.{CoversIfTaken, FindsEpoch, HasLoaded, IfEpoch, IsByKept, IsKeptStep};
ghost use Rattle.shared_unit.specs.Protecting.{IsProtectStep, IsTrueIfKept, LeavesUnanswered, LeavesUnprotected};
ghost use Rattle.shared_unit.specs.Protecting.{LoadsByKept, ProtectsFrame, TakesAtMostOnce};
ghost use Rattle.shared_unit.specs.Turn.{FindsCovered, IsReady};
ghost use Rattle.shared_unit.specs.Numbers.{IsDrawAnswer};
ghost use Rattle.shared_unit.specs.UnderTurn.{IsFinished};
ghost use Rattle.shared_unit.specs.Going.{GoesUp};
ghost use Rattle.shared_unit.specs.Told.{known_of_book};
ghost use Rattle.shared_unit.specs.Funding.{IsFunded, IsFundStep};

use crate::permit::{Done, Permit, PermitReply, Protected, Ready, permit_in};
use crate::shared_book::SharedBook;
use crate::unit::{Unit, Worker};
use counter_table::{Arm, Funded, Held, Ticket};
use frame_shield::{fits, shield};
use sdls_base::{ChannelId, KeyId};
use sdls_outside::Site;
use std::sync::Wait;
use unit_book::BookFault;

impl<O: Site> Unit<O> {
    // With a permit of the frame's channel. `None`: the epoch went on.
    fn protect_with_kept<R: Wait>(
        &self,
        rt: &R,
        worker: &mut Worker<O>,
        permit: &Permit,
        clear: &[u8],
        out: &mut [u8],
    ) -> Option<Protected>
        requires ready { IsReady self.now.counters self.now.plan worker.old }
        requires permit { IsTrueFor permit.now (view worker.old).turn }
        requires frame { IsOfPermit self.now.plan permit.now clear.now }
        requires room { length out.old ≡ FRAME_ROOM }
        ensures ready { IsReady self.now.counters self.now.plan worker.new }
        ensures same { IsSame worker.old worker.new }
        ensures turn { TakesAtMostOnce O.told (view worker.old).turn
            (view worker.new).turn }
        ensures covered { CoversIfTaken O.told (view worker.old) (view worker.new) }
        ensures loads { (view worker.new).turn.loads ≡ (view worker.old).turn.loads + 1 }
        ensures epoch { IfSome result (λ answer. IfEpoch answer (λ epoch. (view worker.new).turn.epoch ≡ epoch)) }
        ensures step { IsKeptStep O.told permit.now clear.now out.new result
            (view worker.old) (view worker.new) }
        ensures leaves { LeavesUnanswered result out.old out.new }
    {
        match self.protect_ready(worker, permit, clear, out) {
            Ready::Done(done) => Some(Protected::Done(done)),
            Ready::NeedBlock(ticket) => match self.fund(rt, worker, permit, ticket, clear, out) {
                Ok(done) => Some(Protected::Done(done)),
                Err((fault, position)) => Some(Protected::Fault(fault, position)),
            },
            Ready::Stale(_epoch) => None,
            Ready::Exhausted(number) => {
                Some(Protected::Exhausted(permit.binding.key, number, permit.epoch))
            }
            Ready::Refused(fault) => {
                let epoch = self.counters.see_epoch(worker);
                if epoch == permit.epoch {
                    Some(Protected::Refused(fault, epoch))
                } else {
                    None
                }
            }
        }
    }

    // With what is kept, where it is of the frame's channel.
    fn protect_if_kept<R: Wait>(
        &self,
        rt: &R,
        worker: &mut Worker<O>,
        kept: &Option<Permit>,
        link: u8,
        channel: ChannelId,
        clear: &[u8],
        out: &mut [u8],
    ) -> Option<Protected>
        requires ready { IsReady self.now.counters self.now.plan worker.old }
        requires kept { IsTrueIfKept kept.now (view worker.old).turn }
        requires channel { channel_check self.now.plan link clear.now ≡ Ok (Some channel) }
        requires room { length out.old ≡ FRAME_ROOM }
        ensures ready { IsReady self.now.counters self.now.plan worker.new }
        ensures same { IsSame worker.old worker.new }
        ensures turn { TakesAtMostOnce O.told (view worker.old).turn
            (view worker.new).turn }
        ensures covered { CoversIfTaken O.told (view worker.old) (view worker.new) }
        ensures loads { LoadsByKept self.now.plan link clear.now kept.now (view worker.old).turn
            (view worker.new).turn }
        ensures epoch { IfSome result (λ answer. IfEpoch answer
            (HasLoaded (view worker.old).turn (view worker.new).turn)) }
        ensures step { IsByKept O.told self.now.plan kept.now link clear.now out.new
            result (view worker.old) (view worker.new) }
        ensures leaves { LeavesUnanswered result out.old out.new }
    {
        let Some(permit) = kept else {
            return None;
        };
        if permit.link != link {
            return None;
        }
        if permit.channel != channel {
            return None;
        }
        self.protect_with_kept(rt, worker, permit, clear, out)
    }

    // Renews the permit under the turn, and finishes there.
    fn protect_with_new<R: Wait>(
        &self,
        rt: &R,
        worker: &mut Worker<O>,
        kept: &mut Option<Permit>,
        link: u8,
        clear: &[u8],
        out: &mut [u8],
    ) -> Protected
        requires ready { IsReady self.now.counters self.now.plan worker.old }
        requires kept { IsTrueIfKept kept.old (view worker.old).turn }
        requires channel { (channel : ℕ) × (channel_check self.now.plan link clear.now ≡ Ok (Some channel)) }
        requires room { length out.old ≡ FRAME_ROOM }
        ensures ready { IsReady self.now.counters self.now.plan worker.new }
        ensures same { IsSame worker.old worker.new }
        ensures turn { TakesAtMostOnce O.told (view worker.old).turn
            (view worker.new).turn }
        ensures covered { FindsCovered O.told (view worker.old) (view worker.new) }
        ensures kept { IsTrueIfKept kept.new (view worker.new).turn }
        ensures step { IsProtectStep O.told self.now.plan link clear.now out.new kept.new
            result (view worker.old) (view worker.new) }
        ensures leaves { LeavesUnprotected result out.old out.new }
        ensures epochs { IfEpoch result (FindsEpoch O.told (view worker.old).turn
            (view worker.new).turn) }
        ensures later { (d : Done) → result ≡ Protected.Done d → epoch_seen (view worker.old).turn ≤ d.epoch }
        ensures epoch { (view worker.new).turn.epoch ≡ (view worker.old).turn.epoch }
        ensures loads { (view worker.new).turn.loads ≡ (view worker.old).turn.loads }
    {
        let mut held = self.counters.take(rt, worker);
        match permit_in(&held.book, link, clear) {
            PermitReply::Refused(fault, epoch) => {
                self.counters.give(worker, held);
                Protected::Refused(fault, epoch)
            }
            PermitReply::Clear => unreachable!(),
            PermitReply::Permit(permit) => {
                let answer = self.protect_under_turn(worker, &mut held, &permit, clear, out);
                self.counters.give(worker, held);
                *kept = Some(permit);
                answer
            }
        }
    }

    /// Protects a frame in clear (CCSDS 355.0-B-2, ApplySecurity): with the kept permit where that is of the frame's
    /// channel and the epoch did not go on, and else with a new one, which is kept then. Where the plan is enough for
    /// the check that fails first, the epoch beside it is 0, and nothing is looked at. Takes no memory.
    pub fn protect<R: Wait>(
        &self,
        rt: &R,
        worker: &mut Worker<O>,
        kept: &mut Option<Permit>,
        link: u8,
        clear: &[u8],
        out: &mut [u8],
    ) -> Protected
        requires ready { IsReady self.now.counters self.now.plan worker.old }
        requires kept { IsTrueIfKept kept.old (view worker.old).turn }
        requires room { length out.old ≡ FRAME_ROOM }
        ensures { ProtectsFrame O.told self.now.counters self.now.plan link clear.now out.old out.new kept.old kept.new
            result worker.old worker.new }
    {
        let channel = match frame_checks::channel(&self.plan, link, clear) {
            Err(fault) => return Protected::Refused(fault, 0),
            Ok(None) => return Protected::Clear,
            Ok(Some(channel)) => channel,
        };
        if let Some(answer) = self.protect_if_kept(rt, worker, &*kept, link, channel, clear, out) {
            return answer;
        }
        self.protect_with_new(rt, worker, kept, link, clear, out)
    }
}

impl<O: Site> Unit<O> {
    /// Draws a number below the end. An `Err` has the word or the number at or above it.
    pub(crate) fn draw_below(
        &self,
        worker: &mut Worker<O>,
        row: u16,
        end: u64,
    ) -> Result<Ticket, u64>
        requires own { IsOf self.now.counters worker.old }
        requires row { row < MOST_KEYS }
        requires end { end ≤ 2 ^ 48 }
        ensures same { KeepsTurn worker.old worker.new }
        ensures drawn { IsDrawAnswer row end result (view worker.old).numbers (view worker.new).numbers }
    {
        let armed = match self.counters.arm(worker, row, end) {
            Arm::Armed(armed) => armed,
            Arm::Exhausted(word) => return Err(word),
        };
        let ticket = self.counters.draw(worker, armed);
        let number = ticket.number();
        if number < end {
            Ok(ticket)
        } else {
            Err(number)
        }
    }

    /// Protects a frame under a permit, by steps on words alone: asks whether the clear frame has its layout, loads the
    /// epoch, draws a number and looks at the limit. Takes neither memory nor the turn.
    pub fn protect_ready(
        &self,
        worker: &mut Worker<O>,
        permit: &Permit,
        clear: &[u8],
        out: &mut [u8],
    ) -> Ready
        requires ready { IsReady self.now.counters self.now.plan worker.old }
        requires permit { IsTrueFor permit.now (view worker.old).turn }
        requires frame { IsOfPermit self.now.plan permit.now clear.now }
        requires room { length out.old ≡ FRAME_ROOM }
        ensures ready { IsReady self.now.counters self.now.plan worker.new }
        ensures same { IsSame worker.old worker.new }
        ensures step { IsReadyStep permit.now clear.now out.new result (view worker.old) (view worker.new) }
        ensures leaves { LeavesUnready result out.old out.new }
    {
        if let Err(fault) = fits(&permit.binding, clear) {
            return Ready::Refused(fault);
        }
        let epoch = self.counters.see_epoch(worker);
        if epoch != permit.epoch {
            return Ready::Stale(epoch);
        }
        let key = permit.binding.key;
        let ticket = match self.draw_below(worker, permit.row, key.end()) {
            Ok(ticket) => ticket,
            Err(number) => return Ready::Exhausted(number),
        };
        match self.counters.peek_limit(worker, ticket) {
            Ok(funded) => {
                let number = funded.number();
                let length = shield(&permit.binding, number, clear, out);
                Ready::Done(Done {
                    key,
                    number,
                    epoch,
                    length,
                })
            }
            Err(ticket) => Ready::NeedBlock(ticket),
        }
    }
}

impl<O: Site> Unit<O> {
    /// Protects a frame under a permit of the held book.
    pub(crate) fn protect_under_turn(
        &self,
        worker: &mut Worker<O>,
        held: &mut Held<SharedBook<O>>,
        permit: &Permit,
        clear: &[u8],
        out: &mut [u8],
    ) -> Protected
        requires own { IsOf self.now.counters worker.old }
        requires turn { (view worker.old).turn.holds ≡ true }
        requires filled { (view worker.old).turn.filled ≡ true }
        requires marks { LowersNoMark (view worker.old).turn.known
            (known_of_book held.old.book) }
        requires place { place_of held.old.book.state.keys permit.now.binding.key ≡ Some permit.now.row }
        requires row { permit.now.row < MOST_KEYS }
        requires binding { IsBinding permit.now.binding }
        requires kept { IsKept O.told held.old.book }
        requires room { length out.old ≡ FRAME_ROOM }
        ensures same { IsSame worker.old worker.new }
        ensures kept { IsKept O.told held.new.book }
        ensures goes_on { GoesUp held.old.book held.new.book }
        ensures step { IsFinished permit.now clear.now out.new result held.old.book held.new.book
            (view worker.old) (view worker.new) }
        ensures leaves { LeavesUnprotected result out.old out.new }
    {
        let key = permit.binding.key;
        if let Err(fault) = fits(&permit.binding, clear) {
            return Protected::Refused(fault, permit.epoch);
        }
        let ticket = match self.draw_below(worker, permit.row, key.end()) {
            Ok(ticket) => ticket,
            Err(number) => return Protected::Exhausted(key, number, permit.epoch),
        };
        let funded = match self.reserve_and_spend(worker, held, key, permit.row, ticket) {
            Ok(funded) => funded,
            Err(fault) => return Protected::Fault(fault, held.book.count()),
        };
        let number = funded.number();
        let length = shield(&permit.binding, number, clear, out);
        Protected::Done(Done {
            key,
            number,
            epoch: permit.epoch,
            length,
        })
    }
}

impl<O: Site> Unit<O> {
    /// Reserves the ticket's number in the held book, and spends it.
    pub(crate) fn reserve_and_spend(
        &self,
        worker: &mut Worker<O>,
        held: &mut Held<SharedBook<O>>,
        key: KeyId,
        row: u16,
        ticket: Ticket,
    ) -> Result<Funded, BookFault>
        requires own { IsOf self.now.counters worker.old }
        requires turn { (view worker.old).turn.holds ≡ true }
        requires filled { (view worker.old).turn.filled ≡ true }
        requires marks { LowersNoMark (view worker.old).turn.known
            (known_of_book held.old.book) }
        requires row { row < MOST_KEYS }
        requires place { place_of held.old.book.state.keys key ≡ Some row }
        requires ticket { (ticket.0 ≡ row) × (ticket.1 < end_of key) × ((view worker.old).numbers.last ≡ Some ticket) }
        ensures same { IsSame worker.old worker.new }
        ensures was_kept { IsKept O.told held.old.book }
        ensures kept { IsKept O.told held.new.book }
        ensures goes_on { GoesUp held.old.book held.new.book }
        ensures funded { IsFunded key row ticket.1 result held.old.book held.new.book (view worker.old)
            (view worker.new) }
    {
        let number = ticket.number();
        held.book.reserve(key, number)?;
        self.counters.lift(worker, held, row);
        let Ok(funded) = self.counters.peek_limit(worker, ticket) else {
            unreachable!()
        };
        Ok(funded)
    }

    /// Finishes a frame whose number was drawn under the permit, and came back: reserves its block under the turn.
    pub fn fund<R: Wait>(
        &self,
        rt: &R,
        worker: &mut Worker<O>,
        permit: &Permit,
        ticket: Ticket,
        clear: &[u8],
        out: &mut [u8],
    ) -> Result<Done, (BookFault, u64)>
        requires ready { IsReady self.now.counters self.now.plan worker.old }
        requires permit { IsTrueFor permit.now (view worker.old).turn }
        requires frame { IsOfPermit self.now.plan permit.now clear.now }
        requires fits { clear_fault permit.now.binding clear.now ≡ None }
        requires ticket { (ticket.0 ≡ permit.now.row) × (ticket.1 < end_of permit.now.binding.key) × (0 < ticket.1)
            × ((view worker.old).numbers.last ≡ Some ticket) }
        requires epoch { (view worker.old).turn.epoch ≡ permit.now.epoch }
        requires room { length out.old ≡ FRAME_ROOM }
        ensures ready { IsReady self.now.counters self.now.plan worker.new }
        ensures same { IsSame worker.old worker.new }
        ensures step { IsFundStep O.told permit.now ticket.1 clear.now out.new result
            (view worker.old) (view worker.new) }
        ensures leaves { OnErr result (out.new ≡ out.old) }

        // No number was spent by the worker that is not below its row's mark in the book that the call found.
        ensures covered { FindsCovered O.told (view worker.old) (view worker.new) }
    {
        let mut held = self.counters.take(rt, worker);
        held.book.look();
        let key = permit.binding.key;
        let funded = match self.reserve_and_spend(worker, &mut held, key, permit.row, ticket) {
            Ok(funded) => funded,
            Err(fault) => {
                let count = held.book.count();
                self.counters.give(worker, held);
                return Err((fault, count));
            }
        };
        self.counters.give(worker, held);
        let number = funded.number();
        let length = shield(&permit.binding, number, clear, out);
        Ok(Done {
            key,
            number,
            epoch: permit.epoch,
            length,
        })
    }
}
