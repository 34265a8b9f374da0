// The commands of the key and association management.
ghost use Rattle.std.specs.Prelude.{◌≡◌, ◌≤◌, ⊤, IsTrue, IfOk, IfErr, MatchResult};
ghost use Rattle.unit_state.specs.State.{KeepsRules};
ghost use Rattle.unit_state.specs.Applied.{applied};
ghost use Rattle.unit_state.specs.Allows.{Allows};
ghost use Rattle.unit_state.specs.Laws.{IsNoMarks};
ghost use Rattle.run_promise.specs.History.{IsNeedOf, IsStepOf};
ghost use Rattle.unit_book.specs.Marks.{KeepsMarks};
ghost use Rattle.unit_book.specs.Book.{IsKept, IsNextState};
ghost use Rattle.unit_book.specs.LeavesBook.{LeavesBook, IsCalm, TellsRise};
ghost use Rattle.unit_book.specs.Records.{Handles, LeavesNoOctets, RefusesMessage};
ghost use Rattle.ep_core.specs.declared.judging.Need.{Need};
ghost use Rattle.ep_core.specs.Seen.{MeetsNeed};

use crate::book::{Book, Next};
use crate::fault::BookFault;
use ep_codec::{PduError, read_pdu};
use ep_core::{Need, Refusal, Reply, changes_are_allowed, judge, plan_change};
use sdls_base::{Change, Entry, NoMemory, Seen};
use sdls_outside::Site;
use std::alloc::Global;
use unit_state::State;

/// What the message in these octets changes in a state, and the reply to it.
fn step_of(
    alloc: Global,
    state: &State,
    pdu: &[u8],
    seen: &Seen,
) -> Result<(Change, Reply), NoMemory>
    requires rules { KeepsRules state.now }
    requires seen { (need : Need) → IsNeedOf state.now pdu.now need → MeetsNeed state.now need seen.now }
    ensures step { IfOk result (IsStepOf state.now pdu.now seen.now) }
    ensures allowed { IfOk result (λ step. Allows state.now step.0) }
    ensures numbers { IfOk result (λ step. IsNoMarks step.0) }
{
    changes_are_allowed();
    match read_pdu(alloc, pdu) {
        Ok(command) => match plan_change(alloc, state, &command, seen) {
            Ok(step) => Ok(step),
            Err(NoMemory) => Err(NoMemory),
        },
        Err(PduError::Fault(offset)) => {
            let refusal = Refusal::PduFault(offset);
            let reply = Reply::Refused {
                code: refusal.code(),
                value: refusal.value(),
            };
            Ok((Change::Nothing, reply))
        }
        Err(PduError::NoMemory) => Err(NoMemory),
    }
}

/// The state after a change, made on a copy.
fn apply_to_copy(state: &State, change: &Change) -> Result<Next, NoMemory>
    requires { Allows state.now change.now }
    ensures { IfOk result (IsNextState state.now change.now) }
{
    if matches!(change, Change::Nothing) {
        return Ok(Next::Here);
    }
    let mut next = state.copy()?;
    next.apply(change)?;
    Ok(Next::Then(next))
}

impl<O: Site> Book<O> {
    /// What has to be seen of a key's numbers before the message in these octets is handled. Octets that are no message
    /// need nothing.
    pub fn need(&self, pdu: &[u8]) -> Result<Need, NoMemory>
        requires { KeepsRules self.now.state }
        ensures { IfOk result (IsNeedOf self.entry.now.state pdu.now) }
    {
        match read_pdu(*self.entries.allocator(), pdu) {
            Ok(command) => Ok(judge(&self.state, &command)),
            Err(PduError::Fault(_)) => Ok(Need::Nothing),
            Err(PduError::NoMemory) => Err(NoMemory),
        }
    }

    /// Handles the record with this number, whose octets are a message of a command, with what was seen of a key's
    /// numbers (CCSDS 355.1-B-1). Answers the reply and its position. A refused command makes an entry too.
    ///
    /// Memory is asked for before the first call on the site: the change is made on a copy of the state, which takes
    /// the state's place once the change is stored.
    pub fn command(&mut self, index: u64, pdu: &[u8], seen: Seen) -> Result<(Reply, u64), BookFault>
        requires kept { IsKept O.told self.old }
        requires seen { (need : Need) → IsNeedOf self.old.state pdu.now need → MeetsNeed self.old.state need seen }
        ensures kept { IsKept O.told self.new }
        ensures made { MatchResult result
            (λ answer. Handles index pdu.now seen self.old self.new answer.0 answer.1)
            (RefusesMessage index pdu.now seen self.old self.new) }
        // After a Destroy the keys' octets are gone: no image that a crash may leave holds them any more, in its banks
        // or, if the opening left nothing but a plan outside these, anywhere.
        ensures gone { IsTrue O.told → IfOk result (λ _. LeavesNoOctets self.old self.new) }
        ensures goes_on { LeavesBook self.old self.new }
        ensures marks { KeepsMarks self.old.state self.new.state }
        ensures risen { IfErr result (TellsRise self.new) }
        ensures puts { self.new.site.put_faults ≡ self.old.site.put_faults }
        ensures later { self.old.site.faults ≤ self.new.site.faults }
        ensures calm { IsCalm self.old self.new }
    {
        self.may_enter()?;
        let Ok((change, reply)) = step_of(*self.entries.allocator(), &self.state, pdu, &seen) else {
            return Err(BookFault::NoMemory);
        };
        let Ok(next) = apply_to_copy(&self.state, &change) else {
            return Err(BookFault::NoMemory);
        };
        let entry = Entry {
            index: Some(index),
            seen,
            change,
        };
        match self.commit(entry, next) {
            Ok(position) => Ok((reply, position)),
            Err(fault) => Err(fault),
        }
    }
}
