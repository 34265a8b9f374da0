//! Laws of what a state decides, and of the legal history of a run.
ghost use Rattle.std.specs.Prelude.{◌≡◌, ℕ, List, ◌≤◌, length};
ghost use Rattle.sdls_base.specs.declared.entry.Change.{Change};
ghost use Rattle.sdls_base.specs.declared.entry.Seen.{Seen};
ghost use Rattle.sdls_base.specs.declared.entry.Entry.{Entry};
ghost use Rattle.unit_plan.specs.PlanLines.{PlanLines};
ghost use Rattle.unit_state.specs.declared.state.State.{State};
ghost use Rattle.unit_state.specs.State.{KeepsRules};
ghost use Rattle.unit_state.specs.History.{after_first};
ghost use Rattle.frame_checks.specs.declared.opening_frames.OpenReply.{OpenReply};
ghost use Rattle.frame_checks.specs.OpeningFrames.{IsOpenReply};
ghost use Rattle.record_io.specs.Places.{Place};
ghost use Rattle.run_promise.specs.History.{frame_change, IsNeedOf, IsStepOf, IsLegalHistory};
ghost use Rattle.run_promise.specs.Answers.{opened_told};
ghost use Rattle.ep_core.specs.declared.judging.Need.{Need};
ghost use Rattle.ep_core.specs.declared.refusal.Reply.{Reply};

use frame_shield::opens_once;

/// Law: the checks of a frame that is opened tell one answer and one change.
pub fn openings_tell_one()
    ensures { (plan : PlanLines) (state : State) (link : ℕ) (frame : List ℕ) (reply other : OpenReply)
        (field again : List ℕ)
        → IsOpenReply plan state link frame reply field → IsOpenReply plan state link frame other again
        → (opened_told reply field ≡ opened_told other again)
        × (frame_change plan state reply ≡ frame_change plan state other) }
{
    opens_once();
}

/// Law: the need of a message is one by the state and the message.
pub fn messages_need_one()
    ensures { (state : State) (octets : List ℕ) (need other : Need) → IsNeedOf state octets need
        → IsNeedOf state octets other
        → need ≡ other }
{}

/// Law: the step of a message, its change and its reply, is one by the state, the message and what was seen.
pub fn messages_have_one_step()
    ensures { (state : State) (octets : List ℕ) (seen : Seen) (step other : Change × Reply) → KeepsRules state
        → IsStepOf state octets seen step → IsStepOf state octets seen other → step ≡ other }
{}

/// Law: each state of a legal history keeps the rules.
pub fn rules_stay_along()
    ensures { (plan : PlanLines) (start : State) (places : List Place) (entries : List Entry)
        → IsLegalHistory plan start places entries
        → (p : ℕ) → p ≤ length entries → KeepsRules (after_first start entries p) }
{}
