//! Laws of the checks.
ghost use Rattle.std.specs.Prelude.{◌≡◌, ℕ, List};
ghost use Rattle.unit_plan.specs.PlanLines.{PlanLines};
ghost use Rattle.unit_state.specs.declared.state.State.{State};
ghost use Rattle.unit_state.specs.Restart.{still};
ghost use Rattle.frame_checks.specs.declared.opening_frames.OpenReply.{OpenReply};
ghost use Rattle.frame_checks.specs.Accepting.{MayBeAccepted, OnAccepted};
ghost use Rattle.frame_checks.specs.OpeningFrames.{IsOpenReply};
ghost use Rattle.frame_checks.specs.ProtectingFrames.{protect_check};
ghost use Rattle.frame_checks.specs.declared.opening_frames.Opener.{Opener};
ghost use Rattle.frame_checks.specs.Trying.{IsOpener};

use unit_state::serve_alike;

/// Law: states that differ in marks, floors and accepted numbers alone bind each frame alike.
pub fn binding_stays()
    ensures { (plan : PlanLines) (one other : State) (link : ℕ) (clear : List ℕ) → still one ≡ still other
        → protect_check plan one link clear ≡ protect_check plan other link clear }
{
    serve_alike();
}

/// Law: and what opens frames in the one opens them in the other.
pub fn opener_stays()
    ensures { (plan : PlanLines) (one other : State) (opener : Opener) → still one ≡ still other
        → IsOpener plan one opener → IsOpener plan other opener }
{
    serve_alike();
}

/// Law: a number that is accepted is one that the state allows the association to accept with the key.
pub fn accepted_may_be()
    ensures { (plan : PlanLines) (state : State) (link : ℕ) (frame : List ℕ) (reply : OpenReply) (field : List ℕ)
        → IsOpenReply plan state link frame reply field → OnAccepted reply (MayBeAccepted state) }
{}
