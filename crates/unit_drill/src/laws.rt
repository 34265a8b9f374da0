//! The laws of drills.
ghost use Rattle.std.specs.Prelude.{◌≡◌, ◌≤◌, ℕ, List, Ok};
ghost use Rattle.unit_plan.specs.Plan.{plan_of};
ghost use Rattle.record_io.specs.declared.answers.Answer.{Answer};
ghost use Rattle.unit_drill.specs.declared.counts.Counts.{Counts};
ghost use Rattle.unit_drill.specs.Chunks.{HandlesDrill};
ghost use Rattle.unit_drill.specs.Drilled.{IsComplete, IsDrilled};
ghost use Rattle.unit_drill.specs.LinkChunks.{HandlesLinkDrill};
ghost use Rattle.unit_drill.specs.OverLink.{IsLinkComplete, IsLinkDrilled};
ghost use Rattle.unit_drill.specs.Plans.{receiver_lines, receiver_plan, sender_lines, sender_plan};
ghost use Rattle.command_words.specs.declared.reading.TheConstants.{MOST_FRAMES};

use frame_shield::opens_once;
use unit_image::shows_one;

/// Law: the texts of both units are plans, and this is what their lines say.
pub fn plans_are_read()
    ensures sender { plan_of sender_plan ≡ Ok sender_lines }
    ensures receiver { plan_of receiver_plan ≡ Ok receiver_lines }
{}

/// Law: if no answer of a drill says that memory ran out, each of its frames was protected and accepted, and the first
/// of each chunk rejected the second time.
pub fn drill_is_complete()
    ensures { (number : ℕ) (answers : List Answer) (counts : Counts) → number ≤ MOST_FRAMES
        → HandlesDrill number answers counts → IsComplete number answers counts }
{
    opens_once();
    shows_one();
}

/// Law: what the one worker of each unit did, chunk by chunk, were two sound runs with the records of a drill.
pub fn drill_is_sound()
    ensures { (number : ℕ) (answers : List Answer) (counts : Counts) → number ≤ MOST_FRAMES
        → HandlesDrill number answers counts → IsDrilled number counts }
{
    drill_is_complete();
}

/// Law: if no answer of a drill over a link says that memory ran out, each of its frames was protected; those of them
/// that the link loses are lost, and each of the others is accepted or rejected as often as it arrives.
pub fn link_drill_is_complete()
    ensures { (number : ℕ) (answers : List Answer) (counts : Counts) → number ≤ MOST_FRAMES
        → HandlesLinkDrill number answers counts → IsLinkComplete number answers counts }
{
    opens_once();
    shows_one();
}

/// Law: what the one worker of each unit did, chunk by chunk, were two sound runs with the records of a drill over a
/// link.
pub fn link_drill_is_sound()
    ensures { (number : ℕ) (answers : List Answer) (counts : Counts) → number ≤ MOST_FRAMES
        → HandlesLinkDrill number answers counts → IsLinkDrilled number counts }
{
    link_drill_is_complete();
}
