//! What holds over all lists of steps.
ghost use Rattle.std.specs.Prelude.{◌<◌, ◌≤◌, ℕ, List, length};
ghost use Rattle.sdls_base.specs.Numbers.{tally};
ghost use Rattle.sdls_world.specs.declared.world.Step.{Step};
ghost use Rattle.sdls_world.specs.Core.{Core, world_after_all, beginning};
ghost use Rattle.sdls_world.specs.Kept.{IsWorldKept};

/// Law: what holds of the core at the beginning, and is kept by each step, holds after every list of steps.
#[tactic(auto, using(crate::proofs::Moments::steps_keep, crate::proofs::Moments::beginning_kept))]
pub fn kept_always()
    ensures kept { (w : Core) (steps : List Step) → IsWorldKept w → IsWorldKept (world_after_all w steps) }
    ensures beginning { (keys : List (ℕ × ℕ)) → IsWorldKept (beginning keys) }
{}

/// Law: in all lives together no pair of row and number is used twice.
#[tactic(auto, using(crate::proofs::Moments::used_differ))]
pub fn used_once()
    ensures { (keys : List (ℕ × ℕ)) (steps : List Step) (row x : ℕ) → row < length keys
        → tally row x (world_after_all (beginning keys) steps).used ≤ 1 }
{}
