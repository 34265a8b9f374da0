//! The law.
ghost use Rattle.std.specs.Prelude.{◌≡◌, ℕ, Bool, List, [], length};
ghost use Rattle.std.specs.List.{All};
ghost use Rattle.record_io.specs.declared.answers.Answer.{Answer};
ghost use Rattle.run_promise.specs.Life.{IsLife, LifeRun};
ghost use Rattle.pair_audit.specs.Repeats.{RepeatNothing};
ghost use Rattle.pair_audit.specs.Audit.{acceptances_in, uses_in};
ghost use Rattle.pair_audit.specs.Recording.{AuditSays, ReadsRuns, RunsCount, recording};
ghost use Rattle.pair_audit.specs.declared.walk.AuditEnd.{AuditEnd};
ghost use Rattle.pair_audit.specs.declared.walk.AuditEnd.TheVariants.{Clean};
ghost use Rattle.law_audit.specs.Recorded.{SankFew, sunk_by};

use law_runs::used_once_in_a_life;
use pair_audit::{audit_says_one, fronts_count, fronts_show};

/// Law: of the runs of a life that were kept, whichever these are, the recording is in order, and the answers that it
/// counts repeat nothing.
pub fn recorded_life_repeats_nothing()
    ensures in_order { (image : List ℕ) (runs : List LifeRun) (kept : LifeRun → Bool) → IsLife image runs
        → All SankFew runs
        → (answers : List Answer) × ReadsRuns (recording (sunk_by kept runs)) (sunk_by kept runs) answers [] }
    ensures once { (image : List ℕ) (runs : List LifeRun) (kept : LifeRun → Bool) (answers : List Answer)
        → IsLife image runs → RunsCount (sunk_by kept runs) answers → RepeatNothing answers }
{
    fronts_show();
    fronts_count();
    used_once_in_a_life();
}

/// Law: what the audit of that recording says is that all is well, with the number of its runs and of the answers that
/// use and that accept a number.
pub fn recorded_life_is_clean()
    ensures { (image : List ℕ) (runs : List LifeRun) (kept : LifeRun → Bool) (end : AuditEnd) → IsLife image runs
        → All SankFew runs → AuditSays (recording (sunk_by kept runs)) end
        → (answers : List Answer) × RunsCount (sunk_by kept runs) answers
        × (end ≡ Clean (length (sunk_by kept runs)) (uses_in answers) (acceptances_in answers)) }
{
    recorded_life_repeats_nothing();
    audit_says_one();
}
