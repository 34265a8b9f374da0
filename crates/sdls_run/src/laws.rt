//! The laws that join `stat` and `audit` to the lives of a unit.
ghost use Rattle.std.specs.Prelude.{◌≡◌, ◌≢◌, ◌⊎◌, ◌≤◌, ℕ, Bool, IsTrue, List, [], length, take};
ghost use Rattle.std.specs.List.{All};
ghost use Rattle.sdls_outside.specs.Faults.{Rose};
ghost use Rattle.sdls_outside.specs.Moments.{Trace};
ghost use Rattle.sdls_outside.specs.Output.{OnlySinks, Sinks};
ghost use Rattle.record_io.specs.declared.answers.Answer.{Answer};
ghost use Rattle.record_io.specs.declared.status.TheConstants.{DONE, NO_MEMORY};
ghost use Rattle.record_io.specs.Input.{MOST_OCTETS};
ghost use Rattle.run_promise.specs.Life.{IsBeginning, IsLife, LifeRun, KeepsLivesReading};
ghost use Rattle.pair_audit.specs.Audit.{acceptances_in, uses_in};
ghost use Rattle.pair_audit.specs.Recording.{RunsCount, recording};
ghost use Rattle.law_audit.specs.Recorded.{SankFew, sunk_by};
ghost use Rattle.cli_audit.specs.Ends.{EndsAudit};
ghost use Rattle.cli_audit.specs.Text.{clean_text};
ghost use Rattle.run_promise.specs.Call.{CallSeen, image_at_entry};
ghost use Rattle.cli_image.specs.Stat.{EndsStat};
ghost use Rattle.sdls_run.specs.Called.{AreLife, MayLeave, PastCall};

use law_audit::recorded_life_is_clean;
use law_runs::{
    no_records_are_sound, reading_keeps_lives, sound_reading_keeps_lives, used_once_in_a_life,
};

/// Law: a call that ends as `stat` does, and makes no entry, continues each life that left the image at its entry.
pub fn stat_keeps_lives()
    ensures { (call : CallSeen) → call.entries ≡ []
        → EndsStat call.told call.site.trace call.site_after.trace (Rose call.site.faults call.site_after.faults)
        call.status
        → KeepsLivesReading call }
{
    reading_keeps_lives();
}

/// Law: a call that makes no entry, and does nothing to an image that stands but to write output, continues each life
/// that left the image at its entry.
pub fn sinking_keeps_lives()
    ensures { (call : CallSeen) → call.entries ≡ []
        → (IsTrue call.told → image_at_entry call ≢ [] → OnlySinks call.site.trace call.site_after.trace)
        → KeepsLivesReading call }
{
    no_records_are_sound();
    sound_reading_keeps_lives();
}

/// Law: calls of the program one after the other, with whatever words, are a life of the unit. The first was entered
/// with an image with which a life may begin, each other with what those before it may leave, after a crash at any
/// moment. Their answers are those of the life, each of whose runs is sound, and the image is the one that it left.
pub fn calls_are_a_life()
    ensures { (first image : List ℕ) (calls : List PastCall) → IsBeginning first → MayLeave first calls image
        → AreLife first calls image }
{
    used_once_in_a_life();
}

/// Law: of the runs of a life that were kept, an audit of what they sank ends with the line that all is well and status
/// 0, or out of memory with status 6, if neither the source nor the site fails.
pub fn audit_passes_a_life()
    ensures { (image : List ℕ) (runs : List LifeRun) (kept : LifeRun → Bool) (told : Bool) (old new : Trace)
        (status : ℕ) → IsLife image runs → All SankFew runs
        → length (recording (sunk_by kept runs)) ≤ MOST_OCTETS
        → EndsAudit (λ input. input ≡ take MOST_OCTETS (recording (sunk_by kept runs))) ⊥ told old new ⊥ status
        → ((answers : List Answer) × RunsCount (sunk_by kept runs) answers × (status ≡ DONE)
        × (IsTrue told → Sinks (clean_text (length (sunk_by kept runs)) (uses_in answers) (acceptances_in answers))
        old new)) ⊎ (status ≡ NO_MEMORY) }
{
    recorded_life_is_clean();
}
