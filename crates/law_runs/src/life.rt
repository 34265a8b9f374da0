//! Laws of lives, of whole runs in them, of calls that did the same, and of what the status of a call says.
ghost use Rattle.std.specs.Prelude.{ℕ, IsTrue, List, [], ◌≡◌, ◌⊎◌, ◌≤◌, length, take, Bool, ◌+◌, ◌<◌, ◌++◌, ◌≢◌};
ghost use Rattle.std.specs.List.{All, AllPairs, slice_index_or};
ghost use Rattle.sdls_base.specs.declared.entry.Entry.{Entry};
ghost use Rattle.sdls_outside.specs.Faults.{Rose};
ghost use Rattle.unit_plan.specs.PlanLines.{PlanLines};
ghost use Rattle.unit_state.specs.declared.state.State.{State};
ghost use Rattle.unit_image.specs.Image.{IsAtRest};
ghost use Rattle.unit_image.specs.Shows.{Shows, ShowsNone};
ghost use Rattle.unit_image.specs.declared.opening_image.OpenFault.{OpenFault};
ghost use Rattle.record_io.specs.Places.{records_of};
ghost use Rattle.record_io.specs.declared.status.TheConstants.{DONE, MALFORMED, SITE_FAULT, NO_MEMORY, SESSION_FULL};
ghost use Rattle.record_io.specs.Reading.{SourceSeen};
ghost use Rattle.record_io.specs.declared.answers.Answer.{Answer};
ghost use Rattle.run_promise.specs.Life.{given_in, IsBeginning, IsInitial, IsLife, left_by, LifeRun, OnceInLife};
ghost use Rattle.run_promise.specs.Life.{KeepsLives, KeepsLivesReading, no_account, EndsAndLives};
ghost use Rattle.run_promise.specs.Answers.{Accepts, Uses, SaysSiteFailed};
ghost use Rattle.run_promise.specs.Sound.{IsSound};
ghost use Rattle.run_promise.specs.Call.{CallSeen, ShowsAtEntry, image_at_entry, SiteSeen};
ghost use Rattle.run_promise.specs.Account.{Account, begin_of, course_of, AnsweredEach, deeds_in, due_octets};
ghost use Rattle.run_promise.specs.Account.{end_status};
ghost use Rattle.run_promise.specs.Ends.{IsSoundCall, RunEnds};
ghost use Rattle.run_promise.specs.OneLane.{OneLane};
ghost use Rattle.run_promise.specs.declared.end.RunEnd.{RunEnd};
ghost use Rattle.run_promise.specs.declared.end.RunEnd.TheVariants as ends;
ghost use Rattle.unit_book.specs.Book.{BookView};
ghost use Rattle.counter_table.specs.declared.view.View.{View};
ghost use Rattle.law_runs.specs.Known.{IsBelowMarks, IsShown, IsWithinFloors, Knows, LeavesKnowing};
ghost use Rattle.law_runs.specs.Reads.{ReadsSoundly, ReadsAlone};
ghost use Rattle.law_runs.specs.Says.{AnswersAlike, EndAlike, FrontsAlike, NoneFails, NoneWants, RunsAlike, DidAll};
ghost use Rattle.law_runs.specs.Says.{GoesToItsEnd, EndsWithFullHistory, IsLeftRefused, IsUnhindered, StopsBehind};
ghost use Rattle.law_runs.specs.Ending.{Finishes};
ghost use Rattle.law_runs.specs.Ran.{Ran};
ghost use Rattle.law_runs.specs.Refused.{Refused};

use law_history::rules_stay_along;
use law_image::{refused_exactly, shown_keeps_rules};
use law_workers::served_once;
use record_io::input_reads_once;
use unit_image::{refused_with_one, shows_one};

/// Law: a life may begin with the image that `init` makes of a plan, with each image at rest that shows a state, of
/// version 1 or 2, and with what another life left.
pub fn life_may_begin()
    ensures made { (image : List ℕ) → IsInitial image → IsBeginning image }
    ensures rests { (image : List ℕ) (state : State) → Shows image state → IsAtRest image → IsBeginning image }
    ensures left { (image : List ℕ) (runs : List LifeRun) → IsLife image runs → IsBeginning (left_by image runs) }
{
    shows_one();
}

/// Law: in every life no two answers of all runs use one number under one key, and no two accept one, by identifier or
/// by octets.
pub fn used_once_in_a_life()
    ensures { (image : List ℕ) (runs : List LifeRun) → IsLife image runs → OnceInLife runs }
{
    shows_one();
}

/// Law: the image that a life left shows a state, and so does each of its opened forms; each state that these show
/// knows each answer of the life: numbers used are below its marks, and those accepted at most its floors.
pub fn covered_in_a_life()
    ensures shown { (image : List ℕ) (runs : List LifeRun) → IsLife image runs
        → LeavesKnowing (left_by image runs) (given_in runs) }
    ensures known { (image : List ℕ) (runs : List LifeRun) → IsLife image runs → (state : State)
        → IsShown (left_by image runs) state
        → All (Knows state) (given_in runs) }
{
    shows_one();
}

/// Law: what the marks and floors of its first image cover, a life uses and accepts no more. These are the numbers
/// below the mark of a key, and up to its floor, in each state that the image or one of its opened forms shows.
pub fn covered_before_a_life()
    ensures used { (image : List ℕ) (runs : List LifeRun) (key number : ℕ) → IsLife image runs
        → IsBelowMarks image key number → All (λ given. ¬ Uses given.deed.answer key number) (given_in runs) }
    ensures accepted { (image : List ℕ) (runs : List LifeRun) (key number : ℕ) → IsLife image runs
        → IsWithinFloors image key number → All (λ given. ¬ Accepts given.deed.answer key number) (given_in runs) }
{
    shows_one();
}

/// Law: a call that is sound from each state that the image at its entry shows continues each life that left that
/// image: the life left one that shows a state.
pub fn sound_call_keeps_lives()
    ensures { (call : CallSeen) (account : Account)
        → (IsTrue call.told → (plan : PlanLines) (state : State) → ShowsAtEntry call plan state
        → IsSoundCall call account plan state)
        → KeepsLives call account }
{
    used_once_in_a_life();
    covered_in_a_life();
}

/// Law: so does a call that reads the image and stores nothing, if a run without records is sound.
pub fn sound_reading_keeps_lives()
    ensures { (call : CallSeen)
        → ((plan : PlanLines) (state : State) → ShowsAtEntry call plan state
        → IsSound (course_of call (no_account call) plan state) [] [])
        → (IsTrue call.told → (plan : PlanLines) (state : State) → ShowsAtEntry call plan state
        → ReadsSoundly call plan state)
        → KeepsLivesReading call }
{
    used_once_in_a_life();
    covered_in_a_life();
}

/// Law: two calls with one input and one status, 0 or 3, handled the same records, and answered each.
pub fn one_input_is_handled_alike()
    ensures { (call other : CallSeen) (run : RunEnds call) (again : RunEnds other) → other.status ≡ call.status
        → (call.status ≡ DONE) ⊎ (call.status ≡ MALFORMED)
        → IsTrue call.source.told → IsTrue other.source.told → other.source.left ≡ call.source.left
        → (again.account.handled ≡ run.account.handled) × AnsweredEach run.account × AnsweredEach again.account
        × (again.account.named ≡ run.account.named) }
{
    input_reads_once();
}

/// Law: two calls over one image that handled the same records, all of one lane, and answered each, have the same
/// answers, if none of these names a fault of the site or lack of memory: whatever the statuses. If the site failed in
/// neither, not even at a release, they have the same entries too.
pub fn one_lane_answers_alike()
    ensures { (call other : CallSeen) (run : RunEnds call) (again : RunEnds other) (plan : PlanLines) (state : State)
        → AnsweredEach run.account → AnsweredEach again.account → IsTrue call.told → IsTrue other.told
        → image_at_entry other ≡ image_at_entry call → ShowsAtEntry call plan state
        → again.account.handled ≡ run.account.handled → OneLane (records_of run.account.handled)
        → NoneFails run.account.answers → NoneFails again.account.answers
        → AnswersAlike call other run.account again.account }
{
    served_once();
    rules_stay_along();
    shows_one();
    refused_with_one();
}

/// Law: two calls over one image that handled the same records, all of one lane, give the same answers as far as both
/// have answers and none of these names a fault of the site or lack of memory. So far they made the same entries, with
/// which both histories begin. So it is whatever the statuses, and also where the disk failed later, or a full history,
/// or a put that failed, left records without answers.
pub fn one_lane_fronts_alike()
    ensures { (call other : CallSeen) (run : RunEnds call) (again : RunEnds other) (plan : PlanLines) (state : State)
        → IsTrue call.told → IsTrue other.told
        → image_at_entry other ≡ image_at_entry call → ShowsAtEntry call plan state
        → again.account.handled ≡ run.account.handled → OneLane (records_of run.account.handled)
        → (n : ℕ) → n ≤ length run.account.answers → n ≤ length again.account.answers
        → NoneFails (take n run.account.answers) → NoneFails (take n again.account.answers)
        → FrontsAlike call other run.account again.account plan state n }
{
    served_once();
    rules_stay_along();
    shows_one();
    refused_with_one();
}

/// Law: two calls over one image with one input, all of one lane, have the same answers and the same entries, and the
/// same octets are due, if memory sufficed for each record. Both have status 0, or both have status 3 and the site did
/// not fail, or both have status 4 with one count of faults of the source behind the same records.
pub fn one_lane_runs_alike()
    ensures { (call other : CallSeen) (run : RunEnds call) (again : RunEnds other) (plan : PlanLines) (state : State)
        → EndAlike call other run.account again.account → IsTrue call.source.told → IsTrue other.source.told
        → IsTrue call.told
        → IsTrue other.told → other.source.left ≡ call.source.left → image_at_entry other ≡ image_at_entry call
        → ShowsAtEntry call plan state → OneLane (records_of run.account.handled)
        → NoneWants run.account.answers → NoneWants again.account.answers
        → RunsAlike call other run.account again.account }
{
    one_input_is_handled_alike();
    one_lane_answers_alike();
}

/// Law: a call whose book was opened, whose records one worker served, and which released its keys and put End, ends as
/// a run ends, and continues each life that left the image at its entry.
pub fn run_ends_well()
    ensures { (told : Bool) (site after : SiteSeen) (source source_after : SourceSeen) (first now : View)
        (came : RunEnd) (book : BookView) (words : List ℕ) (entries : List Entry) (status : ℕ)
        → Ran told site source source_after first now came book words
        → (end : Finishes told site.faults words came book after entries status)
        → EndsAndLives (record {
          source = source;
          source_after = source_after;
          told = told;
          site = site;
          site_after = after;
          status = status;
          entries = entries;
        }) }
{
    shows_one();
    refused_with_one();
    sound_call_keeps_lives();
}

/// Law: a call whose book was not opened, which took nothing of its source and put End alone, ends as a run ends, and
/// continues each life that left the image at its entry.
pub fn refused_run_ends()
    ensures { (told : Bool) (site back after : SiteSeen) (source : SourceSeen) (fault : OpenFault) (status : ℕ)
        → Refused told site back after fault status
        → EndsAndLives (record {
          source = source;
          source_after = source;
          told = told;
          site = site;
          site_after = after;
          status = status;
          entries = [];
        }) }
{
    shows_one();
    refused_with_one();
    refused_exactly();
    shown_keeps_rules();
    sound_call_keeps_lives();
}

/// Law: a run without records is sound, where the image at the entry shows a state.
pub fn no_records_are_sound()
    ensures { (call : CallSeen) (account : Account) (plan : PlanLines) (state : State) → ShowsAtEntry call plan state
        → call.entries ≡ []
        → IsSound (course_of call account plan state) [] [] }
{
    shown_keeps_rules();
}

/// Law: a call that reads an image and stores nothing continues each life that left the image at its entry, as a run
/// without records.
pub fn reading_keeps_lives()
    ensures { (call : CallSeen) → call.entries ≡ [] → ReadsAlone call → KeepsLivesReading call }
{
    shows_one();
    no_records_are_sound();
    sound_reading_keeps_lives();
}

/// Law: status 0 says that all was read, answered and put.
pub fn zero_says_all()
    ensures { (call : CallSeen) (run : RunEnds call) → call.status ≡ DONE → DidAll call run }
{}

/// Law: where no put failed, all that is due was put, and the status is that of the end.
pub fn due_is_put()
    ensures { (call : CallSeen) (run : RunEnds call) → call.site_after.put_faults ≡ call.site.put_faults
        → (call.status ≡ end_status run.account.named) × (IsTrue call.told
        → call.site_after.trace.now.sunk ≡ call.site.trace.now.sunk ++ due_octets call run.account) }
{}

/// Law: an answer that names a fault of the site makes the status that of a fault of the site.
pub fn faults_are_told()
    ensures { (call : CallSeen) (run : RunEnds call) (k : ℕ) (default : Answer) → k < length run.account.answers
        → SaysSiteFailed (slice_index_or run.account.answers k default) → call.status ≡ SITE_FAULT }
{}

/// Law: behind an answer that says that the site failed, in turn, each frame to be opened and each command is answered
/// that no entry was made of it.
pub fn no_entry_behind_a_fault()
    ensures { (call : CallSeen) (run : RunEnds call) (plan : PlanLines) (state : State) → IsTrue call.told
        → ShowsAtEntry call plan state → AllPairs StopsBehind (deeds_in run.account) }
{
    shows_one();
    refused_with_one();
}

/// Law: after a fault of the disk the run goes on: with the status of a fault of the site and at least one entry, where
/// no put failed and memory sufficed, the input was read to its end.
pub fn goes_to_its_end()
    ensures { (call : CallSeen) (run : RunEnds call) → call.site_after.put_faults ≡ call.site.put_faults
        → call.status ≡ SITE_FAULT
        → call.entries ≢ [] → run.account.came ≢ ends.NoMemory → GoesToItsEnd call run }
{}

/// Law: with another status than that of a fault of the site or of a full history, the end that is told is the one that
/// came.
pub fn status_tells_what_came()
    ensures { (call : CallSeen) (run : RunEnds call) → call.status ≢ SITE_FAULT → call.status ≢ SESSION_FULL
        → (run.account.named ≡ run.account.came) × (call.status ≡ end_status run.account.came) }
{}

/// Law: the status of a full history says that it is full.
pub fn full_is_told()
    ensures { (call : CallSeen) (run : RunEnds call) → call.status ≡ SESSION_FULL → EndsWithFullHistory call run }
{}

/// Law: the status of a fault of the site comes only where the site's count rose in the call.
pub fn status_five_has_a_fault()
    ensures { (call : CallSeen) → RunEnds call → call.status ≡ SITE_FAULT
        → Rose call.site.faults call.site_after.faults }
{}

/// Law: a refused image is not answered with status 0, and with its own status it stays as it was.
pub fn refused_stays()
    ensures { (call : CallSeen) → RunEnds call → IsTrue call.told → (offset : ℕ)
        → ShowsNone (image_at_entry call) offset
        → IsLeftRefused call }
{
    refused_with_one();
}

/// Law: a run that nothing hinders does all, or memory ran out.
pub fn unhindered_run_completes()
    ensures { (call : CallSeen) (run : RunEnds call) (plan : PlanLines) (state : State)
        → IsUnhindered call run plan state
        → (call.status ≡ DONE) ⊎ (call.status ≡ NO_MEMORY) }
{
    input_reads_once();
    shows_one();
    refused_with_one();
}
