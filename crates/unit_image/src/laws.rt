// Laws of images: each function is a statement about the definitions, and does nothing.
ghost use Rattle.std.specs.Prelude.{◌≡◌, ℕ, List};
ghost use Rattle.sdls_outside.specs.Moments.{Trace};
ghost use Rattle.unit_state.specs.declared.state.State.{State};
ghost use Rattle.unit_state.specs.Applied.{applied};
ghost use Rattle.unit_state.specs.Restart.{restarted};
ghost use Rattle.unit_state.specs.Laws.{StoresWell};
ghost use Rattle.book_record.specs.Record.{IsRecord};
ghost use Rattle.disk_journal.specs.Changes.{KeepsBeside};
ghost use Rattle.disk_journal.specs.Image.{Held, grown, turned, migrated};
ghost use Rattle.disk_journal.specs.Journal.{IsSettled, JournalView};
ghost use Rattle.unit_image.specs.ContentReading.{IsContent};
ghost use Rattle.unit_image.specs.Shows.{SaysState, Shows, ShowsNone};
ghost use Rattle.unit_image.specs.Storing.{LeavesRest, LeavesRestImage};
ghost use Rattle.sdls_base.specs.declared.entry.Change.{Change};
ghost use Rattle.sdls_base.specs.declared.version.Version.TheVariants.{Two};

use crate::content::one_state;
use book_record::one_change;
use disk_journal::rest_is_whole;
use unit_state::restarts_once;

/// Law: an image shows at most one state.
pub fn shows_one()
    ensures { (image : List ℕ) (one other : State) → Shows image one → Shows image other → one ≡ other }
{
    one_change();
    one_state();
}

/// Law: an image that shows a state is refused with no offset, and no image with two.
pub fn refused_with_one()
    ensures none { (image : List ℕ) (state : State) (offset : ℕ) → Shows image state → ¬ ShowsNone image offset }
    ensures one { (image : List ℕ) (one other : ℕ) → ShowsNone image one → ShowsNone image other → one ≡ other }
{
    one_change();
    one_state();
}

/// Law: what is held says a state; with the record of what is stored for a change, it says the state after that change.
pub fn says_grown()
    ensures { (what : Held) (state : State) (change stored : Change) (body : List ℕ) → SaysState what (restarted state)
        → StoresWell state change stored → IsRecord stored body
        → SaysState (grown body what) (restarted (applied state change)) }
{}

/// Law: what is held says a state; with the content of the state after a change in place of content and records, it
/// says that state.
pub fn says_turned()
    ensures { (what : Held) (state : State) (change : Change) (content : List ℕ) → SaysState what (restarted state)
        → IsContent what.version (restarted (applied state change)) content
        → SaysState (turned content what) (restarted (applied state change)) }
{
    restarts_once();
}

/// Law: what is held says a state; migrated to version 2 with the content of that state, it says it too.
pub fn says_migrated()
    ensures { (what : Held) (state : State) (content : List ℕ) → SaysState what state → IsContent Two state content
        → SaysState (migrated content what) state }
{}

/// Law: an image is as it was when it was opened, but for its banks, and of these each octet is stated. Had it then a
/// plan alone outside them, each octet of it is stated.
pub fn rest_stays_whole()
    ensures { (opened : List ℕ) (now : Trace) (journal : JournalView) (state : State) → IsSettled now journal
        → KeepsBeside journal.layout opened now.now.image → LeavesRest now journal state
        → LeavesRestImage opened now journal state }
{
    rest_is_whole();
}
