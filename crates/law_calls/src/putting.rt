//! Laws of calls that take the turn once, draw no number and make no entry.
ghost use Rattle.std.specs.Prelude.{◌≡◌, ℕ, List, Result, length};
ghost use Rattle.sdls_base.specs.declared.TheConstants.{MOST_KEYS};
ghost use Rattle.run_promise.specs.Call.{Begin};
ghost use Rattle.unit_book.specs.declared.fault.BookFault.{BookFault};
ghost use Rattle.unit_book.specs.Book.{BookView};
ghost use Rattle.counter_table.specs.declared.view.View.{View};
ghost use Rattle.counter_table.specs.Play.{IsCovered};
ghost use Rattle.law_workers.specs.Work.{Worked};
ghost use Rattle.law_workers.specs.Settles.{SettlesAt};
ghost use Rattle.shared_unit.specs.Calls.{IsPut};
ghost use Rattle.shared_unit.specs.Told.{known_of_book};
ghost use Rattle.law_calls.specs.Visiting.{Visited};
ghost use Rattle.record_io.specs.declared.item_cursor.Record.{Record};

use sdls_outside::Site;

/// Law: who took the turn and gave back the book as it was did so with any records. So are `count` and `permit`.
pub fn visiting_works<O: Site>()
    ensures { (begin : Begin) (v w : View) (found : BookView) (tasks : List Record)
        → Visited O.told begin found found v w → Worked begin v w tasks }
{}

/// Law: who put octets did so with any records.
pub fn putting_works<O: Site>()
    ensures { (begin : Begin) (v w : View) (found given : BookView) (tasks : List Record) (octets : List ℕ)
        (result : Result (Unit {0}) BookFault) → Visited O.told begin found given v w
        → IsPut O.told octets result found given → Worked begin v w tasks }
{}

/// Law: the first put behind a segment settles its answers, where it says that no number spent is at or above its row's
/// mark.
pub fn putting_settles<O: Site>()
    ensures { (begin : Begin) (v w : View) (found given : BookView) (octets : List ℕ)
        (result : Result (Unit {0}) BookFault) → Visited O.told begin found given v w
        → IsPut O.told octets result found given
        → IsCovered MOST_KEYS v.numbers (known_of_book found)
        → SettlesAt begin v w given.standing found.standing (length found.log) }
{}
