// Laws of books: each function is a statement about the definitions, and does nothing.
ghost use Rattle.std.specs.Prelude.{◌≡◌, ℕ, ◌≤◌, Bool, List};
ghost use Rattle.unit_plan.specs.PlanLines.{PlanLines};
ghost use Rattle.unit_state.specs.declared.state.State.{State};
ghost use Rattle.unit_state.specs.State.{KeepsRules};
ghost use Rattle.unit_state.specs.Restart.{still};
ghost use Rattle.ep_core.specs.declared.judging.Need.{Need};
ghost use Rattle.run_promise.specs.Log.{entries_of};
ghost use Rattle.unit_book.specs.Marks.{HasNoRelease, KeepsMarks};
ghost use Rattle.run_promise.specs.Numbers.{mark_of};
ghost use Rattle.run_promise.specs.History.{IsNeedOf};
ghost use Rattle.unit_book.specs.Book.{BookView, IsKept};
ghost use Rattle.unit_book.specs.Needs.{NamesKey};
ghost use Rattle.unit_book.specs.Epoch.{epoch_state, ServesAlike, HasBounds};

/// Law: states that differ in marks, floors and accepted numbers alone serve alike.
pub fn states_serve_alike()
    ensures { (plan : PlanLines) (one other : State) → still one ≡ still other → ServesAlike plan one other }
{}

/// Law: a book's state and that of its epoch differ in marks, floors and accepted numbers alone, so that they serve
/// alike.
pub fn serves_at_epoch()
    ensures still { (told : Bool) (book : BookView) → IsKept told book
        → still book.state ≡ still (epoch_state book) }
    ensures served { (told : Bool) (book : BookView) → IsKept told book
        → ServesAlike book.plan book.state (epoch_state book) }
{}

/// Law: until a release, no mark is below that of the state at the opening, nor of a place nor of a key.
pub fn marks_stand()
    ensures places { (told : Bool) (book : BookView) → IsKept told book → HasNoRelease (entries_of book.log)
        → KeepsMarks book.start book.state }
    ensures keys { (told : Bool) (book : BookView) (key : ℕ) → IsKept told book
        → HasNoRelease (entries_of book.log)
        → mark_of book.start key ≤ mark_of book.state key }
{}

/// Law: of a state that keeps the rules, each key's place is below `MOST_KEYS`, and each mark lies from 1 to 2^48.
pub fn states_have_bounds()
    ensures { (state : State) → KeepsRules state → HasBounds state }
{}

/// Law: the key that a need names is there, and the number that it names lies below the key's end.
pub fn needs_name_keys()
    ensures { (state : State) (octets : List ℕ) (need : Need) → KeepsRules state → IsNeedOf state octets need
        → NamesKey state need }
{}
