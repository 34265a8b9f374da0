//! Laws of states and changes.
ghost use Rattle.std.specs.Prelude.{◌≡◌, ℕ, ◌+◌, ◌≤◌, List, ◌++◌, Some, None};
ghost use Rattle.unit_state.specs.declared.state.State.{State};
ghost use Rattle.unit_state.specs.State.{KeepsRules};
ghost use Rattle.unit_state.specs.Applied.{applied};
ghost use Rattle.unit_state.specs.Allows.{Allows};
ghost use Rattle.unit_state.specs.Restart.{AreAlike, IsLight, IsStorable, restarted, still, stored_as};
ghost use Rattle.unit_state.specs.History.{after_all, at_epoch, epoch_after};
ghost use Rattle.unit_state.specs.Laws.{Rises, FallOnlyTo, IsNoMarks, KeepsPlaces, HaveOwnBytes, ServeAlike};
ghost use Rattle.unit_state.specs.Laws.{StoresWell};
ghost use Rattle.sdls_base.specs.declared.entry.Entry.{Entry};
ghost use Rattle.sdls_base.specs.declared.entry.Change.{Change};
ghost use Rattle.sdls_base.specs.declared.entry.Change.TheVariants.{Marks};

/// Law: a change that a state allows leaves the rules.
pub fn rules_stay()
    ensures { (state : State) (change : Change)
        → KeepsRules state → Allows state change → KeepsRules (applied state change) }
{}

/// Law: no change but that of marks moves a mark or a floor down, or takes a key away.
pub fn numbers_rise()
    ensures { (state : State) (change : Change) → IsNoMarks change → Rises state (applied state change) }
{}

/// Law: a change of marks moves a mark or a floor down only where its own is below the key's.
pub fn marks_fall_only_so()
    ensures { (state : State) (key mark floor : ℕ)
        → FallOnlyTo state (applied state (Marks key mark floor)) key mark floor }
{}

/// Law: a key keeps its place through every change.
pub fn places_stay()
    ensures { (state : State) (change : Change) → KeepsPlaces state (applied state change) }
{}

/// Law: no two keys that are there have the same octets.
pub fn octets_differ()
    ensures { (state : State) → KeepsRules state → HaveOwnBytes state.keys }
{}

/// Law: a change that moves numbers alone leaves all but numbers.
pub fn rest_stays()
    ensures { (state : State) (change : Change) → IsLight change → still (applied state change) ≡ still state }
{}

/// Law: states that differ in numbers alone have the same senders and the same keys.
pub fn serve_alike()
    ensures { (one other : State) → still one ≡ still other → ServeAlike one other }
{}

/// Law: a restart of a restarted state changes nothing.
pub fn restarts_once()
    ensures { (state : State) → restarted (restarted state) ≡ restarted state }
{}

/// Law: a change that is not stored leaves what a restart leaves without it.
pub fn unstored_stays()
    ensures { (state : State) (change : Change) → KeepsRules state → Allows state change
        → stored_as state change ≡ None → AreAlike (applied state change) state }
{}

/// Law: the change that is stored for another may be stored, is allowed, and after a restart leaves the same.
pub fn stored_well()
    ensures { (state : State) (change stored : Change) → KeepsRules state → Allows state change
        → stored_as state change ≡ Some stored → StoresWell state change stored }
{}

/// Law: of states of which a restart leaves the same, a change makes such states.
pub fn alike_applied()
    ensures { (one other : State) (change : Change) → AreAlike one other
        → AreAlike (applied one change) (applied other change) }
{}

/// Law: of states of which a restart leaves the same, each allows a change of which there are records, or none does.
pub fn alike_allows()
    ensures { (one other : State) (change : Change) → IsStorable change → AreAlike one other
        → Allows one change → Allows other change }
{}

/// Law: a history that goes on goes on from the state that it reached.
pub fn histories_go_on()
    ensures { (state : State) (entries more : List Entry)
        → after_all state (entries ++ more) ≡ after_all (after_all state entries) more }
{}

/// Law: the epoch of a history is the sum of those of its parts.
pub fn epochs_add()
    ensures { (entries more : List Entry)
        → epoch_after (entries ++ more) ≡ epoch_after entries + epoch_after more }
{}

/// Law: an epoch that was reached keeps its state.
pub fn epochs_stay()
    ensures { (state : State) (entries more : List Entry) (epoch : ℕ) → epoch ≤ epoch_after entries
        → at_epoch state (entries ++ more) epoch ≡ at_epoch state entries epoch }
{}
