//! Laws of a window over what happens to it.

ghost use Rattle.std.specs.Prelude.{◌≡◌, ◌≢◌, ℕ, ◌<◌, ◌≤◌, ◌↔◌, List, AllPairs};
ghost use Rattle.replay_window.specs.declared.TheConstants.{MOST_BACK};
ghost use Rattle.replay_window.specs.declared.window.Window.{Window};
ghost use Rattle.replay_window.specs.WindowField.{back_of};
ghost use Rattle.replay_window.specs.Window.{IsFresh, IsFreshAfter, accepted, begun_at, lowered_to, with_field};
ghost use Rattle.replay_window.specs.Past.{IsPast};
ghost use Rattle.replay_window.specs.Steps.{Step, window_after, MayStepInTurn, numbers_of, SetsNoBack};
ghost use Rattle.replay_window.specs.Steps.{IsAscendingAbove};

/// Law: from one beginning to the next a number is fresh exactly if it is by the list of all numbers accepted between.
pub fn judged_by_the_list()
    ensures { (window : Window) (base n end : ℕ) (steps : List Step) → window.back ≤ MOST_BACK
        → MayStepInTurn (begun_at base window) steps
        → IsFresh (window_after (begun_at base window) steps) n end
        ↔ IsFreshAfter (window_after (begun_at base window) steps) (numbers_of steps) n end }
{}

/// Law: no number is accepted twice, whatever window fields are set between.
pub fn accepted_once()
    ensures { (window : Window) (steps : List Step) → window.back ≤ MOST_BACK
        → MayStepInTurn window steps → AllPairs ◌≢◌ (numbers_of steps) }
{}

/// Law: without a back window the numbers that are accepted ascend.
pub fn ascending_without_a_back_window()
    ensures { (window : Window) (steps : List Step) → window.back ≡ 0 → SetsNoBack steps
        → MayStepInTurn window steps → IsAscendingAbove window.high (numbers_of steps) }
{}

/// Law: a number that is past is not fresh.
pub fn past_is_refused()
    ensures { (window : Window) (n end : ℕ) → window.back ≤ MOST_BACK → IsPast window n → ¬ IsFresh window n end }
{}

/// Law: an accepted number is past, and what is past stays so over every change but a beginning below it.
pub fn past_stays()
    ensures taken { (window : Window) (n : ℕ) → IsPast (accepted n window) n }
    ensures accepting { (window : Window) (n m : ℕ) → IsPast window m → IsPast (accepted n window) m }
    ensures setting { (window : Window) (field m : ℕ) → IsPast window m → IsPast (with_field field window) m }
    ensures beginning { (window : Window) (high m : ℕ) → m ≤ high → IsPast (begun_at high window) m }
    ensures lowering { (window : Window) (floor m : ℕ) → m ≤ floor → IsPast window m
        → IsPast (lowered_to floor window) m }
{}
