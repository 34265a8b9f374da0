//! The laws.
ghost use Rattle.std.specs.Prelude.{◌≡◌, ◌≢◌, ℕ, List, ◌++◌};
ghost use Rattle.std.specs.List.{AllPairs, Contains};
ghost use Rattle.frame_shield.specs.declared.binding.Binding.{Binding};
ghost use Rattle.frame_shield.specs.Opens.{Opens};
ghost use Rattle.frame_shield.specs.Protects.{Protects};
ghost use Rattle.link_world.specs.declared.link.LinkEvent.{LinkEvent};
ghost use Rattle.run_promise.specs.Life.{Given, given_in, IsLife, LifeRun};
ghost use Rattle.law_links.specs.InOrder.{NumbersInOrder};
ghost use Rattle.law_links.specs.Carried.{AcceptsCovered, AcceptsFrame, AgreeOn, AgreesOnCovered, AreRepeated};
ghost use Rattle.law_links.specs.Carried.{BindingsAgree, IsCarried, IsDataField};
ghost use Rattle.law_links.specs.Linked.{AssociationsAgree, DeliversCovered, DeliversReleased, LinkHolds, released_in};
ghost use Rattle.law_links.specs.Triples.{AreTriplesApart, HaveDevice, SaysDevice};

use frame_shield::protected_opens;
use gcm::opens_what_was_sealed;
use law_runs::used_once_in_a_life;
use link_world::arrivals_were_released;
use unit_image::shows_one;

/// Law: a frame that was protected opens, under each binding with the same key octets, suite, layout and mask, to the
/// number and the data field with which it was protected.
pub fn released_frame_opens()
    ensures { (one other : Binding) (n m : ℕ) (clear frame field : List ℕ) → Protects one n clear frame
        → AgreeOn one other → Opens other frame m field → (m ≡ n) × IsDataField one clear field }
{
    protected_opens();
    opens_what_was_sealed();
}

/// Law: so does each frame that agrees with it on all that its MAC covers.
pub fn covered_frame_opens()
    ensures { (one other : Binding) (n m : ℕ) (clear frame arrived field : List ℕ) → Protects one n clear frame
        → AgreeOn one other → AgreesOnCovered one frame arrived → Opens other arrived m field
        → (m ≡ n) × IsDataField one clear field }
{
    protected_opens();
    opens_what_was_sealed();
}

/// Law: over the lives of two units, a frame that the one released and the other accepts, by an association with the
/// key octets, suite, layout and mask with which it was protected, is accepted with its number and its data field.
pub fn accepted_is_what_was_released()
    ensures { (image other : List ℕ) (sender receiver : List LifeRun) → IsLife image sender → IsLife other receiver
        → (key : ℕ) (sent got : Given) → Contains (released_in sender) sent → Contains (given_in receiver) got
        → AcceptsFrame key sent got → BindingsAgree sent got → IsCarried sent got }
{
    covered_frame_opens();
}

/// Law: over the lives of two units, no frame that the one released is accepted twice by associations that agree with
/// the one that protected it.
pub fn released_is_accepted_once()
    ensures { (image other : List ℕ) (sender receiver : List LifeRun) → IsLife image sender → IsLife other receiver
        → (key : ℕ) → AssociationsAgree (AcceptsFrame key) sender receiver
        → AllPairs (λ one two. ¬ AreRepeated (AcceptsFrame key) (released_in sender) one two) (given_in receiver) }
{
    covered_frame_opens();
    used_once_in_a_life();
}

/// Law: over the life of a unit the numbers that it accepts under a key stand in order: they ascend in its history, but
/// for those that a back window accepts late.
pub fn accepted_in_order()
    ensures { (image : List ℕ) (runs : List LifeRun) → IsLife image runs → (key : ℕ) → NumbersInOrder key runs }
{
    shows_one();
}

/// Law: two units on one link. If the link delivers only what the sender released, and each association that accepts a
/// frame under a key agrees with the one that protected it, then what the receiver accepts under that key is what the
/// sender released, once, and in ascending order of number but for what a back window accepts late.
pub fn two_units_on_one_link()
    ensures { (image other : List ℕ) (sender receiver : List LifeRun) → IsLife image sender → IsLife other receiver
        → (key : ℕ) (events : List LinkEvent) → DeliversReleased key events sender receiver
        → AssociationsAgree (AcceptsFrame key) sender receiver → LinkHolds (AcceptsFrame key) key sender receiver }
{
    arrivals_were_released();
    accepted_is_what_was_released();
    released_is_accepted_once();
    used_once_in_a_life();
    accepted_in_order();
}

/// Law: the same of a link that changes what no MAC covers. If each frame that the receiver accepts under a key agrees
/// with a released one on all that is covered, it has the number and the data field of that one, and is accepted once.
pub fn two_units_by_covered_octets()
    ensures { (image other : List ℕ) (sender receiver : List LifeRun) → IsLife image sender → IsLife other receiver
        → (key : ℕ) (events : List LinkEvent) → DeliversCovered key events sender receiver
        → AssociationsAgree (AcceptsCovered key) sender receiver
        → LinkHolds (AcceptsCovered key) key sender receiver }
{
    arrivals_were_released();
    covered_frame_opens();
    used_once_in_a_life();
    accepted_in_order();
}

/// Law: over the life of a unit the device field stays that of the plan in its first image.
pub fn one_device_in_a_life()
    ensures { (image : List ℕ) (runs : List LifeRun) (device : List ℕ) → IsLife image runs → SaysDevice image device
        → HaveDevice device runs }
{
    shows_one();
}

/// Law: over the lives of two units with different device fields, taken together, no key octets, device field and
/// number are used twice.
pub fn no_triple_twice()
    ensures { (image other : List ℕ) (one two : List LifeRun) (device again : List ℕ) → IsLife image one
        → IsLife other two → SaysDevice image device → SaysDevice other again → device ≢ again
        → AllPairs AreTriplesApart (given_in one ++ given_in two) }
{
    one_device_in_a_life();
    used_once_in_a_life();
}
