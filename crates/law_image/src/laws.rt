//! The laws.
ghost use Rattle.std.specs.Prelude.{◌≡◌, ◌↔◌, ◌⊎◌, ℕ, List, Ok, Some, None};
ghost use Rattle.sdls_base.specs.declared.version.Version.TheVariants.{Two};
ghost use Rattle.unit_plan.specs.Plan.{plan_of};
ghost use Rattle.unit_plan.specs.PlanLines.{PlanLines};
ghost use Rattle.unit_plan.specs.PlanRules.{IsPlan};
ghost use Rattle.unit_state.specs.declared.state.State.{State};
ghost use Rattle.unit_state.specs.Restart.{restarted};
ghost use Rattle.unit_state.specs.State.{KeepsRules};
ghost use Rattle.unit_image.specs.Content.{content_of};
ghost use Rattle.unit_image.specs.ContentReading.{IsContent};
ghost use Rattle.disk_journal.specs.Moments.{AllBut};
ghost use Rattle.disk_journal.specs.declared.layout.HeaderForm.TheVariants.{New};
ghost use Rattle.disk_journal.specs.Initial.{created_image};
ghost use Rattle.disk_journal.specs.Image.{IsAtRest, held};
ghost use Rattle.disk_journal.specs.Fault.{image_fault};
ghost use Rattle.disk_journal.specs.Forms.{HasOneClosed, Holds, Becomes, Regates, StaysWithin};
ghost use Rattle.unit_image.specs.OpeningImage.{LeftByOpening, IsMigrating};
ghost use Rattle.unit_image.specs.Shows.{Shows, ShowsNone};
ghost use Rattle.unit_image.specs.Beginning.{SaysPlan, held_of_plan, image_of_plan};
ghost use Rattle.law_image.specs.Keeping.{HoldsSame, IsShown, KeepsForms, ShowsThroughout};

use book_record::change_of_its_kind;
use disk_journal::opening_stays;
use unit_image::{refused_with_one, shows_one};

/// Law: the image that a plan begins with shows what a restart leaves of the state that the plan's lines make. It has
/// no records, and no closed gate of it is other than 0.
pub fn beginning_shows()
    ensures shows { (text : List ℕ) (plan : PlanLines) (first : State) → SaysPlan text plan first
        → Shows (image_of_plan text plan first) (restarted first) }
    ensures content { (text : List ℕ) (plan : PlanLines) (first : State) → SaysPlan text plan first
        → IsContent Two (restarted first) (content_of Two first) }
    ensures rests { (text : List ℕ) (plan : PlanLines) (first : State) → SaysPlan text plan first
        → IsAtRest (image_of_plan text plan first) }
    ensures holds { (text : List ℕ) (plan : PlanLines) (first : State) → SaysPlan text plan first
        → Holds (image_of_plan text plan first) (held_of_plan text plan first) }
{}

/// Law: an initial image of version 2, but for the gate of its header, is refused at its first octet, or it is that
/// image. So what a crash leaves while one is written never opens as another.
pub fn cut_beginning()
    ensures { (plan : List ℕ) (slots : ℕ) (content image : List ℕ)
        → AllBut 0 1 (created_image New plan slots content) image
        → (image_fault image ≡ Some 0) ⊎ (image ≡ created_image New plan slots content) }
{}

/// Law: what an opening that a crash cuts off leaves of an image that opens, with at most one closed gate that is not
/// 0. With other octets in its closed gates it stays within the image. Rewritten, it holds the same, as its opened
/// forms do. Whichever it is, also on the way to version 2, it keeps the forms of the image, and shows nothing that the
/// image and its forms do not show.
pub fn opening_keeps_forms()
    ensures regated { (image left : List ℕ) → image_fault image ≡ None → HasOneClosed image → Regates image left
        → StaysWithin image left }
    ensures rewritten { (image left : List ℕ) → Becomes (held image) (held image) left → HoldsSame image left }
    ensures keeps { (image left : List ℕ) → image_fault image ≡ None → HasOneClosed image → LeftByOpening image left
        → KeepsForms image left }
    ensures shown { (image left : List ℕ) (state : State) → image_fault image ≡ None → HasOneClosed image
        → LeftByOpening image left → IsShown left state → IsShown image state }
{
    opening_stays();
    shows_one();
}

/// Law: what a crash leaves of an image of version 1 while it is migrated to version 2 shows the state that the image
/// shows, and so does each of its opened forms.
pub fn migration_keeps_state()
    ensures { (image left : List ℕ) (state : State) → IsMigrating image left → Shows image state
        → ShowsThroughout left state }
{
    shows_one();
}

/// Law: each image shows a state, or is refused with an offset. So it shows none exactly if it is refused.
pub fn refused_exactly()
    ensures either { (image : List ℕ) → ((state : State) × Shows image state)
        ⊎ ((offset : ℕ) × ShowsNone image offset) }
    ensures exactly { (image : List ℕ) → ((state : State) → ¬ Shows image state)
        ↔ ((offset : ℕ) × ShowsNone image offset) }
{
    change_of_its_kind();
    refused_with_one();
}

/// Law: the plan that a text says keeps the rules of plans, and the state that an image shows those of states. A
/// restart leaves that state.
pub fn shown_keeps_rules()
    ensures plan { (text : List ℕ) (plan : PlanLines) → plan_of text ≡ Ok plan → IsPlan plan }
    ensures state { (image : List ℕ) (state : State) → Shows image state → KeepsRules state }
    ensures left { (image : List ℕ) (state : State) → Shows image state → restarted state ≡ state }
{}
