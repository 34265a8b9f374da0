// The opening of an image.
ghost use Rattle.std.specs.Prelude.{◌≡◌, ◌≤◌, ℕ, List, IsTrue, IfErr, IfOk, OnOk, length, vec_len};
ghost use Rattle.sdls_outside.specs.Disk.{Leaves};
ghost use Rattle.sdls_outside.specs.Moments.{EachMoment};
ghost use Rattle.unit_plan.specs.Plan.{plan_of};
ghost use Rattle.unit_state.specs.State.{KeepsRules};
ghost use Rattle.disk_journal.specs.Moments.{EachImage, OnlySyncs};
ghost use Rattle.disk_journal.specs.declared.layout.TheConstants.{PLAN_ROOM};
ghost use Rattle.disk_journal.specs.Changes.{KeepsPlan};
ghost use Rattle.disk_journal.specs.Image.{held};
ghost use Rattle.disk_journal.specs.Journal.{HasSiteFault, IsOpen, IsSettled};
ghost use Rattle.unit_image.specs.OpeningImage.{HasOpenFault, BringsUp, IsHeldNext, StaysOutside, LeavesShown, Opening};
ghost use Rattle.unit_image.specs.Shows.{Shows, ShowsNone};
ghost use Rattle.unit_image.specs.Image.{IsOfTwo};

use crate::content::write_content_two;
use crate::laws::refused_with_one;
use crate::reading::{open_fault, read_plan, read_state, take_records};
use disk_journal::{Journal, JournalFault, PLAN_ROOM};
use sdls_base::{CONTENT_LENGTH_TWO, Version};
use sdls_outside::Site;
use std::alloc::{AllocError, Global};
use thiserror::Error;
use unit_plan::Plan;
use unit_state::State;

/// What an image was found to show, and its journal.
#[derive(Drop)]
pub struct Opened {
    pub journal: Journal,
    pub plan: Plan,
    pub state: State,
}

/// Makes the checks of an image that are not the journal's, and answers what it shows.
fn inspect_opened<O: Site>(
    alloc: Global,
    journal: Journal,
    site: &mut O,
    text: &mut [u8],
    room: &mut [u8],
) -> Result<Opened, OpenFault>
    requires text { length text.old ≡ PLAN_ROOM }
    requires room { length room.old ≡ CONTENT_LENGTH_TWO }
    requires opened { IsTrue O.told → IsOpen (O.trace site.old) journal }
    ensures journal { IfOk result (λ opened. opened.journal ≡ journal) }
    ensures shows { IsTrue O.told → IfOk result (λ opened. Shows (O.trace site.old).now.image opened.state) }
    ensures plan { IsTrue O.told → IfOk result (λ opened.
        plan_of (held (O.trace site.old).now.image).plan ≡ Ok opened.plan) }
    ensures rules { IfOk result (λ opened. KeepsRules opened.state) }
    ensures same { IsTrue O.told → O.trace site.new ≡ O.trace site.old }
    ensures puts { O.put_faults site.new ≡ O.put_faults site.old }
    ensures fault { HasOpenFault (O.faults site.old) (O.faults site.new)
        (λ offset. IsTrue O.told → ShowsNone (O.trace site.old).now.image offset) result }
{
    let plan = read_plan(alloc, &journal, site, text)?;
    let mut state = read_state(alloc, &journal, site, &plan, room)?;
    match take_records(alloc, &journal, site, &mut state) {
        Ok(()) => {
            state.restart();
            Ok(Opened {
                journal,
                plan,
                state,
            })
        }
        Err(fault) => Err(fault),
    }
}

/// Opens the journal of a site, makes all checks of its image, and answers what it shows. Writes nothing.
fn inspect<O: Site>(
    alloc: Global,
    site: &mut O,
    text: &mut [u8],
    room: &mut [u8],
) -> Result<Opened, OpenFault>
    requires text { length text.old ≡ PLAN_ROOM }
    requires room { length room.old ≡ CONTENT_LENGTH_TWO }
    ensures opened { IsTrue O.told → IfOk result (λ opened. IsOpen (O.trace site.new) opened.journal) }
    ensures shows { IsTrue O.told → IfOk result (λ opened. Shows (O.trace site.old).now.image opened.state) }
    ensures plan { IsTrue O.told → IfOk result (λ opened.
        plan_of (held (O.trace site.old).now.image).plan ≡ Ok opened.plan) }
    ensures rules { IfOk result (λ opened. KeepsRules opened.state) }
    ensures unchanged { IsTrue O.told → OnlySyncs (O.trace site.old) (O.trace site.new) }
    ensures any_moment { IsTrue O.told → EachImage (O.trace site.old) (O.trace site.new)
        (Leaves (O.trace site.old).now) }
    ensures puts { O.put_faults site.new ≡ O.put_faults site.old }
    ensures fault { HasOpenFault (O.faults site.old) (O.faults site.new)
        (λ offset. IsTrue O.told → ShowsNone (O.trace site.old).now.image offset) result }
{
    match Journal::open(site) {
        Ok(journal) => inspect_opened(alloc, journal, site, text, room),
        Err(fault) => Err(open_fault(fault)),
    }
}

/// Makes all checks of an image, answers what it shows, and brings its journal to rest.
fn show<O: Site>(
    alloc: Global,
    site: &mut O,
    text: &mut [u8],
    room: &mut [u8],
) -> Result<Opened, OpenFault>
    requires text { length text.old ≡ PLAN_ROOM }
    requires room { length room.old ≡ CONTENT_LENGTH_TWO }
    ensures settled { IsTrue O.told → IfOk result (λ opened. IsSettled (O.trace site.new) opened.journal) }
    ensures shows { IsTrue O.told → IfOk result (λ opened. Shows (O.trace site.old).now.image opened.state
        × Shows (O.trace site.new).now.image opened.state) }
    ensures holds { IsTrue O.told → OnOk result (held (O.trace site.new).now.image
        ≡ held (O.trace site.old).now.image) }
    ensures beside { IsTrue O.told → IfOk result (λ opened.
        KeepsPlan opened.journal.layout (O.trace site.old).now.image (O.trace site.new).now.image) }
    ensures plan { IsTrue O.told → IfOk result (λ opened.
        plan_of (held (O.trace site.old).now.image).plan ≡ Ok opened.plan) }
    ensures rules { IfOk result (λ opened. KeepsRules opened.state) }
    ensures any_moment { IsTrue O.told → EachMoment (O.trace site.old) (O.trace site.new) (Opening (O.trace site.old)) }
    ensures left { IsTrue O.told → IfErr result (LeavesShown (O.trace site.old) (O.trace site.new)) }
    ensures puts { O.put_faults site.new ≡ O.put_faults site.old }
    ensures fault { HasOpenFault (O.faults site.old) (O.faults site.new)
        (λ offset. IsTrue O.told → ShowsNone (O.trace site.old).now.image offset) result }
{
    refused_with_one();
    let opened = match inspect(alloc, site, text, room) {
        Ok(opened) => opened,
        Err(fault) => return Err(fault),
    };
    match opened.journal.settle(site) {
        Ok(()) => Ok(opened),
        Err(fault) => Err(open_fault(fault)),
    }
}

/// Brings an image at rest, which shows this state, up to version 2. The content is written into `room`.
fn bring_up<O: Site>(
    journal: &mut Journal,
    site: &mut O,
    state: &State,
    room: &mut [u8],
) -> Result<(), JournalFault>
    requires room { length room.old ≡ CONTENT_LENGTH_TWO }
    requires settled { IsTrue O.told → IsSettled (O.trace site.old) journal.old }
    requires shows { IsTrue O.told → Shows (O.trace site.old).now.image state.now }
    requires rules { KeepsRules state.now }
    ensures brings { IsTrue O.told → BringsUp state.now result journal.new (O.trace site.old) (O.trace site.new) }
    // told of the image as it was before it was brought to rest
    ensures outside { IsTrue O.told → OnOk result ((before : List ℕ)
        → KeepsPlan journal.old.layout before (O.trace site.old).now.image
        → StaysOutside journal.new.layout before (O.trace site.new).now.image) }
    ensures version { OnOk result (IsOfTwo journal.new) }
    ensures puts { O.put_faults site.new ≡ O.put_faults site.old }
    ensures fault { HasSiteFault (O.faults site.old) (O.faults site.new) result }
{
    match journal.content_version() {
        Version::Two => Ok(()),
        Version::One => {
            write_content_two(state, room);
            journal.migrate(site, room)
        }
    }
}

/// Room for the text of a plan.
fn plan_room(alloc: Global) -> Result<Vec<u8>, AllocError>
    ensures { IfOk result (λ room. vec_len room ≡ PLAN_ROOM) }
{
    vec![in alloc; 0; PLAN_ROOM as usize]
}

/// Opens the image of a site: makes all checks of it, answers the state that it shows, brings its journal to rest, and
/// brings an image of version 1 up to version 2. The content is read into `room`, which holds any octets afterwards.
///
/// An answer `Image`, with the offset of the first check that fails, says that the image shows no state. Each other
/// refusal is a fault of the site, or memory ran out. Nothing is written to an image that shows no state.
pub fn open<O: Site>(alloc: Global, site: &mut O, room: &mut [u8]) -> Result<Opened, OpenFault>
    requires { length room.old ≡ CONTENT_LENGTH_TWO }
    ensures settled { IsTrue O.told → IfOk result (λ opened. IsSettled (O.trace site.new) opened.journal) }
    ensures version { IfOk result (λ opened. IsOfTwo opened.journal) }
    ensures shows { IsTrue O.told → IfOk result (λ opened. Shows (O.trace site.old).now.image opened.state
        × Shows (O.trace site.new).now.image opened.state) }

    // What was held is held, or its migration if the image was of version 1.
    ensures holds { IsTrue O.told → OnOk result
        (IsHeldNext (O.trace site.old).now.image (held (O.trace site.new).now.image)) }
    // Outside the banks the image is as it was, but for the octet that migrates it. So it holds the same plan.
    ensures outside { IsTrue O.told → IfOk result (λ opened.
        StaysOutside opened.journal.layout (O.trace site.old).now.image (O.trace site.new).now.image) }
    ensures same_plan { IsTrue O.told → OnOk result ((held (O.trace site.new).now.image).plan
        ≡ (held (O.trace site.old).now.image).plan) }
    // The plan is the one that the image's text says.
    ensures plan { IsTrue O.told → IfOk result (λ opened.
        plan_of (held (O.trace site.old).now.image).plan ≡ Ok opened.plan) }
    ensures rules { IfOk result (λ opened. KeepsRules opened.state) }

    // A crash at any moment leaves what one before may have left, or what the opening of the image may leave: it with
    // other octets in its closed gates, or one that holds the same, or one on the way to its migration.
    ensures any_moment { IsTrue O.told → EachMoment (O.trace site.old) (O.trace site.new) (Opening (O.trace site.old)) }
    // An image that shows no state stands as it was, whatever is answered.
    ensures left { IsTrue O.told → IfErr result (LeavesShown (O.trace site.old) (O.trace site.new)) }
    ensures puts { O.put_faults site.new ≡ O.put_faults site.old }
    // Only an image that shows no state is refused as one.
    ensures fault { HasOpenFault (O.faults site.old) (O.faults site.new)
        (λ offset. IsTrue O.told → ShowsNone (O.trace site.old).now.image offset) result }
{
    refused_with_one();
    let Ok(mut text) = plan_room(alloc) else {
        return Err(OpenFault::NoMemory);
    };
    let mut opened = match show(alloc, site, &mut text, room) {
        Ok(opened) => opened,
        Err(fault) => return Err(fault),
    };
    match bring_up(&mut opened.journal, site, &opened.state, room) {
        Ok(()) => Ok(opened),
        Err(fault) => Err(open_fault(fault)),
    }
}

/// Why an image is not opened.
#[derive(Clone, Copy, Debug, PartialEq, Eq, Error)]
pub enum OpenFault {
    /// The site failed; the count of its faults, which rose in the call.
    #[error("site failed: {0} faults")]
    SiteFault(u64),
    /// The image shows no state; the offset of the first check that fails.
    #[error("image shows no state: the check at octet {0} fails")]
    Image(u64),
    /// Memory ran out.
    #[error("no memory")]
    NoMemory,
}
