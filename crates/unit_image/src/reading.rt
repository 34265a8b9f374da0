// What the plan, the content and the records of an image say.
ghost use Rattle.std.specs.Prelude.{◌≡◌, ◌≢◌, ℕ, ◌≤◌, ◌<◌, IsTrue, IfOk, IfErr, OnOk, MatchOption, MatchResult, length};
ghost use Rattle.unit_state.specs.State.{KeepsRules};
ghost use Rattle.unit_state.specs.Allows.{Allows};
ghost use Rattle.book_record.specs.Record.{IsRecord};
ghost use Rattle.disk_journal.specs.Image.{records, held, record_at};
ghost use Rattle.disk_journal.specs.Journal.{IsOpen};
ghost use Rattle.disk_journal.specs.Runs.{IsRunOf};
ghost use Rattle.unit_image.specs.Rows.{HasRowsCause};
ghost use Rattle.unit_image.specs.Shows.{LeadTo, IsNoChangeAt, IsBadRecord, SaysBarePlan, IsContentUnder, SaysNone};
ghost use Rattle.unit_image.specs.OpeningImage.{HasOpenFault, TakesRecord, as_open_fault, IsNoContent, IsTextCause};
ghost use Rattle.sdls_base.specs.declared.entry.Change.{Change};
ghost use Rattle.sdls_base.specs.Version.{content_length_of};

use crate::content::read_content;
use crate::opening_image::OpenFault;
use crate::rows::RowsFault;
use book_record::{RecordError, read_record};
use disk_journal::{Journal, JournalFault, PLAN_AT, PLAN_ROOM, RecordRun, SLOT_COUNT_AT};
use sdls_base::{BODY_LENGTH, CONTENT_LENGTH_TWO, Change, ChannelList, NoMemory, Version};
use sdls_outside::Site;
use std::alloc::Global;
use unit_plan::{Plan, PlanError};
use unit_state::State;

/// A fault of a journal that is opened or read, as one of the opening.
pub(crate) fn open_fault(fault: JournalFault) -> OpenFault
    ensures { result ≡ as_open_fault fault }
{
    match fault {
        JournalFault::SiteFault(count) => OpenFault::SiteFault(count),
        JournalFault::Image(offset) => OpenFault::Image(offset),
    }
}

/// Reads the text of a plan, which has no line of a key or an association.
fn plan_said(alloc: Global, text: &[u8]) -> Result<Plan, OpenFault>
    ensures { MatchResult result (SaysBarePlan text.now) (IsTextCause text.now) }
{
    let plan = match Plan::read(alloc, text) {
        Ok(plan) => plan,
        Err(PlanError::Refused(_)) => return Err(OpenFault::Image(PLAN_AT)),
        Err(PlanError::NoMemory) => return Err(OpenFault::NoMemory),
    };
    if !plan.keys().is_empty() {
        return Err(OpenFault::Image(PLAN_AT));
    }
    if !plan.associations().is_empty() {
        return Err(OpenFault::Image(PLAN_AT));
    }
    Ok(plan)
}

/// Reads the plan of an image into `room`, and makes the checks of it.
pub(crate) fn read_plan<O: Site>(
    alloc: Global,
    journal: &Journal,
    site: &mut O,
    room: &mut [u8],
) -> Result<Plan, OpenFault>
    requires room { length room.old ≡ PLAN_ROOM }
    requires opened { IsTrue O.told → IsOpen (O.trace site.old) journal.now }
    ensures said { IsTrue O.told → IfOk result (λ plan.
        SaysBarePlan (held (O.trace site.old).now.image).plan plan
        × (plan.slots ≡ (held (O.trace site.old).now.image).slots)) }
    ensures room { length room.new ≡ PLAN_ROOM }
    ensures same { IsTrue O.told → O.trace site.new ≡ O.trace site.old }
    ensures puts { O.put_faults site.new ≡ O.put_faults site.old }
    ensures fault { HasOpenFault (O.faults site.old) (O.faults site.new)
        (λ offset. IsTrue O.told → SaysNone (O.trace site.old).now.image (held (O.trace site.old).now.image) offset)
        result }
{
    let count = match journal.plan_text(site, room) {
        Ok(count) => count,
        Err(fault) => return Err(open_fault(fault)),
    };
    match plan_said(alloc, &room[..count]) {
        Ok(plan) => {
            if plan.slots() != journal.slots() {
                return Err(OpenFault::Image(SLOT_COUNT_AT));
            }
            Ok(plan)
        }
        Err(fault) => Err(fault),
    }
}

/// The state of a content, under a plan.
fn state_said(
    alloc: Global,
    version: Version,
    content: &[u8],
    plan: &Plan,
) -> Result<State, RowsFault>
    requires { length content.now ≡ content_length_of version }
    ensures found { IfOk result (IsContentUnder plan.now version content.now) }
    ensures fault { IfErr result (λ fault. HasRowsCause fault ((state : State)
        → ¬ IsContentUnder plan.now version content.now state)) }
{
    let Ok(channels) = Vec::from_slice(alloc, plan.channels()) else {
        return Err(RowsFault::NoMemory);
    };
    read_content(
        alloc,
        version,
        content,
        ChannelList::new(channels),
        plan.device(),
    )
}

/// Reads the content of an image into the front of `room`, and makes the check of it.
pub(crate) fn read_state<O: Site>(
    alloc: Global,
    journal: &Journal,
    site: &mut O,
    plan: &Plan,
    room: &mut [u8],
) -> Result<State, OpenFault>
    requires room { length room.old ≡ CONTENT_LENGTH_TWO }
    requires opened { IsTrue O.told → IsOpen (O.trace site.old) journal.now }
    ensures said { IsTrue O.told → IfOk result (IsContentUnder plan.now (held (O.trace site.old).now.image).version
        (held (O.trace site.old).now.image).content) }
    ensures rules { IfOk result (λ state. KeepsRules state) }
    ensures room { length room.new ≡ CONTENT_LENGTH_TWO }
    ensures same { IsTrue O.told → O.trace site.new ≡ O.trace site.old }
    ensures puts { O.put_faults site.new ≡ O.put_faults site.old }
    ensures fault { HasOpenFault (O.faults site.old) (O.faults site.new)
        (λ offset. IsTrue O.told → IsNoContent (O.trace site.old).now.image plan.now offset) result }
{
    let version = journal.content_version();
    let content = &mut room[..version.content_length()];
    match journal.content(site, content) {
        Ok(()) => {}
        Err(fault) => return Err(open_fault(fault)),
    }
    match state_said(alloc, version, content, plan) {
        Ok(state) => Ok(state),
        Err(RowsFault::Unfit) => Err(OpenFault::Image(journal.content_at())),
        Err(RowsFault::NoMemory) => Err(OpenFault::NoMemory),
    }
}

/// What the record in a body changes, if the state allows it, or `None`.
fn change_in(
    alloc: Global,
    body: &[u8; BODY_LENGTH],
    state: &State,
) -> Result<Option<Change>, NoMemory>
    ensures found { IfOk result (λ found. MatchOption found
        ((change : Change) → IsRecord change body.now → ¬ Allows state.now change)
        (λ change. IsRecord change body.now × Allows state.now change)) }
{
    match read_record(alloc, body) {
        Ok(change) => {
            if state.allows(&change) {
                Ok(Some(change))
            } else {
                Ok(None)
            }
        }
        Err(RecordError::Malformed) => Ok(None),
        Err(RecordError::NoMemory) => Err(NoMemory),
    }
}

/// Reads a record of the journal, and makes its change.
fn take_record<O: Site>(
    alloc: Global,
    journal: &Journal,
    site: &mut O,
    run: &mut RecordRun,
    index: u32,
    state: &mut State,
) -> Result<(), OpenFault>
    requires below { index < journal.now.used }
    requires opened { IsTrue O.told → IsOpen (O.trace site.old) journal.now }
    requires run { IsTrue O.told → IsRunOf (O.trace site.old).now.image run.old }
    requires rules { KeepsRules state.old }
    ensures taken { IsTrue O.told → OnOk result
        (TakesRecord (records (O.trace site.old).now.image) index state.old state.new) }
    ensures run { IsTrue O.told → OnOk result (IsRunOf (O.trace site.old).now.image run.new) }
    ensures rules { KeepsRules state.new }
    ensures same { IsTrue O.told → O.trace site.new ≡ O.trace site.old }
    ensures puts { O.put_faults site.new ≡ O.put_faults site.old }
    ensures fault { HasOpenFault (O.faults site.old) (O.faults site.new) (λ offset. IsTrue O.told
        → IsNoChangeAt (records (O.trace site.old).now.image) index state.old
        × (offset ≡ record_at (O.trace site.old).now.image index)) result }
{
    let body = match journal.body_in(site, run, index) {
        Ok(body) => body,
        Err(fault) => return Err(open_fault(fault)),
    };
    match change_in(alloc, &body, state) {
        Ok(Some(change)) => match state.apply(&change) {
            Ok(()) => Ok(()),
            Err(NoMemory) => Err(OpenFault::NoMemory),
        },
        Ok(None) => Err(OpenFault::Image(journal.record_at(index))),
        Err(NoMemory) => Err(OpenFault::NoMemory),
    }
}

/// Makes the changes of all records of the journal, in their order, and the checks of them.
pub(crate) fn take_records<O: Site>(
    alloc: Global,
    journal: &Journal,
    site: &mut O,
    state: &mut State,
) -> Result<(), OpenFault>
    requires opened { IsTrue O.told → IsOpen (O.trace site.old) journal.now }
    requires rules { KeepsRules state.old }
    ensures led { IsTrue O.told → OnOk result
        (LeadTo state.old (held (O.trace site.old).now.image).records state.new) }
    ensures rules { KeepsRules state.new }
    ensures same { IsTrue O.told → O.trace site.new ≡ O.trace site.old }
    ensures puts { O.put_faults site.new ≡ O.put_faults site.old }
    ensures fault { HasOpenFault (O.faults site.old) (O.faults site.new) (λ offset. IsTrue O.told
        → (place : ℕ) × IsBadRecord state.old (held (O.trace site.old).now.image).records place
        × (offset ≡ record_at (O.trace site.old).now.image place)) result }
{
    let mut run = RecordRun::new();
    for index in 0..journal.used() {
        take_record(alloc, journal, site, &mut run, index, state)?;
    }
    Ok(())
}
