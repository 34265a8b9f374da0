//! What the books of keys and associations refuse, line by line.
ghost use Rattle.std.specs.Prelude.{length, All, IfOk, OnOk};
ghost use Rattle.sdls_base.specs.Bounds.{IsKeyLength};
ghost use Rattle.unit_plan.specs.PlanLines.{PlanLines};
ghost use Rattle.unit_plan.specs.PlanRules.{IsAssociation};
ghost use Rattle.plan_text.specs.Wanted.{IsLineOf};

use crate::wanted::{Fault, Refused, Wanted};
use key_book::{KeyBook, KeyRefusal};
use sa_book::{SaBook, SaRefusal};
use sdls_base::{Change, ChannelList, Direction, KeyList, KeyState, NoMemory, SaState, Spi, Suite};
use std::alloc::Global;
use unit_plan::{Plan, PlanKey, PlanSa};
use unit_state::State;

/// For what no book refuses of a plan that was read.
const OTHER: Fault = Fault {
    word: 1,
    wanted: Wanted::Other,
};

fn refused(word: u32, refused: Refused) -> Fault {
    Fault {
        word,
        wanted: Wanted::Refused(refused),
    }
}

fn key_fault(refusal: KeyRefusal) -> Fault {
    match refusal {
        KeyRefusal::DuplicateKey(key) => refused(4, Refused::OtherOctets(u64::from(key.get()))),
        KeyRefusal::BookFull => refused(1, Refused::KeyRoom),
        _ => OTHER,
    }
}

fn association_fault(suite: Suite, refusal: SaRefusal) -> Fault {
    match refusal {
        SaRefusal::TableFull => refused(1, Refused::AssociationRoom),
        SaRefusal::WrongSuite => match suite {
            Suite::Cmac => refused(5, Refused::CmacKey),
            Suite::Gcm => refused(5, Refused::GcmKey),
        },
        SaRefusal::KeyNotActive(_) => refused(5, Refused::ActiveKey),
        SaRefusal::KeyTaken(spi) => refused(5, Refused::FreeKey(u64::from(spi.get()))),
        SaRefusal::PastEnd(end) => refused(6, Refused::NumberBelow(end)),
        SaRefusal::BelowFloor(least) => refused(6, Refused::NumberFrom(least)),
        SaRefusal::ChannelTaken(spi) => refused(8, Refused::FreeChannels(u64::from(spi.get()))),
        _ => OTHER,
    }
}

fn bare(alloc: Global, plan: &Plan) -> Result<State, NoMemory> {
    Ok(State {
        keys: KeyBook::new(alloc),
        associations: SaBook::new(alloc),
        channels: ChannelList::new(Vec::from_slice(alloc, plan.channels())?),
        device: plan.device(),
    })
}

/// Makes a change if the state allows it.
fn apply(state: &mut State, change: &Change) -> Result<(), NoMemory> {
    if state.allows(change) {
        state.apply(change)?;
    }
    Ok(())
}

/// Loads the key of a line, and activates it if the line says so, or says why it is refused.
fn take_key(alloc: Global, keys: &mut KeyBook, key: &PlanKey) -> Result<Option<Fault>, NoMemory>
    requires { IsKeyLength (length key.now.item.bytes) }
{
    let items = vec![in alloc; key.item.clone()?]?;
    match keys.load(items.as_slice()) {
        Ok(()) => {}
        Err(KeyRefusal::NoMemory) => return Err(NoMemory),
        Err(refusal) => return Ok(Some(key_fault(refusal))),
    }
    if key.state != KeyState::Active {
        return Ok(None);
    }
    let ids = KeyList::new(vec![in alloc; key.item.id]?);
    match keys.set_state(&ids, KeyState::Active, &[]) {
        Ok(()) => Ok(None),
        Err(refusal) => Ok(Some(key_fault(refusal))),
    }
}

/// Why an association that was created does not take the key of its line. A key that the books refused is known there
/// by its own line.
fn keying_fault(state: &State, found: &PlanSa) -> Option<Fault> {
    let (_, held) = state.keys.find(found.key)?;
    let least = match found.sa.direction {
        Direction::Send => held.mark,
        Direction::Receive => held.floor.saturating_add(1),
    };
    let refusal = state
        .associations
        .rekey_refusal(found.sa.spi, found.key, held.state, found.number, least)?;
    Some(association_fault(found.sa.suite, refusal))
}

fn create(state: &mut State, found: &PlanSa) -> Result<(), NoMemory> {
    apply(state, &Change::Create(found.sa.clone()?))
}

fn rekey(state: &mut State, found: &PlanSa) -> Result<(), NoMemory> {
    apply(
        state,
        &Change::Rekey {
            spi: found.sa.spi,
            key: found.key,
            number: found.number,
        },
    )
}

/// The association takes a state, or none: it is deleted.
fn take_state(state: &mut State, spi: Spi, to: Option<SaState>) -> Result<(), NoMemory> {
    apply(state, &Change::SaTo { spi, to })
}

/// Makes the association of a line, or says why it is refused.
fn take_association(state: &mut State, found: &PlanSa) -> Result<Option<Fault>, NoMemory>
    requires { IsAssociation found.now }
{
    let spi = found.sa.spi;
    let suite = found.sa.suite;
    if let Some(refusal) = state
        .associations
        .create_refusal(&found.sa, state.channels.as_slice())
    {
        return Ok(Some(association_fault(suite, refusal)));
    }
    create(state, found)?;
    if let Some(fault) = keying_fault(state, found) {
        take_state(state, spi, None)?;
        return Ok(Some(fault));
    }
    rekey(state, found)?;
    if let Some(refusal) = state.associations.start_refusal(spi) {
        return Ok(Some(association_fault(suite, refusal)));
    }
    take_state(state, spi, Some(SaState::Operational))?;
    Ok(None)
}

/// Adds what is refused of a line, if anything is.
fn add_refused(
    faults: &mut Vec<(u32, Fault)>,
    line: u32,
    refused: Option<Fault>,
) -> Result<(), NoMemory>
    ensures { (plan : PlanLines) → IsLineOf plan line → All (λ fault. IsLineOf plan fault.0) faults.old.items
        → OnOk result (All (λ fault. IsLineOf plan fault.0) faults.new.items) }
{
    if let Some(fault) = refused {
        faults.push((line, fault))?;
    }
    Ok(())
}

/// Takes the keys of a plan whose lines lie between two, and adds what is refused.
fn take_keys(
    alloc: Global,
    state: &mut State,
    plan: &Plan,
    above: u32,
    below: u32,
    faults: &mut Vec<(u32, Fault)>,
) -> Result<(), NoMemory>
    ensures { All (λ fault. IsLineOf plan.now fault.0) faults.old.items
        → OnOk result (All (λ fault. IsLineOf plan.now fault.0) faults.new.items) }
{
    for key in plan.keys() {
        if key.line <= above || below <= key.line {
            continue;
        }
        let refused = take_key(alloc, &mut state.keys, key)?;
        add_refused(faults, key.line, refused)?;
    }
    Ok(())
}

/// What the books refuse of a plan: each line, and the word at fault.
pub(crate) fn refused_lines(alloc: Global, plan: &Plan) -> Result<Vec<(u32, Fault)>, NoMemory>
    ensures { IfOk result (λ faults. All (λ fault. IsLineOf plan.now fault.0) faults.items) }
{
    let mut state = bare(alloc, plan)?;
    let mut faults = Vec::new(alloc);
    let mut above = 0;
    for found in plan.associations() {
        take_keys(alloc, &mut state, plan, above, found.line, &mut faults)?;
        let refused = take_association(&mut state, found)?;
        add_refused(&mut faults, found.line, refused)?;
        above = found.line;
    }
    take_keys(alloc, &mut state, plan, above, u32::MAX, &mut faults)?;
    Ok(faults)
}
