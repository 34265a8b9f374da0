//! Records as changes.
#![tactic(auto, unfolding(crate::specs::Reading::change_at, crate::specs::Reading::MayStand))]

ghost use Rattle.std.specs.Prelude.{◌≡◌, ◌+◌, ◌≤◌, length, IfOk};
ghost use Rattle.sdls_base.specs.declared.entry.Change.{Change};
ghost use Rattle.book_record.specs.declared.data.Kind.TheVariants.{Marks, Load, KeyStates, Create, Rekey, SaTo};
ghost use Rattle.book_record.specs.declared.data.Kind.TheVariants.{SetNumber, SetWindow};
ghost use Rattle.book_record.specs.Record.{IsRecord};
ghost use Rattle.sdls_base.specs.Places.{octet_at};
ghost use Rattle.book_record.specs.Reading.{JudgesField, IsReadUnlessNoMemory, item_at, IsItem, items_in};
ghost use Rattle.book_record.specs.Reading.{AreItems, keys_in, AreKeys, change_at, MayStand};

use crate::data::{Kind, RecordError};
use crate::fields::{count, direction, key, key_length, key_state, sa_state, spi, suite};
use crate::writing::write_record;
use sdls_base::{
    BODY_LENGTH, Change, KeyItem, KeyItems, KeyList, MOST_KEYS_AT_ONCE, NewSa, Octets,
    are_channels, number_at,
};
use std::alloc::Global;

/// A key to be loaded, at a place.
fn item(alloc: Global, body: &[u8], at: usize) -> Result<KeyItem, RecordError>
    requires { at + 35 ≤ length body.now }
    ensures { JudgesField result (IsItem at body.now) (item_at at body.now) }
{
    let id = key(body, at)?;
    let length = key_length(body[at + 2])?;
    let start = at + 3;
    let octets = Vec::from_slice(alloc, &body[start..start + length])?;
    Ok(KeyItem {
        id,
        bytes: Octets::new(octets),
    })
}

/// So many keys to be loaded, from place 4 on.
fn items(alloc: Global, body: &[u8], count: usize) -> Result<KeyItems, RecordError>
    requires room { length body.now ≡ BODY_LENGTH }
    requires count { count ≤ MOST_KEYS_AT_ONCE }
    ensures { JudgesField result (AreItems count 4 body.now) (items_in count 4 body.now) }
{
    let mut items = Vec::new(alloc);
    let mut at = 4;
    for _ in 0..count {
        let item = item(alloc, body, at)?;
        at += 3 + item.bytes.as_slice().len();
        items.push(item)?;
    }
    Ok(KeyItems::new(items))
}

/// So many keys, from place 5 on.
fn keys(alloc: Global, body: &[u8], count: usize) -> Result<KeyList, RecordError>
    requires room { length body.now ≡ BODY_LENGTH }
    requires count { count ≤ MOST_KEYS_AT_ONCE }
    ensures { JudgesField result (AreKeys count 5 body.now) (keys_in count 5 body.now) }
{
    let mut keys = Vec::new(alloc);
    let mut at = 5;
    for _ in 0..count {
        keys.push(key(body, at)?)?;
        at += 2;
    }
    Ok(KeyList::new(keys))
}

fn marks(body: &[u8]) -> Result<Change, RecordError>
    requires { length body.now ≡ BODY_LENGTH }
    ensures { JudgesField result (MayStand Marks body.now) (change_at Marks body.now) }
{
    Ok(Change::Marks {
        key: key(body, 3)?,
        mark: number_at(body, 5),
        floor: number_at(body, 13),
    })
}

fn load(alloc: Global, body: &[u8]) -> Result<Change, RecordError>
    requires { length body.now ≡ BODY_LENGTH }
    ensures { JudgesField result (MayStand Load body.now) (change_at Load body.now) }
{
    let count = count(body[3])?;
    Ok(Change::Load(items(alloc, body, count)?))
}

fn key_states(alloc: Global, body: &[u8]) -> Result<Change, RecordError>
    requires { length body.now ≡ BODY_LENGTH }
    ensures { JudgesField result (MayStand KeyStates body.now) (change_at KeyStates body.now) }
{
    let to = key_state(body[3])?;
    let count = count(body[4])?;
    let ids = keys(alloc, body, count)?;
    Ok(Change::KeyStates { ids, to })
}

fn create(alloc: Global, body: &[u8]) -> Result<Change, RecordError>
    requires { length body.now ≡ BODY_LENGTH }
    ensures { JudgesField result (MayStand Create body.now) (change_at Create body.now) }
{
    let spi = spi(body, 3)?;
    let direction = direction(body[5])?;
    let suite = suite(body[6])?;
    let channels = &body[16..16 + usize::from(body[15])];
    if !are_channels(channels) {
        return Err(RecordError::Malformed);
    }
    Ok(Change::Create(NewSa {
        spi,
        direction,
        suite,
        window: number_at(body, 7),
        channels: Octets::new(Vec::from_slice(alloc, channels)?),
    }))
}

fn rekey(body: &[u8]) -> Result<Change, RecordError>
    requires { length body.now ≡ BODY_LENGTH }
    ensures { JudgesField result (MayStand Rekey body.now) (change_at Rekey body.now) }
{
    let spi = spi(body, 3)?;
    let key = key(body, 5)?;
    Ok(Change::Rekey {
        spi,
        key,
        number: number_at(body, 7),
    })
}

fn sa_to(body: &[u8]) -> Result<Change, RecordError>
    requires { length body.now ≡ BODY_LENGTH }
    ensures { JudgesField result (MayStand SaTo body.now) (change_at SaTo body.now) }
{
    let spi = spi(body, 3)?;
    let to = sa_state(body[5])?;
    Ok(Change::SaTo { spi, to })
}

fn set_number(body: &[u8]) -> Result<Change, RecordError>
    requires { length body.now ≡ BODY_LENGTH }
    ensures { JudgesField result (MayStand SetNumber body.now) (change_at SetNumber body.now) }
{
    Ok(Change::SetNumber {
        spi: spi(body, 3)?,
        number: number_at(body, 5),
    })
}

fn set_window(body: &[u8]) -> Result<Change, RecordError>
    requires { length body.now ≡ BODY_LENGTH }
    ensures { JudgesField result (MayStand SetWindow body.now) (change_at SetWindow body.now) }
{
    Ok(Change::SetWindow {
        spi: spi(body, 3)?,
        window: number_at(body, 5),
    })
}

/// The change that a body of a kind says, whatever its length says, and whatever stands behind its data.
fn change(alloc: Global, kind: Kind, body: &[u8]) -> Result<Change, RecordError>
    requires { length body.now ≡ BODY_LENGTH }
    ensures { JudgesField result (MayStand kind body.now) (change_at kind body.now) }
{
    match kind {
        Kind::Marks => marks(body),
        Kind::Load => load(alloc, body),
        Kind::KeyStates => key_states(alloc, body),
        Kind::Create => create(alloc, body),
        Kind::Rekey => rekey(body),
        Kind::SaTo => sa_to(body),
        Kind::SetNumber => set_number(body),
        Kind::SetWindow => set_window(body),
    }
}

/// Reads a record, which is all of the body. `Malformed` comes exactly where the body is no record.
pub fn read_record(alloc: Global, body: &[u8; BODY_LENGTH]) -> Result<Change, RecordError>
    // What is read has this body as its record.
    ensures found { IfOk result (λ change. IsRecord change body.now) }
    // What has this body as its record is read, unless memory runs out.
    ensures only { (change : Change) → IsRecord change body.now
        → IsReadUnlessNoMemory result change }
{
    let Some(kind) = Kind::of(body[0]) else {
        return Err(RecordError::Malformed);
    };
    let change = change(alloc, kind, body)?;
    // A change has one record: the length and what stands behind the data are compared with it.
    if write_record(&change) == *body {
        Ok(change)
    } else {
        Err(RecordError::Malformed)
    }
}
