//! Changes as records.
#![tactic(auto, unfolding(crate::specs::Record::record_octets, crate::specs::Record::HasRecord, crate::specs::Record::HasTypes))]

ghost use Rattle.std.specs.Prelude.{◌≡◌, ◌≢◌, ◌+◌, ◌^◌, ◌<◌, ◌≤◌, [], ◌∷◌, ◌++◌, length};
ghost use Rattle.std.specs.List.{flat_map, All};
ghost use Rattle.std.specs.Int.{w16, w64, to_be_bytes};
ghost use Rattle.sdls_base.specs.Bounds.{AreChannels, IsKeyLength, IsKeyCount};
ghost use Rattle.sdls_base.specs.declared.entry.Change.TheVariants.{Marks, Load, KeyStates, Create, Rekey, SaTo};
ghost use Rattle.sdls_base.specs.declared.states.KeyState.TheVariants.{PreActive};
ghost use Rattle.sdls_base.specs.Code.{new_state_code};
ghost use Rattle.sdls_base.specs.Spelling.{item_octets};
ghost use Rattle.book_record.specs.Record.{body_of, record_octets, HasRecord, IsRecord, IsKey, IsSpi};

use crate::data::{DATA_ROOM, Data};
use sdls_base::{
    BODY_LENGTH, Change, KeyId, KeyItem, KeyItems, KeyList, KeyState, NewSa, SaState, Spi,
};

fn put_item(data_octets: &mut Data, item: &KeyItem)
    requires length { IsKeyLength (length item.now.bytes) }
    requires room { length data_octets.old + length (item_octets item.now) ≤ DATA_ROOM }
    ensures put { data_octets.new ≡ data_octets.old ++ item_octets item.now }
    ensures types { IsKey item.now.id }
{
    let key = item.bytes.as_slice();
    data_octets.put_word(item.id.get());
    data_octets.put_octet(key.len() as u8);
    data_octets.put(key);
}

fn put_items(data_octets: &mut Data, items: &[KeyItem])
    requires lengths { All (λ item. IsKeyLength (length item.bytes)) items.now }
    requires room { length data_octets.old + length (flat_map item_octets items.now) ≤ DATA_ROOM }
    ensures put { data_octets.new ≡ data_octets.old ++ flat_map item_octets items.now }
    ensures types { All (λ item. IsKey item.id) items.now }
{
    for item in items {
        put_item(data_octets, item);
    }
}

fn put_keys(data_octets: &mut Data, keys: &[KeyId])
    requires room { length data_octets.old + length (flat_map (to_be_bytes w16) keys.now) ≤ DATA_ROOM }
    ensures put { data_octets.new ≡ data_octets.old ++ flat_map (to_be_bytes w16) keys.now }
    ensures types { All IsKey keys.now }
{
    for key in keys {
        data_octets.put_word(key.get());
    }
}

fn marks_record(key: KeyId, mark: u64, floor: u64) -> [u8; BODY_LENGTH]
    ensures { IsRecord (Marks key mark floor) result }
{
    let mut octets = Data::new();
    octets.put_word(key.get());
    octets.put_number(mark);
    octets.put_number(floor);
    octets.body(1)
}

#[tactic(auto, using(crate::proofs::Lengths::items_length), unfolding(crate::specs::Record::record_octets, crate::specs::Record::HasRecord, crate::specs::Record::HasTypes))]
fn load_record(items: &KeyItems) -> [u8; BODY_LENGTH]
    requires count { IsKeyCount (length items.now) }
    requires lengths { All (λ item. IsKeyLength (length item.bytes)) items.now }
    ensures { IsRecord (Load items.now) result }
{
    let items = items.as_slice();
    let mut octets = Data::new();
    octets.put_octet(items.len() as u8);
    put_items(&mut octets, items);
    octets.body(2)
}

#[tactic(auto, using(crate::proofs::Lengths::keys_length), unfolding(crate::specs::Record::record_octets, crate::specs::Record::HasRecord, crate::specs::Record::HasTypes))]
fn states_record(ids: &KeyList, to: KeyState) -> [u8; BODY_LENGTH]
    requires count { IsKeyCount (length ids.now) }
    requires state { to ≢ PreActive }
    ensures { IsRecord (KeyStates ids.now to) result }
{
    let keys = ids.as_slice();
    let mut octets = Data::new();
    octets.put_octet(to as u8);
    octets.put_octet(keys.len() as u8);
    put_keys(&mut octets, keys);
    octets.body(3)
}

fn create_record(new: &NewSa) -> [u8; BODY_LENGTH]
    requires { AreChannels new.now.channels }
    ensures { IsRecord (Create new.now) result }
{
    let channels = new.channels.as_slice();
    let mut octets = Data::new();
    octets.put_word(new.spi.get());
    octets.put_octet(new.direction as u8);
    octets.put_octet(new.suite as u8);
    octets.put_number(new.window);
    octets.put_octet(channels.len() as u8);
    octets.put(channels);
    octets.body(4)
}

fn rekey_record(spi: Spi, key: KeyId, number: u64) -> [u8; BODY_LENGTH]
    ensures { IsRecord (Rekey spi key number) result }
{
    let mut octets = Data::new();
    octets.put_word(spi.get());
    octets.put_word(key.get());
    octets.put_number(number);
    octets.body(5)
}

/// The number of a state of an association, or of its deletion.
fn state_code(to: Option<SaState>) -> u8
    ensures { result ≡ new_state_code to }
{
    match to {
        None => 0,
        Some(state) => state as u8,
    }
}

fn state_record(spi: Spi, to: Option<SaState>) -> [u8; BODY_LENGTH]
    ensures { IsRecord (SaTo spi to) result }
{
    let mut octets = Data::new();
    octets.put_word(spi.get());
    octets.put_octet(state_code(to));
    octets.body(6)
}

/// A record of an association's index and a number of 8 octets.
fn number_record(kind: u8, spi: Spi, number: u64) -> [u8; BODY_LENGTH]
    ensures spelled { result ≡ body_of kind (to_be_bytes w16 spi ++ to_be_bytes w64 number) }
    ensures types { IsSpi spi × (number < 2 ^ 64) }
{
    let mut octets = Data::new();
    octets.put_word(spi.get());
    octets.put_number(number);
    octets.body(kind)
}

/// Writes the record of a change: its kind, the length of its data, its data, zeros to the end.
pub fn write_record(change: &Change) -> [u8; BODY_LENGTH]
    requires { HasRecord change.now }
    ensures spelled { result ≡ record_octets change.now }
    // What is written is a record, which `read_record` reads as this change.
    ensures record_of { IsRecord change.now result }
{
    match change {
        Change::Marks { key, mark, floor } => marks_record(*key, *mark, *floor),
        Change::Load(items) => load_record(items),
        Change::KeyStates { ids, to } => states_record(ids, *to),
        Change::Create(new) => create_record(new),
        Change::Rekey { spi, key, number } => rekey_record(*spi, *key, *number),
        Change::SaTo { spi, to } => state_record(*spi, *to),
        Change::SetNumber { spi, number } => number_record(7, *spi, *number),
        Change::SetWindow { spi, window } => number_record(8, *spi, *window),
        Change::Accepted { .. } | Change::Nothing => unreachable!(),
    }
}
