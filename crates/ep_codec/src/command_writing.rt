//! Commands as octets.
ghost use Rattle.std.specs.Prelude.{◌≡◌, ◌*◌, ◌+◌, ◌^◌, ◌<◌, ◌≤◌, IsTrue, [], ◌∷◌, ◌++◌, length, OnOk, IfOk};
ghost use Rattle.std.specs.Int.{w16, w64, to_be_bytes, is_in_range};
ghost use Rattle.sdls_base.specs.Bounds.{IsKeyCount};
ghost use Rattle.sdls_base.specs.Spelling.{association_octets};
ghost use Rattle.ep_codec.specs.Field.{is_key, is_spi};
ghost use Rattle.ep_codec.specs.Command.{AreKeys, message, sealed_data, keys_data, command_octets, IsInBounds};
ghost use Rattle.ep_codec.specs.Command.{HasTypes, IsCommandPdu};

use crate::command::Command;
use crate::fields::{SEALED_EXTRA, begin, put_number, put_word};
use sdls_base::{KeyId, KeyList, MOST_CHANNELS, NewSa, NoMemory, Octets, Spi};
use std::alloc::Global;

/// A message of an association's index alone.
fn spi_message(alloc: Global, kind: u8, spi: Spi) -> Result<Vec<u8>, NoMemory>
    ensures octets { IfOk result (λ out. out.items ≡ message kind (to_be_bytes w16 spi)) }
    ensures types { OnOk result (IsTrue (is_spi spi)) }
{
    let mut out = begin(alloc, kind, 2)?;
    put_word(&mut out, spi.get())?;
    Ok(out)
}

/// A message of an association's index and a number of 8 octets.
pub(crate) fn number_message(
    alloc: Global,
    kind: u8,
    spi: Spi,
    number: u64,
) -> Result<Vec<u8>, NoMemory>
    ensures octets { IfOk result (λ out. out.items
        ≡ message kind (to_be_bytes w16 spi ++ to_be_bytes w64 number)) }
    ensures types { OnOk result (IsTrue (is_spi spi)) }
{
    let mut out = begin(alloc, kind, 10)?;
    put_word(&mut out, spi.get())?;
    put_number(&mut out, number)?;
    Ok(out)
}

fn put_keys(out: &mut Vec<u8>, keys: &KeyList) -> Result<(), NoMemory>
    ensures octets { OnOk result (out.new.items ≡ out.old.items ++ keys_data keys.now) }
    ensures types { OnOk result (AreKeys keys.now) }
{
    for key in keys.as_slice() {
        put_word(out, key.get())?;
    }
    Ok(())
}

#[tactic(auto, using(crate::proofs::Lengths::keys_length))]
fn keys_message(alloc: Global, kind: u8, keys: &KeyList) -> Result<Vec<u8>, NoMemory>
    requires { IsKeyCount (length keys.now) }
    ensures octets { IfOk result (λ out. out.items ≡ message kind (keys_data keys.now)) }
    ensures types { OnOk result (AreKeys keys.now) }
{
    let mut out = begin(alloc, kind, 2 * keys.as_slice().len())?;
    put_keys(&mut out, keys)?;
    Ok(out)
}

/// Puts a key, a vector, what is sealed with them, and its tag.
pub(crate) fn put_sealed(
    out: &mut Vec<u8>,
    key: KeyId,
    vector: &[u8; 12],
    sealed: &[u8],
    tag: &[u8; 16],
) -> Result<(), NoMemory>
    ensures octets { OnOk result (out.new.items
        ≡ out.old.items ++ sealed_data key vector.now sealed.now tag.now) }
    ensures types { OnOk result (IsTrue (is_key key) × (length vector.now ≡ 12) × (length tag.now ≡ 16)) }
{
    put_word(out, key.get())?;
    out.extend_from_slice(vector)?;
    out.extend_from_slice(sealed)?;
    out.extend_from_slice(tag)?;
    Ok(())
}

pub(crate) fn sealed_message(
    alloc: Global,
    kind: u8,
    key: KeyId,
    vector: &[u8; 12],
    sealed: &[u8],
    tag: &[u8; 16],
) -> Result<Vec<u8>, NoMemory>
    requires { length sealed.now ≤ 280 }
    ensures octets { IfOk result (λ out. out.items
        ≡ message kind (sealed_data key vector.now sealed.now tag.now)) }
    ensures types { OnOk result (IsTrue (is_key key) × (length vector.now ≡ 12) × (length tag.now ≡ 16)) }
{
    let mut out = begin(alloc, kind, SEALED_EXTRA + sealed.len())?;
    put_sealed(&mut out, key, vector, sealed, tag)?;
    Ok(out)
}

fn create_message(alloc: Global, kind: u8, sa: &NewSa) -> Result<Vec<u8>, NoMemory>
    requires { length sa.now.channels ≤ MOST_CHANNELS }
    ensures octets { IfOk result (λ out. out.items ≡ message kind (association_octets sa.now)) }
    ensures types { OnOk result (IsTrue (is_spi sa.now.spi)) }
{
    let channels = sa.channels.as_slice();
    let mut out = begin(alloc, kind, 13 + channels.len())?;
    put_word(&mut out, sa.spi.get())?;
    out.push(sa.direction as u8)?;
    out.push(sa.suite as u8)?;
    put_number(&mut out, sa.window)?;
    out.push(channels.len() as u8)?;
    out.extend_from_slice(channels)?;
    Ok(out)
}

fn verify_message(
    alloc: Global,
    kind: u8,
    key: KeyId,
    challenge: &[u8; 16],
) -> Result<Vec<u8>, NoMemory>
    ensures octets { IfOk result (λ out. out.items ≡ message kind (to_be_bytes w16 key ++ challenge.now)) }
    ensures types { OnOk result (IsTrue (is_key key) × (length challenge.now ≡ 16)) }
{
    let mut out = begin(alloc, kind, 18)?;
    put_word(&mut out, key.get())?;
    out.extend_from_slice(challenge)?;
    Ok(out)
}

fn inventory_message(alloc: Global, kind: u8, first: u16, last: u16) -> Result<Vec<u8>, NoMemory>
    ensures { IfOk result (λ out. out.items
        ≡ message kind (to_be_bytes w16 first ++ to_be_bytes w16 last)) }
{
    let mut out = begin(alloc, kind, 4)?;
    put_word(&mut out, first)?;
    put_word(&mut out, last)?;
    Ok(out)
}

#[tactic(auto, using(crate::proofs::Lengths::keys_length))]
fn compose_message(
    alloc: Global,
    kind: u8,
    master: KeyId,
    keys: &KeyList,
) -> Result<Vec<u8>, NoMemory>
    requires { IsKeyCount (length keys.now) }
    ensures octets { IfOk result (λ out. out.items
        ≡ message kind (to_be_bytes w16 master ++ keys_data keys.now)) }
    ensures types { OnOk result (IsTrue (is_key master) × AreKeys keys.now) }
{
    let mut out = begin(alloc, kind, 2 + 2 * keys.as_slice().len())?;
    put_word(&mut out, master.get())?;
    put_keys(&mut out, keys)?;
    Ok(out)
}

fn rekey_message(
    alloc: Global,
    kind: u8,
    spi: Spi,
    key: KeyId,
    number: u64,
) -> Result<Vec<u8>, NoMemory>
    ensures octets { IfOk result (λ out. out.items
        ≡ message kind (to_be_bytes w16 spi ++ (to_be_bytes w16 key ++ to_be_bytes w64 number))) }
    ensures types { OnOk result (IsTrue (is_spi spi) × IsTrue (is_key key)) }
{
    let mut out = begin(alloc, kind, 12)?;
    put_word(&mut out, spi.get())?;
    put_word(&mut out, key.get())?;
    put_number(&mut out, number)?;
    Ok(out)
}

#[tactic(auto, unfolding(crate::specs::Command::command_octets, crate::specs::Command::IsInBounds, crate::specs::Command::HasTypes))]
fn octets_of(alloc: Global, command: &Command) -> Result<Vec<u8>, NoMemory>
    requires { IsInBounds command.now }
    ensures octets { IfOk result (λ out. out.items ≡ command_octets command.now) }
    ensures types { OnOk result (HasTypes command.now) }
{
    let kind = command.procedure().tag();
    match command {
        Command::Rekeying {
            master,
            vector,
            sealed,
            tag,
        } => sealed_message(alloc, kind, *master, vector, sealed.as_slice(), tag),
        Command::Activate(keys) | Command::Deactivate(keys) | Command::Destroy(keys) => {
            keys_message(alloc, kind, keys)
        }
        Command::Verify { key, challenge } => verify_message(alloc, kind, *key, challenge),
        Command::Inventory { first, last } => inventory_message(alloc, kind, *first, *last),
        Command::Compose { master, keys } => compose_message(alloc, kind, *master, keys),
        Command::Create(sa) => create_message(alloc, kind, sa),
        Command::Rekey { spi, key, number } => rekey_message(alloc, kind, *spi, *key, *number),
        Command::SetWindow {
            spi,
            window: number,
        }
        | Command::SetNumber { spi, number } => number_message(alloc, kind, *spi, *number),
        Command::ReadNumber(spi)
        | Command::Delete(spi)
        | Command::Expire(spi)
        | Command::Start(spi)
        | Command::Stop(spi)
        | Command::Status(spi) => spi_message(alloc, kind, *spi),
    }
}

/// Writes a command whose values lie in the bounds of their fields.
pub fn write_pdu(alloc: Global, command: &Command) -> Result<Octets, NoMemory>
    requires { IsInBounds command.now }
    ensures spelled { IfOk result (λ octets. octets ≡ command_octets command.now) }
    // What is written is a message, which `read_pdu` reads as this command.
    ensures message { IfOk result (IsCommandPdu command.now) }
{
    Ok(Octets::new(octets_of(alloc, command)?))
}
