//! Replies as octets.
ghost use Rattle.std.specs.Prelude.{◌≡◌, ◌*◌, ◌+◌, ◌^◌, ◌<◌, ◌≤◌, IsTrue, [], ◌∷◌, ◌++◌, length, OnOk, IfOk, IfSome};
ghost use Rattle.std.specs.Int.{w16, w32, w64, to_be_bytes, is_in_range};
ghost use Rattle.std.specs.List.{flat_map};
ghost use Rattle.ep_codec.specs.declared.reply_pdu.ReplyPdu.TheVariants.{Status};
ghost use Rattle.ep_codec.specs.Field.{is_key, is_spi};
ghost use Rattle.ep_codec.specs.Command.{message, sealed_data};
ghost use Rattle.ep_codec.specs.ReplyPdu.{AreKeyRows, row_octets, reply_octets, IsInBounds, HasTypes, IsReplyPdu};
ghost use Rattle.ep_codec.specs.Procedure.{tag_of};

use crate::command_writing::{number_message, put_sealed, sealed_message};
use crate::fields::{HEADER, KEY, SEALED_EXTRA, TAG, begin, put_double_word, put_number, put_word};
use crate::procedure::Procedure;
use crate::reply_pdu::ReplyPdu;
use sdls_base::{Direction, KeyId, KeyRows, KeyState, NoMemory, Octets, SaState, Spi, Suite};
use std::alloc::Global;

/// The type bit of a reply's tag.
const REPLY: u8 = 0x80;

/// The octets of the number that a MAC covers.
const NUMBER: usize = 4;

fn cmac_message(
    alloc: Global,
    kind: u8,
    key: KeyId,
    number: u32,
    mac: &[u8; 16],
) -> Result<Vec<u8>, NoMemory>
    ensures octets { IfOk result (λ out. out.items
        ≡ message kind (to_be_bytes w16 key ++ (to_be_bytes w32 number ++ mac.now))) }
    ensures types { OnOk result (IsTrue (is_key key) × (length mac.now ≡ 16)) }
{
    let mut out = begin(alloc, kind, KEY + NUMBER + TAG)?;
    put_word(&mut out, key.get())?;
    put_double_word(&mut out, number)?;
    out.extend_from_slice(mac)?;
    Ok(out)
}

fn put_row(out: &mut Vec<u8>, row: &(KeyId, KeyState)) -> Result<(), NoMemory>
    ensures octets { OnOk result (out.new.items ≡ out.old.items ++ row_octets row.now) }
    ensures types { OnOk result (IsTrue (is_key row.now.0)) }
{
    let (key, state) = row;
    put_word(out, key.get())?;
    out.push(*state as u8)?;
    Ok(())
}

fn put_rows(out: &mut Vec<u8>, rows: &[(KeyId, KeyState)]) -> Result<(), NoMemory>
    ensures octets { OnOk result (out.new.items ≡ out.old.items ++ flat_map row_octets rows.now) }
    ensures types { OnOk result (AreKeyRows rows.now) }
{
    for row in rows {
        put_row(out, row)?;
    }
    Ok(())
}

#[tactic(auto, using(crate::proofs::Lengths::rows_length))]
fn inventory_message(
    alloc: Global,
    kind: u8,
    total: u16,
    rows: &KeyRows,
) -> Result<Vec<u8>, NoMemory>
    requires { length rows.now ≤ 256 }
    ensures octets { IfOk result (λ out. out.items
        ≡ message kind (to_be_bytes w16 total ++ flat_map row_octets rows.now)) }
    ensures types { OnOk result (AreKeyRows rows.now) }
{
    let mut out = begin(alloc, kind, 2 + 3 * rows.as_slice().len())?;
    put_word(&mut out, total)?;
    put_rows(&mut out, rows.as_slice())?;
    Ok(out)
}

/// A message that carries a whole rekeying command.
fn compose_message(
    alloc: Global,
    kind: u8,
    master: KeyId,
    vector: &[u8; 12],
    sealed: &[u8],
    tag: &[u8; 16],
) -> Result<Vec<u8>, NoMemory>
    requires { length sealed.now ≤ 280 }
    ensures octets { IfOk result (λ out. out.items
        ≡ message kind (message 1 (sealed_data master vector.now sealed.now tag.now))) }
    ensures types { OnOk result (IsTrue (is_key master) × (length vector.now ≡ 12) × (length tag.now ≡ 16)) }
{
    let length = SEALED_EXTRA + sealed.len();
    let mut out = begin(alloc, kind, HEADER + length)?;
    out.push(Procedure::Rekeying.tag())?;
    put_word(&mut out, 8 * length as u16)?;
    put_sealed(&mut out, master, vector, sealed, tag)?;
    Ok(out)
}

#[tactic(auto, unfolding(crate::specs::ReplyPdu::reply_octets))]
fn status_message(
    alloc: Global,
    spi: Spi,
    state: SaState,
    direction: Direction,
    suite: Suite,
    key: Option<KeyId>,
    window: u64,
) -> Result<Vec<u8>, NoMemory>
    ensures octets { IfOk result (λ out. out.items
        ≡ reply_octets (Status spi state direction suite key window)) }
    ensures types { OnOk result (IsTrue (is_spi spi) × IfSome key (λ key. IsTrue (is_key key))) }
{
    let mut out = begin(alloc, REPLY + Procedure::Status.tag(), 15)?;
    put_word(&mut out, spi.get())?;
    out.push(state as u8)?;
    out.push(direction as u8)?;
    out.push(suite as u8)?;
    put_word(&mut out, key.map_or(0, |key| key.get()))?;
    put_number(&mut out, window)?;
    Ok(out)
}

#[tactic(auto, unfolding(crate::specs::ReplyPdu::reply_octets, crate::specs::ReplyPdu::IsInBounds, crate::specs::ReplyPdu::HasTypes))]
fn octets_of(alloc: Global, reply: &ReplyPdu) -> Result<Vec<u8>, NoMemory>
    requires { IsInBounds reply.now }
    ensures octets { IfOk result (λ out. out.items ≡ reply_octets reply.now) }
    ensures types { OnOk result (HasTypes reply.now) }
{
    let kind = REPLY + reply.procedure().tag();
    match reply {
        ReplyPdu::VerifyGcm {
            key,
            vector,
            sealed,
            tag,
        } => sealed_message(alloc, kind, *key, vector, sealed, tag),
        ReplyPdu::VerifyCmac { key, number, mac } => cmac_message(alloc, kind, *key, *number, mac),
        ReplyPdu::Inventory { total, rows } => inventory_message(alloc, kind, *total, rows),
        ReplyPdu::Compose {
            master,
            vector,
            sealed,
            tag,
        } => compose_message(alloc, kind, *master, vector, sealed.as_slice(), tag),
        ReplyPdu::ReadNumber { spi, number } => number_message(alloc, kind, *spi, *number),
        ReplyPdu::Status {
            spi,
            state,
            direction,
            suite,
            key,
            window,
        } => status_message(alloc, *spi, *state, *direction, *suite, *key, *window),
        _ => begin(alloc, kind, 0),
    }
}

/// Writes a reply whose values lie in the bounds of their fields.
pub fn write_reply(alloc: Global, reply: &ReplyPdu) -> Result<Octets, NoMemory>
    requires { IsInBounds reply.now }
    ensures spelled { IfOk result (λ octets. octets ≡ reply_octets reply.now) }
    // What is written is a message, which `read_reply` reads as this reply.
    ensures message { IfOk result (IsReplyPdu reply.now) }
{
    Ok(Octets::new(octets_of(alloc, reply)?))
}
