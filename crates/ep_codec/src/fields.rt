//! The fields of a message, read at their places and written one after the other, and what stands before them.
ghost use Rattle.std.specs.Prelude.{◌≡◌, ◌+◌, ◌^◌, ◌<◌, ◌≤◌, not, length, slice_range, [], ◌∷◌, IfOk, ◌*◌, ◌++◌};
ghost use Rattle.std.specs.Prelude.{OnOk, ◌-◌, IsTrue};
ghost use Rattle.std.specs.Int.{is_in_range, w16, w32, w64, to_be_bytes};
ghost use Rattle.sdls_base.specs.Code.{sa_state_of, direction_of, suite_of, key_state_of};
ghost use Rattle.sdls_base.specs.Places.{octet_at, word_at, number_at};
ghost use Rattle.ep_codec.specs.Check.{JudgesMessage, IsReadUnlessNoMemory, HasFault};
ghost use Rattle.ep_codec.specs.Field.{is_key, key_check, spi_check, window_check, code_check};
ghost use Rattle.ep_codec.specs.FieldList.{keys_in, key_checks, rows_in, row_checks, channel_checks};
ghost use Rattle.ep_codec.specs.declared.command.Command.{Command};
ghost use Rattle.ep_codec.specs.declared.reply_pdu.ReplyPdu.{ReplyPdu};
ghost use Rattle.ep_codec.specs.Command.{IsCommandPdu};
ghost use Rattle.ep_codec.specs.ReplyPdu.{IsReplyPdu};
ghost use Rattle.ep_codec.specs.MessageFault.{command_fault, reply_fault, header_checks, procedure_in};
ghost use Rattle.ep_codec.specs.Procedure.{has_length};

use crate::command::Command;
use crate::command_reading::command;
use crate::procedure::{PduError, PduType, Procedure};
use crate::reply_pdu::ReplyPdu;
use crate::reply_reading::reply;
use byteorder::{BigEndian, ByteOrder};
use replay_window::is_window_field;
use sdls_base::{
    Direction, KeyId, KeyList, KeyRows, KeyState, NoMemory, Octets, SaState, Spi, Suite, number_at,
    word_at,
};
use std::alloc::Global;

/// The octets of a vector.
pub(crate) const VECTOR: usize = 12;

/// The octets of the tag behind what is sealed.
pub(crate) const TAG: usize = 16;

/// The octets of a key's identifier.
pub(crate) const KEY: usize = 2;

/// The octets around what is sealed: the key, the vector, and the tag.
pub(crate) const SEALED_EXTRA: usize = KEY + VECTOR + TAG;

/// So many octets from a place on.
pub(crate) fn array<const N: usize>(octets: &[u8], at: usize) -> [u8; N]
    requires { at + N ≤ length octets.now }
    ensures { result ≡ slice_range octets.now at (at + N) }
{
    let mut array = [0; N];
    array.copy_from_slice(&octets[at..at + N]);
    array
}

/// The key that a number names, which stands at a place.
pub(crate) fn key_of(number: u16, at: usize) -> Result<KeyId, PduError>
    requires { at < 2 ^ 32 }
    ensures { JudgesMessage result ((not (is_key number), at) ∷ []) (λ key. key ≡ number) }
{
    KeyId::new(number).ok_or(PduError::Fault(at as u32))
}

pub(crate) fn key(octets: &[u8], at: usize) -> Result<KeyId, PduError>
    requires room { at + 2 ≤ length octets.now }
    requires offset { at < 2 ^ 32 }
    ensures { JudgesMessage result (key_check at octets.now ∷ []) (λ key. key ≡ word_at at octets.now) }
{
    key_of(word_at(octets, at), at)
}

pub(crate) fn spi(octets: &[u8], at: usize) -> Result<Spi, PduError>
    requires room { at + 2 ≤ length octets.now }
    requires offset { at < 2 ^ 32 }
    ensures { JudgesMessage result (spi_check at octets.now ∷ []) (λ spi. spi ≡ word_at at octets.now) }
{
    Spi::new(word_at(octets, at)).ok_or(PduError::Fault(at as u32))
}

pub(crate) fn window(octets: &[u8], at: usize) -> Result<u64, PduError>
    requires room { at + 8 ≤ length octets.now }
    requires offset { at < 2 ^ 32 }
    ensures { JudgesMessage result (window_check at octets.now ∷ [])
        (λ window. window ≡ number_at at octets.now) }
{
    let window = number_at(octets, at);
    if is_window_field(window) {
        Ok(window)
    } else {
        Err(PduError::Fault(at as u32))
    }
}

pub(crate) fn sa_state(octets: &[u8], at: usize) -> Result<SaState, PduError>
    requires room { at < length octets.now }
    requires offset { at < 2 ^ 32 }
    ensures { JudgesMessage result (code_check 3 at octets.now ∷ [])
        (λ state. state ≡ sa_state_of (octet_at at octets.now)) }
{
    SaState::from_code(octets[at]).ok_or(PduError::Fault(at as u32))
}

pub(crate) fn direction(octets: &[u8], at: usize) -> Result<Direction, PduError>
    requires room { at < length octets.now }
    requires offset { at < 2 ^ 32 }
    ensures { JudgesMessage result (code_check 2 at octets.now ∷ [])
        (λ direction. direction ≡ direction_of (octet_at at octets.now)) }
{
    Direction::from_code(octets[at]).ok_or(PduError::Fault(at as u32))
}

pub(crate) fn suite(octets: &[u8], at: usize) -> Result<Suite, PduError>
    requires room { at < length octets.now }
    requires offset { at < 2 ^ 32 }
    ensures { JudgesMessage result (code_check 2 at octets.now ∷ [])
        (λ suite. suite ≡ suite_of (octet_at at octets.now)) }
{
    Suite::from_code(octets[at]).ok_or(PduError::Fault(at as u32))
}

/// The keys from a place on, where a message has these octets to its end.
pub(crate) fn keys(alloc: Global, octets: &[u8], at: usize) -> Result<KeyList, PduError>
    requires { at + length octets.now < 2 ^ 32 }
    ensures { JudgesMessage result (key_checks at octets.now) (λ keys. keys ≡ keys_in octets.now) }
{
    let mut keys = Vec::new(alloc);
    let mut rest = octets;
    let mut next = at;
    while let [high, low, after @ ..] = rest {
        keys.push(key_of(u16::from_be_bytes([*high, *low]), next)?)?;
        rest = after;
        next += 2;
    }
    Ok(KeyList::new(keys))
}

/// The state of a key that a number names, which stands at a place.
fn key_state(number: u8, at: usize) -> Result<KeyState, PduError>
    requires { at < 2 ^ 32 }
    ensures { JudgesMessage result ((not (is_in_range 1 4 number), at) ∷ [])
        (λ state. state ≡ key_state_of number) }
{
    KeyState::from_code(number).ok_or(PduError::Fault(at as u32))
}

/// The keys with their states from a place on, where a message has these octets to its end.
pub(crate) fn rows(alloc: Global, octets: &[u8], at: usize) -> Result<KeyRows, PduError>
    requires { at + length octets.now < 2 ^ 32 }
    ensures { JudgesMessage result (row_checks at octets.now) (λ rows. rows ≡ rows_in octets.now) }
{
    let mut rows = Vec::new(alloc);
    let mut rest = octets;
    let mut next = at;
    while let [high, low, state, after @ ..] = rest {
        let key = key_of(u16::from_be_bytes([*high, *low]), next)?;
        let state = key_state(*state, next + 2)?;
        rows.push((key, state))?;
        rest = after;
        next += 3;
    }
    Ok(KeyRows::new(rows))
}

/// The channels from a place on, where a message has these octets to its end.
pub(crate) fn channels(alloc: Global, octets: &[u8], at: usize) -> Result<Octets, PduError>
    requires { at + length octets.now < 2 ^ 32 }
    ensures { JudgesMessage result (channel_checks at 0 octets.now) (λ channels. channels ≡ octets.now) }
{
    let mut least = 0;
    let mut rest = octets;
    let mut next = at;
    while let [channel, after @ ..] = rest {
        if *channel < least || *channel > 63 {
            return Err(PduError::Fault(next as u32));
        }
        least = *channel + 1;
        rest = after;
        next += 1;
    }
    Ok(Octets::new(Vec::from_slice(alloc, octets)?))
}

/// Reads a command, which is all of the octets. `Fault` carries the offset of the first fault: the
/// tag, the length, the end of the octets or of the message, or a field out of its bounds.
pub fn read_pdu(alloc: Global, octets: &[u8]) -> Result<Command, PduError>
    // What is read is spelled so, all of the octets.
    ensures found { IfOk result (λ command. IsCommandPdu command octets.now) }
    // What is spelled so is read, unless memory runs out.
    ensures only { (command : Command) → IsCommandPdu command octets.now
        → IsReadUnlessNoMemory result command }
    // Nothing is read where there is a fault, and a fault that is answered is the first.
    ensures fault { HasFault result (command_fault octets.now) }
{
    let procedure = procedure(octets, PduType::Command)?;
    command(alloc, procedure, octets)
}

/// Reads a reply, which is all of the octets. `Fault` is as in [`read_pdu`].
pub fn read_reply(alloc: Global, octets: &[u8]) -> Result<ReplyPdu, PduError>
    // What is read is spelled so, all of the octets.
    ensures found { IfOk result (λ reply. IsReplyPdu reply octets.now) }
    // What is spelled so is read, unless memory runs out.
    ensures only { (reply : ReplyPdu) → IsReplyPdu reply octets.now
        → IsReadUnlessNoMemory result reply }
    // Nothing is read where there is a fault, and a fault that is answered is the first.
    ensures fault { HasFault result (reply_fault octets.now) }
{
    let procedure = procedure(octets, PduType::Reply)?;
    reply(alloc, procedure, octets)
}

/// The octets before the data of a message: its tag, and the length of the data in bits.
pub(crate) const HEADER: usize = 3;

pub(crate) fn put_word(out: &mut Vec<u8>, n: u16) -> Result<(), NoMemory>
    ensures { OnOk result (out.new.items ≡ out.old.items ++ to_be_bytes w16 n) }
{
    let mut field = [0; 2];
    BigEndian::write_u16(&mut field, n);
    out.extend_from_slice(&field)?;
    Ok(())
}

pub(crate) fn put_double_word(out: &mut Vec<u8>, n: u32) -> Result<(), NoMemory>
    ensures { OnOk result (out.new.items ≡ out.old.items ++ to_be_bytes w32 n) }
{
    let mut field = [0; 4];
    BigEndian::write_u32(&mut field, n);
    out.extend_from_slice(&field)?;
    Ok(())
}

pub(crate) fn put_number(out: &mut Vec<u8>, n: u64) -> Result<(), NoMemory>
    ensures { OnOk result (out.new.items ≡ out.old.items ++ to_be_bytes w64 n) }
{
    let mut field = [0; 8];
    BigEndian::write_u64(&mut field, n);
    out.extend_from_slice(&field)?;
    Ok(())
}

/// The octets before the data of a message, which has so many octets.
pub(crate) fn begin(alloc: Global, tag: u8, length: usize) -> Result<Vec<u8>, NoMemory>
    requires { length < 2 ^ 13 }
    ensures { IfOk result (λ out. out.items ≡ tag ∷ to_be_bytes w16 (8 * length)) }
{
    let mut out = Vec::with_capacity(alloc, HEADER + length)?;
    out.push(tag)?;
    put_word(&mut out, 8 * length as u16)?;
    Ok(out)
}

/// The procedure of a message of this type, by its tag. Its length is one that the procedure can
/// have, and that of the octets.
#[tactic(auto, unfolding(crate::specs::MessageFault::header_checks, crate::specs::MessageFault::procedure_in))]
pub(crate) fn procedure(octets: &[u8], pdu_type: PduType) -> Result<Procedure, PduError>
    ensures judged { JudgesMessage result (header_checks pdu_type octets.now)
        (λ procedure. procedure_in pdu_type octets.now ≡ Some procedure) }
    ensures framed { IfOk result (λ procedure. IsTrue (has_length pdu_type procedure (length octets.now - 3))
        × (3 ≤ length octets.now) × (length octets.now < 2 ^ 16)) }
{
    let [tag, _, _, ..] = octets else {
        return Err(PduError::Fault(octets.len() as u32));
    };
    let procedure = pdu_type.procedure(*tag).ok_or(PduError::Fault(0))?;
    let bits = usize::from(word_at(octets, 1));
    if bits % 8 != 0 || !pdu_type.has_length(procedure, bits / 8) {
        return Err(PduError::Fault(1));
    }
    let end = 3 + bits / 8;
    if octets.len() < end {
        return Err(PduError::Fault(octets.len() as u32));
    }
    if octets.len() > end {
        return Err(PduError::Fault(end as u32));
    }
    Ok(procedure)
}
