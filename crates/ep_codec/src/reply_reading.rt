//! The fields of replies.
#![tactic(auto, unfolding(crate::specs::MessageFault::reply_checks, crate::specs::ReplyReading::reply_at))]

ghost use Rattle.std.specs.Prelude.{◌≡◌, ◌-◌, ◌+◌, ◌*◌, ◌^◌, ◌<◌, ◌≤◌, IsTrue, length, [], ◌∷◌};
ghost use Rattle.ep_codec.specs.declared.procedure.Procedure.TheVariants.{Verify, Inventory, Compose, ReadNumber};
ghost use Rattle.ep_codec.specs.declared.procedure.Procedure.TheVariants.{Status};
ghost use Rattle.ep_codec.specs.Check.{JudgesMessage};
ghost use Rattle.ep_codec.specs.MessageFault.{reply_checks};
ghost use Rattle.ep_codec.specs.ReplyReading.{reply_at};
ghost use Rattle.ep_codec.specs.Procedure.{has_reply_length};
ghost use Rattle.sdls_base.specs.Places.{word_at};
ghost use Rattle.ep_codec.specs.Field.{sealing_key_check, mac_key_check, inner_tag_check, inner_length_check};

use crate::fields::{TAG, VECTOR, array, direction, key, rows, sa_state, spi, suite, window};
use crate::procedure::{PduError, Procedure};
use crate::reply_pdu::ReplyPdu;
use sdls_base::{KeyClass, KeyId, Octets, double_word_at, number_at, word_at};
use std::alloc::Global;

/// A key whose class seals.
fn sealing_key(octets: &[u8], at: usize) -> Result<KeyId, PduError>
    requires room { at + 2 ≤ length octets.now }
    requires offset { at < 2 ^ 32 }
    ensures { JudgesMessage result (sealing_key_check at octets.now ∷ [])
        (λ key. key ≡ word_at at octets.now) }
{
    let key = key(octets, at)?;
    match key.class() {
        KeyClass::Master | KeyClass::Gcm => Ok(key),
        KeyClass::Cmac => Err(PduError::Fault(at as u32)),
    }
}

/// A key whose class makes MACs.
fn mac_key(octets: &[u8], at: usize) -> Result<KeyId, PduError>
    requires room { at + 2 ≤ length octets.now }
    requires offset { at < 2 ^ 32 }
    ensures { JudgesMessage result (mac_key_check at octets.now ∷ [])
        (λ key. key ≡ word_at at octets.now) }
{
    let key = key(octets, at)?;
    match key.class() {
        KeyClass::Cmac => Ok(key),
        KeyClass::Master | KeyClass::Gcm => Err(PduError::Fault(at as u32)),
    }
}

fn verify_gcm(octets: &[u8]) -> Result<ReplyPdu, PduError>
    requires { length octets.now ≡ 49 }
    ensures { JudgesMessage result (reply_checks Verify octets.now)
        (λ reply. reply ≡ reply_at Verify octets.now) }
{
    Ok(ReplyPdu::VerifyGcm {
        key: sealing_key(octets, 3)?,
        vector: array(octets, 5),
        sealed: array(octets, 17),
        tag: array(octets, 33),
    })
}

fn verify_cmac(octets: &[u8]) -> Result<ReplyPdu, PduError>
    requires { length octets.now ≡ 25 }
    ensures { JudgesMessage result (reply_checks Verify octets.now)
        (λ reply. reply ≡ reply_at Verify octets.now) }
{
    Ok(ReplyPdu::VerifyCmac {
        key: mac_key(octets, 3)?,
        number: double_word_at(octets, 5),
        mac: array(octets, 9),
    })
}

fn verify(octets: &[u8]) -> Result<ReplyPdu, PduError>
    requires { IsTrue (has_reply_length Verify (length octets.now - 3)) }
    ensures { JudgesMessage result (reply_checks Verify octets.now)
        (λ reply. reply ≡ reply_at Verify octets.now) }
{
    if octets.len() == 49 {
        verify_gcm(octets)
    } else {
        verify_cmac(octets)
    }
}

fn inventory(alloc: Global, octets: &[u8]) -> Result<ReplyPdu, PduError>
    requires { IsTrue (has_reply_length Inventory (length octets.now - 3)) }
    ensures { JudgesMessage result (reply_checks Inventory octets.now)
        (λ reply. reply ≡ reply_at Inventory octets.now) }
{
    Ok(ReplyPdu::Inventory {
        total: word_at(octets, 3),
        rows: rows(alloc, &octets[5..], 5)?,
    })
}

/// The tag of the rekeying command inside, and its length.
fn inner_header(octets: &[u8]) -> Result<(), PduError>
    requires room { 6 ≤ length octets.now }
    requires few { length octets.now < 2 ^ 16 }
    ensures { JudgesMessage result (inner_tag_check 3 octets.now ∷ inner_length_check 4 octets.now ∷ [])
        (λ _. Unit {0}) }
{
    if octets[3] != 1 {
        return Err(PduError::Fault(3));
    }
    if usize::from(word_at(octets, 4)) != 8 * (octets.len() - 6) {
        return Err(PduError::Fault(4));
    }
    Ok(())
}

fn compose(alloc: Global, octets: &[u8]) -> Result<ReplyPdu, PduError>
    requires { IsTrue (has_reply_length Compose (length octets.now - 3)) }
    ensures { JudgesMessage result (reply_checks Compose octets.now)
        (λ reply. reply ≡ reply_at Compose octets.now) }
{
    inner_header(octets)?;
    let end = octets.len() - TAG;
    Ok(ReplyPdu::Compose {
        master: key(octets, 6)?,
        vector: array(octets, 8),
        sealed: Octets::new(Vec::from_slice(alloc, &octets[8 + VECTOR..end])?),
        tag: array(octets, end),
    })
}

fn read_number(octets: &[u8]) -> Result<ReplyPdu, PduError>
    requires { length octets.now ≡ 13 }
    ensures { JudgesMessage result (reply_checks ReadNumber octets.now)
        (λ reply. reply ≡ reply_at ReadNumber octets.now) }
{
    Ok(ReplyPdu::ReadNumber {
        spi: spi(octets, 3)?,
        number: number_at(octets, 5),
    })
}

fn status(octets: &[u8]) -> Result<ReplyPdu, PduError>
    requires { length octets.now ≡ 18 }
    ensures { JudgesMessage result (reply_checks Status octets.now)
        (λ reply. reply ≡ reply_at Status octets.now) }
{
    Ok(ReplyPdu::Status {
        spi: spi(octets, 3)?,
        state: sa_state(octets, 5)?,
        direction: direction(octets, 6)?,
        suite: suite(octets, 7)?,
        key: KeyId::new(word_at(octets, 8)),
        window: window(octets, 10)?,
    })
}

/// The reply of a procedure, of octets whose length is one that its messages have.
pub(crate) fn reply(
    alloc: Global,
    procedure: Procedure,
    octets: &[u8],
) -> Result<ReplyPdu, PduError>
    requires whole { 3 ≤ length octets.now }
    requires fits { IsTrue (has_reply_length procedure (length octets.now - 3)) }
    ensures { JudgesMessage result (reply_checks procedure octets.now)
        (λ reply. reply ≡ reply_at procedure octets.now) }
{
    match procedure {
        Procedure::Rekeying => Ok(ReplyPdu::Rekeying),
        Procedure::Activate => Ok(ReplyPdu::Activate),
        Procedure::Deactivate => Ok(ReplyPdu::Deactivate),
        Procedure::Verify => verify(octets),
        Procedure::Destroy => Ok(ReplyPdu::Destroy),
        Procedure::Inventory => inventory(alloc, octets),
        Procedure::Compose => compose(alloc, octets),
        Procedure::ReadNumber => read_number(octets),
        Procedure::Create => Ok(ReplyPdu::Create),
        Procedure::Delete => Ok(ReplyPdu::Delete),
        Procedure::SetWindow => Ok(ReplyPdu::SetWindow),
        Procedure::Rekey => Ok(ReplyPdu::Rekey),
        Procedure::Expire => Ok(ReplyPdu::Expire),
        Procedure::SetNumber => Ok(ReplyPdu::SetNumber),
        Procedure::Start => Ok(ReplyPdu::Start),
        Procedure::Stop => Ok(ReplyPdu::Stop),
        Procedure::Status => status(octets),
    }
}
