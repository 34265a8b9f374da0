//! Challenges that are answered.
ghost use Rattle.std.specs.Prelude.{◌≡◌, ◌≤◌, ◌<◌, ◌^◌, ◌++◌, IfOk, IsTrue, length, None, Some};
ghost use Rattle.sdls_base.specs.Bounds.{IsKeyLength};
ghost use Rattle.sdls_base.specs.KeyId.{class_of};
ghost use Rattle.sdls_base.specs.declared.key_id.KeyClass.TheVariants.{Cmac};
ghost use Rattle.cmac.specs.Cmac.{mac};
ghost use Rattle.unit_state.specs.State.{KeepsRules};
ghost use Rattle.ep_codec.specs.declared.command.Command.TheVariants.{Verify};
ghost use Rattle.ep_codec.specs.declared.reply_pdu.ReplyPdu.TheVariants.{VerifyCmac};
ghost use Rattle.ep_codec.specs.Field.{seals};
ghost use Rattle.ep_codec.specs.ReplyPdu.{IsInBounds};
ghost use Rattle.ep_core.specs.Refusals.{refusal_of};
ghost use Rattle.ep_core.specs.Sealed.{challenge_text};
ghost use Rattle.ep_core.specs.Need.{need_of};
ghost use Rattle.ep_core.specs.Seen.{MeetsNeed, IsNumberSeen, number_of};
ghost use Rattle.ep_core.specs.Step.{IsDone, IsStep, sealed_challenge, verified};

use crate::refusal::Reply;
use crate::sealing::{challenge_data, number_of, schedule, verify_refusal};
use crate::step::{refused, using_number};
use cmac::mac;
use ep_codec::ReplyPdu;
use gcm::seal_in_place;
use key_book::KeyRow;
use sdls_base::{Change, KeyClass, KeyId, NoMemory, Seen};
use sdls_header::wide_octets;
use std::alloc::{AllocError, Global};
use unit_state::State;

/// What a MAC over a challenge covers. No frame begins so.
fn challenge_text(alloc: Global, number: u32, challenge: &[u8; 16]) -> Result<Vec<u8>, AllocError>
    ensures { IfOk result (λ text. text.items ≡ challenge_text number challenge.now) }
{
    let mut text = Vec::from_slice(alloc, &[0xFF; 4])?;
    text.extend_from_slice(&number.to_be_bytes())?;
    text.extend_from_slice(challenge)?;
    Ok(text)
}

/// A challenge, sealed with the unit's vector for the number.
#[tactic(auto, unfolding(ep_codec::specs::ReplyPdu::IsInBounds))]
fn seal_challenge(
    device: &[u8; 4],
    key: KeyId,
    held: &KeyRow,
    number: u64,
    challenge: &[u8; 16],
) -> ReplyPdu
    requires bytes { IsKeyLength (length held.now.bytes) }
    requires class { IsTrue (seals (class_of key)) }
    ensures reply { result ≡ sealed_challenge device.now key held.now number challenge.now }
    ensures bounds { IsInBounds result }
{
    let vector = wide_octets(*device, number);
    let mut sealed = *challenge;
    let tag = seal_in_place(&schedule(held), &vector, &challenge_data(key), &mut sealed);
    ReplyPdu::VerifyGcm {
        key,
        vector,
        sealed,
        tag,
    }
}

/// A MAC over a challenge.
#[tactic(auto, unfolding(ep_codec::specs::ReplyPdu::IsInBounds))]
fn mac_of_challenge(
    alloc: Global,
    key: KeyId,
    held: &KeyRow,
    number: u32,
    challenge: &[u8; 16],
) -> Result<ReplyPdu, NoMemory>
    requires bytes { IsKeyLength (length held.now.bytes) }
    requires class { class_of key ≡ Cmac }
    ensures reply { IfOk result (λ pdu. pdu
        ≡ VerifyCmac key number (mac held.now.bytes (challenge_text number challenge.now))) }
    ensures bounds { IfOk result IsInBounds }
{
    let text = challenge_text(alloc, number, challenge)?;
    Ok(ReplyPdu::VerifyCmac {
        key,
        number,
        mac: mac(&schedule(held), &text),
    })
}

/// A challenge under a key that is there, sealed or with a MAC by the key's class.
fn answer_challenge(
    alloc: Global,
    state: &State,
    key: KeyId,
    held: &KeyRow,
    number: u64,
    challenge: &[u8; 16],
) -> Result<ReplyPdu, NoMemory>
    requires bytes { IsKeyLength (length held.now.bytes) }
    requires number { class_of key ≡ Cmac → number < 2 ^ 32 }
    ensures reply { IfOk result (λ pdu. pdu
        ≡ verified (class_of key) state.now.device key held.now number challenge.now) }
    ensures bounds { IfOk result IsInBounds }
{
    match key.class() {
        KeyClass::Master => Ok(seal_challenge(&state.device, key, held, number, challenge)),
        KeyClass::Gcm => Ok(seal_challenge(&state.device, key, held, number, challenge)),
        KeyClass::Cmac => mac_of_challenge(alloc, key, held, number as u32, challenge),
    }
}

/// The answer to a challenge under a key that is there and usable.
fn answer(
    alloc: Global,
    state: &State,
    key: KeyId,
    challenge: &[u8; 16],
    seen: &Seen,
) -> Result<(Change, Reply), NoMemory>
    requires rules { KeepsRules state.now }
    requires drawn { IsNumberSeen state.now key seen.now }
    requires free { refusal_of state.now (Verify key challenge.now) seen.now ≡ None }
    ensures { IfOk result (IsDone state.now (Verify key challenge.now) seen.now) }
{
    let (_, held) = state.keys.find(key).unwrap();
    let number = number_of(seen);
    let pdu = answer_challenge(alloc, state, key, held, number, challenge)?;
    using_number(alloc, key, number, &pdu)
}

/// The answer to a challenge, or why there is none.
pub(crate) fn verify(
    alloc: Global,
    state: &State,
    key: KeyId,
    challenge: &[u8; 16],
    seen: &Seen,
) -> Result<(Change, Reply), NoMemory>
    requires rules { KeepsRules state.now }
    requires seen { MeetsNeed state.now (need_of state.now (Verify key challenge.now)) seen.now }
    ensures { IfOk result (IsStep state.now (Verify key challenge.now) seen.now) }
{
    match verify_refusal(state, key, seen) {
        Some(refusal) => Ok(refused(refusal)),
        None => answer(alloc, state, key, challenge, seen),
    }
}
