//! Challenges under a key, and keys sealed for another unit.

//! What challenges and keys are sealed with.

//! Keys that are sealed for another unit.
ghost use Rattle.std.specs.Prelude.{◌≡◌, ◌≤◌, ◌<◌, ◌^◌, ◌++◌, IfOk, OnOk, length, None, Some, ◌∷◌};
ghost use Rattle.std.specs.Option.{option_and_then};
ghost use Rattle.std.specs.List.{flat_map};
ghost use Rattle.sdls_base.specs.FirstFailing.{first_told};
ghost use Rattle.sdls_base.specs.KeyId.{class_of};
ghost use Rattle.sdls_base.specs.Bounds.{IsKeyLength, IsKeyCount};
ghost use Rattle.sdls_base.specs.Spelling.{item_octets};
ghost use Rattle.unit_state.specs.State.{KeepsRules, key_row};
ghost use Rattle.ep_codec.specs.declared.command.Command.TheVariants.{Verify, Compose};
ghost use Rattle.ep_codec.specs.Command as commands;
ghost use Rattle.ep_codec.specs.ReplyPdu.{IsInBounds};
ghost use Rattle.ep_core.specs.Refusals.{unless_known, by_state, unless_active, unless_usable, if_destroyed};
ghost use Rattle.ep_core.specs.Refusals.{if_exhausted, is_master, master_checks, session_checks, verify_checks};
ghost use Rattle.ep_core.specs.Refusals.{compose_checks, refusal_of};
ghost use Rattle.ep_core.specs.Sealed.{front, challenge_data, challenge_text, no_frame};
ghost use Rattle.ep_core.specs.Seen.{number_of};
ghost use Rattle.ep_core.specs.Step.{IsDone, IsStep, octets_of, clear_text, composed};

use crate::refusal::{Refusal, Reply};
use crate::step::{refused, using_number};
use aes_block::Schedule;
use ep_codec::ReplyPdu;
use gcm::seal_in_place;
use key_book::KeyRow;
use sdls_base::{Change, KeyClass, KeyId, KeyList, KeyState, NoMemory, Octets, Seen};
use sdls_header::wide_octets;
use std::alloc::Global;
use unit_state::State;

/// The number that was drawn for use, 0 where none was.
pub(crate) fn number_of(seen: &Seen) -> u64
    ensures { result ≡ number_of seen.now }
{
    match seen {
        Seen::Number(number) => *number,
        Seen::Nothing | Seen::Word(_) | Seen::Exhausted(_) => 0,
    }
}

fn if_exhausted(seen: &Seen) -> Option<Refusal>
    ensures { result ≡ if_exhausted seen.now }
{
    match seen {
        Seen::Exhausted(number) => Some(Refusal::Exhausted(*number)),
        Seen::Nothing | Seen::Word(_) | Seen::Number(_) => None,
    }
}

fn unless_usable(state: KeyState) -> Option<Refusal>
    ensures { result ≡ unless_usable state }
{
    match state {
        KeyState::PreActive | KeyState::Active => None,
        KeyState::Deactivated | KeyState::Destroyed => Some(Refusal::KeyInState(state)),
    }
}

fn unless_active(state: KeyState) -> Option<Refusal>
    ensures { result ≡ unless_active state }
{
    match state {
        KeyState::Active => None,
        KeyState::PreActive | KeyState::Deactivated | KeyState::Destroyed => {
            Some(Refusal::KeyInState(state))
        }
    }
}

fn if_destroyed(state: KeyState) -> Option<Refusal>
    ensures { result ≡ if_destroyed state }
{
    match state {
        KeyState::Destroyed => Some(Refusal::KeyInState(state)),
        KeyState::PreActive | KeyState::Active | KeyState::Deactivated => None,
    }
}

fn is_master(key: KeyId) -> bool
    ensures { result ≡ is_master (class_of key) }
{
    match key.class() {
        KeyClass::Master => true,
        KeyClass::Gcm | KeyClass::Cmac => false,
    }
}

/// Why a key serves no challenge.
pub(crate) fn verify_refusal(state: &State, key: KeyId, seen: &Seen) -> Option<Refusal>
    ensures { result ≡ first_told (verify_checks state.now key seen.now) }
{
    let Some((_, held)) = state.keys.find(key) else {
        return Some(Refusal::UnknownKey(key));
    };
    match unless_usable(held.state) {
        Some(refusal) => Some(refusal),
        None => if_exhausted(seen),
    }
}

/// Why a key is no active master key.
pub(crate) fn master_refusal(state: &State, master: KeyId) -> Option<Refusal>
    ensures { result ≡ first_told (master_checks state.now master) }
{
    let Some((_, held)) = state.keys.find(master) else {
        return Some(Refusal::UnknownKey(master));
    };
    if !is_master(master) {
        return Some(Refusal::NotMaster(master));
    }
    unless_active(held.state)
}

/// Why a key is no session key that has its octets.
fn session_refusal(state: &State, key: KeyId) -> Option<Refusal>
    ensures { result ≡ first_told (session_checks state.now key) }
{
    let Some((_, held)) = state.keys.find(key) else {
        return Some(Refusal::UnknownKey(key));
    };
    if is_master(key) {
        return Some(Refusal::NotSession(key));
    }
    if_destroyed(held.state)
}

/// The first refusal of keys that are to be sealed.
fn sessions_refusal(state: &State, keys: &KeyList) -> Option<Refusal>
    ensures { result ≡ first_told (flat_map (session_checks state.now) keys.now) }
{
    for key in keys.as_slice() {
        if let Some(refusal) = session_refusal(state, *key) {
            return Some(refusal);
        }
    }
    None
}

/// Why keys are not sealed under a master key.
pub(crate) fn compose_refusal(
    state: &State,
    master: KeyId,
    keys: &KeyList,
    seen: &Seen,
) -> Option<Refusal>
    ensures { result ≡ first_told (compose_checks state.now master keys.now seen.now) }
{
    if let Some(refusal) = master_refusal(state, master) {
        return Some(refusal);
    }
    match sessions_refusal(state, keys) {
        Some(refusal) => Some(refusal),
        None => if_exhausted(seen),
    }
}

/// The schedule of a key that has its octets.
pub(crate) fn schedule(held: &KeyRow) -> Schedule
    requires { IsKeyLength (length held.now.bytes) }
    ensures { result ≡ held.now.bytes }
{
    Schedule::new(held.bytes.as_slice()).unwrap()
}

/// The tag of a Rekeying message.
const REKEYING: u8 = 0x01;

/// The octets around what is sealed in a Rekeying message: master key, vector and tag.
const AROUND: usize = 2 + 12 + 16;

/// The first five octets of a Rekeying message with so many sealed octets.
pub(crate) fn front(master: KeyId, sealed: usize) -> [u8; 5]
    requires { sealed ≤ 280 }
    ensures { result ≡ front master sealed }
{
    let bits = (8 * (AROUND + sealed)) as u16;
    let [b, c] = bits.to_be_bytes();
    let [d, e] = master.get().to_be_bytes();
    [REKEYING, b, c, d, e]
}

/// What is authenticated with a sealed challenge. No frame begins so.
pub(crate) fn challenge_data(key: KeyId) -> [u8; 6]
    ensures { result ≡ challenge_data key }
{
    let [e, f] = key.get().to_be_bytes();
    [0xFF, 0xFF, 0xFF, 0xFF, e, f]
}

/// The octets of a key; none where the key is not there.
fn octets_of(state: &State, key: KeyId) -> &[u8]
    requires { KeepsRules state.now }
    ensures octets { result.now ≡ octets_of state.now key }
    ensures bound { length result.now ≤ 32 }
{
    match state.keys.find(key) {
        Some((_, held)) => held.bytes.as_slice(),
        None => &[],
    }
}

/// Writes a key: its identifier, how many octets it has, and these.
fn put_item(text: &mut Vec<u8>, key: KeyId, bytes: &[u8]) -> Result<(), NoMemory>
    requires { length bytes.now ≤ 32 }
    ensures { OnOk result (text.new.items
        ≡ text.old.items ++ item_octets (record { id = key; bytes = bytes.now })) }
{
    text.extend_from_slice(&key.get().to_be_bytes())?;
    text.push(bytes.len() as u8)?;
    text.extend_from_slice(bytes)?;
    Ok(())
}

/// Keys with their octets, one after the other.
fn clear_text(alloc: Global, state: &State, keys: &KeyList) -> Result<Vec<u8>, NoMemory>
    requires { KeepsRules state.now }
    ensures { IfOk result (λ text. text.items ≡ clear_text state.now keys.now) }
{
    let mut text = Vec::new(alloc);
    for key in keys.as_slice() {
        put_item(&mut text, *key, octets_of(state, *key))?;
    }
    Ok(text)
}

/// A Rekeying message for keys, sealed under a master key with the unit's vector for the number.
fn seal_reply(
    alloc: Global,
    state: &State,
    master: KeyId,
    held: &KeyRow,
    number: u64,
    keys: &KeyList,
) -> Result<ReplyPdu, NoMemory>
    requires rules { KeepsRules state.now }
    requires bytes { IsKeyLength (length held.now.bytes) }
    requires least { 19 ≤ length (clear_text state.now keys.now) }
    requires most { length (clear_text state.now keys.now) ≤ 280 }
    ensures reply { IfOk result (λ pdu. pdu
        ≡ composed state.now.device master held.now number (clear_text state.now keys.now)) }
    ensures bounds { IfOk result IsInBounds }
{
    let mut sealed = clear_text(alloc, state, keys)?;
    let vector = wide_octets(state.device, number);
    let front = front(master, sealed.len());
    let tag = seal_in_place(&schedule(held), &vector, &front, &mut sealed);
    Ok(ReplyPdu::Compose {
        master,
        vector,
        sealed: Octets::new(sealed),
        tag,
    })
}

/// The reply with keys that are there, under a master key that is active.
fn seal_keys(
    alloc: Global,
    state: &State,
    master: KeyId,
    keys: &KeyList,
    seen: &Seen,
) -> Result<(Change, Reply), NoMemory>
    requires rules { KeepsRules state.now }
    requires count { IsKeyCount (length keys.now) }
    requires free { refusal_of state.now (Compose master keys.now) seen.now ≡ None }
    ensures { IfOk result (IsDone state.now (Compose master keys.now) seen.now) }
{
    let (_, held) = state.keys.find(master).unwrap();
    let number = number_of(seen);
    let pdu = seal_reply(alloc, state, master, held, number, keys)?;
    using_number(alloc, master, number, &pdu)
}

/// A Rekeying message for keys, or why there is none.
pub(crate) fn compose(
    alloc: Global,
    state: &State,
    master: KeyId,
    keys: &KeyList,
    seen: &Seen,
) -> Result<(Change, Reply), NoMemory>
    requires rules { KeepsRules state.now }
    requires count { IsKeyCount (length keys.now) }
    ensures { IfOk result (IsStep state.now (Compose master keys.now) seen.now) }
{
    match compose_refusal(state, master, keys, seen) {
        Some(refusal) => Ok(refused(refusal)),
        None => seal_keys(alloc, state, master, keys, seen),
    }
}
