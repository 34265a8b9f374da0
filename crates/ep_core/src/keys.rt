//! What the commands that move keys refuse.

//! The keys of a clear text, one behind the other.

//! Keys that are loaded from a sealed text.
ghost use Rattle.std.specs.Prelude.{◌≡◌, IfOk, ◌≢◌, ◌≤◌, ◌<◌, ◌+◌, ◌^◌, length, slice_index, None, IfSome, Some};
ghost use Rattle.sdls_base.specs.Bounds.{IsKeyLength};
ghost use Rattle.sdls_base.specs.FirstFailing.{first_told};
ghost use Rattle.gcm.specs.Gcm.{gcm_open};
ghost use Rattle.key_book.specs.KeyRefusal.{load_refusal};
ghost use Rattle.key_book.specs.Moves.{moves_refusal};
ghost use Rattle.sa_book.specs.SaBook.{in_use};
ghost use Rattle.unit_state.specs.State.{KeepsRules, key_row};
ghost use Rattle.ep_codec.specs.declared.command.Command.TheVariants.{Rekeying};
ghost use Rattle.ep_codec.specs.Command.{IsSealedLength};
ghost use Rattle.ep_core.specs.Refusals.{from_keys, master_checks, text_checks, items_of};
ghost use Rattle.ep_core.specs.Sealed.{item_fault, item_at, items_fault, items_in, front};
ghost use Rattle.ep_core.specs.Step.{IsStep, IsLoading};

use crate::refusal::{Refusal, Reply};
use crate::sealing::{front, master_refusal, schedule};
use crate::step::{done, refused};
use ep_codec::ReplyPdu;
use gcm::{BadTag, open_in_place};
use key_book::{KeyRefusal, KeyRow};
use sdls_base::{
    Change, KeyId, KeyItem, KeyItems, KeyList, KeyState, MOST_KEYS_AT_ONCE, NoMemory, Octets, Seen,
};
use std::alloc::Global;
use unit_state::State;

/// What the book refuses of keys, as a reply says it.
fn as_refusal(refusal: Option<KeyRefusal>) -> Option<Refusal>
    ensures { result ≡ from_keys refusal }
{
    Refusal::of_keys(refusal?)
}

/// Why keys do not take a state.
pub(crate) fn refuse_moves(
    state: &State,
    keys: &KeyList,
    to: KeyState,
) -> Result<Option<Refusal>, NoMemory>
    ensures { IfOk result (λ refusal. refusal
        ≡ from_keys (moves_refusal state.now.keys keys.now to (in_use state.now.associations))) }
{
    let in_use = state.associations.in_use()?;
    Ok(as_refusal(state.keys.moves_refusal(keys, to, in_use.as_slice())))
}

/// Why keys are not loaded.
pub(crate) fn refuse_load(state: &State, items: &KeyItems) -> Option<Refusal>
    ensures { result ≡ from_keys (load_refusal state.now.keys items.now) }
{
    as_refusal(state.keys.load_refusal(items.as_slice()))
}

/// The octets of an item before those of its key: the key's identifier, and how many octets it has.
const HEADER: usize = 3;

/// The fault of the item at the front of the octets, which stand at an offset of the text.
fn item_fault(at: usize, octets: &[u8]) -> Option<u32>
    requires { at + length octets.now < 2 ^ 16 }
    ensures { result ≡ item_fault at octets.now }
{
    let [high, _, count, rest @ ..] = octets else {
        return Some(at as u32);
    };
    if *high == 0 {
        return Some(at as u32);
    }
    if *count != 16 && *count != 32 {
        return Some(at as u32 + 2);
    }
    if rest.len() < usize::from(*count) {
        return Some(at as u32);
    }
    None
}

/// The offset of the first octet that cannot stand there.
pub(crate) fn items_fault(text: &[u8]) -> Option<u32>
    requires { length text.now ≤ 280 }
    ensures { result ≡ items_fault MOST_KEYS_AT_ONCE 0 text.now }
{
    let mut left = MOST_KEYS_AT_ONCE;
    let mut at = 0;
    while at < text.len() {
        if left == 0 {
            return Some(at as u32);
        }
        if let Some(fault) = item_fault(at, &text[at..]) {
            return Some(fault);
        }
        at += HEADER + usize::from(text[at + 2]);
        left -= 1;
    }
    None
}

/// The item at the front of octets: a key's identifier, a length, and so many octets.
fn item(alloc: Global, octets: &[u8]) -> Result<KeyItem, NoMemory>
    requires whole { 3 + slice_index octets.now 2 ≤ length octets.now }
    requires session { slice_index octets.now 0 ≢ 0 }
    ensures { IfOk result (λ item. item ≡ item_at octets.now) }
{
    let id = KeyId::new(u16::from_be_bytes([octets[0], octets[1]])).unwrap();
    let end = HEADER + usize::from(octets[2]);
    let bytes = Octets::new(Vec::from_slice(alloc, &octets[HEADER..end])?);
    Ok(KeyItem { id, bytes })
}

/// The keys of a text without a fault.
pub(crate) fn items(alloc: Global, text: &[u8]) -> Result<KeyItems, NoMemory>
    requires most { length text.now ≤ 280 }
    requires right { items_fault MOST_KEYS_AT_ONCE 0 text.now ≡ None }
    ensures { IfOk result (λ items. items ≡ items_in MOST_KEYS_AT_ONCE text.now) }
{
    let mut items = Vec::new(alloc);
    let mut at = 0;
    while at < text.len() {
        items.push(item(alloc, &text[at..])?)?;
        at += HEADER + usize::from(text[at + 2]);
    }
    Ok(KeyItems::new(items))
}

/// What was sealed under a master key; none where the tag is wrong.
fn open_text(
    alloc: Global,
    master: KeyId,
    held: &KeyRow,
    vector: &[u8; 12],
    sealed: &Octets,
    tag: &[u8; 16],
) -> Result<Option<Octets>, NoMemory>
    requires bytes { IsKeyLength (length held.now.bytes) }
    requires most { length sealed.now ≤ 280 }
    ensures { IfOk result (λ text. text
        ≡ gcm_open held.now.bytes vector.now (front master (length sealed.now)) sealed.now tag.now) }
{
    let mut text = Vec::from_slice(alloc, sealed.as_slice())?;
    let front = front(master, text.len());
    match open_in_place(&schedule(held), vector, &front, &mut text, tag) {
        Ok(()) => Ok(Some(Octets::new(text))),
        Err(BadTag) => Ok(None),
    }
}

/// The keys of a text that was opened, or none where the tag was wrong.
#[tactic(auto, unfolding(ep_codec::specs::ReplyPdu::IsInBounds))]
fn loading(alloc: Global, state: &State, text: Option<Octets>) -> Result<(Change, Reply), NoMemory>
    requires { IfSome text (λ text. length text ≤ 280) }
    ensures { IfOk result (IsLoading state.now text) }
{
    let Some(text) = text else {
        return Ok(refused(Refusal::BadTag));
    };
    if let Some(offset) = items_fault(text.as_slice()) {
        return Ok(refused(Refusal::BadItems(offset)));
    }
    let items = items(alloc, text.as_slice())?;
    match refuse_load(state, &items) {
        Some(refusal) => Ok(refused(refusal)),
        None => done(alloc, Change::Load(items), &ReplyPdu::Rekeying),
    }
}

/// Loads the keys that are sealed under a master key, all or none.
pub(crate) fn rekeying(
    alloc: Global,
    state: &State,
    master: KeyId,
    vector: &[u8; 12],
    sealed: &Octets,
    tag: &[u8; 16],
    seen: &Seen,
) -> Result<(Change, Reply), NoMemory>
    requires rules { KeepsRules state.now }
    requires bounds { IsSealedLength sealed.now }
    ensures { IfOk result (IsStep state.now (Rekeying master vector.now sealed.now tag.now) seen.now) }
{
    if let Some(refusal) = master_refusal(state, master) {
        return Ok(refused(refusal));
    }
    let (_, held) = state.keys.find(master).unwrap();
    let text = open_text(alloc, master, held, vector, sealed, tag)?;
    loading(alloc, state, text)
}
