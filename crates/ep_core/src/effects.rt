//! What the commands do that open and seal nothing, and what those on associations refuse, in their order.
ghost use Rattle.std.specs.Prelude.{◌≡◌, ◌+◌, ◌^◌, ◌<◌, IfOk, None, Some, ◌≤◌, All};
ghost use Rattle.sa_book.specs.SaRefusal.{create_refusal, delete_refusal, expire_refusal, read_number_refusal};
ghost use Rattle.sa_book.specs.SaRefusal.{set_number_refusal, set_window_refusal, start_refusal, stop_refusal};
ghost use Rattle.unit_state.specs.State.{KeepsRules, association_row};
ghost use Rattle.unit_state.specs.Taking.{least_with};
ghost use Rattle.ep_codec.specs.declared.command.Command.TheVariants.{Inventory, ReadNumber, Status};
ghost use Rattle.ep_codec.specs.Command as commands;
ghost use Rattle.ep_codec.specs.ReplyPdu as reply_pdu;
ghost use Rattle.ep_core.specs.Refusals.{refusal_of, from_associations, least_of, least_at, rekey_checks};
ghost use Rattle.ep_core.specs.Seen.{word_of};
ghost use Rattle.ep_core.specs.Step.{IsDone, IsPlain, IsStep, done, next_of};
ghost use Rattle.sdls_base.specs.declared.entry.Change.TheVariants.{KeyStates, SaTo};
ghost use Rattle.sdls_base.specs.FirstFailing.{first_told};

use crate::keys;
use crate::refusal::{Refusal, Reply};
use crate::step::{done, refused};
use ep_codec::{Command, ReplyPdu};
use sa_book::{SaRefusal, SaRow};
use sdls_base::{Change, Direction, KeyId, KeyList, KeyState, NewSa, NoMemory, SaState, Seen, Spi};
use std::alloc::Global;
use unit_state::{State, least_with};

/// The word that was seen, 0 where none was.
pub(crate) fn word_of(seen: &Seen) -> u64
    ensures { result ≡ word_of seen.now }
{
    match seen {
        Seen::Word(word) => *word,
        Seen::Nothing | Seen::Number(_) | Seen::Exhausted(_) => 0,
    }
}

/// Keys that take a state.
fn states(
    alloc: Global,
    keys: &KeyList,
    to: KeyState,
    pdu: &ReplyPdu,
) -> Result<(Change, Reply), NoMemory>
    requires { reply_pdu.IsInBounds pdu.now }
    ensures { IfOk result (λ step. step ≡ done (KeyStates keys.now to) pdu.now) }
{
    let ids = keys.clone()?;
    done(alloc, Change::KeyStates { ids, to }, pdu)
}

/// An association that takes a state, or is deleted.
fn state_change(
    alloc: Global,
    spi: Spi,
    to: Option<SaState>,
    pdu: &ReplyPdu,
) -> Result<(Change, Reply), NoMemory>
    requires { reply_pdu.IsInBounds pdu.now }
    ensures { IfOk result (λ step. step ≡ done (SaTo spi to) pdu.now) }
{
    done(alloc, Change::SaTo { spi, to }, pdu)
}

/// The keys from `first` to `last` with their states.
pub(crate) fn inventory(
    alloc: Global,
    state: &State,
    first: u16,
    last: u16,
    seen: &Seen,
) -> Result<(Change, Reply), NoMemory>
    ensures { IfOk result (IsDone state.now (Inventory first last) seen.now) }
{
    let found = state.keys.inventory(first, last)?;
    let pdu = ReplyPdu::Inventory {
        total: found.total,
        rows: found.rows,
    };
    done(alloc, Change::Nothing, &pdu)
}

/// The next number of an association, where `word` was seen of one that sends.
fn next_of(word: u64, row: &SaRow) -> u64
    requires { row.now.window.high + 1 < 2 ^ 64 }
    ensures { result ≡ next_of word row.now row.now.direction }
{
    match row.direction {
        Direction::Send => word,
        Direction::Receive => row.window.high + 1,
    }
}

/// The next number of an association that is there.
#[tactic(auto, unfolding(ep_codec::specs::ReplyPdu::IsInBounds))]
pub(crate) fn read_number(
    alloc: Global,
    state: &State,
    spi: Spi,
    seen: &Seen,
) -> Result<(Change, Reply), NoMemory>
    requires rules { KeepsRules state.now }
    requires there { refusal_of state.now (ReadNumber spi) seen.now ≡ None }
    ensures { IfOk result (IsDone state.now (ReadNumber spi) seen.now) }
{
    let row = state.associations.status(spi).unwrap();
    let number = next_of(word_of(seen), row);
    done(
        alloc,
        Change::Nothing,
        &ReplyPdu::ReadNumber { spi, number },
    )
}

/// An association that is there, as it stands.
pub(crate) fn status(
    alloc: Global,
    state: &State,
    spi: Spi,
    seen: &Seen,
) -> Result<(Change, Reply), NoMemory>
    requires rules { KeepsRules state.now }
    requires there { refusal_of state.now (Status spi) seen.now ≡ None }
    ensures { IfOk result (IsDone state.now (Status spi) seen.now) }
{
    let row = state.associations.status(spi).unwrap();
    let pdu = ReplyPdu::Status {
        spi,
        state: row.state,
        direction: row.direction,
        suite: row.suite,
        key: row.key,
        window: row.window.field(),
    };
    done(alloc, Change::Nothing, &pdu)
}

/// A command on keys or associations that seals nothing, where nothing refuses it.
#[tactic(auto, unfolding(ep_codec::specs::ReplyPdu::IsInBounds))]
fn effect(
    alloc: Global,
    state: &State,
    command: &Command,
    seen: &Seen,
) -> Result<(Change, Reply), NoMemory>
    requires rules { KeepsRules state.now }
    requires bounds { commands.IsInBounds command.now }
    requires plain { IsPlain command.now }
    requires free { refusal_of state.now command.now seen.now ≡ None }
    ensures { IfOk result (IsDone state.now command.now seen.now) }
{
    match command {
        Command::Activate(keys) => states(alloc, keys, KeyState::Active, &ReplyPdu::Activate),
        Command::Deactivate(keys) => {
            states(alloc, keys, KeyState::Deactivated, &ReplyPdu::Deactivate)
        }
        Command::Destroy(keys) => states(alloc, keys, KeyState::Destroyed, &ReplyPdu::Destroy),
        Command::Inventory { first, last } => inventory(alloc, state, *first, *last, seen),
        Command::ReadNumber(spi) => read_number(alloc, state, *spi, seen),
        Command::Status(spi) => status(alloc, state, *spi, seen),
        Command::Create(new) => done(alloc, Change::Create(new.clone()?), &ReplyPdu::Create),
        Command::Delete(spi) => state_change(alloc, *spi, None, &ReplyPdu::Delete),
        Command::Expire(spi) => {
            state_change(alloc, *spi, Some(SaState::Unkeyed), &ReplyPdu::Expire)
        }
        Command::Start(spi) => {
            state_change(alloc, *spi, Some(SaState::Operational), &ReplyPdu::Start)
        }
        Command::Stop(spi) => state_change(alloc, *spi, Some(SaState::Keyed), &ReplyPdu::Stop),
        Command::SetWindow { spi, window } => {
            let (spi, window) = (*spi, *window);
            done(
                alloc,
                Change::SetWindow { spi, window },
                &ReplyPdu::SetWindow,
            )
        }
        Command::Rekey { spi, key, number } => {
            let (spi, key, number) = (*spi, *key, *number);
            done(alloc, Change::Rekey { spi, key, number }, &ReplyPdu::Rekey)
        }
        Command::SetNumber { spi, number } => {
            let (spi, number) = (*spi, *number);
            done(
                alloc,
                Change::SetNumber { spi, number },
                &ReplyPdu::SetNumber,
            )
        }
        Command::Rekeying { .. } | Command::Verify { .. } | Command::Compose { .. } => {
            unreachable!()
        }
    }
}

/// Why a command on keys or associations that seals nothing is refused.
fn refusal(state: &State, command: &Command, seen: &Seen) -> Result<Option<Refusal>, NoMemory>
    requires rules { KeepsRules state.now }
    requires bounds { commands.IsInBounds command.now }
    requires plain { IsPlain command.now }
    ensures { IfOk result (λ refusal. refusal ≡ refusal_of state.now command.now seen.now) }
{
    match command {
        Command::Activate(keys) => keys::refuse_moves(state, keys, KeyState::Active),
        Command::Deactivate(keys) => keys::refuse_moves(state, keys, KeyState::Deactivated),
        Command::Destroy(keys) => keys::refuse_moves(state, keys, KeyState::Destroyed),
        Command::Inventory { .. } => Ok(None),
        Command::ReadNumber(spi) => Ok(refuse_read_number(state, *spi)),
        Command::Create(new) => Ok(refuse_create(state, new)),
        Command::Delete(spi) => Ok(refuse_delete(state, *spi)),
        Command::SetWindow { spi, .. } | Command::Status(spi) => { Ok(refuse_unknown(state, *spi)) }
        Command::Rekey { spi, key, number } => {
            Ok(refuse_rekey(state, *spi, *key, *number, word_of(seen)))
        }
        Command::Expire(spi) => Ok(refuse_expire(state, *spi)),
        Command::SetNumber { spi, number } => {
            Ok(refuse_set_number(state, *spi, *number, word_of(seen)))
        }
        Command::Start(spi) => Ok(refuse_start(state, *spi)),
        Command::Stop(spi) => Ok(refuse_stop(state, *spi)),
        Command::Rekeying { .. } | Command::Verify { .. } | Command::Compose { .. } => {
            unreachable!()
        }
    }
}

/// A command on keys or associations that seals nothing.
pub(crate) fn plain(
    alloc: Global,
    state: &State,
    command: &Command,
    seen: &Seen,
) -> Result<(Change, Reply), NoMemory>
    requires rules { KeepsRules state.now }
    requires bounds { commands.IsInBounds command.now }
    requires plain { IsPlain command.now }
    ensures { IfOk result (IsStep state.now command.now seen.now) }
{
    match refusal(state, command, seen)? {
        Some(refusal) => Ok(refused(refusal)),
        None => effect(alloc, state, command, seen),
    }
}

/// What the book refuses of an association, and of a key where the command names one, as a reply says it.
fn as_refusal(spi: Spi, key: Option<KeyId>, refusal: Option<SaRefusal>) -> Option<Refusal>
    ensures { result ≡ from_associations spi key refusal }
{
    Refusal::of_association(spi, key, refusal?)
}

pub(crate) fn refuse_create(state: &State, new: &NewSa) -> Option<Refusal>
    requires { All (λ channel. channel ≤ 63) new.now.channels }
    ensures { result ≡ from_associations new.now.spi None
        (create_refusal state.now.associations new.now state.now.channels) }
{
    let known = state.channels.as_slice();
    as_refusal(new.spi, None, state.associations.create_refusal(new, known))
}

pub(crate) fn refuse_delete(state: &State, spi: Spi) -> Option<Refusal>
    ensures { result ≡ from_associations spi None (delete_refusal state.now.associations spi) }
{
    as_refusal(spi, None, state.associations.delete_refusal(spi))
}

pub(crate) fn refuse_unknown(state: &State, spi: Spi) -> Option<Refusal>
    ensures { result ≡ from_associations spi None (set_window_refusal state.now.associations spi) }
{
    as_refusal(spi, None, state.associations.set_window_refusal(spi))
}

pub(crate) fn refuse_expire(state: &State, spi: Spi) -> Option<Refusal>
    ensures { result ≡ from_associations spi None (expire_refusal state.now.associations spi) }
{
    as_refusal(spi, None, state.associations.expire_refusal(spi))
}

pub(crate) fn refuse_start(state: &State, spi: Spi) -> Option<Refusal>
    ensures { result ≡ from_associations spi None (start_refusal state.now.associations spi) }
{
    as_refusal(spi, None, state.associations.start_refusal(spi))
}

pub(crate) fn refuse_stop(state: &State, spi: Spi) -> Option<Refusal>
    ensures { result ≡ from_associations spi None (stop_refusal state.now.associations spi) }
{
    as_refusal(spi, None, state.associations.stop_refusal(spi))
}

/// An association whose number is read has a key.
pub(crate) fn refuse_read_number(state: &State, spi: Spi) -> Option<Refusal>
    ensures { result ≡ from_associations spi None (read_number_refusal state.now.associations spi) }
{
    match state.associations.status(spi) {
        Err(_) => Some(Refusal::UnknownSpi(spi)),
        Ok(row) if row.state == SaState::Unkeyed => Some(Refusal::SaInState(SaState::Unkeyed)),
        Ok(_) => None,
    }
}

/// The least lawful number of an association as it stands.
fn least_of(state: &State, word: u64, row: &SaRow) -> u64
    requires { KeepsRules state.now }
    ensures { result ≡ least_of state.now word row.now }
{
    let Some(key) = row.key else {
        return word;
    };
    match state.keys.find(key) {
        Some((_, held)) => least_with(word, row.direction, held),
        None => word,
    }
}

/// The least lawful number of the association with an index.
fn least_at(state: &State, spi: Spi, word: u64) -> u64
    requires { KeepsRules state.now }
    ensures { result ≡ least_at state.now spi word }
{
    match state.associations.status(spi) {
        Ok(row) => least_of(state, word, row),
        Err(_) => word,
    }
}

pub(crate) fn refuse_set_number(state: &State, spi: Spi, number: u64, word: u64) -> Option<Refusal>
    requires { KeepsRules state.now }
    ensures { result ≡ from_associations spi None
        (set_number_refusal state.now.associations spi number (least_at state.now spi word)) }
{
    let least = least_at(state, spi, word);
    as_refusal(
        spi,
        None,
        state.associations.set_number_refusal(spi, number, least),
    )
}

pub(crate) fn refuse_rekey(
    state: &State,
    spi: Spi,
    key: KeyId,
    number: u64,
    word: u64,
) -> Option<Refusal>
    requires { KeepsRules state.now }
    ensures { result ≡ first_told (rekey_checks state.now spi key number word) }
{
    let Ok(row) = state.associations.status(spi) else {
        return Some(Refusal::UnknownSpi(spi));
    };
    let SaState::Unkeyed = row.state else {
        return Some(Refusal::SaInState(row.state));
    };
    let Some((_, held)) = state.keys.find(key) else {
        return Some(Refusal::UnknownKey(key));
    };
    let least = least_with(word, row.direction, held);
    let refusal = state
        .associations
        .rekey_refusal(spi, key, held.state, number, least);
    as_refusal(spi, Some(key), refusal)
}
