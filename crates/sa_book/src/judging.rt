//! What decides on the associations. Nothing here changes a row.
ghost use Rattle.std.specs.Prelude.{◌≡◌, ◌+◌, ◌^◌, ◌<◌, ◌≤◌, ◌==◌, nat_lt, [], ◌∷◌, not, position, All, None, Some};
ghost use Rattle.std.specs.Prelude.{IsSome, IfOk, MatchResult};
ghost use Rattle.std.specs.List.{list_any, position_or_len};
ghost use Rattle.std.specs.Result.{result_err};
ghost use Rattle.sdls_base.specs.FirstFailing.{first_told};
ghost use Rattle.sa_book.specs.SaBook.{row_of, place_of, covers};
ghost use Rattle.sa_book.specs.SaRefusal.{create_refusal, first_unknown, receives_with, receiver_with, held_by};
ghost use Rattle.sa_book.specs.SaRefusal.{taken_key, key_refusal, number_refusal, rival_of, taken_channel};
ghost use Rattle.sa_book.specs.SaRefusal.{unless_unkeyed, unless_keyed, unless_operational, if_unkeyed};
ghost use Rattle.sa_book.specs.SaRefusal.{number_refusal_of};

use crate::refusals::SaRefusal;
use crate::sa_book::SaRow;
use sdls_base::{ChannelId, Direction, KeyId, KeyState, MOST_ASSOCIATIONS, NewSa, SaState, Spi};

fn position(rows: &[SaRow], spi: Spi) -> Option<usize>
    ensures { result ≡ place_of rows.now spi }
{
    rows.iter().position(|row| row.spi == spi)
}

/// The place of an association.
pub(crate) fn place(rows: &[SaRow], spi: Spi) -> Result<usize, SaRefusal>
    ensures { MatchResult result
        (λ i. place_of rows.now spi ≡ Some i)
        (λ refusal. (refusal ≡ SaRefusal.UnknownSpi) × (place_of rows.now spi ≡ None)) }
{
    match position(rows, spi) {
        Some(i) => Ok(i),
        None => Err(SaRefusal::UnknownSpi),
    }
}

/// The place of an association that is there.
pub(crate) fn known_place(rows: &[SaRow], spi: Spi) -> usize
    requires { IsSome (row_of rows.now spi) }
    ensures { place_of rows.now spi ≡ Some result }
{
    position(rows, spi).unwrap()
}

fn higher(rows: &[SaRow], spi: Spi) -> Option<usize>
    ensures { result ≡ position (λ other. nat_lt spi other.spi) rows.now }
{
    rows.iter().position(|row| spi < row.spi)
}

/// The place for a new association: before the first of higher index, or last.
pub(crate) fn place_for(rows: &[SaRow], spi: Spi) -> usize
    ensures { result ≡ position_or_len (λ other. nat_lt spi other.spi) rows.now }
{
    higher(rows, spi).unwrap_or(rows.len())
}

pub(crate) fn check_unkeyed(state: SaState) -> Result<(), SaRefusal>
    ensures { result_err result ≡ unless_unkeyed state }
{
    match state {
        SaState::Unkeyed => Ok(()),
        other => Err(SaRefusal::WrongState(other)),
    }
}

pub(crate) fn check_keyed(state: SaState) -> Result<(), SaRefusal>
    ensures { result_err result ≡ unless_keyed state }
{
    match state {
        SaState::Keyed => Ok(()),
        other => Err(SaRefusal::WrongState(other)),
    }
}

pub(crate) fn check_operational(state: SaState) -> Result<(), SaRefusal>
    ensures { result_err result ≡ unless_operational state }
{
    match state {
        SaState::Operational => Ok(()),
        other => Err(SaRefusal::WrongState(other)),
    }
}

fn check_has_key(state: SaState) -> Result<(), SaRefusal>
    ensures { result_err result ≡ if_unkeyed state }
{
    match state {
        SaState::Unkeyed => Err(SaRefusal::WrongState(state)),
        _ => Ok(()),
    }
}

fn is_known(channel: u8, known: &[ChannelId]) -> bool
    ensures { result ≡ list_any (λ other. other == channel) known.now }
{
    known.iter().any(|other| other.get() == channel)
}

fn unknown_place(channels: &[u8], known: &[ChannelId]) -> Option<usize>
    ensures { result ≡ position (λ channel. not (list_any (λ other. other == channel) known.now)) channels.now }
{
    channels
        .iter()
        .position(|channel| !is_known(*channel, known))
}

fn first_unknown(channels: &[u8], known: &[ChannelId]) -> Option<ChannelId>
    requires { All (λ channel. channel ≤ 63) channels.now }
    ensures { result ≡ first_unknown channels.now known.now }
{
    let i = unknown_place(channels, known)?;
    ChannelId::new(channels[i])
}

pub(crate) fn judge_create(
    rows: &[SaRow],
    new: &NewSa,
    known: &[ChannelId],
) -> Result<(), SaRefusal>
    requires { All (λ channel. channel ≤ 63) new.now.channels }
    ensures { result_err result ≡ create_refusal rows.now new.now known.now }
{
    if position(rows, new.spi).is_some() {
        return Err(SaRefusal::SpiTaken);
    }
    if let Some(channel) = first_unknown(new.channels.as_slice(), known) {
        return Err(SaRefusal::UnknownChannel(channel));
    }
    if rows.len() >= MOST_ASSOCIATIONS {
        return Err(SaRefusal::TableFull);
    }
    Ok(())
}

/// Whether an association receives with a key.
pub(crate) fn receives_with(row: &SaRow, key: KeyId) -> bool
    ensures { result ≡ receives_with key row.now }
{
    row.direction == Direction::Receive && row.key == Some(key)
}

fn judge_holder(rows: &[SaRow], key: KeyId) -> Result<(), SaRefusal>
    ensures { result_err result ≡ held_by (receiver_with rows.now key) }
{
    match rows.iter().find(|other| receives_with(other, key)) {
        Some(other) => Err(SaRefusal::KeyTaken(other.spi)),
        None => Ok(()),
    }
}

fn judge_key(rows: &[SaRow], row: &SaRow, key: KeyId) -> Result<(), SaRefusal>
    ensures { result_err result ≡ taken_key row.now.direction (receiver_with rows.now key) }
{
    match row.direction {
        Direction::Send => Ok(()),
        Direction::Receive => judge_holder(rows, key),
    }
}

pub(crate) fn judge_rekey(
    rows: &[SaRow],
    row: &SaRow,
    key: KeyId,
    state: KeyState,
    number: u64,
    floor: u64,
) -> Result<(), SaRefusal>
    ensures { result_err result ≡ key_refusal rows.now row.now key state number floor }
{
    check_unkeyed(row.state)?;
    if key.class() != row.suite.class() {
        return Err(SaRefusal::WrongSuite);
    }
    if state != KeyState::Active {
        return Err(SaRefusal::KeyNotActive(state));
    }
    judge_key(rows, row, key)?;
    judge_number(key, number, floor)
}

fn judge_number(key: KeyId, number: u64, floor: u64) -> Result<(), SaRefusal>
    ensures { result_err result ≡ number_refusal key number floor }
{
    if number >= key.end() {
        return Err(SaRefusal::PastEnd(key.end()));
    }
    if number < floor {
        return Err(SaRefusal::BelowFloor(floor));
    }
    Ok(())
}

pub(crate) fn covers(row: &SaRow, direction: Direction, channel: u8) -> bool
    ensures { result ≡ covers direction channel row.now }
{
    row.state == SaState::Operational
        && row.direction == direction
        && row.channels.as_slice().contains(&channel)
}

/// Whether another association is operational in this one's direction, and covers a channel of this one.
fn is_rival(row: &SaRow, other: &SaRow) -> bool
    ensures { result ≡ list_any (λ channel. covers row.now.direction channel other.now) row.now.channels }
{
    row.channels
        .as_slice()
        .iter()
        .any(|channel| covers(other, row.direction, *channel))
}

fn judge_channels(rows: &[SaRow], row: &SaRow) -> Result<(), SaRefusal>
    ensures { result_err result ≡ taken_channel (rival_of rows.now row.now) }
{
    match rows.iter().find(|other| is_rival(row, other)) {
        Some(other) => Err(SaRefusal::ChannelTaken(other.spi)),
        None => Ok(()),
    }
}

pub(crate) fn judge_start(rows: &[SaRow], row: &SaRow) -> Result<(), SaRefusal>
    ensures { result_err result ≡ first_told
        (unless_keyed row.now.state ∷ taken_channel (rival_of rows.now row.now) ∷ []) }
{
    check_keyed(row.state)?;
    judge_channels(rows, row)
}

pub(crate) fn judge_set_number(row: &SaRow, number: u64, floor: u64) -> Result<(), SaRefusal>
    ensures { result_err result ≡ first_told
        (if_unkeyed row.now.state ∷ number_refusal_of row.now.key number floor ∷ []) }
{
    check_has_key(row.state)?;
    match row.key {
        Some(key) => judge_number(key, number, floor),
        None => Ok(()),
    }
}

/// The next number of an association that has a key.
pub(crate) fn next_number(row: &SaRow) -> Result<u64, SaRefusal>
    requires { row.now.window.high + 1 < 2 ^ 64 }
    ensures number { IfOk result (λ n. n ≡ row.now.window.high + 1) }
    ensures refused { result_err result ≡ if_unkeyed row.now.state }
{
    check_has_key(row.state)?;
    Ok(row.window.high + 1)
}
