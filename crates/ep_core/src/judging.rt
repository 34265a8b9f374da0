ghost use Rattle.std.specs.Prelude.{◌≡◌, is_some, if◌then◌else◌};
ghost use Rattle.std.specs.Option.{option_map_or};
ghost use Rattle.unit_state.specs.State.{KeepsRules};
ghost use Rattle.ep_codec.specs.Command.{IsInBounds};
ghost use Rattle.ep_core.specs.declared.judging.Need.TheVariants.{Nothing, Raise};
ghost use Rattle.ep_core.specs.Need.{is_sending, sends, sending_key_of, sending_key, need_of};

use crate::refusal::Refusal;
use crate::{effects, sealing};
use ep_codec::Command;
use sa_book::SaRow;
use sdls_base::{Direction, KeyId, Seen, Spi};
use unit_state::State;

fn is_sending(direction: Direction) -> bool
    ensures { result ≡ is_sending direction }
{
    match direction {
        Direction::Send => true,
        Direction::Receive => false,
    }
}

/// Whether an association is there and sends.
fn sends(state: &State, spi: Spi) -> bool
    ensures { result ≡ sends state.now spi }
{
    match state.associations.status(spi) {
        Ok(row) => is_sending(row.direction),
        Err(_) => false,
    }
}

fn sending_key_of(row: &SaRow) -> Option<KeyId>
    ensures { result ≡ sending_key_of row.now }
{
    if is_sending(row.direction) {
        row.key
    } else {
        None
    }
}

/// The key of an association that sends.
fn sending_key(state: &State, spi: Spi) -> Option<KeyId>
    ensures { result ≡ sending_key state.now spi }
{
    match state.associations.status(spi) {
        Ok(row) => sending_key_of(row),
        Err(_) => None,
    }
}

/// The word of a key that an association takes is raised, where the association sends.
fn rekey_need(state: &State, spi: Spi, key: KeyId, number: u64) -> Need
    ensures { result ≡ (if sends state.now spi then Raise key number else Nothing) }
{
    if sends(state, spi) {
        Need::Raise(key, number)
    } else {
        Need::Nothing
    }
}

/// The word of the key of an association that sends is raised.
fn number_need(state: &State, spi: Spi, number: u64) -> Need
    ensures { result ≡ option_map_or (λ key. Raise key number) (sending_key state.now spi) Nothing }
{
    match sending_key(state, spi) {
        Some(key) => Need::Raise(key, number),
        None => Need::Nothing,
    }
}

/// Nothing is needed of a command that is refused.
fn unless_refused(refusal: Option<Refusal>, need: Need) -> Need
    ensures { result ≡ (if is_some refusal then Nothing else need) }
{
    match refusal {
        Some(_) => Need::Nothing,
        None => need,
    }
}

/// What has to be seen before a command is decided; nothing where a refusal applies that no number changes. Takes no
/// memory.
pub fn judge(state: &State, command: &Command) -> Need
    requires rules { KeepsRules state.now }
    requires bounds { IsInBounds command.now }
    ensures { result ≡ need_of state.now command.now }
{
    let nothing = Seen::Nothing;
    match command {
        Command::Verify { key, .. } => unless_refused(
            sealing::verify_refusal(state, *key, &nothing),
            Need::Number(*key),
        ),
        Command::Compose { master, keys } => unless_refused(
            sealing::compose_refusal(state, *master, keys, &nothing),
            Need::Number(*master),
        ),
        Command::ReadNumber(spi) => unless_refused(
            effects::refuse_read_number(state, *spi),
            sending_key(state, *spi).map_or(Need::Nothing, Need::Look),
        ),
        Command::Rekey { spi, key, number } => unless_refused(
            effects::refuse_rekey(state, *spi, *key, *number, 0),
            rekey_need(state, *spi, *key, *number),
        ),
        Command::SetNumber { spi, number } => unless_refused(
            effects::refuse_set_number(state, *spi, *number, 0),
            number_need(state, *spi, *number),
        ),
        Command::Rekeying { .. }
        | Command::Activate(_)
        | Command::Deactivate(_)
        | Command::Destroy(_)
        | Command::Inventory { .. }
        | Command::Create(_)
        | Command::Delete(_)
        | Command::SetWindow { .. }
        | Command::Expire(_)
        | Command::Start(_)
        | Command::Stop(_)
        | Command::Status(_) => Need::Nothing,
    }
}

/// What the numbers of a key have to show before a command is decided.
#[derive(Clone, Copy, Debug, PartialEq, Eq)]
pub enum Need {
    /// Nothing: the command is decided by the state alone.
    Nothing,
    /// The next number of the key.
    Look(KeyId),
    /// The next number of the key, which is then raised to at least this one.
    Raise(KeyId, u64),
    /// A number of the key, drawn for use.
    Number(KeyId),
}
