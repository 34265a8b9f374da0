ghost use Rattle.std.specs.Prelude.{IfOk};
ghost use Rattle.unit_state.specs.State.{KeepsRules};
ghost use Rattle.ep_codec.specs.Command.{IsInBounds};
ghost use Rattle.ep_core.specs.Need.{need_of};
ghost use Rattle.ep_core.specs.Seen.{MeetsNeed};
ghost use Rattle.ep_core.specs.Step.{IsStep};

use crate::effects::plain;
use crate::keys::rekeying;
use crate::refusal::Reply;
use crate::sealing::compose;
use crate::verifying::verify;
use ep_codec::Command;
use sdls_base::{Change, NoMemory, Seen};
use std::alloc::Global;
use unit_state::State;

/// Decides a command, given what [`crate::judge`] asked for: the change that it makes of the state, and its reply. A
/// command that is refused changes nothing.
#[tactic(auto, unfolding(ep_codec::specs::Command::IsInBounds))]
pub fn plan_change(
    alloc: Global,
    state: &State,
    command: &Command,
    seen: &Seen,
) -> Result<(Change, Reply), NoMemory>
    requires rules { KeepsRules state.now }
    requires bounds { IsInBounds command.now }
    requires seen { MeetsNeed state.now (need_of state.now command.now) seen.now }
    ensures { IfOk result (IsStep state.now command.now seen.now) }
{
    match command {
        Command::Rekeying {
            master,
            vector,
            sealed,
            tag,
        } => rekeying(alloc, state, *master, vector, sealed, tag, seen),
        Command::Verify { key, challenge } => verify(alloc, state, *key, challenge, seen),
        Command::Compose { master, keys } => compose(alloc, state, *master, keys, seen),
        Command::Activate(_)
        | Command::Deactivate(_)
        | Command::Destroy(_)
        | Command::Inventory { .. }
        | Command::ReadNumber(_)
        | Command::Create(_)
        | Command::Delete(_)
        | Command::SetWindow { .. }
        | Command::Rekey { .. }
        | Command::Expire(_)
        | Command::SetNumber { .. }
        | Command::Start(_)
        | Command::Stop(_)
        | Command::Status(_) => plain(alloc, state, command, seen),
    }
}
