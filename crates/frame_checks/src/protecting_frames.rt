// The checks of a frame that is to be protected, in their order, and what it is protected under: ApplySecurity of CCSDS
// 355.0-B-2. `protect_check` of specs/ProtectingFrames.antt is the definition of that order.
ghost use Rattle.std.specs.Prelude.{◌≡◌, ◌↔◌, Some, None, Ok, IfOk, IfSome};
ghost use Rattle.sa_book.specs.SaRow.{IsSaRow};
ghost use Rattle.sdls_base.specs.Link.{IsLink};
ghost use Rattle.sdls_base.specs.declared.states.SaState.TheVariants.{Operational};
ghost use Rattle.unit_state.specs.State.{HasKey, KeepsRules};
ghost use Rattle.frame_shield.specs.Binding.{IsBinding};
ghost use Rattle.frame_checks.specs.Binding.{binding_of};
ghost use Rattle.frame_checks.specs.ProtectingFrames.{IsSentClear, channel_check, protect_check, without_channel};

use crate::header::{channel_of, is_clear, lacks_header};
use aes_block::Schedule;
use frame_shield::{Binding, ShieldFault};
use sa_book::SaRow;
use sdls_base::{ChannelId, Link};
use unit_plan::Plan;
use unit_state::State;

/// What a frame that is to be protected was found to be: of this channel, and protected under this.
#[derive(Drop)]
pub struct ChannelBinding {
    pub channel: ChannelId,
    /// What the operational association that sends on the channel binds the frame to.
    pub binding: Binding,
}

/// What an operational association binds frames on a link to.
pub(crate) fn binding_of(plan: &Plan, state: &State, line: &Link, row: &SaRow) -> Binding
    requires rules { KeepsRules state.now }
    requires link { IsLink line.now }
    requires row { IsSaRow row.now }
    requires key { HasKey state.now.keys row.now }
    requires operational { row.now.state ≡ Operational }
    ensures bound { binding_of plan.now state.now line.now row.now ≡ Some result }
    ensures binding { IsBinding result }
{
    let key = row.key.unwrap();
    let (_, held) = state.keys.find(key).unwrap();
    Binding {
        spi: row.spi,
        suite: row.suite,
        key,
        schedule: Schedule::new(held.bytes.as_slice()).unwrap(),
        device: plan.device(),
        link: *line,
    }
}

/// Makes the checks of a frame in clear that is to be protected for which the plan is enough, in their order, and
/// answers its channel. `None` is a TC control command or an AOS idle frame, which the caller sends as it stands. The
/// refusals are the first three of [`binding`]. Takes no memory.
pub fn channel(plan: &Plan, link: u8, clear: &[u8]) -> Result<Option<ChannelId>, ShieldFault>
    ensures { result ≡ channel_check plan.now link clear.now }
{
    let Some(line) = plan.link(link) else {
        return Err(ShieldFault::Layout(0));
    };
    if lacks_header(&line.layout, clear) {
        return Err(ShieldFault::Layout(1));
    }
    if is_clear(&line.layout, clear) {
        return Ok(None);
    }
    match channel_of(plan, link, &line.layout, clear) {
        Some(channel) => Ok(Some(channel)),
        None => Err(ShieldFault::Channel),
    }
}

/// Makes the first checks of a frame in clear that is to be protected, in their order, and answers its channel with
/// what it is to be protected under: the one operational association that sends there. `None` is a TC control command
/// or an AOS idle frame, which the caller sends as it stands.
///
/// Refused are, first to last: a link without a line in the plan (`Layout(0)`), a frame without the octets of its
/// headers (`Layout(1)`), one of no channel of the plan (`Channel`), one on whose channel no operational association
/// sends (`State`). The layout itself is `frame_shield::fits` to judge. Takes no memory.
pub fn binding(
    plan: &Plan,
    state: &State,
    link: u8,
    clear: &[u8],
) -> Result<Option<ChannelBinding>, ShieldFault>
    requires { KeepsRules state.now }
    ensures checked { without_channel result ≡ protect_check plan.now state.now link clear.now }
    ensures clear { (result ≡ Ok None) ↔ IsSentClear plan.now link clear.now }
    // The channel is the one that `channel` answers.
    ensures channel { IfOk result (λ answer. IfSome answer
        (λ found. channel_check plan.now link clear.now ≡ Ok (Some found.channel))) }
    // What `fits` and `shield` ask of a binding.
    ensures binding { IfOk result (λ answer. IfSome answer (λ found. IsBinding found.binding)) }
{
    let Some(line) = plan.link(link) else {
        return Err(ShieldFault::Layout(0));
    };
    if lacks_header(&line.layout, clear) {
        return Err(ShieldFault::Layout(1));
    }
    if is_clear(&line.layout, clear) {
        return Ok(None);
    }
    let Some(channel) = channel_of(plan, link, &line.layout, clear) else {
        return Err(ShieldFault::Channel);
    };
    let Some(row) = state.associations.sender_on(channel) else {
        return Err(ShieldFault::State);
    };
    Ok(Some(ChannelBinding {
        channel,
        binding: binding_of(plan, state, line, row),
    }))
}
