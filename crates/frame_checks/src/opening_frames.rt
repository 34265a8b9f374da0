// The checks of a frame that was received, in their order: ProcessSecurity of CCSDS 355.0-B-2. `IsOpenReply` of
// specs/OpeningFrames.antt is the definition of that order. `open_frame` makes all the checks at once. `try_frame` and
// `open_tried` make them in two parts: what no other frame can change, MAC included, and then the number. So lanes
// compare MACs at the same time.
ghost use Rattle.std.specs.Prelude.{◌≡◌, ◌≤◌, List, ℕ, length, take, Some, IfOk, IfErr, IfSome, IsNone, IsTrue};
ghost use Rattle.std.specs.Int.{w16, to_be_bytes};
ghost use Rattle.std.specs.Option.{option_map};
ghost use Rattle.sdls_base.specs.FirstFailing.{first_failing};
ghost use Rattle.sdls_base.specs.Link.{IsLink};
ghost use Rattle.frame_shield.specs.Binding.{IsBinding};
ghost use Rattle.frame_shield.specs.Opens.{CarriesIndex};
ghost use Rattle.unit_plan.specs.PlanLines.{link_of};
ghost use Rattle.replay_window.specs.declared.TheConstants.{MOST_BACK};
ghost use Rattle.unit_state.specs.State.{KeepsRules};
ghost use Rattle.frame_checks.specs.Accepting.{LeavesOctets, MayBeAccepted, OnAccepted, field_in};
ghost use Rattle.frame_checks.specs.Addressed.{IsAddressed, IsRefusedBefore};
ghost use Rattle.frame_checks.specs.OpeningFrames.{IsJudged, IsOpenReply, IsReplyOn, association_checks};
ghost use Rattle.frame_checks.specs.OpeningFrames.{association_in, index_in};
ghost use Rattle.frame_checks.specs.Trying.{IsUnshielded, IsOfOpener, IsOpener, IsTried};

use crate::header::{channel_of, is_clear, room_of};
use crate::protecting_frames::binding_of;
use frame_shield::{Binding, Opened, unshield};
use replay_window::Verdict;
use sa_book::SaRow;
use sdls_base::{ChannelId, Direction, KeyId, Link, SaState, Spi};
use sdls_header::read_spi;
use unit_plan::Plan;
use unit_state::State;

/// The channel that a frame is of, and the association that it names.
#[derive(Clone, Copy)]
pub(crate) struct Addressed<'a> {
    pub(crate) channel: ChannelId,
    pub(crate) row: &'a SaRow,
}

/// The security parameter index at the front of a room, where that is not reserved.
pub(crate) fn index_in(room: &[u8]) -> Option<Spi>
    requires { 2 ≤ length room.now }
    ensures named { result ≡ index_in room.now }
    ensures index { IfSome result (λ spi. to_be_bytes w16 spi ≡ take 2 room.now) }
{
    Spi::new(read_spi(room)?)
}

/// The association that a room names.
fn association_in<'a>(state: &'a State, room: &[u8]) -> Option<&'a SaRow>
    requires { 2 ≤ length room.now }
    ensures named { option_map (λ row. row.now) result ≡ association_in state.now room.now }
    ensures index { IfSome result (λ row. to_be_bytes w16 row.now.spi ≡ take 2 room.now) }
{
    let spi = index_in(room)?;
    match state.associations.status(spi) {
        Ok(row) => Some(row),
        Err(_) => None,
    }
}

/// Makes the checks before those of the association.
pub(crate) fn address<'a>(
    plan: &Plan,
    state: &'a State,
    link: u8,
    line: &Link,
    frame: &[u8],
) -> Result<Addressed<'a>, OpenReply>
    requires { IsLink line.now }
    ensures found { IfOk result
        (λ found. IsAddressed plan.now state.now link line.now frame.now found.channel found.row.now) }
    ensures refused { IfErr result (λ reply. IsRefusedBefore plan.now state.now link line.now frame.now reply) }
{
    let room = match room_of(frame, &line.layout) {
        Ok(room) => room,
        Err(fault) => return Err(OpenReply::Layout(fault as u8)),
    };
    if is_clear(&line.layout, frame) {
        return Err(OpenReply::Clear);
    }
    if room.len() < 2 {
        return Err(OpenReply::Layout(1));
    }
    let Some(channel) = channel_of(plan, link, &line.layout, frame) else {
        return Err(OpenReply::Channel);
    };
    let Some(row) = association_in(state, room) else {
        return Err(OpenReply::Spi);
    };
    Ok(Addressed { channel, row })
}

/// The first of the checks of an association, for a frame of the channel, that fails.
pub(crate) fn refusal_of(row: &SaRow, channel: ChannelId) -> Option<OpenReply>
    ensures { result ≡ first_failing (association_checks row.now channel) }
{
    if row.direction != Direction::Receive {
        return Some(OpenReply::Direction);
    }
    if row.state != SaState::Operational {
        return Some(OpenReply::State(row.state));
    }
    if !row.channels.as_slice().contains(&channel.get()) {
        return Some(OpenReply::Coverage);
    }
    None
}

/// The reply to a frame that was opened under the binding, or whose MAC is wrong: its number is judged last.
pub(crate) fn judge_number(row: &SaRow, binding: &Binding, opened: Opened) -> OpenReply
    requires { row.now.window.back ≤ MOST_BACK }
    ensures judged { (old new : List ℕ) → IsUnshielded binding.now old new opened
        → IsJudged row.now binding.now old result (field_in result new) }
    ensures octets { (old new : List ℕ) → IsUnshielded binding.now old new opened → LeavesOctets result old new }
{
    let (spi, key) = (binding.spi, binding.key);
    match opened {
        Opened::BadMac => OpenReply::Mac,
        Opened::Field { number, from, to } => match row.window.judge(number, key.end()) {
            Verdict::Fresh => OpenReply::Accepted {
                spi,
                key,
                number,
                from,
                to,
            },
            Verdict::Refused { high, width } => OpenReply::Number {
                key,
                number,
                high,
                width,
            },
        },
    }
}

/// Opens a frame where its MAC is right, and then judges its number.
fn judge(row: &SaRow, binding: &Binding, frame: &mut [u8]) -> OpenReply
    requires window { row.now.window.back ≤ MOST_BACK }
    requires binding { IsBinding binding.now }
    requires frame { CarriesIndex binding.now frame.old }
    ensures judged { IsJudged row.now binding.now frame.old result (field_in result frame.new) }
    ensures octets { LeavesOctets result frame.old frame.new }
{
    let opened = unshield(binding, frame);
    judge_number(row, binding, opened)
}

/// Makes the checks from those of the association on.
fn open_under(
    plan: &Plan,
    state: &State,
    link: u8,
    line: &Link,
    addressed: &Addressed<'_>,
    frame: &mut [u8],
) -> OpenReply
    requires rules { KeepsRules state.now }
    requires line { IsLink line.now }
    requires addressed { IsAddressed plan.now state.now link line.now frame.old
        addressed.now.channel addressed.now.row.now }
    ensures reply { IsReplyOn plan.now state.now link frame.old result (field_in result frame.new) line.now }
    ensures octets { LeavesOctets result frame.old frame.new }
{
    let row = addressed.row;
    if let Some(reply) = refusal_of(row, addressed.channel) {
        return reply;
    }
    let binding = binding_of(plan, state, line, row);
    judge(row, &binding, frame)
}

/// Makes the checks of a frame that was received, in their order, and opens it in place where none fails: the reply is
/// that of the first that fails, or `Accepted`. A number that is accepted is one that the state allows its association
/// to accept; the state is not changed. Takes no memory.
pub fn open_frame(plan: &Plan, state: &State, link: u8, frame: &mut [u8]) -> OpenReply
    requires { KeepsRules state.now }
    ensures reply { IsOpenReply plan.now state.now link frame.old result (field_in result frame.new) }
    ensures octets { LeavesOctets result frame.old frame.new }
    ensures accepted { OnAccepted result (MayBeAccepted state.now) }
{
    let Some(line) = plan.link(link) else {
        return OpenReply::Layout(0);
    };
    match address(plan, state, link, line, frame) {
        Ok(addressed) => open_under(plan, state, link, line, &addressed, frame),
        Err(reply) => reply,
    }
}

/// What comes of a frame that is to be opened, in the order of the checks (profile). A check that fails names itself.
#[derive(Clone, Copy, Debug, PartialEq, Eq)]
pub enum OpenReply {
    /// No check fails: the frame's association, its key and the frame's number. The data field lies in clear from the
    /// octet `from` to before the octet `to`.
    Accepted {
        spi: Spi,
        key: KeyId,
        number: u64,
        from: usize,
        to: usize,
    },
    /// A TC control command, or an AOS idle frame: it carries no security.
    Clear,
    /// 0 where the link has no line in the plan, or else the number of the check of the layout that fails.
    Layout(u8),
    /// The plan has no channel with this link, spacecraft, virtual channel and MAP.
    Channel,
    /// The security parameter index is reserved, or no association's.
    Spi,
    /// The association sends.
    Direction,
    /// The association is not operational: its state.
    State(SaState),
    /// The association does not cover the channel.
    Coverage,
    /// The MAC is wrong, or the room has fewer octets than security header and MAC.
    Mac,
    /// The number is not below the key's end, or it lies beyond the window, or at or below the highest accepted one
    /// and not in the back window, or it was accepted before.
    Number {
        key: KeyId,
        number: u64,
        high: u64,
        width: u64,
    },
}

/// What frames of a channel that name an association are opened under, while no command changes the state.
#[derive(Drop)]
pub struct Opener {
    /// The link of the channel.
    pub link: u8,
    pub channel: ChannelId,
    /// The association's, with its security parameter index.
    pub binding: Binding,
}

/// What a frame that was received is opened under. `None` where a check before that of its MAC fails. Takes no memory.
pub fn opener_of(plan: &Plan, state: &State, link: u8, frame: &[u8]) -> Option<Opener>
    requires { KeepsRules state.now }
    ensures { IfSome result (IsOpener plan.now state.now) }
{
    let line = plan.link(link)?;
    let Ok(addressed) = address(plan, state, link, line, frame) else {
        return None;
    };
    let (row, channel) = (addressed.row, addressed.channel);
    if let Some(_) = refusal_of(row, channel) {
        return None;
    }
    Some(Opener {
        link,
        channel,
        binding: binding_of(plan, state, line, row),
    })
}

/// Whether no check fails of those of a frame for which the plan is enough, and the frame is of the opener's channel
/// and names its association.
fn is_of_opener(plan: &Plan, opener: &Opener, link: u8, frame: &[u8]) -> bool
    requires line { link_of plan.now.links opener.now.link ≡ Some opener.now.binding.link }
    requires binding { IsBinding opener.now.binding }
    ensures { IsTrue result → IsOfOpener plan.now opener.now link frame.now }
{
    let layout = &opener.binding.link.layout;
    if link != opener.link {
        return false;
    }
    let Ok(room) = room_of(frame, layout) else {
        return false;
    };
    if is_clear(layout, frame) || room.len() < 2 {
        return false;
    }
    channel_of(plan, link, layout, frame) == Some(opener.channel)
        && index_in(room) == Some(opener.binding.spi)
}

/// Opens a frame in place under an opener, where the frame is of its channel and names its association, and its MAC is
/// right. The number is still to be judged. `None`: the frame is not the opener's. Takes no memory.
pub fn try_frame(plan: &Plan, opener: &Opener, link: u8, frame: &mut [u8]) -> Option<Opened>
    requires line { link_of plan.now.links opener.now.link ≡ Some opener.now.binding.link }
    requires binding { IsBinding opener.now.binding }
    ensures tried { IfSome result (IsTried plan.now opener.now link frame.old frame.new) }
    ensures unchanged { IsNone result → frame.new ≡ frame.old }
{
    if !is_of_opener(plan, opener, link, frame) {
        return None;
    }
    Some(unshield(&opener.binding, frame))
}

/// The reply to a frame that was tried, where the state still has what it was tried under: its number is judged as the
/// window stands, and the other checks pass. It is the reply of [`open_frame`](crate::open_frame) to the frame's octets
/// as they came. The state is not changed. Takes no memory.
pub fn open_tried(
    plan: &Plan,
    state: &State,
    opener: &Opener,
    link: u8,
    octets: &[u8],
    frame: &[u8],
    opened: Opened,
) -> OpenReply
    requires opener { IsOpener plan.now state.now opener.now }
    requires tried { IsTried plan.now opener.now link octets.now frame.now opened }
    ensures reply { IsOpenReply plan.now state.now link octets.now result (field_in result frame.now) }
    ensures octets { LeavesOctets result octets.now frame.now }
    ensures accepted { OnAccepted result (MayBeAccepted state.now) }
{
    // For contracts alone.
    let _plan = plan;
    let _octets = octets;
    let _frame = frame;
    let _link = link;
    let Ok(row) = state.associations.status(opener.binding.spi) else {
        unreachable!()
    };
    judge_number(row, &opener.binding, opened)
}
