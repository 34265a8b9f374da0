//! Where a frame belongs, and what room it has.

ghost use Rattle.std.specs.Prelude.{◌≡◌, ◌↔◌, ◌≤◌, length, Some, None, IfOk, IfErr, IsOk};
ghost use Rattle.sdls_base.specs.Link.{IsInBounds};
ghost use Rattle.frame_shield.specs.AnyFrame.{first_fault};
ghost use Rattle.frame_checks.specs.Header.{HasRoom, header_length, lacks_header, is_clear, channel_of};

use frame_shield::{body_of, fault_of};
use sdls_base::{AnyLayout, ChannelId, FrameFault};
use unit_plan::Plan;

/// Whether a frame has not the octets of its primary header, and of its segment header where it should have one.
pub(crate) fn lacks_header(layout: &AnyLayout, frame: &[u8]) -> bool
    ensures { result ≡ lacks_header layout.now frame.now }
{
    match layout {
        AnyLayout::Tc(layout) => tc_frame::lacks_header(frame, layout),
        AnyLayout::Tm(_) => tm_frame::lacks_header(frame),
        AnyLayout::Aos(_) => aos_frame::lacks_header(frame),
    }
}

/// Whether a frame carries no security.
pub(crate) fn is_clear(layout: &AnyLayout, frame: &[u8]) -> bool
    requires { header_length layout.now frame.now ≤ length frame.now }
    ensures { result ≡ is_clear layout.now frame.now }
{
    match layout {
        AnyLayout::Tc(_) => tc_frame::is_control(frame),
        AnyLayout::Tm(_) => false,
        AnyLayout::Aos(_) => aos_frame::is_idle(frame),
    }
}

/// The channel of the plan that a frame on a link is of.
pub(crate) fn channel_of(
    plan: &Plan,
    link: u8,
    layout: &AnyLayout,
    frame: &[u8],
) -> Option<ChannelId>
    requires { header_length layout.now frame.now ≤ length frame.now }
    ensures { result ≡ channel_of plan.now link layout.now frame.now }
{
    match layout {
        AnyLayout::Tc(layout) => plan.channel_of(
            link,
            tc_frame::spacecraft_of(frame),
            tc_frame::virtual_channel_of(frame),
            tc_frame::map_of(frame, layout),
        ),
        AnyLayout::Tm(_) => plan.channel_of(
            link,
            tm_frame::spacecraft_of(frame),
            tm_frame::virtual_channel_of(frame),
            None,
        ),
        AnyLayout::Aos(_) => plan.channel_of(
            link,
            u16::from(aos_frame::spacecraft_of(frame)),
            aos_frame::virtual_channel_of(frame),
            None,
        ),
    }
}

/// The room of a frame of the layout, or the first check that fails.
pub(crate) fn room_of<'a>(frame: &'a [u8], layout: &AnyLayout) -> Result<&'a [u8], FrameFault>
    requires { IsInBounds layout.now }
    ensures room { IfOk result (λ room. HasRoom layout.now frame.now room.now) }
    ensures ok { IsOk result ↔ (first_fault layout.now frame.now ≡ None) }
    ensures fault { IfErr result (λ fault. first_fault layout.now frame.now ≡ Some fault) }
    ensures header { IsOk result → header_length layout.now frame.now ≤ length frame.now }
{
    match fault_of(frame, layout) {
        Some(fault) => Err(fault),
        None => Ok(body_of(frame, layout).room),
    }
}
