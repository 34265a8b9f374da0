//! What a unit's state says of one frame (CCSDS 355.0-B-2, ApplySecurity and ProcessSecurity; the order of the checks
//! is profile).
//!
//! `binding` makes the checks of a frame that is to be protected, up to the association that sends it, and `channel`
//! those of them for which the plan is enough. `open_frame` makes those of a frame that was received, in their order,
//! and opens it in place. Neither changes the state: what an acceptance leaves is the caller's to make and to store. No
//! call takes memory.
//!
//! `try_frame` makes what of this no other frame can change, under what `opener_of` found: the checks for which the
//! plan is enough, the MAC, and the cipher. `open_tried` judges the number afterwards, in the state as it stands then.
#![tactic(auto)]

mod header;
mod laws;
mod opening_frames;
mod protecting_frames;

pub use laws::{accepted_may_be, binding_stays, opener_stays};
pub use opening_frames::{OpenReply, Opener, open_frame, open_tried, opener_of, try_frame};
pub use protecting_frames::{ChannelBinding, binding, channel};
