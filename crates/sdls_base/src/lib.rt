//! The plain types of a space link security unit (CCSDS 355.0-B-2 and 355.1-B-1): names, states, frame layouts, changes
//! and the entries of a history.
//!
//! No cipher, no table and no store stands here. The names (`Spi`, `KeyId`, `ChannelId`) are seen by contracts as
//! their number, and the lists (`Octets`, `KeyList`, ..) as the list of their items. No call takes memory but `clone`.
#![tactic(auto)]

mod bounds;
mod channel_id;
mod entry;
mod error_control;
mod key_id;
mod layout;
mod link;
mod lists;
mod no_memory;
mod ocf;
mod octets;
mod spi;
mod states;
mod version;

pub use bounds::are_channels;
pub use channel_id::ChannelId;
pub use entry::{Change, Entry, Logged, NewSa, Seen};
pub use error_control::fecf;
pub use key_id::{KeyClass, KeyId, KeyItem};
pub use layout::{AosLayout, FrameFault, TcLayout, TmLayout};
pub use link::{AnyLayout, Link, Mask};
pub use lists::{ChannelList, Items, KeyItems, KeyList, KeyRows};
pub use no_memory::NoMemory;
pub use ocf::cut_ocf;
pub use octets::{
    Octets, are_zeros, before_fecf, double_word_at, fecf_fails, flag, number_at, put, put_fecf,
    put_frame, put_optional, same_octets, word_at,
};
pub use spi::Spi;
pub use states::{Direction, KeyState, SaState, Suite};
pub use version::{CONTENT_LENGTH_ONE, CONTENT_LENGTH_TWO, Version};

/// The most keys that a unit loads in its life (profile).
pub const MOST_KEYS: usize = 4_096;

/// The most security associations that a unit has at one time (profile).
pub const MOST_ASSOCIATIONS: usize = 256;

/// The most channels that a security association covers (profile). The least is 1.
pub const MOST_CHANNELS: usize = 8;

/// The most keys that a command or a record names (profile). The least is 1.
pub const MOST_KEYS_AT_ONCE: usize = 8;

/// The widest anti-replay window (profile). The narrowest is 1.
pub const MOST_WINDOW: u64 = 1 << 32;

/// The octets of the body of a record, as it stands in a slot behind the gate (profile).
pub const BODY_LENGTH: usize = 511;
