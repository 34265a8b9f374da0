//! The bounds of the numbers of a plan (profile; of channels CCSDS 232.0-B-4, 132.0-B-3 and 732.0-B-4).

pub(crate) const LEAST_SLOTS: u64 = 16;

/// The greatest number of slots, of a block and of numbers accepted.
pub(crate) const MOST_COUNT: u64 = 65_536;

pub(crate) const MOST_LINK: u8 = 15;

/// The octets of a TM frame, and of an AOS frame without insert zone.
pub(crate) const LEAST_LENGTH: u16 = 48;

pub(crate) const MOST_LENGTH: u16 = 2_048;

/// The octets of an insert zone.
pub(crate) const MOST_INSERT: u8 = 64;

/// The number of a channel in a plan.
pub(crate) const MOST_CHANNEL: u8 = 63;

/// The numbers of a place on a link. Of AOS frames 63 is the virtual channel of idle ones.
pub(crate) const MOST_SPACECRAFT: u16 = 1_023;

pub(crate) const MOST_AOS_SPACECRAFT: u16 = 255;

pub(crate) const MOST_TC_CHANNEL: u8 = 63;

pub(crate) const MOST_TM_CHANNEL: u8 = 7;

pub(crate) const MOST_AOS_CHANNEL: u8 = 62;

pub(crate) const MOST_MAP: u8 = 63;

pub(crate) const MOST_KEY: u64 = 65_535;

pub(crate) const MOST_SPI: u64 = 65_534;

/// The first number of an association.
pub(crate) const MOST_NUMBER: u64 = 1 << 48;
