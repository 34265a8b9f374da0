//! The message of a reply.
ghost use Rattle.std.specs.Prelude.{◌≡◌, Option, ◌≤◌, length};
ghost use Rattle.ep_core.specs.Refusal.{code_of, value_of, of_keys, of_association};

use key_book::KeyRefusal;
use sa_book::SaRefusal;
use sdls_base::{ChannelId, KeyId, KeyState, MOST_ASSOCIATIONS, MOST_KEYS, Octets, SaState, Spi};
use std::marker::Model;

/// Why a command is refused, with what decided.
#[derive(Clone, Copy)]
pub enum Refusal {
    /// This key was loaded before.
    AlreadyLoaded(KeyId),
    /// The octets are those of this key.
    DuplicateKey(KeyId),
    /// The keys do not fit into the book.
    BookFull,
    /// The key is in this state, in which the command does not take it.
    KeyInState(KeyState),
    /// The key is held by this association.
    KeyInUse(Spi),
    /// This key is unknown.
    UnknownKey(KeyId),
    /// This association is unknown.
    UnknownSpi(Spi),
    /// This association is there already.
    SpiTaken(Spi),
    /// The association is in this state, in which the command does not take it.
    SaInState(SaState),
    /// A channel is covered by this association.
    ChannelTaken(Spi),
    /// The key is in this state, and is to be active.
    KeyNotActive(KeyState),
    /// The number is below this one, the least that is lawful.
    BelowFloor(u64),
    /// The unit has no room for a further association.
    TableFull,
    /// This key is of another class than the suite.
    WrongSuite(KeyId),
    /// The number is not below this one, the end of the key.
    PastEnd(u64),
    /// This channel is unknown.
    UnknownChannel(ChannelId),
    /// The key is held by this receiving association.
    KeyTaken(Spi),
    /// The tag of the sealed keys is wrong.
    BadTag,
    /// The sealed keys cannot be read from this octet on.
    BadItems(u32),
    /// This number is at or above the end of the key.
    Exhausted(u64),
    /// The octets are no message of a command; the offset of their first fault. It comes before all others.
    PduFault(u32),
    /// This key is no master key.
    NotMaster(KeyId),
    /// This key is no session key.
    NotSession(KeyId),
}

impl Refusal {
    /// The detail that names it in a reply.
    pub fn code(&self) -> u8
        ensures { result ≡ code_of self.now }
    {
        match self {
            Refusal::AlreadyLoaded(_) => 0x11,
            Refusal::DuplicateKey(_) => 0x12,
            Refusal::BookFull => 0x13,
            Refusal::KeyInState(_) => 0x14,
            Refusal::KeyInUse(_) => 0x15,
            Refusal::UnknownKey(_) => 0x16,
            Refusal::UnknownSpi(_) => 0x21,
            Refusal::SpiTaken(_) => 0x22,
            Refusal::SaInState(_) => 0x23,
            Refusal::ChannelTaken(_) => 0x24,
            Refusal::KeyNotActive(_) => 0x25,
            Refusal::BelowFloor(_) => 0x26,
            Refusal::TableFull => 0x27,
            Refusal::WrongSuite(_) => 0x28,
            Refusal::PastEnd(_) => 0x29,
            Refusal::UnknownChannel(_) => 0x2A,
            Refusal::KeyTaken(_) => 0x2B,
            Refusal::BadTag => 0x31,
            Refusal::BadItems(_) => 0x32,
            Refusal::Exhausted(_) => 0x33,
            Refusal::PduFault(_) => 0x34,
            Refusal::NotMaster(_) => 0x35,
            Refusal::NotSession(_) => 0x36,
        }
    }

    /// The value that decided, as a reply carries it.
    pub fn value(&self) -> u64
        ensures { result ≡ value_of self.now }
    {
        match *self {
            Refusal::AlreadyLoaded(key)
            | Refusal::DuplicateKey(key)
            | Refusal::UnknownKey(key)
            | Refusal::WrongSuite(key)
            | Refusal::NotMaster(key)
            | Refusal::NotSession(key) => u64::from(key.get()),
            Refusal::KeyInUse(spi)
            | Refusal::UnknownSpi(spi)
            | Refusal::SpiTaken(spi)
            | Refusal::ChannelTaken(spi)
            | Refusal::KeyTaken(spi) => u64::from(spi.get()),
            Refusal::KeyInState(state) | Refusal::KeyNotActive(state) => state as u64,
            Refusal::SaInState(state) => state as u64,
            Refusal::BelowFloor(number) | Refusal::PastEnd(number) | Refusal::Exhausted(number) => {
                number
            }
            Refusal::UnknownChannel(channel) => u64::from(channel.get()),
            Refusal::BadItems(offset) | Refusal::PduFault(offset) => u64::from(offset),
            Refusal::BookFull => MOST_KEYS as u64,
            Refusal::TableFull => MOST_ASSOCIATIONS as u64,
            Refusal::BadTag => 0,
        }
    }

    /// What the book of keys refuses. Lack of memory is no refusal.
    pub(crate) fn of_keys(refusal: KeyRefusal) -> Option<Refusal>
        ensures { result ≡ of_keys refusal }
    {
        match refusal {
            KeyRefusal::AlreadyLoaded(key) => Some(Refusal::AlreadyLoaded(key)),
            KeyRefusal::DuplicateKey(key) => Some(Refusal::DuplicateKey(key)),
            KeyRefusal::BookFull => Some(Refusal::BookFull),
            KeyRefusal::WrongState(state) => Some(Refusal::KeyInState(state)),
            KeyRefusal::KeyInUse(spi) => Some(Refusal::KeyInUse(spi)),
            KeyRefusal::UnknownKey(key) => Some(Refusal::UnknownKey(key)),
            KeyRefusal::NoMemory => None,
        }
    }

    /// What the book of associations refuses of an association, and of a key where the command names one. Want of
    /// memory is no refusal.
    pub(crate) fn of_association(
        spi: Spi,
        key: Option<KeyId>,
        refusal: SaRefusal,
    ) -> Option<Refusal>
        ensures { result ≡ of_association spi key refusal }
    {
        match refusal {
            SaRefusal::UnknownSpi => Some(Refusal::UnknownSpi(spi)),
            SaRefusal::SpiTaken => Some(Refusal::SpiTaken(spi)),
            SaRefusal::WrongState(state) => Some(Refusal::SaInState(state)),
            SaRefusal::ChannelTaken(other) => Some(Refusal::ChannelTaken(other)),
            SaRefusal::KeyNotActive(state) => Some(Refusal::KeyNotActive(state)),
            SaRefusal::BelowFloor(least) => Some(Refusal::BelowFloor(least)),
            SaRefusal::TableFull => Some(Refusal::TableFull),
            SaRefusal::WrongSuite => key.map(Refusal::WrongSuite),
            SaRefusal::PastEnd(end) => Some(Refusal::PastEnd(end)),
            SaRefusal::UnknownChannel(channel) => Some(Refusal::UnknownChannel(channel)),
            SaRefusal::KeyTaken(other) => Some(Refusal::KeyTaken(other)),
            SaRefusal::NoMemory => None,
        }
    }
}

/// The reply to a command.
#[derive(Drop)]
pub enum Reply {
    /// The command was done.
    Done {
        /// The key of which a number was used; none where no number was.
        key: Option<KeyId>,
        /// The number that was used, or 0.
        number: u64,
        /// The message that says it.
        pdu: ReplyOctets,
    },
    /// The command was refused, and nothing changed.
    Refused {
        /// The detail that names the refusal.
        code: u8,
        /// The value that decided.
        value: u64,
    },
}

impl Reply {
    pub(crate) fn refused(refusal: Refusal) -> Reply
        ensures { result ≡ Reply.Refused (code_of refusal) (value_of refusal) }
    {
        Reply::Refused {
            code: refusal.code(),
            value: refusal.value(),
        }
    }
}

/// The most octets of a reply: the inventory of 256 keys, 3 octets each, behind a header and a count.
pub const MOST_REPLY_OCTETS: usize = 773;

/// The octets of a reply, at most [`MOST_REPLY_OCTETS`].
#[derive(Drop)]
pub struct ReplyOctets {
    octets: Octets,
}

impl Model for ReplyOctets {
    ghost use Rattle.std.specs.Prelude.{List, ℕ, ◌≤◌, length};
    ghost use Rattle.ep_core.specs.declared.refusal.TheConstants.{MOST_REPLY_OCTETS};

    ghost Value = { List ℕ };

    ghost view = { λ reply. reply.octets };

    ghost invariant = { λ reply. length reply.octets ≤ MOST_REPLY_OCTETS };
}

impl ReplyOctets {
    pub fn new(octets: Octets) -> ReplyOctets
        requires { length octets ≤ MOST_REPLY_OCTETS }
        ensures { result ≡ octets }
    {
        ReplyOctets { octets }
    }

    pub fn as_slice(&self) -> &[u8]
        ensures { result.now ≡ self.now }
    {
        self.octets.as_slice()
    }

    /// The octets, given back without taking memory.
    pub fn into_octets(self) -> Octets
        ensures octets { result ≡ self }
        ensures few { length result ≤ MOST_REPLY_OCTETS }
    {
        self.octets
    }
}
