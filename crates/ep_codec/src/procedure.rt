ghost use Rattle.std.specs.Prelude.{◌≡◌};
ghost use Rattle.ep_codec.specs.Procedure.{procedure_of, tag_of, has_command_length, has_reply_length};
ghost use Rattle.ep_codec.specs.Procedure.{procedure_tagged, has_length};
ghost use Rattle.ep_codec.specs.declared.procedure.PduError.TheVariants.{NoMemory};

use std::alloc::{AllocError, AllocFailed};
use thiserror::Error;

/// One of the seventeen procedures of the key and association management (CCSDS 355.1-B-1 by purpose): the seven of
/// keys, then the ten of associations. A command and the reply to it are messages of one procedure.
#[derive(Clone, Copy, Debug, PartialEq, Eq)]
pub enum Procedure {
    Rekeying,
    Activate,
    Deactivate,
    Verify,
    Destroy,
    Inventory,
    Compose,
    ReadNumber,
    Create,
    Delete,
    SetWindow,
    Rekey,
    Expire,
    SetNumber,
    Start,
    Stop,
    Status,
}

impl Procedure {
    /// The procedure whose commands have this tag.
    #[tactic(auto, unfolding(crate::specs::Procedure::procedure_of))]
    pub(crate) fn of(tag: u8) -> Option<Procedure>
        ensures { result ≡ procedure_of tag }
    {
        match tag {
            0x01 => Some(Procedure::Rekeying),
            0x02 => Some(Procedure::Activate),
            0x03 => Some(Procedure::Deactivate),
            0x04 => Some(Procedure::Verify),
            0x06 => Some(Procedure::Destroy),
            0x07 => Some(Procedure::Inventory),
            0x08 => Some(Procedure::Compose),
            0x10 => Some(Procedure::ReadNumber),
            0x11 => Some(Procedure::Create),
            0x14 => Some(Procedure::Delete),
            0x15 => Some(Procedure::SetWindow),
            0x16 => Some(Procedure::Rekey),
            0x19 => Some(Procedure::Expire),
            0x1A => Some(Procedure::SetNumber),
            0x1B => Some(Procedure::Start),
            0x1E => Some(Procedure::Stop),
            0x1F => Some(Procedure::Status),
            _ => None,
        }
    }

    /// The tag of the procedure's command.
    pub(crate) fn tag(self) -> u8
        ensures { result ≡ tag_of self }
    {
        match self {
            Procedure::Rekeying => 0x01,
            Procedure::Activate => 0x02,
            Procedure::Deactivate => 0x03,
            Procedure::Verify => 0x04,
            Procedure::Destroy => 0x06,
            Procedure::Inventory => 0x07,
            Procedure::Compose => 0x08,
            Procedure::ReadNumber => 0x10,
            Procedure::Create => 0x11,
            Procedure::Delete => 0x14,
            Procedure::SetWindow => 0x15,
            Procedure::Rekey => 0x16,
            Procedure::Expire => 0x19,
            Procedure::SetNumber => 0x1A,
            Procedure::Start => 0x1B,
            Procedure::Stop => 0x1E,
            Procedure::Status => 0x1F,
        }
    }

    /// Whether the data of the procedure's command can have so many octets.
    pub(crate) fn has_command_length(self, length: usize) -> bool
        ensures { result ≡ has_command_length self length }
    {
        match self {
            Procedure::Rekeying => (49..=310).contains(&length),
            Procedure::Activate | Procedure::Deactivate | Procedure::Destroy => {
                (2..=16).contains(&length) && length % 2 == 0
            }
            Procedure::Verify => length == 18,
            Procedure::Inventory => length == 4,
            Procedure::Compose => (4..=18).contains(&length) && length % 2 == 0,
            Procedure::Create => (14..=21).contains(&length),
            Procedure::SetWindow | Procedure::SetNumber => length == 10,
            Procedure::Rekey => length == 12,
            Procedure::ReadNumber
            | Procedure::Delete
            | Procedure::Expire
            | Procedure::Start
            | Procedure::Stop
            | Procedure::Status => length == 2,
        }
    }

    /// Whether the data of the procedure's reply can have so many octets.
    pub(crate) fn has_reply_length(self, length: usize) -> bool
        ensures { result ≡ has_reply_length self length }
    {
        match self {
            Procedure::Verify => length == 46 || length == 22,
            Procedure::Inventory => (2..=770).contains(&length) && length % 3 == 2,
            Procedure::Compose => (52..=313).contains(&length),
            Procedure::ReadNumber => length == 10,
            Procedure::Status => length == 15,
            _ => length == 0,
        }
    }
}

/// The type of a message, which its tag's first bit says.
#[derive(Clone, Copy, Debug, PartialEq, Eq)]
pub(crate) enum PduType {
    Command,
    Reply,
}

impl PduType {
    /// The procedure whose messages of this type have this tag.
    pub(crate) fn procedure(self, tag: u8) -> Option<Procedure>
        ensures { result ≡ procedure_tagged self tag }
    {
        match self {
            PduType::Command => Procedure::of(tag),
            PduType::Reply => {
                if tag < 128 {
                    None
                } else {
                    Procedure::of(tag - 128)
                }
            }
        }
    }

    /// Whether the data of the procedure's message of this type can have so many octets.
    pub(crate) fn has_length(self, procedure: Procedure, length: usize) -> bool
        ensures { result ≡ has_length self procedure length }
    {
        match self {
            PduType::Command => procedure.has_command_length(length),
            PduType::Reply => procedure.has_reply_length(length),
        }
    }
}

/// Why octets were not read.
#[derive(Clone, Copy, Debug, PartialEq, Eq, Error)]
pub enum PduError {
    /// The octets are no message of this type. The offset of the first fault, in octets from the first.
    #[error("no message, fault at octet {0}")]
    Fault(u32),
    /// Memory ran out.
    #[error("no memory")]
    NoMemory,
}

impl From<AllocError> for PduError {
    ghost from_gives = { λ _ e. e ≡ NoMemory };

    fn from(_refused: AllocError) -> PduError {
        PduError::NoMemory
    }
}

impl<T: Drop> From<AllocFailed<T>> for PduError {
    ghost from_gives = { λ _ e. e ≡ NoMemory };

    fn from(_refused: AllocFailed<T>) -> PduError {
        PduError::NoMemory
    }
}
