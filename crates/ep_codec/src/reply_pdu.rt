ghost use Rattle.std.specs.Prelude.{◌≡◌};
ghost use Rattle.ep_codec.specs.ReplyReading.{reply_procedure};

use crate::procedure::Procedure;
use sdls_base::{Direction, KeyId, KeyRows, Octets, SaState, Spi, Suite};

/// The reply of a procedure (CCSDS 355.1-B-1). One that carries nothing says that the command was done.
/// The bounds are profile.
#[derive(Debug, Drop)]
pub enum ReplyPdu {
    Rekeying,
    Activate,
    Deactivate,
    Destroy,
    Create,
    Delete,
    SetWindow,
    Rekey,
    Expire,
    SetNumber,
    Start,
    Stop,
    /// The challenge, sealed by GCM under a master key or a key of the GCM class.
    VerifyGcm {
        key: KeyId,
        vector: [u8; 12],
        sealed: [u8; 16],
        tag: [u8; 16],
    },
    /// A MAC over the challenge under a key of the CMAC class, with the number that it covers.
    VerifyCmac {
        key: KeyId,
        number: u32,
        mac: [u8; 16],
    },
    /// How many keys there are from `first` to `last`, and at most 256 of them with their states.
    Inventory {
        total: u16,
        rows: KeyRows,
    },
    /// A rekeying command with the keys that were asked for.
    Compose {
        master: KeyId,
        vector: [u8; 12],
        sealed: Octets,
        tag: [u8; 16],
    },
    /// The next number of an association.
    ReadNumber {
        spi: Spi,
        number: u64,
    },
    /// An association, with its key where it has one.
    Status {
        spi: Spi,
        state: SaState,
        direction: Direction,
        suite: Suite,
        key: Option<KeyId>,
        window: u64,
    },
}

impl ReplyPdu {
    /// The procedure whose message the reply is.
    pub fn procedure(&self) -> Procedure
        ensures { result ≡ reply_procedure self.now }
    {
        match self {
            ReplyPdu::Rekeying => Procedure::Rekeying,
            ReplyPdu::Activate => Procedure::Activate,
            ReplyPdu::Deactivate => Procedure::Deactivate,
            ReplyPdu::Destroy => Procedure::Destroy,
            ReplyPdu::Create => Procedure::Create,
            ReplyPdu::Delete => Procedure::Delete,
            ReplyPdu::SetWindow => Procedure::SetWindow,
            ReplyPdu::Rekey => Procedure::Rekey,
            ReplyPdu::Expire => Procedure::Expire,
            ReplyPdu::SetNumber => Procedure::SetNumber,
            ReplyPdu::Start => Procedure::Start,
            ReplyPdu::Stop => Procedure::Stop,
            ReplyPdu::VerifyGcm { .. } | ReplyPdu::VerifyCmac { .. } => Procedure::Verify,
            ReplyPdu::Inventory { .. } => Procedure::Inventory,
            ReplyPdu::Compose { .. } => Procedure::Compose,
            ReplyPdu::ReadNumber { .. } => Procedure::ReadNumber,
            ReplyPdu::Status { .. } => Procedure::Status,
        }
    }
}
