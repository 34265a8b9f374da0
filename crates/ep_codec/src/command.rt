ghost use Rattle.std.specs.Prelude.{◌≡◌};
ghost use Rattle.ep_codec.specs.CommandReading.{command_procedure};

use crate::procedure::Procedure;
use sdls_base::{KeyId, KeyList, NewSa, Octets, Spi};

/// A command of a procedure of the key and association management (CCSDS 355.1-B-1). The bounds are profile.
#[derive(Debug, Drop)]
pub enum Command {
    /// Loads the keys that are sealed under a master key, by GCM: 19 to 280 octets.
    Rekeying {
        master: KeyId,
        vector: [u8; 12],
        sealed: Octets,
        tag: [u8; 16],
    },
    /// Makes 1 to 8 keys active.
    Activate(KeyList),
    /// Makes 1 to 8 keys deactivated.
    Deactivate(KeyList),
    /// Asks for the challenge back, sealed or authenticated under a key.
    Verify {
        key: KeyId,
        challenge: [u8; 16],
    },
    /// Destroys 1 to 8 keys.
    Destroy(KeyList),
    /// Asks for the states of the keys from `first` to `last`, which is not below it.
    Inventory {
        first: u16,
        last: u16,
    },
    /// Asks for a rekeying command with these keys, 1 to 8, sealed under a master key.
    Compose {
        master: KeyId,
        keys: KeyList,
    },
    /// Asks for the next number of an association.
    ReadNumber(Spi),
    /// Creates an association, on 1 to 8 channels in ascending order, with a window field: the back window, 0 to 64, in
    /// its first octet, and the width, 1 to 2^32, in the other seven.
    Create(NewSa),
    /// Deletes an association.
    Delete(Spi),
    /// Sets back window and width of an association's anti-replay window, by a window field.
    SetWindow {
        spi: Spi,
        window: u64,
    },
    /// Gives an association a key, with the first number that it may use or accept.
    Rekey {
        spi: Spi,
        key: KeyId,
        number: u64,
    },
    /// Takes the key of an association away.
    Expire(Spi),
    /// Sets the next number of an association.
    SetNumber {
        spi: Spi,
        number: u64,
    },
    /// Makes an association operational.
    Start(Spi),
    /// Takes an association out of operation.
    Stop(Spi),
    /// Asks for the state of an association.
    Status(Spi),
}

impl Command {
    /// The procedure whose message the command is.
    pub fn procedure(&self) -> Procedure
        ensures { result ≡ command_procedure self.now }
    {
        match self {
            Command::Rekeying { .. } => Procedure::Rekeying,
            Command::Activate(_) => Procedure::Activate,
            Command::Deactivate(_) => Procedure::Deactivate,
            Command::Verify { .. } => Procedure::Verify,
            Command::Destroy(_) => Procedure::Destroy,
            Command::Inventory { .. } => Procedure::Inventory,
            Command::Compose { .. } => Procedure::Compose,
            Command::ReadNumber(_) => Procedure::ReadNumber,
            Command::Create(_) => Procedure::Create,
            Command::Delete(_) => Procedure::Delete,
            Command::SetWindow { .. } => Procedure::SetWindow,
            Command::Rekey { .. } => Procedure::Rekey,
            Command::Expire(_) => Procedure::Expire,
            Command::SetNumber { .. } => Procedure::SetNumber,
            Command::Start(_) => Procedure::Start,
            Command::Stop(_) => Procedure::Stop,
            Command::Status(_) => Procedure::Status,
        }
    }
}
