//! What the calls of a book would refuse. Nothing changes, and nothing here takes memory.
ghost use Rattle.std.specs.Prelude.{◌≡◌, ◌≤◌, All};
ghost use Rattle.sa_book.specs.SaRefusal.{create_refusal, rekey_refusal, start_refusal, stop_refusal, expire_refusal};
ghost use Rattle.sa_book.specs.SaRefusal.{delete_refusal, set_number_refusal, set_window_refusal};

use crate::judging;
use crate::sa_book::SaBook;
use sdls_base::{ChannelId, KeyId, KeyState, NewSa, SaState, Spi};
use std::alloc::{AllocError, AllocFailed};
use thiserror::Error;

impl SaBook {
    /// What `create` would refuse, but for lack of memory.
    pub fn create_refusal(&self, new: &NewSa, known: &[ChannelId]) -> Option<SaRefusal>
        requires { All (λ channel. channel ≤ 63) new.now.channels }
        ensures { result ≡ create_refusal self.now new.now known.now }
    {
        judging::judge_create(self.rows(), new, known).err()
    }

    /// What `rekey` would refuse.
    pub fn rekey_refusal(
        &self,
        spi: Spi,
        key: KeyId,
        state: KeyState,
        number: u64,
        floor: u64,
    ) -> Option<SaRefusal>
        ensures { result ≡ rekey_refusal self.now spi key state number floor }
    {
        match self.status(spi) {
            Ok(row) => { judging::judge_rekey(self.rows(), row, key, state, number, floor).err() }
            Err(refusal) => Some(refusal),
        }
    }

    /// What `start` would refuse.
    pub fn start_refusal(&self, spi: Spi) -> Option<SaRefusal>
        ensures { result ≡ start_refusal self.now spi }
    {
        match self.status(spi) {
            Ok(row) => judging::judge_start(self.rows(), row).err(),
            Err(refusal) => Some(refusal),
        }
    }

    /// What `stop` would refuse.
    pub fn stop_refusal(&self, spi: Spi) -> Option<SaRefusal>
        ensures { result ≡ stop_refusal self.now spi }
    {
        match self.status(spi) {
            Ok(row) => judging::check_operational(row.state).err(),
            Err(refusal) => Some(refusal),
        }
    }

    /// What `expire` would refuse.
    pub fn expire_refusal(&self, spi: Spi) -> Option<SaRefusal>
        ensures { result ≡ expire_refusal self.now spi }
    {
        match self.status(spi) {
            Ok(row) => judging::check_keyed(row.state).err(),
            Err(refusal) => Some(refusal),
        }
    }

    /// What `delete` would refuse.
    pub fn delete_refusal(&self, spi: Spi) -> Option<SaRefusal>
        ensures { result ≡ delete_refusal self.now spi }
    {
        match self.status(spi) {
            Ok(row) => judging::check_unkeyed(row.state).err(),
            Err(refusal) => Some(refusal),
        }
    }

    /// What `set_number` would refuse.
    pub fn set_number_refusal(&self, spi: Spi, number: u64, floor: u64) -> Option<SaRefusal>
        ensures { result ≡ set_number_refusal self.now spi number floor }
    {
        match self.status(spi) {
            Ok(row) => judging::judge_set_number(row, number, floor).err(),
            Err(refusal) => Some(refusal),
        }
    }

    /// What `set_window` would refuse.
    pub fn set_window_refusal(&self, spi: Spi) -> Option<SaRefusal>
        ensures { result ≡ set_window_refusal self.now spi }
    {
        match self.status(spi) {
            Ok(_) => None,
            Err(refusal) => Some(refusal),
        }
    }
}

/// Why a call on the associations is refused, with what decided.
#[derive(Clone, Copy, Debug, PartialEq, Eq, Error)]
pub enum SaRefusal {
    /// No association has this index.
    #[error("association is unknown")]
    UnknownSpi,
    /// An association has this index.
    #[error("association is there already")]
    SpiTaken,
    /// The association is in this state, from which the call does not go.
    #[error("association is in state {0:?}, from which the call does not go")]
    WrongState(SaState),
    /// An operational association of the same direction covers a channel; this is the lowest index of those that do.
    #[error("channel is covered by association {}", .0.get())]
    ChannelTaken(Spi),
    /// The key is in this state, and not active.
    #[error("key is in state {0:?}, not active")]
    KeyNotActive(KeyState),
    /// The number is below this one, the least that is lawful.
    #[error("number is below {0}, the least that is lawful")]
    BelowFloor(u64),
    /// The book has no room for an association.
    #[error("association book has no room")]
    TableFull,
    /// The key's class is not that of the suite.
    #[error("key is of another class than the suite")]
    WrongSuite,
    /// The number is not below this one, the key's end.
    #[error("number is not below {0}, the end of the key")]
    PastEnd(u64),
    /// The unit has no such channel; this is the first.
    #[error("channel {} is unknown", .0.get())]
    UnknownChannel(ChannelId),
    /// The receiving association with this index holds the key.
    #[error("key is held by receiving association {}", .0.get())]
    KeyTaken(Spi),
    /// Memory ran out.
    #[error("no memory")]
    NoMemory,
}

impl From<AllocError> for SaRefusal {
    ghost use Rattle.std.specs.Prelude.{◌≡◌};
    ghost use Rattle.sa_book.specs.declared.refusals.SaRefusal.TheVariants.{NoMemory};

    ghost from_gives = { λ _ refusal. refusal ≡ NoMemory };

    fn from(_wanting: AllocError) -> SaRefusal {
        SaRefusal::NoMemory
    }
}

impl<T: Drop> From<AllocFailed<T>> for SaRefusal {
    ghost use Rattle.std.specs.Prelude.{◌≡◌};
    ghost use Rattle.sa_book.specs.declared.refusals.SaRefusal.TheVariants.{NoMemory};

    ghost from_gives = { λ _ refusal. refusal ≡ NoMemory };

    fn from(_wanting: AllocFailed<T>) -> SaRefusal {
        SaRefusal::NoMemory
    }
}
