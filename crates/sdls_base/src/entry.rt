use crate::key_id::KeyId;
use crate::lists::{KeyItems, KeyList};
use crate::octets::Octets;
use crate::spi::Spi;
use crate::states::{Direction, KeyState, SaState, Suite};

/// What a step saw of a key's numbers.
#[derive(Clone, Copy, Debug, PartialEq, Eq)]
pub enum Seen {
    /// Nothing was looked at.
    Nothing,
    /// The key's next number, as it stood.
    Word(u64),
    /// A number that was drawn.
    Number(u64),
    /// A number at or above the key's end, so that none was drawn for use.
    Exhausted(u64),
}

/// An entry of the history of a run.
#[derive(Debug, Drop)]
pub struct Entry {
    /// The number of the entry's record, `None` for a reserve or a release.
    pub index: Option<u64>,
    pub seen: Seen,
    pub change: Change,
}

/// A line of the log of a run: an entry of its history, or a piece of output that was written.
#[derive(Debug, Drop)]
pub enum Logged {
    Entry(Entry),
    Piece(Octets),
}

/// A security association to be created.
#[derive(Clone, Debug, Drop)]
pub struct NewSa {
    pub spi: Spi,
    pub direction: Direction,
    pub suite: Suite,
    /// The width of the anti-replay window.
    pub window: u64,
    /// The numbers of the channels that it covers.
    pub channels: Octets,
}

/// A change of the unit's state.
#[derive(Debug, Drop)]
pub enum Change {
    /// A key's mark and floor become these.
    Marks {
        key: KeyId,
        mark: u64,
        floor: u64,
    },
    /// These keys are loaded, pre-active.
    Load(KeyItems),
    /// These keys take a state.
    KeyStates {
        ids: KeyList,
        to: KeyState,
    },
    /// An association is created, unkeyed.
    Create(NewSa),
    /// An unkeyed association takes a key, with the first number that it may use or accept.
    Rekey {
        spi: Spi,
        key: KeyId,
        number: u64,
    },
    /// An association takes a state. `None` is deletion.
    SaTo {
        spi: Spi,
        to: Option<SaState>,
    },
    /// The next number of an association is set.
    SetNumber {
        spi: Spi,
        number: u64,
    },
    /// The width of an association's anti-replay window is set.
    SetWindow {
        spi: Spi,
        window: u64,
    },
    /// A frame was accepted: the highest number of the association becomes `number`, and the key's floor is `floor`.
    Accepted {
        spi: Spi,
        key: KeyId,
        number: u64,
        floor: u64,
    },
    /// Nothing changes.
    Nothing,
}
