//! The epoch of a history: how many of its changes count.
ghost use Rattle.std.specs.Prelude.{◌≡◌, map, IfOk, OnOk, OnErr, ◌<◌};
ghost use Rattle.sdls_base.specs.KeyId.{end_of};
ghost use Rattle.sa_book.specs.SaRow.{HasHigh, IsSaRow};
ghost use Rattle.sa_book.specs.SaBook.{IsSaBook};
ghost use Rattle.unit_state.specs.State.{KeepsRules};
ghost use Rattle.unit_state.specs.Applied.{applied};
ghost use Rattle.unit_state.specs.Allows.{Allows};
ghost use Rattle.unit_state.specs.Restart.{IsLight, restarted_high, restarted_row, restarted, counts};
ghost use Rattle.unit_state.specs.Taking.{least_with};

use key_book::{KeyBook, KeyRow};
use sa_book::{SaBook, SaRow};
use sdls_base::{Change, ChannelList, Direction, NoMemory};

/// What a unit knows: its keys, its security associations, and what the plan says of channels and device.
#[derive(Debug, Drop)]
pub struct State {
    pub keys: KeyBook,
    pub associations: SaBook,
    /// The channels, in the order of the plan.
    pub channels: ChannelList,
    /// The device field of the vectors.
    pub device: [u8; 4],
}

/// The highest number that a restart gives an association: the floor of the key with which it receives, or its own.
pub fn restarted_high(keys: &KeyBook, row: &SaRow) -> u64
    ensures high { result ≡ restarted_high keys.now row.now.direction row.now.key row.now.window.high }
    ensures fits { IsSaRow row.now → HasHigh row.now.direction row.now.key result }
{
    match (row.direction, row.key) {
        (Direction::Receive, Some(key)) => match keys.find(key) {
            Some((_, held)) => held.floor,
            None => row.window.high,
        },
        (Direction::Receive, None) | (Direction::Send, _) => row.window.high,
    }
}

/// Begins the window of each association that receives with one of the keys anew at the key's floor, and every other
/// window at its highest number.
fn to_floors(associations: &mut SaBook, keys: &KeyBook)
    ensures set { associations.new ≡ map (restarted_row keys.now) associations.old }
    ensures rules { IsSaBook associations.old → IsSaBook associations.new }
{
    for place in 0..associations.rows().len() {
        let high = restarted_high(keys, &associations.rows()[place]);
        associations.begin_window(place, high);
    }
}

impl State {
    /// Makes a change that the state allows. After lack of memory the state is as it was.
    pub fn apply(&mut self, change: &Change) -> Result<(), NoMemory>
        requires { Allows self.old change.now }
        ensures applied { OnOk result (self.new ≡ applied self.old change.now) }
        ensures kept { OnErr result (self.new ≡ self.old) }
    {
        match change {
            Change::Marks { key, mark, floor } => self.set_marks(*key, *mark, *floor),
            Change::Load(items) => self.load(items)?,
            Change::KeyStates { ids, to } => self.set_key_states(ids, *to)?,
            Change::Create(new) => self.create(new)?,
            Change::Rekey { spi, key, number } => self.rekey(*spi, *key, *number),
            Change::SaTo { spi, to } => self.take_state(*spi, *to),
            Change::SetNumber { spi, number } => self.set_number(*spi, *number),
            Change::SetWindow { spi, window } => self.set_window(*spi, *window),
            Change::Accepted {
                spi,
                key,
                number,
                floor,
            } => self.accept(*spi, *key, *number, *floor),
            Change::Nothing => {}
        }
        Ok(())
    }

    /// Makes a change that moves numbers alone, and that the state allows. Takes no memory, and is never refused.
    pub fn apply_here(&mut self, change: &Change)
        requires light { IsLight change.now }
        requires allowed { Allows self.old change.now }
        ensures { self.new ≡ applied self.old change.now }
    {
        match change {
            Change::Marks { key, mark, floor } => self.set_marks(*key, *mark, *floor),
            Change::Accepted {
                spi,
                key,
                number,
                floor,
            } => self.accept(*spi, *key, *number, *floor),
            _ => {}
        }
    }

    /// Leaves what a restart leaves. Takes no memory.
    pub fn restart(&mut self)
        ensures left { self.new ≡ restarted self.old }
        ensures rules { KeepsRules self.old → KeepsRules self.new }
    {
        to_floors(&mut self.associations, &self.keys);
    }

    /// An equal state.
    pub fn copy(&self) -> Result<State, NoMemory>
        ensures { IfOk result (λ state. state ≡ self.now) }
    {
        Ok(State {
            keys: self.keys.copy()?,
            associations: self.associations.copy()?,
            channels: self.channels.clone()?,
            device: self.device,
        })
    }
}

/// Whether a change counts for the epoch: all count but marks, acceptances and nothing, which leave what binds a frame
/// as it was.
pub fn counts(change: &Change) -> bool
    ensures { result ≡ counts change.now }
{
    match change {
        Change::Load(_)
        | Change::KeyStates { .. }
        | Change::Create(_)
        | Change::Rekey { .. }
        | Change::SaTo { .. }
        | Change::SetNumber { .. }
        | Change::SetWindow { .. } => true,
        Change::Marks { .. } | Change::Accepted { .. } | Change::Nothing => false,
    }
}

/// The least lawful number of an association with a key, by this word for one that sends.
pub fn least_with(word: u64, direction: Direction, held: &KeyRow) -> u64
    requires { held.now.floor < end_of held.now.id }
    ensures { result ≡ least_with word direction held.now }
{
    match direction {
        Direction::Send => word,
        Direction::Receive => held.floor + 1,
    }
}
