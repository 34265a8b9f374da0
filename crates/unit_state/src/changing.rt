//! Each change, where the state allows it.
ghost use Rattle.std.specs.Prelude.{◌≡◌, ◌<◌, ◌≤◌, ◌-◌, Some, None, OnOk, OnErr, IsSome};
ghost use Rattle.key_book.specs.KeyRow.{IsKeyRow};
ghost use Rattle.unit_state.specs.State.{key_row, association_row};
ghost use Rattle.unit_state.specs.Applied.{applied, numbered, direction_of, key_held};
ghost use Rattle.unit_state.specs.Allows.{AllowsMarks, AllowsLoad, AllowsStates, AllowsCreate, AllowsRekey};
ghost use Rattle.unit_state.specs.Allows.{AllowsNumber, AllowsWindow, AllowsAccepted, state_refusal};
ghost use Rattle.sdls_base.specs.KeyId.{end_of};
ghost use Rattle.sdls_base.specs.declared.entry.Change.TheVariants.{Marks, Load, KeyStates, Create, Rekey, SaTo};
ghost use Rattle.sdls_base.specs.declared.entry.Change.TheVariants.{SetNumber, SetWindow, Accepted};

use crate::state::{State, least_with};
use key_book::KeyRow;
use sdls_base::{Direction, KeyId, KeyItems, KeyList, KeyState, NewSa, NoMemory, SaState, Spi};

impl State {
    /// The row of a key that is there.
    fn held(&self, key: KeyId) -> &KeyRow
        requires { IsSome (key_row self.now key) }
        ensures row { key_row self.now key ≡ Some result.now }
        ensures rules { IsKeyRow result.now }
    {
        self.key(key).unwrap()
    }

    /// The direction of an association that is there.
    pub(crate) fn direction(&self, spi: Spi) -> Direction
        requires { IsSome (association_row self.now spi) }
        ensures { direction_of self.now spi ≡ Some result }
    {
        self.associations.status(spi).unwrap().direction
    }

    pub(crate) fn set_marks(&mut self, key: KeyId, mark: u64, floor: u64)
        requires { AllowsMarks self.old key mark floor }
        ensures { self.new ≡ applied self.old (Marks key mark floor) }
    {
        self.keys.set_marks(key, mark, floor);
        self.associations.lower(key, floor);
    }

    pub(crate) fn load(&mut self, items: &KeyItems) -> Result<(), NoMemory>
        requires { AllowsLoad self.old items.now }
        ensures loaded { OnOk result (self.new ≡ applied self.old (Load items.now)) }
        ensures kept { OnErr result (self.new ≡ self.old) }
    {
        self.keys.load_allowed(items.as_slice())
    }

    pub(crate) fn set_key_states(&mut self, ids: &KeyList, to: KeyState) -> Result<(), NoMemory>
        requires { AllowsStates self.old ids.now to }
        ensures moved { OnOk result (self.new ≡ applied self.old (KeyStates ids.now to)) }
        ensures kept { OnErr result (self.new ≡ self.old) }
    {
        let in_use = self.associations.in_use()?;
        self.keys.set_state(ids, to, in_use.as_slice()).unwrap();
        Ok(())
    }

    pub(crate) fn create(&mut self, new: &NewSa) -> Result<(), NoMemory>
        requires { AllowsCreate self.old new.now }
        ensures created { OnOk result (self.new ≡ applied self.old (Create new.now)) }
        ensures kept { OnErr result (self.new ≡ self.old) }
    {
        self.associations
            .create(new, self.channels.as_slice())
            .map_err(|_| NoMemory)
    }

    /// Raises what a number of an association raises of its key.
    pub(crate) fn raise(&mut self, direction: Direction, key: KeyId, number: u64)
        requires there { IsSome (key_row self.old key) }
        requires from_one { 1 ≤ number }
        requires below_end { number < end_of key }
        ensures { self.new ≡ record self.old {
          keys = numbered self.old.keys (Some direction) (Some key) number;
        } }
    {
        match direction {
            Direction::Send => self.keys.raise_mark(key, number),
            Direction::Receive => self.keys.raise_floor(key, number - 1),
        }
    }

    pub(crate) fn rekey(&mut self, spi: Spi, key: KeyId, number: u64)
        requires { AllowsRekey self.old spi key number }
        ensures { self.new ≡ applied self.old (Rekey spi key number) }
    {
        let direction = self.direction(spi);
        let held = self.held(key);
        let least = least_with(1, direction, held);
        let state = held.state;
        self.associations
            .rekey(spi, key, state, number, least)
            .unwrap();
        self.raise(direction, key, number);
    }

    pub(crate) fn take_state(&mut self, spi: Spi, to: Option<SaState>)
        requires { state_refusal self.old.associations spi to ≡ None }
        ensures { self.new ≡ applied self.old (SaTo spi to) }
    {
        match to {
            None => self.associations.delete(spi).unwrap(),
            Some(SaState::Unkeyed) => self.associations.expire(spi).unwrap(),
            Some(SaState::Keyed) => self.associations.stop(spi).unwrap(),
            Some(SaState::Operational) => self.associations.start(spi).unwrap(),
        }
    }

    /// The key of an association that is there and has one.
    fn key_of(&self, spi: Spi) -> KeyId
        requires { IsSome (key_held self.now spi) }
        ensures { key_held self.now spi ≡ Some result }
    {
        self.associations.status(spi).unwrap().key.unwrap()
    }

    pub(crate) fn set_number(&mut self, spi: Spi, number: u64)
        requires { AllowsNumber self.old spi number }
        ensures { self.new ≡ applied self.old (SetNumber spi number) }
    {
        let direction = self.direction(spi);
        let key = self.key_of(spi);
        let least = least_with(1, direction, self.held(key));
        self.associations.set_number(spi, number, least).unwrap();
        self.raise(direction, key, number);
    }

    pub(crate) fn set_window(&mut self, spi: Spi, window: u64)
        requires { AllowsWindow self.old spi window }
        ensures { self.new ≡ applied self.old (SetWindow spi window) }
    {
        self.associations.set_window(spi, window).unwrap();
    }

    pub(crate) fn accept(&mut self, spi: Spi, key: KeyId, number: u64, floor: u64)
        requires { AllowsAccepted self.old spi key number floor }
        ensures { self.new ≡ applied self.old (Accepted spi key number floor) }
    {
        self.associations.accept(spi, number);
        self.keys.raise_floor(key, floor);
    }
}
