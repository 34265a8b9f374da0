//! Whether a state allows a change. Nothing here takes memory.
ghost use Rattle.std.specs.Prelude.{◌≡◌, ◌↔◌, ◌<◌, ◌≤◌, true, [], Some, None, IfSome, All};
ghost use Rattle.std.specs.List.{Any, list_any};
ghost use Rattle.std.specs.Option.{option_map};
ghost use Rattle.sdls_base.specs.Bounds.{IsKeyCount};
ghost use Rattle.sdls_base.specs.declared.states.KeyState.TheVariants.{Deactivated};
ghost use Rattle.replay_window.specs.declared.TheConstants.{MOST_BACK};
ghost use Rattle.key_book.specs.KeyRow.{IsKeyRow};
ghost use Rattle.key_book.specs.Moves.{moves_refusal};
ghost use Rattle.sa_book.specs.SaBook.{in_use};
ghost use Rattle.sa_book.specs.SaRefusal.{is_key};
ghost use Rattle.sa_book.specs.SaRow.{MayAccept};
ghost use Rattle.unit_state.specs.State.{key_row};
ghost use Rattle.unit_state.specs.Allows.{Allows, IsSessionKey, IsActiveMaster, AllowsMarks, AllowsLoad};
ghost use Rattle.unit_state.specs.Allows.{AllowsStates, AllowsCreate, AllowsRekey, AllowsNumber, AllowsWindow};
ghost use Rattle.unit_state.specs.Allows.{AllowsAccepted, state_refusal};

use crate::state::{State, least_with};
use key_book::KeyRow;
use replay_window::{Verdict, is_window_field};
use sa_book::SaRow;
use sdls_base::{
    Change, Direction, KeyClass, KeyId, KeyItem, KeyItems, KeyList, KeyState, MOST_KEYS_AT_ONCE,
    NewSa, SaState, Spi,
};
use unit_plan::are_channel_ids;

fn is_count(count: usize) -> bool
    ensures { (result ≡ true) ↔ IsKeyCount count }
{
    1 <= count && count <= MOST_KEYS_AT_ONCE
}

fn is_session_key(item: &KeyItem) -> bool
    ensures { (result ≡ true) ↔ IsSessionKey item.now }
{
    let length = item.bytes.as_slice().len();
    item.id.class() != KeyClass::Master && (length == 16 || length == 32)
}

fn are_session_keys(items: &[KeyItem]) -> bool
    ensures { (result ≡ true) ↔ All IsSessionKey items.now }
{
    for item in items {
        if !is_session_key(item) {
            return false;
        }
    }
    true
}

fn is_active_master(row: &KeyRow) -> bool
    ensures { (result ≡ true) ↔ IsActiveMaster row.now }
{
    row.id.class() == KeyClass::Master && row.state == KeyState::Active
}

fn has_active_master(rows: &[KeyRow]) -> bool
    ensures { (result ≡ true) ↔ Any IsActiveMaster rows.now }
{
    for row in rows {
        if is_active_master(row) {
            return true;
        }
    }
    false
}

fn may_accept(row: &SaRow, key: KeyId, number: u64) -> bool
    requires { row.now.window.back ≤ MOST_BACK }
    ensures { (result ≡ true) ↔ (MayAccept row.now number × (row.now.key ≡ Some key)) }
{
    row.state == SaState::Operational
        && row.direction == Direction::Receive
        && row.key == Some(key)
        && row.window.judge(number, key.end()) == Verdict::Fresh
}

impl State {
    /// Whether the state allows a change: a command, a frame or a reserve may make it here. Takes no memory.
    pub fn allows(&self, change: &Change) -> bool
        ensures { (result ≡ true) ↔ Allows self.now change.now }
    {
        match change {
            Change::Marks { key, mark, floor } => self.allows_marks(*key, *mark, *floor),
            Change::Load(items) => self.allows_load(items),
            Change::KeyStates { ids, to } => self.allows_states(ids, *to),
            Change::Create(new) => self.allows_create(new),
            Change::Rekey { spi, key, number } => self.allows_rekey(*spi, *key, *number),
            Change::SaTo { spi, to } => self.allows_state(*spi, *to),
            Change::SetNumber { spi, number } => self.allows_number(*spi, *number),
            Change::SetWindow { spi, window } => self.allows_window(*spi, *window),
            Change::Accepted {
                spi,
                key,
                number,
                floor,
            } => self.allows_accepted(*spi, *key, *number, *floor),
            Change::Nothing => true,
        }
    }

    /// The row of a key.
    pub(crate) fn key(&self, id: KeyId) -> Option<&KeyRow>
        ensures row { option_map (λ row. row.now) result ≡ key_row self.now id }
        ensures rules { IfSome result (λ row. IsKeyRow row.now) }
    {
        let (_, row) = self.keys.find(id)?;
        Some(row)
    }

    fn is_held(&self, id: KeyId) -> bool
        ensures { result ≡ list_any (λ row. is_key id row.key) self.now.associations }
    {
        self.associations
            .rows()
            .iter()
            .any(|row| row.key == Some(id))
    }

    fn are_held(&self, ids: &[KeyId]) -> bool
        ensures { result ≡ list_any (λ id. list_any (λ row. is_key id row.key) self.now.associations) ids.now }
    {
        ids.iter().any(|id| self.is_held(*id))
    }

    fn follows(&self, ids: &KeyList, to: KeyState) -> bool
        ensures { (result ≡ true) ↔ (moves_refusal self.now.keys ids.now to [] ≡ None) }
    {
        self.keys.moves_refusal(ids, to, &[]).is_none()
    }

    /// Whether the keys may take the state.
    fn may_take(&self, ids: &KeyList, to: KeyState) -> bool
        ensures { (result ≡ true) ↔
            (moves_refusal self.now.keys ids.now to (in_use self.now.associations) ≡ None) }
    {
        match to {
            KeyState::Deactivated => self.may_rest(ids),
            _ => self.follows(ids, to),
        }
    }

    /// Whether the keys may be deactivated: no association holds one.
    fn may_rest(&self, ids: &KeyList) -> bool
        ensures { (result ≡ true) ↔
            (moves_refusal self.now.keys ids.now Deactivated (in_use self.now.associations) ≡ None) }
    {
        if self.are_held(ids.as_slice()) {
            return false;
        }
        self.follows(ids, KeyState::Deactivated)
    }

    fn allows_states(&self, ids: &KeyList, to: KeyState) -> bool
        ensures { (result ≡ true) ↔ AllowsStates self.now ids.now to }
    {
        is_count(ids.as_slice().len()) && self.may_take(ids, to)
    }

    fn allows_create(&self, new: &NewSa) -> bool
        ensures { (result ≡ true) ↔ AllowsCreate self.now new.now }
    {
        is_window_field(new.window)
            && are_channel_ids(new.channels.as_slice())
            && self
                .associations
                .create_refusal(new, self.channels.as_slice())
                .is_none()
    }

    fn allows_marks(&self, key: KeyId, mark: u64, floor: u64) -> bool
        ensures { (result ≡ true) ↔ AllowsMarks self.now key mark floor }
    {
        let end = key.end();
        self.keys.mark(key).is_some() && 1 <= mark && mark <= end && floor < end
    }

    fn allows_load(&self, items: &KeyItems) -> bool
        ensures { (result ≡ true) ↔ AllowsLoad self.now items.now }
    {
        let items = items.as_slice();
        has_active_master(self.keys.rows())
            && is_count(items.len())
            && are_session_keys(items)
            && self.keys.load_refusal(items).is_none()
    }

    fn allows_rekey(&self, spi: Spi, key: KeyId, number: u64) -> bool
        ensures { (result ≡ true) ↔ AllowsRekey self.now spi key number }
    {
        let Ok(row) = self.associations.status(spi) else {
            return false;
        };
        let Some(held) = self.key(key) else {
            return false;
        };
        let least = least_with(1, row.direction, held);
        self.associations
            .rekey_refusal(spi, key, held.state, number, least)
            .is_none()
    }

    fn allows_number(&self, spi: Spi, number: u64) -> bool
        ensures { (result ≡ true) ↔ AllowsNumber self.now spi number }
    {
        let Ok(row) = self.associations.status(spi) else {
            return false;
        };
        let Some(key) = row.key else {
            return false;
        };
        let Some(held) = self.key(key) else {
            return false;
        };
        let least = least_with(1, row.direction, held);
        self.associations
            .set_number_refusal(spi, number, least)
            .is_none()
    }

    fn allows_state(&self, spi: Spi, to: Option<SaState>) -> bool
        ensures { (result ≡ true) ↔ (state_refusal self.now.associations spi to ≡ None) }
    {
        let refusal = match to {
            None => self.associations.delete_refusal(spi),
            Some(SaState::Unkeyed) => self.associations.expire_refusal(spi),
            Some(SaState::Keyed) => self.associations.stop_refusal(spi),
            Some(SaState::Operational) => self.associations.start_refusal(spi),
        };
        refusal.is_none()
    }

    fn allows_window(&self, spi: Spi, window: u64) -> bool
        ensures { (result ≡ true) ↔ AllowsWindow self.now spi window }
    {
        is_window_field(window) && self.associations.set_window_refusal(spi).is_none()
    }

    fn allows_accepted(&self, spi: Spi, key: KeyId, number: u64, floor: u64) -> bool
        ensures { (result ≡ true) ↔ AllowsAccepted self.now spi key number floor }
    {
        let Ok(row) = self.associations.status(spi) else {
            return false;
        };
        let Some((_, held)) = self.keys.find(key) else {
            return false;
        };
        may_accept(row, key, number) && held.floor <= floor && number <= floor && floor < key.end()
    }
}
