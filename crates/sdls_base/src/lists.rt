ghost use Rattle.std.specs.Prelude.{◌≡◌};

use crate::channel_id::ChannelId;
use crate::key_id::{KeyId, KeyItem};
use crate::states::KeyState;
use std::alloc::AllocError;
use std::marker::Model;

/// A `Vec` that contracts see as the list of its items. Making one takes no memory.
#[derive(Debug, Drop)]
pub struct Items<T> {
    items: Vec<T>,
}

/// Keys, by their identifiers.
pub type KeyList = Items<KeyId>;

/// Channels, by their numbers in the plan.
pub type ChannelList = Items<ChannelId>;

/// Keys to be loaded.
pub type KeyItems = Items<KeyItem>;

/// Keys with their states.
pub type KeyRows = Items<(KeyId, KeyState)>;

impl<T> Model for Items<T> {
    ghost use Rattle.std.specs.Prelude.{List};

    ghost Value = { List T };

    ghost view = { λ list. list.items.items };
}

impl<T> Items<T> {
    pub fn new(items: Vec<T>) -> Items<T>
        ensures { result ≡ items.items }
    {
        Items { items }
    }

    pub fn as_slice(&self) -> &[T]
        ensures { result.now ≡ self.now }
    {
        self.items.as_slice()
    }
}

impl Clone for KeyList {
    ghost is_clone = { λ keys copy. copy ≡ keys };

    fn clone(&self) -> Result<KeyList, AllocError> {
        let items = self.items.clone()?;
        Ok(Items { items })
    }
}

impl Clone for ChannelList {
    ghost is_clone = { λ channels copy. copy ≡ channels };

    fn clone(&self) -> Result<ChannelList, AllocError> {
        let items = self.items.clone()?;
        Ok(Items { items })
    }
}
