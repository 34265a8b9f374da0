//! What an image shows: the state of a unit that the content of its current bank and the records behind it lead to.
//!
//! Read `specs/Shows.antt` first: the state that an image shows, or the offset of the first check that fails. [`open`]
//! makes the checks, returns that state and the image's journal, brings the journal to rest, and migrates an image of
//! version 1 to version 2. [`store`] stores a change of the state, by a record or by a turn of the banks.
//! [`create_image`] writes the image of version 2 that a plan begins with, if there is none (`specs/Beginning.antt`).
//! `specs/Image.antt` passes on what the journal says of an image; whatever lies above takes it from there.
//!
//! The content of a bank has 51,703 octets in version 1, with room for 512 keys and 64 associations, and 401,911 in
//! version 2, with room for every state. The highest numbers that were accepted are not in it: a restart sets them.
//! [`write_content`] and [`write_content_two`] write it without taking memory, and [`read_content`] gives the state
//! back. Read `specs/Content.antt` first.
//!
//! Nothing is known of a row that is read, so each rule of a state is tested. [`is_key_row`] is what a book asks of the
//! row of a key, and [`may_follow_associations`] the condition of `add_row` of the book of associations. [`holds_key`]
//! is what a state asks of an association and the keys. [`keys_of`] and [`state_of_rows`] make the book of keys, and
//! the state.
#![tactic(auto)]

mod content;
mod creating;
mod laws;
mod opening_image;
mod reading;
mod rows;
mod storing;

pub use content::{
    KEYS_AT, fits, holds_key, key_row_changes, keys_of, marks_change, one_state, read_content,
    restart_leaves_content, sa_row_changes, state_of_rows, write_content, write_content_two,
};
pub use creating::create_image;
pub use disk_journal::Journal;
pub use laws::{
    refused_with_one, rest_stays_whole, says_grown, says_migrated, says_turned, shows_one,
};
pub use opening_image::{OpenFault, Opened, open};
pub use rows::{RowsFault, is_association_row, is_key_row, may_follow_associations, spell_key_row};
pub use storing::{SiteFault, store};
