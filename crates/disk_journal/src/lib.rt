//! The journal of records over two banks in an image file, which a crash at any moment leaves with what it held before
//! the call, or with what the call makes of it (profile).
//!
//! An image has a header, a plan's text and two banks. A bank is a gate, a generation, a content and slots; a slot is a
//! gate octet and a body. The open bank is the current one, or of two open ones the one of the later generation; the
//! records are the bodies of its slots before the first closed one. An image is of version 1 or 2, which says how long
//! its contents are. [`create`] and [`create_two`] write one without records, [`Journal::open`] checks one and writes
//! nothing, and [`Journal::settle`] brings it to rest. [`Journal::append`] adds a record, and [`Journal::turn`] writes
//! another content into the other bank, in place of the content and the records. [`Journal::migrate`] makes an image of
//! version 2 of one of version 1. No call takes memory.
#![tactic(auto)]

mod creating;
mod header;
mod journal;
mod layout;
mod opening_image;
mod storing;

pub use creating::{create, create_two};
pub use journal::Journal;
pub use layout::{
    BANKS_AT, Bank, CLOSED, CONTENT_AT, FIELD_LENGTH, FIRST_GENERATION, GENERATION_AT,
    GENERATION_LENGTH, HEADER_LENGTH, HeaderForm, JournalFault, LEAST_SLOTS, Layout, MAGIC_AT,
    MAGIC_ONE, MAGIC_TWO, MIGRATED_AT, MOST_SLOTS, OPEN, PLAN_AT, PLAN_LENGTH_AT, PLAN_ROOM,
    RecordRun, SLOT_COUNT_AT, SLOT_LENGTH, ZEROS_AT, initial_image_opens, opening_stays,
    rest_is_whole,
};
pub use sdls_base::BODY_LENGTH;
