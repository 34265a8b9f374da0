//! The records in which changes of the unit's state are stored: a body of 511 octets for each change, both ways. The
//! rows of a bank besides: 96 octets for each key, and 32 for each security association. The layouts are profile.
//!
//! [`write_record`] writes the record of a change, and takes no memory. [`read_record`] reads a body, and refuses what
//! is no record. Each change has one record, and each record one change.
//!
//! [`write_key_row`], [`read_key_row`], [`write_sa_row`] and [`read_sa_row`] do the same for rows. What is written is a
//! row of `key_book` or `sa_book`, borrowed. The row of a key is read as one of `key_book`, and [`read_association`]
//! gives one of `sa_book`. `unit_image` writes the rows together, and each bank of an image holds them.
#![tactic(auto)]

mod data;
mod fields;
mod key_rows;
mod laws;
mod reading;
mod sa_rows;
mod writing;

pub use data::{KEY_ROW_LENGTH, RecordError, SA_ROW_LENGTH};
pub use key_book::KeyRow as KeyParts;
pub use key_rows::{KeyView, read_key_row, write_key_row};
pub use laws::{change_of_its_kind, one_change, one_key_row, one_sa_row};
pub use reading::read_record;
pub use sa_rows::{SaParts, SaView, read_association, read_sa_row, write_sa_row};
pub use sdls_base::BODY_LENGTH;
pub use writing::write_record;
