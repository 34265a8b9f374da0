//! The keys of a unit (CCSDS 355.1-B-1, key management): their octets, states and digests, and the numbers that each
//! may have been used with.
//!
//! A `KeyBook` is seen as the list of its rows in the order of loading. A row never changes its place, and stays when
//! its key is destroyed, so that no key is loaded into a book twice. `load` and `set_state` judge before they
//! change anything; read their clauses first. What is stored of the book, and where, is the caller's.
#![tactic(auto)]

mod key_book;
mod key_row;
mod refusals;
mod table;

pub use key_book::{Inventory, KeyBook, MOST_LISTED, rows_may_follow};
pub use key_row::{KeyOctets, KeyRow, MOST_OCTETS, digest};
pub use refusals::KeyRefusal;
