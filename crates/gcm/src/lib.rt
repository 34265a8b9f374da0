//! Authenticated encryption by GCM over AES (SP 800-38D), with initialization vectors of 12 octets
//! and tags of 16. A vector serves once under a key: that is the caller's to keep.
//!
//! [`seal_in_place`] enciphers a text where it lies and gives its tag; [`open_in_place`] deciphers
//! it, if the tag is right. [`Table`] is the product by a hash subkey, on which both stand.
#![tactic(auto)]

mod counter;
mod hash;
mod seal;
mod table;

pub use seal::{BadTag, open_in_place, opens_what_was_sealed, seal_in_place};
pub use table::Table;
