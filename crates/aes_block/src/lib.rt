//! The block cipher AES with keys of 128 and 256 bits (FIPS 197). Keys of 192 bits and deciphering
//! are left out: CMAC and GCM need neither.
//!
//! [`Schedule::new`] takes a key, and [`Schedule::encrypt`] enciphers one block of 16 octets.
//! Contracts see a schedule as the octets of its key.
#![tactic(auto)]

mod cipher;
mod expansion;
mod schedule;
mod substitution;

pub use schedule::{KeyLength, Schedule};
pub use substitution::inverse_is_inverse;
