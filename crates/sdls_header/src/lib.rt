//! The security header and the authentication bit mask (CCSDS 355.0-B-2).
//!
//! `split` takes the room of a protected frame apart into security header, data field and MAC; `write_header` writes
//! the header. `mask_in_place` and `masked` cover a frame's prefix by the link's mask. Which suites there are is
//! profile.
#![tactic(auto)]

mod header;
mod splitting;

pub use header::{SecurityHeader, Split, Vector, mask_in_place, masked};
pub use splitting::{read_spi, split, wide_octets, write_header};
