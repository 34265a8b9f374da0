//! The message authentication code CMAC over AES (SP 800-38B), with MACs of 16 octets. Verifying,
//! and cutting a MAC short, are left to the caller.
//!
//! [`mac`] takes a whole text; [`Running`] takes it in pieces.
#![tactic(auto)]

mod block;
mod running;

pub use block::mac;
pub use running::Running;
