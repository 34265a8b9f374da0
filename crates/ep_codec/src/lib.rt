//! Procedure messages of the key and association management: the commands and replies by which the Extended Procedures
//! (CCSDS 355.1-B-1) load, activate and destroy keys and create, rekey and delete security associations over the link.
//! The procedures are the standard's by purpose; tags and layouts are profile.
//!
//! [`read_pdu`] and [`read_reply`] take octets apart, or name the offset of the first fault. [`write_pdu`] and
//! [`write_reply`] are the other direction. Each value has one spelling.
#![tactic(auto)]

mod command;
mod command_reading;
mod command_writing;
mod fields;
mod laws;
mod procedure;
mod reply_pdu;
mod reply_reading;
mod reply_writing;

pub use command::Command;
pub use command_writing::write_pdu;
pub use fields::{read_pdu, read_reply};
pub use laws::{command_without_fault, one_command, one_reply, reply_without_fault};
pub use procedure::{PduError, Procedure};
pub use reply_pdu::ReplyPdu;
pub use reply_writing::write_reply;
