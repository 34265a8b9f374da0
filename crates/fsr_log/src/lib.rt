//! The log of what a unit refused lately in a run, and the messages that ask for it (CCSDS 355.1-B-1, monitoring and
//! control, by purpose; tags, layouts and the report word are profile).
//!
//! [`Log::note`] takes each answer of a run, in the order of the answers; [`Log::answer`] answers a monitoring message.
//! Read `specs/Report.antt` first, then `specs/Reply.antt`.
#![tactic(auto)]

mod kinds;
mod log;
mod messages;

pub use kinds::{Event, MOST_EVENTS, is_event};
pub use log::{Log, events_fit, message_without_fault, one_message};
pub use messages::{
    ALARM_RESET, BLOCK, DUMP_LOG, ERASE_LOG, LOG_STATUS, Monitoring, PING, REPLY, REPORT_WORD,
    SELF_TEST, SELF_TEST_KEY, read_monitoring, write_monitoring,
};
