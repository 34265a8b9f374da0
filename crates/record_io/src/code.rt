//! The codes of answers, as numbers and as an enum.
ghost use Rattle.std.specs.Prelude.{◌≡◌};
ghost use Rattle.record_io.specs.Codes.{code_at};

use sdls_base::Entry;

/// The frame is protected: the body is the protected frame.
pub const PROTECTED: u8 = 0x00;

/// The frame is accepted: the body is its data field.
pub const ACCEPTED: u8 = 0x01;

/// The frame is left in clear: its channel has no security.
pub const CLEAR: u8 = 0x02;

/// The command is done: the body is its reply.
pub const DONE: u8 = 0x03;

/// The command is refused: the detail says why.
pub const REFUSED: u8 = 0x04;

/// A monitoring message is answered: the body is the reply.
pub const MONITORED: u8 = 0x05;

/// A monitoring message is malformed: the number is the offset of its first fault.
pub const MONITOR_FAULT: u8 = 0x06;

/// The frame breaks its layout: the detail is the fault, or 0 where there is no such link.
pub const LAYOUT: u8 = 0x10;

/// The frame's channel is none of the plan.
pub const CHANNEL: u8 = 0x11;

/// No association has the frame's index.
pub const SPI: u8 = 0x12;

/// The association is of the other direction.
pub const DIRECTION: u8 = 0x13;

/// The association is not operational.
pub const STATE: u8 = 0x14;

/// The association does not cover the channel.
pub const COVERAGE: u8 = 0x15;

/// The frame's MAC is wrong.
pub const MAC: u8 = 0x16;

/// The frame's number is old or too far ahead: the body is the highest number accepted and the window's width.
pub const NUMBER: u8 = 0x17;

/// The key's numbers have come to their end.
pub const EXHAUSTED: u8 = 0x20;

/// The site failed while the entry was stored.
pub const SITE_FAULT: u8 = 0x31;

/// The site had failed before.
pub const STOPPED: u8 = 0x32;

/// Memory ran out.
pub const NO_MEMORY: u8 = 0x33;

/// The run ends: the detail is its status. It stands behind all other answers.
pub const END: u8 = 0xff;

/// How a call of the program's words ended.
pub struct Outcome<O> {
    /// The exit status, one of [`crate::status`].
    pub status: u8,
    /// The site that the call was given, on every exit.
    pub site: O,
    /// The history of the run; empty for every command but `run`.
    pub entries: Vec<Entry>,
}

/// What an answer is: the octets are those of [`crate::code`].
#[derive(Clone, Copy, Debug, PartialEq, Eq)]
pub enum AnswerCode {
    Protected,
    Accepted,
    Clear,
    Done,
    Refused,
    Monitored,
    MonitorFault,
    Layout,
    Channel,
    Spi,
    Direction,
    State,
    Coverage,
    Mac,
    Number,
    Exhausted,
    SiteFault,
    Stopped,
    NoMemory,
    End,
}

impl AnswerCode {
    /// The code with this octet, if it is one.
    #[tactic(auto, unfolding(crate::specs::Codes::code_at))]
    pub fn of(octet: u8) -> Option<AnswerCode>
        ensures { result ≡ code_at octet }
    {
        match octet {
            PROTECTED => Some(AnswerCode::Protected),
            ACCEPTED => Some(AnswerCode::Accepted),
            CLEAR => Some(AnswerCode::Clear),
            DONE => Some(AnswerCode::Done),
            REFUSED => Some(AnswerCode::Refused),
            MONITORED => Some(AnswerCode::Monitored),
            MONITOR_FAULT => Some(AnswerCode::MonitorFault),
            LAYOUT => Some(AnswerCode::Layout),
            CHANNEL => Some(AnswerCode::Channel),
            SPI => Some(AnswerCode::Spi),
            DIRECTION => Some(AnswerCode::Direction),
            STATE => Some(AnswerCode::State),
            COVERAGE => Some(AnswerCode::Coverage),
            MAC => Some(AnswerCode::Mac),
            NUMBER => Some(AnswerCode::Number),
            EXHAUSTED => Some(AnswerCode::Exhausted),
            SITE_FAULT => Some(AnswerCode::SiteFault),
            STOPPED => Some(AnswerCode::Stopped),
            NO_MEMORY => Some(AnswerCode::NoMemory),
            END => Some(AnswerCode::End),
            _ => None,
        }
    }
}
