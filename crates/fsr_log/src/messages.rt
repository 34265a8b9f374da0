//! Monitoring messages, and what the replies to them are made of.
ghost use Rattle.std.specs.Prelude.{◌≡◌, ◌^◌, ◌<◌, length, Some, IfOk, ◌+◌, ◌*◌, ◌≤◌};
ghost use Rattle.ep_codec.specs.Command.{message};
ghost use Rattle.fsr_log.specs.Message.{HasTag, Reads, data_length, monitoring_octets};
ghost use Rattle.fsr_log.specs.declared.kinds.TheConstants.{MOST_EVENTS};
ghost use Rattle.fsr_log.specs.Reply.{counts, tested};

use crate::kinds::MOST_EVENTS;
use aes_block::Schedule;
use cmac::mac;
use sdls_base::{NoMemory, Octets, word_at};
use std::alloc::Global;

/// The tag of a Ping.
pub const PING: u8 = 0x31;

/// The tag of a Log status.
pub const LOG_STATUS: u8 = 0x32;

/// The tag of a Dump log.
pub const DUMP_LOG: u8 = 0x33;

/// The tag of an Erase log.
pub const ERASE_LOG: u8 = 0x34;

/// The tag of a Self test.
pub const SELF_TEST: u8 = 0x35;

/// The tag of an Alarm reset.
pub const ALARM_RESET: u8 = 0x37;

/// The octets of the block of a Self test.
pub const BLOCK: usize = 16;

/// The octets before the data of a message: its tag, and the length of the data in bits.
const HEADER: usize = 3;

/// A monitoring message.
#[derive(Clone, Copy, Debug, PartialEq, Eq)]
pub enum Monitoring {
    /// Asks for the report word.
    Ping,
    /// Asks how many events the log keeps, and how many more fit.
    LogStatus,
    /// Asks for the events.
    DumpLog,
    /// Takes the events out of the log.
    EraseLog,
    /// Asks for a block enciphered and authenticated under a known key.
    SelfTest([u8; BLOCK]),
    /// Ends the alarm.
    AlarmReset,
}

/// How many octets of data the message with this tag has, if there is one.
fn data_length(tag: u8) -> Option<usize>
    ensures { result ≡ data_length tag }
{
    match tag {
        PING | LOG_STATUS | DUMP_LOG | ERASE_LOG | ALARM_RESET => Some(0),
        SELF_TEST => Some(BLOCK),
        _ => None,
    }
}

/// The tag of the message that these octets are, or the offset of their first fault.
fn tag_in(octets: &[u8]) -> Result<u8, u32>
    ensures { HasTag octets.now result }
{
    let [tag, _, _, body @ ..] = octets else {
        return Err(octets.len() as u32);
    };
    let len = data_length(*tag).ok_or(0u32)?;
    if usize::from(word_at(octets, 1)) != 8 * len {
        return Err(1);
    }
    if body.len() < len {
        return Err(octets.len() as u32);
    }
    if body.len() > len {
        return Err((HEADER + len) as u32);
    }
    Ok(*tag)
}

/// The message with this tag and data.
fn message_of(tag: u8, body: &[u8]) -> Monitoring
    requires { data_length tag ≡ Some (length body.now) }
    ensures { monitoring_octets result ≡ message tag body.now }
{
    match tag {
        PING => Monitoring::Ping,
        LOG_STATUS => Monitoring::LogStatus,
        DUMP_LOG => Monitoring::DumpLog,
        ERASE_LOG => Monitoring::EraseLog,
        SELF_TEST => {
            let mut block = [0; BLOCK];
            block.copy_from_slice(body);
            Monitoring::SelfTest(block)
        }
        _ => Monitoring::AlarmReset,
    }
}

/// Reads a monitoring message, which is all of the octets; or says the offset of their first fault.
pub fn read_monitoring(octets: &[u8]) -> Result<Monitoring, u32>
    ensures { Reads octets.now result }
{
    let tag = tag_in(octets)?;
    Ok(message_of(tag, &octets[HEADER..]))
}

/// The octets of the message with this tag and data.
pub(crate) fn message_octets(alloc: Global, tag: u8, body: &[u8]) -> Result<Vec<u8>, NoMemory>
    requires short { length body.now < 2 ^ 13 }
    ensures octets { IfOk result (λ out. out.items ≡ message tag body.now) }
    ensures short { IfOk result (λ out. length out.items < 2 ^ 32) }
{
    let bits = 8 * body.len() as u16;
    let mut out = Vec::new(alloc);
    out.push(tag)?;
    out.extend_from_slice(&bits.to_be_bytes())?;
    out.extend_from_slice(body)?;
    Ok(out)
}

/// Writes a monitoring message.
pub fn write_monitoring(alloc: Global, message: &Monitoring) -> Result<Octets, NoMemory>
    ensures { IfOk result (λ octets. octets ≡ monitoring_octets message.now) }
{
    let octets = match message {
        Monitoring::Ping => message_octets(alloc, PING, &[])?,
        Monitoring::LogStatus => message_octets(alloc, LOG_STATUS, &[])?,
        Monitoring::DumpLog => message_octets(alloc, DUMP_LOG, &[])?,
        Monitoring::EraseLog => message_octets(alloc, ERASE_LOG, &[])?,
        Monitoring::SelfTest(block) => message_octets(alloc, SELF_TEST, block)?,
        Monitoring::AlarmReset => message_octets(alloc, ALARM_RESET, &[])?,
    };
    Ok(Octets::new(octets))
}

/// What the tag of a reply has more than that of its message.
pub const REPLY: u8 = 0x80;

/// The bits 1 and 100 before those of a report word.
pub const REPORT_WORD: u8 = 0b1100_0000;

/// The key of the self test, which is no secret.
pub const SELF_TEST_KEY: [u8; 16] = [0, 1, 2, 3, 4, 5, 6, 7, 8, 9, 10, 11, 12, 13, 14, 15];

/// The reply to the message with this tag, with this data.
pub(crate) fn reply_octets(alloc: Global, tag: u8, body: &[u8]) -> Result<Vec<u8>, NoMemory>
    requires tag { tag + REPLY < 2 ^ 8 }
    requires short { length body.now < 2 ^ 13 }
    ensures octets { IfOk result (λ out. out.items ≡ message (REPLY + tag) body.now) }
    ensures short { IfOk result (λ out. length out.items < 2 ^ 32) }
{
    message_octets(alloc, REPLY + tag, body)
}

/// How many events there are, and how many more fit.
pub(crate) fn counts(events: usize) -> [u8; 4]
    requires { events ≤ MOST_EVENTS }
    ensures { result ≡ counts events }
{
    let [high, low] = (events as u16).to_be_bytes();
    let [free_high, free_low] = ((MOST_EVENTS - events) as u16).to_be_bytes();
    [high, low, free_high, free_low]
}

/// A block, enciphered and then authenticated, under the key of the self test.
pub(crate) fn tested(block: [u8; BLOCK]) -> [u8; 2 * BLOCK]
    ensures { result ≡ tested block }
{
    let Ok(key) = Schedule::new(&SELF_TEST_KEY) else {
        unreachable!()
    };
    let mut out = [0; 2 * BLOCK];
    out[BLOCK..].copy_from_slice(&mac(&key, &block));
    out[..BLOCK].copy_from_slice(&key.encrypt(block));
    out
}
