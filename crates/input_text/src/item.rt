//! The octets of a line's item.
#![tactic(auto, unfolding(crate::specs::Line::IsLine, crate::specs::Line::line_item))]

ghost use Rattle.std.specs.Prelude.{◌≡◌, ◌≤◌, ◌∷◌, ◌++◌, length, OnOk, IfOk};
ghost use Rattle.std.specs.Int.{w16, to_be_bytes};
ghost use Rattle.ep_codec.specs.Command.{IsInBounds, HasTypes, command_octets};
ghost use Rattle.record_io.specs.Input.{item_octets};
ghost use Rattle.record_io.specs.declared.reader.TheConstants.{MOST_RECORD_OCTETS};
ghost use Rattle.fsr_log.specs.Message.{HasBlock, monitoring_octets};
ghost use Rattle.input_text.specs.Monitor.{IsAsked, asked_octets};
ghost use Rattle.input_text.specs.Line.{IsLine, line_item};

use crate::line::{Asked, Line};
use ep_codec::{Command, write_pdu};
use fsr_log::{Monitoring, write_monitoring};
use sdls_base::{NoMemory, Octets};
use std::alloc::Global;

/// Writes an item of this kind.
fn put(out: &mut Vec<u8>, kind: u8, lane: u8, link: u8, octets: &[u8]) -> Result<(), NoMemory>
    requires { length octets.now ≤ MOST_RECORD_OCTETS }
    ensures { OnOk result (out.new.items
        ≡ out.old.items ++ kind ∷ lane ∷ link ∷ 0 ∷ to_be_bytes w16 (length octets.now) ++ octets.now) }
{
    let [high, low] = (octets.len() as u16).to_be_bytes();
    out.extend_from_slice(&[kind, lane, link, 0, high, low])?;
    out.extend_from_slice(octets)?;
    Ok(())
}

/// The message of a command, which fits into a record.
#[tactic(auto, using(crate::proofs::CommandLengths::command_short))]
fn message(alloc: Global, command: &Command) -> Result<Octets, NoMemory>
    requires bounds { IsInBounds command.now }
    requires types { HasTypes command.now }
    ensures spelled { IfOk result (λ octets. octets ≡ command_octets command.now) }
    ensures short { IfOk result (λ octets. length octets ≤ MOST_RECORD_OCTETS) }
{
    write_pdu(alloc, command)
}

/// The octets of a monitoring message, which fit into a record.
#[tactic(auto, using(crate::proofs::MonitorLengths::monitoring_short))]
fn monitoring(alloc: Global, message: &Monitoring) -> Result<Octets, NoMemory>
    requires { HasBlock message.now }
    ensures spelled { IfOk result (λ octets. octets ≡ monitoring_octets message.now) }
    ensures short { IfOk result (λ octets. length octets ≤ MOST_RECORD_OCTETS) }
{
    write_monitoring(alloc, message)
}

/// Writes a Monitor record.
#[tactic(auto, unfolding(crate::specs::Monitor::IsAsked, crate::specs::Monitor::asked_octets))]
fn put_asked(
    alloc: Global,
    out: &mut Vec<u8>,
    lane: u8,
    link: u8,
    asked: &Asked,
) -> Result<(), NoMemory>
    requires { IsAsked asked.now }
    ensures { OnOk result (out.new.items ≡ out.old.items
        ++ 4 ∷ lane ∷ link ∷ 0 ∷ to_be_bytes w16 (length (asked_octets asked.now)) ++ asked_octets asked.now) }
{
    match asked {
        Asked::Message(message) => {
            let octets = monitoring(alloc, message)?;
            put(out, 4, lane, link, octets.as_slice())
        }
        Asked::Octets(octets) => put(out, 4, lane, link, octets.as_slice()),
    }
}

/// Writes the octets of the line's item behind what there is. After an error a front of them may have been put.
pub fn put_item(alloc: Global, out: &mut Vec<u8>, line: &Line) -> Result<(), NoMemory>
    requires { IsLine line.now }
    ensures put { OnOk result (out.new.items ≡ out.old.items ++ item_octets (line_item line.now)) }
{
    match line {
        Line::Fence => put(out, 0, 0, 0, &[]),
        Line::Protect { lane, link, octets } => put(out, 1, *lane, *link, octets.as_slice()),
        Line::Open { lane, link, octets } => put(out, 2, *lane, *link, octets.as_slice()),
        Line::Command { lane, command } => {
            let octets = message(alloc, command)?;
            put(out, 3, *lane, 0, octets.as_slice())
        }
        Line::Message { lane, octets } => put(out, 3, *lane, 0, octets.as_slice()),
        Line::Monitor { lane, link, asked } => put_asked(alloc, out, *lane, *link, asked),
    }
}
