//! The parts of a step: a change with the reply that says it.
ghost use Rattle.std.specs.Prelude.{◌≡◌, IfOk};
ghost use Rattle.ep_codec.specs.ReplyPdu.{IsInBounds, reply_octets};
ghost use Rattle.ep_core.specs.Step.{done, refused, using_number};

use crate::refusal::{Refusal, Reply, ReplyOctets};
use ep_codec::{ReplyPdu, write_reply};
use sdls_base::{Change, KeyId, NoMemory};
use std::alloc::Global;

/// A refusal changes nothing.
pub(crate) fn refused(refusal: Refusal) -> (Change, Reply)
    ensures { result ≡ refused refusal }
{
    (Change::Nothing, Reply::refused(refusal))
}

/// Writes the message of a reply.
fn write(alloc: Global, pdu: &ReplyPdu) -> Result<ReplyOctets, NoMemory>
    requires { IsInBounds pdu.now }
    ensures { IfOk result (λ octets. octets ≡ reply_octets pdu.now) }
{
    let octets = write_reply(alloc, pdu)?;
    Ok(ReplyOctets::new(octets))
}

/// A change, with its reply.
pub(crate) fn done(
    alloc: Global,
    change: Change,
    pdu: &ReplyPdu,
) -> Result<(Change, Reply), NoMemory>
    requires { IsInBounds pdu.now }
    ensures { IfOk result (λ step. step ≡ done change pdu.now) }
{
    let pdu = write(alloc, pdu)?;
    Ok((
        change,
        Reply::Done {
            key: None,
            number: 0,
            pdu,
        },
    ))
}

/// A reply for which a number of a key was used.
pub(crate) fn using_number(
    alloc: Global,
    key: KeyId,
    number: u64,
    pdu: &ReplyPdu,
) -> Result<(Change, Reply), NoMemory>
    requires { IsInBounds pdu.now }
    ensures { IfOk result (λ step. step ≡ using_number key number pdu.now) }
{
    let pdu = write(alloc, pdu)?;
    Ok((
        Change::Nothing,
        Reply::Done {
            key: Some(key),
            number,
            pdu,
        },
    ))
}
