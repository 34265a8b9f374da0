//! The fields of commands.
#![tactic(auto, unfolding(crate::specs::MessageFault::command_checks, crate::specs::CommandReading::command_at))]

ghost use Rattle.std.specs.Prelude.{◌≡◌, ◌-◌, ◌+◌, ◌^◌, ◌<◌, ◌≤◌, IsTrue, length, slice_range, [], ◌∷◌};
ghost use Rattle.ep_codec.specs.declared.procedure.Procedure.TheVariants.{Rekeying, Verify, Inventory, Compose, Create};
ghost use Rattle.ep_codec.specs.declared.procedure.Procedure.TheVariants.{SetWindow, Rekey, SetNumber};
ghost use Rattle.ep_codec.specs.Check.{JudgesMessage};
ghost use Rattle.ep_codec.specs.MessageFault.{command_checks};
ghost use Rattle.ep_codec.specs.CommandReading.{command_at};
ghost use Rattle.ep_codec.specs.Procedure.{has_command_length};
ghost use Rattle.ep_codec.specs.Field.{count_check};

use crate::command::Command;
use crate::fields::{TAG, VECTOR, array, channels, direction, key, keys, spi, suite, window};
use crate::procedure::{PduError, Procedure};
use sdls_base::{NewSa, Octets, number_at, word_at};
use std::alloc::Global;

fn rekeying(alloc: Global, octets: &[u8]) -> Result<Command, PduError>
    requires { IsTrue (has_command_length Rekeying (length octets.now - 3)) }
    ensures { JudgesMessage result (command_checks Rekeying octets.now)
        (λ command. command ≡ command_at Rekeying octets.now) }
{
    let end = octets.len() - TAG;
    Ok(Command::Rekeying {
        master: key(octets, 3)?,
        vector: array(octets, 5),
        sealed: Octets::new(Vec::from_slice(alloc, &octets[5 + VECTOR..end])?),
        tag: array(octets, end),
    })
}

fn verify(octets: &[u8]) -> Result<Command, PduError>
    requires { length octets.now ≡ 21 }
    ensures { JudgesMessage result (command_checks Verify octets.now)
        (λ command. command ≡ command_at Verify octets.now) }
{
    Ok(Command::Verify {
        key: key(octets, 3)?,
        challenge: array(octets, 5),
    })
}

fn inventory(octets: &[u8]) -> Result<Command, PduError>
    requires { length octets.now ≡ 7 }
    ensures { JudgesMessage result (command_checks Inventory octets.now)
        (λ command. command ≡ command_at Inventory octets.now) }
{
    let first = word_at(octets, 3);
    let last = word_at(octets, 5);
    if last < first {
        return Err(PduError::Fault(5));
    }
    Ok(Command::Inventory { first, last })
}

fn compose(alloc: Global, octets: &[u8]) -> Result<Command, PduError>
    requires { IsTrue (has_command_length Compose (length octets.now - 3)) }
    ensures { JudgesMessage result (command_checks Compose octets.now)
        (λ command. command ≡ command_at Compose octets.now) }
{
    let master = key(octets, 3)?;
    let keys = keys(alloc, &octets[5..], 5)?;
    Ok(Command::Compose { master, keys })
}

/// The count of the channels behind it.
fn count(octets: &[u8], at: usize) -> Result<(), PduError>
    requires room { at < length octets.now }
    requires offset { at < 2 ^ 32 }
    ensures { JudgesMessage result (count_check at octets.now ∷ []) (λ _. Unit {0}) }
{
    if usize::from(octets[at]) == octets.len() - (at + 1) {
        Ok(())
    } else {
        Err(PduError::Fault(at as u32))
    }
}

fn create(alloc: Global, octets: &[u8]) -> Result<Command, PduError>
    requires { IsTrue (has_command_length Create (length octets.now - 3)) }
    ensures { JudgesMessage result (command_checks Create octets.now)
        (λ command. command ≡ command_at Create octets.now) }
{
    let spi = spi(octets, 3)?;
    let direction = direction(octets, 5)?;
    let suite = suite(octets, 6)?;
    let window = window(octets, 7)?;
    count(octets, 15)?;
    let channels = channels(alloc, &octets[16..], 16)?;
    Ok(Command::Create(NewSa {
        spi,
        direction,
        suite,
        window,
        channels,
    }))
}

fn set_window(octets: &[u8]) -> Result<Command, PduError>
    requires { length octets.now ≡ 13 }
    ensures { JudgesMessage result (command_checks SetWindow octets.now)
        (λ command. command ≡ command_at SetWindow octets.now) }
{
    let spi = spi(octets, 3)?;
    let window = window(octets, 5)?;
    Ok(Command::SetWindow { spi, window })
}

fn rekey(octets: &[u8]) -> Result<Command, PduError>
    requires { length octets.now ≡ 15 }
    ensures { JudgesMessage result (command_checks Rekey octets.now)
        (λ command. command ≡ command_at Rekey octets.now) }
{
    let spi = spi(octets, 3)?;
    let key = key(octets, 5)?;
    Ok(Command::Rekey {
        spi,
        key,
        number: number_at(octets, 7),
    })
}

fn set_number(octets: &[u8]) -> Result<Command, PduError>
    requires { length octets.now ≡ 13 }
    ensures { JudgesMessage result (command_checks SetNumber octets.now)
        (λ command. command ≡ command_at SetNumber octets.now) }
{
    Ok(Command::SetNumber {
        spi: spi(octets, 3)?,
        number: number_at(octets, 5),
    })
}

/// The command of a procedure, of octets whose length is one that its messages have.
pub(crate) fn command(
    alloc: Global,
    procedure: Procedure,
    octets: &[u8],
) -> Result<Command, PduError>
    requires whole { 3 ≤ length octets.now }
    requires fits { IsTrue (has_command_length procedure (length octets.now - 3)) }
    ensures { JudgesMessage result (command_checks procedure octets.now)
        (λ command. command ≡ command_at procedure octets.now) }
{
    match procedure {
        Procedure::Rekeying => rekeying(alloc, octets),
        Procedure::Activate => Ok(Command::Activate(keys(alloc, &octets[3..], 3)?)),
        Procedure::Deactivate => Ok(Command::Deactivate(keys(alloc, &octets[3..], 3)?)),
        Procedure::Verify => verify(octets),
        Procedure::Destroy => Ok(Command::Destroy(keys(alloc, &octets[3..], 3)?)),
        Procedure::Inventory => inventory(octets),
        Procedure::Compose => compose(alloc, octets),
        Procedure::ReadNumber => Ok(Command::ReadNumber(spi(octets, 3)?)),
        Procedure::Create => create(alloc, octets),
        Procedure::Delete => Ok(Command::Delete(spi(octets, 3)?)),
        Procedure::SetWindow => set_window(octets),
        Procedure::Rekey => rekey(octets),
        Procedure::Expire => Ok(Command::Expire(spi(octets, 3)?)),
        Procedure::SetNumber => set_number(octets),
        Procedure::Start => Ok(Command::Start(spi(octets, 3)?)),
        Procedure::Stop => Ok(Command::Stop(spi(octets, 3)?)),
        Procedure::Status => Ok(Command::Status(spi(octets, 3)?)),
    }
}
