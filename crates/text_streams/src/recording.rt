//! A recording: the octets that it begins with, and a run behind its length.
ghost use Rattle.std.specs.Prelude.{◌≡◌, ◌<◌, ◌≤◌, ◌^◌, ℕ, List, [], Err, IfOk, IfErr, IsTrue, length};
ghost use Rattle.sdls_outside.specs.Faults.{HasCause, Rose};
ghost use Rattle.sdls_outside.specs.Output.{Delivers, OnlySinks};
ghost use Rattle.pair_audit.specs.Recording.{recording_beginning};
ghost use Rattle.text_streams.specs.Recording.{Copied, FaultCause, MissesEnd, IsWritten, StopsCopy};
ghost use Rattle.text_streams.specs.declared.recording.RunFault.TheVariants as faults;

use sdls_outside::{Failed, Site, Source, collect};
use thiserror::Error;

/// The octets that a recording begins with.
const BEGINNING: [u8; 8] = *b"SDLSAUD1";

/// The most octets that are held at a time.
const PIECE: usize = 4096;

/// Writes the octets that a recording begins with.
pub fn begin_recording<O: Site>(sink: &mut O) -> Result<(), Failed>
    ensures written { IsTrue O.told → Delivers recording_beginning result (O.trace sink.old) (O.trace sink.new) }
    ensures cause { HasCause (O.faults sink.old) (O.faults sink.new) result }
{
    sink.put(&BEGINNING)
}

/// Copies as many octets of the source to the sink as the room has.
fn copy_piece<S: Source, O: Site>(
    source: &mut S,
    sink: &mut O,
    room: &mut [u8],
) -> Result<(), RunFault>
    ensures copied { IfOk result (λ _. (octets : List ℕ) × (length octets ≡ length room.old)
        × Copied S.told O.told octets (S.left source.old) (S.left source.new) (O.trace sink.old) (O.trace sink.new)) }
    ensures sinks { IsTrue O.told → OnlySinks (O.trace sink.old) (O.trace sink.new) }
    ensures sized { length room.new ≡ length room.old }
    ensures stood { IfOk result (λ _. (S.faults source.new ≡ S.faults source.old)
        × (O.faults sink.new ≡ O.faults sink.old)) }
    ensures cause { IfErr result (StopsCopy S.told (length room.old) (S.left source.old)
        (Rose (S.faults source.old) (S.faults source.new)) (Rose (O.faults sink.old) (O.faults sink.new))) }
{
    let Ok(count) = collect(source, room) else {
        return Err(RunFault::SourceFault);
    };
    if count < room.len() {
        return Err(RunFault::Changed);
    }
    match sink.put(room) {
        Ok(()) => Ok(()),
        Err(Failed) => Err(RunFault::OutputFault),
    }
}

/// Copies so many octets of the source to the sink, by way of the room.
fn copy<S: Source, O: Site>(
    source: &mut S,
    sink: &mut O,
    len: u64,
    room: &mut [u8],
) -> Result<(), RunFault>
    requires { 0 < length room.old }
    ensures copied { IfOk result (λ _. (octets : List ℕ) × (length octets ≡ len)
        × Copied S.told O.told octets (S.left source.old) (S.left source.new) (O.trace sink.old) (O.trace sink.new)) }
    ensures sinks { IsTrue O.told → OnlySinks (O.trace sink.old) (O.trace sink.new) }
    ensures cause { IfErr result (StopsCopy S.told len (S.left source.old)
        (Rose (S.faults source.old) (S.faults source.new)) (Rose (O.faults sink.old) (O.faults sink.new))) }
    ensures stood { IfOk result (λ _. (S.faults source.new ≡ S.faults source.old)
        × (O.faults sink.new ≡ O.faults sink.old)) }
{
    let mut copied: u64 = 0;
    'pieces: while copied < len {
        let most = room.len().min((len - copied) as usize);
        copy_piece(source, sink, &mut room[..most])?;
        copied += most as u64;
    }
    Ok(())
}

/// If nothing is left.
fn end<S: Source>(source: &mut S) -> Result<(), RunFault>
    ensures ended { IsTrue S.told → IfOk result (λ _. S.left source.old ≡ []) }
    ensures cause { IfErr result (MissesEnd S.told (S.left source.old) (Rose (S.faults source.old)
        (S.faults source.new))) }
{
    let mut octet = [0];
    match source.take(&mut octet) {
        Ok(0) => Ok(()),
        Ok(_) => Err(RunFault::Changed),
        Err(Failed) => Err(RunFault::SourceFault),
    }
}

/// Writes a run: its length in 4 octets, and the octets of the source, which are to be so many.
///
/// Nothing else is done to the sink. If the run is too long, nothing is; after another fault the length may be written,
/// and some of the octets.
pub fn put_run<S: Source, O: Site>(source: &mut S, len: u64, sink: &mut O) -> Result<(), RunFault>
    ensures written { IfOk result (λ _. IsWritten S.told O.told len (S.left source.old) (O.trace sink.old)
        (O.trace sink.new)) }
    // Each fault has its cause, and one that is too long is always refused so.
    ensures cause { IfErr result (FaultCause S.told len (S.left source.old)
        (Rose (S.faults source.old) (S.faults source.new)) (Rose (O.faults sink.old) (O.faults sink.new))) }
    ensures too_long { 2 ^ 32 ≤ len → (result ≡ Err faults.TooLong) × (IsTrue O.told
        → O.trace sink.new ≡ O.trace sink.old) }
    ensures sinks { IsTrue O.told → OnlySinks (O.trace sink.old) (O.trace sink.new) }
{
    let Ok(short) = u32::try_from(len) else {
        return Err(RunFault::TooLong);
    };
    match sink.put(&short.to_be_bytes()) {
        Ok(()) => {}
        Err(Failed) => return Err(RunFault::OutputFault),
    }
    let mut room = [0; PIECE];
    copy(source, sink, len, &mut room)?;
    end(source)
}

/// Why no run stands behind what was written.
#[derive(Clone, Copy, Debug, PartialEq, Eq, Error)]
pub enum RunFault {
    /// It has 2^32 octets or more: no length of 4 octets says as many. Nothing was written.
    #[error("4 gibibytes or more")]
    TooLong,
    /// It has another count of octets than was said. Its length was written, and some of it.
    #[error("changed while it was read")]
    Changed,
    /// The source failed.
    #[error("could not be read")]
    SourceFault,
    /// The sink failed.
    #[error("output could not be written")]
    OutputFault,
}
