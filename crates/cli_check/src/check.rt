// The checks of the word `check`, which has a key and no unit: no association and no window is asked. Its order is that
// of `Check.antt`; the order of a unit is that of `frame_checks`.
ghost use Rattle.hex.specs.Hex.{encode_lower};
ghost use Rattle.std.specs.Prelude.{◌≡◌, ◌≢◌, ℕ, ◌+◌, [], IfOk, IsTrue, List, MatchResult, ◌↔◌, ◌-◌, ◌≤◌, length};
ghost use Rattle.std.specs.Prelude.{drop, take, IfErr};
ghost use Rattle.sdls_base.specs.Suite.{overhead_of};
ghost use Rattle.sdls_outside.specs.Faults.{HasCause, Rose};
ghost use Rattle.sdls_outside.specs.Intake.{TakesAtMost};
ghost use Rattle.sdls_outside.specs.Output.{OnlySinks, Delivers};
ghost use Rattle.cmac.specs.Cmac.{mac};
ghost use Rattle.cli_check.specs.Answer.{CheckDue, DeliversText, EndsCheck, accepted_text, refused_text};
ghost use Rattle.cli_check.specs.Check.{PassesChecks, PassesBefore, IsFirstFault, IsReserved, data_field};

use aes_block::Schedule;
use command_words::put_text;
use record_io::Outcome;
use record_io::status::{DONE, REFUSED, SITE_FAULT, SOURCE_FAULT};
use sdls_base::{AosLayout, FrameFault, Suite, same_octets};
use sdls_outside::{Failed, Site, Source, collect};
use std::alloc::Global;
use thiserror::Error;

/// Reads the whole input as one frame, writes the verdict on it under `key`, and answers the status.
///
/// One octet more than the longest frame is taken at most, which shows that the input is too long.
fn put_check<S: Source, O: Site>(key: &Schedule, source: &mut S, site: &mut O) -> Result<u8, Failed>
    ensures due { (text : List ℕ) × (due : ℕ)
        × CheckDue key.now (λ input. IsTrue S.told → input ≡ S.left source.old)
        (Rose (S.faults source.old) (S.faults source.new)) text due
        × DeliversText O.told text due result (O.trace site.old) (O.trace site.new) }
    ensures taken { IsTrue S.told → TakesAtMost (GREATEST_LENGTH + 1) (S.left source.old) (S.left source.new) }
    ensures cause { HasCause (O.faults site.old) (O.faults site.new) result }
    ensures heard { IfOk result (λ status. status ≢ SOURCE_FAULT → S.faults source.new ≡ S.faults source.old) }
{
    let mut buffer = [0; GREATEST_LENGTH + 1];
    match collect(source, &mut buffer) {
        Ok(count) => put_verdict(site, check_frame(key, &buffer[..count])),
        Err(Failed) => {
            put_text(site, b"source fault\n")?;
            Ok(SOURCE_FAULT)
        }
    }
}

/// Runs `check KEY`: reads one AOS transfer frame from the source, and writes `ok` with its data field in hexadecimal
/// digits, or `refused` with the first check that fails. It takes no memory, and of the source one octet more than the
/// longest frame has, at most. Nothing is written after a failed write.
pub fn run_check<S: Source, O: Site>(
    alloc: Global,
    key: &Schedule,
    source: &mut S,
    mut site: O,
) -> Outcome<O>
    ensures due { EndsCheck key.now
        (λ input. IsTrue S.told → input ≡ S.left source.old) (Rose (S.faults source.old) (S.faults source.new))
        O.told (O.trace site) (O.trace result.site) (Rose (O.faults site) (O.faults result.site)) result.status }
    ensures only_sinks { IsTrue O.told → OnlySinks (O.trace site) (O.trace result.site) }
    ensures taken { IsTrue S.told → TakesAtMost (GREATEST_LENGTH + 1) (S.left source.old) (S.left source.new) }
    ensures quiet { result.status ≢ SITE_FAULT → O.faults result.site ≡ O.faults site }
    ensures heard { result.status ≢ SOURCE_FAULT → result.status ≢ SITE_FAULT
        → S.faults source.new ≡ S.faults source.old }
    ensures no_history { result.entries.items ≡ [] }
{
    let status = match put_check(key, source, &mut site) {
        Ok(status) => status,
        Err(Failed) => SITE_FAULT,
    };
    Outcome {
        status,
        site,
        entries: Vec::new(alloc),
    }
}

/// The line that names a refusal.
fn refusal_line(refusal: Refusal) -> &'static [u8]
    ensures { result.now ≡ refused_text refusal }
{
    match refusal {
        Refusal::Short => b"refused short\n",
        Refusal::Long => b"refused long\n",
        Refusal::Version => b"refused version\n",
        Refusal::Spare => b"refused spare\n",
        Refusal::Spi => b"refused spi\n",
        Refusal::Mac => b"refused mac\n",
    }
}

/// Writes the line for an accepted frame.
fn put_field<O: Site>(site: &mut O, field: &[u8]) -> Result<(), Failed>
    ensures delivered { IsTrue O.told → Delivers (accepted_text field.now) result (O.trace site.old)
        (O.trace site.new) }
    ensures cause { HasCause (O.faults site.old) (O.faults site.new) result }
{
    put_text(site, b"ok ")?;
    put_hexadecimal(site, field)?;
    put_text(site, b"\n")
}

/// Writes the line for a verdict on a frame, and answers the status that goes with it.
pub(crate) fn put_verdict<O: Site>(
    site: &mut O,
    verdict: Result<&[u8], Refusal>,
) -> Result<u8, Failed>
    ensures answered { MatchResult verdict.entry
        (λ field. DeliversText O.told (accepted_text field.now) DONE result (O.trace site.old) (O.trace site.new))
        (λ refusal. DeliversText O.told (refused_text refusal) REFUSED result (O.trace site.old) (O.trace site.new)) }
    ensures cause { HasCause (O.faults site.old) (O.faults site.new) result }
{
    match verdict {
        Ok(field) => {
            put_field(site, field)?;
            Ok(DONE)
        }
        Err(refusal) => {
            put_text(site, refusal_line(refusal))?;
            Ok(REFUSED)
        }
    }
}

/// The octets of the primary header.
const HEADER_LENGTH: usize = 6;

pub const GREATEST_LENGTH: usize = 2048;

const MAC_LENGTH: usize = 16;

/// Makes the checks before that of the SPI, and answers what stands behind the primary header.
fn room_of(frame: &[u8]) -> Result<&[u8], Refusal>
    ensures accepted { IfOk result (λ room. PassesBefore 4 frame.now × (room.now ≡ drop 6 frame.now)) }
    ensures refused { IfErr result (λ fault. (key : List ℕ) → IsFirstFault key frame.now fault) }
{
    if frame.len() < HEADER_LENGTH + Suite::Cmac.overhead() {
        return Err(Refusal::Short);
    }
    if frame.len() > GREATEST_LENGTH {
        return Err(Refusal::Long);
    }
    let layout = AosLayout {
        length: frame.len() as u16,
        insert: 0,
        ocf: false,
        fecf: false,
    };
    match aos_frame::read(frame, &layout) {
        Ok(parts) => Ok(parts.room),
        Err(FrameFault::Version) => Err(Refusal::Version),
        Err(_) => Err(Refusal::Spare),
    }
}

/// Whether the SPI at the front of a room is a reserved one.
fn has_reserved_spi(room: &[u8]) -> bool
    requires { 2 ≤ length room.now }
    ensures { IsTrue result ↔ IsReserved (take 2 room.now) }
{
    matches!(sdls_header::read_spi(room), Some(0 | u16::MAX))
}

/// The data field and the MAC in a room of the CMAC suite.
fn field_and_mac(room: &[u8]) -> (&[u8], &[u8])
    requires { overhead_of Suite.Cmac ≤ length room.now }
    ensures field { result.0.now ≡ drop 6 (take (length room.now - 16) room.now) }
    ensures mac { result.1.now ≡ drop (length room.now - 16) room.now }
{
    let split = sdls_header::split(room, Suite::Cmac).unwrap();
    (split.field, split.mac)
}

/// Whether `trailer` is the MAC of `text` under `key`.
fn is_mac(key: &Schedule, text: &[u8], trailer: &[u8]) -> bool
    ensures { IsTrue result ↔ (mac key.now text.now ≡ trailer.now) }
{
    same_octets(&cmac::mac(key, text), trailer)
}

/// Judges one AOS transfer frame of the CMAC suite, and answers its data field.
///
/// The frame has a primary header of 6 octets, all of whose bits the MAC covers, then the security
/// header (SPI of 2 octets, sequence number of 4), the data field and a MAC of 16 octets
/// (CCSDS 732.0-B-4; CCSDS 355.0-B-2). There is no insert zone, no operational control field and no
/// frame error control field.
pub fn check_frame<'a>(key: &Schedule, frame: &'a [u8]) -> Result<&'a [u8], Refusal>
    ensures accepted { IfOk result (λ field. PassesChecks key.now frame.now × (field.now ≡ data_field frame.now)) }
    ensures refused { IfErr result (IsFirstFault key.now frame.now) }
{
    let room = room_of(frame)?;
    if has_reserved_spi(room) {
        return Err(Refusal::Spi);
    }
    let (field, mac) = field_and_mac(room);
    if !is_mac(key, &frame[..frame.len() - MAC_LENGTH], mac) {
        return Err(Refusal::Mac);
    }
    Ok(field)
}

/// The most octets that are spelled by one `put`.
const PIECE: usize = 64;

/// Writes up to 64 octets as hexadecimal digits, with lower-case letters, in one piece.
fn put_piece<O: Site>(site: &mut O, octets: &[u8]) -> Result<(), Failed>
    requires { length octets.now ≤ PIECE }
    ensures delivered { IsTrue O.told → Delivers (encode_lower octets.now) result (O.trace site.old)
        (O.trace site.new) }
    ensures cause { HasCause (O.faults site.old) (O.faults site.new) result }
{
    let mut digits = [0; 2 * PIECE];
    let spelled = &mut digits[..2 * octets.len()];
    hex::encode_to_slice(octets, spelled).unwrap();
    put_text(site, spelled)
}

/// Writes octets as hexadecimal digits, with lower-case letters, piece by piece.
pub(crate) fn put_hexadecimal<O: Site>(site: &mut O, octets: &[u8]) -> Result<(), Failed>
    ensures delivered { IsTrue O.told → Delivers (encode_lower octets.now) result (O.trace site.old)
        (O.trace site.new) }
    ensures cause { HasCause (O.faults site.old) (O.faults site.new) result }
{
    let mut rest = octets;
    while !rest.is_empty() {
        let (piece, others) = rest.split_at(rest.len().min(PIECE));
        put_piece(site, piece)?;
        rest = others;
    }
    Ok(())
}

/// Why a frame is refused: the first check that fails, in the order of the checks.
#[derive(Clone, Copy, Debug, PartialEq, Eq, Error)]
pub enum Refusal {
    /// Fewer than 28 octets: no room for primary header, security header and trailer.
    #[error("frame has too few octets")]
    Short,
    /// More than 2,048 octets.
    #[error("frame has too many octets")]
    Long,
    /// The transfer frame version number is not 01.
    #[error("version number is not 01")]
    Version,
    /// The spare bits of the signaling field are not 00.
    #[error("spare bits are not 00")]
    Spare,
    /// The security parameter index is 0 or 65535, which are reserved.
    #[error("security parameter index is reserved")]
    Spi,
    /// The MAC is not the one of the frame under the key.
    #[error("MAC is not that of the frame")]
    Mac,
}
