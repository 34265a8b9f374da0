// Writes in a row, writes that are brought to the disk, the turn, and bringing an image to rest.
ghost use Rattle.std.specs.Prelude.{◌≡◌, ◌+◌, ◌-◌, ◌^◌, ◌≤◌, ◌<◌, ◌⊎◌, IsTrue, OnOk, length, replicate, [], ◌∷◌};
ghost use Rattle.std.specs.Prelude.{IfOk, slice_index};
ghost use Rattle.sdls_outside.specs.Disk.{IsSynced};
ghost use Rattle.sdls_outside.specs.Faults.{HasCause};
ghost use Rattle.sdls_outside.specs.Site.{overwritten};
ghost use Rattle.disk_journal.specs.Changes.{filled, with_gate, IsErased, WritesIn, Steps, IsZero, Gated, GatedSlot};
ghost use Rattle.disk_journal.specs.Changes.{GatedForm};
ghost use Rattle.disk_journal.specs.Moments.{AllBut, EachImage};
ghost use Rattle.disk_journal.specs.Zeros.{zeros};
ghost use Rattle.disk_journal.specs.Banks.{IsLayout, head_length, bank_length};

use crate::header::has_other;
use crate::layout::{
    BANKS_AT, CLOSED, CONTENT_AT, GENERATION_AT, GENERATION_LENGTH, HeaderForm, Layout,
    MIGRATED_AT, OPEN, RUN_LENGTH, SLOT_LENGTH,
};
use byteorder::{BigEndian, ByteOrder};
use sdls_base::BODY_LENGTH;
use sdls_outside::{Failed, Site};

/// How many of so many octets the next piece has that begins at `at`: those that a block of a slot's
/// length lacks, or else as many blocks as are written in a call.
fn piece_of(at: u64, left: u64) -> usize
    requires { 0 < left }
    ensures some { 0 < result }
    ensures within { result ≤ left }
    ensures short { result ≤ RUN_LENGTH }
{
    let begun = at % SLOT_LENGTH;
    if begun == 0 {
        left.min(RUN_LENGTH as u64) as usize
    } else {
        left.min(SLOT_LENGTH - begun) as usize
    }
}

/// So many of these zeros.
fn zeros_of(octets: &[u8; RUN_LENGTH], count: usize) -> &[u8]
    requires zeros { octets.now ≡ replicate RUN_LENGTH 0 }
    requires short { count ≤ RUN_LENGTH }
    ensures { result.now ≡ zeros count }
{
    &octets[..count]
}

/// Writes zeros over so many octets from `at` on, and past the end. They are not brought to the disk.
pub(crate) fn write_zeros<O: Site>(site: &mut O, at: u64, count: u64) -> Result<(), Failed>
    requires place { at + count < 2 ^ 64 }
    requires within { IsTrue O.told → at ≤ length (O.trace site.old).now.image }
    ensures written { IsTrue O.told → OnOk result ((O.trace site.new).now.image
        ≡ overwritten (O.trace site.old).now.image at (zeros count)) }
    ensures row { IsTrue O.told → WritesIn at count (O.trace site.old) (O.trace site.new) }
    ensures cause { HasCause (O.faults site.old) (O.faults site.new) result }
    ensures puts { O.put_faults site.new ≡ O.put_faults site.old }
{
    let octets = [0; RUN_LENGTH];
    let mut done = 0;
    while done < count {
        let piece = piece_of(at + done, count - done);
        site.write_at(at + done, zeros_of(&octets, piece))?;
        done += piece as u64;
    }
    Ok(())
}

/// Writes a generation and a content into the bank that begins at `bank`, behind its gate. They are
/// not brought to the disk.
fn write_head<O: Site>(
    site: &mut O,
    bank: u64,
    generation: u64,
    content: &[u8],
) -> Result<(), Failed>
    requires place { bank + CONTENT_AT + length content.now < 2 ^ 64 }
    requires within { IsTrue O.told → bank + CONTENT_AT ≤ length (O.trace site.old).now.image }
    ensures written { IsTrue O.told → OnOk result ((O.trace site.new).now.image
        ≡ filled bank generation content.now (O.trace site.old).now.image) }
    ensures row { IsTrue O.told → WritesIn (bank + 1) (CONTENT_AT + length content.now - 1)
        (O.trace site.old) (O.trace site.new) }
    ensures cause { HasCause (O.faults site.old) (O.faults site.new) result }
    ensures puts { O.put_faults site.new ≡ O.put_faults site.old }
{
    let mut number = [0; GENERATION_LENGTH];
    BigEndian::write_u64(&mut number, generation);
    site.write_at(bank + GENERATION_AT, &number)?;
    site.write_at(bank + CONTENT_AT, content)
}

/// Writes an open gate, a generation and a content into the bank that begins at `bank`. They are not
/// brought to the disk.
pub(crate) fn write_open_bank<O: Site>(
    site: &mut O,
    bank: u64,
    generation: u64,
    content: &[u8],
) -> Result<(), Failed>
    requires place { bank + CONTENT_AT + length content.now < 2 ^ 64 }
    requires within { IsTrue O.told → bank + CONTENT_AT ≤ length (O.trace site.old).now.image }
    ensures written { IsTrue O.told → OnOk result ((O.trace site.new).now.image
        ≡ filled bank generation content.now (with_gate OPEN bank (O.trace site.old).now.image)) }
    ensures row { IsTrue O.told → WritesIn bank (CONTENT_AT + length content.now)
        (O.trace site.old) (O.trace site.new) }
    ensures cause { HasCause (O.faults site.old) (O.faults site.new) result }
    ensures puts { O.put_faults site.new ≡ O.put_faults site.old }
{
    site.write_at(bank, &[OPEN])?;
    write_head(site, bank, generation, content)
}

/// Writes octets over the image from `at` on, and brings them to the disk.
pub(crate) fn store<O: Site>(site: &mut O, at: u64, octets: &[u8]) -> Result<(), Failed>
    requires synced { IsTrue O.told → IsSynced (O.trace site.old).now }
    requires within { IsTrue O.told → at + length octets.now ≤ length (O.trace site.old).now.image }
    ensures stored { IsTrue O.told → OnOk result (IsSynced (O.trace site.new).now
        × ((O.trace site.new).now.image ≡ overwritten (O.trace site.old).now.image at octets.now)) }
    ensures any_moment { IsTrue O.told → EachImage (O.trace site.old) (O.trace site.new)
        (AllBut at (length octets.now) (O.trace site.old).now.image) }
    ensures cause { HasCause (O.faults site.old) (O.faults site.new) result }
    ensures puts { O.put_faults site.new ≡ O.put_faults site.old }
{
    site.write_at(at, octets)?;
    site.sync()
}

/// Writes a body into the slot that begins at `at`, and opens the slot once the body is on the disk.
///
/// The gate is never in the range of the body's write.
pub(crate) fn store_record<O: Site>(
    site: &mut O,
    at: u64,
    body: &[u8; BODY_LENGTH],
) -> Result<(), Failed>
    requires place { at + SLOT_LENGTH < 2 ^ 64 }
    requires synced { IsTrue O.told → IsSynced (O.trace site.old).now }
    requires within { IsTrue O.told → at + SLOT_LENGTH ≤ length (O.trace site.old).now.image }
    ensures stored { IsTrue O.told → OnOk result (IsSynced (O.trace site.new).now
        × ((O.trace site.new).now.image ≡ overwritten (overwritten (O.trace site.old).now.image (at + 1) body.now) at
        (OPEN ∷ []))) }
    ensures any_moment { IsTrue O.told → EachImage (O.trace site.old) (O.trace site.new) (λ image.
        AllBut (at + 1) BODY_LENGTH (O.trace site.old).now.image image
        ⊎ AllBut at 1 (overwritten (O.trace site.old).now.image (at + 1) body.now) image) }
    ensures cause { HasCause (O.faults site.old) (O.faults site.new) result }
    ensures puts { O.put_faults site.new ≡ O.put_faults site.old }
{
    store(site, at + 1, body)?;
    store(site, at, &[OPEN])
}

/// Writes a generation and a content into the bank that begins at `bank`, and brings them to the disk.
pub(crate) fn store_head<O: Site>(
    site: &mut O,
    bank: u64,
    generation: u64,
    content: &[u8],
) -> Result<(), Failed>
    requires place { bank + CONTENT_AT + length content.now < 2 ^ 64 }
    requires synced { IsTrue O.told → IsSynced (O.trace site.old).now }
    requires within { IsTrue O.told → bank + CONTENT_AT + length content.now ≤ length (O.trace site.old).now.image }
    ensures stored { IsTrue O.told → OnOk result (IsSynced (O.trace site.new).now
        × ((O.trace site.new).now.image ≡ filled bank generation content.now (O.trace site.old).now.image)) }
    ensures any_moment { IsTrue O.told → EachImage (O.trace site.old) (O.trace site.new)
        (AllBut (bank + 1) (CONTENT_AT + length content.now - 1) (O.trace site.old).now.image) }
    ensures cause { HasCause (O.faults site.old) (O.faults site.new) result }
    ensures puts { O.put_faults site.new ≡ O.put_faults site.old }
{
    write_head(site, bank, generation, content)?;
    site.sync()
}

/// Writes zeros over so many octets from `at` on, and brings them to the disk.
pub(crate) fn clear<O: Site>(site: &mut O, at: u64, count: u64) -> Result<(), Failed>
    requires place { at + count < 2 ^ 64 }
    requires synced { IsTrue O.told → IsSynced (O.trace site.old).now }
    requires within { IsTrue O.told → at + count ≤ length (O.trace site.old).now.image }
    ensures cleared { IsTrue O.told → OnOk result (IsSynced (O.trace site.new).now
        × IsErased at count (O.trace site.old).now.image (O.trace site.new).now.image) }
    ensures any_moment { IsTrue O.told → EachImage (O.trace site.old) (O.trace site.new)
        (AllBut at count (O.trace site.old).now.image) }
    ensures cause { HasCause (O.faults site.old) (O.faults site.new) result }
    ensures puts { O.put_faults site.new ≡ O.put_faults site.old }
{
    write_zeros(site, at, count)?;
    site.sync()
}

/// Makes the bank that begins at `to` the current one in place of the bank that begins at `from`.
pub(crate) fn turn_banks<O: Site>(
    site: &mut O,
    layout: Layout,
    from: u64,
    to: u64,
    generation: u64,
    content: &[u8],
) -> Result<(), Failed>
    requires layout { IsLayout layout }
    requires sized { length content.now ≡ layout.content_length }
    requires places { (from + bank_length layout < 2 ^ 64) × (to + bank_length layout < 2 ^ 64) }
    requires synced { IsTrue O.told → IsSynced (O.trace site.old).now }
    requires within { IsTrue O.told → (from + bank_length layout ≤ length (O.trace site.old).now.image)
        × (to + bank_length layout ≤ length (O.trace site.old).now.image) }
    ensures turned { IsTrue O.told → OnOk result (IsSynced (O.trace site.new).now
        × IsErased (from + 1) (bank_length layout - 1)
        (with_gate CLOSED from (with_gate OPEN to (filled to generation content.now (O.trace site.old).now.image)))
        (O.trace site.new).now.image) }
    ensures any_moment { IsTrue O.told → EachImage (O.trace site.old) (O.trace site.new)
        (Steps from to (head_length layout) (bank_length layout) generation content.now (O.trace site.old).now.image) }
    ensures cause { HasCause (O.faults site.old) (O.faults site.new) result }
    ensures puts { O.put_faults site.new ≡ O.put_faults site.old }
{
    store_head(site, to, generation, content)?;
    store(site, to, &[OPEN])?;
    store(site, from, &[CLOSED])?;
    clear(site, from + 1, layout.bank_length() - 1)
}

/// Writes 0 as the gate at `at`, if it is not 0.
pub(crate) fn close_gate<O: Site>(site: &mut O, at: u64) -> Result<(), Failed>
    requires synced { IsTrue O.told → IsSynced (O.trace site.old).now }
    requires within { IsTrue O.told → at + 1 ≤ length (O.trace site.old).now.image }
    ensures closed { IsTrue O.told → OnOk result (IsSynced (O.trace site.new).now
        × (slice_index (O.trace site.new).now.image at ≡ CLOSED)) }
    ensures ends { IsTrue O.told → OnOk result (Gated at (O.trace site.old).now.image (O.trace site.new).now.image) }
    ensures any_moment { IsTrue O.told → EachImage (O.trace site.old) (O.trace site.new)
        (Gated at (O.trace site.old).now.image) }
    ensures cause { HasCause (O.faults site.old) (O.faults site.new) result }
    ensures puts { O.put_faults site.new ≡ O.put_faults site.old }
{
    let mut octets = [0];
    site.read_at(at, &mut octets)?;
    if octets[0] == CLOSED {
        return Ok(());
    }
    store(site, at, &[CLOSED])
}

/// The same for the octet that migrates an image, if the image is of version 1.
pub(crate) fn close_migration<O: Site>(site: &mut O, form: HeaderForm) -> Result<(), Failed>
    requires synced { IsTrue O.told → IsSynced (O.trace site.old).now }
    requires within { IsTrue O.told → BANKS_AT ≤ length (O.trace site.old).now.image }
    ensures closed { IsTrue O.told → OnOk result (IsSynced (O.trace site.new).now
        × (form ≡ HeaderForm.Old → slice_index (O.trace site.new).now.image MIGRATED_AT ≡ CLOSED)) }
    ensures ends { IsTrue O.told → OnOk result
        (GatedForm form (O.trace site.old).now.image (O.trace site.new).now.image) }
    ensures any_moment { IsTrue O.told → EachImage (O.trace site.old) (O.trace site.new)
        (GatedForm form (O.trace site.old).now.image) }
    ensures cause { HasCause (O.faults site.old) (O.faults site.new) result }
    ensures puts { O.put_faults site.new ≡ O.put_faults site.old }
{
    match form {
        HeaderForm::Old => close_gate(site, MIGRATED_AT),
        HeaderForm::Migrated | HeaderForm::New => Ok(()),
    }
}

/// The same for the gate of the slot `index` of `slots`, if the slot is there.
pub(crate) fn close_slot<O: Site>(
    site: &mut O,
    at: u64,
    index: u32,
    slots: u32,
) -> Result<(), Failed>
    requires synced { IsTrue O.told → IsSynced (O.trace site.old).now }
    requires within { IsTrue O.told → index < slots → at + 1 ≤ length (O.trace site.old).now.image }
    ensures closed { IsTrue O.told → OnOk result (IsSynced (O.trace site.new).now
        × (index < slots → slice_index (O.trace site.new).now.image at ≡ CLOSED)) }
    ensures ends { IsTrue O.told → OnOk result
        (GatedSlot at index slots (O.trace site.old).now.image (O.trace site.new).now.image) }
    ensures any_moment { IsTrue O.told → EachImage (O.trace site.old) (O.trace site.new)
        (GatedSlot at index slots (O.trace site.old).now.image) }
    ensures cause { HasCause (O.faults site.old) (O.faults site.new) result }
    ensures puts { O.put_faults site.new ≡ O.put_faults site.old }
{
    if index >= slots {
        return Ok(());
    }
    close_gate(site, at)
}

/// Whether the octets from `at` on are 0, as many as `octets` has, into which they are read.
fn reads_zeros<O: Site>(site: &mut O, at: u64, octets: &mut [u8]) -> Result<bool, Failed>
    requires { IsTrue O.told → at + length octets.old ≤ length (O.trace site.old).now.image }
    ensures zero { IsTrue O.told → IfOk result (λ found. IsTrue found
        → IsZero at (at + length octets.old) (O.trace site.old).now.image) }
    ensures same { IsTrue O.told → O.trace site.new ≡ O.trace site.old }
    ensures cause { HasCause (O.faults site.old) (O.faults site.new) result }
    ensures puts { O.put_faults site.new ≡ O.put_faults site.old }
{
    site.read_at(at, octets)?;
    Ok(!has_other(octets))
}

/// Whether so many octets are 0, from `at` on.
fn is_zero<O: Site>(site: &mut O, at: u64, count: u64) -> Result<bool, Failed>
    requires place { at + count < 2 ^ 64 }
    requires within { IsTrue O.told → at + count ≤ length (O.trace site.old).now.image }
    ensures zero { IsTrue O.told → IfOk result (λ found. IsTrue found
        → IsZero at (at + count) (O.trace site.old).now.image) }
    ensures same { IsTrue O.told → O.trace site.new ≡ O.trace site.old }
    ensures cause { HasCause (O.faults site.old) (O.faults site.new) result }
    ensures puts { O.put_faults site.new ≡ O.put_faults site.old }
{
    let mut room = [0; RUN_LENGTH];
    let mut done = 0;
    while done < count {
        let piece = (count - done).min(RUN_LENGTH as u64) as usize;
        if !reads_zeros(site, at + done, &mut room[..piece])? {
            return Ok(false);
        }
        done += piece as u64;
    }
    Ok(true)
}

/// Writes zeros over so many octets from `at` on, if they are others.
pub(crate) fn clear_others<O: Site>(site: &mut O, at: u64, count: u64) -> Result<(), Failed>
    requires place { at + count < 2 ^ 64 }
    requires synced { IsTrue O.told → IsSynced (O.trace site.old).now }
    requires within { IsTrue O.told → at + count ≤ length (O.trace site.old).now.image }
    ensures cleared { IsTrue O.told → OnOk result (IsSynced (O.trace site.new).now
        × IsErased at count (O.trace site.old).now.image (O.trace site.new).now.image) }
    ensures any_moment { IsTrue O.told → EachImage (O.trace site.old) (O.trace site.new)
        (AllBut at count (O.trace site.old).now.image) }
    ensures cause { HasCause (O.faults site.old) (O.faults site.new) result }
    ensures puts { O.put_faults site.new ≡ O.put_faults site.old }
{
    if is_zero(site, at, count)? {
        return Ok(());
    }
    clear(site, at, count)
}
