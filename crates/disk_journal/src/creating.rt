// The image that a journal begins with, and the migration of an image of version 1.
ghost use Rattle.std.specs.Prelude.{◌≡◌, ◌-◌, ◌≤◌, ◌⊎◌, IsTrue, OnOk, length, slice_index, [], ℕ, List};
ghost use Rattle.sdls_base.specs.Version.{content_length_of};
ghost use Rattle.sdls_outside.specs.Disk.{IsSynced};
ghost use Rattle.sdls_outside.specs.Faults.{HasCause};
ghost use Rattle.sdls_outside.specs.Moments.{Trace};
ghost use Rattle.sdls_outside.specs.Site.{overwritten};
ghost use Rattle.disk_journal.specs.Moments.{EachImage};
ghost use Rattle.disk_journal.specs.Zeros.{zeros};
ghost use Rattle.disk_journal.specs.Changes.{WritesIn, KeepsBelow, IsErased, IsLaidBehind, Migrates, with_migration};
ghost use Rattle.disk_journal.specs.Banks.{version_of, IsLayout};
ghost use Rattle.disk_journal.specs.Initial.{laid_image, created_image, fields_of, IsLaid};
ghost use Rattle.disk_journal.specs.Journal.{HasSiteFault};

use crate::layout::{
    BANKS_AT, CLOSED, FIRST_GENERATION, HEADER_LENGTH, HeaderForm, JournalFault, LEAST_SLOTS,
    Layout, MAGIC_AT, MIGRATED_AT, MOST_SLOTS, OPEN, PLAN_LENGTH_AT, PLAN_ROOM, SLOT_COUNT_AT,
};
use crate::storing::{clear, store, write_open_bank, write_zeros};
use byteorder::{BigEndian, ByteOrder};
use sdls_base::{CONTENT_LENGTH_ONE, CONTENT_LENGTH_TWO};
use sdls_outside::{Failed, Site};

/// Writes octet 0 as 0, if there is no image, and brings it to the disk.
fn shut<O: Site>(site: &mut O) -> Result<(), Failed>
    requires { IsTrue O.told → (O.trace site.old).now.image ≡ [] }
    ensures shut { IsTrue O.told → OnOk result (IsSynced (O.trace site.new).now
        × ((O.trace site.new).now.image ≡ zeros 1)) }
    ensures any_moment { IsTrue O.told → EachImage (O.trace site.old) (O.trace site.new) (λ image. length image ≤ 1) }
    ensures cause { HasCause (O.faults site.old) (O.faults site.new) result }
    ensures puts { O.put_faults site.new ≡ O.put_faults site.old }
{
    site.write_at(0, &[CLOSED])?;
    site.sync()
}

/// The header from its magic to its last number.
fn fill_fields(fields: &mut [u8], form: HeaderForm, plan_length: u32, slots: u32)
    requires { length fields.old ≡ MIGRATED_AT - MAGIC_AT }
    ensures { fields.new ≡ fields_of form plan_length slots }
{
    fields[..8].copy_from_slice(&form.magic());
    BigEndian::write_u32(
        &mut fields[(PLAN_LENGTH_AT - MAGIC_AT) as usize..],
        plan_length,
    );
    BigEndian::write_u32(&mut fields[(SLOT_COUNT_AT - MAGIC_AT) as usize..], slots);
}

/// Writes the header but for its gate, and the plan.
fn write_header<O: Site>(
    site: &mut O,
    form: HeaderForm,
    plan: &[u8],
    slots: u32,
) -> Result<(), Failed>
    requires room { length plan.now ≤ PLAN_ROOM }
    requires long { IsTrue O.told → BANKS_AT ≤ length (O.trace site.old).now.image }
    ensures written { IsTrue O.told → OnOk result ((O.trace site.new).now.image ≡ overwritten
        (overwritten (O.trace site.old).now.image MAGIC_AT (fields_of form (length plan.now) slots))
        HEADER_LENGTH plan.now) }
    ensures row { IsTrue O.told → WritesIn MAGIC_AT (BANKS_AT - MAGIC_AT) (O.trace site.old) (O.trace site.new) }
    ensures cause { HasCause (O.faults site.old) (O.faults site.new) result }
    ensures puts { O.put_faults site.new ≡ O.put_faults site.old }
{
    let mut fields = [0; (MIGRATED_AT - MAGIC_AT) as usize];
    fill_fields(&mut fields, form, plan.len() as u32, slots);
    site.write_at(MAGIC_AT, &fields)?;
    site.write_at(HEADER_LENGTH, plan)
}

/// Writes all of the image but the header's gate, which is 0 on the disk, and brings it to the disk.
fn lay<O: Site>(
    site: &mut O,
    form: HeaderForm,
    plan: &[u8],
    slots: u32,
    content: &[u8],
) -> Result<(), Failed>
    requires form { (form ≡ HeaderForm.Old) ⊎ (form ≡ HeaderForm.New) }
    requires synced { IsTrue O.told → IsSynced (O.trace site.old).now }
    requires begun { IsTrue O.told → (O.trace site.old).now.image ≡ zeros 1 }
    requires room { length plan.now ≤ PLAN_ROOM }
    requires most { slots ≤ MOST_SLOTS }
    requires sized { length content.now ≡ content_length_of (version_of form) }
    ensures laid { IsTrue O.told → OnOk result (IsSynced (O.trace site.new).now
        × ((O.trace site.new).now.image ≡ laid_image form plan.now slots content.now)) }
    ensures any_moment { IsTrue O.told → EachImage (O.trace site.old) (O.trace site.new)
        (λ image. slice_index image 0 ≡ CLOSED) }
    ensures cause { HasCause (O.faults site.old) (O.faults site.new) result }
    ensures puts { O.put_faults site.new ≡ O.put_faults site.old }
{
    write_zeros(site, 1, Layout::new(form, slots).end() - 1)?;
    write_header(site, form, plan, slots)?;
    write_open_bank(site, BANKS_AT, FIRST_GENERATION, content)?;
    site.sync()
}

/// Writes the image, first of all its first octet as 0, and last of all the header's gate.
fn write_image<O: Site>(
    site: &mut O,
    form: HeaderForm,
    plan: &[u8],
    slots: u32,
    content: &[u8],
) -> Result<(), Failed>
    requires form { (form ≡ HeaderForm.Old) ⊎ (form ≡ HeaderForm.New) }
    requires empty { IsTrue O.told → (O.trace site.old).now.image ≡ [] }
    requires room { length plan.now ≤ PLAN_ROOM }
    requires most { slots ≤ MOST_SLOTS }
    requires sized { length content.now ≡ content_length_of (version_of form) }
    ensures created { IsTrue O.told → OnOk result (IsSynced (O.trace site.new).now
        × ((O.trace site.new).now.image ≡ created_image form plan.now slots content.now)) }
    ensures any_moment { IsTrue O.told → ((mid : Trace)
        × IsLaid form plan.now slots content.now (O.trace site.old) mid (O.trace site.new)) }
    ensures cause { HasCause (O.faults site.old) (O.faults site.new) result }
    ensures puts { O.put_faults site.new ≡ O.put_faults site.old }
{
    shut(site)?;
    lay(site, form, plan, slots, content)?;
    store(site, 0, &[OPEN])
}

/// Writes the image of version 1 of this plan, with this many slots a bank, this content and no records,
/// if there is no image. After `Ok` it is on the disk. After a fault some of it may stand.
pub fn create<O: Site>(
    site: &mut O,
    plan: &[u8],
    slots: u32,
    content: &[u8],
) -> Result<(), JournalFault>
    requires empty { IsTrue O.told → (O.trace site.old).now.image ≡ [] }
    requires room { length plan.now ≤ PLAN_ROOM }
    requires least { LEAST_SLOTS ≤ slots }
    requires most { slots ≤ MOST_SLOTS }
    requires sized { length content.now ≡ CONTENT_LENGTH_ONE }
    ensures created { IsTrue O.told → OnOk result (IsSynced (O.trace site.new).now
        × ((O.trace site.new).now.image ≡ created_image HeaderForm.Old plan.now slots content.now)) }

    // No octet is opened as an image before all else is on the disk.
    ensures any_moment { IsTrue O.told → ((mid : Trace)
        × IsLaid HeaderForm.Old plan.now slots content.now (O.trace site.old) mid (O.trace site.new)) }
    ensures fault { HasSiteFault (O.faults site.old) (O.faults site.new) result }
    ensures puts { O.put_faults site.new ≡ O.put_faults site.old }
{
    match write_image(site, HeaderForm::Old, plan, slots, content) {
        Ok(()) => Ok(()),
        Err(Failed) => Err(JournalFault::SiteFault(site.faults())),
    }
}

/// The same for an image of version 2.
pub fn create_two<O: Site>(
    site: &mut O,
    plan: &[u8],
    slots: u32,
    content: &[u8],
) -> Result<(), JournalFault>
    requires empty { IsTrue O.told → (O.trace site.old).now.image ≡ [] }
    requires room { length plan.now ≤ PLAN_ROOM }
    requires least { LEAST_SLOTS ≤ slots }
    requires most { slots ≤ MOST_SLOTS }
    requires sized { length content.now ≡ CONTENT_LENGTH_TWO }
    ensures created { IsTrue O.told → OnOk result (IsSynced (O.trace site.new).now
        × ((O.trace site.new).now.image ≡ created_image HeaderForm.New plan.now slots content.now)) }
    ensures any_moment { IsTrue O.told → ((mid : Trace)
        × IsLaid HeaderForm.New plan.now slots content.now (O.trace site.old) mid (O.trace site.new)) }
    ensures fault { HasSiteFault (O.faults site.old) (O.faults site.new) result }
    ensures puts { O.put_faults site.new ≡ O.put_faults site.old }
{
    match write_image(site, HeaderForm::New, plan, slots, content) {
        Ok(()) => Ok(()),
        Err(Failed) => Err(JournalFault::SiteFault(site.faults())),
    }
}

/// Writes the banks of this layout, of which the first is open and holds this content, and brings them to the disk.
fn lay_banks<O: Site>(site: &mut O, layout: Layout, content: &[u8]) -> Result<(), Failed>
    requires layout { IsLayout layout }
    requires sized { length content.now ≡ layout.content_length }
    requires synced { IsTrue O.told → IsSynced (O.trace site.old).now }
    requires within { IsTrue O.told → layout.banks ≤ length (O.trace site.old).now.image }
    ensures laid { IsTrue O.told → OnOk result (IsSynced (O.trace site.new).now × IsLaidBehind layout FIRST_GENERATION
        content.now (O.trace site.old).now.image (O.trace site.new).now.image) }
    ensures any_moment { IsTrue O.told → EachImage (O.trace site.old) (O.trace site.new)
        (KeepsBelow layout.banks (O.trace site.old).now.image) }
    ensures cause { HasCause (O.faults site.old) (O.faults site.new) result }
    ensures puts { O.put_faults site.new ≡ O.put_faults site.old }
{
    write_zeros(site, layout.banks, layout.end() - layout.banks)?;
    write_open_bank(site, layout.banks, FIRST_GENERATION, content)?;
    site.sync()
}

/// Makes the banks of this layout, with this content, those of the image, in place of those of version 1 before them.
pub(crate) fn migrate_banks<O: Site>(
    site: &mut O,
    layout: Layout,
    content: &[u8],
) -> Result<(), Failed>
    requires layout { IsLayout layout }
    requires sized { length content.now ≡ layout.content_length }
    requires synced { IsTrue O.told → IsSynced (O.trace site.old).now }
    requires within { IsTrue O.told → layout.banks ≤ length (O.trace site.old).now.image }
    ensures migrated { IsTrue O.told → OnOk result (IsSynced (O.trace site.new).now × ((laid : List ℕ)
        × IsLaidBehind layout FIRST_GENERATION content.now (O.trace site.old).now.image laid
        × IsErased BANKS_AT (layout.banks - BANKS_AT) (with_migration laid) (O.trace site.new).now.image)) }
    ensures any_moment { IsTrue O.told → EachImage (O.trace site.old) (O.trace site.new)
        (Migrates layout FIRST_GENERATION content.now (O.trace site.old).now.image) }
    ensures cause { HasCause (O.faults site.old) (O.faults site.new) result }
    ensures puts { O.put_faults site.new ≡ O.put_faults site.old }
{
    lay_banks(site, layout, content)?;
    store(site, MIGRATED_AT, &[OPEN])?;
    clear(site, BANKS_AT, layout.banks - BANKS_AT)
}
