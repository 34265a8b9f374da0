// The journal.
ghost use Rattle.std.specs.Prelude.{◌≡◌, ℕ, ◌+◌, ◌^◌, ◌<◌, ◌≤◌, ◌⊎◌, IsTrue, IfOk, OnOk, OnErr, List, length, take};
ghost use Rattle.std.specs.Prelude.{slice_get, slice_index};
ghost use Rattle.sdls_base.specs.Version.{content_length_of};
ghost use Rattle.sdls_outside.specs.Disk.{IsSynced, Leaves};
ghost use Rattle.sdls_outside.specs.Faults.{HasCause};
ghost use Rattle.disk_journal.specs.Moments.{EachImage, OnlySyncs};
ghost use Rattle.disk_journal.specs.declared.layout.TheConstants.{CLOSED, MIGRATED_AT};
ghost use Rattle.disk_journal.specs.Banks.{version_of, version_number, layout_of, image_end, bank_at, slot_at, other};
ghost use Rattle.disk_journal.specs.Banks.{next};
ghost use Rattle.disk_journal.specs.Image.{records, plan_of, content, current_at, record_at, held, grown, turned};
ghost use Rattle.disk_journal.specs.Image.{version_in, migrated};
ghost use Rattle.disk_journal.specs.Changes.{KeepsBeside, KeepsPlan, KeepsPast};
ghost use Rattle.disk_journal.specs.Fault.{image_fault};
ghost use Rattle.disk_journal.specs.Forms.{Becomes, Settles};
ghost use Rattle.disk_journal.specs.Journal.{JournalView, IsJournalOf, IsOpen, IsClosed, IsSettled, HasFault};
ghost use Rattle.disk_journal.specs.Journal.{HasSiteFault};
ghost use Rattle.disk_journal.specs.Rest.{IsRest};
ghost use Rattle.disk_journal.specs.Runs.{Has, IsRunOf};

use crate::creating::migrate_banks;
use crate::layout::{
    BANKS_AT, Bank, CONTENT_AT, FIRST_GENERATION, HEADER_LENGTH, HeaderForm, JournalFault, Layout,
    MOST_SLOTS, PLAN_ROOM, RUN, RecordRun, SLOT_LENGTH, next_generation,
};
use crate::opening_image::{Verdict, inspect_synced};
use crate::storing::{
    clear_others, close_gate, close_migration, close_slot, store_record, turn_banks,
};
use sdls_base::{BODY_LENGTH, CONTENT_LENGTH_TWO, Version};
use sdls_outside::{Failed, Site};
use std::marker::Model;

/// The journal of one image. Each call takes the site whose image it is; that image is the one that
/// `open`, or the last later call on this journal, left.
#[derive(Drop)]
pub struct Journal {
    pub(crate) plan_length: u32,
    pub(crate) layout: Layout,
    pub(crate) bank: Bank,
    pub(crate) generation: u64,
    pub(crate) used: u32,
}

impl Model for Journal {
    ghost use Rattle.std.specs.Prelude.{◌≡◌, ◌≤◌};
    ghost use Rattle.disk_journal.specs.Banks.{IsLayout};
    ghost use Rattle.disk_journal.specs.Journal.{JournalView};
    ghost use Rattle.disk_journal.specs.declared.layout.TheConstants.{PLAN_ROOM};

    ghost Value = { JournalView };

    ghost view = { λ journal. record {
      plan_length = journal.plan_length;
      layout = journal.layout;
      bank = journal.bank;
      generation = journal.generation;
      used = journal.used;
    } };

    ghost invariant = { λ journal. (journal.plan_length ≤ PLAN_ROOM) × (journal.used ≤ journal.layout.slots)
        × IsLayout journal.layout };
}

impl Journal {
    /// Opens the image of a site that has run until now, or has crashed: starts a run on the site,
    /// syncs, and makes the checks. Answers `Image` with the offset of the first check that fails.
    /// Writes nothing: call `settle` before the first `append` or `turn`.
    pub fn open<O: Site>(site: &mut O) -> Result<Self, JournalFault>
        ensures opened { IsTrue O.told → IfOk result (IsOpen (O.trace site.new)) }

        // It is refused exactly if a check fails, with the first one's offset.
        ensures accepted { IsTrue O.told → OnOk result (image_fault (O.trace site.old).now.image ≡ None) }
        ensures fault { HasFault (O.faults site.old) (O.faults site.new)
            (λ offset. IsTrue O.told → image_fault (O.trace site.old).now.image ≡ Some offset) result }

        // Whatever the answer, nothing is written and nothing is sunk.
        ensures unchanged { IsTrue O.told → OnlySyncs (O.trace site.old) (O.trace site.new) }
        ensures any_moment { IsTrue O.told → EachImage (O.trace site.old) (O.trace site.new)
            (Leaves (O.trace site.old).now) }
        ensures puts { O.put_faults site.new ≡ O.put_faults site.old }
    {
        match inspect_synced(site) {
            Ok(Verdict::Opens(journal)) => Ok(journal),
            Ok(Verdict::Fails(offset)) => Err(JournalFault::Image(offset)),
            Err(Failed) => Err(JournalFault::SiteFault(site.faults())),
        }
    }

    /// Brings an opened image to rest: writes 0 as the octet that migrates an image, if it is of version
    /// 1, as the gate of the first closed slot and as that of the other bank, if they are not 0, and
    /// zeros over the rest of the other bank and over the old banks of a migrated image, if they have
    /// other octets. Syncs after each. After a fault, open the image again.
    pub fn settle<O: Site>(&self, site: &mut O) -> Result<(), JournalFault>
        requires { IsTrue O.told → IsOpen (O.trace site.old) self.now }
        ensures settled { IsTrue O.told → OnOk result (IsSettled (O.trace site.new) self.now) }
        ensures holds { IsTrue O.told → OnOk result (held (O.trace site.new).now.image
            ≡ held (O.trace site.old).now.image) }

        // What stands before all banks and past them is as it was, but for the octet that migrates.
        ensures beside { IsTrue O.told → OnOk result
            (KeepsPlan self.now.layout (O.trace site.old).now.image (O.trace site.new).now.image) }

        // A crash at any moment leaves the image but for its closed gates, or one that holds the same.
        ensures any_moment { IsTrue O.told → EachImage (O.trace site.old) (O.trace site.new)
            (Settles (O.trace site.old).now.image) }
        ensures fault { HasSiteFault (O.faults site.old) (O.faults site.new) result }
        ensures puts { O.put_faults site.new ≡ O.put_faults site.old }
    {
        match self.bring_to_rest(site) {
            Ok(()) => Ok(()),
            Err(Failed) => Err(JournalFault::SiteFault(site.faults())),
        }
    }

    /// The same, with the site's own answer.
    fn bring_to_rest<O: Site>(&self, site: &mut O) -> Result<(), Failed>
        requires { IsTrue O.told → IsOpen (O.trace site.old) self.now }
        ensures settled { IsTrue O.told → OnOk result (IsSettled (O.trace site.new) self.now
            × (held (O.trace site.new).now.image ≡ held (O.trace site.old).now.image)) }
        ensures beside { IsTrue O.told → OnOk result
            (KeepsPlan self.now.layout (O.trace site.old).now.image (O.trace site.new).now.image) }
        ensures any_moment { IsTrue O.told → EachImage (O.trace site.old) (O.trace site.new)
            (Settles (O.trace site.old).now.image) }
        ensures cause { HasCause (O.faults site.old) (O.faults site.new) result }
        ensures puts { O.put_faults site.new ≡ O.put_faults site.old }
    {
        close_migration(site, self.layout.form)?;
        self.close_banks(site)?;
        clear_others(site, BANKS_AT, self.layout.banks - BANKS_AT)
    }

    /// Closes the gates of an image that is not on its way to be migrated, and clears the other bank.
    fn close_banks<O: Site>(&self, site: &mut O) -> Result<(), Failed>
        requires opened { IsTrue O.told → IsOpen (O.trace site.old) self.now }
        requires shut { IsTrue O.told → self.now.layout.form ≡ HeaderForm.Old
            → slice_index (O.trace site.old).now.image MIGRATED_AT ≡ CLOSED }
        ensures closed { IsTrue O.told → OnOk result (IsSynced (O.trace site.new).now
            × IsClosed (O.trace site.new).now.image self.now
            × (held (O.trace site.new).now.image ≡ held (O.trace site.old).now.image)) }
        ensures beside { IsTrue O.told → OnOk result
            (KeepsBeside self.now.layout (O.trace site.old).now.image (O.trace site.new).now.image) }
        ensures any_moment { IsTrue O.told → EachImage (O.trace site.old) (O.trace site.new)
            (Settles (O.trace site.old).now.image) }
        ensures cause { HasCause (O.faults site.old) (O.faults site.new) result }
        ensures puts { O.put_faults site.new ≡ O.put_faults site.old }
    {
        let at = self.layout.bank_at(self.bank);
        let spare = self.layout.bank_at(self.bank.other());
        let slot = self.layout.slot_at(at, self.used);
        close_slot(site, slot, self.used, self.layout.slots)?;
        close_gate(site, spare)?;
        clear_others(site, spare + 1, self.layout.bank_length() - 1)
    }

    /// Reads the text of the plan into the front of `out`, and answers how many octets it has. After a
    /// fault `out` may hold any octets.
    pub fn plan_text<O: Site>(&self, site: &mut O, out: &mut [u8]) -> Result<usize, JournalFault>
        requires room { length out.old ≡ PLAN_ROOM }
        requires opened { IsTrue O.told → IsOpen (O.trace site.old) self.now }
        ensures text { IsTrue O.told → IfOk result (λ count. take count out.new
            ≡ plan_of (O.trace site.old).now.image) }
        ensures within { IfOk result (λ count. count ≤ PLAN_ROOM) }
        ensures same { IsTrue O.told → O.trace site.new ≡ O.trace site.old }
        ensures fault { HasSiteFault (O.faults site.old) (O.faults site.new) result }
        ensures puts { O.put_faults site.new ≡ O.put_faults site.old }
    {
        let count = self.plan_length as usize;
        match site.read_at(HEADER_LENGTH, &mut out[..count]) {
            Ok(()) => Ok(count),
            Err(Failed) => Err(JournalFault::SiteFault(site.faults())),
        }
    }

    /// Reads the content. After a fault `out` may hold any octets.
    pub fn content<O: Site>(&self, site: &mut O, out: &mut [u8]) -> Result<(), JournalFault>
        requires room { length out.old ≡ self.now.layout.content_length }
        requires opened { IsTrue O.told → IsOpen (O.trace site.old) self.now }
        ensures content { IsTrue O.told → OnOk result (out.new ≡ content (O.trace site.old).now.image) }
        ensures same { IsTrue O.told → O.trace site.new ≡ O.trace site.old }
        ensures fault { HasSiteFault (O.faults site.old) (O.faults site.new) result }
        ensures puts { O.put_faults site.new ≡ O.put_faults site.old }
    {
        match site.read_at(self.content_at(), out) {
            Ok(()) => Ok(()),
            Err(Failed) => Err(JournalFault::SiteFault(site.faults())),
        }
    }

    /// Where the content begins in the image.
    pub fn content_at(&self) -> u64
        ensures is { result ≡ bank_at self.now.layout self.now.bank + CONTENT_AT }
        ensures place { (image : List ℕ) → IsJournalOf image self.now → result ≡ current_at image + CONTENT_AT }
    {
        self.layout.bank_at(self.bank) + CONTENT_AT
    }

    /// Reads the body of a record; the first one's index is 0.
    pub fn body<O: Site>(&self, site: &mut O, index: u32) -> Result<[u8; BODY_LENGTH], JournalFault>
        requires below { index < self.now.used }
        requires opened { IsTrue O.told → IsOpen (O.trace site.old) self.now }
        ensures body { IsTrue O.told → IfOk result (λ body. slice_get (records (O.trace site.old).now.image) index
            ≡ Some body) }
        ensures same { IsTrue O.told → O.trace site.new ≡ O.trace site.old }
        ensures fault { HasSiteFault (O.faults site.old) (O.faults site.new) result }
        ensures puts { O.put_faults site.new ≡ O.put_faults site.old }
    {
        let mut body = [0; BODY_LENGTH];
        match site.read_at(self.record_at(index) + 1, &mut body) {
            Ok(()) => Ok(body),
            Err(Failed) => Err(JournalFault::SiteFault(site.faults())),
        }
    }

    /// Reads the slots of the records from `index` on, as many as there are and have room in the run.
    fn read_run<O: Site>(&self, site: &mut O, run: &mut RecordRun, index: u32) -> Result<(), Failed>
        requires below { index < self.now.used }
        requires opened { IsTrue O.told → IsOpen (O.trace site.old) self.now }
        ensures has { OnOk result (Has run.new index) }
        ensures run { IsTrue O.told → OnOk result (IsRunOf (O.trace site.old).now.image run.new) }
        ensures same { IsTrue O.told → O.trace site.new ≡ O.trace site.old }
        ensures cause { HasCause (O.faults site.old) (O.faults site.new) result }
        ensures puts { O.put_faults site.new ≡ O.put_faults site.old }
    {
        let count = RUN.min(self.used - index);
        let slots = &mut run.slots[..SLOT_LENGTH as usize * count as usize];
        site.read_at(self.record_at(index), slots)?;
        run.first = index;
        run.end = index + count;
        Ok(())
    }

    /// Reads the body of a record as `body` does. If the record is not in the run, the slots from it on are read into
    /// the run, so that the site is not called for each of them.
    pub fn body_in<O: Site>(
        &self,
        site: &mut O,
        run: &mut RecordRun,
        index: u32,
    ) -> Result<[u8; BODY_LENGTH], JournalFault>
        requires below { index < self.now.used }
        requires opened { IsTrue O.told → IsOpen (O.trace site.old) self.now }
        requires run { IsTrue O.told → IsRunOf (O.trace site.old).now.image run.old }
        ensures body { IsTrue O.told → IfOk result (λ body. slice_get (records (O.trace site.old).now.image) index
            ≡ Some body) }
        ensures run { IsTrue O.told → OnOk result (IsRunOf (O.trace site.old).now.image run.new) }
        ensures same { IsTrue O.told → O.trace site.new ≡ O.trace site.old }
        ensures fault { HasSiteFault (O.faults site.old) (O.faults site.new) result }
        ensures puts { O.put_faults site.new ≡ O.put_faults site.old }
    {
        if !run.has(index) {
            match self.read_run(site, run, index) {
                Ok(()) => {}
                Err(Failed) => return Err(JournalFault::SiteFault(site.faults())),
            }
        }
        Ok(run.body(index))
    }

    /// Where the record with this index begins.
    pub fn record_at(&self, index: u32) -> u64
        ensures is { result ≡ slot_at self.now.layout (bank_at self.now.layout self.now.bank) index }
        ensures place { (image : List ℕ) → IsJournalOf image self.now → result ≡ record_at image index }
        ensures short { result < 2 ^ 63 }
    {
        let bank = self.layout.bank_at(self.bank);
        self.layout.slot_at(bank, index)
    }

    /// Adds a record. After `Ok` every crash leaves an image that has it. After a fault the image may
    /// have it or not: no `append` or `turn` may follow, and the image has to be opened again.
    pub fn append<O: Site>(
        &mut self,
        site: &mut O,
        body: &[u8; BODY_LENGTH],
    ) -> Result<(), JournalFault>
        requires free { self.old.used < self.old.layout.slots }

        // `settle` was Ok, and no `append` or `turn` since then has failed.
        requires settled { IsTrue O.told → IsSettled (O.trace site.old) self.old }

        ensures stored { IsTrue O.told → OnOk result (IsSettled (O.trace site.new) self.new) }
        ensures holds { IsTrue O.told → OnOk result
            (held (O.trace site.new).now.image ≡ grown body.now (held (O.trace site.old).now.image)) }

        // A crash at any moment leaves an image that holds the old or the new; an opened form of it holds the new.
        ensures becomes { IsTrue O.told → EachImage (O.trace site.old) (O.trace site.new)
            (Becomes (held (O.trace site.old).now.image) (grown body.now (held (O.trace site.old).now.image))) }

        // What stands before the banks and past them is as it was.
        ensures beside { IsTrue O.told → OnOk result
            (KeepsBeside self.old.layout (O.trace site.old).now.image (O.trace site.new).now.image) }

        // After `Ok` one slot more is used, and else none.
        ensures counted { OnOk result (self.new ≡ record self.old { used = self.old.used + 1 }) }
        ensures not_counted { OnErr result (self.new ≡ self.old) }
        ensures fault { HasSiteFault (O.faults site.old) (O.faults site.new) result }
        ensures puts { O.put_faults site.new ≡ O.put_faults site.old }
    {
        match store_record(site, self.record_at(self.used), body) {
            Ok(()) => {
                self.used += 1;
                Ok(())
            }
            Err(Failed) => Err(JournalFault::SiteFault(site.faults())),
        }
    }

    /// Writes this content in place of the content and the records. After `Ok` every crash leaves an
    /// image that has it, and no octet of the old bank. After a fault the image may have it or not: no
    /// `append` or `turn` may follow, and the image has to be opened again.
    pub fn turn<O: Site>(&mut self, site: &mut O, content: &[u8]) -> Result<(), JournalFault>
        requires sized { length content.now ≡ self.old.layout.content_length }

        // `settle` was Ok, and no `append` or `turn` since then has failed.
        requires settled { IsTrue O.told → IsSettled (O.trace site.old) self.old }

        ensures stored { IsTrue O.told → OnOk result (IsSettled (O.trace site.new) self.new) }
        ensures holds { IsTrue O.told → OnOk result
            (held (O.trace site.new).now.image ≡ turned content.now (held (O.trace site.old).now.image)) }

        // A crash at any moment leaves an image that holds the old or the new; an opened form of it holds the new.
        ensures becomes { IsTrue O.told → EachImage (O.trace site.old) (O.trace site.new)
            (Becomes (held (O.trace site.old).now.image) (turned content.now (held (O.trace site.old).now.image))) }

        // The old octets are gone: each octet of all banks is stated, in each image that a crash may leave.
        ensures rest { IsTrue O.told → OnOk result ((image : List ℕ) → Leaves (O.trace site.new).now image
            → IsRest image self.new.bank self.new.generation content.now) }

        // What stands before the banks and past them is as it was.
        ensures beside { IsTrue O.told → OnOk result
            (KeepsBeside self.old.layout (O.trace site.old).now.image (O.trace site.new).now.image) }

        // After `Ok` the other bank is the current one, with the next generation and no slot used.
        ensures counted { OnOk result (self.new ≡ record self.old {
          used = 0;
          bank = other self.old.bank;
          generation = next self.old.generation;
        }) }
        ensures not_counted { OnErr result (self.new ≡ self.old) }
        ensures fault { HasSiteFault (O.faults site.old) (O.faults site.new) result }
        ensures puts { O.put_faults site.new ≡ O.put_faults site.old }
    {
        let from = self.layout.bank_at(self.bank);
        let generation = next_generation(self.generation);
        let bank = self.bank.other();
        let to = self.layout.bank_at(bank);
        match turn_banks(site, self.layout, from, to, generation, content) {
            Ok(()) => {
                self.used = 0;
                self.bank = bank;
                self.generation = generation;
                Ok(())
            }
            Err(Failed) => Err(JournalFault::SiteFault(site.faults())),
        }
    }

    /// The number of the image's version, 1 or 2.
    pub fn version(&self) -> u8
        ensures is { result ≡ version_number (version_of self.now.layout.form) }
        ensures of_image { (image : List ℕ) → IsJournalOf image self.now
            → result ≡ version_number (version_in image) }
    {
        match self.content_version() {
            Version::One => 1,
            Version::Two => 2,
        }
    }

    /// The version of the image: how much its contents have room for.
    pub fn content_version(&self) -> Version
        ensures is { result ≡ version_of self.now.layout.form }
        ensures of_image { (image : List ℕ) → IsJournalOf image self.now → result ≡ version_in image }
        ensures sized { self.now.layout.content_length ≡ content_length_of result }
        ensures one { result ≡ Version.One → self.now.layout.form ≡ HeaderForm.Old }
    {
        self.layout.form.version()
    }

    /// Makes an image of version 2 of one of version 1, with this content and no records: writes banks
    /// behind the old ones, then the octet that says so, then zeros over the old banks. After `Ok` every
    /// crash leaves an image of version 2 that has the content, and no octet of the old banks. After a
    /// fault the image may be of either version: no `append`, `turn` or `migrate` may follow, and the
    /// image has to be opened again.
    pub fn migrate<O: Site>(&mut self, site: &mut O, content: &[u8]) -> Result<(), JournalFault>
        requires version { self.old.layout.form ≡ HeaderForm.Old }
        requires sized { length content.now ≡ CONTENT_LENGTH_TWO }

        // `settle` was Ok, and no `append` or `turn` since then has failed.
        requires settled { IsTrue O.told → IsSettled (O.trace site.old) self.old }

        ensures stored { IsTrue O.told → OnOk result (IsSettled (O.trace site.new) self.new) }
        ensures holds { IsTrue O.told → OnOk result
            (held (O.trace site.new).now.image ≡ migrated content.now (held (O.trace site.old).now.image)) }

        // A crash at any moment leaves an image that holds the old or the new; an opened form of it holds the new.
        ensures becomes { IsTrue O.told → EachImage (O.trace site.old) (O.trace site.new)
            (Becomes (held (O.trace site.old).now.image) (migrated content.now (held (O.trace site.old).now.image))) }

        // The old octets are gone: each octet of all banks is stated, in each image that a crash may leave.
        ensures rest { IsTrue O.told → OnOk result ((image : List ℕ) → Leaves (O.trace site.new).now image
            → IsRest image self.new.bank self.new.generation content.now) }

        // What stands before all banks is as it was, but for the octet that migrates.
        ensures before { IsTrue O.told → OnOk result ((i : ℕ) → (i < MIGRATED_AT)
            ⊎ ((MIGRATED_AT < i) × (i < BANKS_AT))
            → slice_index (O.trace site.new).now.image i ≡ slice_index (O.trace site.old).now.image i) }

        // What stands past the new banks is as it was; the image ends with them, or where it ended if that is later.
        ensures past { IsTrue O.told → OnOk result (KeepsPast (image_end self.new.layout)
            (O.trace site.old).now.image (O.trace site.new).now.image) }

        // After `Ok` the first bank of version 2 is the current one, and no slot is used.
        ensures counted { OnOk result (self.new ≡ record {
          plan_length = self.old.plan_length;
          layout = layout_of HeaderForm.Migrated self.old.layout.slots;
          bank = Bank.First;
          generation = FIRST_GENERATION;
          used = 0;
        }) }
        ensures not_counted { OnErr result (self.new ≡ self.old) }
        ensures fault { HasSiteFault (O.faults site.old) (O.faults site.new) result }
        ensures puts { O.put_faults site.new ≡ O.put_faults site.old }
    {
        let layout = Layout::new(HeaderForm::Migrated, self.layout.slots);
        match migrate_banks(site, layout, content) {
            Ok(()) => {
                self.layout = layout;
                self.bank = Bank::First;
                self.generation = FIRST_GENERATION;
                self.used = 0;
                Ok(())
            }
            Err(Failed) => Err(JournalFault::SiteFault(site.faults())),
        }
    }

    /// How many slots hold records.
    pub fn used(&self) -> u32
        ensures used { result ≡ self.now.used }
        ensures within { result ≤ self.now.layout.slots }
    {
        self.used
    }

    /// How many slots a bank has.
    pub fn slots(&self) -> u32
        ensures slots { result ≡ self.now.layout.slots }
        ensures most { result ≤ MOST_SLOTS }
    {
        self.layout.slots
    }
}
