// Where what stands in an image of two banks, with the laws of that, and the runs in which records are read. All
// numbers in it are big-endian.
ghost use Rattle.std.specs.Prelude.{◌≡◌, ◌+◌, ◌*◌, ◌^◌, ◌<◌, ◌≤◌, ◌⊎◌, ℕ, List, length, take, None, ◌↔◌, ◌-◌, IsTrue};
ghost use Rattle.sdls_base.specs.Version.{content_length_of};
ghost use Rattle.disk_journal.specs.Banks.{version_of, magic_of, zeros_at_of, banks_of, layout_of, IsLayout};
ghost use Rattle.disk_journal.specs.Banks.{bank_length, bank_at, image_end, slot_at, other, next};
ghost use Rattle.disk_journal.specs.declared.layout.TheConstants.{PLAN_ROOM, LEAST_SLOTS, MOST_SLOTS, OPEN, BANKS_AT};
ghost use Rattle.disk_journal.specs.declared.layout.Bank.{Bank};
ghost use Rattle.disk_journal.specs.declared.layout.HeaderForm.{HeaderForm};
ghost use Rattle.disk_journal.specs.declared.layout.HeaderForm.TheVariants.{Old, New};
ghost use Rattle.disk_journal.specs.Image.{image_layout};
ghost use Rattle.disk_journal.specs.Rest.{IsRest};
ghost use Rattle.disk_journal.specs.Initial.{front_image, rest_image, BeginsAtRest};
ghost use Rattle.disk_journal.specs.Fault.{image_fault};
ghost use Rattle.disk_journal.specs.Forms.{HasOneClosed, Regates, StaysWithin};
ghost use Rattle.disk_journal.specs.Runs.{body_in, Has, IsRunOf};

use sdls_base::{BODY_LENGTH, CONTENT_LENGTH_ONE, Version};
use thiserror::Error;

/// The octets of the header, with which the image begins.
pub const HEADER_LENGTH: u64 = 512;

/// Where the plan stands.
pub const PLAN_AT: u64 = HEADER_LENGTH;

/// The octets after the header that the plan may fill.
pub const PLAN_ROOM: u64 = 65_536;

/// The octets of a slot: its gate, then a record's body.
pub const SLOT_LENGTH: u64 = 512;

/// The fewest slots of an image.
pub const LEAST_SLOTS: u32 = 16;

/// The most slots of an image.
pub const MOST_SLOTS: u32 = 65_536;

/// Where the magic stands in the header.
pub const MAGIC_AT: u64 = 1;

/// Where the length of the plan stands in the header.
pub const PLAN_LENGTH_AT: u64 = 9;

/// Where the number of slots stands in the header.
pub const SLOT_COUNT_AT: u64 = 13;

/// The octets of a number in the header.
pub const FIELD_LENGTH: usize = 4;

/// Where the zeros begin that fill the header.
pub const ZEROS_AT: u64 = 17;

/// The gate of a header that is written whole, and of a slot that holds a record.
pub const OPEN: u8 = 1;

/// The gate of a slot that is free.
pub const CLOSED: u8 = 0;

/// What a header of version 1 has after its gate, also one whose image was migrated.
pub const MAGIC_ONE: [u8; 8] = *b"SDLSBNK1";

/// What a header of version 2 has after its gate.
pub const MAGIC_TWO: [u8; 8] = *b"SDLSBNK2";

/// Where the octet stands that is 1 once an image of version 1 is migrated.
pub const MIGRATED_AT: u64 = ZEROS_AT;

/// Where the banks begin, behind the header and the plan; those of a migrated image begin behind the banks of
/// version 1.
pub const BANKS_AT: u64 = HEADER_LENGTH + PLAN_ROOM;

/// Where the generation stands in a bank, behind its gate.
pub const GENERATION_AT: u64 = 1;

/// The octets of a generation.
pub const GENERATION_LENGTH: usize = 8;

/// Where the content stands in a bank.
pub const CONTENT_AT: u64 = 9;

/// The generation of the bank that an image begins with.
pub const FIRST_GENERATION: u64 = 1;

/// The most slots, or blocks of their length, that are read or written in a call.
pub(crate) const RUN: u32 = 64;

/// The octets of so many.
pub(crate) const RUN_LENGTH: usize = RUN as usize * SLOT_LENGTH as usize;

/// One of the two banks of an image.
#[derive(Clone, Copy, Debug, PartialEq, Eq)]
pub enum Bank {
    First,
    Second,
}

impl Bank {
    /// The other one.
    pub fn other(self) -> Bank
        ensures { result ≡ other self }
    {
        match self {
            Bank::First => Bank::Second,
            Bank::Second => Bank::First,
        }
    }
}

/// The generation after this one.
pub(crate) fn next_generation(generation: u64) -> u64
    ensures { result ≡ next generation }
{
    generation.wrapping_add(1)
}

/// What the header of an image says of its version, and so of where its banks stand.
#[derive(Clone, Copy, Debug, PartialEq, Eq)]
pub enum HeaderForm {
    /// The image is of version 1.
    Old,
    /// The image was of version 1, and is of version 2 now.
    Migrated,
    /// The image has been of version 2 from the start.
    New,
}

impl HeaderForm {
    /// The version of an image whose header has this form.
    pub fn version(self) -> Version
        ensures { result ≡ version_of self }
    {
        match self {
            HeaderForm::Old => Version::One,
            HeaderForm::Migrated | HeaderForm::New => Version::Two,
        }
    }

    /// What the header has after its gate.
    pub(crate) fn magic(self) -> [u8; 8]
        ensures { result ≡ magic_of self }
    {
        match self {
            HeaderForm::Old | HeaderForm::Migrated => MAGIC_ONE,
            HeaderForm::New => MAGIC_TWO,
        }
    }

    /// Where the zeros begin that fill the header.
    pub(crate) fn zeros_at(self) -> u64
        ensures { result ≡ zeros_at_of self }
    {
        match self {
            HeaderForm::Old | HeaderForm::Migrated => MIGRATED_AT + 1,
            HeaderForm::New => ZEROS_AT,
        }
    }

    /// Where the banks begin, of an image whose banks have so many slots.
    fn banks(self, slots: u32) -> u64
        ensures { result ≡ banks_of self slots }
    {
        match self {
            HeaderForm::Old | HeaderForm::New => BANKS_AT,
            HeaderForm::Migrated => BANKS_AT
                + 2 * (CONTENT_AT + CONTENT_LENGTH_ONE as u64 + SLOT_LENGTH * slots as u64),
        }
    }
}

/// Where the banks of an image begin, and how long they are. Each offset in a bank is a function of it.
#[derive(Clone, Copy, Debug)]
pub struct Layout {
    /// The form of the image's header.
    pub form: HeaderForm,
    /// Where the first bank begins.
    pub banks: u64,
    /// The octets of a content.
    pub content_length: u64,
    /// The slots of a bank.
    pub slots: u32,
}

impl Layout {
    /// The layout of an image whose header has this form, and whose banks have so many slots.
    pub fn new(form: HeaderForm, slots: u32) -> Layout
        requires { slots ≤ MOST_SLOTS }
        ensures is { result ≡ layout_of form slots }
        ensures layout { IsLayout result }
    {
        Layout {
            form,
            banks: form.banks(slots),
            content_length: form.version().content_length() as u64,
            slots,
        }
    }

    /// The octets of a bank.
    pub(crate) fn bank_length(self) -> u64
        requires { image_end self < 2 ^ 64 }
        ensures { result ≡ bank_length self }
    {
        CONTENT_AT + self.content_length + SLOT_LENGTH * self.slots as u64
    }

    /// Where a bank begins.
    pub(crate) fn bank_at(self, bank: Bank) -> u64
        requires { image_end self < 2 ^ 64 }
        ensures { result ≡ bank_at self bank }
    {
        match bank {
            Bank::First => self.banks,
            Bank::Second => self.banks + self.bank_length(),
        }
    }

    /// Where the last bank ends.
    pub(crate) fn end(self) -> u64
        requires { image_end self < 2 ^ 64 }
        ensures { result ≡ image_end self }
    {
        self.banks + 2 * self.bank_length()
    }

    /// Where slot `index` begins, of the bank that begins at `bank`.
    pub(crate) fn slot_at(self, bank: u64, index: u32) -> u64
        requires { slot_at self bank index < 2 ^ 64 }
        ensures { result ≡ slot_at self bank index }
    {
        bank + CONTENT_AT + self.content_length + SLOT_LENGTH * index as u64
    }
}

/// Law: an opening that is cut off while gates are closed leaves an image that holds what the image
/// held, or one of its opened forms; and no opened form but the image and its opened forms.
pub fn opening_stays()
    ensures { (image left : List ℕ) → image_fault image ≡ None → HasOneClosed image → Regates image left
        → StaysWithin image left }
{}

/// Law: the image that `create` or `create_two` writes opens, at rest and with a zero other bank, and holds
/// the plan, the slots, the content and no records.
pub fn initial_image_opens()
    ensures { (form : HeaderForm) (plan text : List ℕ) (slots : ℕ) → (form ≡ Old) ⊎ (form ≡ New)
        → length plan ≤ PLAN_ROOM → LEAST_SLOTS ≤ slots → slots ≤ MOST_SLOTS
        → length text ≡ content_length_of (version_of form) → BeginsAtRest form plan slots text }
{}

/// Law: if each octet of all banks is stated, as after a turn or a migration, and what stands before them is
/// the front of a plan, the image is the plan with one bank at rest, from its first octet to its last.
pub fn rest_is_whole()
    ensures { (form : HeaderForm) (image plan text : List ℕ) (slots generation : ℕ) (bank : Bank)
        → image_layout image ≡ layout_of form slots
        → length image ≡ image_end (layout_of form slots) → take BANKS_AT image ≡ front_image form OPEN plan slots
        → IsRest image bank generation text → image ≡ rest_image form OPEN plan slots text generation bank }
{}

/// Why a call on a journal failed.
#[derive(Clone, Copy, Debug, PartialEq, Eq, Error)]
pub enum JournalFault {
    /// The site failed; the count of its faults, which rose in the call.
    #[error("site failed, fault {0}")]
    SiteFault(u64),
    /// The image does not open; the offset of the first check that fails. From `open` alone.
    #[error("image does not open, fault at offset {0}")]
    Image(u64),
}

/// The slots of records that were read in one call.
#[derive(Drop)]
pub struct RecordRun {
    /// The slots, in the front.
    pub(crate) slots: [u8; RUN_LENGTH],
    /// The index of the first of the records, and the one behind the last.
    pub(crate) first: u32,
    pub(crate) end: u32,
}

impl RecordRun {
    /// A run of no records.
    pub fn new() -> RecordRun
        ensures { (image : List ℕ) → IsRunOf image result }
    {
        RecordRun {
            slots: [0; RUN_LENGTH],
            first: 0,
            end: 0,
        }
    }

    /// Whether the record with this index is in the run.
    pub(crate) fn has(&self, index: u32) -> bool
        ensures { IsTrue result ↔ Has self.now index }
    {
        self.first <= index && index < self.end && index - self.first < RUN
    }

    /// The body of a record that is in the run.
    pub(crate) fn body(&self, index: u32) -> [u8; BODY_LENGTH]
        requires { Has self.now index }
        ensures { result ≡ body_in self.now.slots (index - self.now.first) }
    {
        let mut body = [0; BODY_LENGTH];
        let at = SLOT_LENGTH as usize * (index - self.first) as usize + 1;
        body.copy_from_slice(&self.slots[at..at + BODY_LENGTH]);
        body
    }
}
