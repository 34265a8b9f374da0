//! Where things stand in an image.
use case_lines::{Page, number_in, set_octets};

/// The octets of the header.
pub const HEADER: usize = 512;

/// Where the last octet of the magic stands.
const VERSION: usize = 8;

/// Where the number of slots stands.
const SLOT_COUNT: usize = 13;

/// Where the octet stands that is 1 once an image of version 1 is migrated.
pub const MIGRATED: usize = 17;

/// Where the banks begin, but for those of a migrated image.
pub const BANKS: usize = 66_048;

/// Where the content begins in a bank, the rows of keys, and the mark in such a row.
pub const CONTENT: usize = 9;

const KEY_ROWS: usize = 512;

const MARK: usize = 68;

/// What a migration takes from a bank of version 1: the counts of keys and associations, and their rows. Where it
/// stands, where it goes, and how many octets it has.
const MOVED: [(usize, usize, usize); 4] = [
    (CONTENT, CONTENT, 2),
    (CONTENT + 2, CONTENT + 3, 1),
    (KEY_ROWS, KEY_ROWS, 49_152),
    (49_664, 393_728, 2_048),
];

/// Where the slots begin in a bank of each version.
const SLOTS_ONE: usize = 51_712;

const SLOTS_TWO: usize = 401_920;

/// The octets of a slot.
pub const SLOT: usize = 512;

/// Where the mark stands in a slot whose record says a mark and a floor, and the octets of both.
const RECORD_MARK: usize = 6;

const MARKS: usize = 16;

/// The most slots of a bank.
const MOST_SLOTS: usize = 65_536;

/// The forms of an image.
#[derive(Clone, Copy, PartialEq, Eq)]
pub enum Form {
    /// Of version 1.
    Old,
    /// Of version 2, and once of version 1.
    Migrated,
    /// Of version 2 from the start.
    New,
}

impl Form {
    /// Where the slots begin in a bank.
    fn slots(self) -> usize {
        match self {
            Form::Old => SLOTS_ONE,
            Form::Migrated | Form::New => SLOTS_TWO,
        }
    }

    /// Where the banks begin, of so many slots each.
    fn banks(self, slots: usize) -> usize {
        match self {
            Form::Old | Form::New => BANKS,
            Form::Migrated => Form::Old.end(slots),
        }
    }

    /// Where the banks end, of so many slots each.
    pub fn end(self, slots: usize) -> usize {
        let room = SLOT * slots.min(MOST_SLOTS);
        let one = BANKS + 2 * (SLOTS_ONE + room);
        let two = 2 * (SLOTS_TWO + room);
        match self {
            Form::Old => one,
            Form::Migrated => one + two,
            Form::New => BANKS + two,
        }
    }
}

/// Where the banks of an image begin, how long they are, and where their slots begin in them.
#[derive(Clone, Copy)]
pub struct Layout {
    pub banks: usize,
    pub bank_length: usize,
    pub slots: usize,
}

/// Sets so many of these from a place on to 0, as far as they reach.
fn clear(octets: &mut [u8], at: usize, length: usize) {
    let (_, behind) = octets.split_at_mut(at.min(octets.len()));
    let end = length.min(behind.len());
    behind[..end].fill(0);
}

/// An image of two banks, of which one is open.
#[derive(Clone, Copy)]
pub struct Image<'a> {
    pub octets: &'a [u8],
}

impl<'a> Image<'a> {
    pub fn octet(self, place: usize) -> u8 {
        self.octets.get(place).copied().unwrap_or(0)
    }

    /// So many octets from a place on.
    pub fn part(self, at: usize, length: usize) -> &'a [u8] {
        let end = at.saturating_add(length);
        self.octets.get(at..end).unwrap_or(&[])
    }

    pub fn form(self) -> Form {
        if self.octet(VERSION) == b'2' {
            Form::New
        } else if self.octet(MIGRATED) == 1 {
            Form::Migrated
        } else {
            Form::Old
        }
    }

    /// How many slots a bank has.
    pub fn slot_count(self) -> usize {
        number_in(self.octets, SLOT_COUNT, SLOT_COUNT + 4) as usize
    }

    /// Where the banks stand.
    pub fn layout(self) -> Layout {
        let count = self.slot_count();
        let form = self.form();
        let banks = form.banks(count);
        Layout {
            banks,
            bank_length: form.end(count).saturating_sub(banks) / 2,
            slots: form.slots(),
        }
    }

    /// Where the open bank begins, and where the other one does.
    fn places(self) -> (usize, usize) {
        let layout = self.layout();
        let second = layout.banks.saturating_add(layout.bank_length);
        if self.octet(layout.banks) == 1 {
            (layout.banks, second)
        } else {
            (second, layout.banks)
        }
    }

    /// Where the open bank begins.
    pub fn current(self) -> usize {
        self.places().0
    }

    /// The gate of the first slot that is not open.
    pub fn first_closed(self) -> usize {
        let layout = self.layout();
        let mut place = self.current().saturating_add(layout.slots);
        for _ in 0..layout.bank_length / SLOT {
            if self.octet(place) != 1 {
                break;
            }
            place = place.saturating_add(SLOT);
        }
        place
    }

    /// Sets to zero what an opening does in an image of version 2 whose open bank is this one's: the gate of the first
    /// closed slot, the other bank, and the banks of version 1.
    pub fn put_at_rest(self, changed: &mut [u8]) {
        let gate = Image { octets: changed }.first_closed();
        clear(changed, gate, 1);
        let (_, other) = self.places();
        let layout = self.layout();
        clear(changed, other, layout.bank_length);
        clear(changed, BANKS, layout.banks.saturating_sub(BANKS));
    }

    /// Writes the image that a changed one of version 1 is migrated to over zeros: header and plan, and behind zeros a
    /// bank with the rows of the open one.
    pub fn migrate(self, changed: Image<'_>, octets: &mut [u8]) {
        set_octets(octets, 0, changed.part(0, BANKS));
        set_octets(octets, MIGRATED, &[1]);
        let bank = Form::Migrated.banks(self.slot_count());
        let old = self.current();
        set_octets(octets, bank, &[1, 0, 0, 0, 0, 0, 0, 0, 1]);
        changed.put_rows(old, octets, bank);
        changed.put_marks(old.saturating_add(SLOTS_ONE), octets, bank);
    }

    /// Writes how many rows the open bank has, and the rows.
    fn put_rows(self, old: usize, octets: &mut [u8], bank: usize) {
        for (from, to, length) in MOVED {
            let part = self.part(old.saturating_add(from), length);
            set_octets(octets, bank.saturating_add(to), part);
        }
    }

    /// Writes the mark and the floor of the record of a slot, if there is one, into the row of the first key.
    fn put_marks(self, slot: usize, octets: &mut [u8], bank: usize) {
        if self.octet(slot) == 1 {
            let marks = self.part(slot.saturating_add(RECORD_MARK), MARKS);
            set_octets(octets, bank.saturating_add(KEY_ROWS + MARK), marks);
        }
    }
}

/// Lets the two banks of an image change places.
pub fn swap_banks(octets: &mut [u8], page: &mut Page) {
    let old = page.copy(octets);
    let image = Image { octets: &old };
    let layout = image.layout();
    let second = layout.banks.saturating_add(layout.bank_length);
    set_octets(octets, layout.banks, image.part(second, layout.bank_length));
    set_octets(octets, second, image.part(layout.banks, layout.bank_length));
}
