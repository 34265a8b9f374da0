//! Each octet of a part of an image changed, what is due of the changed image by the octet's place and its new value,
//! and what `stat` says judged.
use crate::image::{BANKS, CONTENT, Form, HEADER, Image, MIGRATED, SLOT};
use case_lines::{Page, length_at, number_in, set_octets, words_of};
use sdls_outside::{MemSite, SureSource};
use sdls_run::status::{DONE, NO_STATE};
use sdls_run::{Outcome, run_plain};
use std::str;

/// What `stat` is to say.
#[derive(Clone, Copy)]
enum Due {
    /// The image is refused with this offset.
    Refused(usize),
    /// What it said of the image before the change.
    Shown,
    /// What it said of the image without its record.
    Bare,
    /// What it said but for the mark and the floor of the key that the record names.
    Marks(u64, u64),
}

/// The bounds of slots, the room of a plan, and the end of a key of the CMAC class.
const LEAST_SLOTS: u64 = 16;

const MOST_SLOTS: u64 = 65_536;

const PLAN_ROOM: u64 = 65_536;

const END: u64 = 4_294_967_296;

impl Image<'_> {
    /// The slots are no plan's. With slots in their bounds the image is too short before that is seen.
    fn due_of_slots(self, slots: u64) -> Due {
        let length = self.octets.len();
        let is_bounded = LEAST_SLOTS <= slots && slots <= MOST_SLOTS;
        if is_bounded && length < self.form().end(slots as usize) {
            return Due::Refused(length);
        }
        Due::Refused(13)
    }

    /// The octet that migrates. An image of version 1 is too short for a migrated one, and is migrated if the octet has
    /// any other value; a migrated one has no open bank where those of version 1 begin.
    fn due_of_form(self, value: u8) -> Due {
        match self.form() {
            Form::Old if value == 1 => Due::Refused(self.octets.len()),
            Form::Old => Due::Shown,
            Form::Migrated => Due::Refused(BANKS),
            Form::New => Due::Refused(MIGRATED),
        }
    }

    /// In the header: the gate, the magic, the length of the plan, the slots, the octet that migrates, zeros. A plan
    /// that is longer or shorter than it was ends in zeros or in the midst of a line.
    fn due_of_header(self, place: usize, changed: Image<'_>) -> Due {
        match place {
            0 => Due::Refused(0),
            1..=8 => Due::Refused(1),
            9..=12 if number_in(changed.octets, 9, 13) > PLAN_ROOM => Due::Refused(9),
            9..=12 => Due::Refused(512),
            13..=16 => self.due_of_slots(number_in(changed.octets, 13, 17)),
            MIGRATED => self.due_of_form(changed.octet(MIGRATED)),
            _ if self.form() == Form::New => Due::Refused(MIGRATED),
            _ => Due::Refused(MIGRATED + 1),
        }
    }

    /// In the body of an open slot, whose record says a mark and a floor. Each other octet is a kind, a length, a key
    /// or a zero, and has one value alone.
    fn due_of_record(self, slot: usize, place: usize, changed: Image<'_>) -> Due {
        let (mark_at, floor_at) = (slot.saturating_add(6), slot.saturating_add(14));
        let end = slot.saturating_add(22);
        let mark = number_in(changed.octets, mark_at, floor_at);
        let floor = number_in(changed.octets, floor_at, end);
        let is_field = mark_at <= place && place < end;
        if is_field && mark >= 1 && mark <= END && floor < END {
            return Due::Marks(mark, floor);
        }
        Due::Refused(slot)
    }

    /// In a slot of the open bank, which has one record at most.
    fn due_of_slot(self, slot: usize, place: usize, changed: Image<'_>) -> Due {
        let closed = self.first_closed();
        if slot < closed && place == slot {
            Due::Bare
        } else if slot < closed {
            self.due_of_record(slot, place, changed)
        } else if place == slot && (slot > closed || changed.octet(place) == 1) {
            Due::Refused(slot)
        } else {
            Due::Shown
        }
    }

    /// In the open bank: the gate, the generation, the content, the slots.
    fn due_of_bank(self, offset: usize, changed: Image<'_>) -> Due {
        let (layout, bank) = (self.layout(), self.current());
        if offset == 0 {
            return Due::Refused(layout.banks);
        }
        if offset < CONTENT {
            return Due::Shown;
        }
        let Some(behind) = offset.checked_sub(layout.slots) else {
            return Due::Refused(bank.saturating_add(CONTENT));
        };
        let place = bank.saturating_add(offset);
        self.due_of_slot(place.saturating_sub(behind % SLOT), place, changed)
    }

    /// What is due of an image in which the octet at a place of the header or of a bank was changed. In the bank that is
    /// closed each octet may be any, also where the banks of version 1 were; if its gate is opened, its generation is
    /// the one before.
    fn due(self, place: usize, changed: Image<'_>) -> Due {
        if place < HEADER {
            return self.due_of_header(place, changed);
        }
        let length = self.layout().bank_length;
        match place.checked_sub(self.current()) {
            Some(offset) if offset < length => self.due_of_bank(offset, changed),
            _ => Due::Shown,
        }
    }
}

/// The values that an octet is set to.
const VALUES: [u8; 4] = [0, 1, 2, 255];

/// The call `stat`: its status and the site. What it ensures is not said again: the clauses would be carried through
/// each step behind it.
fn called(words: &[String], image: &[u8], page: &mut Page) -> (u8, MemSite) {
    let image = page.copy(image);
    let mut source = SureSource::new(Vec::new(page.alloc()));
    let site = MemSite::new(page.alloc(), image, Vec::new(page.alloc()), None);
    let Outcome {
        status,
        site,
        entries: _,
    } = run_plain(page.alloc(), words, &mut source, site);
    (status, site)
}

/// What `stat` says of an image.
fn said(words: &[String], image: &[u8], page: &mut Page) -> Page {
    let (_, site) = called(words, image, page);
    let mut said = Page::new(page.alloc());
    said.push_str(str::from_utf8(site.sunk()).unwrap_or("no text"));
    said
}

/// What an opening leaves of a changed image: one at rest, of version 2.
fn left_of(image: Image<'_>, changed: &[u8], page: &mut Page) -> Vec<u8> {
    if image.form() == Form::Old {
        let mut left = Vec::new(page.alloc());
        page.check(left.resize(Form::Migrated.end(image.slot_count()), 0));
        image.migrate(Image { octets: changed }, &mut left);
        return left;
    }
    let mut left = page.copy(changed);
    image.put_at_rest(&mut left);
    left
}

/// An image, the words of `stat`, what it says of the image, and of it without its record. The changed image, the text
/// that is due of it, and how many changes were refused and how many showed a state.
#[derive(Drop)]
struct Judge<'a> {
    image: Image<'a>,
    words: Vec<String>,
    shown: Page,
    bare: Page,
    changed: Vec<u8>,
    due: Page,
    refused: u64,
    shows: u64,
}

impl<'a> Judge<'a> {
    /// Asks `stat`, by these words, of an image and of it without its record.
    fn new(image: Image<'a>, words: Vec<String>, page: &mut Page) -> Judge<'a> {
        let shown = said(&words, image.octets, page);
        let mut changed = page.copy(image.octets);
        let gate = image.first_closed().saturating_sub(SLOT);
        set_octets(&mut changed, gate, &[0]);
        let bare = said(&words, &changed, page);
        set_octets(&mut changed, gate, &[image.octet(gate)]);
        Judge {
            image,
            words,
            shown,
            bare,
            changed,
            due: Page::new(page.alloc()),
            refused: 0,
            shows: 0,
        }
    }

    /// Writes the text in which the first key, 32769, has this mark and floor.
    fn set_marks_due(&mut self, mark: u64, floor: u64) {
        let shown = self.shown.written().unwrap_or("");
        let (slots, behind) = shown.split_once('\n').unwrap_or(("", ""));
        let (_, rest) = behind.split_once('\n').unwrap_or(("", ""));
        write!(self.due, "{slots}\nkey 32769 active mark {mark}");
        write!(self.due, " floor {floor}\n{rest}");
    }

    /// Writes the text that is due. Returns the status that is due.
    fn set_due(&mut self, due: Due) -> u8 {
        self.due.clear();
        match due {
            Due::Refused(offset) => {
                write!(self.due, "image at {offset}\n");
                return NO_STATE;
            }
            Due::Shown => self.due.push_str(self.shown.written().unwrap_or("")),
            Due::Bare => self.due.push_str(self.bare.written().unwrap_or("")),
            Due::Marks(mark, floor) => self.set_marks_due(mark, floor),
        }
        DONE
    }

    /// Whether `stat` left this of the changed image: what it was, or what an opening leaves.
    fn is_left(&mut self, status: u8, left: &[u8], page: &mut Page) -> bool {
        if status == NO_STATE {
            self.refused = self.refused.saturating_add(1);
            return left == self.changed.as_slice();
        }
        self.shows = self.shows.saturating_add(1);
        left == left_of(self.image, &self.changed, page).as_slice()
    }

    /// Whether `stat` says of the changed image what is due, and leaves it as it was if it is refused, and else at rest
    /// and of version 2.
    fn is_due(&mut self, due: Due, page: &mut Page) -> bool {
        let wanted = self.set_due(due);
        let (status, site) = called(&self.words, &self.changed, page);
        status == wanted
            && self.due.written() == str::from_utf8(site.sunk()).ok()
            && self.is_left(status, site.image(), page)
    }

    /// Sets the octet at a place to each value that it has not. Returns the first value with another answer than is
    /// due.
    fn judge_octet(&mut self, place: usize, page: &mut Page) -> Option<u8> {
        let old = self.image.octet(place);
        for value in VALUES {
            set_octets(&mut self.changed, place, &[value]);
            let octets = &self.changed;
            let due = self.image.due(place, Image { octets });
            if value != old && !self.is_due(due, page) {
                return Some(value);
            }
        }
        set_octets(&mut self.changed, place, &[old]);
        None
    }
}

/// Writes how many changes of some octets of an image were refused, and how many showed a state; or the first one with
/// another answer: `OFFSET LENGTH`.
pub fn judge_octets(octets: &[u8], line: &str, page: &mut Page) {
    let Ok(words) = words_of(page.alloc(), "stat") else {
        return page.spoil();
    };
    let mut judge = Judge::new(Image { octets }, words, page);
    let from = length_at(line, 0);
    for place in from..from.saturating_add(length_at(line, 1)) {
        if let Some(value) = judge.judge_octet(place, page) {
            return write!(page, "octet {place} as {value}: not what is due");
        }
    }
    write!(page, "{} refused, {} shown", judge.refused, judge.shows);
}
