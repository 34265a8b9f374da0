//! The steps, and what they answer.

//! A unit on one lane: the book, and the next number of each key.
ghost use Rattle.std.specs.Prelude.{◌≡◌, ◌≤◌, ℕ, ◌<◌, None, true, length, slice_index};
ghost use Rattle.frame_shield.specs.Binding.{IsBinding, clear_fault};

use case_lines::{
    Answers, Digits, Gathered, Page, cut, direction_name, key_state_name, length_at, number_at,
    numbers, octets_at, replace, sa_state_name, set_octets_at, suite_name, word_at,
};
use case_units::{
    crash_of, image_of, image_of_version_one, write_open_reply, write_reply, write_shield_fault,
};
use ep_codec::{command_without_fault, one_command};
use ep_core::Need;
use frame_shield::{Binding, fits, shield};
use key_book::KeyRow;
use sa_book::SaRow;
use sdls_base::{KeyId, Seen};
use sdls_outside::{MemSite, Site};
use std::alloc::Global;
use std::marker::Model;
use std::mem;
use unit_book::{Book, BookFault};
use unit_image::OpenFault;

/// The lines of a plan and of a life that were gathered, the image as it lies and the one that was kept, the calls that
/// are to fail, and the unit that is open.
#[derive(Drop)]
pub struct Table {
    plan: Gathered,
    life: Gathered,
    image: Vec<u8>,
    kept: Vec<u8>,
    failing: Vec<u64>,
    unit: Option<Unit<MemSite>>,
}

impl Table {
    /// A table of which nothing was read.
    pub fn new(alloc: Global) -> Table {
        Table {
            plan: Gathered::new(alloc),
            life: Gathered::new(alloc),
            image: Vec::new(alloc),
            kept: Vec::new(alloc),
            failing: Vec::new(alloc),
            unit: None,
        }
    }

    fn write_length(&self, page: &mut Page) {
        write!(page, "image of {}", self.image.len());
    }

    /// Takes the image that was made of the plan, or none.
    fn create(&mut self, word: &str, page: &mut Page) {
        let text = self.plan.as_str().as_bytes();
        let image = match word {
            "create" => image_of(page.alloc(), text),
            _ => image_of_version_one(page.alloc(), text),
        };
        self.image = image.unwrap_or(Vec::new(page.alloc()));
        self.plan.clear();
        self.write_length(page);
    }

    /// Why the image was not opened, and whether the site holds it still.
    fn write_refusal(&self, fault: OpenFault, held: &[u8], page: &mut Page) {
        match fault {
            OpenFault::SiteFault(count) => write!(page, "site fault {count}"),
            OpenFault::Image(offset) => write!(page, "image {offset}"),
            OpenFault::NoMemory => page.push_str("no memory"),
        }
        let is_same = held == self.image.as_slice();
        page.push_str(if is_same { ", unchanged" } else { ", changed" });
    }

    fn open(&mut self, page: &mut Page) {
        let failing = mem::replace(&mut self.failing, Vec::new(page.alloc()));
        let site = MemSite::new(page.alloc(), page.copy(&self.image), failing, None);
        match Unit::open(site, page) {
            Ok(unit) => {
                self.unit = Some(unit);
                page.push_str("opened");
            }
            Err((fault, site)) => self.write_refusal(fault, site.image(), page),
        }
    }

    /// Ends the run, by a crash or without one, and takes the image that it leaves.
    fn end(&mut self, word: &str, crash: &str, page: &mut Page) {
        let Some(unit) = self.unit.take() else {
            return page.push_str("no unit");
        };
        let (site, entries) = unit.into_site();
        if word == "close" {
            let sunk = Digits(site.sunk());
            write!(page, "closed after {entries}, sunk {sunk}");
            return page.check(replace(&mut self.image, site.image()));
        }
        write!(page, "crashed after {entries}");
        let site = site.crashed(crash_of(crash));
        page.check(replace(&mut self.image, site.image()));
    }

    /// Calls the unit: with the octets that a line ends with, if there are any.
    fn call(&mut self, word: &str, rest: &str, page: &mut Page) {
        let Some(unit) = &mut self.unit else {
            return page.push_str("no unit");
        };
        let link = word_at(rest, 0).parse().unwrap_or(255);
        let last = rest.split_whitespace().last().unwrap_or("");
        let mut octets = page.octets_at(last, 0);
        match word {
            "protect" => unit.protect(link, &octets, page),
            "accept" => unit.accept(link, octets.as_mut_slice(), page),
            "do" => unit.command(&octets, page),
            "put" => unit.put(&octets, page),
            "release" => unit.release(page),
            _ => unit.tell(page),
        }
    }

    /// Does a step on the unit. What is none is printed as it is.
    fn take_unit_step(&mut self, line: &str, page: &mut Page) {
        let (word, rest) = cut(line);
        match word {
            "open" => self.open(page),
            "close" | "crash" => self.end(word, rest, page),
            "protect" | "accept" | "do" | "release" | "put" | "tell" => self.call(word, rest, page),
            _ => page.push_str(line),
        }
    }

    /// Lists the calls that are to fail.
    fn take_failing(&mut self, line: &str, page: &mut Page) {
        match numbers(page.alloc(), line) {
            Ok(failing) => self.failing = failing,
            Err(_) => page.spoil(),
        }
    }

    /// Does a step on what was gathered, or another one.
    fn take_step(&mut self, line: &str, page: &mut Page) {
        let (word, rest) = cut(line);
        match word {
            "create" | "create_one" => return self.create(word, page),
            "octets" => return page.push_digits(octets_at(&self.image, rest)),
            "cut" => {
                self.image.truncate(length_at(rest, 0));
                return self.write_length(page);
            }
            "keep" => page.check(replace(&mut self.kept, &self.image)),
            "back" => page.check(replace(&mut self.image, &self.kept)),
            "set" => page.check(set_octets_at(page.alloc(), self.image.as_mut_slice(), rest)),
            "failing" => self.take_failing(rest, page),
            "forget" => self.life.clear(),
            _ => return self.take_unit_step(line, page),
        }
        page.push_str(match word {
            "keep" => "kept",
            "forget" => "forgotten",
            _ => word,
        });
    }

    /// Does a step so often, and leaves the last answer: `COUNT STEP`.
    fn repeat(&mut self, rest: &str, page: &mut Page) {
        let (_, step) = cut(rest);
        for _ in 0..number_at(rest, 0) {
            page.clear();
            self.take_step(step, page);
        }
    }

    /// Does the steps of the life, and writes each answer in a line.
    fn live(&mut self, page: &mut Page) {
        let life = mem::replace(&mut self.life, Gathered::new(page.alloc()));
        for step in life.as_str().lines() {
            page.begin_line();
            self.take_step(step, page);
        }
        self.life = life;
    }
}

impl Answers for Table {
    fn answer(&mut self, line: &str, page: &mut Page) {
        match cut(line) {
            ("plan", text) => page.check(self.plan.push(text)),
            ("life", step) => page.check(self.life.push(step)),
            ("times", rest) => self.repeat(rest, page),
            ("live", _) => self.live(page),
            _ => self.take_step(line, page),
        }
    }
}

/// A book that is kept. Contracts see it as the book.
pub struct Unit<O: Site> {
    book: Book<O>,
    next: Vec<u64>,
}

impl<O: Site> Model for Unit<O> {
    ghost use Rattle.unit_book.specs.Book.{BookView, IsKept};
    ghost use Rattle.std.specs.Coded.{codes, coded_ℕ};
    ghost use Rattle.std.specs.FinSet as set;
    ghost use Rattle.std.specs.Ordering.{nat_cmp};

    ghost Value = { BookView };

    ghost coded = { Prim.hlevel (codes, set.code {R = nat_cmp} coded_ℕ) };

    ghost view = { λ unit. unit.book };

    ghost invariant = { λ unit. IsKept O.told unit.book };
}

impl<O: Site + Drop> Drop for Unit<O> {
    fn drop(self) {
        let _site = self.into_site();
    }
}

/// Whether there is a word for each of so many rows, and each is at least 1.
fn are_words(next: &[u64], rows: usize) -> bool
    ensures { result ≡ true → (rows ≤ length next.now) × ((place : ℕ) → place < rows → 1 ≤ slice_index next.now place) }
{
    if next.len() < rows {
        return false;
    }
    for place in 0..rows {
        if next[place] < 1 {
            return false;
        }
    }
    true
}

/// Adds the marks of the rows that have no word yet.
fn push_marks(next: &mut Vec<u64>, rows: &[KeyRow], page: &mut Page) {
    for row in rows.iter().skip(next.len()) {
        page.check(next.push(row.mark));
    }
}

/// Writes why a call on the book is refused.
fn write_fault(fault: BookFault, page: &mut Page) {
    match fault {
        BookFault::SiteFault(count) => write!(page, "site fault {count}"),
        BookFault::Stopped(count) => write!(page, "stopped {count}"),
        BookFault::SessionFull => page.push_str("session full"),
        BookFault::NoMemory => page.push_str("no memory"),
    }
}

/// Writes what was done, or why the call on the book is refused.
fn write_done(done: Result<(), BookFault>, word: &str, page: &mut Page) {
    match done {
        Ok(()) => page.push_str(word),
        Err(fault) => write_fault(fault, page),
    }
}

fn write_key(row: &KeyRow, page: &mut Page) {
    let state = key_state_name(row.state);
    let (id, mark, floor) = (row.id.get(), row.mark, row.floor);
    write!(page, "; key {id} {state} mark {mark} floor {floor}");
}

fn write_association(row: &SaRow, page: &mut Page) {
    let (direction, suite) = (direction_name(row.direction), suite_name(row.suite));
    let (state, key) = (sa_state_name(row.state), row.key.map_or(0, |key| key.get()));
    let (spi, high, width) = (row.spi.get(), row.window.high, row.window.width);
    write!(page, "; sa {spi} {direction} {suite} {state} key {key}");
    write!(page, " high {high} width {width}");
}

/// Writes the frame protected under the number that was drawn, with index, key and number.
fn write_frame(binding: &Binding, number: u64, clear: &[u8], page: &mut Page)
    requires binding { IsBinding binding.now }
    requires fits { clear_fault binding.now clear.now ≡ None }
{
    if number == 0 || number >= binding.key.end() {
        return page.push_str("no number");
    }
    let mut out = [0; 2_048];
    let count = shield(binding, number, clear, &mut out);
    let (spi, key) = (binding.spi.get(), binding.key.get());
    let frame = Digits(out.get(..count).unwrap_or(&[]));
    write!(page, "protected {spi} {key} {number} {frame}");
}

impl<O: Site> Unit<O> {
    /// The unit of an image. Each key's next number is its mark.
    pub fn open(site: O, page: &mut Page) -> Result<Unit<O>, (OpenFault, O)> {
        let book = Book::open(page.alloc(), site)?;
        let mut next = Vec::new(page.alloc());
        push_marks(&mut next, book.state().keys.rows(), page);
        Ok(Unit { book, next })
    }

    /// Ends the run: the site, and how many entries it has.
    pub fn into_site(self) -> (O, usize) {
        let Unit { book, next: _ } = self;
        let (site, entries) = book.into_site();
        (site, entries.len())
    }

    /// The next number of a key, 0 where it has none.
    fn next_of(&self, key: KeyId) -> u64 {
        let row = self.book.row_of(key);
        let word = row.and_then(|row| self.next.get(row));
        word.copied().unwrap_or(0)
    }

    fn set_next(&mut self, key: KeyId, number: u64) {
        if let Some(row) = self.book.row_of(key) {
            if let Some(word) = self.next.get_mut(row) {
                *word = number;
            }
        }
    }

    /// Draws a number of a key, and sees to it that it is stored for: what was seen.
    fn draw(&mut self, key: KeyId) -> Result<Seen, BookFault> {
        let number = self.next_of(key);
        if number >= key.end() {
            return Ok(Seen::Exhausted(number));
        }
        self.set_next(key, number.saturating_add(1));
        if self.book.state().keys.find(key).is_none() {
            return Ok(Seen::Nothing);
        }
        self.book.reserve(key, number)?;
        Ok(Seen::Number(number))
    }

    /// Writes the protected frame, with index, key and number, or why there is none.
    fn protect_with(&mut self, binding: &Binding, clear: &[u8], page: &mut Page)
        requires { IsBinding binding.now }
    {
        if let Err(fault) = fits(binding, clear) {
            return write_shield_fault(fault, page);
        }
        match self.draw(binding.key) {
            Ok(Seen::Number(number)) => write_frame(binding, number, clear, page),
            Ok(Seen::Exhausted(number)) => write!(page, "exhausted {} {number}", binding.key.get()),
            Ok(Seen::Nothing | Seen::Word(_)) => page.push_str("no number"),
            Err(fault) => write_fault(fault, page),
        }
    }

    /// Protects a frame.
    pub fn protect(&mut self, link: u8, clear: &[u8], page: &mut Page) {
        match self.book.binding(link, clear) {
            Ok(Some(binding)) => self.protect_with(&binding, clear, page),
            Ok(None) => page.push_str("clear"),
            Err(fault) => write_shield_fault(fault, page),
        }
    }

    /// Opens a frame. Its record has as its number how many entries there are.
    pub fn accept(&mut self, link: u8, frame: &mut [u8], page: &mut Page) {
        let index = self.book.count();
        match self.book.accept(index, link, frame) {
            Ok((reply, position)) => {
                write_open_reply(reply, frame, page);
                write!(page, " at {position}");
            }
            Err(fault) => write_fault(fault, page),
        }
    }

    /// What is seen of a key's numbers for a need.
    fn seen_for(&mut self, need: &Need) -> Result<Seen, BookFault> {
        match need {
            Need::Nothing => Ok(Seen::Nothing),
            Need::Look(key) => Ok(Seen::Word(self.next_of(*key))),
            Need::Raise(key, number) => {
                let word = self.next_of(*key);
                self.set_next(*key, word.max(*number));
                Ok(Seen::Word(word))
            }
            Need::Number(key) => self.draw(*key),
        }
    }

    /// Handles a message with what was seen, where that is what it needs.
    fn answered(&mut self, message: &[u8], seen: Seen, page: &mut Page) {
        let Ok(need) = self.book.need(message) else {
            return page.push_str("no memory");
        };
        if !case_units::fits(self.book.state(), &need, seen) {
            return page.push_str("unfit");
        }
        one_command();
        command_without_fault();
        let index = self.book.count();
        match self.book.command(index, message, seen) {
            Ok((reply, position)) => {
                write_reply(&reply, page);
                write!(page, " at {position}");
            }
            Err(fault) => write_fault(fault, page),
        }
    }

    /// Does what a message asks. Its record has as its number how many entries there are.
    pub fn command(&mut self, message: &[u8], page: &mut Page) {
        let Ok(need) = self.book.need(message) else {
            return page.push_str("no memory");
        };
        match self.seen_for(&need) {
            Ok(seen) => self.answered(message, seen, page),
            Err(fault) => write_fault(fault, page),
        }
        push_marks(&mut self.next, self.book.state().keys.rows(), page);
    }

    /// Releases what was not used.
    pub fn release(&mut self, page: &mut Page) {
        if !are_words(self.next.as_slice(), self.book.rows()) {
            return page.push_str("no words");
        }
        write_done(self.book.release(self.next.as_slice()), "released", page);
    }

    /// Hands octets to the sink.
    pub fn put(&mut self, octets: &[u8], page: &mut Page) {
        write_done(self.book.put(octets), "put", page);
    }

    /// What the book shows.
    pub fn tell(&self, page: &mut Page) {
        let (used, slots) = (self.book.used(), self.book.plan().slots());
        let (entries, changes) = (self.book.count(), self.book.changes());
        write!(page, "slots {used} of {slots}");
        write!(page, ", entries {entries}, changes {changes}");
        for row in self.book.state().keys.rows() {
            write_key(row, page);
        }
        for row in self.book.state().associations.rows() {
            write_association(row, page);
        }
    }
}
