//! The page that a table writes on, and the loop over standard input.
use crate::words::{Digits, length_at, octets, set_octets, word_at};
use std::alloc::{AllocError, Global};
use std::fmt::Display;
use std::mem;
use std::str::SplitWhitespace;

/// The words of a line that were not read yet.
pub type Words<'a> = SplitWhitespace<'a>;

/// What a line answers. Where memory runs out, or digits are none, the page is spoiled, and the table ends with an
/// error once the line is done. So what writes on a page returns no error: each way out of a function is proved.
#[derive(Drop)]
pub struct Page {
    alloc: Global,
    text: String,
    spoiled: bool,
}

impl Page {
    /// An empty page.
    pub fn new(alloc: Global) -> Page {
        Page {
            alloc,
            text: String::new(alloc),
            spoiled: false,
        }
    }

    /// Where what stands on the page has its memory.
    pub fn alloc(&self) -> Global {
        self.alloc
    }

    /// Spoils the page.
    pub fn spoil(&mut self) {
        self.spoiled = true;
    }

    /// Takes away what was written.
    pub fn clear(&mut self) {
        self.text.clear();
    }

    /// Whether nothing was written.
    pub fn is_empty(&self) -> bool {
        self.text.is_empty()
    }

    /// What was written, none if the page is spoiled.
    pub fn written(&self) -> Option<&str> {
        (!self.spoiled).then_some(self.text.as_str())
    }

    /// Writes a text.
    pub fn push_str(&mut self, text: &str) {
        if self.text.push_str(text).is_err() {
            self.spoil();
        }
    }

    /// What `write!` calls.
    pub fn write_fmt<D: Display + Drop>(&mut self, value: D) {
        if self.text.write_fmt(value).is_err() {
            self.spoil();
        }
    }

    /// Begins a line, behind a line feed if something stands before it.
    pub fn begin_line(&mut self) {
        if !self.is_empty() {
            self.push_str("\n");
        }
    }

    /// Writes octets in hexadecimal digits.
    pub fn push_digits(&mut self, octets: &[u8]) {
        write!(self, "{}", Digits(octets));
    }

    /// Spoils the page if a call failed.
    pub fn check<E: Drop>(&mut self, done: Result<(), E>) {
        if done.is_err() {
            self.spoil();
        }
    }

    /// A copy of octets.
    pub fn copy(&mut self, octets: &[u8]) -> Vec<u8> {
        let mut copy = Vec::new(self.alloc);
        self.check(copy.extend_from_slice(octets));
        copy
    }

    /// A list of this number, or of none.
    pub fn list_of(&mut self, number: Option<u64>) -> Vec<u64> {
        let mut list = Vec::new(self.alloc);
        if let Some(number) = number {
            self.check(list.push(number));
        }
        list
    }

    /// These octets, none if they were not read.
    fn octets_read<E: Drop>(&mut self, read: Result<Vec<u8>, E>) -> Vec<u8> {
        if read.is_err() {
            self.spoil();
        }
        read.unwrap_or(Vec::new(self.alloc))
    }

    /// The octets of the next word, none of `-` and where there is no word.
    pub fn piece(&mut self, words: &mut Words<'_>) -> Vec<u8> {
        match words.next() {
            Some("-") | None => Vec::new(self.alloc),
            Some(word) => self.octets_read(hex::decode(self.alloc, word)),
        }
    }

    /// The octets of the words that are left. Behind a word `xN` the next one stands N times, and
    /// `@N` stands for zeros up to the place N.
    pub fn octets(&mut self, words: &mut Words<'_>) -> Vec<u8> {
        self.octets_read(octets(self.alloc, words))
    }

    /// The octets of the word at a place of a line, none where there is none.
    pub fn octets_at(&mut self, line: &str, place: usize) -> Vec<u8> {
        self.piece(&mut word_at(line, place).split_whitespace())
    }

    /// Writes the octets of a line over some of these, as far as these reach: `OFFSET OCTETS`.
    pub fn set_part_of(&mut self, octets: &mut [u8], line: &str) {
        let part = self.octets_at(line, 1);
        set_octets(octets, length_at(line, 0), &part);
    }
}

/// The answer before, and room for the next one.
#[derive(Drop)]
pub struct Differences {
    last: Page,
    next: Page,
}

impl Differences {
    /// No answer.
    pub fn new(alloc: Global) -> Differences {
        Differences {
            last: Page::new(alloc),
            next: Page::new(alloc),
        }
    }

    /// Forgets the answer before.
    pub fn clear(&mut self) {
        self.last.clear();
    }

    /// Room for the next answer.
    pub fn next(&mut self) -> &mut Page {
        self.next.clear();
        &mut self.next
    }

    /// Whether the next answer is another than the one before, or is spoiled.
    pub fn is_other(&self) -> bool {
        match (self.last.written(), self.next.written()) {
            (Some(last), Some(next)) => last != next,
            _ => true,
        }
    }

    /// Takes the next answer for the one before.
    pub fn take(&mut self) {
        mem::swap(&mut self.last, &mut self.next);
    }

    /// Writes the answer that was taken last, which spoils the page if it is spoiled.
    pub fn write_last(&self, page: &mut Page) {
        match self.last.written() {
            Some(text) => page.push_str(text),
            None => page.spoil(),
        }
    }
}

/// Lines that were gathered, each with its line feed.
#[derive(Drop)]
pub struct Gathered(String);

impl Gathered {
    /// No lines.
    pub fn new(alloc: Global) -> Gathered {
        Gathered(String::new(alloc))
    }

    /// Gathers a line.
    pub fn push(&mut self, line: &str) -> Result<(), AllocError> {
        self.0.push_str(line)?;
        self.0.push_str("\n")
    }

    /// The lines as they stand.
    pub fn as_str(&self) -> &str {
        self.0.as_str()
    }

    /// Leaves none of them.
    pub fn clear(&mut self) {
        self.0.clear();
    }
}

/// What the lines of a table answer.
pub trait Answers {
    /// Writes what a line answers, and nothing if nothing is to be printed.
    fn answer(&mut self, line: &str, page: &mut Page);
}

/// Prints a title as it is, and of another line what it answers. The page is the room for that.
pub fn print_answer<T: Answers>(
    rt: &HostRuntime,
    table: &mut T,
    line: &str,
    page: &mut Page,
) -> anyhow::Result<()> {
    page.clear();
    if line.starts_with("#") {
        page.push_str(line);
    } else {
        table.answer(line, page);
    }
    match page.written() {
        Some("") => Ok(()),
        Some(text) => Ok(println!(rt; "{text}")?),
        None => anyhow::bail!("no memory, or digits that are none: {line}"),
    }
}

/// Prints what each line of standard input answers. A line that begins with `#` is a title, and is printed as it is.
pub fn print_answers<T: Answers>(rt: &HostRuntime, table: &mut T) -> anyhow::Result<()> {
    let mut page = Page::new(rt.alloc());
    for line in rt.lines(rt.alloc()) {
        print_answer(rt, table, line?.as_str(), &mut page)?;
    }
    Ok(())
}
