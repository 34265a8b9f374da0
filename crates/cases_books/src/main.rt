//! Tables of the two books of a unit, of the window of an association, of plans, of records, and of the rows and
//! contents of an image. A line of standard input is a step, and what it answers is printed; `#` and a title is printed
//! as it is. `new` empties both books, and begins an empty text.
//!
//! A step on a book is printed with what the call answers. A call that may be refused answers `ok`, or the refusal and
//! whether the rows are as they were. `judge HIGH WIDTH NUMBER END` is printed so, too, and answers what a window says.
//!
//! `: LINE` adds a line and its line feed to the text before the place of the case, and `; LINE` a line feed and a line
//! behind it. `fill N` adds number signs before the place, up to N octets. `plan LINE` writes the line into the place,
//! and prints what `Plan::read` answers to the whole; `show` prints what it reads of the text without a case, and
//! `place LINK SPACECRAFT CHANNEL MAP` the channel that lies there. In a line `\` and two hexadecimal digits stand for
//! an octet.
//!
//! `record BODY` prints what is read of the body of a record, and whether the record of that is the body again. A body
//! is hexadecimal words, with zeros where no word stands; `@510` before a word says the place where it stands.
//!
//! Steps on one window have the word `replay` before them. `window BASE WIDTH BACK` begins a window at a number. `offer
//! END NUMBER ..` offers numbers under a key whose numbers end at END, and prints of each whether it was accepted, or
//! the highest number and the width that refused it. `set WIDTH BACK`, `begin NUMBER` and `lower FLOOR` change the
//! window, and print its highest number and its base. `random SEED COUNT` makes so many sequences of steps, with
//! numbers drawn from the seed, on a window and on a plain list of all numbers accepted. It prints how many numbers
//! were accepted, how many of these late, how many refused, and of how many the window said another thing than the
//! list.
//!
//! Steps on rows and contents have the word `bank` before them. `key ROW` and `sa ROW` print what is read of the row of
//! a key or of an association, behind `same` if writing that gives the row again. A row is hexadecimal words, with
//! zeros behind them; behind `xN` the next word stands N times. `bare` prints what the bare plan of the text reads as,
//! and its octets with `/` for each line feed. `made` writes the content of version 1 of the plan's state, `made two`
//! that of version 2, and each prints how many keys and associations it has, or that there is no room. `at OFFSET
//! LENGTH` prints octets of the content, and `set OFFSET OCTETS` writes others there. `read` prints what is read of it,
//! in the version that was made, behind `same` if writing that gives it again. `back` takes the content again that
//! `made` wrote.
#![tactic(auto)]

mod associations;
mod keys;
mod plans;
mod rows;
mod windows;

use associations::AssociationTable;
use case_lines::{Answers, Page, cut, print_answers};
use keys::KeyTable;
use plans::Text;
use replay_window::Window;
use rows::Bank;
use std::alloc::Global;
use std::fmt::Display;

/// What a call answered that may be refused. It is none if no call has its word, its words are not there, or its
/// conditions do not hold.
pub type Changed<R> = Option<Result<(), R>>;

/// Writes what a call answered that may be refused, and whether the rows are as they were.
pub fn write_change<R: Display + Drop>(changed: Changed<R>, kept: bool, page: &mut Page) {
    match changed {
        Some(Ok(())) => page.push_str("ok"),
        Some(Err(refusal)) => write!(page, "{refusal}; rows kept: {kept}"),
        None => page.push_str("no condition"),
    }
}

/// The two books, the text of a plan, a window, and a content.
#[derive(Drop)]
struct Table {
    keys: KeyTable,
    associations: AssociationTable,
    text: Text,
    window: Window,
    bank: Bank,
}

impl Table {
    /// Empties both books, and begins an empty text.
    fn clear(&mut self, alloc: Global) {
        self.keys = KeyTable::new(alloc);
        self.associations = AssociationTable::new(alloc);
        self.text = Text::new(alloc);
    }

    /// Does a step on a book, and writes it with what it answers.
    fn step_on_books(&mut self, line: &str, page: &mut Page) {
        write!(page, "{line}: ");
        let words = &mut line.split_whitespace();
        let word = words.next().unwrap_or("");
        if word == "judge" {
            windows::judge(words, page);
        } else if !self.keys.step(word, words, page) {
            self.associations.step(word, words, page);
        }
    }
}

impl Answers for Table {
    fn answer(&mut self, line: &str, page: &mut Page) {
        let (word, rest) = cut(line);
        match word {
            "new" => self.clear(page.alloc()),
            ":" | ";" | "fill" => self.text.change(word, rest, page),
            "plan" => plans::write_reading(&self.text.with(rest, page), page),
            "show" | "place" => plans::write_part(&self.text, word, rest, page),
            "record" => rows::write_record(rest, page),
            "replay" => windows::step(&mut self.window, rest, page),
            "bank" => self.bank.step(&self.text, rest, page),
            _ => self.step_on_books(line, page),
        }
    }
}

fn main(rt: HostRuntime) -> anyhow::Result<()> {
    let alloc = rt.alloc();
    let mut table = Table {
        keys: KeyTable::new(alloc),
        associations: AssociationTable::new(alloc),
        text: Text::new(alloc),
        window: Window::new(0, 1),
        bank: Bank::new(alloc),
    };
    print_answers(&rt, &mut table)
}
