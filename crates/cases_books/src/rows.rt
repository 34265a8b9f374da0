//! Records, rows of keys and associations, and contents, read and written again.
use crate::plans::{Text, write_bare};
use book_record::{
    KeyView, SaView, read_association, read_key_row, read_record, read_sa_row, write_key_row,
    write_record as record_of, write_sa_row,
};
use case_lines::{
    Digits, Page, cut, direction_name, key_state_name, octets_at, sa_state_name, set_octets,
    suite_name,
};
use sdls_base::{ChannelList, Version};
use std::alloc::Global;
use unit_image::{fits, read_content, write_content, write_content_two};
use unit_plan::Plan;
use unit_state::State;

/// A word for whether writing gives again what was read.
fn again(same: bool) -> &'static str {
    if same { "same" } else { "other" }
}

/// The octets of the words, with zeros behind them up to those of a row.
fn row<const N: usize>(text: &str, page: &mut Page) -> [u8; N] {
    let mut row = [0; N];
    let octets = page.octets(&mut text.split_whitespace());
    set_octets(&mut row, 0, &octets);
    row
}

/// Writes what is read of the body of a record, behind a word for whether the record of that is the body again.
pub fn write_record(text: &str, page: &mut Page) {
    let body = row(text, page);
    match read_record(page.alloc(), &body) {
        Ok(change) => write!(page, "{} {change:?}", again(record_of(&change) == body)),
        Err(error) => write!(page, "{error}"),
    }
}

/// Writes what the row of a key answers.
fn write_key(text: &str, page: &mut Page) {
    let row = row(text, page);
    match read_key_row(&row) {
        Ok(parts) => {
            let again = again(write_key_row(&KeyView::of(&parts)) == row);
            let (id, state) = (parts.id.get(), key_state_name(parts.state));
            let (octets, digest) = (Digits(parts.bytes.as_slice()), Digits(&parts.digest));
            write!(page, "{again} key {id} {state} [{octets}] [{digest}]");
            write!(page, " mark {} floor {}", parts.mark, parts.floor);
        }
        Err(error) => write!(page, "{error}"),
    }
}

/// Writes what the row of an association answers. It is read as a book has it, too, and written again.
fn write_association(text: &str, page: &mut Page) {
    let row = row(text, page);
    match read_sa_row(page.alloc(), &row) {
        Ok(parts) => {
            let read = read_association(page.alloc(), &row);
            let same = read.is_ok_and(|read| write_sa_row(&SaView::of(&read)) == row);
            let (sa, key) = (&parts.sa, parts.key.map_or(0, |id| id.get()));
            let (direction, suite) = (direction_name(sa.direction), suite_name(sa.suite));
            let (state, channels) = (sa_state_name(parts.state), Digits(sa.channels.as_slice()));
            write!(page, "{} sa {} ", again(same), sa.spi.get());
            write!(page, "{direction} {suite} {state} key {key} ");
            write!(page, "[{channels}] window {}", sa.window);
        }
        Err(error) => write!(page, "{error}"),
    }
}

fn write_counts(state: &State, page: &mut Page) {
    let (keys, associations) = (state.keys.rows().len(), state.associations.rows().len());
    write!(page, "keys {keys} associations {associations}");
}

/// The state that the plan of a text makes.
fn state_of(text: &[u8], page: &mut Page) -> Option<State> {
    let plan = Plan::read(page.alloc(), text).ok()?;
    State::initial(page.alloc(), &plan).ok()
}

/// Makes `out` the content of a state, which is empty if the version has no room for it.
fn make_content(version: Version, state: &State, out: &mut Vec<u8>, page: &mut Page) {
    out.clear();
    if !fits(version, state) {
        return;
    }
    let Ok(()) = out.resize(version.content_length(), 1) else {
        return page.spoil();
    };
    match version {
        Version::One => write_content(state, out.as_mut_slice()),
        Version::Two => write_content_two(state, out.as_mut_slice()),
    }
}

/// Writes what is read of a content.
fn write_read(version: Version, octets: &[u8], page: &mut Page) {
    if octets.len() != version.content_length() {
        return page.push_str("no content");
    }
    let channels = ChannelList::new(Vec::new(page.alloc()));
    match read_content(page.alloc(), version, octets, channels, [0; 4]) {
        Ok(state) => {
            let mut content = Vec::new(page.alloc());
            make_content(version, &state, &mut content, page);
            write!(page, "{} ", again(content.as_slice() == octets));
            write_counts(&state, page);
        }
        Err(fault) => write!(page, "{fault}"),
    }
}

/// The content that was written in a version, and the same with what was put into it.
#[derive(Drop)]
pub struct Bank {
    version: Version,
    written: Vec<u8>,
    content: Vec<u8>,
}

impl Bank {
    /// No content.
    pub fn new(alloc: Global) -> Bank {
        Bank {
            version: Version::One,
            written: Vec::new(alloc),
            content: Vec::new(alloc),
        }
    }

    /// Makes the content of a state, and writes how many rows it has.
    fn make_of_state(&mut self, state: &State, page: &mut Page) {
        make_content(self.version, state, &mut self.written, page);
        self.content = page.copy(&self.written);
        if self.written.is_empty() {
            page.push_str("no room");
        } else {
            write_counts(state, page);
        }
    }

    /// The same of the state that the plan of a text makes, of version 1 or `two`.
    fn make(&mut self, text: &[u8], version: &str, page: &mut Page) {
        self.version = match version {
            "two" => Version::Two,
            _ => Version::One,
        };
        match state_of(text, page) {
            Some(state) => self.make_of_state(&state, page),
            None => page.spoil(),
        }
    }

    /// Does a step on the content or on a row, and writes what it answers.
    pub fn step(&mut self, text: &Text, rest: &str, page: &mut Page) {
        let (step, rest) = cut(rest);
        match step {
            "key" => write_key(rest, page),
            "sa" => write_association(rest, page),
            "bare" => write_bare(&text.with("", page), page),
            "made" => self.make(&text.with("", page), rest, page),
            "at" => page.push_digits(octets_at(&self.content, rest)),
            "set" => page.set_part_of(self.content.as_mut_slice(), rest),
            "read" => write_read(self.version, &self.content, page),
            "back" => self.content = page.copy(&self.written),
            _ => page.push_str("no step"),
        }
    }
}
