//! Tables of the journal over two banks, for `disk_journal`, and of the disk, the sink and the input, for the four
//! implementations of `sdls_outside`. A line of standard input, which is itself read by a `StdSource`, is a step, and
//! what it answers is printed; `#` and a title is printed as it is.
//!
//! Steps on an image: `create SLOTS CONTENT PLAN` makes the image of version 1 of a plan, whose octets are given, with
//! a content of this octet alone, and `create_two` that of version 2. `append OCTET`, `turn OCTET` and `migrate OCTET`
//! open the image, bring it to rest and add a record, or write a content, of this octet alone; `settle` does neither.
//! `open` prints what the image holds, or the offset that it is refused with. `set OFFSET OCTETS` writes others over
//! its own, `cut LENGTH` takes away what stands past a length, and `at OFFSET LENGTH` prints octets. `zeros OFFSET
//! LENGTH` says whether so many octets are 0. `keep` keeps the image for later, and `back` takes it again.
//!
//! `dead STEP KIND` does a step from the image once for each call of it that the site can be dead from, which it then
//! crashes so: `kept`, `lost`, or filled with an octet. It prints what the image holds after each when it is opened
//! again, and how often that stands so in a row. `left CALL STEP KIND` takes the image that one of them leaves.
//!
//! `outside CASE` prints a case of the disk, the sink or the input, and what it answers. `crash KIND IMAGE STEP..` does
//! the steps on a site in memory that holds the image, and shows the image after a crash: `kept`, `lost`, or filled
//! with the octet KIND. A step is `AT:OCTETS`, a write, or `sync`. `failing N` and `dead N` do five calls on a site of
//! the image `ab` of which that one fails, or that one and each later one: begin, write `aXY` at 0, sync, put `sunk`,
//! read. They print `o` for each that is Ok and `x` for each that is not, and what is then there. `source PIECE N
//! OCTETS TAKE..` takes so many octets each time from a source in pieces whose call N fails, and `sure OCTETS TAKE..`
//! from one that never does. `file` is a run of calls on a file, and `empty` one on an empty file that is there. Octets
//! are written as text, none as `-`.
#![tactic(auto)]

mod images;
mod outside;

use case_lines::{Answers, Page, cut, octets_at, print_answer};
use sdls_outside::{Source, StdSource};

/// An image, and the one that was kept.
#[derive(Drop)]
struct Table {
    rt: HostRuntime,
    image: Vec<u8>,
    kept: Vec<u8>,
}

impl Answers for Table {
    fn answer(&mut self, line: &str, page: &mut Page) {
        let (step, rest) = cut(line);
        match step {
            "create" | "create_two" => images::create_image(&mut self.image, step, rest, page),
            "set" => page.set_part_of(&mut self.image, rest),
            "cut" => self.image.truncate(rest.parse().unwrap_or(0)),
            "at" => page.push_digits(octets_at(&self.image, rest)),
            "outside" => outside::write_case(self.rt, rest, page),
            "left" => images::leave(&mut self.image, rest, page),
            "keep" => self.kept = page.copy(&self.image),
            "back" => self.image = page.copy(&self.kept),
            "open" => images::write_opened(&self.image, page),
            "zeros" => page.push_str(images::zeros(&self.image, rest)),
            "dead" => images::write_each(&self.image, rest, page),
            _ => images::write_step(&mut self.image, line, page),
        }
    }
}

/// Takes a piece of the input, of 700 octets at most. Says whether there was one.
fn take(source: &mut StdSource, octets: &mut Vec<u8>) -> anyhow::Result<bool> {
    let mut piece = [b'~'; 700];
    let count = source.take(&mut piece)?;
    octets.extend_from_slice(&piece[..count])?;
    Ok(count > 0)
}

/// Prints what each line of a text answers.
fn print_lines(rt: HostRuntime, text: &str) -> anyhow::Result<()> {
    let mut page = Page::new(rt.alloc());
    let mut table = Table {
        rt,
        image: Vec::new(rt.alloc()),
        kept: Vec::new(rt.alloc()),
    };
    for line in text.lines() {
        print_answer(&rt, &mut table, line, &mut page)?;
    }
    Ok(())
}

fn main(rt: HostRuntime) -> anyhow::Result<()> {
    let (mut source, mut octets) = (StdSource::new(rt.stdin()), Vec::new(rt.alloc()));
    for _ in 0..u64::MAX {
        if !take(&mut source, &mut octets)? {
            break;
        }
    }
    print_lines(rt, outside::text(&octets))
}
