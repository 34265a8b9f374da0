//! The steps, what they find outside and leave there, and what they answer.
use crate::image::swap_banks;
use crate::judging::judge_octets;
use case_lines::{
    Gathered, Page, cut, length_at, number_at, octet, octets_at, replace, set_octets_at, words_of,
};
use case_units::{
    BEGINNING, FENCE, crash_of, image_of_version_one, place_of, push_answers, push_record,
};
use sdls_outside::{MemSite, MemSource, Site};
use sdls_run::{OpenGate, Outcome, run};
use std::alloc::Global;
use std::sync::Wait;
use std::thread::Threads;
use std::{mem, str};

/// Has the numbers of a line in place of others.
fn set_numbers(numbers: &mut Vec<u64>, line: &str, page: &mut Page) {
    numbers.clear();
    for word in line.split_whitespace() {
        page.check(numbers.push(word.parse().unwrap_or(0)));
    }
}

/// The octets of the next run, the most that its source gives in a call, and the calls that are to fail.
#[derive(Drop)]
struct Input {
    octets: Vec<u8>,
    piece: usize,
    failing: Vec<u64>,
}

impl Input {
    /// No octets, of a source of which no call fails.
    fn new(alloc: Global) -> Input {
        Input {
            octets: Vec::new(alloc),
            piece: usize::MAX,
            failing: Vec::new(alloc),
        }
    }

    /// Gathers the record that the line says: a lane, for a frame a link, and the octets, if there are any.
    fn push(&mut self, kind: u8, rest: &str, page: &mut Page) {
        let mut words = rest.split_whitespace();
        let lane = octet(&mut words).unwrap_or(0);
        let link = match kind {
            1 | 2 => octet(&mut words).unwrap_or(0),
            _ => 0,
        };
        let octets = page.piece(&mut words);
        page.check(push_record(&mut self.octets, kind, lane, link, &octets));
    }

    /// Gathers octets.
    fn push_octets(&mut self, rest: &str, page: &mut Page) {
        let octets = page.octets(&mut rest.split_whitespace());
        page.check(self.octets.extend_from_slice(&octets));
    }

    /// Has these octets in place of those that were gathered.
    fn set(&mut self, octets: &[u8], page: &mut Page) {
        page.check(replace(&mut self.octets, octets));
    }

    /// Takes a step on the input or its source. Says whether the word names one.
    fn take(&mut self, word: &str, rest: &str, page: &mut Page) -> bool {
        match word {
            "octets" => self.push_octets(rest, page),
            "records" => self.set(BEGINNING, page),
            "fence" => page.check(self.octets.extend_from_slice(FENCE)),
            "protect" => self.push(1, rest, page),
            "open" => self.push(2, rest, page),
            "command" => self.push(3, rest, page),
            "monitor" => self.push(4, rest, page),
            "pieces" => self.piece = length_at(rest, 0),
            "source" => set_numbers(&mut self.failing, rest, page),
            _ => return false,
        }
        true
    }

    /// The source of the next run. Leaves no octets, and no call that is to fail.
    fn source(&mut self, alloc: Global) -> MemSource {
        let octets = mem::replace(&mut self.octets, Vec::new(alloc));
        let failing = mem::replace(&mut self.failing, Vec::new(alloc));
        MemSource::new(octets, self.piece.max(1), failing)
    }
}

/// A site without an image, of which no call fails.
fn empty_site(alloc: Global) -> MemSite {
    MemSite::new(alloc, Vec::new(alloc), Vec::new(alloc), None)
}

/// The image as it lies between two commands, one that was kept, the calls of the next site that are to fail, and the
/// last site.
#[derive(Drop)]
struct Disk {
    image: Vec<u8>,
    kept: Vec<u8>,
    failing: Vec<u64>,
    dead: Option<u64>,
    last: MemSite,
}

impl Disk {
    /// No image.
    fn new(alloc: Global) -> Disk {
        Disk {
            image: Vec::new(alloc),
            kept: Vec::new(alloc),
            failing: Vec::new(alloc),
            dead: None,
            last: empty_site(alloc),
        }
    }

    /// The site of the next command, with the image. Leaves no call that is to fail.
    fn site(&mut self, alloc: Global) -> MemSite {
        let image = mem::replace(&mut self.image, Vec::new(alloc));
        let failing = mem::replace(&mut self.failing, Vec::new(alloc));
        MemSite::new(alloc, image, failing, self.dead.take())
    }

    /// Keeps the site of a command, and its image.
    fn keep(&mut self, site: MemSite, page: &mut Page) {
        page.check(replace(&mut self.image, site.image()));
        self.last = site;
    }

    /// Has zeros for an image.
    fn lay_zeros(&mut self, length: usize, page: &mut Page) {
        self.image.clear();
        page.check(self.image.resize(length, 0));
    }

    /// Takes a step that sets the image or what fails, or another one. Says whether the word names one.
    fn take(&mut self, word: &str, rest: &str, page: &mut Page) -> bool {
        match word {
            "failing" => set_numbers(&mut self.failing, rest, page),
            "dead" => self.dead = Some(number_at(rest, 0)),
            "lay" => self.image = page.octets_at(rest, 0),
            "zeros" => self.lay_zeros(length_at(rest, 0), page),
            "keep" => page.check(replace(&mut self.kept, &self.image)),
            "back" => page.check(replace(&mut self.image, &self.kept)),
            "lose" => self.image.clear(),
            "cut" => self.image.truncate(length_at(rest, 0)),
            "set" => page.check(set_octets_at(page.alloc(), &mut self.image, rest)),
            "swap" => swap_banks(&mut self.image, page),
            _ => return self.answer(word, rest, page),
        }
        true
    }

    /// Writes what a step asks of image and site. Says whether the word names one.
    fn answer(&mut self, word: &str, rest: &str, page: &mut Page) -> bool {
        match word {
            "crash" => self.crash(rest, page),
            "show" => page.push_digits(octets_at(&self.image, rest)),
            "sunk" => self.write_sunk(page),
            "image" => write!(page, "image of {}", self.image.len()),
            "find" => self.find(rest, page),
            "same" if self.image.as_slice() == self.kept.as_slice() => page.push_str("same"),
            "same" => page.push_str("no"),
            _ => return false,
        }
        true
    }

    /// Takes the image that a crash of the last site leaves.
    fn crash(&mut self, rest: &str, page: &mut Page) {
        let site = mem::replace(&mut self.last, empty_site(page.alloc()));
        page.check(replace(&mut self.image, site.crashed(crash_of(rest)).image()));
        page.push_str("crashed");
    }

    /// Writes what the last site has sunk, and its faults.
    fn write_sunk(&self, page: &mut Page) {
        page.push_str("sunk ");
        page.push_digits(self.last.sunk());
        write!(page, " faults {}", self.last.faults());
    }

    /// Writes where these octets stand first in the image.
    fn find(&self, digits: &str, page: &mut Page) {
        let wanted = page.octets_at(digits, 0);
        match place_of(&self.image, &wanted) {
            Some(place) => write!(page, "found at {place}"),
            None => page.push_str("nowhere"),
        }
    }
}

/// The call `run`. What it ensures is not said again: the clauses would be carried through each step behind the call.
fn ran<R: Threads + Wait + Sync>(
    rt: &R,
    alloc: Global,
    words: &[String],
    mut source: MemSource,
    site: MemSite,
) -> Outcome<MemSite> {
    run(rt, alloc, words, &mut source, site, &OpenGate)
}

/// What a recording for `audit` begins with.
const RECORDING: &[u8] = b"SDLSAUD1";

/// Writes the answers that a run put, a line each, with all that there is of the last one.
fn write_answers(sunk: &[u8], page: &mut Page) {
    let (mut answers, mut end) = (Vec::new(page.alloc()), 0);
    push_answers(sunk, &mut answers, page);
    for answer in answers.iter() {
        end = answer.to.min(sunk.len());
        write!(page, "\n{:02x} {:02x}", answer.code, answer.detail);
        write!(page, " key {} position {}", answer.key, answer.position);
        write!(page, " number {}", answer.number);
        let body = sunk.get(answer.from()..end).unwrap_or(&[]);
        page.push_str(if body.is_empty() { "" } else { " " });
        page.push_digits(body);
    }
    let rest = sunk.get(end..).unwrap_or(&[]);
    page.push_str(if rest.is_empty() { "" } else { "\ncut " });
    page.push_digits(rest);
}

/// Writes the text that was put, behind a line feed and without its own last one.
fn write_text(sunk: &[u8], page: &mut Page) {
    match str::from_utf8(sunk).unwrap_or("no text").trim_end() {
        "" => {}
        line => write!(page, "\n{line}"),
    }
}

/// What was gathered: a plan, an input, the image, and a recording of runs.
#[derive(Drop)]
pub struct Table<'a, R> {
    rt: &'a R,
    plan: Gathered,
    input: Input,
    disk: Disk,
    recording: Vec<u8>,
}

impl<'a, R> Table<'a, R> {
    /// A table of which nothing was read.
    pub fn new(rt: &'a R, alloc: Global) -> Table<'a, R> {
        Table {
            rt,
            plan: Gathered::new(alloc),
            input: Input::new(alloc),
            disk: Disk::new(alloc),
            recording: Vec::new(alloc),
        }
    }

    /// Takes the image of version 1 that the gathered plan begins with, if it is one.
    fn take_version_one(&mut self, alloc: Global) {
        let image = image_of_version_one(alloc, self.plan.as_str().as_bytes());
        self.disk.image = image.unwrap_or(Vec::new(alloc));
        self.plan.clear();
    }

    /// Records what the last site has sunk as one run, its length before it.
    fn record(&mut self, page: &mut Page) {
        let sunk = self.disk.last.sunk();
        if self.recording.is_empty() {
            page.check(self.recording.extend_from_slice(RECORDING));
        }
        let length = u32::try_from(sunk.len()).unwrap_or(u32::MAX);
        page.check(self.recording.extend_from_slice(&length.to_be_bytes()));
        page.check(self.recording.extend_from_slice(sunk));
    }
}

impl<R: Threads + Wait + Sync> Table<'_, R> {
    /// Runs the words of a line on the image, with the input, and writes status, count of entries, and what was put:
    /// answers of a run, the text of other words.
    fn command(&mut self, line: &str, page: &mut Page) {
        let Ok(words) = words_of(page.alloc(), line) else {
            return page.spoil();
        };
        let source = self.input.source(page.alloc());
        let site = self.disk.site(page.alloc());
        let Outcome {
            status,
            site,
            entries,
        } = ran(self.rt, page.alloc(), &words, source, site);
        self.disk.keep(site, page);
        write!(page, "status {status} entries {}", entries.len());
        match line {
            "run" => write_answers(self.disk.last.sunk(), page),
            _ => write_text(self.disk.last.sunk(), page),
        }
    }

    /// Makes an image of the gathered plan, and writes what is said of it.
    fn init(&mut self, line: &str, page: &mut Page) {
        self.input.set(self.plan.as_str().as_bytes(), page);
        self.plan.clear();
        self.command(line, page);
    }

    /// Audits the recording, and writes what is said of it. The next recording begins anew.
    fn audit(&mut self, page: &mut Page) {
        self.input.set(&self.recording, page);
        self.recording.clear();
        self.command("audit", page);
    }

    /// Takes a step, or runs the words of a line, and writes what it answers. A title is written as it is.
    fn take(&mut self, line: &str, page: &mut Page) {
        let (word, rest) = cut(line);
        match word {
            "#" => page.push_str(line),
            "plan" => page.check(self.plan.push(rest)),
            "init" => self.init(line, page),
            "unit_one" => self.take_version_one(page.alloc()),
            "record" => self.record(page),
            "audited" => self.audit(page),
            "judge" => judge_octets(&self.disk.image, rest, page),
            _ => {
                if !self.input.take(word, rest, page) && !self.disk.take(word, rest, page) {
                    self.command(line, page);
                }
            }
        }
    }

    /// Takes a step, or one so often, and writes what it answers.
    pub fn answer(&mut self, line: &str, page: &mut Page) {
        let Some(("times", rest)) = line.split_once(' ') else {
            return self.take(line, page);
        };
        for _ in 0..number_at(rest, 0) {
            page.clear();
            self.take(cut(rest).1, page);
        }
    }
}
