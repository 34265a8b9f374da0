//! The image of a unit, and calls of the unit over it, on a site on which something goes wrong.
//! What a run wrote, and what `stat` says of an image, as it is judged and printed.
ghost use Rattle.std.specs.Prelude.{true};
ghost use Rattle.sdls_outside.specs.contracts.mem_site.MemSiteSite.TheImpl.Laws as mem_laws;

use case_lines::{Page, cut, replace, words_of};
use case_units::{Answer, BEGINNING, push_answers};
use cli_image::run_plain;
use cli_run::{OpenGate, run_recorded};
use record_io::Outcome;
use record_io::code::{ACCEPTED, DONE, PROTECTED, REFUSED};
use sdls_outside::{Crash, Failed, MemSite, Site, SureSource};
use sha2::{Digest, Sha256};
use std::alloc::Global;
use std::sync::Wait;
use std::thread::Threads;
use std::{mem, str};

/// What goes wrong on a site, and the crash behind it, which says what is left of the image.
#[derive(Clone, Copy)]
pub enum Trouble {
    /// No call fails, and all of the image is left.
    None,
    /// The site is dead from this call on.
    Stop(u64, Crash),
    /// This call alone fails. If it is a write, its octets may be written all the same.
    Fault(u64, bool, Crash),
}

/// A site that passes each call on to one in memory. A `MemSite` looks for each octet that a crash may fill through all
/// writes that are pending, and a migration has some thirty of them; here each write is filled once. A note of a write
/// for which there is no memory is left out.
#[derive(Drop)]
struct NotedSite {
    inside: MemSite,
    trouble: Trouble,
    /// Where the writes since the last sync begin, and where they end.
    written: Vec<(usize, usize)>,
    /// How many octets were sunk when a put failed first.
    failed_put: Option<usize>,
}

/// Writes this octet to each place that was written.
fn fill(image: &mut [u8], written: &[(usize, usize)], octet: u8) {
    for (from, to) in written.iter() {
        if let Some(torn) = image.get_mut(*from..*to) {
            torn.fill(octet);
        }
    }
}

impl NotedSite {
    /// A site that holds this image.
    fn new(image: Vec<u8>, trouble: Trouble, page: &mut Page) -> NotedSite {
        let (failing, dead_from) = match trouble {
            Trouble::None => (None, None),
            Trouble::Stop(call, _) => (None, Some(call)),
            Trouble::Fault(call, _, _) => (Some(call), None),
        };
        let failing = page.list_of(failing);
        NotedSite {
            inside: MemSite::new(page.alloc(), image, failing, dead_from),
            trouble,
            written: Vec::new(page.alloc()),
            failed_put: None,
        }
    }

    /// Has the image that the crash leaves in place of another.
    fn leave(self, image: &mut Vec<u8>, page: &mut Page) {
        let NotedSite {
            inside,
            trouble,
            written,
            failed_put: _,
        } = self;
        match trouble {
            Trouble::None => page.check(replace(image, inside.image())),
            Trouble::Stop(_, Crash::Filled(octet)) | Trouble::Fault(_, _, Crash::Filled(octet)) => {
                page.check(replace(image, inside.image()));
                fill(image, &written, octet);
            }
            Trouble::Stop(_, crash) | Trouble::Fault(_, _, crash) => {
                page.check(replace(image, inside.crashed(crash).image()));
            }
        }
    }
}

impl Site for NotedSite {
    ghost use Rattle.sdls_outside.specs.MemSite.{site_trace, site_faults, site_put_faults};

    ghost told = { true };

    ghost trace = { λ site. site_trace site.inside };

    ghost faults = { λ site. site_faults site.inside };

    ghost put_faults = { λ site. site_put_faults site.inside };

    ghost image_may_stay = { λ site. mem_laws.image_may_stay-law site.inside };

    fn begin(&mut self) -> Result<u64, Failed> {
        self.inside.begin()
    }

    fn read_at(&mut self, at: u64, into: &mut [u8]) -> Result<(), Failed> {
        self.inside.read_at(at, into)
    }

    fn write_at(&mut self, at: u64, octets: &[u8]) -> Result<(), Failed> {
        let answer = self.inside.write_at(at, octets);
        let is_kept = matches!(self.trouble, Trouble::Fault(_, true, _));
        if answer.is_ok() || (is_kept && self.inside.write_at(at, octets).is_ok()) {
            let from = at as usize;
            let _noted = self.written.push((from, from.saturating_add(octets.len())));
        }
        answer
    }

    fn sync(&mut self) -> Result<(), Failed> {
        self.inside.sync()?;
        self.written.clear();
        Ok(())
    }

    fn put(&mut self, octets: &[u8]) -> Result<(), Failed> {
        let put = self.inside.put(octets);
        if put.is_err() && self.failed_put.is_none() {
            self.failed_put = Some(self.inside.sunk().len());
        }
        put
    }

    fn faults(&self) -> u64 {
        self.inside.faults()
    }
}

/// How a call ended.
type End = Outcome<NotedSite>;

/// A run. What it ensures is not said again: the clauses would be carried through each step behind the call.
fn served<R: Threads + Wait + Sync>(rt: &R, alloc: Global, input: Vec<u8>, site: NotedSite) -> End {
    run_recorded(rt, alloc, &mut SureSource::new(input), site, &OpenGate)
}

/// The call `run_plain`, of which the same holds.
fn called(alloc: Global, words: &[String], site: NotedSite) -> End {
    run_plain(alloc, words, &mut SureSource::new(Vec::new(alloc)), site)
}

/// The image of a unit between its calls. What the last one did: how it ended, what it wrote and the answers in that,
/// and how much was written when a call first failed that writes. The answers of all runs over the image.
#[derive(Drop)]
pub struct Disk<'a, R> {
    rt: &'a R,
    pub image: Vec<u8>,
    pub status: u8,
    pub entries: usize,
    pub sunk: Vec<u8>,
    pub answers: Vec<Answer>,
    pub failed_put: Option<usize>,
    all: Vec<Answer>,
}

impl<'a, R> Disk<'a, R> {
    /// A disk without an image.
    pub fn new(rt: &'a R, alloc: Global) -> Disk<'a, R> {
        Disk {
            rt,
            image: Vec::new(alloc),
            status: 0,
            entries: 0,
            sunk: Vec::new(alloc),
            answers: Vec::new(alloc),
            failed_put: None,
            all: Vec::new(alloc),
        }
    }

    /// Takes an image over which nothing was run.
    pub fn begin(&mut self, image: &[u8], page: &mut Page) {
        self.all.clear();
        page.check(replace(&mut self.image, image));
    }

    /// How many answers of the last run have this code.
    pub fn count_of(&self, code: u8) -> usize {
        let answers = self.answers.iter();
        answers.filter(|answer| answer.code == code).count()
    }

    /// That all runs over the image used a number of a key twice, or accepted one twice.
    pub fn repeat(&self) -> Option<&'static str> {
        repeat_in(&self.all)
    }
}

impl<R: Threads + Wait + Sync> Disk<'_, R> {
    /// Calls the unit with this word, `run` or `stat`: a run is over these items.
    pub fn call(&mut self, word: &str, items: &[u8], trouble: Trouble, page: &mut Page) {
        let Ok(words) = words_of(page.alloc(), word) else {
            return page.spoil();
        };
        let mut input = page.copy(BEGINNING);
        page.check(input.extend_from_slice(items));
        let image = mem::replace(&mut self.image, Vec::new(page.alloc()));
        let site = NotedSite::new(image, trouble, page);
        let Outcome {
            status,
            site,
            entries,
        } = match word {
            "run" => served(self.rt, page.alloc(), input, site),
            _ => called(page.alloc(), &words, site),
        };
        self.status = status;
        self.entries = entries.len();
        self.failed_put = site.failed_put;
        page.check(replace(&mut self.sunk, site.inside.sunk()));
        site.leave(&mut self.image, page);
        if word == "run" {
            self.answers.clear();
            push_answers(&self.sunk, &mut self.answers, page);
            page.check(self.all.extend_from_slice(&self.answers));
        }
    }
}

/// The octets of a header before the position, and those up to the number behind it.
const BEFORE_POSITION: usize = 8;

const NUMBER: usize = 16;

/// Whether an answer says that a command was handled, done or refused.
pub fn is_handled(answer: &Answer, sunk: &[u8]) -> bool {
    (answer.code == DONE || answer.code == REFUSED) && answer.body(sunk).is_some()
}

/// Whether an answer is a frame that was protected, or of a command that drew a number of a key.
fn uses_number(answer: &Answer) -> bool {
    answer.code == PROTECTED || (answer.code == DONE && answer.key != 0)
}

/// What is wrong if one answer comes behind the other.
fn repeat_by(first: &Answer, later: &Answer) -> Option<&'static str> {
    if !first.has_number_of(later) {
        None
    } else if uses_number(first) && uses_number(later) {
        Some("a number was used twice")
    } else if first.code == ACCEPTED && later.code == ACCEPTED {
        Some("a number was accepted twice")
    } else {
        None
    }
}

/// That a number of a key was used for two of these answers, or accepted twice.
pub fn repeat_in(answers: &[Answer]) -> Option<&'static str> {
    for (place, later) in answers.iter().enumerate() {
        let earlier = answers.get(..place).unwrap_or(&[]);
        if let Some(repeat) = earlier.iter().find_map(|first| repeat_by(first, later)) {
            return Some(repeat);
        }
    }
    None
}

/// What was written, as text.
pub fn text_of(octets: &[u8]) -> &str {
    str::from_utf8(octets).unwrap_or("no text")
}

/// How many answers of each code there are, as ` CODE xCOUNT`, but of no refusal.
fn write_codes(answers: &[Answer], page: &mut Page) {
    for code in 0..=255u8 {
        let count = answers.iter().filter(|answer| answer.code == code).count();
        if count > 0 && code != REFUSED {
            write!(page, " {code:02x} x{count}");
        }
    }
}

/// How many refusals of commands there are with each detail, as ` 04:DETAIL xCOUNT`.
fn write_refusals(answers: &[Answer], page: &mut Page) {
    for detail in 0..=255u8 {
        let refusals = answers.iter().filter(|answer| answer.code == REFUSED);
        let count = refusals.filter(|answer| answer.detail == detail).count();
        if count > 0 {
            write!(page, " {REFUSED:02x}:{detail:02x} x{count}");
        }
    }
}

/// The SHA-256 digest of all answers in their order, each without its position.
fn write_digest<R>(disk: &Disk<'_, R>, page: &mut Page) {
    let sunk = disk.sunk.as_slice();
    let mut hasher = Sha256::new();
    for answer in disk.answers.iter() {
        let position = answer.at.saturating_add(BEFORE_POSITION);
        let number = answer.at.saturating_add(NUMBER);
        hasher.update(sunk.get(answer.at..position).unwrap_or(&[]));
        hasher.update(sunk.get(number..answer.to).unwrap_or(&[]));
    }
    page.push_digits(hasher.finalize().as_slice());
}

/// How many answers of each kind the last run wrote, and a digest of all.
pub fn write_answers<R>(disk: &Disk<'_, R>, page: &mut Page) {
    page.push_str("answers");
    write_codes(&disk.answers, page);
    write_refusals(&disk.answers, page);
    page.push_str("\ndigest ");
    write_digest(disk, page);
}

/// An answer of the last run in words: code, detail, key, number and body.
pub fn write_answer<R>(disk: &Disk<'_, R>, place: usize, page: &mut Page) {
    let Some(answer) = disk.answers.get(place) else {
        return page.push_str("no answer");
    };
    write!(page, "code {:02x} ", answer.code);
    write!(page, "detail {:02x} ", answer.detail);
    write!(page, "key {} number {} body ", answer.key, answer.number);
    page.push_digits(answer.body(&disk.sunk).unwrap_or(&[]));
    page.push_str(".");
}

/// How many lines begin with this word and have that one in them.
fn count_of(text: &str, first: &str, word: &str) -> usize {
    let lines = text.lines().filter(|line| cut(line).0 == first);
    lines
        .filter(|line| line.split_whitespace().any(|other| other == word))
        .count()
}

/// How many lines begin with this word, and how many of them have each of these states.
fn write_kind(text: &str, first: &str, states: &[&str], page: &mut Page) {
    write!(page, "{first} lines {}", count_of(text, first, first));
    for state in states {
        write!(page, " {state} {}", count_of(text, first, state));
    }
}

/// How many lines a text of a state has of each kind.
pub fn write_lines(text: &str, page: &mut Page) {
    let states = ["preactive", "active", "deactivated", "destroyed"];
    write_kind(text, "key", &states, page);
    page.push_str("\n");
    write_kind(text, "sa", &["unkeyed", "keyed", "operational"], page);
}

/// The first line of a text of a state, how many lines it has of each kind, and its digest.
pub fn write_state(text: &str, page: &mut Page) {
    page.push_str(text.lines().next().unwrap_or(""));
    page.push_str("\n");
    write_lines(text, page);
    page.push_str("\nstate ");
    page.push_digits(Sha256::digest(text.as_bytes()).as_slice());
}
