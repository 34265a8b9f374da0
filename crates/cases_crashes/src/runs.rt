//! Runs over one image and one input, and what is judged of them: stops, a call that fails, memory that is refused.
//! The items of a recorded input, and frames of spacecraft 1 in clear.

use crate::disk::{Disk, Trouble};
use case_lines::{Page, number_at, word_at};
use case_units::{Answer, crash_of, place_of, push_record};
use record_io::code;
use record_io::status::{DONE, NO_MEMORY, SITE_FAULT};
use sdls_outside::Crash;
use std::alloc::Global;
use std::mem;
use std::sync::Wait;
use std::thread::Threads;

/// More calls than a run makes.
const MOST_CALLS: u64 = 256;

/// How often `stat` opens an image behind a crash.
const OPENINGS: u8 = 3;

/// The disk of a unit, and the input of a run over its image. Behind that run comes another one, over a later input if
/// there is one, or over the same. In the place of runs there may be calls of `stat`. The other disks are those on
/// which runs are judged: the one that is tried, and those of runs that it is compared with.
#[derive(Drop)]
pub struct Runs<'a, R> {
    pub disk: Disk<'a, R>,
    pub items: Items,
    pub later: Option<Items>,
    word: &'static str,
    tried: Disk<'a, R>,
    whole: Disk<'a, R>,
    alone: Disk<'a, R>,
}

/// Whether the answers of a run are so many, and behind them End with the status of a fault, the count of the run's
/// entries, and one fault.
fn end_behind<R>(disk: &Disk<'_, R>, count: usize) -> bool {
    disk.answers.split_last().is_some_and(|(last, before)| {
        last.code == code::END
            && last.detail == SITE_FAULT
            && last.position == disk.entries as u64
            && last.number == 1
            && before.len() == count
    })
}

/// What may come in the place of an answer if memory is refused: out of memory, a fault of a site that could not grow,
/// and End with such a status.
fn is_refusal(answer: &Answer) -> bool {
    match answer.code {
        code::NO_MEMORY | code::SITE_FAULT | code::STOPPED => true,
        code::END => answer.detail != DONE,
        _ => false,
    }
}

/// The octets that a run put before the first such answer.
fn front<'a, R>(disk: &'a Disk<'_, R>) -> &'a [u8] {
    let refusal = disk.answers.iter().find(|answer| is_refusal(answer));
    let to = refusal.map_or(disk.sunk.len(), |answer| answer.at);
    disk.sunk.get(..to).unwrap_or(&[])
}

/// Whether a run ended in one of the ways that it may.
fn ends<R>(disk: &Disk<'_, R>) -> bool {
    matches!(disk.status, DONE | NO_MEMORY | SITE_FAULT)
}

impl<'a, R> Runs<'a, R> {
    /// No image and no input.
    pub fn new(rt: &'a R, alloc: Global) -> Runs<'a, R> {
        Runs {
            disk: Disk::new(rt, alloc),
            items: Items::new(alloc),
            later: None,
            word: "run",
            tried: Disk::new(rt, alloc),
            whole: Disk::new(rt, alloc),
            alone: Disk::new(rt, alloc),
        }
    }

    /// Begins the input of a run, behind which comes one over the same.
    pub fn begin(&mut self) {
        self.later = None;
        self.items.clear();
    }

    /// The input that was begun last.
    pub fn last_items(&mut self) -> &mut Items {
        match &mut self.later {
            Some(later) => later,
            None => &mut self.items,
        }
    }

    /// Whether `stat` wrote and left the same as another one.
    fn is_same(&self) -> bool {
        self.tried.status == self.whole.status
            && self.tried.sunk.as_slice() == self.whole.sunk.as_slice()
            && self.tried.image.as_slice() == self.whole.image.as_slice()
    }

    /// Whether the image that a run left has these octets.
    fn has(&self, octets: &[u8]) -> bool {
        place_of(&self.tried.image, octets).is_some()
    }

    /// Whether a run in which one call failed put what is due. If the call opens the image, this is End alone; if it
    /// writes answers, a front of those of the whole run, and nothing more; else an answer for each record, and End.
    fn is_due(&self, is_opening: bool) -> bool {
        let sunk = self.tried.sunk.as_slice();
        let is_put = match self.tried.failed_put {
            _ if is_opening => end_behind(&self.tried, 0),
            Some(length) => length == sunk.len() && self.whole.sunk.starts_with(sunk),
            None => end_behind(&self.tried, self.items.places.len()),
        };
        is_put && self.tried.status == SITE_FAULT
    }
}

impl<R: Threads + Wait + Sync> Runs<'_, R> {
    /// Calls the unit over the image.
    fn first(&mut self, trouble: Trouble, page: &mut Page) {
        self.tried.begin(&self.disk.image, page);
        self.tried
            .call(self.word, &self.items.octets, trouble, page);
    }

    /// What `stat` says of the image, which stays as it is.
    pub fn stat_apart(&mut self, page: &mut Page) -> &[u8] {
        self.tried.begin(&self.disk.image, page);
        self.tried.call("stat", &[], Trouble::None, page);
        self.tried.sunk.as_slice()
    }

    /// Calls it once more, over what is left.
    fn next(&mut self, page: &mut Page) {
        let items = self.later.as_ref().unwrap_or(&self.items);
        self.tried
            .call(self.word, &items.octets, Trouble::None, page);
    }

    /// Calls it over the image without trouble, and keeps the disk to compare with.
    fn go_whole(&mut self, page: &mut Page) {
        self.first(Trouble::None, page);
        mem::swap(&mut self.whole, &mut self.tried);
    }

    /// What is wrong with the next run, behind another one. Empty if nothing is. Where it has an input of its own, each
    /// of its frames is protected.
    fn flaw_of_next(&mut self, gone: &[u8], page: &mut Page) -> &'static str {
        self.next(page);
        let frames = self.later.as_ref().map_or(0, |later| later.frames);
        if self.tried.status != DONE {
            "the next run does not end well"
        } else if self.has(gone) {
            "the next run has the octets"
        } else if self.tried.count_of(code::PROTECTED) < frames {
            "the next run does not protect each frame"
        } else {
            self.tried.repeat().unwrap_or("")
        }
    }

    /// What is wrong with the calls of `stat` behind one that met a stop.
    fn flaw_of_stats(&mut self, page: &mut Page) -> &'static str {
        for _ in 0..OPENINGS {
            self.next(page);
            if !self.is_same() {
                return "the next one is not as without the stop";
            }
        }
        ""
    }

    /// What is wrong with a stop at a call. None if the call meets none, and leaves no octets that are to be gone.
    fn flaw_at(&mut self, trouble: Trouble, gone: &[u8], page: &mut Page) -> Option<&'static str> {
        self.first(trouble, page);
        match self.tried.status {
            DONE | SITE_FAULT if self.has(gone) => Some("the octets are left"),
            DONE => None,
            SITE_FAULT if self.word == "stat" => Some(self.flaw_of_stats(page)),
            SITE_FAULT => Some(self.flaw_of_next(gone, page)),
            _ => Some("it ends otherwise"),
        }
    }

    /// Writes what is wrong with the stops from a call on: `N stops, sound` if nothing is. Behind a run that meets one
    /// no number stands twice, and the octets that are to be gone, if any, stand nowhere. `stat` says and leaves what
    /// it does without the stop.
    pub fn judge_stops(&mut self, first: u64, crash: Crash, gone: &[u8], page: &mut Page) {
        let mut stops = 0u64;
        for call in first..MOST_CALLS {
            match self.flaw_at(Trouble::Stop(call, crash), gone, page) {
                None => return write!(page, "{stops} stops, sound"),
                Some("") => stops = stops.saturating_add(1),
                Some(flaw) => return write!(page, "a stop at call {call}: {flaw}"),
            }
        }
        page.push_str("no end");
    }

    /// The same of `stat`, which ends well without a stop.
    pub fn judge_stats(&mut self, crash: Crash, page: &mut Page) {
        self.word = "stat";
        self.go_whole(page);
        match self.whole.status {
            DONE => self.judge_stops(0, crash, &[], page),
            _ => page.push_str("it does not end well"),
        }
        self.word = "run";
    }

    /// Whether the next run is sound behind one in which a call failed: if it opens the image, the next run writes what
    /// it does alone.
    fn is_next_due(&mut self, is_opening: bool, page: &mut Page) -> bool {
        let flaw = self.flaw_of_next(&[], page);
        let is_as_alone = self.tried.sunk.as_slice() == self.alone.sunk.as_slice();
        flaw.is_empty() && (is_as_alone || !is_opening)
    }

    /// Writes how many calls there are that open the image, that write answers, and that store a change or sync; or the
    /// first that fails with something wrong in its run or in the next one behind such a crash. `OPENING KIND`, and
    /// perhaps `written`: so many calls open the image.
    pub fn judge_failing(&mut self, line: &str, page: &mut Page) {
        self.go_whole(page);
        self.tried.begin(&self.disk.image, page);
        self.next(page);
        mem::swap(&mut self.alone, &mut self.tried);
        let (opening, crash) = (number_at(line, 0), crash_of(word_at(line, 1)));
        let is_written = word_at(line, 2) == "written";
        let (mut puts, mut others) = (0u64, 0u64);
        for call in 0..MOST_CALLS {
            self.first(Trouble::Fault(call, is_written, crash), page);
            if self.tried.status == DONE {
                write!(page, "{opening} calls of the opening, ");
                return write!(page, "{puts} puts, {others} others, sound");
            }
            let (is_opening, is_put) = (call < opening, self.tried.failed_put.is_some());
            if !self.is_due(is_opening) || !self.is_next_due(is_opening, page) {
                return write!(page, "call {call} fails: not what is due");
            }
            if is_put {
                puts = puts.saturating_add(1);
            } else if !is_opening {
                others = others.saturating_add(1);
            }
        }
        page.push_str("no end");
    }

    /// What is wrong with a run and the next one. Empty if nothing is. Memory is refused once, so to one of them at
    /// most.
    fn flaw_of_refused(&mut self, page: &mut Page) -> &'static str {
        let faults = self.tried.count_of(code::SITE_FAULT);
        if faults.max(self.tried.count_of(code::STOPPED)) > 0 && self.tried.status != SITE_FAULT {
            return "the site failed, and the run ends otherwise";
        }
        let is_refused = self.tried.answers.iter().any(|answer| is_refusal(answer));
        self.next(page);
        if self.tried.status != DONE && (is_refused || !ends(&self.tried)) {
            return "the next run does not open the image";
        }
        self.tried.repeat().unwrap_or("")
    }

    /// What is wrong with two runs over the input, of which memory is refused to one at most, and with the next run
    /// behind each: `sound` if nothing is.
    fn flaw_of_two(&mut self, page: &mut Page) -> &'static str {
        if !ends(&self.whole) || !ends(&self.tried) {
            return "another end";
        }
        let (one, other) = (front(&self.whole), front(&self.tried));
        if !one.starts_with(other) && !other.starts_with(one) {
            return "another answer";
        }
        let flaw = self.flaw_of_refused(page);
        if !flaw.is_empty() {
            return flaw;
        }
        mem::swap(&mut self.whole, &mut self.tried);
        match self.flaw_of_refused(page) {
            "" => "sound",
            flaw => flaw,
        }
    }

    /// Writes what is wrong with two such runs.
    pub fn judge_refused(&mut self, page: &mut Page) {
        self.go_whole(page);
        self.first(Trouble::None, page);
        let flaw = self.flaw_of_two(page);
        page.push_str(flaw);
    }
}

/// What a record is handed for, as its header says.
pub const PROTECT: u8 = 1;

pub const OPEN: u8 = 2;

pub const COMMAND: u8 = 3;

/// The link of the frames that go up, and of those that come down.
pub const UP: u8 = 0;

pub const DOWN: u8 = 1;

/// What a data field begins with: what it is for, its number, and how many octets of a message follow.
const FIELD_HEADER: usize = 6;

/// What a data field is for: a command, data, telemetry or a report.
pub const ORDER: u8 = b'c';

pub const DATA: u8 = b'd';

pub const TELEMETRY: u8 = b't';

pub const REPORT: u8 = b'r';

/// What a data field says.
#[derive(Clone, Copy)]
pub struct Field<'a> {
    pub what: u8,
    pub number: u64,
    pub message: &'a [u8],
}

impl<'a> Field<'a> {
    pub fn new(what: u8, number: u64, message: &'a [u8]) -> Field<'a> {
        Field {
            what,
            number,
            message,
        }
    }
}

/// The octets of a frame before its data field, and of all of it.
fn sizes(link: u8) -> (usize, usize) {
    match link {
        UP => (5, 65),
        _ => (6, 72),
    }
}

/// The data field of a frame in clear.
pub fn field_in(link: u8, frame: &[u8]) -> &[u8] {
    let (header, _) = sizes(link);
    frame.get(header..).unwrap_or(&[])
}

/// What a data field says.
pub fn field_of(octets: &[u8]) -> Option<Field<'_>> {
    let (head, behind) = octets.split_at_checked(FIELD_HEADER)?;
    let [what, a, b, c, d, length] = head else {
        return None;
    };
    let number = u64::from(u32::from_be_bytes([*a, *b, *c, *d]));
    let message = behind.get(..usize::from(*length))?;
    Some(Field::new(*what, number, message))
}

/// Items, where the octets of each record begin and end in them, and how many are frames to be protected.
#[derive(Drop)]
pub struct Items {
    pub octets: Vec<u8>,
    pub places: Vec<(usize, usize)>,
    pub frames: usize,
}

impl Items {
    pub fn new(alloc: Global) -> Items {
        Items {
            octets: Vec::new(alloc),
            places: Vec::new(alloc),
            frames: 0,
        }
    }

    /// Adds a record.
    pub fn push(&mut self, kind: u8, lane: u8, link: u8, octets: &[u8], page: &mut Page) {
        page.check(push_record(&mut self.octets, kind, lane, link, octets));
        let to = self.octets.len();
        page.check(self.places.push((to.saturating_sub(octets.len()), to)));
        if kind == PROTECT {
            self.frames = self.frames.saturating_add(1);
        }
    }

    /// Adds a frame that is to be protected, with zeros behind the message of its data field: a TC frame on link 0
    /// (CCSDS 232.0-B-4), or a TM frame on link 1 (CCSDS 132.0-B-3).
    pub fn push_frame(&mut self, link: u8, channel: u8, field: Field<'_>, page: &mut Page) {
        let (_, length) = sizes(link);
        let mut frame = match link {
            UP => page.copy(&[0, 1, channel % 64 * 4, 64, 0]),
            _ => page.copy(&[0, 16 + channel % 8 * 2, 0, 0, 0x18, 0]),
        };
        let [_, _, _, _, a, b, c, d] = field.number.to_be_bytes();
        let head = [field.what, a, b, c, d, (field.message.len() % 256) as u8];
        page.check(frame.extend_from_slice(&head));
        page.check(frame.extend_from_slice(field.message));
        page.check(frame.resize(length, 0));
        self.push(PROTECT, 0, link, &frame, page);
    }

    /// Leaves none.
    pub fn clear(&mut self) {
        self.octets.clear();
        self.places.clear();
        self.frames = 0;
    }
}
