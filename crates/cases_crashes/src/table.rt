//! The steps, and what they answer.

use crate::disk::{Trouble, text_of, write_answer, write_answers, write_lines, write_state};
use crate::life::Life;
use crate::runs::{COMMAND, Items, OPEN, PROTECT, Runs};
use case_lines::{Gathered, Page, cut, length_at, number_at, octets_at, set_octets_at, word_at};
use case_units::{FENCE, crash_of, image_of, image_of_version_one, place_of};
use std::alloc::Global;
use std::mem;
use std::sync::Wait;
use std::thread::Threads;

/// What was gathered: a plan, the runs, the items of the last one, and whether little is to be printed.
#[derive(Drop)]
pub struct Table<'a, R> {
    rt: &'a R,
    plan: Gathered,
    runs: Runs<'a, R>,
    last: Items,
    is_brief: bool,
}

impl<'a, R> Table<'a, R> {
    /// A table of which nothing was read.
    pub fn new(rt: &'a R, alloc: Global) -> Table<'a, R> {
        Table {
            rt,
            plan: Gathered::new(alloc),
            runs: Runs::new(rt, alloc),
            last: Items::new(alloc),
            is_brief: false,
        }
    }

    /// Takes the image that is made of the plan, if it is one.
    fn make(&mut self, word: &str, page: &mut Page) {
        let plan = self.plan.as_str().as_bytes();
        let made = match word {
            "unit_one" => image_of_version_one(page.alloc(), plan),
            _ => image_of(page.alloc(), plan),
        };
        self.plan.clear();
        match made {
            Some(image) => self.runs.disk.begin(&image, page),
            None => page.push_str("no unit"),
        }
    }

    /// Writes whether these octets stand in the image.
    fn look(&self, digits: &str, page: &mut Page) {
        let octets = page.octets_at(digits, 0);
        let place = place_of(&self.runs.disk.image, &octets);
        page.push_str(place.map_or("nowhere", |_| "there"));
    }

    /// Takes a step on the plan or the image.
    fn take_image_step(&mut self, word: &str, rest: &str, page: &mut Page) {
        let image = &mut self.runs.disk.image;
        match word {
            "plan" => page.check(self.plan.push(rest)),
            "unit" | "unit_one" => self.make(word, page),
            "set" => page.check(set_octets_at(page.alloc(), image, rest)),
            "octets" => page.push_digits(octets_at(image, rest)),
            "length" => write!(page, "{} octets", image.len()),
            "look" => self.look(rest, page),
            _ => page.push_str("no step"),
        }
    }

    /// Gathers a record: the octets, of a frame a link before them, and perhaps a lane before that.
    fn push(&mut self, kind: u8, rest: &str, page: &mut Page) {
        let mut words = rest.split_whitespace();
        let octets = page.octets_at(words.next_back().unwrap_or(""), 0);
        let link = match kind {
            COMMAND => 0,
            _ => words.next_back().unwrap_or("").parse().unwrap_or(0),
        };
        let lane = words.next().unwrap_or("").parse().unwrap_or(0);
        self.runs.last_items().push(kind, lane, link, &octets, page);
    }

    /// Takes a step that gathers an input, or another one.
    fn take_item_step(&mut self, word: &str, rest: &str, page: &mut Page) {
        let items = self.last.octets.as_slice();
        match word {
            "records" => self.runs.begin(),
            "next" => self.runs.later = Some(Items::new(page.alloc())),
            "brief" => self.is_brief = true,
            "protect" => self.push(PROTECT, rest, page),
            "open" => self.push(OPEN, rest, page),
            "command" => self.push(COMMAND, rest, page),
            "fence" => page.check(self.runs.last_items().octets.extend_from_slice(FENCE)),
            "again" => page.check(self.runs.items.octets.extend_from_slice(items)),
            _ => self.take_image_step(word, rest, page),
        }
    }
}

impl<R: Threads + Wait + Sync> Table<'_, R> {
    /// A run over the image that the last one left, and over the items: writes how it ended, and the answers.
    fn write_run(&mut self, word: &str, rest: &str, page: &mut Page) {
        let trouble = match word {
            "crash" => Trouble::Stop(number_at(rest, 0), crash_of(word_at(rest, 1))),
            _ => Trouble::None,
        };
        mem::swap(&mut self.last, &mut self.runs.items);
        self.runs.items.clear();
        let disk = &mut self.runs.disk;
        disk.call("run", &self.last.octets, trouble, page);
        write!(page, "status {}", disk.status);
        match word {
            "run_on" => return write!(page, " answers {}", disk.answers.len()),
            "crash" => page.push_str("\n"),
            _ => write!(page, " entries {}\n", disk.entries),
        }
        write_answers(disk, page);
    }

    /// Writes what `stat` says of the image, and takes the image that it leaves.
    fn stat(&mut self, page: &mut Page) {
        self.runs.disk.call("stat", &[], Trouble::None, page);
        page.push_str(text_of(&self.runs.disk.sunk).trim_end());
    }

    /// Writes of what `stat` says of the image a digest and counts, or these alone.
    fn digest(&mut self, word: &str, page: &mut Page) {
        let text = text_of(self.runs.stat_apart(page));
        match word {
            "stat" => write_state(text, page),
            _ => write_lines(text, page),
        }
    }

    /// Writes what is wrong with stops behind which octets are to be gone: `FIRST KIND OCTETS`.
    fn gone(&mut self, rest: &str, page: &mut Page) {
        let octets = page.octets_at(rest, 2);
        let (first, crash) = (number_at(rest, 0), crash_of(word_at(rest, 1)));
        self.runs.judge_stops(first, crash, &octets, page);
    }

    /// A life of two units: `SEED ROUNDS`.
    fn life(&self, rest: &str, page: &mut Page) {
        let (seed, rounds) = (number_at(rest, 0), number_at(rest, 1));
        let verdict = Life::new(self.rt, page.alloc(), seed).live(seed, rounds, page);
        write!(page, "life {rest} {verdict}");
    }

    /// Takes a step that judges many runs, or another one.
    fn take_judging_step(&mut self, word: &str, rest: &str, page: &mut Page) {
        match word {
            "stops" => self.runs.judge_stops(0, crash_of(rest), &[], page),
            "failing" => self.runs.judge_failing(rest, page),
            "refused" => self.runs.judge_refused(page),
            "gone" => self.gone(rest, page),
            "stats" => self.runs.judge_stats(crash_of(rest), page),
            "life" => self.life(rest, page),
            _ => self.take_item_step(word, rest, page),
        }
    }

    /// Takes a step, and writes what it answers. A title is written as it is.
    pub fn answer(&mut self, line: &str, page: &mut Page) {
        let (word, rest) = cut(line);
        let none = "no number was used twice, and none was accepted twice";
        match word {
            "#" => page.push_str(line),
            "run" | "run_on" | "crash" => self.write_run(word, rest, page),
            "answer" => write_answer(&self.runs.disk, length_at(rest, 0), page),
            "numbers" => page.push_str(self.runs.disk.repeat().unwrap_or(none)),
            "stat" if !self.is_brief => self.stat(page),
            "stat" | "stat_lines" => self.digest(word, page),
            _ => self.take_judging_step(word, rest, page),
        }
    }
}
