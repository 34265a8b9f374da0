//! The two units of a link, and the ways between them, which lose, repeat and delay frames. What was sent and accepted
//! stands in plain lists.

use crate::disk::{Disk, Trouble};
use crate::life::Chance;
use crate::runs::{Field, Items, OPEN, field_in};
use case_lines::Page;
use case_units::Answer;
use record_io::code::PROTECTED;
use sdls_outside::Crash;
use std::alloc::Global;
use std::mem;
use std::sync::Wait;
use std::thread::Threads;

/// The calls behind an opening in which a site dies: about those of a run.
const WORK_CALLS: u64 = 64;

/// More calls than an opening makes, a power of two, and its exponent.
const MOST_CALLS: u64 = 8_192;

const HALVES: u32 = 13;

fn crash(chance: &mut Chance) -> Crash {
    match chance.below(3) {
        0 => Crash::Kept,
        1 => Crash::Lost,
        _ => Crash::Filled((chance.below(256) % 256) as u8),
    }
}

/// A unit of the link: its disk, the items of its next or last run, the commands that wait for the next run that
/// receives, with the number of the step of each, how many frames of data it sent, and how often its site died. On
/// another disk its openings are tried.
#[derive(Drop)]
pub struct Station<'a, R> {
    pub disk: Disk<'a, R>,
    pub items: Items,
    pub orders: Items,
    pub steps: Vec<u64>,
    sent: u64,
    pub deaths: u64,
    tried: Disk<'a, R>,
}

impl<'a, R> Station<'a, R> {
    pub fn new(rt: &'a R, alloc: Global) -> Station<'a, R> {
        Station {
            disk: Disk::new(rt, alloc),
            items: Items::new(alloc),
            orders: Items::new(alloc),
            steps: Vec::new(alloc),
            sent: 0,
            deaths: 0,
            tried: Disk::new(rt, alloc),
        }
    }

    /// Adds so many frames without a message.
    pub fn push_data(&mut self, count: u64, what: u8, link: u8, channel: u8, page: &mut Page) {
        for _ in 0..count {
            self.sent = self.sent.saturating_add(1);
            let field = Field::new(what, self.sent, &[]);
            self.items.push_frame(link, channel, field, page);
        }
    }

    /// Sends the frames that it protected in its last run, in this round.
    pub fn send(&self, round: u64, way: &mut Way, chance: &mut Chance, page: &mut Page) {
        for ((from, to), answer) in self.items.places.iter().zip(self.disk.answers.iter()) {
            if let Some(frame) = answer.body_of(PROTECTED, &self.disk.sunk) {
                let clear = self.items.octets.get(*from..*to).unwrap_or(&[]);
                way.release(answer, field_in(way.link, clear), page);
                way.send(round, chance.below(8), frame, page);
            }
        }
    }

    /// Gathers the items of a run that receives: the commands that wait, then the frames that arrive.
    pub fn gather_arrivals(&mut self, round: u64, way: &mut Way, page: &mut Page) {
        self.items.clear();
        mem::swap(&mut self.items, &mut self.orders);
        way.arrive(round, &mut self.items, page);
    }
}

impl<R: Threads + Wait + Sync> Station<'_, R> {
    /// Whether a run without items comes to write something, on a site that is dead from this call on.
    fn opens(&mut self, call: u64, page: &mut Page) -> bool {
        self.tried.begin(&self.disk.image, page);
        self.tried
            .call("run", &[], Trouble::Stop(call, Crash::Kept), page);
        !self.tried.sunk.is_empty()
    }

    /// How many calls on its site an opening makes.
    fn opening_calls(&mut self, page: &mut Page) -> u64 {
        let (mut low, mut high) = (0, MOST_CALLS);
        for _ in 0..HALVES {
            let middle = high.saturating_add(low) / 2;
            if self.opens(middle, page) {
                high = middle;
            } else {
                low = middle;
            }
        }
        high
    }

    /// What goes wrong in one run of four: its site dies at a call of the opening, or at one behind it.
    fn trouble(&mut self, chance: &mut Chance, page: &mut Page) -> Trouble {
        let fate = chance.below(12);
        if fate > 2 {
            return Trouble::None;
        }
        self.deaths = self.deaths.saturating_add(1);
        let opening = self.opening_calls(page);
        let call = match fate {
            0 => chance.below(opening),
            _ => opening.saturating_add(chance.below(WORK_CALLS)),
        };
        Trouble::Stop(call, crash(chance))
    }

    /// A run over the items, which may end by a crash.
    pub fn run(&mut self, chance: &mut Chance, page: &mut Page) {
        let trouble = self.trouble(chance, page);
        self.disk.call("run", &self.items.octets, trouble, page);
    }
}

/// After how many rounds a frame arrives. Of eight, one is lost, one comes twice, one a round later and again after
/// three, one two rounds later.
fn delays(fate: u64) -> &'static [u64] {
    match fate {
        0 => &[],
        1 => &[0, 0],
        2 => &[1, 3],
        3 => &[2],
        _ => &[0],
    }
}

/// One way of the link: the frames on it, each with the round in which it arrives; the answers for frames that its
/// sender released, each with the data field; the answers for those that its receiver accepted; and what went wrong
/// first.
#[derive(Drop)]
pub struct Way {
    link: u8,
    flights: Vec<(u64, Vec<u8>)>,
    released: Vec<(Answer, Vec<u8>)>,
    accepted: Vec<Answer>,
    pub fault: Option<&'static str>,
}

impl Way {
    pub fn new(alloc: Global, link: u8) -> Way {
        Way {
            link,
            flights: Vec::new(alloc),
            released: Vec::new(alloc),
            accepted: Vec::new(alloc),
            fault: None,
        }
    }

    /// How many frames were accepted.
    pub fn count(&self) -> u64 {
        self.accepted.len() as u64
    }

    /// Sends a frame in this round.
    fn send(&mut self, round: u64, fate: u64, frame: &[u8], page: &mut Page) {
        for delay in delays(fate) {
            let flight = (round.saturating_add(*delay), page.copy(frame));
            page.check(self.flights.push(flight));
        }
    }

    /// Notes a frame that its sender released, with this data field.
    fn release(&mut self, answer: &Answer, field: &[u8], page: &mut Page) {
        let field = page.copy(field);
        page.check(self.released.push((*answer, field)));
    }

    /// Adds records that open the frames which arrive in this round.
    pub fn arrive(&mut self, round: u64, items: &mut Items, page: &mut Page) {
        for (arrival, frame) in self.flights.iter() {
            if *arrival <= round {
                items.push(OPEN, 0, self.link, frame, page);
            }
        }
        self.flights.retain(|flight| flight.0 > round);
    }

    /// What is wrong with a frame that was accepted.
    fn fault_of(&self, answer: &Answer, field: &[u8]) -> Option<&'static str> {
        let mut released = self.released.iter();
        let mut accepted = self.accepted.iter();
        match released.find(|sent| sent.0.has_number_of(answer)) {
            None => Some("accepted a frame that was not sent"),
            Some((_, sent)) if sent.as_slice() != field => Some("accepted another data field"),
            _ if accepted.any(|other| other.key == answer.key && other.number >= answer.number) => {
                Some("accepted a number twice, or out of order")
            }
            _ => None,
        }
    }

    /// Notes a frame that its receiver accepted, with this data field.
    pub fn accept(&mut self, answer: &Answer, field: &[u8], page: &mut Page) {
        if self.fault.is_none() {
            self.fault = self.fault_of(answer, field);
        }
        page.check(self.accepted.push(*answer));
    }
}
