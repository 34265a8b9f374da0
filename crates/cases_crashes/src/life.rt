//! A life of two units on one link: a ground station that sends commands and data up, and changes keys at both ends step
//! by step, and a spacecraft that sends telemetry and reports down.

use crate::disk::is_handled;
use crate::runs::{COMMAND, DATA, DOWN, Field, ORDER, REPORT, TELEMETRY, UP, field_of};
use crate::station::{Station, Way};
use case_lines::Page;
use case_units::{Answer, image_of};
use record_io::code::{ACCEPTED, DONE};
use std::alloc::Global;
use std::sync::Wait;
use std::thread::Threads;

/// Numbers that look random, and are the same for a seed, by a linear congruential generator (Knuth, The Art of
/// Computer Programming, volume 2, 3.3.4: MMIX).
#[derive(Drop)]
pub struct Chance {
    state: u64,
}

impl Chance {
    /// One of so many numbers from 0 on; 0 if there are none.
    pub fn below(&mut self, count: u64) -> u64 {
        let product = self.state.wrapping_mul(6_364_136_223_846_793_005);
        self.state = product.wrapping_add(1_442_695_040_888_963_407);
        (self.state >> 33).checked_rem(count).unwrap_or(0)
    }
}

/// Keys of this life, from one on.
fn write_keys(seed: u64, first: u64, count: u64, state: &str, plan: &mut Page) {
    for more in 0..count {
        let key = first.saturating_add(more);
        write!(plan, "key {key} {state} {seed:016x}{key:016x}\n");
    }
}

/// The plan of one of the two units, with so many keys of each suite in store: what it does with what goes up, which
/// are commands and data, and with what comes down, which are telemetry and reports. A bank has so few slots that the
/// banks turn in each life.
fn write_plan(seed: u64, device: &str, up: &str, down: &str, stored: u64, plan: &mut Page) {
    write!(
        plan,
        "sdls 1\ndevice {device}\nslots 16\nblock 4\naccept 4\n"
    );
    plan.push_str(
        "link 0 tc noseg fecf -
link 1 tm 96 fecf -
channel 0 0 1 0 -
channel 1 0 1 1 -
channel 2 1 1 0 -
channel 3 1 1 1 -
",
    );
    write_keys(seed, 1, 1, "active", plan);
    write_keys(seed, 256, 1, "active", plan);
    write_keys(seed, 32_769, 3, "active", plan);
    write_keys(seed, FIRST_GCM, stored, "preactive", plan);
    write_keys(seed, FIRST_CMAC, stored, "preactive", plan);
    write!(plan, "sa 1 {up} cmac 32769 1 4096 0\n");
    write!(plan, "sa 2 {up} gcm 256 1 4096 1\n");
    write!(plan, "sa 3 {down} cmac 32771 1 4096 2\n");
    write!(plan, "sa 4 {down} cmac 32770 1 4096 3\n");
}

/// Makes the image of a unit of this plan. Says whether there is one.
fn begin<R>(station: &mut Station<'_, R>, plan: &Page) -> bool {
    let image = image_of(plan.alloc(), plan.written().unwrap_or("").as_bytes());
    station.disk.image = image.unwrap_or(Vec::new(plan.alloc()));
    !station.disk.image.is_empty()
}

/// The keys of each suite that a ground station has in store.
const STORED: u64 = 8;

/// The first of them of the GCM class, and of the CMAC class.
const FIRST_GCM: u64 = 301;

const FIRST_CMAC: u64 = 40_001;

/// The number with which a new key begins: above all that its verification draws.
const FIRST_NUMBER: u64 = 1_000;

const CHALLENGE: [u8; 16] = [0x5a; 16];

/// The octets of a message before its data.
const MESSAGE_HEADER: usize = 3;

/// The tags of the commands. `LOAD` stands for the message that Compose makes.
const COMPOSE: u8 = 0x08;

const LOAD: u8 = 0x01;

const ACTIVATE: u8 = 0x02;

const VERIFY: u8 = 0x04;

const REKEY: u8 = 0x16;

const EXPIRE: u8 = 0x19;

const START: u8 = 0x1b;

const STOP: u8 = 0x1e;

/// How an association gets its next key: the tag of each step, and whether the spacecraft handles it or the ground
/// station. The ground station composes the message that loads the key. The spacecraft loads the key, activates it and
/// proves that it has it. Then both ends rekey, and start with the new key.
const STEPS: [(u8, bool); 13] = [
    (COMPOSE, false),
    (LOAD, true),
    (ACTIVATE, true),
    (VERIFY, true),
    (ACTIVATE, false),
    (STOP, false),
    (EXPIRE, false),
    (REKEY, false),
    (STOP, true),
    (EXPIRE, true),
    (REKEY, true),
    (START, true),
    (START, false),
];

/// The changes of keys: how many began and how many ended, the place of the step that is due, its number over the whole
/// life, and what Compose made.
#[derive(Drop)]
struct Script {
    begun: u64,
    ended: u64,
    at: usize,
    serial: u64,
    composed: Vec<u8>,
}

impl Script {
    fn new(alloc: Global) -> Script {
        Script {
            begun: 0,
            ended: 0,
            at: STEPS.len(),
            serial: 1,
            composed: Vec::new(alloc),
        }
    }

    /// Begins the change of the next key, if none is under way: of the two associations in turn.
    fn begin(&mut self) {
        if self.at < STEPS.len() || self.begun >= STORED {
            return;
        }
        self.begun = self.begun.saturating_add(1);
        self.at = 0;
        self.composed.clear();
    }

    /// The step that is due: its tag, and whether it goes over the link.
    fn due(&self) -> Option<(u8, bool)> {
        STEPS.get(self.at).copied()
    }

    /// Goes on to the next step.
    fn advance(&mut self) {
        self.at = self.at.saturating_add(1);
        self.serial = self.serial.saturating_add(1);
        if self.at == STEPS.len() {
            self.ended = self.ended.saturating_add(1);
        }
    }

    /// The message of a step with this tag: tag, length in bits, data.
    fn message(&self, tag: u8, page: &mut Page) -> Vec<u8> {
        let change = self.begun.saturating_sub(1);
        let (spi, first) = match change % 2 {
            0 => (2, FIRST_GCM),
            _ => (3, FIRST_CMAC),
        };
        let [high, low] = ((first.saturating_add(change) % 65_536) as u16).to_be_bytes();
        let mut message = match tag {
            COMPOSE => page.copy(&[tag, 0, 32, 0, 1, high, low]),
            LOAD => page.copy(&self.composed),
            ACTIVATE => page.copy(&[tag, 0, 16, high, low]),
            VERIFY => page.copy(&[tag, 0, 144, high, low]),
            REKEY => page.copy(&[tag, 0, 96, 0, spi, high, low]),
            _ => page.copy(&[tag, 0, 16, 0, spi]),
        };
        match tag {
            VERIFY => page.check(message.extend_from_slice(&CHALLENGE)),
            REKEY => page.check(message.extend_from_slice(&FIRST_NUMBER.to_be_bytes())),
            _ => {}
        }
        message
    }

    /// Goes on behind the step that is due, which was handled at the ground station.
    fn handled(&mut self, answer: &Answer, sunk: &[u8], page: &mut Page) {
        if self.at == 0 {
            let message = answer.body_of(DONE, sunk).unwrap_or(&[]);
            let made = message.get(MESSAGE_HEADER..).unwrap_or(&[]);
            page.check(self.composed.extend_from_slice(made));
        }
        self.advance();
    }

    /// Goes on behind the step with this number, which was reported as handled, if it is due.
    fn reported(&mut self, serial: u64) {
        if self.serial == serial {
            self.advance();
        }
    }
}

impl<R> Station<'_, R> {
    /// The step of the last command that a run handled, if it handled one. The steps are forgotten.
    fn take_handled(&mut self) -> Option<u64> {
        let disk = &self.disk;
        let mut handled = None;
        for (step, answer) in self.steps.iter().zip(disk.answers.iter()) {
            if is_handled(answer, &disk.sunk) {
                handled = Some(*step);
            }
        }
        self.steps.clear();
        handled
    }

    /// Takes what a run accepted. A command in it waits for the next run.
    fn take_orders(&mut self, up: &mut Way, page: &mut Page) {
        let disk = &self.disk;
        for answer in disk.answers.iter() {
            if let Some(octets) = answer.body_of(ACCEPTED, &disk.sunk) {
                up.accept(answer, octets, page);
                if let Some(field) = field_of(octets)
                    && field.what == ORDER
                {
                    self.orders.push(COMMAND, 0, 0, field.message, page);
                    page.check(self.steps.push(field.number));
                }
            }
        }
    }
}

/// Both units and the two ways between them: a ground station, and the changes of keys that it makes step by step; a
/// spacecraft, and the number of the last step that it handled.
#[derive(Drop)]
pub struct Life<'a, R> {
    ground: Station<'a, R>,
    script: Script,
    spacecraft: Station<'a, R>,
    handled: u64,
    up: Way,
    down: Way,
    chance: Chance,
}

impl<'a, R> Life<'a, R> {
    pub fn new(rt: &'a R, alloc: Global, seed: u64) -> Life<'a, R> {
        Life {
            ground: Station::new(rt, alloc),
            script: Script::new(alloc),
            spacecraft: Station::new(rt, alloc),
            handled: 0,
            up: Way::new(alloc, UP),
            down: Way::new(alloc, DOWN),
            chance: Chance { state: seed },
        }
    }

    /// Makes the images of both units. Says whether there are any.
    fn begin(&mut self, seed: u64, alloc: Global) -> bool {
        let mut plan = Page::new(alloc);
        write_plan(seed, "00000e01", "send", "receive", STORED, &mut plan);
        let is_made = begin(&mut self.ground, &plan);
        plan.clear();
        write_plan(seed, "00000e02", "receive", "send", 0, &mut plan);
        is_made && begin(&mut self.spacecraft, &plan)
    }

    /// Adds the step that is due: to the ground station as a command, to the spacecraft in a frame.
    fn push_step(&mut self, page: &mut Page) {
        let Some((tag, is_far)) = self.script.due() else {
            return;
        };
        let message = self.script.message(tag, page);
        if is_far {
            let field = Field::new(ORDER, self.script.serial, &message);
            self.ground.items.push_frame(UP, 0, field, page);
        } else {
            self.ground.items.push(COMMAND, 0, 0, &message, page);
        }
    }

    /// Gathers what the ground station sends: the step that is due, and data.
    fn gather_up(&mut self, page: &mut Page) {
        self.ground.items.clear();
        self.script.begin();
        self.push_step(page);
        let count = self.chance.below(4);
        self.ground.push_data(count, DATA, UP, 1, page);
    }

    /// Looks whether the step that is due at the ground station was handled in its run.
    fn look(&mut self, page: &mut Page) {
        let disk = &self.ground.disk;
        if let (Some((_, false)), Some(answer)) = (self.script.due(), disk.answers.first())
            && is_handled(answer, &disk.sunk)
        {
            self.script.handled(answer, &disk.sunk, page);
        }
    }

    /// Looks which commands the spacecraft handled in its run.
    fn look_far(&mut self) {
        if let Some(step) = self.spacecraft.take_handled() {
            self.handled = step;
        }
    }

    /// Takes what the spacecraft accepted in a run. A command in it waits for the next run.
    fn receive_up(&mut self, page: &mut Page) {
        self.spacecraft.take_orders(&mut self.up, page);
    }

    /// Gathers what the spacecraft sends: telemetry, and a report of the last step that was handled.
    fn gather_down(&mut self, page: &mut Page) {
        self.spacecraft.items.clear();
        let count = self.chance.below(4);
        self.spacecraft.push_data(count, TELEMETRY, DOWN, 0, page);
        let field = Field::new(REPORT, self.handled, &[]);
        self.spacecraft.items.push_frame(DOWN, 1, field, page);
    }

    /// Takes what the ground station accepted in a run. A report of the step that is due completes it.
    fn receive_down(&mut self, page: &mut Page) {
        let disk = &self.ground.disk;
        for answer in disk.answers.iter() {
            if let Some(octets) = answer.body_of(ACCEPTED, &disk.sunk) {
                self.down.accept(answer, octets, page);
                if let Some(field) = field_of(octets)
                    && field.what == REPORT
                {
                    self.script.reported(field.number);
                }
            }
        }
    }

    /// What went wrong, or what there was too little of to show anything.
    fn verdict(&self, rounds: u64) -> &'static str {
        let repeat = self.ground.disk.repeat().or(self.spacecraft.disk.repeat());
        if let Some(fault) = self.up.fault.or(self.down.fault).or(repeat) {
            fault
        } else if self.ground.deaths.min(self.spacecraft.deaths) < rounds / 10 {
            "few crashes"
        } else if self.up.count().min(self.down.count()) < rounds / 2 {
            "few frames accepted"
        } else if self.script.ended < 2 {
            "few keys changed"
        } else {
            "sound"
        }
    }
}

impl<R: Threads + Wait + Sync> Life<'_, R> {
    /// Two runs: the ground station sends, the spacecraft receives.
    fn go_up(&mut self, round: u64, page: &mut Page) {
        self.gather_up(page);
        self.ground.run(&mut self.chance, page);
        self.ground
            .send(round, &mut self.up, &mut self.chance, page);
        self.look(page);
        self.spacecraft.gather_arrivals(round, &mut self.up, page);
        self.spacecraft.run(&mut self.chance, page);
        self.look_far();
        self.receive_up(page);
    }

    /// Two runs: the spacecraft sends, the ground station receives.
    fn come_down(&mut self, round: u64, page: &mut Page) {
        self.gather_down(page);
        self.spacecraft.run(&mut self.chance, page);
        let (down, chance) = (&mut self.down, &mut self.chance);
        self.spacecraft.send(round, down, chance, page);
        self.ground.gather_arrivals(round, &mut self.down, page);
        self.ground.run(&mut self.chance, page);
        self.receive_down(page);
    }

    /// All rounds: whether all of it was sound.
    pub fn live(&mut self, seed: u64, rounds: u64, page: &mut Page) -> &'static str {
        if !self.begin(seed, page.alloc()) {
            return "no images";
        }
        for round in 0..rounds {
            self.go_up(round, page);
            self.come_down(round, page);
        }
        self.verdict(rounds)
    }
}
