//! A state, what changes, messages and frames make of it, and the steps of scenarios.
//!
//! Each function makes few of the calls that are tested: what the clauses of several say together takes long to prove.

ghost use Rattle.std.specs.Prelude.{IfOk, IfSome};
ghost use Rattle.ep_codec.specs.Command.{IsInBounds};
ghost use Rattle.unit_state.specs.Restart.{IsLight};
ghost use Rattle.frame_shield.specs.Binding.{IsBinding};

use crate::shielding::protected;
use crate::{cases, changes, messages};
use case_lines::{
    Answers, Digits, Gathered, Page, Words, cut, direction_name, key_state_name, number, number_at,
    sa_state_name, word_at,
};
use case_units::{fits, write_open_reply, write_reply, write_shield_fault};
use ep_codec::{Command, read_pdu};
use ep_core::{Need, Reply, judge, plan_change};
use frame_checks::{OpenReply, binding, open_frame};
use frame_shield::{Binding, ShieldFault};
use key_book::KeyRow;
use sa_book::SaRow;
use sdls_base::{Change, KeyId, Seen};
use std::alloc::Global;
use std::marker::Model;
use unit_plan::{Plan, PlanError};
use unit_state::{State, rules_stay};

fn write_key(row: &KeyRow, page: &mut Page) {
    let state = key_state_name(row.state);
    let (id, octets) = (row.id.get(), row.bytes.as_slice().len());
    let (mark, floor) = (row.mark, row.floor);
    page.begin_line();
    write!(page, "key {id} {state} octets {octets}");
    write!(page, " mark {mark} floor {floor}");
}

/// Writes an association, with its back window if there is one.
fn write_association(row: &SaRow, page: &mut Page) {
    let (direction, state) = (direction_name(row.direction), sa_state_name(row.state));
    let (spi, key) = (row.spi.get(), row.key.map_or(0, |key| key.get()));
    let (high, width, back) = (row.window.high, row.window.width, row.window.back);
    page.begin_line();
    write!(page, "sa {spi} {direction} {state} key {key}");
    write!(page, " high {high} window {width}");
    if back > 0 {
        write!(page, " back {back}");
    }
}

/// What was seen of a key's numbers: `-`, or a word with a number.
fn seen(words: &mut Words<'_>) -> Seen {
    let word = words.next().unwrap_or("-");
    let number = number(words).unwrap_or(0);
    match word {
        "word" => Seen::Word(number),
        "number" => Seen::Number(number),
        "exhausted" => Seen::Exhausted(number),
        _ => Seen::Nothing,
    }
}

/// Writes the frame protected under a binding, with index and key, or why it is not.
fn write_protected(binding: &Binding, number: u64, clear: &[u8], page: &mut Page)
    requires { IsBinding binding.now }
{
    let (spi, key) = (binding.spi.get(), binding.key.get());
    match protected(binding, number, clear, page) {
        Ok(Some(frame)) => write!(page, "protected {spi} {key} {}", Digits(&frame)),
        Ok(None) => page.push_str("no number"),
        Err(fault) => write_shield_fault(fault, page),
    }
}

/// The link that a line begins with.
fn link_of(line: &str) -> u8 {
    word_at(line, 0).parse().unwrap_or(255)
}

/// Writes what was needed.
fn write_need(need: Need, page: &mut Page) {
    match need {
        Need::Nothing => page.push_str("nothing: "),
        Need::Look(key) => write!(page, "look {}: ", key.get()),
        Need::Raise(key, number) => write!(page, "raise {} {number}: ", key.get()),
        Need::Number(key) => write!(page, "number {}: ", key.get()),
    }
}

/// A plan, and a state that keeps the rules.
#[derive(Drop)]
struct Scenario {
    plan: Plan,
    state: State,
}

impl Model for Scenario {
    ghost use Rattle.unit_state.specs.declared.state.State.{State};
    ghost use Rattle.unit_state.specs.State.{KeepsRules};
    ghost use Rattle.std.specs.Coded.{codes, coded_ℕ};
    ghost use Rattle.std.specs.FinSet as set;
    ghost use Rattle.std.specs.Ordering.{nat_cmp};

    ghost Value = { State };

    ghost coded = { Prim.hlevel (codes, set.code {R = nat_cmp} coded_ℕ) };

    ghost view = { λ scenario. scenario.state };

    ghost invariant = { λ scenario. KeepsRules scenario.state };
}

impl Scenario {
    /// Writes the rows of the state, a line each.
    fn write_rows(&self, page: &mut Page) {
        for row in self.state.keys.rows() {
            write_key(row, page);
        }
        for row in self.state.associations.rows() {
            write_association(row, page);
        }
    }

    /// Takes an equal state.
    fn take_copy(&mut self, page: &mut Page) {
        match self.state.copy() {
            Ok(copy) => self.state = copy,
            Err(_) => page.spoil(),
        }
        page.push_str("copied");
    }

    /// Leaves what a restart leaves.
    fn restart(&mut self, page: &mut Page) {
        self.state.restart();
        page.push_str("restarted");
    }

    /// Makes a change where the state allows it, and returns whether it does.
    fn apply(&mut self, change: &Change, page: &mut Page) -> bool {
        let allowed = self.state.allows(change);
        if allowed {
            rules_stay();
            page.check(self.state.apply(change));
        }
        allowed
    }

    /// The same for a change that moves numbers alone. Takes no memory.
    fn apply_here(&mut self, change: &Change) -> bool
        requires { IsLight change.now }
    {
        let allowed = self.state.allows(change);
        if allowed {
            rules_stay();
            self.state.apply_here(change);
        }
        allowed
    }

    /// Makes the change that was decided, and writes what is answered.
    fn carry_out(&mut self, change: &Change, reply: &Reply, page: &mut Page) {
        if self.apply(change, page) {
            write_reply(reply, page);
        } else {
            page.push_str("not allowed");
        }
    }

    /// Writes what a command needs, and what it is answered with what was seen. The state is changed as it says.
    fn handle(&mut self, command: &Command, seen: Seen, page: &mut Page)
        requires { IsInBounds command.now }
    {
        let need = judge(&self.state, command);
        write_need(need, page);
        if !fits(&self.state, &need, seen) {
            return page.push_str("unfit");
        }
        match plan_change(page.alloc(), &self.state, command, &seen) {
            Ok((change, reply)) => self.carry_out(&change, &reply, page),
            Err(_) => page.spoil(),
        }
    }

    /// Writes what a message needs, and what it is answered: `MESSAGE SEEN`.
    fn obey(&mut self, line: &str, page: &mut Page) {
        let mut words = line.split_whitespace();
        match read_pdu(page.alloc(), &page.piece(&mut words)) {
            Ok(command) => self.handle(&command, seen(&mut words), page),
            Err(_) => page.spoil(),
        }
    }

    /// The floor of a key.
    fn floor(&self, key: KeyId) -> u64 {
        self.state.keys.receive_floor(key).unwrap_or(0)
    }

    fn open_only(&self, link: u8, frame: &mut [u8]) -> OpenReply {
        open_frame(&self.plan, &self.state, link, frame)
    }

    /// Opens a frame in place, and takes its number where it is accepted.
    fn open(&mut self, link: u8, frame: &mut [u8]) -> OpenReply {
        let reply = self.open_only(link, frame);
        if let OpenReply::Accepted {
            spi,
            key,
            number,
            ..
        } = reply
        {
            self.apply_here(&Change::Accepted {
                spi,
                key,
                number,
                floor: number.max(self.floor(key)),
            });
        }
        reply
    }

    /// Writes what a frame is answered: `LINK FRAME`.
    fn receive(&mut self, line: &str, page: &mut Page) {
        let mut frame = page.octets_at(line, 1);
        let reply = self.open(link_of(line), frame.as_mut_slice());
        write_open_reply(reply, &frame, page);
    }

    /// What a clear frame is to be protected under.
    fn bind(&self, link: u8, clear: &[u8]) -> Result<Option<Binding>, ShieldFault>
        ensures { IfOk result (λ found. IfSome found IsBinding) }
    {
        match binding(&self.plan, &self.state, link, clear)? {
            Some(found) => Ok(Some(found.binding)),
            None => Ok(None),
        }
    }

    /// Writes what a clear frame is answered: `LINK NUMBER FRAME`.
    fn send(&self, line: &str, page: &mut Page) {
        let clear = page.octets_at(line, 2);
        match self.bind(link_of(line), &clear) {
            Ok(Some(binding)) => write_protected(&binding, number_at(line, 1), &clear, page),
            Ok(None) => page.push_str("clear"),
            Err(fault) => write_shield_fault(fault, page),
        }
    }
}

fn allowed_word(allowed: bool) -> &'static str {
    if allowed { "allowed" } else { "not allowed" }
}

/// Makes a change of numbers, if there is one that the state allows.
fn move_numbers(scenario: &mut Scenario, change: Option<Change>, page: &mut Page)
    requires { IfSome change IsLight }
{
    let allowed = match change {
        Some(change) => scenario.apply_here(&change),
        None => false,
    };
    page.push_str(allowed_word(allowed));
}

/// Makes a change in words, if the state allows it.
fn make(scenario: &mut Scenario, words: &str, page: &mut Page) {
    let made = match changes::read(words, page) {
        Some(change) => allowed_word(scenario.apply(&change, page)),
        None => "no change",
    };
    write!(page, "{words}: {made}");
}

/// Loads eight keys, the first with this number, if the state allows it, and returns whether it does.
fn load_eight(scenario: &mut Scenario, first: u16, page: &mut Page) -> bool {
    let load = changes::eight_keys(first, page);
    scenario.apply(&load, page)
}

/// Makes so many loads of eight keys each, the first from this key on, and writes how many the state allows: `FIRST
/// COUNT`.
fn load_eights(scenario: &mut Scenario, words: &str, page: &mut Page) {
    let mut first: u16 = word_at(words, 0).parse().unwrap_or(0);
    let (wanted, mut count) = (number_at(words, 1), 0u32);
    for _ in 0..wanted {
        if load_eight(scenario, first, page) {
            count = count.wrapping_add(1);
        }
        first = first.wrapping_add(8);
    }
    write!(page, "{count} loads of {wanted}");
}

/// Does a step on a state, and writes what it answers.
fn step_on_state(scenario: &mut Scenario, word: &str, rest: &str, page: &mut Page) {
    let mut words = rest.split_whitespace();
    match word {
        "do" => scenario.obey(rest, page),
        "receive" => scenario.receive(rest, page),
        "send" => scenario.send(rest, page),
        "change" => make(scenario, rest, page),
        "loads" => load_eights(scenario, rest, page),
        "marks" => move_numbers(scenario, changes::marks(&mut words), page),
        "accepted" => move_numbers(scenario, changes::accepted(&mut words), page),
        "copy" => scenario.take_copy(page),
        "restart" => scenario.restart(page),
        _ => scenario.write_rows(page),
    }
}

/// The words of the steps that need a state.
const STEPS_ON_STATE: [&str; 10] = [
    "change", "loads", "marks", "accepted", "copy", "restart", "show", "do", "receive", "send",
];

/// The lines of a plan that were gathered, and the scenario that was begun.
#[derive(Drop)]
pub struct Table {
    plan: Gathered,
    scenario: Option<Scenario>,
}

impl Table {
    /// A table of which nothing was read.
    pub fn new(alloc: Global) -> Table {
        Table {
            plan: Gathered::new(alloc),
            scenario: None,
        }
    }

    /// Makes the scenario of the lines that were gathered. After an error there is none.
    fn take_plan(&mut self, alloc: Global) -> Result<(), PlanError> {
        self.scenario = None;
        let plan = Plan::read(alloc, self.plan.as_str().as_bytes())?;
        let state = State::initial(alloc, &plan)?;
        self.scenario = Some(Scenario { plan, state });
        Ok(())
    }

    /// Begins a scenario, and writes what is wrong with the lines if there is none.
    fn begin(&mut self, page: &mut Page) {
        match self.take_plan(page.alloc()) {
            Ok(()) => page.push_str("begun"),
            Err(fault) => write!(page, "{fault}"),
        }
        self.plan.clear();
    }

    /// Does a step on the state, and writes what it answers, or that there is none.
    fn step_on_scenario(&mut self, word: &str, rest: &str, page: &mut Page) {
        match &mut self.scenario {
            Some(scenario) => step_on_state(scenario, word, rest, page),
            None => write!(page, "{word}: no state"),
        }
    }
}

impl Answers for Table {
    fn answer(&mut self, line: &str, page: &mut Page) {
        let (word, rest) = cut(line);
        match word {
            "plan" => page.check(self.plan.push(rest)),
            "begin" => self.begin(page),
            "command" | "reply" | "cuts" | "lengths" => messages::answer(word, rest, page),
            _ if STEPS_ON_STATE.contains(&word) => self.step_on_scenario(word, rest, page),
            _ => {
                write!(page, "{line}: ");
                cases::answer(word, rest, page);
            }
        }
    }
}
