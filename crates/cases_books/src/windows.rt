//! Steps on one window, and sequences of steps on a window and on a plain list of all numbers that it accepted.
ghost use Rattle.std.specs.Prelude.{◌<◌};
ghost use Rattle.replay_window.specs.WindowField.{IsWindowField};

use case_lines::{Page, Words, number};
use replay_window::{MOST_BACK, Verdict, Window, is_window_field, window_field};
use sdls_base::MOST_WINDOW;
use std::alloc::Global;

/// The steps of a sequence.
const STEPS: u64 = 60;

/// The window field of a width and a back window. Out of their bounds: the nearest within.
fn field_of(width: u64, back: u64) -> u64
    ensures { IsWindowField result }
{
    let back = back.min(u64::from(MOST_BACK)) as u8;
    let field = window_field(back, width.clamp(1, MOST_WINDOW));
    if is_window_field(field) { field } else { 1 }
}

/// The window field that the next two words say, width and back window.
pub fn field(words: &mut Words<'_>) -> u64
    ensures { IsWindowField result }
{
    let width = number(words).unwrap_or(1);
    field_of(width, number(words).unwrap_or(0))
}

/// What a window says of a number, which it then accepts if that is fresh. None if its back window is out of bounds.
fn offered(window: &mut Window, n: u64, end: u64) -> Option<Verdict> {
    if window.back > MOST_BACK {
        return None;
    }
    let verdict = window.judge(n, end);
    if verdict == Verdict::Fresh {
        window.accept(n);
    }
    Some(verdict)
}

/// Writes what a window says of a number, with this word for a fresh one.
fn write_offered(window: &mut Window, n: u64, end: u64, fresh: &str, page: &mut Page) {
    match offered(window, n, end) {
        Some(Verdict::Fresh) => page.push_str(fresh),
        Some(Verdict::Refused { high, width }) => write!(page, "refused {high} {width}"),
        None => page.push_str("no back window"),
    }
}

/// Offers numbers, and writes what the window says of each: `END NUMBER ..`.
fn offer(window: &mut Window, words: &mut Words<'_>, page: &mut Page) {
    let end = number(words).unwrap_or(0);
    for word in words {
        let comma = if page.is_empty() { "" } else { ", " };
        write!(page, "{comma}{word} ");
        write_offered(window, word.parse().unwrap_or(0), end, "accepted", page);
    }
}

/// Writes what a window without a back window says of a number: `HIGH WIDTH NUMBER END`.
pub fn judge(words: &mut Words<'_>, page: &mut Page) {
    let high = number(words).unwrap_or(0);
    let mut window = Window::new(high, field_of(number(words).unwrap_or(1), 0));
    let n = number(words).unwrap_or(0);
    write_offered(&mut window, n, number(words).unwrap_or(0), "fresh", page);
}

/// Does a step, and writes what it answers: what `offer` or `random` do, or else the window's highest number and base.
pub fn step(window: &mut Window, rest: &str, page: &mut Page) {
    let mut words = rest.split_whitespace();
    match words.next().unwrap_or("") {
        "offer" => return offer(window, &mut words, page),
        "random" => return random(&mut words, page),
        "window" => *window = Window::new(number(&mut words).unwrap_or(0), field(&mut words)),
        "set" => window.set_field(field(&mut words)),
        "begin" => window.begin_at(number(&mut words).unwrap_or(0)),
        "lower" => window.lower(number(&mut words).unwrap_or(0)),
        _ => return page.push_str("no step"),
    }
    write!(page, "high {} base {}", window.high, window.base);
}

/// Numbers that are drawn one after the other from a seed, by a linear congruential generator.
#[derive(Drop)]
struct Drawn(u64);

impl Drawn {
    /// The next number, below a bound that is not 0.
    fn below(&mut self, bound: u64) -> u64
        ensures { 0 < bound → result < bound }
    {
        let scaled = self.0.wrapping_mul(6_364_136_223_846_793_005);
        self.0 = scaled.wrapping_add(1_442_695_040_888_963_407);
        let drawn = self.0 >> 33;
        if bound == 0 { 0 } else { drawn % bound }
    }

    /// A back window: in one of four an edge, else any.
    fn back(&mut self) -> u8 {
        let (edge, any) = (self.below(8), self.below(65));
        match edge {
            0 => 0,
            1 => 64,
            _ => any.min(u64::from(MOST_BACK)) as u8,
        }
    }
}

/// What came of the numbers that were offered.
#[derive(Clone, Copy, Default)]
struct Counts {
    accepted: u64,
    late: u64,
    refused: u64,
    differ: u64,
}

/// Counts a number of which this is so.
fn count(count: &mut u64, is_so: bool) {
    *count = count.saturating_add(u64::from(is_so));
}

/// A window, and the number check over a plain list of all numbers that were accepted.
#[derive(Drop)]
struct Pair {
    window: Window,
    high: u64,
    width: u64,
    base: u64,
    back: u64,
    accepted: Vec<u64>,
}

impl Pair {
    fn drawn(alloc: Global, drawn: &mut Drawn) -> Pair {
        let (base, width, back) = (drawn.below(300), drawn.below(100) + 1, drawn.back());
        Pair {
            window: Window::new(base, window_field(back, width)),
            high: base,
            width,
            base,
            back: u64::from(back),
            accepted: Vec::new(alloc),
        }
    }

    /// Whether a number is fresh by the list, under a key whose numbers end at a number.
    fn is_fresh(&self, n: u64, end: u64) -> bool {
        if self.high < n {
            return n < end && n - self.high <= self.width;
        }
        let accepted = self.accepted.as_slice().contains(&n);
        n < end && self.base < n && self.high - n < self.back && !accepted
    }

    fn offer(&mut self, n: u64, end: u64, counts: &mut Counts, page: &mut Page) {
        let (fresh, late) = (self.is_fresh(n, end), n <= self.high);
        let said = offered(&mut self.window, n, end) == Some(Verdict::Fresh);
        count(&mut counts.differ, said != fresh);
        count(&mut counts.accepted, fresh);
        count(&mut counts.late, fresh && late);
        count(&mut counts.refused, !fresh);
        if fresh {
            page.check(self.accepted.push(n));
            self.high = self.high.max(n);
        }
    }

    fn set(&mut self, drawn: &mut Drawn) {
        let (width, back) = (drawn.below(100) + 1, drawn.back());
        self.window.set_field(window_field(back, width));
        self.width = width;
        self.back = u64::from(back);
    }

    fn begin(&mut self, drawn: &mut Drawn) {
        let n = self.high.saturating_add(drawn.below(40));
        self.window.begin_at(n);
        self.high = n;
        self.base = n;
        self.accepted.clear();
    }

    /// Offers a number near the highest one. The key's numbers end a little above it, or far.
    fn offer_near(&mut self, drawn: &mut Drawn, counts: &mut Counts, page: &mut Page) {
        let above = self.high.saturating_add(drawn.below(40));
        let n = above.saturating_sub(drawn.below(90));
        let end = match drawn.below(16) {
            0 => self.high.saturating_sub(drawn.below(20)),
            _ => self.high.saturating_add(1000),
        };
        self.offer(n, end, counts, page);
    }

    fn step(&mut self, drawn: &mut Drawn, counts: &mut Counts, page: &mut Page) {
        match drawn.below(24) {
            0 => self.set(drawn),
            1 => self.begin(drawn),
            _ => self.offer_near(drawn, counts, page),
        }
    }
}

/// Makes a sequence of steps.
fn make_sequence(drawn: &mut Drawn, counts: &mut Counts, page: &mut Page) {
    let mut pair = Pair::drawn(page.alloc(), drawn);
    for _ in 0..STEPS {
        pair.step(drawn, counts, page);
    }
}

/// Makes sequences, and writes what came of the numbers: `SEED COUNT`.
fn random(words: &mut Words<'_>, page: &mut Page) {
    let mut drawn = Drawn(number(words).unwrap_or(0));
    let mut counts = Counts::default();
    for _ in 0..number(words).unwrap_or(0) {
        make_sequence(&mut drawn, &mut counts, page);
    }
    let Counts { accepted, late, .. } = counts;
    write!(page, "{accepted} accepted, {late} of them late, ");
    write!(page, "{} refused, {} differ", counts.refused, counts.differ);
}
