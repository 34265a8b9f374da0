// The anti-replay window: which number may come next (`judge`), and what is known once one was accepted (`accept`). It
// reaches `width` numbers ahead of the highest one accepted, and up to 64 back.
ghost use Rattle.std.specs.Prelude.{◌≡◌, ◌≢◌, ℕ, ◌-◌, ◌*◌, ◌%◌, ◌^◌, ◌<◌, ◌≤◌, ◌↔◌, IsTrue, bit_or};
ghost use Rattle.std.specs.Int.{bit_at};

use crate::field::{back_of, width_of, window_field};
use std::marker::Model;

/// What a receiving security association knows of the numbers that it accepted.
#[derive(Clone, Copy, Debug, PartialEq, Eq)]
pub struct Window {
    /// The highest number accepted; where there is none, the number at which the window was begun.
    pub high: u64,
    /// How far above `high` a number may lie, 1 to 2^32.
    pub width: u64,
    /// The number at which the window was begun. None up to it is accepted.
    pub base: u64,
    /// How many numbers up to `high` may be accepted late, 0 to 64.
    pub back: u8,
    /// Bit i is set where the number `high - i` was accepted since the window was begun.
    pub taken: u64,
}

impl Model for Window {
    ghost use Rattle.replay_window.specs.Reach.{Reach, reach_code};
    ghost use Rattle.replay_window.specs.Taken.{taken_of, bits_of, AreAbove};
    ghost use Rattle.replay_window.specs.TakenBack.{bits_of-taken_of};
    ghost use Rattle.std.proofs.Common.{ap};
    ghost use Rattle.std.specs.Prelude.{ℕ};

    ghost Value = { Reach };

    ghost coded = { reach_code };

    ghost view = { λ w. record {
      high = w.high;
      width = w.width;
      base = w.base;
      back = w.back;
      taken = taken_of w.high w.taken;
    } };

    ghost invariant = { λ w. AreAbove w.base w.high w.taken };

    ghost inverse = { λ r. record {
      high = r.high;
      width = r.width;
      base = r.base;
      back = r.back;
      taken = bits_of r.high r.taken;
    } };

    ghost inverse_ok = { λ w h.
        ap (λ (bits : ℕ). record w { taken = bits }) (bits_of-taken_of w.base w.high w.taken h) };
}

/// What a window says of a number.
#[derive(Clone, Copy, Debug, PartialEq, Eq)]
pub enum Verdict {
    /// It may be accepted.
    Fresh,
    /// It may not; these are the window's.
    Refused { high: u64, width: u64 },
}

/// Whether the bit at a place is set.
fn is_set(bits: u64, place: u64) -> bool
    requires { place < 64 }
    ensures { IsTrue result ↔ (bit_at bits place ≡ 1) }
{
    (bits >> place) & 1 == 1
}

/// The bits when the highest number rises by so much, to a number that is accepted.
fn risen(bits: u64, by: u64) -> u64
    ensures near { by < 64 → result ≡ bit_or (bits * 2 ^ by % 2 ^ 64) 1 }
    ensures far { 64 ≤ by → result ≡ 1 }
{
    if by < 64 { (bits << by) | 1 } else { 1 }
}

impl Window {
    ghost use Rattle.replay_window.specs.declared.TheConstants.{MOST_BACK};
    ghost use Rattle.replay_window.specs.Window.{IsAhead, IsLate, IsFresh, accepted, begun_at, lowered_to};
    ghost use Rattle.replay_window.specs.Window.{with_field, new_window, field_of};
    ghost use Rattle.std.specs.FinSet as set;

    /// A window that begins at a number, with the back window and the width of a window field.
    pub fn new(high: u64, field: u64) -> Window
        ensures { result ≡ new_window high field }
    {
        Window {
            high,
            width: width_of(field),
            base: high,
            back: back_of(field),
            taken: 0,
        }
    }

    /// Whether a number lies above the highest one, and not beyond the width.
    fn is_ahead(&self, n: u64) -> bool
        ensures { IsTrue result ↔ IsAhead self.now n }
    {
        self.high < n && n - self.high <= self.width
    }

    /// Whether a number lies in the back window and above the base.
    fn lies_back(&self, n: u64) -> bool
        ensures { IsTrue result ↔ ((self.now.base < n) × (n ≤ self.now.high)
            × (self.now.high - n < self.now.back)) }
    {
        self.base < n && n <= self.high && self.high - n < u64::from(self.back)
    }

    /// Whether a number lies in the back window and above the base, and was not accepted.
    fn is_late(&self, n: u64) -> bool
        requires { self.now.back ≤ MOST_BACK }
        ensures { IsTrue result ↔ IsLate self.now (set.items self.now.taken) n }
    {
        self.lies_back(n) && !is_set(self.taken, self.high - n)
    }

    /// Judges number `n` under a key whose numbers end below `end`. Takes no memory.
    pub fn judge(&self, n: u64, end: u64) -> Verdict
        requires { self.now.back ≤ MOST_BACK }
        ensures fresh { (result ≡ Verdict.Fresh) ↔ IsFresh self.now n end }
        ensures refused { result ≢ Verdict.Fresh
            → result ≡ Verdict.Refused self.now.high self.now.width }
    {
        if n < end && (self.is_ahead(n) || self.is_late(n)) {
            Verdict::Fresh
        } else {
            Verdict::Refused {
                high: self.high,
                width: self.width,
            }
        }
    }

    /// Accepts a fresh number. Takes no memory.
    pub fn accept(&mut self, n: u64)
        requires back { self.old.back ≤ MOST_BACK }
        requires fresh { (end : ℕ) × IsFresh self.old n end }
        ensures { self.new ≡ accepted n self.old }
    {
        if self.high < n {
            self.taken = risen(self.taken, n - self.high);
            self.high = n;
        } else {
            self.taken |= 1 << (self.high - n);
        }
    }

    /// Begins anew at a number. Takes no memory.
    pub fn begin_at(&mut self, high: u64)
        ensures { self.new ≡ begun_at high self.old }
    {
        self.high = high;
        self.base = high;
        self.taken = 0;
    }

    /// Begins anew at a floor if the highest number is above it. Takes no memory.
    pub fn lower(&mut self, floor: u64)
        ensures { self.new ≡ lowered_to floor self.old }
    {
        if floor < self.high {
            self.begin_at(floor);
        }
    }

    /// Sets back window and width, and forgets no number. Takes no memory.
    pub fn set_field(&mut self, field: u64)
        ensures { self.new ≡ with_field field self.old }
    {
        self.width = width_of(field);
        self.back = back_of(field);
    }

    /// The window field.
    pub fn field(&self) -> u64
        requires { self.now.width < 2 ^ 56 }
        ensures { result ≡ field_of self.now }
    {
        window_field(self.back, self.width)
    }
}
