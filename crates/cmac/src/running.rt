ghost use Rattle.std.specs.Prelude.{◌≡◌, ℕ, ◌+◌, ◌<◌, ◌≤◌, List, [], ◌++◌, length};
ghost use Rattle.cmac.specs.Cmac.{mac};
ghost use Rattle.cmac.specs.Running.{Holds};

use crate::block::{chained_on, chained_over, closed};
use aes_block::Schedule;
use std::marker::Model;
use std::simd::u8x16;

/// A MAC under way: [`Running::new`], then the text in pieces of any lengths by
/// [`Running::update`], then [`Running::finish`].
#[derive(Drop)]
pub struct Running<'a> {
    key: &'a Schedule,
    chained: [u8; 16],
    // The octets after those in the chain. A whole block is held back, since it may be the last.
    held: [u8; 16],
    used: usize,
}

impl<'a> Model for Running<'a> {
    ghost use Rattle.std.specs.Prelude.{◌≤◌, take};
    ghost use Rattle.cmac.specs.Running.{Kept};

    ghost Value = { Kept };

    ghost view = { λ s. record { key = s.key.now; chained = s.chained; rest = take s.used s.held } };

    ghost invariant = { λ s. s.used ≤ 16 };
}

impl<'a> Running<'a> {
    /// The MAC of the empty text, so far.
    pub fn new(key: &'a Schedule) -> Running<'a>
        ensures key { result.key ≡ key.now }
        ensures empty { Holds result [] }
    {
        Running {
            key,
            chained: [0; 16],
            held: [0; 16],
            used: 0,
        }
    }

    // Holds back octets for which there is room.
    fn hold(&mut self, octets: &[u8])
        requires { length self.old.rest + length octets.now ≤ 16 }
        ensures { self.new ≡ record self.old { rest = self.old.rest ++ octets.now } }
    {
        let end = self.used + octets.len();
        self.held[self.used..end].copy_from_slice(octets);
        self.used = end;
    }

    // Takes octets after a whole block that is held back: it was not the last.
    fn chain(&mut self, octets: &[u8])
        requires whole { length self.old.rest ≡ 16 }
        requires more { 0 < length octets.now }
        ensures key { self.new.key ≡ self.old.key }
        ensures more { (m : List ℕ) → Holds self.old m → Holds self.new (m ++ octets.now) }
    {
        let before_last = (octets.len() - 1) / 16;
        let first = chained_on(self.key, u8x16::from_array(self.chained), &self.held, 0);
        self.chained = chained_over(self.key, first, octets, before_last).to_array();
        let last = &octets[16 * before_last..];
        self.held[..last.len()].copy_from_slice(last);
        self.used = last.len();
    }

    /// Adds `piece` to the end of the text.
    pub fn update(&mut self, piece: &[u8])
        ensures key { self.new.key ≡ self.old.key }
        ensures more { (m : List ℕ) → Holds self.old m → Holds self.new (m ++ piece.now) }
    {
        let room = 16 - self.used;
        if piece.len() <= room {
            self.hold(piece);
            return;
        }
        self.hold(&piece[..room]);
        self.chain(&piece[room..]);
    }

    /// The MAC of the text: [`mac`](crate::mac) of all pieces, one after another.
    pub fn finish(self) -> [u8; 16]
        ensures { (m : List ℕ) → Holds self.entry m → result ≡ mac self.entry.key m }
    {
        closed(
            self.key,
            u8x16::from_array(self.chained),
            &self.held[..self.used],
        )
    }
}
