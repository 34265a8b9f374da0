// Sources in memory: one gives pieces and fails where it is told to, one never fails.
ghost use Rattle.std.specs.Prelude.{◌≡◌, ◌<◌, min, true, None, IfOk, OnErr, length, ℕ, ◌≤◌, ◌++◌, Ok, take, drop};
ghost use Rattle.sdls_outside.specs.Source.{FillsFront, Takes};
ghost use Rattle.sdls_outside.specs.Faults.{HasCause};

use crate::calls::Calls;
use crate::{Failed, Source};

/// A source in memory that gives at most a piece a call, and fails at the calls listed.
#[derive(Drop)]
pub struct MemSource {
    source: SureSource,
    piece: usize,
    calls: Calls,
    ghost gives: { 0 < piece },
}

impl MemSource {
    ghost use Rattle.sdls_outside.specs.Calls.{planned};
    ghost use Rattle.sdls_outside.specs.MemSource.{pieces_left, piece_of, source_plan, source_faults};

    /// A source with these octets left, that gives at most `piece` of them a call. `failing` lists
    /// the calls of `take` that fail, counted from 0.
    pub fn new(octets: Vec<u8>, piece: usize, failing: Vec<u64>) -> Self
        requires { 0 < piece }
        ensures left { pieces_left result ≡ octets.items }
        ensures piece { piece_of result ≡ piece }
        ensures plan { source_plan result ≡ planned failing.items None }
        ensures faults { source_faults result ≡ 0 }
    {
        MemSource {
            source: SureSource::new(octets),
            piece,
            calls: Calls::new(failing, None),
        }
    }
}

impl Source for MemSource {
    ghost use Rattle.sdls_outside.specs.Calls.{FailsWhenDue};
    ghost use Rattle.sdls_outside.specs.MemSource.{pieces_left, piece_of, source_plan, source_faults};

    ghost told = { true };

    ghost left = { λ source. pieces_left source };

    ghost faults = { λ source. source_faults source };

    /// It fails at the calls listed, and at no other; else it gives all that there is and fits,
    /// up to a piece.
    fn take(&mut self, into: &mut [u8]) -> Result<usize, Failed>
        ensures enters { FailsWhenDue (source_plan self.old) (source_plan self.new) result }
        ensures count { IfOk result (λ count. count
            ≡ min (piece_of self.old) (min (length into.old) (length (pieces_left self.old)))) }
        ensures filled { IfOk result (FillsFront into.old into.new) }
        ensures taken { IfOk result (Takes (pieces_left self.old) (pieces_left self.new) into.new) }

        ensures unfilled { OnErr result (into.new ≡ into.old) }
        ensures untaken { OnErr result (pieces_left self.new ≡ pieces_left self.old) }
        ensures same_piece { piece_of self.new ≡ piece_of self.old }
        ensures cause { HasCause (source_faults self.old) (source_faults self.new) result }
    {
        self.calls.enter()?;
        Ok(self.source.move_front(into, self.piece))
    }

    fn faults(&self) -> u64 {
        self.calls.faults
    }
}

/// A source in memory that never fails. Its count of faults is the constant 0.
#[derive(Drop)]
pub struct SureSource {
    octets: Vec<u8>,
    pub(crate) taken: usize,
    ghost within: { taken ≤ length octets.items },
}

impl SureSource {
    ghost use Rattle.sdls_outside.specs.SureSource.{octets_left};

    /// A source with these octets left.
    pub fn new(octets: Vec<u8>) -> Self
        ensures { octets_left result ≡ octets.items }
    {
        SureSource { octets, taken: 0 }
    }

    /// Moves as many octets as there are, fit and are allowed, and answers how many.
    pub(crate) fn move_front(&mut self, into: &mut [u8], most: usize) -> usize
        ensures count { result ≡ min most (min (length into.old) (length (octets_left self.old))) }
        ensures filled { FillsFront into.old into.new result }
        ensures moved { octets_left self.old ≡ take result into.new ++ octets_left self.new }
    {
        let left = &self.octets[self.taken..];
        let count = most.min(into.len()).min(left.len());
        into[..count].copy_from_slice(&left[..count]);
        self.taken += count;
        count
    }
}

impl Source for SureSource {
    ghost use Rattle.sdls_outside.specs.SureSource.{octets_left};

    ghost told = { true };

    ghost left = { λ source. octets_left source };

    ghost faults = { λ _. 0 };

    /// It gives all that there is and fits.
    fn take(&mut self, into: &mut [u8]) -> Result<usize, Failed>
        ensures sure { result ≡ Ok (min (length into.old) (length (octets_left self.old))) }
        ensures filled { IfOk result (FillsFront into.old into.new) }
        ensures taken { IfOk result (Takes (octets_left self.old) (octets_left self.new) into.new) }
    {
        Ok(self.move_front(into, usize::MAX))
    }

    fn faults(&self) -> u64 {
        0
    }
}
