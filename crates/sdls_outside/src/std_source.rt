// Standard input.
ghost use Rattle.std.specs.Prelude.{◌≡◌, ◌≤◌, [], false, IfOk, OnErr, length};
ghost use Rattle.sdls_outside.specs.Source.{FillsFront};
ghost use Rattle.sdls_outside.specs.Faults.{HasCause};

use crate::calls::counted;
use crate::{Failed, Source};
use std::io::{Read, Stdin};

// The most octets that are read ahead.
const AHEAD: usize = 65536;

/// Standard input, of whose content clauses know nothing. It reads ahead into a buffer of its own, with
/// one read of the system a refill, and never waits for more while it has an octet. Its count of
/// faults rises at each error of the system, after what was read before it is taken.
#[derive(Drop)]
pub struct StdSource {
    stdin: Stdin,
    // What was read ahead and is not taken stands from `taken` to `read`.
    ahead: [u8; AHEAD],
    taken: usize,
    read: usize,
    faults: u64,
    ghost within: { (taken ≤ read) × (read ≤ length ahead) },
}

impl StdSource {
    ghost use Rattle.sdls_outside.specs.StdSource.{input_faults};

    /// Standard input, as `rt.stdin()` gives it, with no fault so far.
    pub fn new(stdin: Stdin) -> Self
        ensures { input_faults result ≡ 0 }
    {
        StdSource {
            stdin,
            ahead: [0; AHEAD],
            taken: 0,
            read: 0,
            faults: 0,
        }
    }

    // Reads ahead, where all that was read is taken.
    fn refill(&mut self) -> Result<(), Failed>
        ensures cause { HasCause (input_faults self.old) (input_faults self.new) result }
    {
        let read = self.stdin.read(&mut self.ahead);
        let count = counted(read, &mut self.faults)?;
        self.taken = 0;
        self.read = count;
        Ok(())
    }

    // Moves what was read ahead and fits, and answers how much.
    fn give(&mut self, into: &mut [u8]) -> usize
        ensures filled { FillsFront into.old into.new result }
        ensures faults { input_faults self.new ≡ input_faults self.old }
    {
        let ahead = &self.ahead[self.taken..self.read];
        let count = into.len().min(ahead.len());
        into[..count].copy_from_slice(&ahead[..count]);
        self.taken += count;
        count
    }
}

impl Source for StdSource {
    ghost use Rattle.sdls_outside.specs.StdSource.{input_faults};

    ghost told = { false };

    ghost left = { λ _. [] };

    ghost faults = { λ source. input_faults source };

    fn take(&mut self, into: &mut [u8]) -> Result<usize, Failed> {
        if self.taken == self.read && !into.is_empty() {
            self.refill()?;
        }
        Ok(self.give(into))
    }

    fn faults(&self) -> u64 {
        self.faults
    }
}
