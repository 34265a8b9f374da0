// Calls that are numbered from 0, some of them to fail, and the faults of the real edge.
ghost use Rattle.std.specs.Prelude.{◌≡◌, ◌≤◌, is_ok};
ghost use Rattle.std.specs.Result.{result_ok};
ghost use Rattle.sdls_outside.specs.Faults.{HasCause, Rose};

use crate::Failed;
use std::alloc::AllocError;

// The calls of one device: which are to fail, how many were made, and how many failed.
#[derive(Drop)]
pub struct Calls {
    failing: Vec<u64>,
    dead_from: Option<u64>,
    made: u64,
    pub faults: u64,
}

impl Calls {
    ghost use Rattle.sdls_outside.specs.Calls.{FailsWhenDue, counted, fails_next, plan_of, planned};

    pub fn new(failing: Vec<u64>, dead_from: Option<u64>) -> Self
        ensures plan { plan_of result ≡ planned failing.items dead_from }
        ensures faults { result.faults ≡ 0 }
    {
        Calls {
            failing,
            dead_from,
            made: 0,
            faults: 0,
        }
    }

    // Counts a call, and its fault where it is to fail.
    pub fn enter(&mut self) -> Result<(), Failed>
        ensures enters { FailsWhenDue (plan_of self.old) (plan_of self.new) result }
        ensures cause { HasCause self.old.faults self.new.faults result }
    {
        let fails = self.is_to_fail();
        self.made = self.made.saturating_add(1);
        if fails { Err(self.fault()) } else { Ok(()) }
    }

    fn is_to_fail(&self) -> bool
        ensures { result ≡ fails_next (plan_of self.now) }
    {
        let is_dead = match self.dead_from {
            Some(from) => from <= self.made,
            None => false,
        };
        self.failing.contains(&self.made) || is_dead
    }

    // Counts a fault of the call that is on, if memory runs out for it.
    pub fn counted(&mut self, outcome: Result<(), AllocError>) -> Result<(), Failed>
        ensures variant { is_ok result ≡ is_ok outcome }
        ensures plan { plan_of self.new ≡ plan_of self.old }
        ensures cause { HasCause self.old.faults self.new.faults result }
    {
        match outcome {
            Ok(()) => Ok(()),
            Err(AllocError) => Err(self.fault()),
        }
    }

    // Counts a fault of the call that is on.
    fn fault(&mut self) -> Failed
        ensures rose { Rose self.old.faults self.new.faults }
        ensures later { self.old.faults ≤ self.new.faults }
        ensures counts { self.new ≡ record self.old { faults = counted self.old.faults } }
    {
        self.faults = self.faults.saturating_add(1);
        Failed
    }
}

// Counts the fault of a call of the system that answers an error.
pub fn counted<T, E: Drop>(outcome: Result<T, E>, faults: &mut u64) -> Result<T, Failed>
    ensures value { result_ok result ≡ result_ok outcome }
    ensures cause { HasCause faults.old faults.new result }
{
    match outcome {
        Ok(value) => {
            // For contracts alone.
            let _ = *faults;
            Ok(value)
        }
        Err(_) => {
            *faults = faults.saturating_add(1);
            Err(Failed)
        }
    }
}
