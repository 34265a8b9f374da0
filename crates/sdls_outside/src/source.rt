// Where input comes from, and octets taken from it, as many as there is room for.
ghost use Rattle.std.specs.Prelude.{◌≡◌, ℕ, List, Bool, IsTrue, IfOk, OnErr, ◌≤◌, length};
ghost use Rattle.sdls_outside.specs.Faults.{HasCause};
ghost use Rattle.sdls_outside.specs.Source.{FillsFront, Takes};
ghost use Rattle.sdls_outside.specs.Intake.{Collects, TakesAtMost, TakesFewer};

use thiserror::Error;

/// A device has failed. Its count of faults rose in the call that says so.
#[derive(Clone, Copy, Debug, PartialEq, Eq, Error)]
#[error("device failed")]
pub struct Failed;

/// A source of octets, taken from the front. Clauses know the octets that are left only if
/// `told` holds.
pub trait Source {
    /// Whether clauses know what is left.
    ghost told: { Bool };

    /// The octets that are left.
    ghost left: { Self → List ℕ };

    /// How often it has failed.
    ghost faults: { Self → ℕ };

    /// Moves octets from the front of what is left into the front of `into`, and answers how many.
    /// For a piece that is not empty 0 is the end of the input. After `Failed` nothing has moved:
    /// what is left and `into` are as they were.
    fn take(&mut self, into: &mut [u8]) -> Result<usize, Failed>
        ensures filled { IfOk result (FillsFront into.old into.new) }
        ensures taken { IsTrue told → IfOk result (Takes (left self.old) (left self.new) into.new) }

        ensures unfilled { OnErr result (into.new ≡ into.old) }
        ensures untaken { IsTrue told → OnErr result (left self.new ≡ left self.old) }
        ensures cause { HasCause (faults self.old) (faults self.new) result };

    /// The count of faults.
    fn faults(&self) -> u64
        ensures { result ≡ faults self.now };
}

/// Takes octets until the buffer is full or the input ends, and answers how many.
pub fn collect<S: Source>(source: &mut S, buffer: &mut [u8]) -> Result<usize, Failed>
    ensures within { IfOk result (λ count. count ≤ length buffer.new) }
    ensures collected { IsTrue S.told → IfOk result (Collects (S.left source.old) (S.left source.new) buffer.new) }
    ensures bounded { IsTrue S.told → TakesAtMost (length buffer.old) (S.left source.old) (S.left source.new) }
    ensures short { OnErr result (TakesFewer S.told (length buffer.old) (S.left source.old) (S.left source.new)) }
    ensures cause { HasCause (S.faults source.old) (S.faults source.new) result }
{
    let mut filled = 0;
    while filled < buffer.len() {
        match source.take(&mut buffer[filled..]) {
            Ok(0) => return Ok(filled),
            Ok(count) => filled += count,
            Err(Failed) => return Err(Failed),
        }
    }
    Ok(filled)
}
