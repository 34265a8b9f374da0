// The disk and the sink, with the calls of `put` that failed.
ghost use Rattle.std.specs.Prelude.{◌≡◌, ℕ, ◌+◌, ◌≤◌, Bool, IsTrue, IfOk, OnOk, length, take, drop};
ghost use Rattle.sdls_outside.specs.Faults.{HasCause};
ghost use Rattle.sdls_outside.specs.Disk.{Leaves};
ghost use Rattle.sdls_outside.specs.Moments.{Trace};
ghost use Rattle.sdls_outside.specs.Site.{Writes, Syncs, Puts, after_put};
ghost use Rattle.sdls_outside.specs.PutFaults.{count_of};

use crate::Failed;
use std::snapshot::Snapshot;

/// One image on a disk and one sink, in one object, so that clauses speak of the moments of both together.
/// They know what the two hold only if `told` holds. Each call but `faults` answers `Failed` only if
/// the count of faults rose.
pub trait Site {
    /// Whether clauses know what it holds.
    ghost told: { Bool };

    /// What it holds, and what it held before each call that changed something.
    ghost trace: { Self → Trace };

    /// How often it has failed.
    ghost faults: { Self → ℕ };

    /// How often a `put` has failed.
    ghost put_faults: { Self → ℕ };

    /// Starts a run, also where it fails. Answers the image's length in octets, 0 where there is
    /// no image. It makes no image, and changes nothing that is told.
    fn begin(&mut self) -> Result<u64, Failed>
        ensures image_length { IsTrue told → IfOk result (λ n. n ≡ length (trace self.old).now.image) }
        ensures same { IsTrue told → trace self.new ≡ trace self.old }
        ensures puts { put_faults self.new ≡ put_faults self.old }
        ensures cause { HasCause (faults self.old) (faults self.new) result };

    /// Reads the image's octets from `at` on. After `Failed`, `into` may hold any octets.
    fn read_at(&mut self, at: u64, into: &mut [u8]) -> Result<(), Failed>
        requires { IsTrue told → at + length into.old ≤ length (trace self.old).now.image }

        ensures read { IsTrue told → OnOk result
            (into.new ≡ take (length into.old) (drop at (trace self.old).now.image)) }
        ensures same { IsTrue told → trace self.new ≡ trace self.old }
        ensures puts { put_faults self.new ≡ put_faults self.old }
        ensures cause { HasCause (faults self.old) (faults self.new) result };

    /// Writes octets over the image from `at` on, and past its end. Until the next `sync` that is
    /// Ok a crash may leave any octets in that range; after `Failed` a read may find any there too.
    fn write_at(&mut self, at: u64, octets: &[u8]) -> Result<(), Failed>
        requires { IsTrue told → at ≤ length (trace self.old).now.image }

        ensures written { IsTrue told → Writes at octets.now result (trace self.old) (trace self.new) }
        ensures puts { put_faults self.new ≡ put_faults self.old }
        ensures cause { HasCause (faults self.old) (faults self.new) result };

    /// Brings all that was written to the disk: after Ok a crash leaves what a read gives, until
    /// the next write. After `Failed` nothing has changed.
    fn sync(&mut self) -> Result<(), Failed>
        ensures synced { IsTrue told → Syncs result (trace self.old) (trace self.new) }
        ensures puts { put_faults self.new ≡ put_faults self.old }
        ensures cause { HasCause (faults self.old) (faults self.new) result };

    /// Appends octets to the sink. After `Failed` a front of them, which may be none or all of
    /// them, was appended. The image and what is pending of it stay.
    fn put(&mut self, octets: &[u8]) -> Result<(), Failed>
        ensures put { IsTrue told → Puts octets.now result (trace self.old) (trace self.new) }
        ensures puts { put_faults self.new ≡ after_put result (put_faults self.old) }
        ensures cause { HasCause (faults self.old) (faults self.new) result };

    /// The count of faults.
    fn faults(&self) -> u64
        ensures { result ≡ faults self.now };

    /// Law: the image as it reads is one that a crash may leave.
    ghost image_may_stay: { (site : Self) → IsTrue told → Leaves (trace site).now (trace site).now.image };
}

// How many calls of `put` have failed, for clauses alone. It has no greatest value: it has a snapshot of the count
// before.
#[derive(Drop)]
pub enum PutFaults {
    Zero,
    OneMore(Snapshot<PutFaults>),
    Same(Snapshot<PutFaults>),
}

// The count once a put has ended so.
pub fn noted(count: &PutFaults, put: &Result<(), Failed>) -> PutFaults
    ensures { count_of result ≡ after_put put.now (count_of count.now) }
{
    match put {
        Ok(()) => PutFaults::Same(Snapshot::of(count)),
        Err(Failed) => PutFaults::OneMore(Snapshot::of(count)),
    }
}
