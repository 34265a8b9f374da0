// A thread that is kept.
ghost use Rattle.std.specs.Prelude.{◌≡◌, IfOk, IfErr, slice_get, Some};
ghost use mathlib.Core.List.{IsPrefix};

use crate::jobs::{Asking, Done, Jobs, Named, Work};
use crossbeam_channel::{Receiver, Sender, bounded};
use std::alloc::{AllocError, Global};
use std::sync::Wait;
use std::thread::{Scope, Threads};

/// A thread that is kept, by the channels to it and from it.
#[derive(Drop)]
pub struct Helper<J: Drop, A: Drop, N: Named, W: Work<J, A>> {
    jobs: Sender<Asking<J, A, N, W>, Global>,
    answers: Receiver<Done<J, A, N, W>, Global>,
}

/// Does jobs until no more can come.
fn serve<R: Wait, J: Drop, A: Drop, N: Named, W: Work<J, A>>(
    rt: &R,
    work: &W,
    jobs: Receiver<Asking<J, A, N, W>, Global>,
    answers: Sender<Done<J, A, N, W>, Global>,
) {
    for _ in rt.forever() {
        let Ok(asking) = jobs.recv(rt) else {
            return;
        };
        if answers.send(rt, asking.done_by(work)).is_err() {
            return;
        }
    }
    unreachable!()
}

/// Never returns. It stands where no clause says what cannot come.
fn wait_forever<R: Wait, X>(rt: &R) -> X
    ensures { ⊥ }
{
    for _ in rt.forever() {}
    unreachable!()
}

impl<J: Drop, A: Drop, N: Named, W: Work<J, A>> Helper<J, A, N, W> {
    /// Starts a thread that does jobs until the helper is dropped.
    pub fn start<'s, E, R: Threads + Wait + Sync>(
        scope: &Scope<'s, E>,
        rt: &'s R,
        alloc: Global,
        work: &'s W,
    ) -> Result<Helper<J, A, N, W>, AllocError>
    where
        J: Send + 's,
        A: Send + 's,
        N: Send + 's,
        W: Send + Sync + 's,
        R: 's,
    {
        let (jobs, theirs) = bounded(alloc, 1)?;
        let (back, answers) = bounded(alloc, 1)?;
        scope.spawn(move || serve(rt, work, theirs, back))?;
        Ok(Helper { jobs, answers })
    }

    /// Hands a job to the thread, and returns its place in the log. The job comes back if it was not handed.
    pub fn hand<R: Wait>(&self, rt: &R, jobs: &mut Jobs<J, N>, job: J) -> Result<u64, J>
        requires can { W.can job }
        ensures asked { IfOk result (λ place. slice_get jobs.new place ≡ Some job) }
        ensures back { IfErr result (λ back. back ≡ job) }
        ensures grows { IsPrefix jobs.old jobs.new }
    {
        let (place, asking) = jobs.ask(job)?;
        match self.jobs.send(rt, asking) {
            Ok(()) => Ok(place),
            Err(refused) => Err(refused.into_inner().into_job()),
        }
    }

    /// Waits for what the thread did for the job that was asked for at this place.
    pub fn take<R: Wait>(&self, rt: &R, jobs: &mut Jobs<J, N>, place: u64) -> A
        ensures done { (job : J) → slice_get jobs.old place ≡ Some job → W.does job result }
        ensures grows { IsPrefix jobs.old jobs.new }
    {
        let Ok(done) = self.answers.recv(rt) else {
            return wait_forever(rt);
        };
        match jobs.take(place, done) {
            Some(answer) => answer,
            None => wait_forever(rt),
        }
    }
}
