// Jobs that are asked for, the log of these, and what was done for them.
ghost use mathlib.Core.List.{IsPrefix};
ghost use Rattle.logbook.specs.Pages.{Book, cell};
ghost use base.Fml.{ftrue};
ghost use Rattle.std.specs.Prelude.{◌≡◌, ℕ, ◌+◌, ◌^◌, ◌<◌, List, [], ◌∷◌, ◌++◌, length, true, IfSome, IfOk, IfErr};
ghost use Rattle.std.specs.Prelude.{slice_get, Some, ⊤};
ghost use Rattle.std.specs.declared.option.Option.TheVariants.{None};

use logbook::{Gain, Plain, Play, Rule, Seen, Start, Word};
use std::marker::{Brand, Model, PhantomData};

/// The name of a log, in a type. Who opens a log calls at [`Brand`], and picks the name.
pub trait Named {
    ghost book: { Book };
}

impl Named for Brand {
    ghost book = { record { number = 0; log_name = 0; cells_name = 0 } };
}

/// What is done for a job.
pub trait Work<J, A> {
    // What has to hold of a job.
    ghost can: { J → Type 0 };
    // What holds of a job and what was done for it.
    ghost does: { J → A → Type 0 };

    fn work(&self, job: J) -> A
        requires { Self.can job }
        ensures { Self.does job result };
}

/// A log in which no job stands yet. Contracts see which log it is.
pub struct Fresh<J> {
    word: Word<J, (), Noted>,
    seen: Seen<J, (), Noted>,
}

impl<J> Model for Fresh<J> {
    ghost use Rattle.logbook.specs.Pages.{Book, book_coded};
    ghost use Rattle.std.specs.Prelude.{◌≡◌, true};

    ghost Value = { Book };

    ghost coded = { book_coded };

    ghost view = { λ f. f.seen.book };

    ghost invariant = { λ f. (f.word.tracked ≡ true) × (f.word.key ≡ 0) × (f.word.book ≡ f.seen.book) };
}

impl<J> Drop for Fresh<J> {
    fn drop(self) {
        let Self { word: _, seen: _ } = self;
    }
}

impl<J> Fresh<J> {
    /// Opens a log.
    pub fn open() -> Fresh<J> {
        let (seen, mut pen, _other) = Seen::open(Start::alone(), 0, 0);
        Fresh {
            word: Word::tracked(0, &mut pen),
            seen,
        }
    }

    fn into_parts(self) -> (Word<J, (), Noted>, Seen<J, (), Noted>)
        ensures book { result.1.book ≡ self }
        ensures word { (result.0.tracked ≡ true) × (result.0.key ≡ 0) × (result.0.book ≡ self) }
    {
        let Self { word, seen } = self;
        (word, seen)
    }
}

/// A job that was asked for, at its place in the log.
pub struct Asking<J, A, N: Named, W: Work<J, A>> {
    job: J,
    place: u64,
    seen: Seen<J, (), Noted>,
    of: PhantomData<(A, N, W)>,
}

impl<J, A, N: Named, W: Work<J, A>> Model for Asking<J, A, N, W> {
    ghost use base.Stored.{coded_list, coded×, coded_ℕ};
    ghost use Rattle.std.specs.Prelude.{◌≡◌, ℕ, List, slice_get, Some};

    ghost Value = { List J × (ℕ × J) };

    ghost coded = { coded× (coded_list J.code) (coded× coded_ℕ J.code) };

    ghost view = { λ a. (a.seen.log, (a.place, a.job)) };

    ghost invariant = { λ a. (a.seen.book ≡ N.book) × (slice_get a.seen.log a.place ≡ Some a.job) × W.can a.job };
}

impl<J: Drop, A, N: Named, W: Work<J, A>> Drop for Asking<J, A, N, W> {
    fn drop(self) {
        let Self {
            job: _,
            place: _,
            seen: _,
            of: _,
        } = self;
    }
}

impl<J, A, N: Named, W: Work<J, A>> Asking<J, A, N, W> {
    /// Does the job.
    pub(crate) fn done_by(self, work: &W) -> Done<J, A, N, W> {
        let Self {
            job,
            place,
            seen,
            of: _,
        } = self;
        Done {
            answer: work.work(job),
            place,
            seen,
            of: PhantomData,
        }
    }

    /// The job, which was not done.
    pub(crate) fn into_job(self) -> J
        ensures { result ≡ self.1.1 }
    {
        let Self {
            job,
            place: _,
            seen: _,
            of: _,
        } = self;
        job
    }
}

/// What was done for the job at a place of the log.
pub struct Done<J, A, N: Named, W: Work<J, A>> {
    answer: A,
    place: u64,
    seen: Seen<J, (), Noted>,
    of: PhantomData<(N, W)>,
}

impl<J, A, N: Named, W: Work<J, A>> Model for Done<J, A, N, W> {
    ghost use base.Stored.{coded_list, coded×, coded_ℕ};
    ghost use Rattle.std.specs.Prelude.{◌≡◌, ℕ, ◌<◌, List, length, slice_get, Some};

    ghost Value = { List J × (ℕ × A) };

    ghost coded = { coded× (coded_list J.code) (coded× coded_ℕ A.code) };

    ghost view = { λ d. (d.seen.log, (d.place, d.answer)) };

    ghost invariant = { λ d. (d.seen.book ≡ N.book) × (d.place < length d.seen.log)
        × ((job : J) → slice_get d.seen.log d.place ≡ Some job → W.does job d.answer) };
}

impl<J, A: Drop, N: Named, W: Work<J, A>> Drop for Done<J, A, N, W> {
    fn drop(self) {
        let Self {
            answer: _,
            place: _,
            seen: _,
            of: _,
        } = self;
    }
}

impl<J, A, N: Named, W: Work<J, A>> Done<J, A, N, W> {
    fn into_parts(self) -> (A, u64, Seen<J, (), Noted>)
        ensures book { result.2.book ≡ N.book }
        ensures within { result.1 < length result.2.log }
        ensures done { (job : J) → slice_get result.2.log result.1 ≡ Some job → W.does job result.0 }
    {
        let Self {
            answer,
            place,
            seen,
            of: _,
        } = self;
        (answer, place, seen)
    }
}

/// Who asks for jobs. Contracts see the jobs that were asked for, in order.
pub struct Jobs<J, N: Named> {
    word: Word<J, (), Noted>,
    seen: Seen<J, (), Noted>,
    next: u64,
    of: PhantomData<N>,
}

impl<J, N: Named> Model for Jobs<J, N> {
    ghost use base.Stored.{coded_list};
    ghost use Rattle.std.specs.Prelude.{◌≡◌, List, true};

    ghost Value = { List J };

    ghost coded = { coded_list J.code };

    ghost view = { λ jobs. jobs.seen.log };

    ghost invariant = { λ jobs. (jobs.seen.book ≡ N.book)
        × (jobs.word.tracked ≡ true) × (jobs.word.key ≡ 0) × (jobs.word.book ≡ N.book) };
}

impl<J, N: Named> Drop for Jobs<J, N> {
    fn drop(self) {
        let Self {
            word: _,
            seen: _,
            next: _,
            of: _,
        } = self;
    }
}

impl<J, N: Named> Jobs<J, N> {
    /// Who asks, by the log that has this name.
    pub fn new(fresh: Fresh<J>) -> Jobs<J, N>
        requires { fresh ≡ N.book }
    {
        let (word, seen) = fresh.into_parts();
        Jobs {
            word,
            seen,
            next: 0,
            of: PhantomData,
        }
    }

    /// Notes a job, and makes the message that asks for it. The job comes back if the log is full.
    pub(crate) fn ask<A, W: Work<J, A>>(&mut self, job: J) -> Result<(u64, Asking<J, A, N, W>), J>
        requires can { W.can job }
        ensures asked { IfOk result (λ told. (slice_get self.new told.0 ≡ Some job) × (told.1.1.1 ≡ job)) }
        ensures back { IfErr result (λ back. back ≡ job) }
        ensures grows { IsPrefix self.old self.new }
    {
        let place = self.next;
        if place == u64::MAX || !note(&self.word, &mut self.seen, place, &job) {
            return Err(job);
        }
        self.next = place + 1;
        let seen = self.seen.again();
        Ok((
            place,
            Asking {
                job,
                place,
                seen,
                of: PhantomData,
            },
        ))
    }

    /// What was done for the job at this place, if it is that.
    pub(crate) fn take<A: Drop, W: Work<J, A>>(
        &mut self,
        place: u64,
        done: Done<J, A, N, W>,
    ) -> Option<A>
        ensures done { IfSome result (λ answer. (job : J) → slice_get self.old place ≡ Some job → W.does job answer) }
        ensures grows { IsPrefix self.old self.new }
    {
        let (answer, at, seen) = done.into_parts();
        if at != place {
            return None;
        }
        self.seen.learn(&seen);
        Some(answer)
    }
}

/// The rule of the log: its first word has its length. Nobody keeps anything beside it.
pub struct Noted;

impl<J> Rule<J, ()> for Noted {
    ghost holds = { λ cells log. cell cells 0 ≡ (length log, true) };

    ghost first = { [] };

    ghost hinted = { λ number log. ⊤ };

    ghost shows = { λ log. [] };

    ghost keeps = { λ names shown. ftrue };

    ghost moves = { λ ask old new answer. ⊥ };
}

/// The step that notes a job: if it found the number that it asked for, the job stands there.
pub(crate) struct Notes;

impl<J> Play<J, ()> for Notes {
    ghost then = { λ step before found after. found ≡ step.old
        → (front : List _) × (length front ≡ found) × (after.0 ≡ front ++ step.ask ∷ []) };
}

impl<J> Gain<J, ()> for Notes {
    ghost after = { λ names about answer. ftrue };
}

impl<J> Plain<J, J, ()> for Notes {
    ghost ask = { λ job. job };

    ghost state = { λ job. None };
}

/// Notes a job at this place, if so many stand before it.
pub(crate) fn note<J>(
    word: &Word<J, (), Noted>,
    seen: &mut Seen<J, (), Noted>,
    place: u64,
    job: &J,
) -> bool
    requires word { (word.now.tracked ≡ true) × (word.now.key ≡ 0) × (seen.old.book ≡ word.now.book) }
    requires room { place + 1 < 2 ^ 64 }
    ensures book { seen.new.book ≡ seen.old.book }
    ensures grows { IsPrefix seen.old.log seen.new.log }
    ensures noted { result ≡ true → (front : List J) × (length front ≡ place) × (seen.new.log ≡ front ++ job.now ∷ []) }
{
    let mut offer = seen.plain::<Notes, J, Notes>(job);
    let mut pen = seen.no_pen();
    word.compare_exchange::<Notes, Notes>(place, place + 1, seen, &mut offer, &mut pen) == place
}
