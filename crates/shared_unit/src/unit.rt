//! The unit: its beginning, its workers, the calls that take the turn once, and its end.
ghost use Rattle.std.specs.Prelude.{◌≡◌, ◌<◌, ◌≤◌, ℕ, ◌+◌, ◌^◌, IsTrue, true, [], IfOk, IfErr, MatchResult};
ghost use Rattle.sdls_base.specs.declared.TheConstants.{MOST_KEYS};
ghost use Rattle.sdls_base.specs.Numbers.{tally};
ghost use Rattle.sdls_outside.specs.Moments.{EachMoment};
ghost use Rattle.frame_checks.specs.ProtectingFrames.{channel_check};
ghost use Rattle.unit_image.specs.OpeningImage.{IsOpenCause, LeavesShown, Opening};
ghost use Rattle.unit_image.specs.Shows.{ShowsNone};
ghost use Rattle.run_promise.specs.Call.{site_seen};
ghost use Rattle.unit_book.specs.Book.{BookView, IsKept};
ghost use Rattle.counter_table.specs.Play.{IsAsKnown, IsCovered};
ghost use Rattle.counter_table.specs.Worker.{view, KeepsNumbers, IsSame, IsOf};
ghost use Rattle.counter_table.specs.Numbers.{ALL_SHARES, joined, keeper, newcomer};
ghost use Rattle.counter_table.specs.Close.{ClosesCounters};
ghost use Rattle.counter_table.specs.Turn.{beginner, merged};
ghost use Rattle.counter_table.specs.Whole.{IsWhole, Meet};
ghost use Rattle.counter_table.specs.Known.{known_mark};
ghost use Rattle.shared_unit.specs.Calls.{IsPut};
ghost use Rattle.shared_unit.specs.Told.{known_of_book, entry_count};
ghost use Rattle.shared_unit.specs.Turn.{IsReady, Visits};
ghost use Rattle.shared_unit.specs.Sharing.{Begins, BookIsOpened, IsRaised};

use crate::shared_book::SharedBook;
use counter_table::{Counted, Counters, Held};
use frame_shield::ShieldFault;
use sdls_base::{ChannelId, MOST_KEYS, NoMemory};
use sdls_outside::Site;
use std::alloc::Global;
use std::sync::Wait;
use unit_book::{Book, BookFault};
use unit_image::{OpenFault, refused_with_one, shows_one};
use unit_plan::Plan;

/// A book that workers share, with the words of its keys, and what the plan says of links and channels beside them.
pub struct Unit<O: Site> {
    pub(crate) counters: Counters<SharedBook<O>>,
    pub(crate) plan: Plan,
    ghost rows: { counters.rows ≡ MOST_KEYS },
}

impl<O: Site + Drop> Drop for Unit<O> {
    fn drop(self) {
        let Unit {
            counters: _,
            plan: _,
        } = self;
    }
}

/// One who makes calls on a unit. It has no octets.
pub type Worker<O> = counter_table::Worker<SharedBook<O>>;

impl<O: Site> Unit<O> {
    pub(crate) fn into_counters(self) -> Counters<SharedBook<O>>
        ensures { result ≡ self.counters }
    {
        let Unit { counters, plan: _ } = self;
        counters
    }

    /// The channel of a frame in clear that is to be protected, or the first check that fails of those for which the
    /// plan is enough. `None` is a frame that is sent as it stands. Takes neither memory nor the turn.
    pub fn channel(&self, link: u8, clear: &[u8]) -> Result<Option<ChannelId>, ShieldFault>
        ensures { result ≡ channel_check self.now.plan link clear.now }
    {
        frame_checks::channel(&self.plan, link, clear)
    }
}

impl<O: Site> Unit<O> {
    /// How many entries the run has, a last one whose append failed among them.
    pub fn count<R: Wait>(&self, rt: &R, worker: &mut Worker<O>) -> u64
        requires ready { IsReady self.now.counters self.now.plan worker.old }
        ensures ready { IsReady self.now.counters self.now.plan worker.new }
        ensures numbers { KeepsNumbers worker.old worker.new }

        // Who has all shares found the book as it was known.
        ensures counted { (found : BookView) × Visits O.told found found
            (view worker.old).turn (view worker.new).turn
            × (result ≡ entry_count (known_of_book found))
            × ((view worker.old).numbers.shares ≡ ALL_SHARES
            → IsAsKnown (view worker.old).turn (known_of_book found)) }
    {
        let held = self.counters.take(rt, worker);
        let count = held.book.count();
        self.counters.give(worker, held);
        count
    }

    /// Hands octets to the site's sink. It makes no entry, and still writes after a fault of the disk.
    pub fn put<R: Wait>(
        &self,
        rt: &R,
        worker: &mut Worker<O>,
        octets: &[u8],
    ) -> Result<(), BookFault>
        requires ready { IsReady self.now.counters self.now.plan worker.old }
        ensures ready { IsReady self.now.counters self.now.plan worker.new }
        ensures numbers { KeepsNumbers worker.old worker.new }

        // No number was spent by the worker that is not below its row's mark in the book that the call found, and who
        // has all shares found the book as it was known.
        ensures put { (found given : BookView) × Visits O.told found given
            (view worker.old).turn (view worker.new).turn
            × IsPut O.told octets.now result found given
            × IsCovered MOST_KEYS (view worker.old).numbers (known_of_book found)
            × ((view worker.old).numbers.shares ≡ ALL_SHARES
            → IsAsKnown (view worker.old).turn (known_of_book found)) }
    {
        let mut held = self.counters.take(rt, worker);
        let result = held.book.put(octets);
        self.counters.give(worker, held);
        result
    }
}

impl<O: Site> Unit<O> {
    /// Gives one of the worker's shares to a new worker, which has seen as much.
    pub fn split(&self, worker: &mut Worker<O>) -> Worker<O>
        requires ready { IsReady self.now.counters self.now.plan worker.old }
        requires two { 1 < (view worker.old).numbers.shares }
        ensures ready { IsReady self.now.counters self.now.plan worker.new }
        ensures new { IsReady self.now.counters self.now.plan result }
        ensures same { IsSame worker.old worker.new }
        ensures keeper { view worker.new ≡ record {
          numbers = keeper (view worker.old).numbers;
          turn =
              (view worker.old).turn;
        } }
        ensures newcomer { view result ≡ record {
          numbers = newcomer (view worker.old).numbers;
          turn = beginner
              (view worker.old).turn;
        } }
    {
        self.counters.split(worker)
    }

    /// Ends the other worker.
    pub fn join(&self, worker: &mut Worker<O>, other: Worker<O>)
        requires ready { IsReady self.now.counters self.now.plan worker.old }
        requires other { IsReady self.now.counters self.now.plan other }
        ensures ready { IsReady self.now.counters self.now.plan worker.new }
        ensures same { IsSame worker.old worker.new }
        ensures joined { view worker.new ≡ record {
          numbers = joined (view worker.old).numbers (view other).numbers;
          turn = merged (view worker.old).turn (view other).turn;
        } }

        // No number of a row was drawn twice, and what both knew is of an earlier time.
        ensures apart { (row x : ℕ) → row < MOST_KEYS
            → tally row x (view worker.old).numbers.drawn + tally row x (view other).numbers.drawn ≤ 1 }
        ensures meet { Meet (view worker.old).turn (view other).turn }

        // Who has all shares did all.
        ensures whole { (view worker.new).numbers.shares ≡ ALL_SHARES → IsWhole MOST_KEYS (view worker.new) }
    {
        self.counters.join(worker, other);
    }

    /// Ends the unit, and gives the book and each row's word `next`, in the order of loading. All workers but this one
    /// were joined.
    pub fn close(self, worker: Worker<O>) -> (Book<O>, Vec<u64>)
        requires ready { IsReady self.counters self.plan worker }
        requires all { (view worker).numbers.shares ≡ ALL_SHARES }
        ensures kept { IsKept O.told result.0 }
        ensures closes { ClosesCounters MOST_KEYS (view worker) (known_of_book result.0)
            result.1.items }
    {
        let counters = self.into_counters();
        let (shared, nexts) = counters.close(worker);
        (shared.into_book(), nexts)
    }
}

// A row for each key that a book can have.
const ROWS: u16 = MOST_KEYS as u16;

// The site of a book that is not needed any more.
fn site_of<O: Site>(book: Book<O>) -> O
    ensures { book.site ≡ site_seen O.trace O.faults O.put_faults result }
{
    let (site, _entries) = book.into_site();
    site
}

impl<O: Site> Unit<O> {
    // Raises each word `next` to its row's mark, and lifts each limit there.
    fn raise_all(&self, worker: &mut Worker<O>, held: &Held<SharedBook<O>>)
        requires own { IsOf self.now.counters worker.old }
        requires turn { (view worker.old).turn.holds ≡ true }
        requires filled { (view worker.old).turn.filled ≡ true }
        requires known { (view worker.old).turn.known ≡ known_of_book held.now.book }
        requires marks { (row : ℕ) → known_mark (known_of_book held.now.book) row
            ≤ 2 ^ 48 }
        ensures own { IsOf self.now.counters worker.new }
        ensures raised { IsRaised (known_of_book held.now.book) MOST_KEYS
            (view worker.old) (view worker.new) }
    {
        for row in 0..ROWS {
            let mark = held.book.mark(row);
            self.counters.raise_next(worker, held, row, mark);
            self.counters.lift(worker, held, row);
        }
    }

    // A unit over a book that was opened, with all words at its marks. If memory runs out, the site comes back.
    fn share_book<R: Wait>(rt: &R, alloc: Global, book: Book<O>) -> Result<(Unit<O>, Worker<O>), O>
        requires kept { IsKept O.told book }
        requires first { book.log ≡ [] }
        ensures made { IfOk result (λ made. Begins book made.0.counters made.0.plan
            made.1) }
        ensures refused { IfErr result (λ site. book.site ≡ site_seen O.trace O.faults O.put_faults site) }
    {
        let plan = match book.plan().copy() {
            Ok(plan) => plan,
            Err(NoMemory) => return Err(site_of(book)),
        };
        let shared = match SharedBook::new(alloc, book) {
            Ok(shared) => shared,
            Err(book) => return Err(site_of(book)),
        };
        let (counters, mut worker) = match Counters::new(alloc, ROWS) {
            Ok(made) => made,
            Err(NoMemory) => return Err(site_of(shared.into_book())),
        };
        counters.fill(&mut worker, shared);
        let unit = Unit { counters, plan };
        let held = unit.counters.take(rt, &mut worker);
        held.book.look();
        unit.raise_all(&mut worker, &held);
        unit.counters.give(&mut worker, held);
        // For contracts alone: a worker that has all shares did all that was done.
        let other = unit.split(&mut worker);
        unit.join(&mut worker, other);
        Ok((unit, worker))
    }

    /// Opens the image of a site, and makes the words of its keys: each word `next` and `limit` begins at its key's
    /// mark. Returns the unit and its first worker, which has all shares. The refusals are those of [`Book::open`].
    /// If memory for the words or for the place of the book runs out, the site is as the opening left it.
    pub fn open<R: Wait>(
        rt: &R,
        alloc: Global,
        site: O,
    ) -> Result<(Unit<O>, Worker<O>), (OpenFault, O)>
        ensures opened { IfOk result (λ made. (book : BookView)
            × BookIsOpened O.told (site_seen O.trace O.faults O.put_faults site) book
            × Begins book made.0.counters made.0.plan made.1) }

        // Only an image that shows no state is refused as one.
        ensures refused { IfErr result (λ refused. IsOpenCause (O.faults site) (O.faults refused.1)
            (λ offset. IsTrue O.told → ShowsNone (O.trace site).now.image offset) refused.0) }

        // An image that shows no state stands as it was, whatever is answered. One that shows a state shows it still,
        // unless the site failed.
        ensures left { IsTrue O.told → IfErr result (λ refused. LeavesShown (O.trace site) (O.trace refused.1)
            refused.0) }

        // A crash at any moment leaves what one before may have left, or what the opening of the image may leave.
        ensures any_moment { IfErr result (λ refused. IsTrue O.told
            → EachMoment (O.trace site) (O.trace refused.1) (Opening (O.trace site))) }
        ensures later { IfErr result (λ refused. O.faults site ≤ O.faults refused.1) }
        ensures puts { IfErr result (λ refused. O.put_faults refused.1 ≡ O.put_faults site) }
    {
        shows_one();
        refused_with_one();
        let book = match Book::open(alloc, site) {
            Ok(book) => book,
            Err(refused) => return Err(refused),
        };
        match Unit::share_book(rt, alloc, book) {
            Ok(made) => Ok(made),
            Err(site) => Err((OpenFault::NoMemory, site)),
        }
    }
}
