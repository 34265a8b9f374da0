// The opening of a book, its beginning and its end.
ghost use Rattle.std.specs.Prelude.{◌≡◌, ◌≤◌, IsTrue, Ok, IfOk, IfErr, OnOk, MatchResult, [], vec_capacity, vec_len};
ghost use Rattle.std.specs.Prelude.{◌∷◌, ◌++◌};
ghost use Rattle.sdls_base.specs.declared.version.TheConstants.{CONTENT_LENGTH_TWO};
ghost use Rattle.sdls_base.specs.declared.entry.Logged.TheVariants as logged;
ghost use Rattle.sdls_outside.specs.Disk.{Leaves};
ghost use Rattle.sdls_outside.specs.Moments.{EachMoment, Trace};
ghost use Rattle.unit_plan.specs.Plan.{plan_of};
ghost use Rattle.unit_state.specs.State.{KeepsRules};
ghost use Rattle.unit_state.specs.Restart.{restarted};
ghost use Rattle.unit_image.specs.Image.{held, IsOfTwo, IsSettled, used_next};
ghost use Rattle.unit_image.specs.Shows.{Shows, ShowsNone};
ghost use Rattle.unit_image.specs.OpeningImage.{HasOpenFault, IsHeldNext, IsOpenCause, StaysOutside, LeavesShown};
ghost use Rattle.unit_image.specs.OpeningImage.{Opening, StandsUnlessFailed};
ghost use Rattle.run_promise.specs.Log.{entries_of};
ghost use Rattle.run_promise.specs.Call.{site_seen};
ghost use Rattle.unit_book.specs.Book.{IsKept, begun};
ghost use Rattle.unit_book.specs.Log.{lines, sunk_between};

use crate::book::Book;
use run_promise::MOST_ENTRIES;
use sdls_base::{CONTENT_LENGTH_TWO, Entry};
use sdls_outside::{Failed, Site};
use std::alloc::{AllocError, Global};
use std::snapshot::Snapshot;
use unit_image::{OpenFault, Opened};

/// What a book begins with: what the image shows, and rooms for the entries and for a content.
#[derive(Drop)]
struct Started {
    found: Opened,
    entries: Vec<Entry>,
    room: Vec<u8>,
}

/// Room for the content of a bank.
fn content_room(alloc: Global) -> Result<Vec<u8>, AllocError>
    ensures { IfOk result (λ room. vec_len room ≡ CONTENT_LENGTH_TWO) }
{
    vec![in alloc; 0; CONTENT_LENGTH_TWO]
}

/// Starts a run on the site, reserves the rooms, and opens the image.
fn start<O: Site>(alloc: Global, site: &mut O) -> Result<Started, OpenFault>
    ensures entries { IfOk result (λ begun. (begun.entries.items ≡ [])
        × (MOST_ENTRIES ≤ vec_capacity begun.entries)) }
    ensures room { IfOk result (λ begun. vec_len begun.room ≡ CONTENT_LENGTH_TWO) }
    ensures settled { IsTrue O.told → IfOk result (λ begun. IsSettled (O.trace site.new) begun.found.journal) }
    ensures shows { IsTrue O.told → IfOk result (λ begun. Shows (O.trace site.old).now.image begun.found.state
        × Shows (O.trace site.new).now.image begun.found.state) }
    ensures version { IfOk result (λ begun. IsOfTwo begun.found.journal) }
    ensures holds { IsTrue O.told → OnOk result
        (IsHeldNext (O.trace site.old).now.image (held (O.trace site.new).now.image)) }
    ensures outside { IsTrue O.told → IfOk result (λ begun.
        StaysOutside begun.found.journal.layout (O.trace site.old).now.image (O.trace site.new).now.image) }
    ensures same_plan { IsTrue O.told → OnOk result ((held (O.trace site.new).now.image).plan
        ≡ (held (O.trace site.old).now.image).plan) }
    ensures plan { IsTrue O.told → IfOk result (λ begun.
        plan_of (held (O.trace site.old).now.image).plan ≡ Ok begun.found.plan) }
    ensures rules { IfOk result (λ begun. KeepsRules begun.found.state) }
    ensures any_moment { IsTrue O.told → EachMoment (O.trace site.old) (O.trace site.new) (Opening (O.trace site.old)) }
    ensures left { IsTrue O.told → IfErr result (LeavesShown (O.trace site.old) (O.trace site.new)) }
    ensures puts { O.put_faults site.new ≡ O.put_faults site.old }
    ensures fault { HasOpenFault (O.faults site.old) (O.faults site.new)
        (λ offset. IsTrue O.told → ShowsNone (O.trace site.old).now.image offset) result }
{
    match site.begin() {
        Ok(_) => {}
        Err(Failed) => return Err(OpenFault::SiteFault(site.faults())),
    }
    let Ok(entries) = Vec::with_capacity(alloc, MOST_ENTRIES) else {
        return Err(OpenFault::NoMemory);
    };
    let Ok(mut room) = content_room(alloc) else {
        return Err(OpenFault::NoMemory);
    };
    match unit_image::open(alloc, site, &mut room) {
        Ok(found) => Ok(Started {
            found,
            entries,
            room,
        }),
        Err(fault) => Err(fault),
    }
}

impl<O: Site> Book<O> {
    /// Opens the image of a site: starts a run on it, reserves the room for the entries and for a content, makes all
    /// checks of the image, brings its journal to rest, and brings an image of version 1 up to version 2.
    ///
    /// An answer `Image`, with the offset of the first check that fails, says that the image shows no state. Each other
    /// refusal is a fault of the site, or memory ran out. Nothing is written to an image that shows no state.
    pub fn open(alloc: Global, mut site: O) -> Result<Book<O>, (OpenFault, O)>
        ensures kept { IfOk result (IsKept O.told) }
        ensures begun { IfOk result (λ book.
            book ≡ begun book.site (O.trace site).now.image book.plan book.start book.journal) }
        // The image that was read, and the one that the opening left, show the state at the start.
        ensures shows { IsTrue O.told → IfOk result (λ book. Shows (O.trace site).now.image book.start
            × Shows book.site.trace.now.image book.start) }
        // Outside the banks the image is as it was read, but for the octet that migrates it.
        ensures outside { IsTrue O.told → IfOk result (λ book. StaysOutside book.journal.layout
            (O.trace site).now.image book.site.trace.now.image) }
        // The journal has as many records as the image that was read, or none if that one was of version 1.
        ensures used { IsTrue O.told → IfOk result (λ book. book.journal.used ≡ used_next (O.trace site).now.image) }
        ensures plan { IsTrue O.told → IfOk result (λ book. plan_of (held (O.trace site).now.image).plan
            ≡ Ok book.plan) }

        // Only an image that shows no state is refused as one.
        ensures refused { IfErr result (λ refused. IsOpenCause (O.faults site) (O.faults refused.1)
            (λ offset. IsTrue O.told → ShowsNone (O.trace site).now.image offset) refused.0) }

        // An image that shows no state stands as it was, whatever is answered. One that shows a state shows it still,
        // unless the site failed.
        ensures left { IsTrue O.told → IfErr result (λ refused. LeavesShown (O.trace site) (O.trace refused.1)
            refused.0) }

        // A crash at any moment leaves what one before may have left, or what the opening of the image may leave.
        ensures any_moment { IsTrue O.told → MatchResult result
            (λ book. EachMoment (O.trace site) book.site.trace (Opening (O.trace site)))
            (λ refused. EachMoment (O.trace site) (O.trace refused.1) (Opening (O.trace site))) }
        ensures puts { MatchResult result (λ book. book.site.put_faults ≡ O.put_faults site)
            (λ refused. O.put_faults refused.1 ≡ O.put_faults site) }
        ensures later { MatchResult result (λ book. O.faults site ≤ book.site.faults)
            (λ refused. O.faults site ≤ O.faults refused.1) }
        // The image as it reads is one that a crash may leave.
        ensures stays { IsTrue O.told → IfOk result (λ book. Leaves book.site.trace.now book.site.trace.now.image) }
        ensures stood { IfOk result (λ book. book.site.faults ≡ O.faults site) }
        // The site's count of faults rises only if a fault of the site is answered.
        ensures calm { IfErr result (λ refused. StandsUnlessFailed (O.faults site) (O.faults refused.1) refused.0) }
    {
        let taken = Snapshot::of(&site);
        match start(alloc, &mut site) {
            Ok(
                Started {
                    found,
                    entries,
                    room,
                },
            ) => Ok(Book::new(site, taken, found, entries, room)),
            Err(fault) => Err((fault, site)),
        }
    }
}

impl<O: Site> Book<O> {
    /// The book over a site whose image, at rest, shows this state. `taken` is the site as `open` took it.
    pub(crate) fn new(
        site: O,
        taken: Snapshot<O>,
        found: Opened,
        entries: Vec<Entry>,
        room: Vec<u8>,
    ) -> Book<O>
        requires rules { KeepsRules found.state }
        requires settled { IsTrue O.told → IsSettled (O.trace site) found.journal }
        requires shows { IsTrue O.told → Shows (O.trace site).now.image (restarted found.state) }
        requires same_plan { IsTrue O.told → (held (O.trace site).now.image).plan
            ≡ (held (O.trace taken.value).now.image).plan }
        requires entries { (entries.items ≡ []) × (MOST_ENTRIES ≤ vec_capacity entries) }
        requires room { vec_len room ≡ CONTENT_LENGTH_TWO }
        requires version { IsOfTwo found.journal }
        ensures view { result ≡ begun (site_seen O.trace O.faults O.put_faults site) (O.trace taken.value).now.image
            found.plan found.state found.journal }
        ensures kept { IsKept O.told result }
    {
        let Opened {
            journal,
            plan,
            state,
        } = found;
        Book {
            begun: taken,
            opened: Snapshot::of(&site),
            faults: site.faults(),
            site,
            plan,
            start: Snapshot::of(&state),
            state,
            journal,
            entries,
            standing: 0,
            changes: 0,
            log: Log::Begun,
            room,
        }
    }

    /// Gives back the site and the run's entries.
    pub fn into_site(self) -> (O, Vec<Entry>)
        ensures site { self.site ≡ site_seen O.trace O.faults O.put_faults result.0 }
        ensures entries { result.1.items ≡ entries_of self.log }
    {
        let Book {
            site,
            begun: _,
            opened: _,
            faults: _,
            plan: _,
            start: _,
            state: _,
            journal: _,
            entries,
            standing: _,
            changes: _,
            log: _,
            room: _,
        } = self;
        (site, entries)
    }
}

/// What was entered and put, the newest last. It takes no memory: of what came before it has a snapshot.
#[derive(Drop)]
pub(crate) enum Log<O> {
    Begun,
    Entered(Snapshot<Log<O>>, Snapshot<Entry>),
    /// The site before and after octets were put.
    Put(Snapshot<Log<O>>, Snapshot<O>, Snapshot<O>),
}

/// The log with one more entry.
pub(crate) fn with_entry<O>(log: &Log<O>, entry: &Entry) -> Log<O>
    ensures { (trace : O → Trace) → lines trace result ≡ lines trace log.now ++ logged.Entry entry.now ∷ [] }
{
    Log::Entered(Snapshot::of(log), Snapshot::of(entry))
}

/// The log with one more piece: what was put on a site.
pub(crate) fn with_piece<O>(log: &Log<O>, before: Snapshot<O>, site: &O) -> Log<O>
    ensures { (trace : O → Trace) → lines trace result
        ≡ lines trace log.now ++ logged.Piece (sunk_between (trace before.value) (trace site.now)) ∷ [] }
{
    Log::Put(Snapshot::of(log), before, Snapshot::of(site))
}
