// The book, the reserve of numbers in it, and its state after an entry.
ghost use Rattle.std.specs.Prelude.{◌≡◌, ◌+◌, ◌<◌, ◌≤◌, ◌↔◌, IsTrue, MatchResult, IfErr, OnOk, Some, None, length};
ghost use Rattle.std.specs.Prelude.{◌∷◌, [], ◌++◌, false, ℕ, Ok, min, IsSome, if◌then◌else◌, MatchOption};
ghost use Rattle.sdls_outside.specs.Faults.{Rose};
ghost use Rattle.sdls_outside.specs.Site.{Puts, after_put};
ghost use Rattle.unit_state.specs.Applied.{applied};
ghost use Rattle.unit_state.specs.Allows.{Allows};
ghost use Rattle.unit_state.specs.State.{key_row};
ghost use Rattle.unit_state.specs.Restart.{counts};
ghost use Rattle.run_promise.specs.Log.{entries_of};
ghost use Rattle.run_promise.specs.Numbers.{mark_of, floor_of, reserve_of};
ghost use Rattle.unit_book.specs.Log.{sunk_between};
ghost use Rattle.unit_book.specs.Marks.{is_release, KeepsMarks};
ghost use Rattle.unit_book.specs.Book.{IsKept, CanEnter, IsBarred, IsNextState, entered, left_out, with_put};
ghost use Rattle.unit_book.specs.Book.{PutFails, Made, Refuses};
ghost use Rattle.unit_book.specs.LeavesBook.{LeavesBook, MakesEntry, TellsRise, IsCalm};
ghost use Rattle.unit_book.specs.declared.book.Next.{Next};
ghost use Rattle.sdls_base.specs.declared.entry.Change.{Change};
ghost use Rattle.sdls_base.specs.KeyId.{end_of};

use crate::fault::BookFault;
use crate::opening_image::{Log, with_entry, with_piece};
use run_promise::MOST_ENTRIES;
use sdls_base::{Change, Entry, KeyId, Seen};
use sdls_outside::{Failed, Site};
use std::marker::Model;
use std::snapshot::Snapshot;
use unit_image::{Journal, SiteFault, rest_stays_whole, store};
use unit_plan::Plan;
use unit_state::State;

/// A unit's state, with the journal in which each change of it is stored, and the site that holds both.
pub struct Book<O: Site> {
    pub(crate) site: O,
    /// The site as `open` took it, and as it was when `open` returned, with the count of its faults then.
    pub(crate) begun: Snapshot<O>,
    pub(crate) opened: Snapshot<O>,
    pub(crate) faults: u64,
    pub(crate) plan: Plan,
    pub(crate) start: Snapshot<State>,
    pub(crate) state: State,
    pub(crate) journal: Journal,
    pub(crate) entries: Vec<Entry>,
    pub(crate) standing: u64,
    pub(crate) changes: u64,
    pub(crate) log: Log<O>,
    /// Room for the content of a bank.
    pub(crate) room: Vec<u8>,
}

impl<O: Site> Model for Book<O> {
    ghost use Rattle.std.specs.Prelude.{◌≡◌, ◌≤◌, length, vec_capacity, vec_len};
    ghost use Rattle.run_promise.specs.Log.{entries_of};
    ghost use Rattle.run_promise.specs.Call.{site_seen};
    ghost use Rattle.unit_book.specs.Log.{lines};
    ghost use Rattle.run_promise.specs.declared.end.TheConstants.{MOST_ENTRIES};
    ghost use Rattle.sdls_base.specs.declared.version.TheConstants.{CONTENT_LENGTH_TWO};
    ghost use Rattle.unit_image.specs.Image.{IsOfTwo};
    ghost use Rattle.unit_book.specs.Book.{BookView};
    ghost use Rattle.std.specs.Coded.{codes, coded_ℕ};
    ghost use Rattle.std.specs.FinSet as set;
    ghost use Rattle.std.specs.Ordering.{nat_cmp};

    ghost Value = { BookView };

    ghost coded = { Prim.hlevel (codes, set.code {R = nat_cmp} coded_ℕ) };

    ghost view = { λ book. record {
      site = site_seen O.trace O.faults O.put_faults book.site;
      opened = site_seen O.trace O.faults O.put_faults book.opened.value;
      image = (O.trace book.begun.value).now.image;
      plan = book.plan;
      start = book.start.value;
      state = book.state;
      journal = book.journal;
      log = lines O.trace book.log;
      standing = book.standing;
      changes = book.changes;
    } };

    ghost invariant = { λ book. (book.faults ≡ O.faults book.opened.value)
        × (book.entries.items ≡ entries_of (lines O.trace book.log))
        × (book.standing ≤ length book.entries.items) × (book.changes ≤ book.standing)
        × (MOST_ENTRIES ≤ vec_capacity book.entries) × (vec_len book.room ≡ CONTENT_LENGTH_TWO)
        × IsOfTwo book.journal };
}

impl<O: Site> Book<O> {
    /// Whether the count of the site's faults has risen since the book was opened.
    pub fn has_failed(&self) -> bool
        ensures { IsTrue result ↔ Rose self.entry.now.opened.faults self.entry.now.site.faults }
    {
        let count = self.site.faults();
        count > self.faults || count == u64::MAX
    }

    /// How many entries the run has, a last one whose append failed among them.
    pub fn count(&self) -> u64
        ensures { result ≡ length (entries_of self.entry.now.log) }
    {
        self.entries.len() as u64
    }

    /// How many entries count for the epoch, a failed last one left out.
    pub fn changes(&self) -> u64
        ensures { result ≡ self.entry.now.changes }
    {
        self.changes
    }

    /// Whether an entry may be made: the site has not failed, and there is room.
    pub(crate) fn may_enter(&self) -> Result<(), BookFault>
        requires room { length (entries_of self.now.log) ≤ MOST_ENTRIES }
        ensures may { MatchResult result (λ _. CanEnter self.entry.now) (IsBarred self.entry.now) }
        ensures risen { IfErr result (TellsRise self.entry.now) }
    {
        if self.has_failed() {
            return Err(BookFault::Stopped(self.site.faults()));
        }
        if self.entries.len() == MOST_ENTRIES {
            return Err(BookFault::SessionFull);
        }
        Ok(())
    }

    /// Makes an entry, and its change with it, in memory.
    fn enter(&mut self, entry: Entry, next: Next)
        requires room { length (entries_of self.old.log) < MOST_ENTRIES }
        requires whole { self.old.standing ≡ length (entries_of self.old.log) }
        requires allows { Allows self.old.state entry.change }
        requires makes { IsNextState self.old.state entry.change next }
        ensures { self.new ≡ entered entry self.old }
    {
        put_next(&mut self.state, &entry.change, next);
        self.changes += changes_of(&entry.change);
        self.standing += 1;
        self.log = with_entry(&self.log, &entry);
        self.entries.push_reserved(entry);
    }

    /// Notes an entry whose append failed.
    fn note_failed(&mut self, entry: Entry)
        requires room { length (entries_of self.old.log) < MOST_ENTRIES }
        ensures { self.new ≡ left_out entry self.old }
    {
        self.log = with_entry(&self.log, &entry);
        self.entries.push_reserved(entry);
    }

    /// Stores what an entry changes, and makes the entry and its change. Where something is stored for it, that is in
    /// every image that a crash may leave before the answer.
    pub(crate) fn commit(&mut self, entry: Entry, next: Next) -> Result<u64, BookFault>
        requires kept { IsKept O.told self.old }
        requires can { CanEnter self.old }
        requires allows { Allows self.old.state entry.change }
        requires makes { IsNextState self.old.state entry.change next }
        requires marks { is_release entry ≡ false → KeepsMarks self.old.state (applied self.old.state entry.change) }
        ensures { MakesEntry O.told entry result self.old self.new }
    {
        rest_stays_whole();
        match store(
            &mut self.journal,
            &mut self.site,
            &self.state,
            &entry.change,
            next.state(),
            &mut self.room,
        ) {
            Ok(()) => {
                self.enter(entry, next);
                Ok(self.count())
            }
            Err(SiteFault(count)) => {
                self.note_failed(entry);
                Err(BookFault::SiteFault(count))
            }
        }
    }

    /// Hands octets to the site's sink. It makes no entry, and still writes after a fault of the disk.
    pub fn put(&mut self, octets: &[u8]) -> Result<(), BookFault>
        requires kept { IsKept O.told self.old }
        ensures kept { IsKept O.told self.new }
        ensures made { self.new ≡ with_put (sunk_between self.old.site.trace self.new.site.trace)
            (record self.old { site = self.new.site }) }
        ensures put { IsTrue O.told → Puts octets.now result self.old.site.trace self.new.site.trace }
        ensures fault { IfErr result (PutFails self.old.site.faults self.new.site.faults) }
        ensures goes_on { LeavesBook self.old self.new }
        ensures marks { KeepsMarks self.old.state self.new.state }
        ensures risen { IfErr result (TellsRise self.new) }
        ensures puts { self.new.site.put_faults ≡ after_put result self.old.site.put_faults }
        ensures stood { OnOk result (self.new.site.faults ≡ self.old.site.faults) }
        ensures later { self.old.site.faults ≤ self.new.site.faults }
    {
        let before = Snapshot::of(&self.site);
        let result = self.site.put(octets);
        self.log = with_piece(&self.log, before, &self.site);
        match result {
            Ok(()) => Ok(()),
            Err(Failed) => Err(BookFault::SiteFault(self.site.faults())),
        }
    }
}

impl<O: Site> Book<O> {
    /// The entry that reserves a number.
    fn reserve_entry(&self, key: KeyId, number: u64) -> Entry
        requires { IsSome (key_row self.now.state key) }
        ensures entry { result ≡ reserve_of self.entry.now.plan self.entry.now.state key number }
        ensures block { 1 ≤ self.entry.now.plan.block }
    {
        let floor = self.state.keys.receive_floor(key).unwrap_or(0);
        Entry {
            index: None,
            seen: Seen::Number(number),
            change: Change::Marks {
                key,
                mark: number.saturating_add(self.plan.block()).min(key.end()),
                floor,
            },
        }
    }

    /// The mark of a key that is there.
    pub(crate) fn mark(&self, key: KeyId) -> u64
        ensures { result ≡ mark_of self.entry.now.state key }
    {
        self.state.keys.mark(key).unwrap_or(1)
    }

    /// Sees to it that a key's mark is above a number that was drawn, and answers the mark that then stands. Where it
    /// is above already no entry is made. Takes no memory.
    pub fn reserve(&mut self, key: KeyId, number: u64) -> Result<u64, BookFault>
        requires kept { IsKept O.told self.old }
        requires there { IsSome (key_row self.old.state key) }
        requires below { number < end_of key }
        ensures kept { IsKept O.told self.new }
        ensures unneeded { number < mark_of self.old.state key
            → (result ≡ Ok (mark_of self.old.state key)) × (self.new ≡ self.old) }
        ensures made { mark_of self.old.state key ≤ number → MatchResult result
            (λ mark. (position : ℕ) × Made (reserve_of self.old.plan self.old.state key number) self.old
            self.new position
            × (mark ≡ mark_of self.new.state key))
            (Refuses (reserve_of self.old.plan self.old.state key number) self.old self.new) }
        ensures above { (mark : ℕ) → result ≡ Ok mark → number < mark }
        ensures goes_on { LeavesBook self.old self.new }
        ensures marks { KeepsMarks self.old.state self.new.state }
        ensures risen { IfErr result (TellsRise self.new) }
        ensures puts { self.new.site.put_faults ≡ self.old.site.put_faults }
        ensures later { self.old.site.faults ≤ self.new.site.faults }
        ensures calm { IsCalm self.old self.new }
    {
        let mark = self.mark(key);
        if number < mark {
            return Ok(mark);
        }
        self.may_enter()?;
        let entry = self.reserve_entry(key, number);
        match self.commit(entry, Next::Here) {
            Ok(_) => Ok(self.mark(key)),
            Err(fault) => Err(fault),
        }
    }
}

/// Writes the state after the change in its place.
pub(crate) fn put_next(state: &mut State, change: &Change, next: Next)
    requires allowed { Allows state.old change.now }
    requires makes { IsNextState state.old change.now next }
    ensures { state.new ≡ applied state.old change.now }
{
    match next {
        Next::Here => state.apply_here(change),
        Next::Then(made) => *state = made,
    }
}

/// Whether a change counts for the epoch, as a number.
pub(crate) fn changes_of(change: &Change) -> u64
    ensures { result ≡ (if counts change.now then 1 else 0) }
{
    if unit_state::counts(change) { 1 } else { 0 }
}

/// How the state after an entry is made.
#[derive(Drop)]
pub(crate) enum Next {
    /// By the change itself, which takes no memory.
    Here,
    /// It is this one, made beforehand.
    Then(State),
}

impl Next {
    /// The state, if it was made beforehand.
    pub(crate) fn state(&self) -> Option<&State>
        ensures { MatchOption result (self.now ≡ Next.Here) (λ made. self.now ≡ Next.Then made.now) }
    {
        match self {
            Next::Here => None,
            Next::Then(made) => Some(made),
        }
    }
}
