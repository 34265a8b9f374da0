//! The book in its place between the words.
ghost use Rattle.std.specs.Prelude.{◌≡◌, ◌<◌, ◌↔◌, ℕ, Ok, Some, None, IsSome, IsNone, IfOk, IfSome, MatchResult};
ghost use Rattle.std.specs.Prelude.{length};
ghost use Rattle.sdls_base.specs.KeyId.{end_of};
ghost use Rattle.sdls_base.specs.declared.TheConstants.{MOST_KEYS};
ghost use Rattle.frame_shield.specs.Binding.{IsBinding};
ghost use Rattle.key_book.specs.KeyBook.{place_of};
ghost use Rattle.unit_state.specs.State.{key_row};
ghost use Rattle.frame_checks.specs.Accepting.{LeavesOctets, field_in};
ghost use Rattle.frame_checks.specs.ProtectingFrames.{IsSentClear, channel_check, protect_check, without_channel};
ghost use Rattle.frame_checks.specs.Trying.{IsOpener, IsTried};
ghost use Rattle.run_promise.specs.Log.{entries_of};
ghost use Rattle.run_promise.specs.History.{IsNeedOf};
ghost use Rattle.unit_book.specs.Book.{IsKept};
ghost use Rattle.unit_book.specs.Records.{Handles, OpensWithEntry, RefusesFrame, RefusesMessage};
ghost use Rattle.shared_unit.specs.Calls.{IsPut};
ghost use Rattle.shared_unit.specs.Funding.{Reserves};
ghost use Rattle.shared_unit.specs.Going.{GoesUp};
ghost use Rattle.shared_unit.specs.Told.{known_of_book};
ghost use Rattle.ep_core.specs.declared.judging.Need.{Need};
ghost use Rattle.ep_core.specs.Seen.{MeetsNeed};

use counter_table::Counted;
use ep_core::{Need, Reply};
use frame_checks::{ChannelBinding, OpenReply, Opener};
use frame_shield::{Opened, ShieldFault};
use sdls_base::{KeyId, NoMemory, Seen};
use sdls_outside::Site;
use std::alloc::{AllocFailed, Global};
use std::marker::Model;
use unit_book::{Book, BookFault};

/// A book that is kept, behind a pointer: who takes the turn moves the pointer alone. Contracts see it as the book.
pub struct SharedBook<O: Site> {
    book: Box<Book<O>>,
}

impl<O: Site> Model for SharedBook<O> {
    ghost use Rattle.unit_book.specs.Book.{BookView, IsKept};
    ghost use Rattle.std.specs.Coded.{codes, coded_ℕ};
    ghost use Rattle.std.specs.FinSet as set;
    ghost use Rattle.std.specs.Ordering.{nat_cmp};

    ghost Value = { BookView };

    ghost coded = { Prim.hlevel (codes, set.code {R = nat_cmp} coded_ℕ) };

    ghost view = { λ shared. shared.book.value };

    ghost invariant = { λ shared. IsKept O.told shared.book.value };
}

impl<O: Site> Counted for SharedBook<O> {
    ghost told = { λ shared. known_of_book shared };

    fn mark(&self, row: u16) -> u64 {
        let row = usize::from(row);
        if row < self.book.rows() {
            self.book.mark_at(row)
        } else {
            1
        }
    }

    fn changes(&self) -> u64 {
        self.book.changes()
    }
}

impl<O: Site + Drop> Drop for SharedBook<O> {
    fn drop(self) {
        let (_site, _entries) = self.into_book().into_site();
    }
}

impl<O: Site> SharedBook<O> {
    /// Gives the book its place. If memory runs out, the book comes back.
    pub(crate) fn new(alloc: Global, book: Book<O>) -> Result<SharedBook<O>, Book<O>>
        requires { IsKept O.told book }
        ensures { MatchResult result (λ shared. shared ≡ book) (λ back. back ≡ book) }
    {
        match Box::new(alloc, book) {
            Ok(book) => Ok(SharedBook { book }),
            Err(AllocFailed { value }) => Err(value),
        }
    }

    pub(crate) fn into_book(self) -> Book<O>
        ensures same { result ≡ self }
        ensures kept { IsKept O.told result }
    {
        let SharedBook { book } = self;
        Box::into_inner(book)
    }

    /// For contracts alone: the book is kept.
    pub(crate) fn look(&self)
        ensures { IsKept O.told self.now }
    {
        let _book = &self.book;
    }

    // How many entries the run has.
    pub(crate) fn count(&self) -> u64
        ensures count { result ≡ length (entries_of self.now.log) }
        ensures kept { IsKept O.told self.now }
    {
        self.book.count()
    }

    /// The row of a key that the book has.
    pub(crate) fn row_in(&self, key: KeyId) -> u16
        requires there { (row : ℕ) × (place_of self.now.state.keys key ≡ Some row) }
        ensures row { place_of self.now.state.keys key ≡ Some result }
        ensures below { result < MOST_KEYS }
    {
        let Some(row) = self.book.row_of(key) else {
            unreachable!()
        };
        row as u16
    }

    pub(crate) fn binding(
        &self,
        link: u8,
        clear: &[u8],
    ) -> Result<Option<ChannelBinding>, ShieldFault>
        ensures checked { without_channel result ≡ protect_check self.now.plan self.now.state link clear.now }
        ensures clear { (result ≡ Ok None) ↔ IsSentClear self.now.plan link clear.now }
        ensures channel { IfOk result (λ answer. IfSome answer
            (λ found. channel_check self.now.plan link clear.now ≡ Ok (Some found.channel))) }
        ensures binding { IfOk result (λ answer. IfSome answer (λ found. IsBinding found.binding)) }
        ensures kept { IsKept O.told self.now }
    {
        frame_checks::binding(self.book.plan(), self.book.state(), link, clear)
    }

    pub(crate) fn reserve(&mut self, key: KeyId, number: u64) -> Result<u64, BookFault>
        requires there { IsSome (key_row self.old.state key) }
        requires below { number < end_of key }
        ensures was_kept { IsKept O.told self.old }
        ensures kept { IsKept O.told self.new }
        ensures reserved { Reserves key number result self.old self.new }
        ensures goes_on { GoesUp self.old self.new }
    {
        self.book.reserve(key, number)
    }

    pub(crate) fn accept(
        &mut self,
        index: u64,
        link: u8,
        frame: &mut [u8],
    ) -> Result<(OpenReply, u64), BookFault>
        ensures was_kept { IsKept O.told self.old }
        ensures kept { IsKept O.told self.new }
        ensures made { MatchResult result
            (λ answer. OpensWithEntry index link frame.old (field_in answer.0 frame.new) self.old self.new
            answer.0 answer.1
            × LeavesOctets answer.0 frame.old frame.new)
            (RefusesFrame index link frame.old self.old self.new) }
        ensures goes_on { GoesUp self.old self.new }
        ensures changes { self.new.changes ≡ self.old.changes }
    {
        self.book.accept(index, link, frame)
    }

    pub(crate) fn opener(&self, link: u8, frame: &[u8]) -> Option<Opener>
        ensures opener { IfSome result (IsOpener self.now.plan self.now.state) }
        ensures kept { IsKept O.told self.now }
    {
        frame_checks::opener_of(self.book.plan(), self.book.state(), link, frame)
    }

    pub(crate) fn try_frame(&self, opener: &Opener, link: u8, frame: &mut [u8]) -> Option<Opened>
        requires opener { IsOpener self.now.plan self.now.state opener.now }
        ensures tried { IfSome result (IsTried self.now.plan opener.now link frame.old frame.new) }
        ensures unchanged { IsNone result → frame.new ≡ frame.old }
    {
        frame_checks::try_frame(self.book.plan(), opener, link, frame)
    }

    pub(crate) fn accept_tried(
        &mut self,
        index: u64,
        opener: &Opener,
        link: u8,
        octets: &[u8],
        frame: &[u8],
        opened: Opened,
    ) -> Result<(OpenReply, u64), BookFault>
        requires opener { IsOpener self.old.plan self.old.state opener.now }
        requires tried { IsTried self.old.plan opener.now link octets.now frame.now opened }
        ensures was_kept { IsKept O.told self.old }
        ensures kept { IsKept O.told self.new }
        ensures made { MatchResult result
            (λ answer. OpensWithEntry index link octets.now (field_in answer.0 frame.now) self.old self.new
            answer.0 answer.1
            × LeavesOctets answer.0 octets.now frame.now)
            (RefusesFrame index link octets.now self.old self.new) }
        ensures goes_on { GoesUp self.old self.new }
        ensures changes { self.new.changes ≡ self.old.changes }
    {
        self.book
            .accept_tried(index, opener, link, octets, frame, opened)
    }

    pub(crate) fn need(&self, pdu: &[u8]) -> Result<Need, NoMemory>
        ensures need { IfOk result (IsNeedOf self.now.state pdu.now) }
        ensures kept { IsKept O.told self.now }
    {
        self.book.need(pdu)
    }

    pub(crate) fn command(
        &mut self,
        index: u64,
        pdu: &[u8],
        seen: Seen,
    ) -> Result<(Reply, u64), BookFault>
        requires seen { (need : Need) → IsNeedOf self.old.state pdu.now need → MeetsNeed self.old.state need seen }
        ensures was_kept { IsKept O.told self.old }
        ensures kept { IsKept O.told self.new }
        ensures made { MatchResult result
            (λ answer. Handles index pdu.now seen self.old self.new answer.0 answer.1)
            (RefusesMessage index pdu.now seen self.old self.new) }
        ensures goes_on { GoesUp self.old self.new }
    {
        self.book.command(index, pdu, seen)
    }

    pub(crate) fn put(&mut self, octets: &[u8]) -> Result<(), BookFault>
        ensures was_kept { IsKept O.told self.old }
        ensures kept { IsKept O.told self.new }
        ensures put { IsPut O.told octets.now result self.old self.new }
        ensures goes_on { GoesUp self.old self.new }
        ensures changes { self.new.changes ≡ self.old.changes }
    {
        self.book.put(octets)
    }
}
