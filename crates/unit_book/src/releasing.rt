// The release at the end of a run, and what a book shows.
ghost use Rattle.std.specs.Prelude.{◌≡◌, ℕ, ◌<◌, ◌≤◌, Ok, MatchOption, MatchResult, IfErr, Some, length, slice_get};
ghost use Rattle.std.specs.Prelude.{slice_index, slice_index_or, IfOk, IfSome};
ghost use Rattle.std.specs.Option.{option_map};
ghost use Rattle.frame_shield.specs.Binding.{IsBinding};
ghost use Rattle.key_book.specs.declared.key_row.KeyRow.{KeyRow};
ghost use Rattle.key_book.specs.KeyBook.{place_of};
ghost use Rattle.sa_book.specs.SaRefusal.{receiver_with};
ghost use Rattle.frame_checks.specs.ProtectingFrames.{protect_check};
ghost use Rattle.run_promise.specs.Numbers.{released_floor, release_of, release_at};
ghost use Rattle.unit_book.specs.Book.{IsKept, Made, Refuses};
ghost use Rattle.unit_book.specs.LeavesBook.{LeavesBook, TellsRise};
ghost use Rattle.unit_book.specs.Numbers.{Releases};
ghost use Rattle.unit_book.specs.Receivers.{TellsReceivers};

use crate::accepting::{Receivers, receives_with};
use crate::book::{Book, Next};
use crate::fault::BookFault;
use frame_shield::{Binding, ShieldFault};
use key_book::KeyRow;
use sa_book::SaRow;
use sdls_base::{Change, Entry, KeyId, Seen};
use sdls_outside::Site;
use unit_plan::Plan;
use unit_state::State;

/// The association that receives with a key.
fn receiver(state: &State, key: KeyId) -> Option<&SaRow>
    ensures { option_map (λ row. row.now) result ≡ receiver_with state.now.associations key }
{
    state
        .associations
        .rows()
        .iter()
        .find(|row| receives_with(row, key))
}

/// The floor that a release of the key leaves.
fn released_floor(state: &State, receivers: &Receivers, held: &KeyRow) -> u64
    requires { TellsReceivers state.now.associations receivers.now.places }
    ensures { result ≡ released_floor state.now held.now }
{
    if !receivers.may_have(held.id) {
        return held.floor;
    }
    match receiver(state, held.id) {
        Some(row) => row.window.high,
        None => held.floor,
    }
}

/// The entry that releases a key whose word `next` stands so, or `None` where nothing would move.
fn release_entry(state: &State, receivers: &Receivers, word: u64, held: &KeyRow) -> Option<Entry>
    requires { TellsReceivers state.now.associations receivers.now.places }
    ensures { result ≡ release_of state.now word held.now }
{
    let mark = held.mark.min(word);
    let floor = released_floor(state, receivers, held);
    if mark == held.mark && floor == held.floor {
        return None;
    }
    Some(Entry {
        index: None,
        seen: Seen::Word(word),
        change: Change::Marks {
            key: held.id,
            mark,
            floor,
        },
    })
}

/// The entry that releases the key at a place, or `None` where nothing would move.
fn release_entry_at(state: &State, receivers: &Receivers, place: usize, word: u64) -> Option<Entry>
    requires there { place < length state.now.keys }
    requires receivers { TellsReceivers state.now.associations receivers.now.places }
    ensures { result ≡ release_at state.now place word }
{
    release_entry(state, receivers, word, &state.keys.rows()[place])
}

impl<O: Site> Book<O> {
    /// Releases the key at a place.
    fn release_at(
        &mut self,
        receivers: &Receivers,
        place: usize,
        word: u64,
    ) -> Result<(), BookFault>
        requires kept { IsKept O.told self.old }
        requires there { place < length self.old.state.keys }
        requires some { 1 ≤ word }
        requires receivers { TellsReceivers self.old.state.associations receivers.now.places }
        ensures kept { IsKept O.told self.new }
        ensures made { MatchOption (release_at self.old.state place word) ((result ≡ Ok tt) × (self.new ≡ self.old))
            (λ entry. MatchResult result (λ _. (position : ℕ) × Made entry self.old self.new position)
            (Refuses entry self.old self.new)) }
        ensures keys { length self.new.state.keys ≡ length self.old.state.keys }
        ensures goes_on { LeavesBook self.old self.new }
        ensures risen { IfErr result (TellsRise self.new) }
        ensures puts { self.new.site.put_faults ≡ self.old.site.put_faults }
        ensures later { self.old.site.faults ≤ self.new.site.faults }
    {
        let Some(entry) = release_entry_at(&self.state, receivers, place, word) else {
            return Ok(());
        };
        self.may_enter()?;
        match self.commit(entry, Next::Here) {
            Ok(_) => Ok(()),
            Err(fault) => Err(fault),
        }
    }

    /// Releases what the run did not use: goes through the keys in loading order, and where the key's word `next`, or
    /// the highest number of the association that receives with it, lies below its mark or its floor, stores the lesser
    /// numbers. Stops at the first refusal. Takes no memory.
    ///
    /// `next` has a word for each key row; further words are not looked at.
    pub fn release(&mut self, next: &[u64]) -> Result<(), BookFault>
        requires kept { IsKept O.told self.old }
        requires words { length self.old.state.keys ≤ length next.now }
        requires some { (place : ℕ) → place < length self.old.state.keys → 1 ≤ slice_index next.now place }
        ensures kept { IsKept O.told self.new }
        ensures released { Releases next.now self.old self.new result }
        ensures goes_on { LeavesBook self.old self.new }
        ensures risen { IfErr result (TellsRise self.new) }
        ensures puts { self.new.site.put_faults ≡ self.old.site.put_faults }
        ensures later { self.old.site.faults ≤ self.new.site.faults }
    {
        let receivers = Receivers::of(self.state.associations.rows());
        for place in 0..self.state.keys.rows().len() {
            match self.release_at(&receivers, place, next[place]) {
                Ok(()) => {}
                Err(fault) => return Err(fault),
            }
        }
        Ok(())
    }
}

impl<O: Site> Book<O> {
    /// The plan that the image's text says.
    pub fn plan(&self) -> &Plan
        ensures { result.now ≡ self.entry.now.plan }
    {
        &self.plan
    }

    /// The state: that at the opening after the entries, a failed last one left out.
    pub fn state(&self) -> &State
        ensures { result.now ≡ self.entry.now.state }
    {
        &self.state
    }

    /// The count of the site's faults.
    pub fn faults(&self) -> u64
        ensures { result ≡ self.entry.now.site.faults }
    {
        self.site.faults()
    }

    /// How many slots of the journal are used.
    pub fn used(&self) -> u32
        ensures { result ≡ self.entry.now.journal.used }
    {
        self.journal.used()
    }

    /// How many keys there are, in loading order.
    pub fn rows(&self) -> usize
        ensures { result ≡ length self.entry.now.state.keys }
    {
        self.state.keys.rows().len()
    }

    /// The place of a key; `None` exactly where the book lacks it.
    pub fn row_of(&self, key: KeyId) -> Option<usize>
        ensures { result ≡ place_of self.entry.now.state.keys key }
    {
        self.state.keys.find(key).map(|found| found.0)
    }

    /// The mark of the key at a place.
    pub fn mark_at(&self, row: usize) -> u64
        requires { row < length self.now.state.keys }
        ensures { (other : KeyRow) → result ≡ (slice_index_or self.entry.now.state.keys row other).mark }
    {
        self.state.keys.rows()[row].mark
    }

    /// Makes the first checks of a frame in clear that is to be protected, in their order, and answers what it is to be
    /// protected under. `None` is a frame that is sent as it stands. Takes no memory.
    pub fn binding(&self, link: u8, clear: &[u8]) -> Result<Option<Binding>, ShieldFault>
        requires { IsKept O.told self.now }
        ensures checked { result ≡ protect_check self.entry.now.plan self.entry.now.state link clear.now }
        ensures binding { IfOk result (λ found. IfSome found IsBinding) }
    {
        match frame_checks::binding(&self.plan, &self.state, link, clear)? {
            Some(found) => Ok(Some(found.binding)),
            None => Ok(None),
        }
    }
}
