// The opening of frames. A key is looked for only if an association receives with it.
ghost use Rattle.std.specs.Prelude.{◌≡◌, ℕ, ◌<◌, ◌≤◌, MatchResult, IfErr, IsSome, IsTrue, None};
ghost use Rattle.sdls_base.specs.KeyId.{end_of};
ghost use Rattle.sa_book.specs.SaRefusal.{receives_with, receiver_with};
ghost use Rattle.unit_state.specs.State.{KeepsRules, key_row};
ghost use Rattle.unit_state.specs.Allows.{Allows};
ghost use Rattle.unit_state.specs.Restart.{IsLight};
ghost use Rattle.unit_state.specs.Laws.{IsNoMarks};
ghost use Rattle.frame_checks.specs.Accepting.{field_in, LeavesOctets, MayBeAccepted, OnAccepted};
ghost use Rattle.frame_checks.specs.Trying.{IsOpener, IsTried};
ghost use Rattle.run_promise.specs.History.{raised_floor, frame_change, frame_entry};
ghost use Rattle.unit_book.specs.Marks.{KeepsMarks};
ghost use Rattle.unit_book.specs.Book.{CanEnter, IsKept, IsUnstored, Made};
ghost use Rattle.unit_book.specs.LeavesBook.{LeavesBook, IsCalm, TellsRise};
ghost use Rattle.unit_book.specs.Records.{OpensWithEntry, RefusesFrame};
ghost use Rattle.unit_book.specs.Receivers.{noted_at, is_noted, NotesRow, TellsReceivers};

use crate::book::{Book, Next};
use crate::fault::BookFault;
use frame_checks::{OpenReply, Opener, open_frame, open_tried};
use frame_shield::Opened;
use sa_book::SaRow;
use sdls_base::{Change, Direction, Entry, KeyId, Seen};
use sdls_outside::Site;

impl<O: Site> Book<O> {
    /// The floor of a key once a number was accepted.
    fn raised_floor(&self, key: KeyId, number: u64) -> u64
        requires there { IsSome (key_row self.now.state key) }
        requires below { number < end_of key }
        ensures floor { result ≡ raised_floor self.entry.now.plan self.entry.now.state key number }
        ensures accept { 1 ≤ self.entry.now.plan.accept }
    {
        let accept = self.plan.accept();
        let floor = self.state.keys.receive_floor(key).unwrap_or(0);
        if number <= floor {
            return floor;
        }
        (number + accept - 1).min(key.end() - 1)
    }

    /// What a frame changes, by the reply to it.
    fn frame_change(&self, reply: &OpenReply) -> Change
        requires rules { KeepsRules self.now.state }
        requires accepted { OnAccepted reply.now (MayBeAccepted self.now.state) }
        ensures change { result ≡ frame_change self.entry.now.plan self.entry.now.state reply.now }
        ensures allowed { Allows self.entry.now.state result }
        ensures light { IsLight result }
        ensures numbers { IsNoMarks result }
    {
        match reply {
            OpenReply::Accepted {
                spi,
                key,
                number,
                ..
            } => Change::Accepted {
                spi: *spi,
                key: *key,
                number: *number,
                floor: self.raised_floor(*key, *number),
            },
            _ => Change::Nothing,
        }
    }

    /// Makes the entry of a frame, and its change with it. Answers the reply and its position.
    fn enter_frame(&mut self, index: u64, reply: OpenReply) -> Result<(OpenReply, u64), BookFault>
        requires kept { IsKept O.told self.old }
        requires can { CanEnter self.old }
        requires accepted { OnAccepted reply (MayBeAccepted self.old.state) }
        ensures kept { IsKept O.told self.new }
        ensures made { MatchResult result
            (λ answer. (answer.0 ≡ reply)
            × Made (frame_entry self.old.plan self.old.state index reply) self.old self.new answer.1)
            (IsUnstored (frame_entry self.old.plan self.old.state index reply) self.old self.new) }
        ensures goes_on { LeavesBook self.old self.new }
        ensures marks { KeepsMarks self.old.state self.new.state }
        ensures risen { IfErr result (TellsRise self.new) }
        ensures puts { self.new.site.put_faults ≡ self.old.site.put_faults }
        ensures later { self.old.site.faults ≤ self.new.site.faults }
        ensures calm { IsCalm self.old self.new }
    {
        let entry = Entry {
            index: Some(index),
            seen: Seen::Nothing,
            change: self.frame_change(&reply),
        };
        match self.commit(entry, Next::Here) {
            Ok(position) => Ok((reply, position)),
            Err(fault) => Err(fault),
        }
    }

    /// Handles the record with this number, whose frame came on this link: makes the checks of opening in their order,
    /// and where none fails, accepts the number and opens the frame in place (CCSDS 355.0-B-2, ProcessSecurity).
    /// Answers the reply and its position. A floor that rises is stored before the answer. Takes no memory.
    ///
    /// After an answer that is not `Accepted` the frame's octets may be any.
    pub fn accept(
        &mut self,
        index: u64,
        link: u8,
        frame: &mut [u8],
    ) -> Result<(OpenReply, u64), BookFault>
        requires kept { IsKept O.told self.old }
        ensures kept { IsKept O.told self.new }
        ensures made { MatchResult result
            (λ answer. OpensWithEntry index link frame.old (field_in answer.0 frame.new) self.old self.new
            answer.0 answer.1
            × LeavesOctets answer.0 frame.old frame.new)
            (RefusesFrame index link frame.old self.old self.new) }
        ensures goes_on { LeavesBook self.old self.new }
        ensures marks { KeepsMarks self.old.state self.new.state }
        ensures risen { IfErr result (TellsRise self.new) }
        ensures puts { self.new.site.put_faults ≡ self.old.site.put_faults }
        ensures later { self.old.site.faults ≤ self.new.site.faults }
        ensures calm { IsCalm self.old self.new }
    {
        self.may_enter()?;
        let reply = open_frame(&self.plan, &self.state, link, frame);
        self.enter_frame(index, reply)
    }

    /// Handles the record with this number, whose frame was tried under an opener of the book's state
    /// ([`try_frame`](frame_checks::try_frame)): judges its number, and where that is fresh, accepts it. Answers and
    /// stores as [`accept`](Book::accept) does for the frame's octets as they came. Takes no memory.
    pub fn accept_tried(
        &mut self,
        index: u64,
        opener: &Opener,
        link: u8,
        octets: &[u8],
        frame: &[u8],
        opened: Opened,
    ) -> Result<(OpenReply, u64), BookFault>
        requires kept { IsKept O.told self.old }
        requires opener { IsOpener self.old.plan self.old.state opener.now }
        requires tried { IsTried self.old.plan opener.now link octets.now frame.now opened }
        ensures kept { IsKept O.told self.new }
        ensures made { MatchResult result
            (λ answer. OpensWithEntry index link octets.now (field_in answer.0 frame.now) self.old self.new
            answer.0 answer.1
            × LeavesOctets answer.0 octets.now frame.now)
            (RefusesFrame index link octets.now self.old self.new) }
        ensures goes_on { LeavesBook self.old self.new }
        ensures marks { KeepsMarks self.old.state self.new.state }
        ensures risen { IfErr result (TellsRise self.new) }
        ensures puts { self.new.site.put_faults ≡ self.old.site.put_faults }
        ensures later { self.old.site.faults ≤ self.new.site.faults }
        ensures calm { IsCalm self.old self.new }
    {
        self.may_enter()?;
        let reply = open_tried(&self.plan, &self.state, opener, link, octets, frame, opened);
        self.enter_frame(index, reply)
    }
}

/// How many places there are for keys; keys whose identifiers differ by a multiple of it share one.
pub const PLACES: usize = 4_096;

/// Whether an association receives with a key.
pub(crate) fn receives_with(row: &SaRow, key: KeyId) -> bool
    ensures { result ≡ receives_with key row.now }
{
    row.direction == Direction::Receive && row.key == Some(key)
}

/// The place of a key.
fn noted_at(key: KeyId) -> usize
    ensures is { result ≡ noted_at key }
    ensures within { result < PLACES }
{
    usize::from(key.get()) % PLACES
}

/// The places of the keys that associations receive with, each noted.
#[derive(Drop)]
pub(crate) struct Receivers {
    pub(crate) places: [bool; PLACES],
}

impl Receivers {
    /// Notes the place of the key that an association receives with, if it receives with one.
    fn note(&mut self, row: &SaRow)
        ensures { NotesRow row.now self.old.places self.new.places }
    {
        if let (Direction::Receive, Some(key)) = (row.direction, row.key) {
            self.places[noted_at(key)] = true;
        }
    }

    /// The places of the keys that these associations receive with. Takes no memory.
    pub(crate) fn of(associations: &[SaRow]) -> Receivers
        ensures { TellsReceivers associations.now result.places }
    {
        let mut receivers = Receivers {
            places: [false; PLACES],
        };
        for row in associations {
            receivers.note(row);
        }
        receivers
    }

    /// Whether an association may receive with a key. If not, none does.
    pub(crate) fn may_have(&self, key: KeyId) -> bool
        ensures { result ≡ is_noted key self.now.places }
    {
        self.places[noted_at(key)]
    }
}
