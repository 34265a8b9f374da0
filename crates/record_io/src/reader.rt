//! The recorded input, read in segments, and the kinds of its items.
ghost use Rattle.std.specs.Prelude.{ℕ, List, ◌≡◌, ◌≢◌, ◌+◌, ◌-◌, ◌*◌, ◌≤◌, ◌<◌, ◌++◌, [], length, take, IsTrue, IfOk};
ghost use Rattle.std.specs.Prelude.{OnErr, IfErr, IfNone, IfSome, MatchResult, vec_len, MatchOption, true, false};
ghost use Rattle.std.specs.List.{All};
ghost use Rattle.sdls_outside.specs.Faults.{HasCause};
ghost use Rattle.record_io.specs.declared.reader.RecordKind.TheVariants.{Monitor};
ghost use Rattle.record_io.specs.Input.{Item, MOST_OCTETS, kind_octet, lanes_of, least_octets, most_octets};
ghost use Rattle.record_io.specs.Reading.{SourceSeen, Standing, first_standing, IsReading, ReadsTo, Loses};
ghost use Rattle.record_io.specs.Reading.{source_seen, GoesOn, HasFaultCause};
ghost use Rattle.record_io.specs.Steps.{still_counted, TakesTooFew, Moves, ReadsItem, Wants, IsFaultRead};
ghost use Rattle.record_io.specs.Steps.{CountsRecords, Segment, due_beginning, EndsBefore};
ghost use Rattle.record_io.specs.Heads.{IsHead, IsNoHead};

use crate::item_cursor::{Record, SegmentEnd};
use crate::short_octets::ShortOctets;
use crate::spare::Spare;
use sdls_base::NoMemory;
use sdls_outside::{Failed, Source, collect};
use std::alloc::Global;
use std::marker::Model;

/// The octets that the input begins with.
const BEGINNING: [u8; 8] = *b"SDLSREC1";

/// The most records of a segment.
pub const SEGMENT_RECORDS: usize = 1024;

/// What was read next.
#[derive(Drop)]
pub(crate) enum Read {
    Next {
        kind: RecordKind,
        lane: u8,
        link: u8,
        octets: ShortOctets,
    },
    Ends(SegmentEnd),
}

/// Reads the recorded input from a source, a segment a call. It counts the octets that it takes, up to 2^64 - 1, where
/// the input counts as ended.
#[derive(Drop)]
pub struct Reader {
    taken: u64,
    records: u64,
    spare: Spare,
}

impl Model for Reader {
    ghost use Rattle.std.specs.Prelude.{◌*◌, ◌≤◌};
    ghost use Rattle.record_io.specs.Input.{MOST_OCTETS};
    ghost use Rattle.record_io.specs.Reading.{Standing};

    ghost Value = { Standing };

    ghost view = { λ r. record { taken = r.taken; records = r.records } };

    ghost invariant = { λ r. (6 * r.records ≤ r.taken) × (r.taken ≤ MOST_OCTETS) };
}

impl Reader {
    /// A reader before the first octet.
    pub fn new(alloc: Global) -> Reader
        ensures { result ≡ first_standing }
    {
        Reader {
            taken: 0,
            records: 0,
            spare: Spare::new(alloc),
        }
    }

    /// How many octets were taken.
    pub fn taken(&self) -> u64
        ensures { result ≡ self.now.taken }
    {
        self.taken
    }

    /// Takes back records that are done with: their lists are filled again.
    pub fn take_back(&mut self, records: Vec<Record>)
        ensures { self.new ≡ self.old }
    {
        self.spare.keep_records(records);
    }

    /// Takes octets until the room is full or the input ends, and answers how many.
    fn take<S: Source>(&mut self, source: &mut S, room: &mut [u8]) -> Result<usize, Failed>
        ensures within { IfOk result (λ count. count ≤ length room.old) }
        ensures counted { IfOk result (λ count. self.new
            ≡ record { taken = self.old.taken + count; records = self.old.records }) }
        ensures moved { IsTrue S.told
            → IfOk result (λ count. S.left source.old ≡ take count room.new ++ S.left source.new) }
        ensures ended { IsTrue S.told → IfOk result (λ count.
            count < length room.old → still_counted self.new.taken (S.left source.new) ≡ []) }

        ensures few { IfOk result (λ _. self.new.taken ≤ MOST_OCTETS) }
        ensures uncounted { OnErr result (self.new ≡ self.old) }
        ensures short { OnErr result (TakesTooFew S.told (length room.old) self.old.taken (S.left source.old)
            (S.left source.new)) }
        ensures cause { HasCause (S.faults source.old) (S.faults source.new) result }
    {
        let most = room.len().min((u64::MAX - self.taken) as usize);
        let count = collect(source, &mut room[..most])?;
        self.taken += count as u64;
        Ok(count)
    }

    /// Takes so many octets, or as many as are left.
    fn take_octets<S: Source>(
        &mut self,
        alloc: Global,
        source: &mut S,
        len: u16,
    ) -> Result<Result<Vec<u8>, Failed>, NoMemory>
        ensures within { IfOk result (λ taken. IfOk taken (λ octets. vec_len octets ≤ len)) }
        ensures counted { IfOk result (λ taken. IfOk taken (λ octets. self.new
            ≡ record { taken = self.old.taken + vec_len octets; records = self.old.records })) }
        ensures moved { IsTrue S.told → IfOk result (λ taken. IfOk taken (λ octets.
            S.left source.old ≡ octets.items ++ S.left source.new)) }
        ensures ended { IsTrue S.told → IfOk result (λ taken. IfOk taken (λ octets.
            vec_len octets < len → still_counted self.new.taken (S.left source.new) ≡ [])) }

        ensures few { IfOk result (λ taken. IfOk taken (λ _. self.new.taken ≤ MOST_OCTETS)) }
        ensures uncounted { IfOk result (λ taken. OnErr taken (self.new ≡ self.old)) }
        ensures short { IfOk result (λ taken. OnErr taken (
            TakesTooFew S.told len self.old.taken (S.left source.old) (S.left source.new))) }
        ensures untaken { OnErr result ((self.new ≡ self.old) × (S.left source.new ≡ S.left source.old)) }
        ensures later { S.faults source.old ≤ S.faults source.new }
        ensures cause { IfOk result (HasCause (S.faults source.old) (S.faults source.new)) }
    {
        let mut octets = self.spare.take_long(alloc, usize::from(len))?;
        match self.take(source, octets.as_mut_slice()) {
            Ok(count) => {
                octets.truncate(count);
                Ok(Ok(octets))
            }
            Err(Failed) => Ok(Err(Failed)),
        }
    }

    /// Reads on behind the first six octets of an item.
    fn read_behind<S: Source>(
        &mut self,
        alloc: Global,
        source: &mut S,
        header: [u8; ITEM_HEADER],
    ) -> Result<Read, NoMemory>
        requires { 6 ≤ self.old.taken }
        ensures read { IfOk result (ReadsItem S.told (self.old.taken - 6) self.new.taken
            (header ++ S.left source.old) (S.left source.new)) }
        ensures wants { OnErr result (Wants S.told (self.old.taken - 6) (header ++ S.left source.old)
            (S.left source.new)) }
        ensures taken { IfOk result (λ _. self.old.taken ≤ self.new.taken) }
        ensures same_records { IfOk result (λ _. self.new.records ≡ self.old.records) }
        ensures later { S.faults source.old ≤ S.faults source.new }
        ensures cause { IfOk result (IsFaultRead (S.faults source.old) (S.faults source.new)) }
    {
        let offset = self.taken - ITEM_HEADER as u64;
        match item_head(header) {
            None => Ok(Read::Ends(SegmentEnd::Malformed(offset))),
            Some(
                ItemHead {
                    kind: ItemKind::Fence,
                    ..
                },
            ) => Ok(Read::Ends(SegmentEnd::More)),
            Some(
                ItemHead {
                    kind: ItemKind::Recorded(kind),
                    lane,
                    link,
                    len,
                },
            ) => match self.take_octets(alloc, source, len)? {
                Err(Failed) => Ok(Read::Ends(SegmentEnd::SourceFault(source.faults()))),
                Ok(octets) if octets.len() < usize::from(len) => {
                    Ok(Read::Ends(SegmentEnd::Malformed(offset)))
                }
                Ok(octets) => Ok(Read::Next {
                    kind,
                    lane,
                    link,
                    octets: ShortOctets::new(octets),
                }),
            },
        }
    }

    /// Reads the next item: a record, or what ends the segment.
    fn read_item<S: Source>(&mut self, alloc: Global, source: &mut S) -> Result<Read, NoMemory>
        ensures read { IfOk result (ReadsItem S.told self.old.taken self.new.taken (S.left source.old)
            (S.left source.new)) }
        ensures wants { OnErr result (Wants S.told self.old.taken (S.left source.old) (S.left source.new)) }
        ensures counted { IfOk result (λ read. CountsRecords self.old self.new read) }
        ensures later { S.faults source.old ≤ S.faults source.new }
        ensures cause { IfOk result (IsFaultRead (S.faults source.old) (S.faults source.new)) }
    {
        let offset = self.taken;
        let mut header = [0; ITEM_HEADER];
        match self.take(source, &mut header) {
            Err(Failed) => Ok(Read::Ends(SegmentEnd::SourceFault(source.faults()))),
            Ok(0) => Ok(Read::Ends(SegmentEnd::End)),
            Ok(ITEM_HEADER) => self.read_behind(alloc, source, header),
            Ok(_) => Ok(Read::Ends(SegmentEnd::Malformed(offset))),
        }
    }

    /// Numbers one more record.
    fn number(&mut self) -> u64
        requires { 6 * (self.old.records + 1) ≤ self.old.taken }
        ensures number { result ≡ self.old.records }
        ensures counted { self.new ≡ record self.old { records = self.old.records + 1 } }
    {
        let number = self.records;
        self.records += 1;
        number
    }

    /// Reads items up to the end of a segment, and a Monitor record that ends it.
    fn read_items<S: Source>(
        &mut self,
        alloc: Global,
        source: &mut S,
    ) -> Result<(Vec<Record>, SegmentEnd), NoMemory>
        requires { self.old.taken ≤ MOST_OCTETS }
        ensures segment { IfOk result (λ read. Segment S.told self.old self.new
            (S.left source.old) (S.left source.new) read.0.items read.1) }
        ensures wants { OnErr result (Wants S.told self.old.taken (S.left source.old) (S.left source.new)) }
        ensures later { S.faults source.old ≤ S.faults source.new }
        ensures cause { IfOk result (λ read. HasFaultCause (S.faults source.old) (S.faults source.new) read.1) }
    {
        let mut records = Vec::new(alloc);
        'items: while records.len() < SEGMENT_RECORDS {
            match self.read_item(alloc, source)? {
                Read::Next {
                    kind,
                    lane,
                    link,
                    octets,
                } => {
                    let record = Record {
                        index: self.number(),
                        kind,
                        lane,
                        link,
                        octets,
                    };
                    if is_monitor(kind) {
                        return Ok((records, SegmentEnd::Monitor(record)));
                    }
                    records.push(record)?;
                }
                Read::Ends(end) => return Ok((records, end)),
            }
        }
        Ok((records, SegmentEnd::More))
    }

    /// Reads the beginning where it is due, or says how the segment ends where there is none.
    fn begin<S: Source>(&mut self, source: &mut S) -> Option<SegmentEnd>
        ensures begun { IfNone result (Moves S.told (due_beginning self.old.taken) self.old.taken self.new.taken
            (S.left source.old) (S.left source.new)) }
        ensures few { self.new.taken ≤ MOST_OCTETS }
        ensures refused { IfSome result (EndsBefore S.told self.old.taken (S.left source.old) (S.left source.new)) }
        ensures same_records { self.new.records ≡ self.old.records }
        ensures later { S.faults source.old ≤ S.faults source.new }
        ensures cause { IfSome result (HasFaultCause (S.faults source.old) (S.faults source.new)) }
        ensures stood { IfNone result (S.faults source.new ≡ S.faults source.old) }
    {
        if self.taken > 0 {
            return None;
        }
        let mut octets = [0; 8];
        let Ok(count) = self.take(source, &mut octets) else {
            return Some(SegmentEnd::SourceFault(source.faults()));
        };
        if count < octets.len() {
            return Some(SegmentEnd::Malformed(0));
        }
        if octets != BEGINNING {
            return Some(SegmentEnd::Malformed(0));
        }
        None
    }

    /// Reads the next segment: its records in their order, numbered on, and how it ends. Octets behind it are not
    /// taken.
    ///
    /// The first segment stands behind the beginning. Each earlier call on this reader is to have answered `More` or
    /// `Monitor`: then the clauses `reads` and `loses` speak of the whole input, from where the reader began.
    pub fn next_segment<S: Source>(
        &mut self,
        alloc: Global,
        source: &mut S,
    ) -> Result<(Vec<Record>, SegmentEnd), NoMemory>
        ensures reads { let before : SourceSeen = source_seen S.told S.left S.faults source.old in
            let now : SourceSeen = source_seen S.told S.left S.faults source.new in
            IfOk result (λ segment. (start : SourceSeen) (items : List Item) (read : List ℕ)
            → IsReading start before self.old items read
            → ReadsTo start now self.new items segment.0.items segment.1) }
        ensures loses { let before : SourceSeen = source_seen S.told S.left S.faults source.old in
            let now : SourceSeen = source_seen S.told S.left S.faults source.new in
            OnErr result ((start : SourceSeen) (items : List Item) (read : List ℕ)
            → IsReading start before self.old items read
            → Loses start now items) }
        ensures plain { IfOk result (λ segment. All (λ (task : Record). task.kind ≢ Monitor) segment.0.items) }
        ensures forth { IfOk result (λ segment. GoesOn segment.1 → self.old.taken < self.new.taken) }
        ensures later { S.faults source.old ≤ S.faults source.new }
        ensures cause { IfOk result (λ segment. HasFaultCause (S.faults source.old) (S.faults source.new) segment.1) }
    {
        match self.begin(source) {
            Some(end) => Ok((Vec::new(alloc), end)),
            None => self.read_items(alloc, source),
        }
    }
}

/// The octets before those of an item.
pub const ITEM_HEADER: usize = 6;

/// What the first six octets of an item say.
#[derive(Clone, Copy, Debug)]
pub struct ItemHead {
    pub kind: ItemKind,
    pub lane: u8,
    pub link: u8,
    /// The octets of the item.
    pub len: u16,
}

/// What the first six octets of an item say, or `None` if they are no item's.
pub fn item_head(header: [u8; ITEM_HEADER]) -> Option<ItemHead>
    ensures { MatchOption result (IsNoHead header) (IsHead header) }
{
    let [kind, lane, link, zero, high, low] = header;
    let len = u16::from_be_bytes([high, low]);
    let kind = kind_of(kind)?;
    let laned = u16::from(lane) < lanes_of(kind);
    let long = least_octets_of(kind) <= len && len <= most_octets_of(kind);
    if zero == 0 && laned && long {
        Some(ItemHead {
            kind,
            lane,
            link,
            len,
        })
    } else {
        None
    }
}

/// What is to be done with the octets of a record.
#[derive(Clone, Copy, Debug, PartialEq, Eq)]
pub enum RecordKind {
    /// They are a frame in clear, to be protected.
    Protect,
    /// They are a protected frame, to be opened.
    Open,
    /// They are a procedure message, to be carried out.
    Command,
    /// They are a monitoring message, to be answered. The record ends a segment, and stands in one of its own.
    Monitor,
}

/// What an item of the input is.
#[derive(Clone, Copy, Debug, PartialEq, Eq)]
pub enum ItemKind {
    /// The end of a segment, without octets and without an answer.
    Fence,
    /// A record, which is answered.
    Recorded(RecordKind),
}

/// The lanes of the input, numbered from 0.
pub const LANES: u8 = 16;

/// The most octets of a record.
pub const MOST_RECORD_OCTETS: u16 = 2048;

/// The fewest octets of a Monitor record.
pub const LEAST_MONITOR_OCTETS: u16 = 3;

/// The kind that an octet says.
pub(crate) fn kind_of(octet: u8) -> Option<ItemKind>
    ensures { MatchOption result ((kind : ItemKind) → kind_octet kind ≢ octet) (λ kind. kind_octet kind ≡ octet) }
{
    match octet {
        0 => Some(ItemKind::Fence),
        1 => Some(ItemKind::Recorded(RecordKind::Protect)),
        2 => Some(ItemKind::Recorded(RecordKind::Open)),
        3 => Some(ItemKind::Recorded(RecordKind::Command)),
        4 => Some(ItemKind::Recorded(RecordKind::Monitor)),
        _ => None,
    }
}

/// If a record of this kind ends its segment.
pub(crate) fn is_monitor(kind: RecordKind) -> bool
    ensures monitor { result ≡ true → kind ≡ RecordKind.Monitor }
    ensures plain { result ≡ false → kind ≢ RecordKind.Monitor }
{
    matches!(kind, RecordKind::Monitor)
}

/// The most octets of an item of this kind.
pub(crate) fn most_octets_of(kind: ItemKind) -> u16
    ensures { result ≡ most_octets kind }
{
    match kind {
        ItemKind::Fence => 0,
        ItemKind::Recorded(_) => MOST_RECORD_OCTETS,
    }
}

/// The fewest octets of an item of this kind.
pub(crate) fn least_octets_of(kind: ItemKind) -> u16
    ensures { result ≡ least_octets kind }
{
    match kind {
        ItemKind::Recorded(RecordKind::Monitor) => LEAST_MONITOR_OCTETS,
        _ => 0,
    }
}

/// How many lanes an item of this kind may name; of a Monitor record the lane is not looked at.
pub(crate) fn lanes_of(kind: ItemKind) -> u16
    ensures { result ≡ lanes_of kind }
{
    match kind {
        ItemKind::Recorded(RecordKind::Monitor) => 256,
        _ => u16::from(LANES),
    }
}
