//! The items of recorded input, one after the other.
ghost use Rattle.std.specs.Prelude.{◌≤◌, ◌++◌, IsTrue, IfOk};
ghost use Rattle.sdls_outside.specs.Faults.{Rose};
ghost use Rattle.record_io.specs.Heads.{IsHead};
ghost use Rattle.record_io.specs.NextItem.{IfItemFault, StandsItem};

use crate::reader::{ITEM_HEADER, ItemHead, ItemKind, RecordKind, item_head};
use crate::short_octets::ShortOctets;
use sdls_base::NoMemory;
use sdls_outside::{Failed, Source, collect};
use std::alloc::Global;

/// An item that was taken.
#[derive(Debug, Drop)]
pub struct FoundItem {
    pub kind: ItemKind,
    pub lane: u8,
    pub link: u8,
    pub octets: ShortOctets,
}

/// What stands next in recorded input behind its beginning.
#[derive(Debug, Drop)]
pub enum NextItem {
    Item(FoundItem),
    /// Nothing.
    End,
    /// Octets that are no whole item.
    NoItem,
    SourceFault,
}

/// Takes the octets of an item behind its first six.
fn take_octets<S: Source>(
    alloc: Global,
    source: &mut S,
    header: [u8; ITEM_HEADER],
    head: ItemHead,
) -> Result<NextItem, NoMemory>
    requires { IsHead header head }
    ensures stands { IsTrue S.told → IfOk result (StandsItem (header ++ S.left source.old) (S.left source.new)) }
    ensures cause { IfOk result (IfItemFault (Rose (S.faults source.old) (S.faults source.new))) }
    ensures later { S.faults source.old ≤ S.faults source.new }
{
    let mut octets = vec![in alloc; 0; usize::from(head.len)]?;
    match collect(source, octets.as_mut_slice()) {
        Err(Failed) => Ok(NextItem::SourceFault),
        Ok(count) if count < octets.len() => Ok(NextItem::NoItem),
        Ok(_) => Ok(NextItem::Item(FoundItem {
            kind: head.kind,
            lane: head.lane,
            link: head.link,
            octets: ShortOctets::new(octets),
        })),
    }
}

/// Takes the next item of recorded input behind its beginning. Of octets that are none it takes at most as many as the
/// item would have.
pub fn next_item<S: Source>(alloc: Global, source: &mut S) -> Result<NextItem, NoMemory>
    ensures stands { IsTrue S.told → IfOk result (StandsItem (S.left source.old) (S.left source.new)) }
    ensures cause { IfOk result (IfItemFault (Rose (S.faults source.old) (S.faults source.new))) }
    ensures later { S.faults source.old ≤ S.faults source.new }
{
    let mut header = [0; ITEM_HEADER];
    match collect(source, &mut header) {
        Err(Failed) => Ok(NextItem::SourceFault),
        Ok(0) => Ok(NextItem::End),
        Ok(count) if count < ITEM_HEADER => Ok(NextItem::NoItem),
        Ok(_) => match item_head(header) {
            None => Ok(NextItem::NoItem),
            Some(head) => take_octets(alloc, source, header, head),
        },
    }
}

/// A record of the input, which is answered.
#[derive(Debug, Drop)]
pub struct Record {
    /// Its number among the records of the input, from 0; fences are not counted.
    pub index: u64,
    pub kind: RecordKind,
    /// The lane that handles it, below [`crate::LANES`]; of a Monitor record it is not looked at.
    pub lane: u8,
    /// The link that the frame belongs to; of a command and of a Monitor record it is not looked at.
    pub link: u8,
    /// A reader gives at most [`crate::MOST_RECORD_OCTETS`].
    pub octets: ShortOctets,
}

/// How a segment ends.
#[derive(Debug, Drop)]
pub enum SegmentEnd {
    /// After a fence, or after 1,024 records.
    More,
    /// After a Monitor record, which is this one; it is none of the segment's records.
    Monitor(Record),
    /// At the end of the input.
    End,
    /// Before an item that is malformed: the offset of its first octet, or 0 for another beginning.
    Malformed(u64),
    /// At a fault of the source: its count of faults.
    SourceFault(u64),
}
