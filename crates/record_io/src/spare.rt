// Lists of octets that are filled again.
ghost use Rattle.std.specs.Prelude.{◌≡◌, ◌≤◌, ◌+◌, ◌-◌, [], IfOk, vec_capacity, vec_len};

use crate::answers::Answer;
use crate::item_cursor::Record;
use crate::reader::SEGMENT_RECORDS;
use std::alloc::{AllocError, Global};
use std::marker::Model;

/// Lists whose octets nobody needs any more, at most as many as a segment has records. They are filled again, so that
/// not each record and each answer takes memory. A contract sees how many there are.
#[derive(Drop)]
pub struct Spare {
    lists: Vec<Vec<u8>>,
}

impl Model for Spare {
    ghost use Rattle.std.specs.Prelude.{ℕ, ◌≤◌, vec_len};
    ghost use Rattle.record_io.specs.declared.reader.TheConstants.{SEGMENT_RECORDS};

    ghost Value = { ℕ };

    ghost view = { λ spare. vec_len spare.lists };

    ghost invariant = { λ spare. vec_len spare.lists ≤ SEGMENT_RECORDS };
}

impl Spare {
    /// None yet.
    pub fn new(alloc: Global) -> Spare
        ensures { result ≡ 0 }
    {
        Spare {
            lists: Vec::new(alloc),
        }
    }

    /// An empty list, with room for so many octets.
    pub fn take_empty(&mut self, alloc: Global, room: usize) -> Result<Vec<u8>, AllocError>
        ensures empty { IfOk result (λ list. list.items ≡ []) }
        ensures room { IfOk result (λ list. room ≤ vec_capacity list) }
        ensures fewer { self.new ≡ self.old - 1 }
    {
        let Some(mut list) = self.lists.pop() else {
            return Vec::with_capacity(alloc, room);
        };
        list.clear();
        list.reserve(room)?;
        Ok(list)
    }

    /// A list of so many octets, whichever they are.
    pub fn take_long(&mut self, alloc: Global, len: usize) -> Result<Vec<u8>, AllocError>
        ensures long { IfOk result (λ list. vec_len list ≡ len) }
        ensures fewer { self.new ≡ self.old - 1 }
    {
        let Some(mut list) = self.lists.pop() else {
            return vec![in alloc; 0; len];
        };
        list.resize(len, 0)?;
        Ok(list)
    }

    /// Keeps a list, unless there are enough, or memory for its place runs out.
    fn keep(&mut self, list: Vec<u8>)
        ensures none_lost { self.old ≤ self.new }
        ensures one_more { self.new ≤ self.old + 1 }
    {
        if self.lists.len() < SEGMENT_RECORDS {
            let _kept = self.lists.push(list);
        }
    }

    /// Keeps the lists of records that are done with.
    pub fn keep_records(&mut self, mut records: Vec<Record>)
        ensures none_lost { self.old ≤ self.new }
        ensures more { self.new ≤ self.old + vec_len records }
    {
        'records: while let Some(record) = records.pop() {
            self.keep(record.octets.into_vec());
        }
    }

    /// Keeps the lists of answers that are done with.
    pub fn keep_answers(&mut self, mut answers: Vec<Answer>)
        ensures none_lost { self.old ≤ self.new }
        ensures more { self.new ≤ self.old + vec_len answers }
    {
        'answers: while let Some(answer) = answers.pop() {
            self.keep(answer.body.into_vec());
        }
    }

    /// Parts with so many of the lists, or with all. If memory runs out it parts with none.
    pub fn share(&mut self, alloc: Global, most: usize) -> Spare
        ensures few { result ≤ most }
        ensures parted { result + self.new ≡ self.old }
    {
        let left = self.lists.len() - self.lists.len().min(most);
        match self.lists.split_off(left) {
            Ok(lists) => Spare { lists },
            Err(AllocError) => Spare::new(alloc),
        }
    }

    /// Takes back what is left of a share, if there are not enough then, and memory suffices.
    pub fn rejoin(&mut self, mut other: Spare)
        ensures none_lost { self.old ≤ self.new }
        ensures more { self.new ≤ self.old + other }
    {
        if self.lists.len() + other.lists.len() <= SEGMENT_RECORDS {
            let _moved = self.lists.append(&mut other.lists);
        }
    }
}
