// A disk and a sink in memory, with all that they have held, and what undoes a write.
ghost use Rattle.std.specs.Prelude.{◌≡◌, ◌≤◌, length, OnErr, IfOk, OnOk};
ghost use Rattle.sdls_outside.specs.Crash.{LeftBy, fresh};
ghost use Rattle.sdls_outside.specs.Disk.{Leaves};
ghost use Rattle.sdls_outside.specs.Site.{Writes, Syncs, Puts, overwritten};
ghost use Rattle.sdls_outside.specs.Undo.{CanPlayBack, CanUndo, played_back, range_of, undone};

use crate::Crash;
use crate::mem_site::Held;
use std::alloc::{AllocError, Global};
use std::collections::VecDeque;
use std::snapshot::Snapshot;

// What is held, and what was held before each call that changed something.
#[derive(Drop)]
pub struct History {
    alloc: Global,
    held: Held,
    past: Vec<Snapshot<Held>>,
}

impl History {
    ghost use Rattle.sdls_outside.specs.History.{trace_of};

    // The history of a disk that holds this image, all of it synced, before any call.
    pub fn new(alloc: Global, image: Vec<u8>) -> Self
        ensures { trace_of result ≡ fresh image.items }
    {
        History {
            alloc,
            held: Held::new(alloc, image),
            past: Vec::new(alloc),
        }
    }

    pub fn alloc(&self) -> Global {
        self.alloc
    }

    pub fn image(&self) -> &[u8]
        ensures { result.now ≡ (trace_of self.now).now.image }
    {
        &self.held.image
    }

    pub fn sunk(&self) -> &[u8]
        ensures { result.now ≡ (trace_of self.now).now.sunk }
    {
        &self.held.sunk
    }

    // Writes octets over the image and past its end.
    pub fn write(&mut self, at: u64, octets: &[u8]) -> Result<(), AllocError>
        requires { at ≤ length (trace_of self.old).now.image }
        ensures written { Writes at octets.now result (trace_of self.old) (trace_of self.new) }
        ensures same { OnErr result (trace_of self.new ≡ trace_of self.old) }
    {
        self.past.reserve(1)?;
        let before = Snapshot::of(&self.held);
        self.held.write(self.alloc, at, octets)?;
        self.past.push_reserved(before);
        Ok(())
    }

    // Makes the image as it reads what a crash leaves.
    pub fn sync(&mut self) -> Result<(), AllocError>
        ensures { Syncs result (trace_of self.old) (trace_of self.new) }
    {
        self.past.reserve(1)?;
        let before = Snapshot::of(&self.held);
        self.held.sync();
        self.past.push_reserved(before);
        Ok(())
    }

    // What a crash of this kind leaves, with nothing sunk.
    pub fn crashed(self, how: Crash) -> Self
        ensures leaves { Leaves (trace_of self).now (trace_of result).now.image }
        ensures kind { LeftBy how (trace_of self).now (trace_of result).now.image }
        ensures begins { trace_of result ≡ fresh (trace_of result).now.image }
    {
        let History {
            alloc,
            held,
            past: _,
        } = self;
        History::new(alloc, held.crashed(how))
    }

    // Appends to the sink.
    pub fn put(&mut self, octets: &[u8]) -> Result<(), AllocError>
        ensures put { Puts octets.now result (trace_of self.old) (trace_of self.new) }
        ensures same { OnErr result (trace_of self.new ≡ trace_of self.old) }
    {
        self.past.reserve(1)?;
        let before = Snapshot::of(&self.held);
        self.held.sunk.extend_from_slice(octets)?;
        self.past.push_reserved(before);
        Ok(())
    }
}

// Where a write began, how many octets it has, and what it wrote over: fewer octets where it went past the image's end.
#[derive(Drop)]
pub struct Undo {
    pub at: u64,
    pub count: u64,
    pub before: Vec<u8>,
}

impl Undo {
    // What will undo a write of these octets to this image.
    pub fn of(alloc: Global, image: &[u8], at: u64, octets: &[u8]) -> Result<Self, AllocError>
        requires { at ≤ length image.now }
        ensures range { IfOk result (λ undo. range_of undo ≡ (at, length octets.now)) }
        ensures undone { IfOk result (λ undo. undone undo (overwritten image.now at octets.now) ≡ image.now) }
        ensures can { IfOk result (λ undo. CanUndo undo (overwritten image.now at octets.now)) }
    {
        let behind = &image[at as usize..];
        let over = &behind[..octets.len().min(behind.len())];
        Ok(Undo {
            at,
            count: octets.len() as u64,
            before: Vec::from_slice(alloc, over)?,
        })
    }

    // The range that was written.
    pub fn range(&self) -> (u64, u64)
        ensures { result ≡ range_of self.now }
    {
        (self.at, self.count)
    }

    // Makes the image what it was before the write.
    fn restore(&self, image: &mut Vec<u8>)
        requires { CanUndo self.now image.old.items }
        ensures { image.new.items ≡ undone self.now image.old.items }
    {
        let start = self.at as usize;
        let end = start + self.before.len();
        image[start..end].copy_from_slice(&self.before);
        if (self.before.len() as u64) < self.count {
            image.truncate(end);
        }
    }
}

// Makes the image what it was before all these writes, the newest first.
pub fn play_back(image: &mut Vec<u8>, mut undos: VecDeque<Undo>)
    requires { CanPlayBack undos.items image.old.items }
    ensures { image.new.items ≡ played_back undos.items image.old.items }
{
    while let Some(undo) = undos.pop_front() {
        undo.restore(image);
    }
}
