// A site in memory that a test can crash.
ghost use Rattle.std.specs.Prelude.{◌≡◌, ◌+◌, ◌≤◌, true, [], None, IfOk, OnOk, OnErr, IsErr, IsTrue, length, take};
ghost use Rattle.std.specs.Prelude.{drop, ℕ, ◌<◌, ◌∷◌, map, slice_index};
ghost use Rattle.std.specs.List.{list_any};
ghost use Rattle.sdls_outside.specs.Crash.{LeftBy, fresh, Inside, covers};
ghost use Rattle.sdls_outside.specs.Disk.{Leaves, Outside};
ghost use Rattle.sdls_outside.specs.Faults.{HasCause};
ghost use Rattle.sdls_outside.specs.Site.{Writes, Syncs, Puts, overwritten};
ghost use Rattle.sdls_outside.specs.Held.{disk_from};
ghost use Rattle.sdls_outside.specs.Undo.{CanPlayBack, CanPlayBack-prop, range_of};

use crate::calls::Calls;
use crate::history::{History, Undo, play_back};
use crate::site::{PutFaults, noted};
use crate::{Failed, Site};
use std::alloc::{AllocError, Global};
use std::collections::VecDeque;

/// A disk and a sink in memory, which fails at the calls listed. A call that fails changes nothing
/// that is told. A call for which memory runs out fails too.
#[derive(Drop)]
pub struct MemSite {
    history: History,
    calls: Calls,
    put_faults: PutFaults,
}

impl MemSite {
    ghost use Rattle.sdls_outside.specs.Calls.{counted, fails_next, planned};
    ghost use Rattle.sdls_outside.specs.MemSite.{site_trace, site_plan, site_faults, site_put_faults};

    /// A site that holds this image, all of it synced, and has nothing sunk. `failing` lists the
    /// calls that fail, counted from 0 over all methods but `faults`, and each call from
    /// `dead_from` on fails.
    pub fn new(alloc: Global, image: Vec<u8>, failing: Vec<u64>, dead_from: Option<u64>) -> Self
        ensures trace { site_trace result ≡ fresh image.items }
        ensures plan { site_plan result ≡ planned failing.items dead_from }
        ensures faults { site_faults result ≡ 0 }
        ensures puts { site_put_faults result ≡ 0 }
    {
        MemSite {
            history: History::new(alloc, image),
            calls: Calls::new(failing, dead_from),
            put_faults: PutFaults::Zero,
        }
    }

    /// The image as it reads.
    pub fn image(&self) -> &[u8]
        ensures { result.now ≡ (site_trace self.now).now.image }
    {
        self.history.image()
    }

    /// The octets sunk so far.
    pub fn sunk(&self) -> &[u8]
        ensures { result.now ≡ (site_trace self.now).now.sunk }
    {
        self.history.sunk()
    }

    /// The site after a crash of this kind: its image is one that the crash may leave, and is
    /// synced; nothing is sunk, no call fails, and the counts of faults are 0.
    pub fn crashed(self, how: Crash) -> Self
        ensures leaves { Leaves (site_trace self).now (site_trace result).now.image }
        ensures kind { LeftBy how (site_trace self).now (site_trace result).now.image }
        ensures begins { site_trace result ≡ fresh (site_trace result).now.image }
        ensures plan { site_plan result ≡ planned [] None }
        ensures faults { site_faults result ≡ 0 }
        ensures puts { site_put_faults result ≡ 0 }
    {
        let MemSite {
            history,
            calls: _,
            put_faults: _,
        } = self;
        let alloc = history.alloc();
        MemSite {
            history: history.crashed(how),
            calls: Calls::new(Vec::new(alloc), None),
            put_faults: PutFaults::Zero,
        }
    }

    // Appends to the sink, where the call is not to fail.
    fn try_put(&mut self, octets: &[u8]) -> Result<(), Failed>
        ensures fails { IsTrue (fails_next (site_plan self.old)) → IsErr result }
        ensures counts { site_plan self.new ≡ record (site_plan self.old) { made = counted (site_plan self.old).made } }
        ensures put { Puts octets.now result (site_trace self.old) (site_trace self.new) }
        ensures unsunk { OnErr result (site_trace self.new ≡ site_trace self.old) }
        ensures puts { site_put_faults self.new ≡ site_put_faults self.old }
        ensures cause { HasCause (site_faults self.old) (site_faults self.new) result }
    {
        self.calls.enter()?;
        let put = self.history.put(octets);
        self.calls.counted(put)
    }
}

impl Site for MemSite {
    ghost use Rattle.sdls_outside.specs.Site.{after_put};
    ghost use Rattle.sdls_outside.specs.Calls.{FailsWhenDue, counted, fails_next};
    ghost use Rattle.sdls_outside.specs.MemSite.{site_trace, site_plan, site_faults, site_put_faults};

    ghost told = { true };

    ghost trace = { λ site. site_trace site };

    ghost faults = { λ site. site_faults site };

    ghost put_faults = { λ site. site_put_faults site };

    ghost image_may_stay = { λ site _. site.history.held.stays };

    fn begin(&mut self) -> Result<u64, Failed>
        ensures enters { FailsWhenDue (site_plan self.old) (site_plan self.new) result }
        ensures image_length { IfOk result (λ n. n ≡ length (site_trace self.old).now.image) }
        ensures same { site_trace self.new ≡ site_trace self.old }
        ensures puts { site_put_faults self.new ≡ site_put_faults self.old }
        ensures cause { HasCause (site_faults self.old) (site_faults self.new) result }
    {
        self.calls.enter()?;
        Ok(self.history.image().len() as u64)
    }

    fn read_at(&mut self, at: u64, into: &mut [u8]) -> Result<(), Failed>
        requires { at + length into.old ≤ length (site_trace self.old).now.image }
        ensures enters { FailsWhenDue (site_plan self.old) (site_plan self.new) result }
        ensures read { OnOk result (into.new ≡ take (length into.old) (drop at (site_trace self.old).now.image)) }
        ensures unread { OnErr result (into.new ≡ into.old) }
        ensures same { site_trace self.new ≡ site_trace self.old }
        ensures puts { site_put_faults self.new ≡ site_put_faults self.old }
        ensures cause { HasCause (site_faults self.old) (site_faults self.new) result }
    {
        self.calls.enter()?;
        let start = at as usize;
        into.copy_from_slice(&self.history.image()[start..start + into.len()]);
        Ok(())
    }

    /// It fails at the calls listed, and if memory runs out.
    fn write_at(&mut self, at: u64, octets: &[u8]) -> Result<(), Failed>
        requires { at ≤ length (site_trace self.old).now.image }
        ensures fails { IsTrue (fails_next (site_plan self.old)) → IsErr result }
        ensures counts { site_plan self.new ≡ record (site_plan self.old) { made = counted (site_plan self.old).made } }
        ensures written { Writes at octets.now result (site_trace self.old) (site_trace self.new) }
        ensures unwritten { OnErr result (site_trace self.new ≡ site_trace self.old) }
        ensures puts { site_put_faults self.new ≡ site_put_faults self.old }
        ensures cause { HasCause (site_faults self.old) (site_faults self.new) result }
    {
        self.calls.enter()?;
        let written = self.history.write(at, octets);
        self.calls.counted(written)
    }

    /// It fails at the calls listed, and if memory runs out.
    fn sync(&mut self) -> Result<(), Failed>
        ensures fails { IsTrue (fails_next (site_plan self.old)) → IsErr result }
        ensures counts { site_plan self.new ≡ record (site_plan self.old) { made = counted (site_plan self.old).made } }
        ensures synced { Syncs result (site_trace self.old) (site_trace self.new) }
        ensures puts { site_put_faults self.new ≡ site_put_faults self.old }
        ensures cause { HasCause (site_faults self.old) (site_faults self.new) result }
    {
        self.calls.enter()?;
        let synced = self.history.sync();
        self.calls.counted(synced)
    }

    /// It fails at the calls listed, and if memory runs out.
    fn put(&mut self, octets: &[u8]) -> Result<(), Failed>
        ensures fails { IsTrue (fails_next (site_plan self.old)) → IsErr result }
        ensures counts { site_plan self.new ≡ record (site_plan self.old) { made = counted (site_plan self.old).made } }
        ensures put { Puts octets.now result (site_trace self.old) (site_trace self.new) }
        ensures unsunk { OnErr result (site_trace self.new ≡ site_trace self.old) }
        ensures puts { site_put_faults self.new ≡ after_put result (site_put_faults self.old) }
        ensures cause { HasCause (site_faults self.old) (site_faults self.new) result }
    {
        let put = self.try_put(octets);
        self.put_faults = noted(&self.put_faults, &put);
        put
    }

    fn faults(&self) -> u64 {
        self.calls.faults
    }
}

// The image and the sink. `undos` are what undoes the writes since the last sync, the newest first.
#[derive(Drop)]
pub struct Held {
    pub image: Vec<u8>,
    pub undos: VecDeque<Undo>,
    pub sunk: Vec<u8>,
    ghost stays: { Leaves (disk_from image.items undos.items sunk.items) image.items },
    ghost can_lose: { CanPlayBack undos.items image.items } by { CanPlayBack-prop undos.items image.items },
}

impl Held {
    ghost use Rattle.sdls_outside.specs.History.{disk_of};

    // A disk that holds this image, all of it synced, and an empty sink.
    pub fn new(alloc: Global, image: Vec<u8>) -> Self
        ensures { disk_of result ≡ record { image = image.items; synced = image.items; ranges = []; sunk = [] } }
    {
        Held {
            image,
            undos: VecDeque::new(alloc),
            sunk: Vec::new(alloc),
        }
    }

    // Writes octets over the image and past its end. At an error nothing has changed.
    pub fn write(&mut self, alloc: Global, at: u64, octets: &[u8]) -> Result<(), AllocError>
        requires { at ≤ length (disk_of self.old).image }
        ensures ok { OnOk result (disk_of self.new ≡ record (disk_of self.old) {
          image = overwritten (disk_of self.old).image at octets.now;
          ranges = (at, length octets.now) ∷ (disk_of self.old).ranges;
        }) }
        ensures err { OnErr result (disk_of self.new ≡ disk_of self.old) }
    {
        let undo = Undo::of(alloc, &self.image, at, octets)?;
        self.undos.push_front(undo)?;
        if let Err(no_memory) = overwrite(&mut self.image, at as usize, octets) {
            self.undos.pop_front();
            return Err(no_memory);
        }
        Ok(())
    }

    // Makes the image as it reads what a crash leaves.
    pub fn sync(&mut self)
        ensures { disk_of self.new ≡ record (disk_of self.old) {
          synced = (disk_of self.old).image;
          ranges = [];
        } }
    {
        self.undos.clear();
    }

    // The image that a crash of this kind leaves.
    pub fn crashed(self, how: Crash) -> Vec<u8>
        ensures leaves { Leaves (disk_of self) result.items }
        ensures kind { LeftBy how (disk_of self) result.items }
    {
        let Held {
            mut image,
            undos,
            sunk: _,
        } = self;
        match how {
            Crash::Kept => {}
            Crash::Lost => play_back(&mut image, undos),
            Crash::Filled(octet) => fill(&mut image, &undos, octet),
        }
        image
    }
}

// Writes the octets at this place, over what was there and past the end. At an error nothing has changed.
#[tactic(auto, using(crate::proofs::Octets::octet_lemmas))]
fn overwrite(image: &mut Vec<u8>, at: usize, octets: &[u8]) -> Result<(), AllocError>
    requires { at ≤ length image.old.items }
    ensures ok { OnOk result (image.new.items ≡ overwritten image.old.items at octets.now) }
    ensures err { OnErr result (image.new.items ≡ image.old.items) }
{
    let (over, behind) = octets.split_at(octets.len().min(image.len() - at));
    image.extend_from_slice(behind)?;
    image[at..at + over.len()].copy_from_slice(over);
    Ok(())
}

// Puts the octet everywhere in the ranges that were written.
fn fill(image: &mut [u8], undos: &VecDeque<Undo>, octet: u8)
    ensures inside { (i : ℕ) → i < length image.old → Inside (map range_of undos.now.items) i
        → slice_index image.new i ≡ octet }
    ensures outside { (i : ℕ) → Outside (map range_of undos.now.items) i
        → slice_index image.new i ≡ slice_index image.old i }
{
    for (i, here) in image.iter_mut().enumerate() {
        if is_inside(undos, i as u64) {
            *here = octet;
        }
    }
}

// Whether an octet lies in one of the ranges that were written.
fn is_inside(undos: &VecDeque<Undo>, i: u64) -> bool
    ensures { result ≡ list_any (covers i) (map range_of undos.now.items) }
{
    undos
        .iter()
        .map(Undo::range)
        .any(|range| range.0 <= i && i - range.0 < range.1)
}

// The kinds of crash that a test can ask for.

/// What a crash leaves of the ranges that were written since the last successful sync.
#[derive(Clone, Copy, Debug, PartialEq, Eq)]
pub enum Crash {
    /// What a read gives.
    Kept,
    /// What the last successful sync left, or the image that the site began with.
    Lost,
    /// This octet, everywhere in the ranges. The length is what a read gives.
    Filled(u8),
}
