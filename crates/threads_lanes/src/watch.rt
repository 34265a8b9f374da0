// The one gate and the one site that all runs of the tests have, so that the whole of a run is compiled once.
ghost use Rattle.std.specs.Prelude.{true};
ghost use Rattle.sdls_outside.specs.contracts.mem_site.MemSiteSite.TheImpl.Laws as mem_laws;

use crate::drills::Counting;
use crate::kept::Storing;
use crate::meeting::Meeting;
use crate::opens::Crowd;
use sdls_outside::{Failed, MemSite, Site};
use sdls_run::Gate;

/// How a run is watched: by nobody, or by the gate of a test.
#[derive(Drop)]
pub(crate) enum Watch<'a> {
    Open,
    Meeting(&'a Meeting),
    Crowd(&'a Crowd),
    Storing(&'a Storing),
    Counting(&'a Counting),
}

impl<'a> Watch<'a> {
    /// Called before each sync of the site.
    fn hold_sync(&self) {
        if let Watch::Storing(storing) = self {
            storing.hold_sync();
        }
    }
}

impl<'a> Gate for Watch<'a> {
    fn pass(&self, lane: u8, index: u64) {
        match self {
            Watch::Open => {}
            Watch::Meeting(gate) => gate.pass(lane, index),
            Watch::Crowd(gate) => gate.pass(lane, index),
            Watch::Storing(gate) => gate.pass(lane, index),
            Watch::Counting(gate) => gate.pass(lane, index),
        }
    }

    fn done(&self, lane: u8, index: u64) {
        match self {
            Watch::Open => {}
            Watch::Meeting(gate) => gate.done(lane, index),
            Watch::Crowd(gate) => gate.done(lane, index),
            Watch::Storing(gate) => gate.done(lane, index),
            Watch::Counting(gate) => gate.done(lane, index),
        }
    }
}

/// A site that passes each call on to one in memory, and shows its syncs to who watches the run.
#[derive(Drop)]
pub(crate) struct Watched<'a> {
    pub(crate) inside: MemSite,
    pub(crate) watch: &'a Watch<'a>,
}

impl<'a> Site for Watched<'a> {
    ghost use Rattle.sdls_outside.specs.MemSite.{site_trace, site_faults, site_put_faults};

    ghost told = { true };

    ghost trace = { λ site. site_trace site.inside };

    ghost faults = { λ site. site_faults site.inside };

    ghost put_faults = { λ site. site_put_faults site.inside };

    ghost image_may_stay = { λ site. mem_laws.image_may_stay-law site.inside };

    fn begin(&mut self) -> Result<u64, Failed> {
        self.inside.begin()
    }

    fn read_at(&mut self, at: u64, into: &mut [u8]) -> Result<(), Failed> {
        self.inside.read_at(at, into)
    }

    fn write_at(&mut self, at: u64, octets: &[u8]) -> Result<(), Failed> {
        self.inside.write_at(at, octets)
    }

    fn sync(&mut self) -> Result<(), Failed> {
        self.watch.hold_sync();
        self.inside.sync()
    }

    fn put(&mut self, octets: &[u8]) -> Result<(), Failed> {
        self.inside.put(octets)
    }

    fn faults(&self) -> u64 {
        self.inside.faults()
    }
}
