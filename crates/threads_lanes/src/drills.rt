// Drills, as their gate sees them.
use crate::runs::call;
use crate::watch::Watch;
use sdls_outside::MemSite;
use sdls_run::Gate;
use sdls_run::status::DONE;
use std::sync::atomic::{AtomicU64, Ordering};
use std::test::Fail;

/// How often each of its calls was made.
#[derive(Drop)]
pub(crate) struct Counting {
    passed: AtomicU64,
    done: AtomicU64,
}

impl Gate for Counting {
    fn pass(&self, _lane: u8, _index: u64) {
        self.passed.fetch_add(1, Ordering::SeqCst);
    }

    fn done(&self, _lane: u8, _index: u64) {
        self.done.fetch_add(1, Ordering::SeqCst);
    }
}

/// A thousand frames are protected and opened, and the first of each of four chunks is opened again: the gate is called
/// before and after 2,004 records. So the line is not put from numbers that are known beforehand.
#[test]
fn a_drill_handles_its_records(rt: HostRuntime) -> Result<(), Fail> {
    let alloc = rt.alloc();
    let gate = Counting {
        passed: AtomicU64::new(0),
        done: AtomicU64::new(0),
    };
    let watch = Watch::Counting(&gate);
    let site = MemSite::new(alloc, Vec::new(alloc), Vec::new(alloc), None);
    let (status, entries, site) = call(&rt, alloc, "drill 1000", Vec::new(alloc), site, &watch)?;
    assert_eq!(rt; (status, entries), (DONE, 0));
    assert_eq!(rt;
        site.sunk(),
        b"drill 1000 protected 1000 accepted 1000 rejected 4\n".as_slice()
    );
    assert_eq!(rt; gate.passed.load(Ordering::SeqCst), 2004);
    assert_eq!(rt; gate.done.load(Ordering::SeqCst), 2004);
    Ok(())
}

/// A thousand frames are protected, and 1,015 arrive over the link: 856 of them once or more, the repeated ones twice.
/// The gate is called before and after 2,015 records.
#[test]
fn a_drill_over_a_link_handles_what_arrives(rt: HostRuntime) -> Result<(), Fail> {
    let alloc = rt.alloc();
    let gate = Counting {
        passed: AtomicU64::new(0),
        done: AtomicU64::new(0),
    };
    let watch = Watch::Counting(&gate);
    let site = MemSite::new(alloc, Vec::new(alloc), Vec::new(alloc), None);
    let (status, entries, site) = call(
        &rt,
        alloc,
        "drill link 1000",
        Vec::new(alloc),
        site,
        &watch,
    )?;
    assert_eq!(rt; (status, entries), (DONE, 0));
    assert_eq!(rt;
        site.sunk(),
        b"drill link 1000 protected 1000 lost 144 accepted 802 rejected 213\n".as_slice()
    );
    assert_eq!(rt; gate.passed.load(Ordering::SeqCst), 2015);
    assert_eq!(rt; gate.done.load(Ordering::SeqCst), 2015);
    Ok(())
}
