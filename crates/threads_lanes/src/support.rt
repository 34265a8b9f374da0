// What the tests share.
use crate::answers::{Head, heads};
use crate::runs::life;
use crate::watch::Watch;
use sdls_outside::MemSite;
use std::alloc::Global;
use std::sync::Wait;
use std::test::Fail;
use std::thread::Threads;

/// What a run told: its status, the count of its entries, and its answers.
#[derive(Drop)]
pub(crate) struct Heard {
    pub(crate) status: u8,
    pub(crate) entries: usize,
    pub(crate) heads: Vec<Head>,
}

/// A site that never fails and holds this image. If none could be made, the test fails.
pub(crate) fn sound(alloc: Global, image: Option<Vec<u8>>) -> Result<MemSite, Fail> {
    let image = image.ok_or("no image")?;
    Ok(MemSite::new(alloc, image, Vec::new(alloc), None))
}

/// A run over an input on a site. It writes so many answers.
pub(crate) fn told<R: Threads + Wait + Sync>(
    rt: &R,
    alloc: Global,
    site: MemSite,
    input: Vec<u8>,
    watch: &Watch<'_>,
    count: u64,
) -> Result<Heard, Fail> {
    let (status, entries, site) = life(rt, alloc, input, site, watch)?;
    let heads = heads(alloc, site.sunk(), count)?;
    Ok(Heard {
        status,
        entries,
        heads,
    })
}
