// Runs of a whole unit over sites in memory: the one call of `run` that all tests have. What it ensures is not said
// again: a test looks at what a run wrote, and the clauses would be carried through each step behind the call.
use crate::watch::{Watch, Watched};
use case_lines::words_of;
use sdls_outside::{MemSite, Site, Source, SureSource};
use sdls_run::{Gate, Outcome, run};
use std::alloc::{AllocError, Global};
use std::sync::Wait;
use std::thread::Threads;

/// The call `run`, over any types: so its clauses cost the least.
fn ran<R: Threads + Wait + Sync, S: Source, O: Site + Send + Drop, G: Gate + Sync>(
    rt: &R,
    alloc: Global,
    words: &[String],
    source: &mut S,
    site: O,
    gate: &G,
) -> (u8, usize, O) {
    let Outcome {
        status,
        site,
        entries,
    } = run(rt, alloc, words, source, site, gate);
    (status, entries.len(), site)
}

/// The call `run` on the words of a line, over an input: the status, the count of the entries, and the site. Its types
/// are those of all tests, so it is compiled once.
#[inline(never)]
pub(crate) fn call<R: Threads + Wait + Sync>(
    rt: &R,
    alloc: Global,
    line: &str,
    input: Vec<u8>,
    site: MemSite,
    watch: &Watch<'_>,
) -> Result<(u8, usize, MemSite), AllocError> {
    let words = words_of(alloc, line)?;
    let site = Watched {
        inside: site,
        watch,
    };
    let mut source = SureSource::new(input);
    let (status, entries, site) = ran(rt, alloc, words.as_slice(), &mut source, site, watch);
    Ok((status, entries, site.inside))
}

/// A run over an input: its status, the count of its entries, and the site.
pub(crate) fn life<R: Threads + Wait + Sync>(
    rt: &R,
    alloc: Global,
    input: Vec<u8>,
    site: MemSite,
    watch: &Watch<'_>,
) -> Result<(u8, usize, MemSite), AllocError> {
    call(rt, alloc, "run", input, site, watch)
}
