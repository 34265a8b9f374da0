//! The drill, and the drill over a link, with the lines that they write.
ghost use Rattle.std.specs.Prelude.{◌≡◌, ◌≢◌, ◌+◌, ◌*◌, ◌≤◌, min, List, [], IfErr, IfOk, codes, ◌++◌, OnOk};
ghost use Rattle.sdls_outside.specs.Faults.{Rose};
ghost use Rattle.record_io.specs.declared.answers.Answer.{Answer};
ghost use Rattle.record_io.specs.Outcome.{Ends, line};
ghost use Rattle.unit_drill.specs.declared.counts.Counts.{Counts};
ghost use Rattle.unit_drill.specs.Chunks.{HandlesDrill};
ghost use Rattle.unit_drill.specs.Drilled.{EndsDrill, IsDrilled};
ghost use Rattle.unit_drill.specs.Line.{drill_text, link_text, counted};
ghost use Rattle.unit_drill.specs.LinkChunks.{HandlesLinkDrill};
ghost use Rattle.unit_drill.specs.OverLink.{EndsLinkDrill, IsLinkDrilled};

use crate::chunk::Pair;
use crate::counts::Counts;
use crate::laws::{drill_is_sound, link_drill_is_sound};
use crate::records::CHUNK;
use command_words::{MOST_FRAMES, end_with};
use frame_workers::Gate;
use record_io::Outcome;
use record_io::status::{DONE, NO_MEMORY, SITE_FAULT};
use sdls_base::NoMemory;
use sdls_outside::Site;
use std::alloc::Global;
use std::sync::Wait;
use std::thread::Threads;
use text_words::{put_decimal, put_octets};

/// The number behind the last frame of a chunk.
fn end_of(number: u64, chunk: u64) -> u64
    requires { chunk ≤ 1024 }
    ensures { result ≡ min number (CHUNK * (chunk + 1)) }
{
    number.min(CHUNK * (chunk + 1))
}

/// The counts of a drill of this many frames.
fn counts_of<R: Threads + Wait + Sync, G: Gate + Sync>(
    rt: &R,
    alloc: Global,
    number: u64,
    gate: &G,
) -> Result<Counts, NoMemory>
    requires { number ≤ MOST_FRAMES }
    ensures { IfOk result (λ counts. (answers : List Answer) × HandlesDrill number answers counts) }
{
    let mut pair = Pair::open(rt, alloc)?;
    let mut counts = Counts::none();
    for chunk in 0..(number + (CHUNK - 1)) / CHUNK {
        let end = end_of(number, chunk);
        let more = pair.serve_chunk(rt, alloc, chunk, end, gate)?;
        counts = counts.plus(more);
    }
    Ok(counts)
}

/// The line of a drill of this many frames.
fn line_of<R: Threads + Wait + Sync, G: Gate + Sync>(
    rt: &R,
    alloc: Global,
    number: u64,
    gate: &G,
) -> Result<Vec<u8>, NoMemory>
    requires { number ≤ MOST_FRAMES }
    ensures { IfOk result (λ line. (counts : Counts) × IsDrilled number counts
        × (line.items ≡ drill_text number counts)) }
{
    let counts = counts_of(rt, alloc, number, gate)?;
    // For contracts alone: what the units' workers did were two sound runs.
    drill_is_sound();
    drill_line(alloc, number, counts)
}

/// The counts of a drill of this many frames over a link.
fn link_counts_of<R: Threads + Wait + Sync, G: Gate + Sync>(
    rt: &R,
    alloc: Global,
    number: u64,
    gate: &G,
) -> Result<Counts, NoMemory>
    requires { number ≤ MOST_FRAMES }
    ensures { IfOk result (λ counts. (answers : List Answer) × HandlesLinkDrill number answers counts) }
{
    let mut pair = Pair::open(rt, alloc)?;
    let mut counts = Counts::none();
    for chunk in 0..(number + (CHUNK - 1)) / CHUNK {
        let end = end_of(number, chunk);
        let more = pair.serve_link_chunk(rt, alloc, chunk, end, gate)?;
        counts = counts.plus(more);
    }
    Ok(counts)
}

/// The line of a drill of this many frames over a link.
fn link_line_of<R: Threads + Wait + Sync, G: Gate + Sync>(
    rt: &R,
    alloc: Global,
    number: u64,
    gate: &G,
) -> Result<Vec<u8>, NoMemory>
    requires { number ≤ MOST_FRAMES }
    ensures { IfOk result (λ line. (counts : Counts) × IsLinkDrilled number counts
        × (line.items ≡ link_text number counts)) }
{
    let counts = link_counts_of(rt, alloc, number, gate)?;
    // For contracts alone: what the units' workers did were two sound runs.
    link_drill_is_sound();
    link_line(alloc, number, counts)
}

/// Ends a drill: writes the line that was made, or that memory ran out. To the site nothing else is done.
fn end_made<O: Site>(alloc: Global, made: Result<Vec<u8>, NoMemory>, site: O) -> Outcome<O>
    ensures written { IfOk made (λ text. Ends O.told (O.trace site) (O.trace result.site)
        (Rose (O.faults site) (O.faults result.site)) text.items DONE result.status) }
    ensures wanting { IfErr made (λ _. Ends O.told (O.trace site) (O.trace result.site)
        (Rose (O.faults site) (O.faults result.site)) (line (codes "no memory")) NO_MEMORY result.status) }
    ensures quiet { result.status ≢ SITE_FAULT → O.faults result.site ≡ O.faults site }
    ensures no_history { result.entries.items ≡ [] }
{
    match made {
        Ok(text) => end_with(alloc, site, &text, DONE),
        Err(NoMemory) => end_with(alloc, site, b"no memory\n", NO_MEMORY),
    }
}

/// Runs a drill of this many frames, on four lanes, and writes its line: how many the one unit protected, how many the
/// other accepted with their data fields, and how many it rejected for their number. If memory runs out, or the site of
/// one of these units fails, it writes that in place of the line. The gate is called before and after each record.
///
/// The units and all that they hold are gone afterwards. To the site that is handed in nothing is done but to write.
pub fn drill<R: Threads + Wait + Sync, O: Site, G: Gate + Sync>(
    rt: &R,
    alloc: Global,
    number: u64,
    site: O,
    gate: &G,
) -> Outcome<O>
    requires { number ≤ MOST_FRAMES }
    ensures ends { EndsDrill number O.told (O.trace site) (O.trace result.site)
        (Rose (O.faults site) (O.faults result.site)) result.status }
    ensures quiet { result.status ≢ SITE_FAULT → O.faults result.site ≡ O.faults site }
    ensures no_history { result.entries.items ≡ [] }
{
    end_made(alloc, line_of(rt, alloc, number, gate), site)
}

/// Runs a drill of this many frames over a link, on four lanes, and writes its line: how many frames the one unit
/// protected, how many of them the link lost, how many the other accepted with their data fields, and how many it
/// rejected for their number. If memory runs out, or the site of one of these units fails, it writes that in place of
/// the line. The gate is called before and after each record.
///
/// The units and all that they hold are gone afterwards. To the site that is handed in nothing is done but to write.
pub fn drill_link<R: Threads + Wait + Sync, O: Site, G: Gate + Sync>(
    rt: &R,
    alloc: Global,
    number: u64,
    site: O,
    gate: &G,
) -> Outcome<O>
    requires { number ≤ MOST_FRAMES }
    ensures ends { EndsLinkDrill number O.told (O.trace site) (O.trace result.site)
        (Rose (O.faults site) (O.faults result.site)) result.status }
    ensures quiet { result.status ≢ SITE_FAULT → O.faults result.site ≡ O.faults site }
    ensures no_history { result.entries.items ≡ [] }
{
    end_made(alloc, link_line_of(rt, alloc, number, gate), site)
}

/// What is counted, and how many there are of it.
#[tactic(auto, unfolding(crate::specs::Line::counted))]
fn add_count(line: &mut Vec<u8>, what: &[u8], number: u64) -> Result<(), NoMemory>
    ensures { OnOk result (line.new.items ≡ line.old.items ++ counted what.now number) }
{
    put_octets(line, what)?;
    put_decimal(line, number)
}

/// `drill N protected A accepted B rejected C`, and a line feed.
#[tactic(auto, unfolding(crate::specs::Line::drill_text))]
pub(crate) fn drill_line(alloc: Global, number: u64, counts: Counts) -> Result<Vec<u8>, NoMemory>
    ensures { IfOk result (λ line. line.items ≡ drill_text number counts) }
{
    let mut line = Vec::new(alloc);
    add_count(&mut line, b"drill ", number)?;
    add_count(&mut line, b" protected ", counts.protected)?;
    add_count(&mut line, b" accepted ", counts.accepted)?;
    add_count(&mut line, b" rejected ", counts.rejected)?;
    put_octets(&mut line, b"\n")?;
    Ok(line)
}

/// `drill link N protected A lost L accepted B rejected C`, and a line feed.
#[tactic(auto, unfolding(crate::specs::Line::link_text))]
pub(crate) fn link_line(alloc: Global, number: u64, counts: Counts) -> Result<Vec<u8>, NoMemory>
    ensures { IfOk result (λ line. line.items ≡ link_text number counts) }
{
    let mut line = Vec::new(alloc);
    add_count(&mut line, b"drill link ", number)?;
    add_count(&mut line, b" protected ", counts.protected)?;
    add_count(&mut line, b" lost ", counts.lost)?;
    add_count(&mut line, b" accepted ", counts.accepted)?;
    add_count(&mut line, b" rejected ", counts.rejected)?;
    put_octets(&mut line, b"\n")?;
    Ok(line)
}
