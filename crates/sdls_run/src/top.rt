// The top call: one match over the words. Its clauses are what `docs/HEADLINE.md` reads aloud.
ghost use Rattle.std.specs.Prelude.{◌≡◌, ◌≢◌, ℕ, List, []};
ghost use Rattle.record_io.specs.declared.status.TheConstants.{SITE_FAULT, SOURCE_FAULT};
ghost use Rattle.record_io.specs.Reading.{source_seen};
ghost use Rattle.run_promise.specs.Call.{call_seen, site_seen};
ghost use Rattle.run_promise.specs.Life.{EndsAndLives, KeepsLivesReading};
ghost use Rattle.command_words.specs.Words.{IsUnread, command_of};
ghost use Rattle.sdls_run.specs.Calls.{Audits, Checks, Drills, DrillsOverLink, EndsWithUsage, MakesImage, PrintsState};

use crate::laws::{sinking_keeps_lives, stat_keeps_lives};
use cli_image::run_plain;
use cli_run::{Gate, run_recorded};
use command_words::{Command, command_of};
use record_io::Outcome;
use sdls_outside::{Site, Source};
use std::alloc::Global;
use std::sync::Wait;
use std::thread::Threads;
use unit_drill::{drill, drill_link};

/// Serves the words after the program's name, and answers the status, the site and the run's entries.
///
/// `run` reads recorded records from the source: frames to protect, frames to open, and commands. It has them handled
/// by the unit of the site's image, the lanes of a segment at once, and writes one answer for each, in their order, and
/// an End answer behind them. What an answer rests on is stored in the image before it is written. The gate is called
/// before and after each record that a lane handles: each but a monitoring message, which is answered between segments.
///
/// `drill N` makes two units in memory and N frames from their numbers, has the one protect them and the other open
/// them, on four lanes, and writes one line. It reads nothing from the source, and leaves the image as it was.
/// `drill link N` does so over a link between the two, which loses some frames, and delivers others twice or late.
///
/// It hands all other words to [`run_plain`], whose clauses are its own.
pub fn run<R: Threads + Wait + Sync, S: Source, O: Site + Send, G: Gate + Sync>(
    rt: &R,
    alloc: Global,
    words: &[String],
    source: &mut S,
    site: O,
    gate: &G,
) -> Outcome<O>
    // Each moment of the run is early or sound, and adds the run itself to each life that left the image at the entry;
    // why it ends has its cause.
    ensures run { command_of words.now ≡ Command.Run → EndsAndLives
        (call_seen (source_seen S.told S.left S.faults) (site_seen O.trace O.faults O.put_faults) O.told
        source.old source.new site result.site result.status result.entries.items) }

    ensures check { (key : List ℕ) → command_of words.now ≡ Command.Check key → Checks key
        (call_seen (source_seen S.told S.left S.faults) (site_seen O.trace O.faults O.put_faults) O.told
        source.old source.new site result.site result.status result.entries.items) }
    ensures init { command_of words.now ≡ Command.Init → MakesImage (source.new ≡ source.old)
        (call_seen (source_seen S.told S.left S.faults) (site_seen O.trace O.faults O.put_faults) O.told
        source.old source.new site result.site result.status result.entries.items) }
    ensures stat { command_of words.now ≡ Command.Stat → PrintsState
        (call_seen (source_seen S.told S.left S.faults) (site_seen O.trace O.faults O.put_faults) O.told
        source.old source.new site result.site result.status result.entries.items) }
    ensures audit { command_of words.now ≡ Command.Audit → Audits
        (call_seen (source_seen S.told S.left S.faults) (site_seen O.trace O.faults O.put_faults) O.told
        source.old source.new site result.site result.status result.entries.items) }
    // A drill writes the counts of the answers of its own two units, which are all frames if no answer says that memory
    // ran out. Over a link they are all that arrive, and all that the link loses.
    ensures drill { (number : ℕ) → command_of words.now ≡ Command.Drill number → Drills number
        (call_seen (source_seen S.told S.left S.faults) (site_seen O.trace O.faults O.put_faults) O.told
        source.old source.new site result.site result.status result.entries.items) }
    ensures drill_link { (number : ℕ) → command_of words.now ≡ Command.LinkDrill number → DrillsOverLink number
        (call_seen (source_seen S.told S.left S.faults) (site_seen O.trace O.faults O.put_faults) O.told
        source.old source.new site result.site result.status result.entries.items) }
    ensures usage { command_of words.now ≡ Command.Usage → EndsWithUsage
        (call_seen (source_seen S.told S.left S.faults) (site_seen O.trace O.faults O.put_faults) O.told
        source.old source.new site result.site result.status result.entries.items) }
    ensures unread { IsUnread (command_of words.now) → source.new ≡ source.old }
    // A call with other words continues each life that left the image at its entry, as a run without records.
    ensures other_lives { command_of words.now ≢ Command.Run → KeepsLivesReading
        (call_seen (source_seen S.told S.left S.faults) (site_seen O.trace O.faults O.put_faults) O.told
        source.old source.new site result.site result.status result.entries.items) }
    // With words other than `run` a fault is never hidden: with another status the counts stood. Of `run` its own
    // clause says so.
    ensures quiet { command_of words.now ≢ Command.Run → result.status ≢ SITE_FAULT
        → O.faults result.site ≡ O.faults site }
    ensures heard { command_of words.now ≢ Command.Run → result.status ≢ SOURCE_FAULT → result.status ≢ SITE_FAULT
        → S.faults source.new ≡ S.faults source.old }
    ensures no_history { command_of words.now ≢ Command.Run → result.entries.items ≡ [] }
{
    // For contracts alone: what does not write to the image continues its lives.
    stat_keeps_lives();
    sinking_keeps_lives();
    match command_of(words) {
        Command::Run => run_recorded(rt, alloc, source, site, gate),
        Command::Drill(number) => drill(rt, alloc, number, site, gate),
        Command::LinkDrill(number) => drill_link(rt, alloc, number, site, gate),
        _ => run_plain(alloc, words, source, site),
    }
}
