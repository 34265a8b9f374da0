//! The words that need no threads.
ghost use Rattle.std.specs.Prelude.{◌≡◌, ◌≢◌, ℕ, List, [], IsTrue, take};
ghost use Rattle.sdls_outside.specs.Faults.{Rose};
ghost use Rattle.sdls_outside.specs.Output.{OnlySinks};
ghost use Rattle.record_io.specs.Input.{MOST_OCTETS};
ghost use Rattle.record_io.specs.Outcome.{Ends};
ghost use Rattle.record_io.specs.declared.status.TheConstants.{SITE_FAULT, SOURCE_FAULT, USAGE};
ghost use Rattle.command_words.specs.Lines.{usage_text};
ghost use Rattle.command_words.specs.Words.{IsUnread, command_of};
ghost use Rattle.cli_check.specs.Answer.{EndsCheck};
ghost use Rattle.cli_audit.specs.Ends.{EndsAudit};
ghost use Rattle.cli_image.specs.Init.{EndsInit};
ghost use Rattle.cli_image.specs.Stat.{EndsStat};
ghost use Rattle.cli_image.specs.Taking.{TakesFrame, TakesPlan};
ghost use Rattle.cli_image.specs.Unserved.{IsUnserved};

use crate::init::run_init;
use crate::stat::run_stat;
use cli_audit::run_audit;
use cli_check::run_check;
use command_words::{Command, command_of, end_with_usage};
use record_io::Outcome;
use sdls_outside::{Site, Source};
use std::alloc::Global;

/// Serves the words that need no threads: `check KEY`, `init`, `stat` and `audit`. All others are answered with the
/// usage line, `run` and drills among them.
///
/// `check KEY` reads one AOS transfer frame from the source and writes `ok` with its data field in hexadecimal digits,
/// or `refused` with the first check that fails. It takes no memory.
///
/// `init` reads a plan from the source and makes the image of it, if there is none, and writes nothing; or it writes
/// why not, and the image is as it was, except after a fault of the site.
///
/// `stat` writes the state that the image shows as text, or why there is none. It brings the image to rest as each
/// opening does, and changes nothing else.
///
/// `audit` reads a recording of runs, and writes that all is well, the first repeat of a number under a key, or where
/// the recording is malformed. It leaves the image as it was.
///
/// Nothing is written after a failed write.
pub fn run_plain<S: Source, O: Site>(
    alloc: Global,
    words: &[String],
    source: &mut S,
    site: O,
) -> Outcome<O>
    ensures check { (key : List ℕ) → command_of words.now ≡ Command.Check key → EndsCheck key
        (λ input. IsTrue S.told → input ≡ S.left source.old) (Rose (S.faults source.old) (S.faults source.new))
        O.told (O.trace site) (O.trace result.site) (Rose (O.faults site) (O.faults result.site)) result.status }
    ensures check_takes { (key : List ℕ) → command_of words.now ≡ Command.Check key → IsTrue S.told
        → TakesFrame (S.left source.old) (S.left source.new) }

    ensures init { command_of words.now ≡ Command.Init → EndsInit
        (λ input. IsTrue S.told → input ≡ S.left source.old) (source.new ≡ source.old)
        (Rose (S.faults source.old) (S.faults source.new))
        O.told (O.trace site) (O.trace result.site) (Rose (O.faults site) (O.faults result.site)) result.status }
    ensures init_takes { command_of words.now ≡ Command.Init → IsTrue S.told
        → TakesPlan (S.left source.old) (S.left source.new) }

    ensures stat { command_of words.now ≡ Command.Stat
        → EndsStat O.told (O.trace site) (O.trace result.site) (Rose (O.faults site) (O.faults result.site))
        result.status }

    // An audit writes what is said of the whole input, and does nothing else to the site.
    ensures audit { command_of words.now ≡ Command.Audit → EndsAudit
        (λ input. IsTrue S.told → input ≡ take MOST_OCTETS (S.left source.old))
        (Rose (S.faults source.old) (S.faults source.new))
        O.told (O.trace site) (O.trace result.site) (Rose (O.faults site) (O.faults result.site)) result.status }

    ensures usage { IsUnserved (command_of words.now)
        → Ends O.told (O.trace site) (O.trace result.site) (Rose (O.faults site) (O.faults result.site))
        usage_text USAGE result.status }
    ensures unread { IsUnread (command_of words.now) → source.new ≡ source.old }
    ensures untouched { IsUnserved (command_of words.now) → source.new ≡ source.old }
    // With other words than `stat` nothing is done to an image that stands, whatever the end.
    ensures only_sinks { command_of words.now ≢ Command.Stat → IsTrue O.told → (O.trace site).now.image ≢ []
        → OnlySinks (O.trace site) (O.trace result.site) }
    // A fault is never hidden: with another status the counts stood.
    ensures quiet { result.status ≢ SITE_FAULT → O.faults result.site ≡ O.faults site }
    ensures heard { result.status ≢ SOURCE_FAULT → result.status ≢ SITE_FAULT
        → S.faults source.new ≡ S.faults source.old }
    ensures no_history { result.entries.items ≡ [] }
{
    match command_of(words) {
        Command::Check(key) => run_check(alloc, &key, source, site),
        Command::Init => run_init(alloc, source, site),
        Command::Stat => run_stat(alloc, site),
        Command::Audit => run_audit(alloc, source, site),
        Command::Run | Command::Drill(_) | Command::LinkDrill(_) | Command::Usage => {
            end_with_usage(alloc, site)
        }
    }
}
