//! Runs and lives of whole units over their images, with stops, failing calls and crashes. A line of standard input is
//! a step; what it answers is printed, and `# TITLE` is printed as it is.
//!
//! `plan LINE` gathers a line of a plan, `unit` makes the image of a unit of it, and `unit_one` the one of version 1.
//! `set OFFSET OCTETS` writes octets over those of the image, `octets OFFSET LENGTH` prints some of them, `length` how
//! many there are, and `look OCTETS` whether these stand there. `records` begins an input anew. `protect LINK OCTETS`,
//! `open LINK OCTETS` and `command OCTETS` gather its records, on lane 0 or on the lane of a word before, and `fence` a
//! fence. `next` begins the input of the run behind it, which else is over the same input again.
//!
//! `stops KIND`: the site is dead from call k, for k from 0 on, until a run meets no stop. Behind each the image is
//! crashed: `kept`, `lost`, or filled with an octet. Then comes the next run. `gone FIRST KIND OCTETS`: the same from a
//! call on, and these octets stand nowhere in what the crash leaves, nor behind the next run.
//!
//! `stat` prints what `stat` says of the image, and takes the image that it leaves. `stats KIND`: `stat` on a site that
//! is dead from call k, a crash, and three more of it.
//!
//! `failing OPENING KIND`: one call fails, for each call of a run, of which so many open the image. Behind each come a
//! crash and the next run. With `written` behind it, the octets of a write that fails read as written afterwards.
//!
//! `refused` makes two runs, each over the image of the unit, and the next one behind each. `tools/refuse_memory` has
//! each allocation of that refused in turn.
//!
//! `life SEED ROUNDS` is a life of two units on one link, in which frames are lost, repeated and delayed, either unit
//! crashes at random moments, and keys are changed over the link. It prints `sound`, or what went wrong.
//!
//! `run` serves the input over the image, and takes the image that it leaves and an empty input: it prints how the run
//! ended, how many answers of each code it wrote, and a digest of all answers. `crash CALL KIND` does so on a site that
//! is dead from this call of the run on, and leaves of the image what a crash of the kind leaves. `run_on` serves the
//! input and prints what holds for every schedule alone. `again` gathers the items of the last run once more. `answer
//! N` prints an answer of the last run, and `numbers` says whether a number of a key was used or accepted twice in all
//! runs so far.
//!
//! From `brief` on `stat` prints how many lines of each kind the text of the state has, and a digest of it, and leaves
//! the image as it is; `stat_lines` leaves out what depends on the schedule of a run that ended by a crash.
#![tactic(auto)]

mod disk;
mod life;
mod runs;
mod station;
mod table;

use case_lines::Page;
use table::Table;

fn main(rt: HostRuntime) -> anyhow::Result<()> {
    let mut table = Table::new(&rt, rt.alloc());
    let mut page = Page::new(rt.alloc());
    for line in rt.lines(rt.alloc()) {
        page.clear();
        table.answer(line?.as_str(), &mut page);
        match page.written() {
            Some("") => {}
            Some(text) => println!(rt; "{text}")?,
            None => anyhow::bail!("no memory, or digits that are none"),
        }
    }
    Ok(())
}
