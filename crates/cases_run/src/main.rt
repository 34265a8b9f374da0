//! Tables of runs of a whole unit, for the top call `run` of `sdls_run`, on sources and sites in memory. A line of
//! standard input is a step; `# TITLE`, and what a command answers, is printed.
//!
//! `plan LINE` gathers a line of a plan, `octets HEX` some of the input, with each word behind `xN` N times. `records`
//! begins a recorded input anew, and `protect LANE LINK HEX`, `open LANE LINK HEX`, `command LANE HEX`,
//! `monitor LANE HEX` and `fence` gather its items. `pieces N` sets how many octets the source gives at most in a call,
//! `source CALL..` and `failing CALL..` list the calls on source and site that are to fail, counted from 0, and
//! `dead CALL` has the site fail from one on.
//!
//! `init` runs with the gathered plan as input, `run`, `stat`, `check KEY` and other words with the gathered input. Of
//! a run it prints the status, the count of entries, and each answer: code, detail, key, position, number, body; of
//! other words the text. The site's image is kept for the next step; `crash kept`, `crash lost` and `crash OCTET` take
//! in its place what a crash of the last site leaves. `image` prints the length of the image, `show OFFSET LENGTH` some
//! of it, `find HEX` the place of these octets in it, `set OFFSET HEX` changes it, `cut LENGTH` takes away what is past
//! a length, `lay HEX` lays another in its place, `zeros LENGTH` so many zeros, `lose` drops it; `keep` keeps it,
//! `back` takes the kept one, and `same` says whether it is that one. `unit_one` takes the image of version 1 of the
//! gathered plan, and `swap` lets the two banks change places. `sunk` prints the octets that the last site has sunk,
//! and its faults. `record` records these octets as one run, and `audited` runs `audit` on what was recorded.
//! `times COUNT STEP` does a step so often.
//!
//! `judge OFFSET LENGTH` sets each of so many octets of the image to 0, 1, 2 and 255 in turn, and asks `stat` each
//! time. What is due is a rule of the octet's place (`judging.rt`): a refusal with its offset, which leaves the image as
//! it was; or a state, and the image at rest and of version 2. It prints how many of each there were, or the first
//! change that has another answer.
#![tactic(auto)]

mod image;
mod judging;
mod table;

use case_lines::Page;
use table::Table;

fn main(rt: HostRuntime) -> anyhow::Result<()> {
    let mut table = Table::new(&rt, rt.alloc());
    let mut page = Page::new(rt.alloc());
    for line in rt.lines(rt.alloc()) {
        page.clear();
        table.answer(line?.as_str(), &mut page);
        match page.written() {
            Some("") => {}
            Some(text) => println!(rt; "{text}")?,
            None => anyhow::bail!("no memory, or digits that are none"),
        }
    }
    Ok(())
}
