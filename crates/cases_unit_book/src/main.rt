//! Tables of lives of a whole unit, for the calls of `unit_book`, `unit_image` and `disk_journal`. A line of standard
//! input is a step, and what it answers is printed; `plan` and `life` alone answer nothing, and `#` and a title is
//! printed as it is.
//!
//! `plan LINE` gathers, `create` makes the image of the lines that were gathered, and `create_one` the one of version
//! 1. `set OFFSET OCTETS` and `cut LENGTH` change the image, `octets OFFSET LENGTH` shows some of it, `keep` keeps it,
//! and `back` takes the kept one. `failing CALL..` lists the calls on the site that are to fail, counted from the
//! opening, and `open` opens the image.
//!
//! While a unit is open, `protect LINK FRAME`, `accept LINK FRAME`, `do MESSAGE`, `release`, `put OCTETS` and `tell`
//! are its calls. A number is drawn as on one lane: the key's next one, which is stored for before it is used. `close`
//! ends the run; `crash kept`, `crash lost` and `crash OCTET` end it by a crash.
//!
//! `times COUNT STEP` does a step so often, and prints the last answer. `life STEP` gathers a life, `live` does its
//! steps, and `forget` leaves none of it.
#![tactic(auto)]

mod table;

use case_lines::print_answers;
use table::Table;

fn main(rt: HostRuntime) -> anyhow::Result<()> {
    print_answers(&rt, &mut Table::new(rt.alloc()))
}
