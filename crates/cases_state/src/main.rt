//! Tables of transfer frames and of a unit's state. A line of standard input is a case or a step, and what it answers
//! is printed; `plan` alone answers nothing, and `#` and a title is printed as it is. Octets are hexadecimal.
//!
//! A case depends on no state, and is printed with what it answers: `tc`, `tm` and `aos` read a frame and write it
//! again; `protect` protects a clear frame under a binding, `open` opens one, and `bits` opens one with each bit of the
//! first six octets turned; `index`, `room`, `header` and `mask` are the calls of `sdls_header`; `spi`, `channel`,
//! `key`, `fecf`, `same`, `printed` and `numbers` those of `sdls_base`.
//!
//! `plan` and a line is gathered, and `begin` makes the state of the lines that were gathered. `copy` writes a copy in
//! the place of the state, `restart` leaves what a restart leaves, and `show` prints its rows. `change` and a change in
//! words makes it if the state allows it. `loads FIRST COUNT` makes so many loads of eight keys, and counts those that
//! the state allows. `marks` and `accepted` change the state as a reserve and a frame do. `do` reads a message, decides
//! it with what was seen and changes the state. `receive` opens a frame on a link, and the state accepts its number.
//! `send` makes the checks of a clear frame, and protects it.
//!
//! `command` and `reply` read a message and write it back. `cuts` counts the places at which a cut command is reported
//! to end, and `lengths` lists the lengths that messages of a tag may have. The words of each line are in `README.md`.
#![tactic(auto)]

mod cases;
mod changes;
mod messages;
mod reading;
mod scenario;
mod shielding;

use case_lines::print_answers;
use scenario::Table;

fn main(rt: HostRuntime) -> anyhow::Result<()> {
    print_answers(&rt, &mut Table::new(rt.alloc()))
}
