//! The unit that lanes share: up to 1,024 workers make its calls at once on one book (CCSDS 355.0-B-2 and 355.1-B-1;
//! numbers, permits and turns are profile).
//!
//! [`Unit::open`] opens the image of a site, and [`Unit::split`] gives a worker to each lane. A worker that has a
//! [`Permit`] protects frames by steps on words alone ([`Unit::protect_ready`]). What changes the image is done under
//! one turn: [`Unit::protect`] takes it where a permit is wanted or a block of numbers is to be reserved,
//! [`Unit::open_frame`], [`Unit::command`], [`Unit::permit`], [`Unit::put`] and [`Unit::count`] take it once. With an
//! [`OpenPermit`] a frame's MAC is compared, and the frame deciphered, before the turn is taken.
//!
//! Read `specs/Permit.antt` and `specs/Opening.antt` first: when a permit is true, and what is done with one. What is
//! known of the book is what the counters tell (crate `counter_table`), and what a call does under the turn is what the
//! book says (crate `unit_book`).
#![tactic(auto)]

mod commanding;
mod opening_frames;
mod permit;
mod protecting;
mod shared_book;
mod unit;

pub use opening_frames::open_permits_stay;
pub use permit::{Done, OpenPermit, Permit, PermitReply, Protected, Ready, permits_stay};
pub use shared_book::SharedBook;
pub use unit::{Unit, Worker};
