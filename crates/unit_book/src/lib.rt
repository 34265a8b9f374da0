//! The book of a unit: its state, and the journal in which each change of the state is stored before anything rests on
//! it.
//!
//! [`Book::open`] makes all checks of an image and answers the book over the state that it shows. [`Book::reserve`]
//! stores a mark above a number that is to be used, [`Book::binding`] says what a frame is protected under,
//! [`Book::accept`] opens a frame (CCSDS 355.0-B-2), and [`Book::command`] does what a message of the key and
//! association management asks (355.1-B-1). [`Book::release`] gives back what a run did not use, and [`Book::put`]
//! hands octets to the site's sink.
//!
//! Read `specs/Book.antt` first: what a book is seen as, and what holds of it between its calls.
#![tactic(auto)]

mod accepting;
mod book;
mod commanding;
mod fault;
mod laws;
mod opening_image;
mod releasing;

pub use book::Book;
pub use fault::BookFault;
pub use laws::{
    marks_stand, needs_name_keys, serves_at_epoch, states_have_bounds, states_serve_alike,
};
pub use unit_image::{write_content, write_content_two};
