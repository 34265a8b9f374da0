//! The outside of the unit, as two traits: where its input comes from (`Source`), and the disk and
//! the sink that it writes to (`Site`), with what a crash at any moment may leave.
//!
//! A site is stated by its trace: what its disk and sink hold now, and what they held before each
//! call that changed something. What a crash may leave is read off that list (`specs/Moments.antt`),
//! so a clause can speak of each moment inside a call.
#![tactic(auto)]

mod calls;
mod file_site;
mod history;
mod laws;
mod mem_site;
mod mem_source;
mod site;
mod source;
mod std_source;

pub use file_site::FileSite;
pub use laws::{
    crash_is_a_moment, moment_of_a_part, moment_of_now, moment_since_earlier, rose,
    synced_until_written,
};
pub use mem_site::{Crash, MemSite};
pub use mem_source::{MemSource, SureSource};
pub use site::Site;
pub use source::{Failed, Source, collect};
pub use std_source::StdSource;
