//! What tables and tests of units share: plans and images to begin with, recorded inputs of runs, whether what was seen
//! is what a message needs, and what answers look like. No part of the unit.
#![tactic(auto)]

mod images;
mod runs;
mod texts;

pub use images::{
    TELECOMMAND_SENDER, TWO_SENDERS, crash_of, image_of, image_of_sender, image_of_version_one,
    place_of,
};
pub use runs::{
    Answer, BEGINNING, FENCE, TELECOMMAND, joined, push_answers, push_frame, push_on_lane,
    push_record,
};
pub use texts::{fits, write_open_reply, write_reply, write_shield_fault};
