//! The exit statuses of a run.

/// The whole input was read and handled.
pub const DONE: u8 = 0;

/// The frame is refused.
pub const REFUSED: u8 = 1;

/// The words are no command.
pub const USAGE: u8 = 2;

/// The input has not the form that it is to have.
pub const MALFORMED: u8 = 3;

/// The source failed.
pub const SOURCE_FAULT: u8 = 4;

/// The site failed.
pub const SITE_FAULT: u8 = 5;

/// Memory ran out.
pub const NO_MEMORY: u8 = 6;

/// There is an image already, or the image shows no state.
pub const NO_STATE: u8 = 7;

/// The history of the run is full.
pub const SESSION_FULL: u8 = 8;
