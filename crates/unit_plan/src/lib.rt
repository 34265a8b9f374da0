//! The plan of a unit (profile): the text by which an operator sets its links, channels, keys and security
//! associations.
//!
//! A text is its lines, and a line its words: [`Lines`] and [`Words`] walk them without memory.
//! [`Plan`] is what a whole text says, or there is the first line with a cause: read `specs/Plan.antt` first.
//! [`Above`] reads on behind a line at fault, and says of each line which word is the first at fault.
//! [`write_bare_plan`] writes the text without the lines of keys and associations, which is what an image holds of a
//! plan, and [`bare_plan_reads`] says what that reads as.
#![tactic(auto)]

mod above;
mod bare;
mod bounds;
mod fields;
mod key_line;
mod kind;
mod lines;
mod link_line;
mod plan;
mod plan_error;
mod reader;
mod taking;

pub use above::{
    Above, AssociationWord, ChannelWord, Expected, HeadWord, KeyWord, LinkWord, MapWord,
    NamedAbove, Spelling, Spot, stand_in,
};
pub use bare::{bare_plan_is_short, bare_plan_reads, write_bare_plan};
pub use fields::number_of;
pub use key_line::are_channel_ids;
pub use lines::{Lines, Words};
pub use link_line::ChannelPlace;
pub use plan::{Plan, PlanKey, PlanSa};
pub use plan_error::{PlanCause, PlanError, PlanFault};
pub use reader::{ended, pass};
pub use sdls_base::{AnyLayout, Link, Mask};

/// The most octets of a plan.
pub const MOST_OCTETS: usize = 65_536;
