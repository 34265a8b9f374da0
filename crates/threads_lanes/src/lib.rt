//! Tests of the lanes of `sdls_run`, by gates and a site that hold a lane until another was seen. No part of the unit.
//!
//! They stand here since a crate that has tests in it is proved twice.
#![tactic(auto)]

#[cfg(test)]
mod answers;
#[cfg(test)]
mod drills;
#[cfg(test)]
mod faults;
#[cfg(test)]
mod kept;
#[cfg(test)]
mod late;
#[cfg(test)]
mod meeting;
#[cfg(test)]
mod opens;
#[cfg(test)]
mod order;
#[cfg(test)]
mod pairs;
#[cfg(test)]
mod runs;
#[cfg(test)]
mod stops;
#[cfg(test)]
mod support;
#[cfg(test)]
mod waits;
#[cfg(test)]
mod watch;
