//! Tests of `kept_threads` and `counter_table`, with threads, and of `sdls_world`. No part of the unit.
//!
//! They stand here since a crate that has tests in it is proved twice.
#![tactic(auto)]

#[cfg(test)]
mod kept;
#[cfg(test)]
mod table;
#[cfg(test)]
mod world;
