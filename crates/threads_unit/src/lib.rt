//! Tests of the calls of `shared_unit` by two threads. No part of the unit.
//!
//! They stand here since a crate that has tests in it is proved twice.
#![tactic(auto)]

#[cfg(test)]
mod epochs;
#[cfg(test)]
mod faults;
#[cfg(test)]
mod loads;
#[cfg(test)]
mod numbers;
#[cfg(test)]
mod setting;
