//! The units of a machine: which of them are held in a cycle, and which the uses of an instruction take.
//!
//! Each use of a resource takes one of its units for as many cycles as it holds it, round robin over those
//! that are free. The crate keeps for each unit the cycle from which it is free, and a set of those that
//! are held, which is exact until one of them is given back; it answers as if it had kept the list of all
//! uses that took a unit (`cycle_rules` has the rules over that list). No call but `make` takes memory.
#![tactic(auto)]

mod search;
mod units;

pub use units::Units;
