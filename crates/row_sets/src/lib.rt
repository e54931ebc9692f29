//! Sets of rows in flight: which are ready to issue, by class, and which wait for a cycle.
//!
//! Rows in flight follow one another, and there are at most 4,096 of them, as many as a reorder
//! buffer holds. So a row is kept at its place, its number modulo 4,096, as a bit of one of 64
//! words. `ReadyRows` are what issue selects from, in age order; `Agenda` wakes rows up. No call
//! but `make` takes memory.
#![tactic(auto)]

mod agenda;
mod bits;
mod ready;

pub use agenda::Agenda;
pub use ready::ReadyRows;

#[cfg(test)]
mod tests;
