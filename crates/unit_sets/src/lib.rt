//! Sets of small numbers, kept as bits: one word for numbers below 64, four for numbers below 256.
//!
//! A set holds the numbers of units, or of whatever else has few and small numbers. Contracts see it
//! as a test on numbers, `holds`, which no number of `SIZE` or more passes. Nothing here takes memory.
#![tactic(auto)]

mod mask;
mod next;
mod set;
mod word;

pub use mask::UnitMask;
pub use next::next_member;
pub use set::UnitSet;
pub use word::next_in;

#[cfg(test)]
mod tests;
