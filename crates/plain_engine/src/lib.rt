//! The plain engine: the run of any body on any machine, cycle by cycle.
//!
//! It makes the events of each cycle, one after another, until all rows have retired. What a cycle does is
//! the matter of `engine_steps`; this engine leaves no cycle out.
#![tactic(auto)]

mod engine;

pub use engine::{PlainEngine, PlainFault};
