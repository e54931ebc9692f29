//! The reorder buffer: the rows in flight, oldest first, and the micro-ops that they hold.
//!
//! A row enters as it dispatches and leaves as it retires, in program order. The entries stand in a
//! ring that takes its memory once, when it is made; the work of each later call is constant.
#![tactic(auto)]

mod rob;

pub use rob::{Rob, RobEntry};
