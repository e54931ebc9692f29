//! The event engine: the run of any body on any machine, turned only in cycles in which something can
//! change.
//!
//! After a turn in which an event fell the next turn is at the cycle after it. Else it is at the first of
//! the times that the parts of the machine tell: when the share of a row in the dispatch width falls, when a
//! use gives its unit back, when the oldest row in flight has completed, when the operands of a row that
//! waits are there, and when a row that takes part in the order of memory completes. Before the first of
//! them nothing falls (`event_rules`), and each is one of the times that `turn_bound` counts.
#![tactic(auto)]

mod agenda;
mod engine;
mod next;

pub use engine::EventEngine;
