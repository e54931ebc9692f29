//! What a machine is: its numbers, the calls that tell them, and the law that every machine keeps.
//!
//! The terms are those of LLVM's `SchedMachineModel`, `ProcResource`, `WriteRes`, `ReadAdvance` and
//! `RegisterFile` (comments of `TargetSchedule.td`).
#![tactic(auto)]

mod answers;
mod facts;
mod fixed;
mod laws;
mod limits;
mod machine;
mod tuning;

pub use answers::{Binding, ClassAnswer, NO_CLASS, UnitOwner};
pub use facts::{FileShare, Use, WriteFacts};
pub use fixed::{Dual, Fixed, Quad, Tiny};
pub use laws::{one_use_order, unit_owners};
pub use limits::{Limits, MOST_CYCLES};
pub use machine::Machine;
pub use rv_isa::Kind;
pub use tuning::Tuning;

#[cfg(test)]
mod tests;
