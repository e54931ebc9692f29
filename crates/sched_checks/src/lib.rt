//! Whether the records of a table describe a machine: the checks of each record, in order.
//!
//! Each check is a test of what the record says, of the records before it, and of the resources; `check`
//! asks them in their order, record by record. What each says is defined in specs/Checks.
//!
//! What a table may say is this project's choice of LLVM's `TargetSchedule.td`: a machine on which
//! everything that is bound to it can run.
#![tactic(auto)]

// what an illness is
mod illness;
// numbers, registers, and resources with the uses of them
mod ranges;
mod registers;
mod resources;
mod uses;
// the checks: of a record alone, and of those before it
mod alone;
mod before;
mod check;

pub use check::first_illness;
pub use illness::{IllKind, TableIllness};
