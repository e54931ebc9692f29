//! The register files: the physical registers that rows hold from dispatch to retirement.
//!
//! A row that writes a register holds a physical register until it retires. Two bounds keep a row from
//! dispatching: how many registers may be written and not yet retired, and how many physical registers
//! the file of its register has. The unit keeps counts, and answers as if it had kept the list of the
//! writes in flight: `specs/Files` has the rules over that list. After `make` no call takes memory, and
//! the work of each is constant.
#![tactic(auto)]

mod files;

pub use files::Files;
