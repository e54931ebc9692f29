//! What the records of a scheduling table say, each in its own terms and with its names resolved: a
//! number stands in the place of each name.
//!
//! A record is read by its class (`reading`). Names are looked up in name spaces (`name_space`, `names`),
//! and opcodes by their mnemonics (`opcodes`). The entry of each record is made by its class (`kinds`).
//!
//! The classes and fields are those of LLVM's `TargetSchedule.td`.
#![tactic(auto)]

// what a record says
mod entry;
mod numbers;
mod reading;
// what names stand for
mod name_space;
mod names;
mod opcodes;
// the entries
mod earlier;
mod kinds;
mod law;
mod resolve;

pub use entry::{
    Advance, Defaults, Entries, Entry, File, Makeup, Model, Queue, Registers, Resource, Retirement,
    Rewrite, Write, count_of,
};
pub use law::places_in_range;
pub use numbers::Numbers;
pub use opcodes::all_opcodes;
pub use resolve::resolve_records;
