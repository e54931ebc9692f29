//! Devices of bytes: files to read by name, places to write to, both in memory and over std. A device
//! counts its faults, so that whoever answers one can be held to it.
#![tactic(auto)]

mod adapters;
mod failed;
mod listed;
mod mem_shelf;
mod mem_sink;
mod read;
mod shelf;
mod sink;
mod whole;

pub use adapters::{FileShelf, StdSink};
pub use failed::Failed;
pub use mca_fixed::NoMemory;
pub use mem_shelf::MemShelf;
pub use mem_sink::MemSink;
pub use read::{ReadFault, read_named};
pub use shelf::Shelf;
pub use sink::Sink;
pub use whole::write_whole;

#[cfg(test)]
mod tests;
