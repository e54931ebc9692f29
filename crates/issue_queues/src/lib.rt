//! The issue queues: which rows have dispatched and wait to issue, what they hold of the buffers of
//! resources, and which of them are ready.
//!
//! LLVM calls them the scheduler, and an entry of a resource's buffer (`BufferSize`) an entry of a
//! reservation station.
#![tactic(auto)]

mod entries;
mod law;
mod queues;

pub use law::{known_rows, one_count, same_rows};
pub use queues::Queues;
