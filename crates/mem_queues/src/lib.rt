//! The load queue, the store queue and the order of memory: which loads, stores and barriers are in
//! flight, and which of them may issue beside the older ones.
#![tactic(auto)]

mod firsts;
mod law;
mod queues;

pub use law::{known_rows, one_order, same_rows};
pub use queues::MemQueues;
