//! Many lists over one store of nodes, whose memory is taken once, when it is made.
//!
//! Queues whose rows come and go in every cycle keep their lists here: a node that leaves one list is
//! spare, and serves another.
#![tactic(auto)]

mod cut;
mod join;
mod node;
mod pool;
mod search;
mod span;

pub use node::Node;
pub use pool::NodePool;
