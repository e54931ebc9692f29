//! A pool of two nodes and two lists.
use mca_fixed::NoMemory;
use node_pool::{Node, NodePool};
use std::alloc::Global;

/// A node goes before one of a greater key; a whole list goes over to another; a node that is taken is
/// spare again.
pub fn two_nodes_serve_two_lists(alloc: Global) -> Result<String, NoMemory> {
    let mut pool = NodePool::make(alloc, 2, 2)?;
    pool.push_back(0, Node { key: 5, value: 1 });
    pool.insert_sorted(0, Node { key: 3, value: 2 });
    let first = pool.first(0);
    let second = pool.first_at(0, 4);
    let full = pool.spare();
    pool.splice(0, 1);
    let left = pool.first(0);
    let taken = pool.pop_front(1);
    let spare = pool.spare();
    Ok(format!(in alloc;
        "node_pool: {first:?}, {second:?}, spare {full}; spliced, {left:?} is left; {taken:?} is taken, spare {spare}"
    )?)
}
