//! What a list holds.

/// A node of a list. The pool reads `key` where a list is sorted, and `value` where a node is removed;
/// what they mean is the caller's.
#[derive(Clone, Copy, Debug, PartialEq, Eq)]
pub struct Node {
    /// A cycle or a number of a row, by which a sorted list stands.
    pub key: u64,
    pub value: u32,
}
