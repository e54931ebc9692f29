//! Spans of places: how a list stands in the store.

// A list of places by its first, its last and its length. Where it is empty, the first two count for
// nothing.
#[derive(Clone, Copy)]
pub struct Span {
    pub head: usize,
    pub tail: usize,
    pub len: usize,
}
