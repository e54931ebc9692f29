//! Graphs of waits, and chains of their edges.

use mca_fixed::Items;

/// What a row waited for.
#[derive(Clone, Copy, Debug, PartialEq, Eq)]
pub enum EdgeKind {
    /// The value of a register.
    Register,
    /// The order of memory: an older load, store or barrier.
    Memory,
    /// A unit of a resource.
    Resource,
}

/// A row waited for another.
#[derive(Clone, Copy, Debug, PartialEq, Eq)]
pub struct Edge {
    /// The row that was waited for, from 0.
    pub from: u32,
    /// The row that waited, from 0.
    pub to: u32,
    /// What it waited for.
    pub kind: EdgeKind,
    /// How long, in cycles.
    pub cost: u64,
}

/// The waits of a run (`IsGraph`).
#[derive(Debug, Drop)]
pub struct Graph {
    /// How many rows the run has.
    pub rows: u32,
    /// The rows in issue order, each once.
    pub order: Items<u32>,
    /// The waits, each for a row that is earlier in issue order. They stand in the order in which the rows
    /// that waited issued, and cost less than 2^64 cycles together.
    pub edges: Items<Edge>,
}

/// A chain of waits, with what shows that none costs more.
#[derive(Debug, Drop)]
pub struct Chain {
    /// The waits, from the first on; each starts at the row where the one before ended.
    pub links: Items<Edge>,
    /// What they cost together, in cycles.
    pub cost: u64,
    /// For each row the greatest cost of a chain that ends there, in cycles; 0 where none does.
    pub labels: Items<u64>,
}
