//! An instruction that is bound to a machine.

use machine_model::{Kind, Use};
use rv_isa::{Op, Reg};

/// A register that an instruction reads, and the class of the read.
#[derive(Clone, Copy, Debug, PartialEq, Eq)]
pub struct Source {
    /// The register. x0 has no producer.
    pub reg: Reg,
    /// The read class, or `NO_CLASS`.
    pub read: u16,
}

/// An instruction with the numbers of its scheduling class.
#[derive(Clone, Copy, Debug, PartialEq, Eq)]
pub struct Bound {
    pub op: Op,
    /// Micro-ops, 1 to 4,096.
    pub uops: u16,
    /// Cycles from the issue to the completion, 0 to 1,000,000.
    pub latency: u32,
    /// How many of `uses` count, 0 to 8.
    pub use_count: u8,
    /// Its uses of resources in use order: the fewest units first, and as written where they have as many.
    pub uses: [Use; 8],
    /// One of its uses names a resource whose buffer is 0: it issues as it dispatches.
    pub reserved: bool,
    /// How many of `reads` count, 0 to 2.
    pub read_count: u8,
    /// The registers that it reads, rs1 before rs2.
    pub reads: [Source; 2],
    /// The register that it writes; x0 for none.
    pub rd: Reg,
    /// Its write class.
    pub write: u16,
    /// How it takes part in the order of memory.
    pub kind: Kind,
    /// It is the first of its dispatch group.
    pub begins_group: bool,
    /// It is the last of its dispatch group.
    pub ends_group: bool,
}
