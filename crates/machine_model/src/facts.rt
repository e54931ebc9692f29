//! The numbers of a scheduling class.

/// An instruction's use of a processor resource (`WriteRes`).
#[derive(Clone, Copy, Debug, PartialEq, Eq)]
pub struct Use {
    /// The number of the resource.
    pub resource: u8,
    /// For how many cycles, from its issue, it holds a unit of the resource, 0 to 1,000,000. With 0 it
    /// names the resource and takes no unit.
    pub hold: u32,
}

/// What the write of a register takes of a register file.
#[derive(Clone, Copy, Debug, PartialEq, Eq)]
pub struct FileShare {
    /// The number of the file.
    pub file: u8,
    /// The physical registers that it takes, 1 to 8.
    pub cost: u32,
}

/// The numbers of one scheduling class of writes (`WriteRes`, `SchedWriteRes`).
#[derive(Clone, Copy, Debug, PartialEq, Eq)]
pub struct WriteFacts {
    /// Cycles from the issue to the completion, 0 to 1,000,000.
    pub latency: u32,
    /// Micro-ops, 1 to 4,096.
    pub uops: u16,
    /// How many of `uses` count, 0 to 8.
    pub use_count: u8,
    /// Its uses of resources, as written.
    pub uses: [Use; 8],
    /// Whether it is the first of its dispatch group.
    pub begins_group: bool,
    /// Whether it is the last of its dispatch group.
    pub ends_group: bool,
}
