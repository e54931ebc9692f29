//! What a machine answers of an opcode and of a unit.

/// How a class of reads is written where there is none.
pub const NO_CLASS: u16 = u16::MAX;

/// The resource that a unit belongs to.
#[derive(Clone, Copy, Debug, PartialEq, Eq)]
pub struct UnitOwner {
    /// The number of the resource, which is no group.
    pub resource: u8,
    /// Its place among the units of that resource, from 0.
    pub place: u32,
}

/// The scheduling classes of an opcode.
#[derive(Clone, Copy, Debug, PartialEq, Eq)]
pub struct Binding {
    /// The class of its write.
    pub write: u16,
    /// The classes of its reads of rs1 and rs2; `NO_CLASS` for none.
    pub reads: [u16; 2],
}

/// Whether a machine runs an opcode.
#[derive(Clone, Copy, Debug, PartialEq, Eq)]
pub enum ClassAnswer {
    /// It has no class for the opcode.
    Missing,
    /// It has one, which is marked as not supported.
    Unsupported,
    /// It runs the opcode by these classes.
    Class(Binding),
}
