//! What each record of a table says, with its names looked up.
ghost use Rattle.std.specs.Prelude.{◌≡◌};
ghost use Rattle.sched_resolve.specs.EntryTests as spec;

use crate::numbers::Numbers;
use mca_fixed::{Items, Text};
use rv_isa::Op;

/// A `SchedMachineModel`.
#[derive(Debug, Drop)]
pub struct Model {
    /// `IssueWidth`, 1 where it is not given.
    pub width: i64,
    /// `MicroOpBufferSize`, 0 where it is not given.
    pub buffer: i64,
}

/// What a resource is made of.
#[derive(Debug, Drop)]
pub enum Makeup {
    /// A `ProcResource`: its number of units, as written.
    Units(i64),
    /// A `ProcResGroup`: the resource that each member names, or none.
    Group(Items<Option<usize>>),
}

/// The number, or 0 where it is below.
pub fn count_of(number: i64) -> u64
    ensures { result ≡ spec.count_of number }
{
    if number < 0 { 0 } else { number as u64 }
}

impl Makeup {
    /// The units that a `ProcResource` has of its own; a number below 0 counts as 0.
    pub fn own_units(&self) -> u64
        ensures { result ≡ spec.own_units self.now }
    {
        match self {
            Makeup::Units(units) => count_of(*units),
            Makeup::Group(_) => 0,
        }
    }

    /// Whether it is a group's.
    pub fn is_group(&self) -> bool
        ensures { result ≡ spec.is_group self.now }
    {
        matches!(self, Makeup::Group(_))
    }
}

/// A `ProcResource` or a `ProcResGroup`. Resources are numbered from 0 in the order of their records.
#[derive(Debug, Drop)]
pub struct Resource {
    /// `SchedModel` is not given, or names a `SchedMachineModel`.
    pub in_model: bool,
    /// The record's name; empty where it has none. What is no UTF-8 in it is replaced by U+FFFD.
    pub name: Text,
    pub makeup: Makeup,
    /// `BufferSize`, -1 where it is not given.
    pub buffer: i64,
}

/// A `WriteRes` or a `SchedWriteRes`. Writes are numbered from 0 in the order of their records.
#[derive(Debug, Drop)]
pub struct Write {
    pub in_model: bool,
    /// An earlier `WriteRes` is of the same class.
    pub again: bool,
    /// The resource that each use names, or none.
    pub uses: Items<Option<usize>>,
    /// `ReleaseAtCycles`, as written.
    pub cycles: Numbers,
    /// `Latency`, 1 where it is not given.
    pub latency: i64,
    /// `NumMicroOps`, 1 where it is not given.
    pub micro_ops: i64,
    /// `BeginGroup` or `SingleIssue`.
    pub begins_group: bool,
    /// `EndGroup` or `SingleIssue`.
    pub ends_group: bool,
    pub unsupported: bool,
}

/// A `ReadAdvance`. They are numbered from 0 in the order of their records, and the number of a read is
/// that of the first that names it.
#[derive(Debug, Drop)]
pub struct Advance {
    pub in_model: bool,
    /// An earlier one is of the same read, and lists one of the same names, or both list none.
    pub again: bool,
    /// The number of its read.
    pub read: usize,
    /// The cycles, as written.
    pub cycles: i64,
    /// It lists no write.
    pub general: bool,
    /// The writes that its names stand for.
    pub writes: Items<usize>,
    pub unsupported: bool,
}

/// The registers of a register class.
#[derive(Clone, Copy, Debug, PartialEq, Eq)]
pub enum Registers {
    /// x1 to x31: `GPR`, `GPRNoX0`.
    General,
    /// x8 to x15: `GPRC`.
    Compressed,
    /// None: any other class.
    Other,
}

impl Registers {
    /// Whether the register of a number is one of them.
    pub fn has(self, register: usize) -> bool
        ensures { result ≡ spec.class_has register self }
    {
        match self {
            Registers::General => 1 <= register && register <= 31,
            Registers::Compressed => 8 <= register && register <= 15,
            Registers::Other => false,
        }
    }
}

/// A `RegisterFile`. Files are numbered from 0 in the order of their records.
#[derive(Debug, Drop)]
pub struct File {
    pub in_model: bool,
    /// The physical registers, as written.
    pub size: i64,
    /// The classes; where there is none, it holds x1 to x31.
    pub classes: Items<Registers>,
    /// The costs, as written.
    pub costs: Items<i64>,
    /// It allows the elimination of moves for a class.
    pub eliminates: bool,
}

/// A `RetireControlUnit`.
#[derive(Debug, Drop)]
pub struct Retirement {
    pub in_model: bool,
    /// The entries of the reorder buffer, as written.
    pub entries: i64,
    /// The retire width, as written.
    pub width: i64,
}

/// A `LoadQueue` or a `StoreQueue`.
#[derive(Debug, Drop)]
pub struct Queue {
    pub in_model: bool,
    /// The resource that it names, or none.
    pub resource: Option<usize>,
}

/// An `InstRW`.
#[derive(Debug, Drop)]
pub struct Rewrite {
    pub in_model: bool,
    /// How many names it lists.
    pub names: usize,
    /// The write that the first name stands for, or none.
    pub write: Option<usize>,
    /// A later name stands for a write.
    pub other_write: bool,
    /// The numbers of the reads that the second and the third name stand for, or none.
    pub rs1: Option<usize>,
    pub rs2: Option<usize>,
    /// The opcodes of RV64IM among its instructions.
    pub ops: Items<Op>,
}

/// What a record says.
#[derive(Debug, Drop)]
pub enum Entry {
    Model(Model),
    Resource(Resource),
    Write(Write),
    Advance(Advance),
    File(File),
    Retirement(Retirement),
    LoadQueue(Queue),
    StoreQueue(Queue),
    Rewrite(Rewrite),
    /// `SchedWrite` and `SchedRead`.
    Nothing,
}

impl Entry {
    /// Whether the record is a `SchedMachineModel`.
    pub fn is_model(&self) -> bool
        ensures { result ≡ spec.is_model self.now }
    {
        matches!(self, Entry::Model(_))
    }

    /// Whether the record is a resource.
    pub fn is_resource(&self) -> bool
        ensures { result ≡ spec.is_resource self.now }
    {
        matches!(self, Entry::Resource(_))
    }

    /// Whether the record is a register file.
    pub fn is_file(&self) -> bool
        ensures { result ≡ spec.is_file self.now }
    {
        matches!(self, Entry::File(_))
    }

    /// Whether the record is a `RetireControlUnit`.
    pub fn is_retirement(&self) -> bool
        ensures { result ≡ spec.is_retirement self.now }
    {
        matches!(self, Entry::Retirement(_))
    }

    /// Whether the record is a `LoadQueue`.
    pub fn is_load_queue(&self) -> bool
        ensures { result ≡ spec.is_load_queue self.now }
    {
        matches!(self, Entry::LoadQueue(_))
    }

    /// Whether the record is a `StoreQueue`.
    pub fn is_store_queue(&self) -> bool
        ensures { result ≡ spec.is_store_queue self.now }
    {
        matches!(self, Entry::StoreQueue(_))
    }
}

/// What an opcode's default classes stand for.
#[derive(Clone, Copy, Debug, PartialEq, Eq)]
pub struct Defaults {
    /// The write of its default write class, or none.
    pub write: Option<usize>,
    /// The numbers of its default reads of rs1 and rs2, or none.
    pub rs1: Option<usize>,
    pub rs2: Option<usize>,
}

/// What all records say: an entry for each, and the default classes of each opcode, in the order of the
/// opcodes.
#[derive(Debug, Drop)]
pub struct Entries {
    pub list: Items<Entry>,
    pub defaults: Items<Defaults>,
}
