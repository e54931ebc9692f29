//! Why a table is no machine.
ghost use Rattle.std.specs.Prelude.{◌≡◌};
ghost use Rattle.sched_checks.specs.Names.{ill_name};

/// Why a record, or the table as a whole, describes no machine that can run. Where several stand in one
/// record, the first of this order counts.
#[derive(Clone, Copy, Debug, PartialEq, Eq)]
pub enum IllKind {
    /// There is no `SchedMachineModel`. It has no record.
    NoModel,
    /// A second `SchedMachineModel`.
    TwoModels,
    /// A name stands for nothing of the kind that is wanted there.
    UnknownName,
    /// A `ProcResource` of 0 units, or a group without members.
    NoUnits,
    /// A member of a group is a group.
    GroupOfGroup,
    /// Lists that go together are not of one length, or an `InstRW` has no or more than three names.
    ListLengths,
    /// `NumMicroOps` is 0.
    ZeroMicroOps,
    /// A number is outside its range, or there is one thing more than there may be.
    OutOfRange,
    /// `MicroOpBufferSize` is 0: an in-order machine.
    InOrderModel,
    /// A `RegisterFile` eliminates moves.
    MoveElimination,
    /// A register stands in two register files, or in two classes of one.
    TwoFilesOneRegister,
    /// A register file is smaller than one of its costs.
    FileTooSmall,
    /// A second write for a class or an opcode.
    TwoWrites,
    /// A second advance of a read after a write.
    TwoAdvances,
    /// A second `RetireControlUnit`, `LoadQueue` or `StoreQueue`.
    TwoQueues,
    /// The uses of a write need more units than there are.
    UseCannotBeMet,
    /// There was no memory. It is no illness, and has no record.
    Memory,
}

impl IllKind {
    /// The kind's name, as an error line prints it.
    pub fn name(self) -> &'static str
        ensures { result.now ≡ ill_name self }
    {
        match self {
            IllKind::NoModel => "NoModel",
            IllKind::TwoModels => "TwoModels",
            IllKind::UnknownName => "UnknownName",
            IllKind::NoUnits => "NoUnits",
            IllKind::GroupOfGroup => "GroupOfGroup",
            IllKind::ListLengths => "ListLengths",
            IllKind::ZeroMicroOps => "ZeroMicroOps",
            IllKind::OutOfRange => "OutOfRange",
            IllKind::InOrderModel => "InOrderModel",
            IllKind::MoveElimination => "MoveElimination",
            IllKind::TwoFilesOneRegister => "TwoFilesOneRegister",
            IllKind::FileTooSmall => "FileTooSmall",
            IllKind::TwoWrites => "TwoWrites",
            IllKind::TwoAdvances => "TwoAdvances",
            IllKind::TwoQueues => "TwoQueues",
            IllKind::UseCannotBeMet => "UseCannotBeMet",
            IllKind::Memory => "Memory",
        }
    }
}

/// The first ill record of a table, numbered from 1, or 0 for the table as a whole, and its illness.
#[derive(Clone, Copy, Debug, PartialEq, Eq)]
pub struct TableIllness {
    pub number: u32,
    pub kind: IllKind,
}
