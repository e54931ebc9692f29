//! Why instructions are not bound.
ghost use Rattle.std.specs.Prelude.{◌≡◌};
ghost use Rattle.sched_validate.specs.declared.fault.BindFault.TheVariants.{Memory};

use mca_fixed::NoMemory;
use rv_isa::Op;
use std::alloc::{AllocError, AllocFailed};

/// Why the instructions of a region cannot be bound to a machine: the first that it does not run.
#[derive(Clone, Copy, Debug, PartialEq, Eq)]
pub enum BindFault {
    /// The machine has no class for the opcode.
    NoWriteRes(Op),
    /// Its class is marked as not supported.
    UnsupportedOp(Op),
    /// There was no memory.
    Memory,
}

impl From<NoMemory> for BindFault {
    ghost from_gives = { λ _ f. f ≡ Memory };

    fn from(_: NoMemory) -> BindFault {
        BindFault::Memory
    }
}

impl From<AllocError> for BindFault {
    ghost from_gives = { λ _ f. f ≡ Memory };

    fn from(_: AllocError) -> BindFault {
        BindFault::Memory
    }
}

impl<T: Drop> From<AllocFailed<T>> for BindFault {
    ghost from_gives = { λ _ f. f ≡ Memory };

    fn from(_: AllocFailed<T>) -> BindFault {
        BindFault::Memory
    }
}
