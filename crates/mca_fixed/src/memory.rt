//! Want of memory, the one answer that no input causes.

use std::alloc::{AllocError, AllocFailed};
use std::error::Error;
use std::fmt;

/// No memory was to be had. A call that answers it has changed nothing of what it was given, unless
/// its own documentation says what stands then.
#[derive(Clone, Copy, Debug, PartialEq, Eq)]
pub struct NoMemory;

impl fmt::Display for NoMemory {
    ghost use Rattle.std.specs.Prelude.{Some};
    ghost use Rattle.mca_fixed.specs.Texts.{no_memory_text};

    ghost output = { λ wanted. Some (no_memory_text wanted) };

    fn fmt<W: fmt::Write>(&self, f: &mut fmt::Formatter<W>) -> fmt::Result {
        write!(f, "out of memory")
    }
}

impl Error for NoMemory {}

impl From<AllocError> for NoMemory {
    fn from(_: AllocError) -> NoMemory {
        NoMemory
    }
}

impl<T: Drop> From<AllocFailed<T>> for NoMemory {
    fn from(_: AllocFailed<T>) -> NoMemory {
        NoMemory
    }
}
