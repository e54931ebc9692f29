//! Why a case, or the program, stops.
use mca_fixed::NoMemory;
use std::alloc::{AllocError, AllocFailed, Global};
use std::io;

/// Why there is no answer.
#[derive(Debug, Drop)]
pub(crate) enum Fault {
    /// A case, or a file that it names, is not written as it should be: what is wrong, and where.
    Wrong(String),
    /// The system did not give the words of the command line, or took no output.
    System(io::Error),
    /// There was no memory.
    Memory,
}

impl From<io::Error> for Fault {
    fn from(error: io::Error) -> Fault {
        Fault::System(error)
    }
}

impl From<AllocError> for Fault {
    fn from(_: AllocError) -> Fault {
        Fault::Memory
    }
}

impl From<NoMemory> for Fault {
    fn from(_: NoMemory) -> Fault {
        Fault::Memory
    }
}

impl<T: Drop> From<AllocFailed<T>> for Fault {
    fn from(_: AllocFailed<T>) -> Fault {
        Fault::Memory
    }
}

/// The fault of a case that is not written as it should be. Want of memory for its text is told in its place.
pub(crate) fn wrong(alloc: Global, what: &str, place: &str) -> Fault {
    match format!(in alloc; "{what}: {place}") {
        Ok(text) => Fault::Wrong(text),
        Err(_) => Fault::Memory,
    }
}
