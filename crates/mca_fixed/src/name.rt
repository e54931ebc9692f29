//! A name as it was read: any bytes.
ghost use Rattle.std.specs.Prelude.{◌≡◌, length, nat_eq, IfOk};

use crate::memory::NoMemory;
use std::alloc::Global;
use std::marker::Model;

/// A name of a region, a symbol, a record or a field, as its bytes were read. It need not be UTF-8.
/// The empty name says, where a format allows it, that there is no name.
#[derive(Debug, Drop)]
pub struct Name {
    bytes: Vec<u8>,
}

impl Model for Name {
    ghost use Rattle.std.specs.Prelude.{List, ℕ};

    ghost Value = { List ℕ };

    ghost view = { λ s. s.bytes.items };
}

impl Name {
    /// The name of these bytes. Takes no memory.
    pub fn from_vec(bytes: Vec<u8>) -> Name
        ensures { result ≡ bytes.items }
    {
        Name { bytes }
    }

    /// A copy of these bytes as a name.
    pub fn from_bytes(alloc: Global, bytes: &[u8]) -> Result<Name, NoMemory>
        ensures { IfOk result (λ name. name ≡ bytes.now) }
    {
        Ok(Name::from_vec(Vec::from_slice(alloc, bytes)?))
    }

    /// The bytes, given back. Takes no memory.
    pub fn into_vec(self) -> Vec<u8>
        ensures { result.items ≡ self }
    {
        let Name { bytes } = self;
        bytes
    }

    /// The bytes.
    pub fn as_bytes(&self) -> &[u8]
        ensures { result.now ≡ self.now }
    {
        self.bytes.as_slice()
    }

    /// Whether it has no byte.
    pub fn is_empty(&self) -> bool
        ensures { result ≡ nat_eq (length self.now) 0 }
    {
        self.bytes.as_slice().is_empty()
    }
}
