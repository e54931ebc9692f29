//! The records that are read so far.
ghost use Rattle.std.specs.Prelude.{◌≡◌, [], ◌∷◌, ◌++◌, length, OnOk};
ghost use Rattle.sched_records.specs.RecordNames.{has_name};

use crate::records::{Record, Records};
use indexmap::IndexSet;
use mca_fixed::NoMemory;
use std::alloc::Global;
use std::marker::Model;

/// Records in the order of their `def`s, with their names in a set. Contracts see the list.
#[derive(Drop)]
pub struct RecordsSoFar {
    records: Vec<Record>,
    names: IndexSet<Vec<u8>>,
}

impl Model for RecordsSoFar {
    ghost use Rattle.std.specs.Prelude.{List, ℕ, ◌≡◌, nat_eq};
    ghost use Rattle.std.specs.Cmp.Lexicographic.{pointwise};
    ghost use Rattle.std.specs.List.{list_any};
    ghost use Rattle.sched_records.specs.declared.records.Record.{Record};
    ghost use Rattle.sched_records.specs.RecordNames.{has_name};

    ghost Value = { List Record };

    ghost view = { λ s. s.records.items };

    ghost invariant = { λ s. (n : List ℕ) → list_any (λ k. pointwise nat_eq n k.items) s.names.keys ≡ has_name s.records.items n };
}

impl RecordsSoFar {
    pub fn new(alloc: Global) -> RecordsSoFar
        ensures { result ≡ [] }
    {
        RecordsSoFar {
            records: Vec::new(alloc),
            names: IndexSet::new(alloc),
        }
    }

    pub fn len(&self) -> usize
        ensures { result ≡ length self.now }
    {
        self.records.as_slice().len()
    }

    /// Whether a record has the name.
    pub fn has_name(&self, name: &[u8]) -> bool
        ensures { result ≡ has_name self.now name.now }
    {
        self.names.contains(name)
    }

    /// Adds a record at the end.
    pub fn push(&mut self, alloc: Global, new: Record) -> Result<(), NoMemory>
        ensures { OnOk result (self.new ≡ self.old ++ new ∷ []) }
    {
        self.records.reserve(1)?;
        self.names
            .insert(Vec::from_slice(alloc, new.name.as_bytes())?)?;
        match self.records.push(new) {
            Ok(()) => Ok(()),
            Err(_) => unreachable!(),
        }
    }

    pub fn into_records(self) -> Records
        ensures { result ≡ self }
    {
        let RecordsSoFar { records, names: _ } = self;
        Records::from_vec(records)
    }
}
