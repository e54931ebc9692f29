//! The machine of a table without an illness.
ghost use Rattle.std.specs.Prelude.{◌≡◌};
ghost use Rattle.machine_model.specs.Valid.{IsValidMachine};
ghost use Rattle.mca_fixed.specs.declared.limits.TheConstants.{MOST_UNITS};
ghost use Rattle.sched_validate.specs.MachineNumbers.{AreNumbers};
ghost use Rattle.sched_validate.specs.Machine.{machine_of};

use crate::machine_numbers::MachineNumbers;
use machine_model::{ClassAnswer, FileShare, Limits, Machine, Tuning, UnitOwner, WriteFacts};
use mca_fixed::MOST_UNITS;
use rv_isa::{Op, Reg};
use sched_resolve::Entries;
use unit_sets::{UnitMask, UnitSet};

/// A table that was checked: a machine. Its units are numbered below 256.
///
/// Its answers are looked up in the numbers alone. The entries and the tuning stay beside them for what the machine
/// means: contracts tell it by them, and a struct has no field that only contracts see.
#[derive(Drop)]
pub struct CheckedTable {
    entries: Entries,
    tuning: Tuning,
    numbers: MachineNumbers,
    ghost right: { AreNumbers entries.list entries.defaults tuning numbers },
    ghost valid: { IsValidMachine MOST_UNITS MOST_UNITS (machine_of entries.list entries.defaults tuning) },
}

impl CheckedTable {
    /// The machine of these entries, which keep it.
    pub(crate) fn new(entries: Entries, tuning: Tuning, numbers: MachineNumbers) -> CheckedTable
        requires right { AreNumbers entries.list entries.defaults tuning numbers }
        requires valid { IsValidMachine MOST_UNITS MOST_UNITS (machine_of entries.list entries.defaults tuning) }
        ensures entries { result.entries ≡ entries }
        ensures tuning { result.tuning ≡ tuning }
    {
        CheckedTable {
            entries,
            tuning,
            numbers,
        }
    }
}

impl Machine for CheckedTable {
    ghost use Rattle.mca_fixed.specs.declared.limits.TheConstants.{MOST_UNITS};
    ghost use Rattle.sched_validate.specs.Machine.{machine_of};

    const UNITS: usize = MOST_UNITS;

    ghost UNITS = { MOST_UNITS };

    type Mask = UnitSet;

    ghost meaning = { λ t. machine_of t.entries.list t.entries.defaults t.tuning };

    fn limits(&self) -> Limits {
        self.numbers.limits
    }

    fn resource_count(&self) -> usize {
        self.numbers.buffers.len()
    }

    fn buffer(&self, r: usize) -> i32 {
        self.numbers.buffers.as_slice()[r]
    }

    fn mask(&self, r: usize) -> UnitSet {
        self.numbers.masks.as_slice()[r]
    }

    fn resource_name(&self, r: usize) -> &str {
        self.numbers.names.as_slice()[r].as_str()
    }

    fn owner(&self, unit: usize) -> Option<UnitOwner> {
        self.numbers.owners.as_slice()[unit]
    }

    fn file_count(&self) -> usize {
        self.numbers.sizes.len()
    }

    fn file_size(&self, f: usize) -> u32 {
        match self.numbers.sizes.as_slice().get(f) {
            Some(size) => *size,
            None => 0,
        }
    }

    fn file_of(&self, rd: Reg) -> Option<FileShare> {
        self.numbers.shares.as_slice()[rd.number() as usize]
    }

    fn class_of(&self, op: Op) -> ClassAnswer {
        self.numbers.classes.as_slice()[op.number()]
    }

    fn write_count(&self) -> usize {
        self.numbers.writes.len()
    }

    fn read_count(&self) -> usize {
        self.numbers.read_count
    }

    fn class(&self, k: u16) -> WriteFacts {
        self.numbers.writes.as_slice()[k as usize]
    }

    fn advance(&self, read: u16, write: u16) -> i32 {
        self.numbers.advances.after(read as usize, write as usize)
    }

    ghost valid = { λ t. t.valid };
}
