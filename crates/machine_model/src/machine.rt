//! What every machine answers, whatever it is made of.
ghost use Rattle.std.specs.Prelude.{◌≡◌, ℕ, ◌<◌, ◌⊎◌};
ghost use Rattle.machine_model.specs.Meaning.{MachineMeaning};
ghost use Rattle.machine_model.specs.Valid.{IsValidMachine};

use crate::answers::{ClassAnswer, NO_CLASS, UnitOwner};
use crate::facts::{FileShare, WriteFacts};
use crate::limits::Limits;
use rv_isa::{Op, Reg};
use unit_sets::UnitMask;

/// A machine: its numbers, by calls that each take no memory and no longer than a look in a table. The
/// ghost member `meaning` is what they tell together, and by the law `valid` it keeps the ranges and the
/// promises that engines and reports rest on.
pub trait Machine {
    /// Units are the numbers below this.
    const UNITS: usize;

    ghost UNITS: { ℕ };

    /// A set of units.
    type Mask: UnitMask;

    ghost meaning: { Self → MachineMeaning };

    /// Its widths and bounds.
    fn limits(&self) -> Limits
        ensures { result ≡ (meaning self.now).limits };

    /// Resources are the numbers below this, at most 64.
    fn resource_count(&self) -> usize
        ensures { result ≡ (meaning self.now).resource_count };

    /// The buffer of a resource: -1 counts no entries, 0 makes it reserved, and 1 to 4,096 bounds the rows
    /// that wait for it.
    fn buffer(&self, r: usize) -> i32
        requires { r < (meaning self.now).resource_count }
        ensures { result ≡ (meaning self.now).buffer r };

    /// The units of a resource.
    fn mask(&self, r: usize) -> Self::Mask
        requires { r < (meaning self.now).resource_count }
        ensures { (u : ℕ) → Self.Mask.holds result u ≡ (meaning self.now).units r u };

    /// The name of a resource; empty where it has none.
    fn resource_name(&self, r: usize) -> &str
        requires { r < (meaning self.now).resource_count }
        ensures { result.now ≡ (meaning self.now).resource_name r };

    /// The resource that a unit belongs to; none where no resource but groups has it.
    fn owner(&self, unit: usize) -> Option<UnitOwner>
        requires { unit < UNITS }
        ensures { result ≡ (meaning self.now).owner unit };

    /// Register files are the numbers below this, at most 8.
    fn file_count(&self) -> usize
        ensures { result ≡ (meaning self.now).file_count };

    /// The physical registers of a register file, at most 65,536; 0 for no bound, and where there is no
    /// such file.
    fn file_size(&self, f: usize) -> u32
        ensures { result ≡ (meaning self.now).file_size f };

    /// The register file that holds a register, and what a write of it costs there; none where no file does.
    fn file_of(&self, rd: Reg) -> Option<FileShare>
        ensures { result ≡ (meaning self.now).file_of rd };

    /// The scheduling classes of an opcode.
    fn class_of(&self, op: Op) -> ClassAnswer
        ensures { result ≡ (meaning self.now).class_of op };

    /// Write classes are the numbers below this, at most 65,535.
    fn write_count(&self) -> usize
        ensures { result ≡ (meaning self.now).write_count };

    /// Read classes are the numbers below this, at most 65,535.
    fn read_count(&self) -> usize
        ensures { result ≡ (meaning self.now).read_count };

    /// The numbers of a write class.
    fn class(&self, k: u16) -> WriteFacts
        requires { k < (meaning self.now).write_count }
        ensures { result ≡ (meaning self.now).class k };

    /// By how many cycles a read of a class comes before the completion of a write of a class, -1,000 to
    /// 1,000; 0 for `NO_CLASS`.
    fn advance(&self, read: u16, write: u16) -> i32
        requires read { (read < (meaning self.now).read_count) ⊎ (read ≡ NO_CLASS) }
        requires write { write < (meaning self.now).write_count }
        ensures { result ≡ (meaning self.now).advance read write };

    ghost valid: { (m : Self) → IsValidMachine UNITS Self.Mask.SIZE (meaning m) };
}
