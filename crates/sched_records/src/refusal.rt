//! Why a table has no records, and at which line.
ghost use Rattle.std.specs.Prelude.{◌≡◌};
ghost use Rattle.sched_records.specs.declared.refusal.TableKind.TheVariants.{Memory};
ghost use Rattle.sched_records.specs.KindNames.{kind_name};

use mca_fixed::NoMemory;
use std::alloc::{AllocError, AllocFailed};
use std::error::Error;
use std::fmt;

/// What is wrong with a table. All but `Memory` are faults of the text.
#[derive(Clone, Copy, Debug, PartialEq, Eq)]
pub enum TableKind {
    /// A token, a byte or the end of the text that cannot stand where it stands.
    Syntax,
    /// A word or a sign of TableGen whose expansion is TableGen's own work.
    NotFlat,
    /// A class that is no class of scheduling records.
    UnknownRecord,
    /// A field that the class lacks, or, in a scope, that no class has.
    UnknownField,
    /// A value of the wrong form, a number beyond 64 bits, an argument too many or too few.
    BadValue,
    /// A field that is given twice in one body or one `let` list.
    RepeatedField,
    /// A second `def` of a name.
    RepeatedName,
    /// More records, or more scopes in one another, than a table may have.
    TooMany,
    /// No memory was to be had.
    Memory,
}

impl TableKind {
    /// The kind's name, as an error line prints it.
    pub fn name(self) -> &'static str
        ensures { result.now ≡ kind_name self }
    {
        match self {
            TableKind::Syntax => "Syntax",
            TableKind::NotFlat => "NotFlat",
            TableKind::UnknownRecord => "UnknownRecord",
            TableKind::UnknownField => "UnknownField",
            TableKind::BadValue => "BadValue",
            TableKind::RepeatedField => "RepeatedField",
            TableKind::RepeatedName => "RepeatedName",
            TableKind::TooMany => "TooMany",
            TableKind::Memory => "Memory",
        }
    }
}

/// The first fault of a table and the line of its token, counted from 1; or want of memory, with line 0.
#[derive(Clone, Copy, Debug, PartialEq, Eq)]
pub struct TableRefusal {
    pub line: u32,
    pub kind: TableKind,
}

impl TableRefusal {
    const NO_MEMORY: TableRefusal = TableRefusal {
        line: 0,
        kind: TableKind::Memory,
    };
}

/// `line`, the line's number, a colon and the kind's name.
impl fmt::Display for TableRefusal {
    ghost use Rattle.std.specs.Prelude.{Some};
    ghost use Rattle.sched_records.specs.KindNames.{refusal_text};

    ghost output = { λ refusal. Some (refusal_text refusal) };

    fn fmt<W: fmt::Write>(&self, f: &mut fmt::Formatter<W>) -> fmt::Result {
        write!(f, "line {}: {}", self.line, self.kind.name())
    }
}

impl Error for TableRefusal {}

impl From<NoMemory> for TableRefusal {
    ghost from_gives = { λ _ e. e ≡ record { line = 0; kind = Memory } };

    fn from(_: NoMemory) -> TableRefusal {
        TableRefusal::NO_MEMORY
    }
}

impl From<AllocError> for TableRefusal {
    ghost from_gives = { λ _ e. e ≡ record { line = 0; kind = Memory } };

    fn from(_: AllocError) -> TableRefusal {
        TableRefusal::NO_MEMORY
    }
}

impl<T: Drop> From<AllocFailed<T>> for TableRefusal {
    ghost from_gives = { λ _ e. e ≡ record { line = 0; kind = Memory } };

    fn from(_: AllocFailed<T>) -> TableRefusal {
        TableRefusal::NO_MEMORY
    }
}
