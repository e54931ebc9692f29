//! What can be wrong with the words of a command line.
ghost use Rattle.std.specs.Prelude.{◌≡◌};
ghost use Rattle.mca_words.specs.Kinds.{kind_name};

use mca_fixed::NoMemory;
use std::alloc::{AllocError, AllocFailed};
use std::error::Error;
use std::fmt;

/// A fault of a word. For one word the first kind that holds is answered, in the order in which they
/// stand here.
#[derive(Clone, Copy, Debug, PartialEq, Eq)]
pub enum WordKind {
    /// The word is one or two dashes alone, or no option has its name.
    UnknownOption,
    /// The option stood in an earlier word.
    Repeated,
    /// The option needs a value, and has none or an empty one.
    MissingValue,
    /// The value is not one or more decimal digits, or for a truth not `true`, `false`, `1` or `0`.
    BadNumber,
    /// The number is above the option's range.
    OutOfRange,
    /// The value is not the name of a built-in machine.
    UnknownMachine,
    /// Both `-table` and `-mcpu` stand.
    TwoMachines,
    /// `-load` and another option, or `-load` and an input, were both read.
    NotTogether,
    /// A second word is no option.
    TooManyInputs,
    /// After all words, none was an input, and `-load` did not stand.
    NoInput,
    /// After all words, none of `-table`, `-mcpu` and `-load` stood.
    NoMachine,
    /// No memory was to be had.
    Memory,
}

impl WordKind {
    /// The kind's name, as an error line prints it.
    pub fn name(self) -> &'static str
        ensures { result.now ≡ kind_name self }
    {
        match self {
            WordKind::UnknownOption => "UnknownOption",
            WordKind::Repeated => "Repeated",
            WordKind::MissingValue => "MissingValue",
            WordKind::BadNumber => "BadNumber",
            WordKind::OutOfRange => "OutOfRange",
            WordKind::UnknownMachine => "UnknownMachine",
            WordKind::TwoMachines => "TwoMachines",
            WordKind::NotTogether => "NotTogether",
            WordKind::TooManyInputs => "TooManyInputs",
            WordKind::NoInput => "NoInput",
            WordKind::NoMachine => "NoMachine",
            WordKind::Memory => "Memory",
        }
    }
}

/// The first fault of a command line.
#[derive(Clone, Copy, Debug, PartialEq, Eq)]
pub struct WordFault {
    /// The number of the word, from 1. A fault of a value that is the next word has the option's
    /// number; one that shows after all words has their count and one. It is 0 for `Memory`.
    pub word: u64,
    /// What is wrong.
    pub kind: WordKind,
}

impl WordFault {
    pub(crate) const NO_MEMORY: WordFault = WordFault {
        word: 0,
        kind: WordKind::Memory,
    };
}

/// `word`, the word's number, a colon and the kind's name.
impl fmt::Display for WordFault {
    ghost use Rattle.std.specs.Prelude.{Some};
    ghost use Rattle.mca_words.specs.Kinds.{fault_text};

    ghost output = { λ fault. Some (fault_text fault) };

    fn fmt<W: fmt::Write>(&self, f: &mut fmt::Formatter<W>) -> fmt::Result {
        write!(f, "word {}: {}", self.word, self.kind.name())
    }
}

impl Error for WordFault {}

impl From<NoMemory> for WordKind {
    ghost use Rattle.mca_words.specs.declared.fault.WordKind.TheVariants.{Memory};

    ghost from_gives = { λ _ kind. kind ≡ Memory };

    fn from(_: NoMemory) -> WordKind {
        WordKind::Memory
    }
}

impl From<AllocError> for WordKind {
    ghost use Rattle.mca_words.specs.declared.fault.WordKind.TheVariants.{Memory};

    ghost from_gives = { λ _ kind. kind ≡ Memory };

    fn from(_: AllocError) -> WordKind {
        WordKind::Memory
    }
}

impl From<NoMemory> for WordFault {
    ghost use Rattle.mca_words.specs.declared.fault.WordKind.TheVariants.{Memory};

    ghost from_gives = { λ _ fault. fault ≡ record { word = 0; kind = Memory } };

    fn from(_: NoMemory) -> WordFault {
        WordFault::NO_MEMORY
    }
}

impl<T: Drop> From<AllocFailed<T>> for WordFault {
    ghost use Rattle.mca_words.specs.declared.fault.WordKind.TheVariants.{Memory};

    ghost from_gives = { λ _ fault. fault ≡ record { word = 0; kind = Memory } };

    fn from(_: AllocFailed<T>) -> WordFault {
        WordFault::NO_MEMORY
    }
}
