//! The words of the command line: which options there are, and what the words give them.
//!
//! words → pieces (word: an option with its value, or an input) → settings (value: each value, or its first
//! fault) → options. Which options there are, is told in specs/Table; what words are answered, in
//! specs/FirstFault.
#![tactic(auto)]

mod fault;
mod laws;
mod options;
mod read;
mod settings;
mod table;
mod value;
mod word;

pub use fault::{WordFault, WordKind};
pub use laws::{load_stands_alone, one_answer, options_in_range};
pub use options::Options;
pub use read::read_words;
