//! The options that there are.
ghost use Rattle.std.specs.Prelude.{◌≡◌, map};
ghost use Rattle.mca_words.specs.Table.{option_row, form_in, form_of, default_number, default_truth};

use mca_fixed::{MOST_ENTRIES, MOST_REGISTERS, MOST_ROWS};

/// What the value of an option is, and its default.
#[derive(Clone, Copy, Debug, PartialEq, Eq)]
pub enum ValueForm {
    /// The name of a file. There is none without the option.
    FileName,
    /// The name of a built-in machine. There is none without the option.
    MachineName,
    /// A number of at most the first, and the second without the option.
    NumberUpTo(u32, u32),
    /// A number of at most this one. There is none without the option.
    OptionalNumber(u32),
    /// A truth, and this one without the option.
    TruthValue(bool),
}

/// An option: its name without dashes, and the form of its value.
#[derive(Clone, Copy)]
pub struct Row {
    pub name: &'static str,
    pub form: ValueForm,
}

/// The rows of the table, each as a name and the form of the value.
macro_rules! rows {
    ($($name:literal: $form:ident $(($($bound:expr),*))?;)*) => {
        [$(Row {
            name: $name,
            form: ValueForm::$form $(($($bound),*))?,
        }),*]
    };
}

pub(crate) const TABLE: [Row; 15] = rows![
    "table": FileName;
    "mcpu": MachineName;
    "iterations": NumberUpTo(MOST_ROWS as u32, 100);
    "dispatch": NumberUpTo(64, 0);
    "register-file-size": NumberUpTo(MOST_REGISTERS, 0);
    "lqueue": NumberUpTo(MOST_ENTRIES, 0);
    "squeue": NumberUpTo(MOST_ENTRIES, 0);
    "noalias": TruthValue(true);
    "instruction-info": TruthValue(true);
    "resource-pressure": TruthValue(true);
    "timeline": TruthValue(false);
    "timeline-max-iterations": NumberUpTo(MOST_ROWS as u32, 10);
    "timeline-max-cycles": NumberUpTo(1_000_000, 80);
    "bottleneck-analysis": TruthValue(false);
    "load": OptionalNumber(4_294_967_295);
];

// The form of the option with this name, where a table has it.
fn form_among(rows: &[Row], name: &[u8]) -> Option<ValueForm>
    ensures { result ≡ form_in (map option_row rows.now) name.now }
{
    for row in rows {
        if name == row.name.as_bytes() {
            return Some(row.form);
        }
    }
    None
}

/// The form of the option with this name, where there is one.
pub(crate) fn form_of(name: &[u8]) -> Option<ValueForm>
    ensures { result ≡ form_of name.now }
{
    form_among(&TABLE, name)
}

/// The number of an option that was not given.
pub(crate) fn default_number(name: &[u8]) -> u32
    ensures { result ≡ default_number (form_of name.now) }
{
    match form_of(name) {
        Some(ValueForm::NumberUpTo(_, default)) => default,
        _ => 0,
    }
}

/// The truth of an option that was not given.
pub(crate) fn default_truth(name: &[u8]) -> bool
    ensures { result ≡ default_truth (form_of name.now) }
{
    match form_of(name) {
        Some(ValueForm::TruthValue(default)) => default,
        _ => false,
    }
}
