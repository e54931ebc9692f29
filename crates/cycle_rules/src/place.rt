//! Where a table of times is not as the rules say.

/// A field of a row, in the order in which the fields are judged.
#[derive(Clone, Copy, Debug, PartialEq, Eq)]
pub enum Field {
    Dispatch,
    Issue,
    Complete,
    Retire,
    Units,
}

/// A field of a row of a table.
#[derive(Clone, Copy, Debug, PartialEq, Eq)]
pub struct Place {
    /// The row, counted from 0.
    pub row: u32,
    pub field: Field,
}
