//! How much a table may have.

/// The greatest number of records.
pub const MOST_RECORDS: usize = 8_192;

/// The greatest number of `let` scopes around a place.
pub(crate) const MOST_SCOPES: usize = 16;
