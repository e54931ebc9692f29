//! The records of a flat scheduling table.
//!
//! A text is cut into pieces, and these are read as tokens with their lines. Tokens make numbers, atoms
//! and values, each value of the form that its field or argument wants. Phrases take a text forward:
//! the head of a record, an argument, a `let` of a body, a field of a scope. What they come to is kept as
//! records, whose members the body and the scopes around it give.
//!
//! What a text has is defined in specs/Table: its phrases, one after the other, up to the first fault.
#![tactic(auto)]

// what a table may have
mod class;
mod field;
mod limits;
mod records;
mod refusal;
mod shared;
// bytes, pieces, tokens
mod piece;
mod tokens;
// values
mod form;
mod grammar;
mod number;
mod value;
// phrases
mod given;
mod heads;
mod items;
// what is kept
mod known;
mod members;
mod scopes;
mod so_far;
// a whole table
mod table;

pub use class::{Class, class_of};
pub use field::{Field, field_of};
pub use limits::MOST_RECORDS;
pub use records::{Atom, Member, Record, Records, Value};
pub use refusal::{TableKind, TableRefusal};
pub use shared::Shared;
pub use table::{few_records, members_in_order, one_answer, read_table};
