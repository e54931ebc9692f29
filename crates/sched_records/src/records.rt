//! Records and their values, as a table gives them.

use crate::shared::Shared;
use mca_fixed::{Items, Name};

/// What stands alone or in a list.
#[derive(Debug, Drop)]
pub enum Atom {
    Number(i64),
    /// A string, by the bytes between its `"` as they stand in the text.
    Quoted(Name),
    /// A name, `true` and `false` among them.
    Word(Name),
}

/// The value of a field or an argument.
#[derive(Debug, Drop)]
pub enum Value {
    One(Atom),
    List(Items<Atom>),
    /// The names of `(instrs ..)`.
    Instrs(Items<Name>),
}

/// A field that a body or a scope gives to a record. A scope gives one value to all records inside.
#[derive(Debug, Drop)]
pub struct Member {
    pub name: Name,
    pub value: Shared<Value>,
}

/// A record of a table: its class, its name, which is empty where the `def` has none, its arguments,
/// and its members in the byte order of their names. A field that is no member has its default.
#[derive(Debug, Drop)]
pub struct Record {
    pub class: Name,
    pub name: Name,
    pub args: Items<Value>,
    pub members: Items<Member>,
}

/// The records of a table, in the order of their `def`s.
pub type Records = Items<Record>;
