//! What a text has: its instructions and its marks.

use crate::listing::Listing;
use mca_fixed::{Items, Name};
use rv_isa::Instr;

/// An item of a text, with its line, from 1.
#[derive(Debug, Drop)]
pub enum Item {
    /// An instruction.
    Code(u32, Instr),
    /// A region begins, under a name; the empty name means none.
    Begin(u32, Name),
    /// A region ends, under a name; the empty name means none.
    End(u32, Name),
}

/// The program of a text: its items in the order of their places, and the names of its symbols.
#[derive(Debug, Drop)]
pub struct AsmText {
    pub items: Listing,
    /// The symbolic immediates, in the order of their first appearance: the number of each is its place.
    pub names: Items<Name>,
}
