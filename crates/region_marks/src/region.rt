//! A region of a program.

use mca_fixed::Name;

/// A part of a program that is analysed by itself.
#[derive(Debug, Drop)]
pub struct Region {
    /// Its name, as its BEGIN has it; the empty name means none.
    pub name: Name,
    /// The number of its first instruction among all instructions of the text, from 0.
    pub first: u32,
    /// How many instructions it has, 1 to 4,096.
    pub count: u32,
}
