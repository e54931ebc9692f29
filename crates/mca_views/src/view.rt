//! What a view shows.

use cycle_rules::{Bound, Timeline};
use machine_model::Machine;
use mca_fixed::Name;
use rv_isa::Instr;

/// A region with its run: what a view shows.
#[derive(Drop)]
pub struct View<'a, M: Machine> {
    /// The machine of the run.
    pub machine: &'a M,
    /// The instructions of the region, as they are spelled.
    pub code: &'a [Instr],
    /// The texts of their symbols.
    pub names: &'a [Name],
    /// The same instructions with the numbers of their classes.
    pub body: &'a [Bound],
    /// How often the body is repeated, 1 or more.
    pub iterations: u32,
    /// When each row does what: one for each instruction and iteration.
    pub run: &'a Timeline,
}
