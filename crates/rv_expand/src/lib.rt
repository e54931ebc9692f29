//! Pseudo-instructions and alias forms, and the instructions that stand for them.
//!
//! The forms are those of the RISC-V Assembly Programmer's Manual; the list that stands for a constant is
//! this project's own choice among many.
#![tactic(auto)]

mod constant;
mod expansion;
mod forms;
mod law;
mod pseudo;
mod value;

pub use constant::li;
pub use expansion::expand;
pub use law::constants_by_quotients;
pub use pseudo::{Operand, Operands, Pseudo, PseudoKind};
pub use value::evaluate;
