//! The instructions of RV64IM: one table of opcodes, their operands, and how an instruction is spelled.
//!
//! The rules are those of the RISC-V Unprivileged ISA, chapters RV32I, RV64I and M. The default
//! scheduling classes are this project's own.
#![tactic(auto)]

mod facts;
mod instr;
mod law;
mod op;
pub mod ranges;
mod reg;
mod registers;
mod sets;
mod spelling;
mod table;

pub use facts::{ClassNames, Form, ImmRange, Kind};
pub use instr::{Imm, Instr, is_lawful, is_lawful_imm, reads, writes};
pub use law::{each_opcode_once, one_instruction_a_spelling};
pub use op::Op;
pub use reg::Reg;
pub use registers::{register_name, register_of};
pub use sets::{set_name, set_of};
pub use spelling::spell;
pub use table::{
    default_class, form, has_side_effects, imm_range, is_barrier, is_in_range, is_load, is_store,
    kind, mnemonic, op_of,
};
