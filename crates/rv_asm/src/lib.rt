//! The program of an assembly text: its instructions, its marks and its names, or the fault that comes
//! first.
//!
//! The texts are those that GNU's assembler and LLVM's take for RV64IM (RISC-V Assembly Programmer's
//! Manual), without macros, conditions and inclusions; the marks are those of the LLVM Command Guide,
//! llvm-mca, on code regions.
//!
//! text → pieces (comments, strings, separators, bytes) → statements behind their labels → what each
//! means (a form of the table and its operands) → items and names, or faults. What a text has is told in
//! specs/Program; which forms there are, in specs/Table; the order of the faults, in specs/Faults.
#![tactic(auto)]

// The text: classes of bytes, pieces, marks in comments, statements.
mod behind_labels;
mod class;
mod mark;
mod pieces;
mod statement;

// The operands: where they stand, numbers, symbols, and what each may be.
mod accept;
mod number;
mod operand;
mod split;
mod symbol;

// The forms of the mnemonics, and what a statement means.
mod form;
mod instruction;
mod table;

// What is read: faults, items, names, and the reader's state.
mod fault;
mod item;
mod items;
mod laws;
mod listing;
mod names;
mod read;
mod state;

pub use fault::{AsmKind, AsmRefusal};
pub use item::{AsmText, Item};
pub use laws::{
    comma_parts_are_the_text, one_answer, one_cut, one_form_fits, printed_numbers_are_read,
    spelled_lines_are_read, spelling_is_read, symbols_are_symbolic,
};
pub use listing::{ItemRef, Listing};
pub use read::read_asm;
