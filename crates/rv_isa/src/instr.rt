//! Instructions.
ghost use Rattle.std.specs.Prelude.{◌≡◌, ◌∷◌, []};
ghost use Rattle.rv_isa.specs.Instruction.{is_lawful, is_lawful_imm, is_lawful_register, is_lawful_with, reads_of, writes_of};
ghost use Rattle.rv_isa.specs.Opcodes.{facts_of};

use crate::facts::Form;
use crate::op::Op;
use crate::reg::Reg;
use crate::table::{form, imm_range, is_in_range};

/// An immediate.
#[derive(Clone, Copy, Debug, PartialEq, Eq)]
pub enum Imm {
    /// The opcode has none.
    None,
    /// A number. For `fence` it is 16 times the predecessor set plus the successor set.
    Value(i64),
    /// A symbolic immediate, as the number of its text in the list of names that goes with the instruction.
    Symbol(u32),
}

/// An instruction. A register that its opcode lacks is `zero`.
#[derive(Clone, Copy, Debug, PartialEq, Eq)]
pub struct Instr {
    pub op: Op,
    pub rd: Reg,
    pub rs1: Reg,
    pub rs2: Reg,
    pub imm: Imm,
}

/// The registers that `instr` reads, `rs1` and then `rs2`; `zero` stands for none.
pub fn reads(instr: &Instr) -> [Reg; 2]
    ensures { result ≡ reads_of instr.now }
{
    let form = form(instr.op);
    let first = if form.has_rs1() {
        instr.rs1
    } else {
        Reg::zero()
    };
    let second = if form.has_rs2() {
        instr.rs2
    } else {
        Reg::zero()
    };
    [first, second]
}

/// The register that `instr` writes; `zero` stands for none.
pub fn writes(instr: &Instr) -> Reg
    ensures { result ≡ writes_of instr.now }
{
    if form(instr.op).has_rd() {
        instr.rd
    } else {
        Reg::zero()
    }
}

/// Whether `instr` can be written down: the registers that its opcode lacks are `zero`, and its immediate
/// is `Imm::None` where the opcode has none, else a number in range, or a symbol where the opcode takes one.
pub fn is_lawful(instr: &Instr) -> bool
    ensures { result ≡ is_lawful instr.now }
{
    are_lawful(form(instr.op), instr) && is_lawful_imm(instr.op, instr.imm)
}

fn are_lawful(form: Form, instr: &Instr) -> bool
    ensures { result ≡ is_lawful_with form instr.now }
{
    is_lawful_register(form.has_rd(), instr.rd)
        && is_lawful_register(form.has_rs1(), instr.rs1)
        && is_lawful_register(form.has_rs2(), instr.rs2)
}

fn is_lawful_register(there: bool, register: Reg) -> bool
    ensures { result ≡ is_lawful_register there register }
{
    register.number() < if there { 32 } else { 1 }
}

/// Whether the opcode can have this immediate: `Imm::None` where it has none, else a number in range, or a
/// symbol where it takes one.
pub fn is_lawful_imm(op: Op, imm: Imm) -> bool
    ensures { result ≡ is_lawful_imm op imm }
{
    match imm {
        Imm::None => imm_range(op).is_none(),
        Imm::Value(number) => is_in_range(op, number),
        Imm::Symbol(_) => form(op).takes_symbol(),
    }
}
