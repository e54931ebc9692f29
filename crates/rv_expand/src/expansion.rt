//! The instructions that stand for a pseudo-instruction.
ghost use Rattle.std.specs.Prelude.{◌≡◌, ◌≢◌, ◌∷◌, [], true, IfOk};
ghost use Rattle.std.specs.List.{list_all};
ghost use Rattle.rv_isa.specs.Instruction.{is_lawful};
ghost use Rattle.rv_expand.specs.Expansion.{expansion, loaded};
ghost use Rattle.rv_expand.specs.Operands.{fits, is_that};

use crate::constant::li;
use crate::forms::{branch, number, one, three, two};
use crate::pseudo::{Operand, Pseudo, PseudoKind};
use mca_fixed::NoMemory;
use rv_isa::{Imm, Instr, Op, Reg};
use std::alloc::Global;

/// The instructions that stand for `pseudo`, in the order in which they run. Each is lawful.
pub fn expand(alloc: Global, pseudo: &Pseudo) -> Result<Vec<Instr>, NoMemory>
    requires { fits pseudo.now ≡ true }
    ensures list { IfOk result (λ list. list.items ≡ expansion pseudo.now) }
    ensures lawful { IfOk result (λ list. list_all is_lawful list.items ≡ true) }
{
    if let PseudoKind::Li = pseudo.kind {
        return loaded(alloc, pseudo.rd, pseudo.imm);
    }
    prove!(pseudo.rd.number() < 32);
    prove!(pseudo.rs1.number() < 32);
    prove!(pseudo.rs2.number() < 32);
    renamed(alloc, pseudo)
}

/// The instructions of each form but `li`, whose operands they take as they are.
fn renamed(alloc: Global, pseudo: &Pseudo) -> Result<Vec<Instr>, NoMemory>
    requires { pseudo.now.kind ≢ PseudoKind.Li }
    ensures { IfOk result (λ list. list.items ≡ expansion pseudo.now) }
{
    let Pseudo {
        kind,
        rd,
        rs1,
        rs2,
        imm,
    } = *pseudo;
    let zero = Reg::zero();
    let ra = Reg::ra();
    let t1 = Reg::t1();
    match kind {
        PseudoKind::Nop => only(alloc, number(Op::Addi, zero, zero, 0)),
        PseudoKind::Li => unreachable!(),
        PseudoKind::Mv => only(alloc, number(Op::Addi, rd, rs1, 0)),
        PseudoKind::Not => only(alloc, number(Op::Xori, rd, rs1, -1)),
        PseudoKind::Neg => only(alloc, three(Op::Sub, rd, zero, rs1)),
        PseudoKind::Negw => only(alloc, three(Op::Subw, rd, zero, rs1)),
        PseudoKind::SextW => only(alloc, number(Op::Addiw, rd, rs1, 0)),
        PseudoKind::ZextB => only(alloc, number(Op::Andi, rd, rs1, 255)),
        PseudoKind::Seqz => only(alloc, number(Op::Sltiu, rd, rs1, 1)),
        PseudoKind::Snez => only(alloc, three(Op::Sltu, rd, zero, rs1)),
        PseudoKind::Sltz => only(alloc, three(Op::Slt, rd, rs1, zero)),
        PseudoKind::Sgtz => only(alloc, three(Op::Slt, rd, zero, rs1)),
        PseudoKind::Sgt => only(alloc, three(Op::Slt, rd, rs2, rs1)),
        PseudoKind::Sgtu => only(alloc, three(Op::Sltu, rd, rs2, rs1)),
        PseudoKind::Beqz => only(alloc, branch(Op::Beq, rs1, zero, imm)),
        PseudoKind::Bnez => only(alloc, branch(Op::Bne, rs1, zero, imm)),
        PseudoKind::Blez => only(alloc, branch(Op::Bge, zero, rs1, imm)),
        PseudoKind::Bgez => only(alloc, branch(Op::Bge, rs1, zero, imm)),
        PseudoKind::Bltz => only(alloc, branch(Op::Blt, rs1, zero, imm)),
        PseudoKind::Bgtz => only(alloc, branch(Op::Blt, zero, rs1, imm)),
        PseudoKind::Bgt => only(alloc, branch(Op::Blt, rs2, rs1, imm)),
        PseudoKind::Ble => only(alloc, branch(Op::Bge, rs2, rs1, imm)),
        PseudoKind::Bgtu => only(alloc, branch(Op::Bltu, rs2, rs1, imm)),
        PseudoKind::Bleu => only(alloc, branch(Op::Bgeu, rs2, rs1, imm)),
        PseudoKind::J => only(alloc, one(Op::Jal, zero, imm)),
        PseudoKind::Jal => only(alloc, one(Op::Jal, ra, imm)),
        PseudoKind::Jr => only(alloc, number(Op::Jalr, zero, rs1, 0)),
        PseudoKind::JrOff => only(alloc, two(Op::Jalr, zero, rs1, imm)),
        PseudoKind::Jalr => only(alloc, number(Op::Jalr, ra, rs1, 0)),
        PseudoKind::JalrTo => only(alloc, number(Op::Jalr, rd, rs1, 0)),
        PseudoKind::JalrOff => only(alloc, two(Op::Jalr, rd, rs1, imm)),
        PseudoKind::Ret => only(alloc, number(Op::Jalr, zero, ra, 0)),
        PseudoKind::Call => pair(alloc, one(Op::Auipc, ra, imm), two(Op::Jalr, ra, ra, imm)),
        PseudoKind::Tail => pair(alloc, one(Op::Auipc, t1, imm), two(Op::Jalr, zero, t1, imm)),
        PseudoKind::La => pair(alloc, one(Op::Auipc, rd, imm), two(Op::Addi, rd, rd, imm)),
        PseudoKind::Lla => pair(alloc, one(Op::Auipc, rd, imm), two(Op::Addi, rd, rd, imm)),
        PseudoKind::Fence => only(alloc, number(Op::Fence, zero, zero, 255)),
        PseudoKind::AddImm => only(alloc, two(Op::Addi, rd, rs1, imm)),
        PseudoKind::AndImm => only(alloc, two(Op::Andi, rd, rs1, imm)),
        PseudoKind::OrImm => only(alloc, two(Op::Ori, rd, rs1, imm)),
        PseudoKind::XorImm => only(alloc, two(Op::Xori, rd, rs1, imm)),
        PseudoKind::SltImm => only(alloc, two(Op::Slti, rd, rs1, imm)),
        PseudoKind::SltuImm => only(alloc, two(Op::Sltiu, rd, rs1, imm)),
        PseudoKind::SllImm => only(alloc, two(Op::Slli, rd, rs1, imm)),
        PseudoKind::SrlImm => only(alloc, two(Op::Srli, rd, rs1, imm)),
        PseudoKind::SraImm => only(alloc, two(Op::Srai, rd, rs1, imm)),
        PseudoKind::AddwImm => only(alloc, two(Op::Addiw, rd, rs1, imm)),
        PseudoKind::SllwImm => only(alloc, two(Op::Slliw, rd, rs1, imm)),
        PseudoKind::SrlwImm => only(alloc, two(Op::Srliw, rd, rs1, imm)),
        PseudoKind::SrawImm => only(alloc, two(Op::Sraiw, rd, rs1, imm)),
        PseudoKind::AddTprel => only(alloc, three(Op::Add, rd, rs1, rs2)),
    }
}

/// The instructions that load the number.
fn loaded(alloc: Global, rd: Reg, imm: Imm) -> Result<Vec<Instr>, NoMemory>
    requires { is_that Operand.AnyNumber imm ≡ true }
    ensures list { IfOk result (λ list. list.items ≡ loaded rd imm) }
    ensures lawful { IfOk result (λ list. list_all is_lawful list.items ≡ true) }
{
    match imm {
        Imm::Value(value) => li(alloc, rd, value),
        _ => unreachable!(),
    }
}

fn only(alloc: Global, instr: Instr) -> Result<Vec<Instr>, NoMemory>
    ensures { IfOk result (λ list. list.items ≡ instr ∷ []) }
{
    let mut list = Vec::new(alloc);
    list.push(instr)?;
    Ok(list)
}

fn pair(alloc: Global, first: Instr, second: Instr) -> Result<Vec<Instr>, NoMemory>
    ensures { IfOk result (λ list. list.items ≡ first ∷ second ∷ []) }
{
    let mut list = only(alloc, first)?;
    list.push(second)?;
    Ok(list)
}
