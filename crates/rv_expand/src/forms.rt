//! Instructions with the operands that they have.
ghost use Rattle.std.specs.Prelude.{◌≡◌};
ghost use Rattle.rv_expand.specs.Forms.{branch, number, one, three, two};

use rv_isa::{Imm, Instr, Op, Reg};

/// `rd, rs1, rs2`
pub fn three(op: Op, rd: Reg, rs1: Reg, rs2: Reg) -> Instr
    ensures { result ≡ three op rd rs1 rs2 }
{
    Instr {
        op,
        rd,
        rs1,
        rs2,
        imm: Imm::None,
    }
}

/// `rd, rs1, imm`
pub fn two(op: Op, rd: Reg, rs1: Reg, imm: Imm) -> Instr
    ensures { result ≡ two op rd rs1 imm }
{
    Instr {
        op,
        rd,
        rs1,
        rs2: Reg::zero(),
        imm,
    }
}

/// `rd, imm`
pub fn one(op: Op, rd: Reg, imm: Imm) -> Instr
    ensures { result ≡ one op rd imm }
{
    two(op, rd, Reg::zero(), imm)
}

/// `rs1, rs2, target`
pub fn branch(op: Op, rs1: Reg, rs2: Reg, target: Imm) -> Instr
    ensures { result ≡ branch op rs1 rs2 target }
{
    Instr {
        op,
        rd: Reg::zero(),
        rs1,
        rs2,
        imm: target,
    }
}

/// `rd, rs1, imm` with a number
pub fn number(op: Op, rd: Reg, rs1: Reg, value: i64) -> Instr
    ensures { result ≡ number op rd rs1 value }
{
    two(op, rd, rs1, Imm::Value(value))
}
