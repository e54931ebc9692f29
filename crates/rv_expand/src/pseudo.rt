//! Pseudo-instructions and alias forms.
ghost use Rattle.std.specs.Prelude.{◌≡◌, ◌||◌, nat_eq};

use rv_isa::{Imm, Op, Reg, is_lawful_imm};

/// Which form it is. In the forms, `rs` stands in `rs1` and `rt` in `rs2`, and a number, an offset, a
/// target, a symbol and the whole of `%tprel_add(s)` stand in `imm`.
#[derive(Clone, Copy, Debug, PartialEq, Eq)]
pub enum PseudoKind {
    /// `nop`
    Nop,
    /// `li rd, n`
    Li,
    /// `mv rd, rs`
    Mv,
    /// `not rd, rs`
    Not,
    /// `neg rd, rs`
    Neg,
    /// `negw rd, rs`
    Negw,
    /// `sext.w rd, rs`
    SextW,
    /// `zext.b rd, rs`
    ZextB,
    /// `seqz rd, rs`
    Seqz,
    /// `snez rd, rs`
    Snez,
    /// `sltz rd, rs`
    Sltz,
    /// `sgtz rd, rs`
    Sgtz,
    /// `sgt rd, rs, rt`
    Sgt,
    /// `sgtu rd, rs, rt`
    Sgtu,
    /// `beqz rs, L`
    Beqz,
    /// `bnez rs, L`
    Bnez,
    /// `blez rs, L`
    Blez,
    /// `bgez rs, L`
    Bgez,
    /// `bltz rs, L`
    Bltz,
    /// `bgtz rs, L`
    Bgtz,
    /// `bgt rs, rt, L`
    Bgt,
    /// `ble rs, rt, L`
    Ble,
    /// `bgtu rs, rt, L`
    Bgtu,
    /// `bleu rs, rt, L`
    Bleu,
    /// `j L`
    J,
    /// `jal L`
    Jal,
    /// `jr rs`
    Jr,
    /// `jr off(rs)`
    JrOff,
    /// `jalr rs`
    Jalr,
    /// `jalr rd, rs`
    JalrTo,
    /// `jalr rd, rs, off`
    JalrOff,
    /// `ret`
    Ret,
    /// `call s`
    Call,
    /// `tail s`
    Tail,
    /// `la rd, s`
    La,
    /// `lla rd, s`
    Lla,
    /// `fence` without operands
    Fence,
    /// `add rd, rs1, imm`
    AddImm,
    /// `and rd, rs1, imm`
    AndImm,
    /// `or rd, rs1, imm`
    OrImm,
    /// `xor rd, rs1, imm`
    XorImm,
    /// `slt rd, rs1, imm`
    SltImm,
    /// `sltu rd, rs1, imm`
    SltuImm,
    /// `sll rd, rs1, imm`
    SllImm,
    /// `srl rd, rs1, imm`
    SrlImm,
    /// `sra rd, rs1, imm`
    SraImm,
    /// `addw rd, rs1, imm`
    AddwImm,
    /// `sllw rd, rs1, imm`
    SllwImm,
    /// `srlw rd, rs1, imm`
    SrlwImm,
    /// `sraw rd, rs1, imm`
    SrawImm,
    /// `add rd, rs1, rs2, %tprel_add(s)`
    AddTprel,
}

/// A pseudo-instruction or an alias form. A register that its form lacks is `zero`, and an immediate that
/// it lacks is `Imm::None`.
#[derive(Clone, Copy, Debug, PartialEq, Eq)]
pub struct Pseudo {
    pub kind: PseudoKind,
    pub rd: Reg,
    pub rs1: Reg,
    pub rs2: Reg,
    pub imm: Imm,
}

/// What a form asks of the immediate.
#[derive(Clone, Copy, Debug, PartialEq, Eq)]
pub enum Operand {
    /// The form has none.
    Nothing,
    /// Any number of 64 bits.
    AnyNumber,
    /// A number or a symbol that this opcode can take.
    Of(Op),
    /// A symbol.
    Symbol,
}

/// The operands that a form takes: which registers, and what immediate.
#[derive(Clone, Copy, Debug, PartialEq, Eq)]
pub struct Operands {
    pub rd: bool,
    pub rs: bool,
    pub rt: bool,
    pub imm: Operand,
}

impl PseudoKind {
    ghost use Rattle.rv_expand.specs.Operands.{operands_of};

    /// The operands that the form takes.
    pub fn operands(self) -> Operands
        ensures { result ≡ operands_of self }
    {
        match self {
            PseudoKind::Nop | PseudoKind::Ret | PseudoKind::Fence => takes(
                false,
                false,
                false,
                Operand::Nothing,
            ),
            PseudoKind::Li => takes(true, false, false, Operand::AnyNumber),
            PseudoKind::Sgt | PseudoKind::Sgtu => takes(true, true, true, Operand::Nothing),
            PseudoKind::Beqz => takes(false, true, false, Operand::Of(Op::Beq)),
            PseudoKind::Bnez => takes(false, true, false, Operand::Of(Op::Bne)),
            PseudoKind::Blez | PseudoKind::Bgez => takes(false, true, false, Operand::Of(Op::Bge)),
            PseudoKind::Bltz | PseudoKind::Bgtz => takes(false, true, false, Operand::Of(Op::Blt)),
            PseudoKind::Bgt => takes(false, true, true, Operand::Of(Op::Blt)),
            PseudoKind::Ble => takes(false, true, true, Operand::Of(Op::Bge)),
            PseudoKind::Bgtu => takes(false, true, true, Operand::Of(Op::Bltu)),
            PseudoKind::Bleu => takes(false, true, true, Operand::Of(Op::Bgeu)),
            PseudoKind::J | PseudoKind::Jal => takes(false, false, false, Operand::Of(Op::Jal)),
            PseudoKind::Jr | PseudoKind::Jalr => takes(false, true, false, Operand::Nothing),
            PseudoKind::JrOff => takes(false, true, false, Operand::Of(Op::Jalr)),
            PseudoKind::JalrOff => takes(true, true, false, Operand::Of(Op::Jalr)),
            PseudoKind::Call | PseudoKind::Tail => takes(false, false, false, Operand::Symbol),
            PseudoKind::La | PseudoKind::Lla => takes(true, false, false, Operand::Symbol),
            PseudoKind::AddImm => takes(true, true, false, Operand::Of(Op::Addi)),
            PseudoKind::AndImm => takes(true, true, false, Operand::Of(Op::Andi)),
            PseudoKind::OrImm => takes(true, true, false, Operand::Of(Op::Ori)),
            PseudoKind::XorImm => takes(true, true, false, Operand::Of(Op::Xori)),
            PseudoKind::SltImm => takes(true, true, false, Operand::Of(Op::Slti)),
            PseudoKind::SltuImm => takes(true, true, false, Operand::Of(Op::Sltiu)),
            PseudoKind::SllImm => takes(true, true, false, Operand::Of(Op::Slli)),
            PseudoKind::SrlImm => takes(true, true, false, Operand::Of(Op::Srli)),
            PseudoKind::SraImm => takes(true, true, false, Operand::Of(Op::Srai)),
            PseudoKind::AddwImm => takes(true, true, false, Operand::Of(Op::Addiw)),
            PseudoKind::SllwImm => takes(true, true, false, Operand::Of(Op::Slliw)),
            PseudoKind::SrlwImm => takes(true, true, false, Operand::Of(Op::Srliw)),
            PseudoKind::SrawImm => takes(true, true, false, Operand::Of(Op::Sraiw)),
            PseudoKind::AddTprel => takes(true, true, true, Operand::Symbol),
            PseudoKind::Mv
            | PseudoKind::Not
            | PseudoKind::Neg
            | PseudoKind::Negw
            | PseudoKind::SextW
            | PseudoKind::ZextB
            | PseudoKind::Seqz
            | PseudoKind::Snez
            | PseudoKind::Sltz
            | PseudoKind::Sgtz
            | PseudoKind::JalrTo => takes(true, true, false, Operand::Nothing),
        }
    }
}

fn takes(rd: bool, rs: bool, rt: bool, imm: Operand) -> Operands
    ensures { result ≡ record { rd = rd; rs = rs; rt = rt; imm = imm } }
{
    Operands { rd, rs, rt, imm }
}

impl Pseudo {
    ghost use Rattle.rv_expand.specs.Operands.{fits, is_that};

    /// Whether it has the operands that its form takes, in range, and no others.
    pub fn fits(&self) -> bool
        ensures { result ≡ fits self.now }
    {
        let operands = self.kind.operands();
        fits_one(operands.rd, self.rd)
            && fits_one(operands.rs, self.rs1)
            && fits_one(operands.rt, self.rs2)
            && operands.imm.is_that(self.imm)
    }
}

/// Whether the register may stand there.
fn fits_one(there: bool, register: Reg) -> bool
    ensures { result ≡ (there || nat_eq register 0) }
{
    there || register == Reg::zero()
}

impl Operand {
    ghost use Rattle.std.specs.Prelude.{◌≡◌};
    ghost use Rattle.rv_expand.specs.Operands.{is_that};

    /// Whether the immediate is such a one.
    pub fn is_that(self, imm: Imm) -> bool
        ensures { result ≡ is_that self imm }
    {
        match (self, imm) {
            (Operand::Nothing, Imm::None) => true,
            (Operand::AnyNumber, Imm::Value(_)) => true,
            (Operand::Of(op), _) => is_lawful_imm(op, imm),
            (Operand::Symbol, Imm::Symbol(_)) => true,
            _ => false,
        }
    }
}
