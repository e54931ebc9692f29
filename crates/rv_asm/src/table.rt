//! The table of all forms: the opcodes of RV64IM, and the aliases and pseudo-instructions that stand for
//! them (RISC-V Unprivileged ISA, RV32I, RV64I and M; RISC-V Assembly Programmer's Manual).

use crate::form::{Makes, MnemonicForm};
use crate::operand::Shape;
use rv_expand::PseudoKind;
use rv_isa::Op;

/// The rows of the table, each as a mnemonic, its operands, and what it stands for.
macro_rules! forms {
    ($($mnemonic:literal: [$($shape:ident),*] => $makes:ident($of:expr);)*) => {
        [$(MnemonicForm {
            mnemonic: $mnemonic,
            shapes: &[$(Shape::$shape),*],
            makes: Makes::$makes($of),
        }),*]
    };
}

/// All forms. Where a mnemonic has several, no operands fit two of them.
pub const FORMS: [MnemonicForm; 117] = forms![
    "lui": [Rd, Upper] => One(Op::Lui);
    "auipc": [Rd, Upper] => One(Op::Auipc);
    "addi": [Rd, Rs1, Signed12] => One(Op::Addi);
    "slti": [Rd, Rs1, Signed12] => One(Op::Slti);
    "sltiu": [Rd, Rs1, Signed12] => One(Op::Sltiu);
    "xori": [Rd, Rs1, Signed12] => One(Op::Xori);
    "ori": [Rd, Rs1, Signed12] => One(Op::Ori);
    "andi": [Rd, Rs1, Signed12] => One(Op::Andi);
    "addiw": [Rd, Rs1, Signed12] => One(Op::Addiw);
    "slli": [Rd, Rs1, Shift64] => One(Op::Slli);
    "srli": [Rd, Rs1, Shift64] => One(Op::Srli);
    "srai": [Rd, Rs1, Shift64] => One(Op::Srai);
    "slliw": [Rd, Rs1, Shift32] => One(Op::Slliw);
    "srliw": [Rd, Rs1, Shift32] => One(Op::Srliw);
    "sraiw": [Rd, Rs1, Shift32] => One(Op::Sraiw);
    "add": [Rd, Rs1, Rs2] => One(Op::Add);
    "sub": [Rd, Rs1, Rs2] => One(Op::Sub);
    "slt": [Rd, Rs1, Rs2] => One(Op::Slt);
    "sltu": [Rd, Rs1, Rs2] => One(Op::Sltu);
    "xor": [Rd, Rs1, Rs2] => One(Op::Xor);
    "or": [Rd, Rs1, Rs2] => One(Op::Or);
    "and": [Rd, Rs1, Rs2] => One(Op::And);
    "sll": [Rd, Rs1, Rs2] => One(Op::Sll);
    "srl": [Rd, Rs1, Rs2] => One(Op::Srl);
    "sra": [Rd, Rs1, Rs2] => One(Op::Sra);
    "addw": [Rd, Rs1, Rs2] => One(Op::Addw);
    "subw": [Rd, Rs1, Rs2] => One(Op::Subw);
    "sllw": [Rd, Rs1, Rs2] => One(Op::Sllw);
    "srlw": [Rd, Rs1, Rs2] => One(Op::Srlw);
    "sraw": [Rd, Rs1, Rs2] => One(Op::Sraw);
    "mul": [Rd, Rs1, Rs2] => One(Op::Mul);
    "mulh": [Rd, Rs1, Rs2] => One(Op::Mulh);
    "mulhsu": [Rd, Rs1, Rs2] => One(Op::Mulhsu);
    "mulhu": [Rd, Rs1, Rs2] => One(Op::Mulhu);
    "mulw": [Rd, Rs1, Rs2] => One(Op::Mulw);
    "div": [Rd, Rs1, Rs2] => One(Op::Div);
    "divu": [Rd, Rs1, Rs2] => One(Op::Divu);
    "rem": [Rd, Rs1, Rs2] => One(Op::Rem);
    "remu": [Rd, Rs1, Rs2] => One(Op::Remu);
    "divw": [Rd, Rs1, Rs2] => One(Op::Divw);
    "divuw": [Rd, Rs1, Rs2] => One(Op::Divuw);
    "remw": [Rd, Rs1, Rs2] => One(Op::Remw);
    "remuw": [Rd, Rs1, Rs2] => One(Op::Remuw);
    "jal": [Rd, Jump] => One(Op::Jal);
    "jalr": [Rd, Offset] => One(Op::Jalr);
    "beq": [Rs1, Rs2, Branch] => One(Op::Beq);
    "bne": [Rs1, Rs2, Branch] => One(Op::Bne);
    "blt": [Rs1, Rs2, Branch] => One(Op::Blt);
    "bge": [Rs1, Rs2, Branch] => One(Op::Bge);
    "bltu": [Rs1, Rs2, Branch] => One(Op::Bltu);
    "bgeu": [Rs1, Rs2, Branch] => One(Op::Bgeu);
    "lb": [Rd, Offset] => One(Op::Lb);
    "lbu": [Rd, Offset] => One(Op::Lbu);
    "lh": [Rd, Offset] => One(Op::Lh);
    "lhu": [Rd, Offset] => One(Op::Lhu);
    "lw": [Rd, Offset] => One(Op::Lw);
    "lwu": [Rd, Offset] => One(Op::Lwu);
    "ld": [Rd, Offset] => One(Op::Ld);
    "sb": [Rs2, Offset] => One(Op::Sb);
    "sh": [Rs2, Offset] => One(Op::Sh);
    "sw": [Rs2, Offset] => One(Op::Sw);
    "sd": [Rs2, Offset] => One(Op::Sd);
    "fence": [Pred, Succ] => One(Op::Fence);
    "fence.tso": [] => One(Op::FenceTso);
    "ecall": [] => One(Op::Ecall);
    "ebreak": [] => One(Op::Ebreak);
    "nop": [] => Several(PseudoKind::Nop);
    "li": [Rd, Wide] => Several(PseudoKind::Li);
    "mv": [Rd, Rs1] => Several(PseudoKind::Mv);
    "not": [Rd, Rs1] => Several(PseudoKind::Not);
    "neg": [Rd, Rs1] => Several(PseudoKind::Neg);
    "negw": [Rd, Rs1] => Several(PseudoKind::Negw);
    "sext.w": [Rd, Rs1] => Several(PseudoKind::SextW);
    "zext.b": [Rd, Rs1] => Several(PseudoKind::ZextB);
    "seqz": [Rd, Rs1] => Several(PseudoKind::Seqz);
    "snez": [Rd, Rs1] => Several(PseudoKind::Snez);
    "sltz": [Rd, Rs1] => Several(PseudoKind::Sltz);
    "sgtz": [Rd, Rs1] => Several(PseudoKind::Sgtz);
    "sgt": [Rd, Rs1, Rs2] => Several(PseudoKind::Sgt);
    "sgtu": [Rd, Rs1, Rs2] => Several(PseudoKind::Sgtu);
    "beqz": [Rs1, Branch] => Several(PseudoKind::Beqz);
    "bnez": [Rs1, Branch] => Several(PseudoKind::Bnez);
    "blez": [Rs1, Branch] => Several(PseudoKind::Blez);
    "bgez": [Rs1, Branch] => Several(PseudoKind::Bgez);
    "bltz": [Rs1, Branch] => Several(PseudoKind::Bltz);
    "bgtz": [Rs1, Branch] => Several(PseudoKind::Bgtz);
    "bgt": [Rs1, Rs2, Branch] => Several(PseudoKind::Bgt);
    "ble": [Rs1, Rs2, Branch] => Several(PseudoKind::Ble);
    "bgtu": [Rs1, Rs2, Branch] => Several(PseudoKind::Bgtu);
    "bleu": [Rs1, Rs2, Branch] => Several(PseudoKind::Bleu);
    "j": [Jump] => Several(PseudoKind::J);
    "jal": [Jump] => Several(PseudoKind::Jal);
    "jr": [Rs1] => Several(PseudoKind::Jr);
    "jr": [Offset] => Several(PseudoKind::JrOff);
    "jalr": [Rs1] => Several(PseudoKind::Jalr);
    "jalr": [Rd, Rs1] => Several(PseudoKind::JalrTo);
    "jalr": [Rd, Rs1, Signed12] => Several(PseudoKind::JalrOff);
    "ret": [] => Several(PseudoKind::Ret);
    "call": [Symbol] => Several(PseudoKind::Call);
    "tail": [Symbol] => Several(PseudoKind::Tail);
    "la": [Rd, Symbol] => Several(PseudoKind::La);
    "lla": [Rd, Symbol] => Several(PseudoKind::Lla);
    "fence": [] => Several(PseudoKind::Fence);
    "add": [Rd, Rs1, Signed12] => Several(PseudoKind::AddImm);
    "and": [Rd, Rs1, Signed12] => Several(PseudoKind::AndImm);
    "or": [Rd, Rs1, Signed12] => Several(PseudoKind::OrImm);
    "xor": [Rd, Rs1, Signed12] => Several(PseudoKind::XorImm);
    "slt": [Rd, Rs1, Signed12] => Several(PseudoKind::SltImm);
    "sltu": [Rd, Rs1, Signed12] => Several(PseudoKind::SltuImm);
    "sll": [Rd, Rs1, Shift64] => Several(PseudoKind::SllImm);
    "srl": [Rd, Rs1, Shift64] => Several(PseudoKind::SrlImm);
    "sra": [Rd, Rs1, Shift64] => Several(PseudoKind::SraImm);
    "addw": [Rd, Rs1, Signed12] => Several(PseudoKind::AddwImm);
    "sllw": [Rd, Rs1, Shift32] => Several(PseudoKind::SllwImm);
    "srlw": [Rd, Rs1, Shift32] => Several(PseudoKind::SrlwImm);
    "sraw": [Rd, Rs1, Shift32] => Several(PseudoKind::SrawImm);
    "add": [Rd, Rs1, Rs2, ThreadAdd] => Several(PseudoKind::AddTprel);
];
