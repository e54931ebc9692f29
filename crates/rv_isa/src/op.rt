//! The opcodes.
ghost use Rattle.std.specs.Prelude.{◌≡◌, ◌<◌, length};
ghost use Rattle.rv_isa.specs.Opcodes.{op_number, opcodes};

/// The 66 opcodes of RV64IM, in the order of the manual's chapters. Each stands under the heading that
/// the RISC-V Unprivileged ISA gives its group.
#[derive(Clone, Copy, Debug, PartialEq, Eq)]
pub enum Op {
    /// RV32I, Integer Register-Immediate Instructions.
    Lui,
    /// RV32I, Integer Register-Immediate Instructions.
    Auipc,
    /// RV32I, Integer Register-Immediate Instructions.
    Addi,
    /// RV32I, Integer Register-Immediate Instructions.
    Slti,
    /// RV32I, Integer Register-Immediate Instructions.
    Sltiu,
    /// RV32I, Integer Register-Immediate Instructions.
    Xori,
    /// RV32I, Integer Register-Immediate Instructions.
    Ori,
    /// RV32I, Integer Register-Immediate Instructions.
    Andi,
    /// RV32I, Integer Register-Immediate Instructions.
    Slli,
    /// RV32I, Integer Register-Immediate Instructions.
    Srli,
    /// RV32I, Integer Register-Immediate Instructions.
    Srai,

    /// RV32I, Integer Register-Register Operations.
    Add,
    /// RV32I, Integer Register-Register Operations.
    Sub,
    /// RV32I, Integer Register-Register Operations.
    Slt,
    /// RV32I, Integer Register-Register Operations.
    Sltu,
    /// RV32I, Integer Register-Register Operations.
    Xor,
    /// RV32I, Integer Register-Register Operations.
    Or,
    /// RV32I, Integer Register-Register Operations.
    And,
    /// RV32I, Integer Register-Register Operations.
    Sll,
    /// RV32I, Integer Register-Register Operations.
    Srl,
    /// RV32I, Integer Register-Register Operations.
    Sra,

    /// RV32I, Control Transfer Instructions: Unconditional Jumps.
    Jal,
    /// RV32I, Control Transfer Instructions: Unconditional Jumps.
    Jalr,

    /// RV32I, Control Transfer Instructions: Conditional Branches.
    Beq,
    /// RV32I, Control Transfer Instructions: Conditional Branches.
    Bne,
    /// RV32I, Control Transfer Instructions: Conditional Branches.
    Blt,
    /// RV32I, Control Transfer Instructions: Conditional Branches.
    Bge,
    /// RV32I, Control Transfer Instructions: Conditional Branches.
    Bltu,
    /// RV32I, Control Transfer Instructions: Conditional Branches.
    Bgeu,

    /// RV32I, Load and Store Instructions.
    Lb,
    /// RV32I, Load and Store Instructions.
    Lbu,
    /// RV32I, Load and Store Instructions.
    Lh,
    /// RV32I, Load and Store Instructions.
    Lhu,
    /// RV32I, Load and Store Instructions.
    Lw,
    /// RV32I, Load and Store Instructions.
    Sb,
    /// RV32I, Load and Store Instructions.
    Sh,
    /// RV32I, Load and Store Instructions.
    Sw,

    /// RV32I, Memory Ordering Instructions.
    Fence,
    /// RV32I, Memory Ordering Instructions.
    FenceTso,

    /// RV32I, Environment Call and Breakpoints.
    Ecall,
    /// RV32I, Environment Call and Breakpoints.
    Ebreak,

    /// RV64I, Integer Register-Immediate Instructions.
    Addiw,
    /// RV64I, Integer Register-Immediate Instructions.
    Slliw,
    /// RV64I, Integer Register-Immediate Instructions.
    Srliw,
    /// RV64I, Integer Register-Immediate Instructions.
    Sraiw,

    /// RV64I, Integer Register-Register Operations.
    Addw,
    /// RV64I, Integer Register-Register Operations.
    Subw,
    /// RV64I, Integer Register-Register Operations.
    Sllw,
    /// RV64I, Integer Register-Register Operations.
    Srlw,
    /// RV64I, Integer Register-Register Operations.
    Sraw,

    /// RV64I, Load and Store Instructions.
    Lwu,
    /// RV64I, Load and Store Instructions.
    Ld,
    /// RV64I, Load and Store Instructions.
    Sd,

    /// M extension, Multiplication Operations.
    Mul,
    /// M extension, Multiplication Operations.
    Mulh,
    /// M extension, Multiplication Operations.
    Mulhsu,
    /// M extension, Multiplication Operations.
    Mulhu,
    /// M extension, Multiplication Operations.
    Mulw,

    /// M extension, Division Operations.
    Div,
    /// M extension, Division Operations.
    Divu,
    /// M extension, Division Operations.
    Rem,
    /// M extension, Division Operations.
    Remu,
    /// M extension, Division Operations.
    Divw,
    /// M extension, Division Operations.
    Divuw,
    /// M extension, Division Operations.
    Remw,
    /// M extension, Division Operations.
    Remuw,
}

/// The opcodes with these names.
macro_rules! ops {
    ($($op:ident)*) => {
        [$(Op::$op),*]
    };
}

impl Op {
    /// All opcodes, each at its number.
    pub const ALL: [Op; 66] = ops![
        Lui Auipc Addi Slti Sltiu Xori Ori Andi Slli Srli Srai Add Sub Slt Sltu Xor Or And Sll
        Srl Sra Jal Jalr Beq Bne Blt Bge Bltu Bgeu Lb Lbu Lh Lhu Lw Sb Sh Sw Fence FenceTso
        Ecall Ebreak Addiw Slliw Srliw Sraiw Addw Subw Sllw Srlw Sraw Lwu Ld Sd Mul Mulh Mulhsu
        Mulhu Mulw Div Divu Rem Remu Divw Divuw Remw Remuw
    ];

    /// The opcode's place among all opcodes.
    pub fn number(self) -> usize
        ensures number { result ≡ op_number self }
        ensures bound { result < length opcodes }
    {
        self as usize
    }
}
