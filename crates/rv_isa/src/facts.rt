//! What the table tells of an opcode.
ghost use Rattle.std.specs.Prelude.{◌≡◌};

/// Which operands an opcode has, in the order in which they are spelled.
#[derive(Clone, Copy, Debug, PartialEq, Eq)]
pub enum Form {
    /// `rd, imm`
    RdImm,
    /// `rd, rs1, imm`
    RdRs1Imm,
    /// `rd, rs1, rs2`
    RdRs1Rs2,
    /// `rd, offset(rs1)`
    RdOffset,
    /// `rs2, offset(rs1)`
    Rs2Offset,
    /// `rs1, rs2, target`
    Rs1Rs2Imm,
    /// `pred, succ`: two sets of the letters `iorw`, kept as one number
    Sets,
    /// no operand
    Nothing,
}

impl Form {
    ghost use Rattle.rv_isa.specs.Instruction.{has_rd, has_rs1, has_rs2, takes_symbol};

    /// Whether a register is written.
    pub fn has_rd(self) -> bool
        ensures { result ≡ has_rd self }
    {
        matches!(
            self,
            Form::RdImm | Form::RdRs1Imm | Form::RdRs1Rs2 | Form::RdOffset
        )
    }

    /// Whether a first register is read.
    pub fn has_rs1(self) -> bool
        ensures { result ≡ has_rs1 self }
    {
        !matches!(self, Form::RdImm | Form::Sets | Form::Nothing)
    }

    /// Whether a second register is read.
    pub fn has_rs2(self) -> bool
        ensures { result ≡ has_rs2 self }
    {
        matches!(self, Form::RdRs1Rs2 | Form::Rs2Offset | Form::Rs1Rs2Imm)
    }

    /// Whether there is an immediate for which a symbol may stand.
    pub fn takes_symbol(self) -> bool
        ensures { result ≡ takes_symbol self }
    {
        !matches!(self, Form::RdRs1Rs2 | Form::Sets | Form::Nothing)
    }
}

/// The numbers that an immediate may be: from `low` to `high`, both included, and the even ones alone
/// where it is the distance to a target.
#[derive(Clone, Copy, Debug, PartialEq, Eq)]
pub struct ImmRange {
    pub low: i64,
    pub high: i64,
    pub even: bool,
}

impl ImmRange {
    ghost use Rattle.rv_isa.specs.Instruction.{is_within};

    /// Whether `number` is one of them.
    pub fn contains(&self, number: i64) -> bool
        ensures { result ≡ is_within self.now number }
    {
        self.low <= number && number <= self.high && (!self.even || number % 2 == 0)
    }
}

/// How an opcode takes part in the order of memory.
#[derive(Clone, Copy, Debug, PartialEq, Eq)]
pub enum Kind {
    /// It neither reads nor writes memory.
    Plain,
    Load,
    Store,
    /// A fence: what stands before it completes before what stands behind it begins.
    Barrier,
}

/// The names of an opcode's default scheduling classes: that of the register write, and those of the
/// reads of `rs1` and `rs2`. A name is empty where the opcode does not read that register.
#[derive(Clone, Copy, Debug)]
pub struct ClassNames {
    pub write: &'static str,
    pub read1: &'static str,
    pub read2: &'static str,
}
