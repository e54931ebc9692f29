//! The table of the opcodes.
ghost use Rattle.std.specs.Prelude.{◌≡◌};
ghost use Rattle.rv_isa.specs.Instruction.{is_lawful_number};
ghost use Rattle.rv_isa.specs.Opcodes.{facts_of, facts_in, op_in, op_named, loads, stores, bars, classes_in, classes_of};

use crate::facts::{ClassNames, Form, ImmRange, Kind};
use crate::op::Op;
use crate::ranges::{BRANCH, JUMP, SETS, SHIFT_32, SHIFT_64, SIGNED_12, UPPER};

/// A row of the table.
struct Row {
    op: Op,
    mnemonic: &'static str,
    form: Form,
    range: Option<ImmRange>,
    kind: Kind,
    write: &'static str,
    read1: &'static str,
    read2: &'static str,
    side_effects: bool,
}

/// The rows of a table, each as its opcode and the fields in their order.
macro_rules! rows {
    ($($op:ident: $mnemonic:literal, $form:ident, $range:expr, $kind:ident, $write:literal, $read1:literal, $read2:literal, $effects:literal;)*) => {
        [$(Row {
            op: Op::$op,
            mnemonic: $mnemonic,
            form: Form::$form,
            range: $range,
            kind: Kind::$kind,
            write: $write,
            read1: $read1,
            read2: $read2,
            side_effects: $effects,
        }),*]
    };
}

/// The row of each opcode, in the order of the opcodes.
const TABLE: [Row; 66] = rows![
    Lui: "lui", RdImm, Some(UPPER), Plain, "WriteIALU", "", "", false;
    Auipc: "auipc", RdImm, Some(UPPER), Plain, "WriteIALU", "", "", false;
    Addi: "addi", RdRs1Imm, Some(SIGNED_12), Plain, "WriteIALU", "ReadIALU", "", false;
    Slti: "slti", RdRs1Imm, Some(SIGNED_12), Plain, "WriteIALU", "ReadIALU", "", false;
    Sltiu: "sltiu", RdRs1Imm, Some(SIGNED_12), Plain, "WriteIALU", "ReadIALU", "", false;
    Xori: "xori", RdRs1Imm, Some(SIGNED_12), Plain, "WriteIALU", "ReadIALU", "", false;
    Ori: "ori", RdRs1Imm, Some(SIGNED_12), Plain, "WriteIALU", "ReadIALU", "", false;
    Andi: "andi", RdRs1Imm, Some(SIGNED_12), Plain, "WriteIALU", "ReadIALU", "", false;
    Slli: "slli", RdRs1Imm, Some(SHIFT_64), Plain, "WriteShiftImm", "ReadShiftImm", "", false;
    Srli: "srli", RdRs1Imm, Some(SHIFT_64), Plain, "WriteShiftImm", "ReadShiftImm", "", false;
    Srai: "srai", RdRs1Imm, Some(SHIFT_64), Plain, "WriteShiftImm", "ReadShiftImm", "", false;
    Add: "add", RdRs1Rs2, None, Plain, "WriteIALU", "ReadIALU", "ReadIALU", false;
    Sub: "sub", RdRs1Rs2, None, Plain, "WriteIALU", "ReadIALU", "ReadIALU", false;
    Slt: "slt", RdRs1Rs2, None, Plain, "WriteIALU", "ReadIALU", "ReadIALU", false;
    Sltu: "sltu", RdRs1Rs2, None, Plain, "WriteIALU", "ReadIALU", "ReadIALU", false;
    Xor: "xor", RdRs1Rs2, None, Plain, "WriteIALU", "ReadIALU", "ReadIALU", false;
    Or: "or", RdRs1Rs2, None, Plain, "WriteIALU", "ReadIALU", "ReadIALU", false;
    And: "and", RdRs1Rs2, None, Plain, "WriteIALU", "ReadIALU", "ReadIALU", false;
    Sll: "sll", RdRs1Rs2, None, Plain, "WriteShiftReg", "ReadShiftReg", "ReadShiftReg", false;
    Srl: "srl", RdRs1Rs2, None, Plain, "WriteShiftReg", "ReadShiftReg", "ReadShiftReg", false;
    Sra: "sra", RdRs1Rs2, None, Plain, "WriteShiftReg", "ReadShiftReg", "ReadShiftReg", false;
    Jal: "jal", RdImm, Some(JUMP), Plain, "WriteJal", "", "", false;
    Jalr: "jalr", RdOffset, Some(SIGNED_12), Plain, "WriteJalr", "ReadJalr", "", false;
    Beq: "beq", Rs1Rs2Imm, Some(BRANCH), Plain, "WriteJmp", "ReadJmp", "ReadJmp", false;
    Bne: "bne", Rs1Rs2Imm, Some(BRANCH), Plain, "WriteJmp", "ReadJmp", "ReadJmp", false;
    Blt: "blt", Rs1Rs2Imm, Some(BRANCH), Plain, "WriteJmp", "ReadJmp", "ReadJmp", false;
    Bge: "bge", Rs1Rs2Imm, Some(BRANCH), Plain, "WriteJmp", "ReadJmp", "ReadJmp", false;
    Bltu: "bltu", Rs1Rs2Imm, Some(BRANCH), Plain, "WriteJmp", "ReadJmp", "ReadJmp", false;
    Bgeu: "bgeu", Rs1Rs2Imm, Some(BRANCH), Plain, "WriteJmp", "ReadJmp", "ReadJmp", false;
    Lb: "lb", RdOffset, Some(SIGNED_12), Load, "WriteLDB", "ReadMemBase", "", false;
    Lbu: "lbu", RdOffset, Some(SIGNED_12), Load, "WriteLDB", "ReadMemBase", "", false;
    Lh: "lh", RdOffset, Some(SIGNED_12), Load, "WriteLDH", "ReadMemBase", "", false;
    Lhu: "lhu", RdOffset, Some(SIGNED_12), Load, "WriteLDH", "ReadMemBase", "", false;
    Lw: "lw", RdOffset, Some(SIGNED_12), Load, "WriteLDW", "ReadMemBase", "", false;
    Sb: "sb", Rs2Offset, Some(SIGNED_12), Store, "WriteSTB", "ReadMemBase", "ReadStoreData", false;
    Sh: "sh", Rs2Offset, Some(SIGNED_12), Store, "WriteSTH", "ReadMemBase", "ReadStoreData", false;
    Sw: "sw", Rs2Offset, Some(SIGNED_12), Store, "WriteSTW", "ReadMemBase", "ReadStoreData", false;
    Fence: "fence", Sets, Some(SETS), Barrier, "WriteJmp", "", "", true;
    FenceTso: "fence.tso", Nothing, None, Barrier, "WriteJmp", "", "", true;
    Ecall: "ecall", Nothing, None, Plain, "WriteJmp", "", "", true;
    Ebreak: "ebreak", Nothing, None, Plain, "WriteJmp", "", "", true;
    Addiw: "addiw", RdRs1Imm, Some(SIGNED_12), Plain, "WriteIALU32", "ReadIALU32", "", false;
    Slliw: "slliw", RdRs1Imm, Some(SHIFT_32), Plain, "WriteShiftImm32", "ReadShiftImm32", "", false;
    Srliw: "srliw", RdRs1Imm, Some(SHIFT_32), Plain, "WriteShiftImm32", "ReadShiftImm32", "", false;
    Sraiw: "sraiw", RdRs1Imm, Some(SHIFT_32), Plain, "WriteShiftImm32", "ReadShiftImm32", "", false;
    Addw: "addw", RdRs1Rs2, None, Plain, "WriteIALU32", "ReadIALU32", "ReadIALU32", false;
    Subw: "subw", RdRs1Rs2, None, Plain, "WriteIALU32", "ReadIALU32", "ReadIALU32", false;
    Sllw: "sllw", RdRs1Rs2, None, Plain, "WriteShiftReg32", "ReadShiftReg32", "ReadShiftReg32", false;
    Srlw: "srlw", RdRs1Rs2, None, Plain, "WriteShiftReg32", "ReadShiftReg32", "ReadShiftReg32", false;
    Sraw: "sraw", RdRs1Rs2, None, Plain, "WriteShiftReg32", "ReadShiftReg32", "ReadShiftReg32", false;
    Lwu: "lwu", RdOffset, Some(SIGNED_12), Load, "WriteLDW", "ReadMemBase", "", false;
    Ld: "ld", RdOffset, Some(SIGNED_12), Load, "WriteLDD", "ReadMemBase", "", false;
    Sd: "sd", Rs2Offset, Some(SIGNED_12), Store, "WriteSTD", "ReadMemBase", "ReadStoreData", false;
    Mul: "mul", RdRs1Rs2, None, Plain, "WriteIMul", "ReadIMul", "ReadIMul", false;
    Mulh: "mulh", RdRs1Rs2, None, Plain, "WriteIMul", "ReadIMul", "ReadIMul", false;
    Mulhsu: "mulhsu", RdRs1Rs2, None, Plain, "WriteIMul", "ReadIMul", "ReadIMul", false;
    Mulhu: "mulhu", RdRs1Rs2, None, Plain, "WriteIMul", "ReadIMul", "ReadIMul", false;
    Mulw: "mulw", RdRs1Rs2, None, Plain, "WriteIMul32", "ReadIMul32", "ReadIMul32", false;
    Div: "div", RdRs1Rs2, None, Plain, "WriteIDiv", "ReadIDiv", "ReadIDiv", false;
    Divu: "divu", RdRs1Rs2, None, Plain, "WriteIDiv", "ReadIDiv", "ReadIDiv", false;
    Rem: "rem", RdRs1Rs2, None, Plain, "WriteIDiv", "ReadIDiv", "ReadIDiv", false;
    Remu: "remu", RdRs1Rs2, None, Plain, "WriteIDiv", "ReadIDiv", "ReadIDiv", false;
    Divw: "divw", RdRs1Rs2, None, Plain, "WriteIDiv32", "ReadIDiv32", "ReadIDiv32", false;
    Divuw: "divuw", RdRs1Rs2, None, Plain, "WriteIDiv32", "ReadIDiv32", "ReadIDiv32", false;
    Remw: "remw", RdRs1Rs2, None, Plain, "WriteIDiv32", "ReadIDiv32", "ReadIDiv32", false;
    Remuw: "remuw", RdRs1Rs2, None, Plain, "WriteIDiv32", "ReadIDiv32", "ReadIDiv32", false;
];

/// The row of `op`.
fn row_of(op: Op) -> &'static Row
    ensures { facts_in result.now ≡ facts_of op }
{
    &TABLE[op as usize]
}

/// The opcode of the first of these rows that has this mnemonic.
fn op_in(rows: &[Row], text: &[u8]) -> Option<Op>
    ensures { result ≡ op_in rows.now text.now }
{
    for row in rows {
        if text == row.mnemonic.as_bytes() {
            return Some(row.op);
        }
    }
    None
}

/// The opcode's mnemonic, as the manual writes it: lower-case letters, and a `.` in `fence.tso`. No two
/// opcodes share one.
pub fn mnemonic(op: Op) -> &'static str
    ensures text { result.now ≡ (facts_of op).mnemonic }
    ensures own { op_named result.now ≡ Some op }
{
    row_of(op).mnemonic
}

/// The opcode whose mnemonic the text is, if there is one. Letters of the other case make another text.
pub fn op_of(text: &[u8]) -> Option<Op>
    ensures { result ≡ op_named text.now }
{
    op_in(&TABLE, text)
}

/// Which operands the opcode has.
pub fn form(op: Op) -> Form
    ensures { result ≡ (facts_of op).form }
{
    row_of(op).form
}

/// The numbers that its immediate may be; none where it has no immediate.
pub fn imm_range(op: Op) -> Option<ImmRange>
    ensures { result ≡ (facts_of op).range }
{
    row_of(op).range
}

/// Whether the opcode has an immediate, and `number` may be it.
pub fn is_in_range(op: Op, number: i64) -> bool
    ensures { result ≡ is_lawful_number (facts_of op).range number }
{
    match imm_range(op) {
        Some(range) => range.contains(number),
        None => false,
    }
}

/// How it takes part in the order of memory.
pub fn kind(op: Op) -> Kind
    ensures { result ≡ (facts_of op).kind }
{
    row_of(op).kind
}

/// Whether it reads memory.
pub fn is_load(op: Op) -> bool
    ensures { result ≡ loads (facts_of op).kind }
{
    matches!(kind(op), Kind::Load)
}

/// Whether it writes memory.
pub fn is_store(op: Op) -> bool
    ensures { result ≡ stores (facts_of op).kind }
{
    matches!(kind(op), Kind::Store)
}

/// Whether it orders what stands before it in memory against what stands behind it: the fences.
pub fn is_barrier(op: Op) -> bool
    ensures { result ≡ bars (facts_of op).kind }
{
    matches!(kind(op), Kind::Barrier)
}

/// Whether it does more than write its register or memory: the fences, and the calls of the environment
/// and of a debugger.
pub fn has_side_effects(op: Op) -> bool
    ensures { result ≡ (facts_of op).side_effects }
{
    row_of(op).side_effects
}

/// The opcode's default scheduling classes.
pub fn default_class(op: Op) -> ClassNames
    ensures { classes_in result ≡ classes_of op }
{
    let row = row_of(op);
    ClassNames {
        write: row.write,
        read1: row.read1,
        read2: row.read2,
    }
}
