//! What a list of instructions leaves in a register.
ghost use Rattle.std.specs.Prelude.{◌≡◌, pos, true, ◌<◌, ◌^◌, ◌+ℤ◌, ◌*ℤ◌};
ghost use Rattle.std.specs.Int.{int_wrap, w32, w64};
ghost use Rattle.rv_isa.specs.Instruction.{is_lawful_imm};
ghost use Rattle.rv_expand.specs.Value.{after, held, is_on, result_of, value_from, value_of};

use rv_isa::{Imm, Instr, Op, Reg, is_lawful};

/// The signed 64-bit number that the list leaves in its register, starting from 0. It is told where each
/// instruction is a lawful `lui`, `addi`, `addiw` or `slli` with a number, all have the same `rd`, and
/// each reads only `rd` or `zero`. The empty list leaves 0, and so does a list on `zero`. Takes no memory.
pub fn evaluate(list: &[Instr]) -> Option<i64>
    ensures { result ≡ value_of list.now }
{
    match list {
        [] => Some(0),
        [first, ..] => value_from(first.rd, list),
    }
}

fn value_from(rd: Reg, list: &[Instr]) -> Option<i64>
    ensures { result ≡ value_from rd (pos 0) list.now }
{
    let mut number = 0;
    for instr in list {
        number = after(rd, number, instr)?;
    }
    Some(number)
}

/// The number in `rd` after `instr`, where `number` was there before.
fn after(rd: Reg, number: i64, instr: &Instr) -> Option<i64>
    ensures { result ≡ after rd number instr.now }
{
    if is_lawful(instr) && is_on(rd, instr) {
        let read = held(instr.rs1, number);
        let result = result_of(instr.op, read, instr.imm)?;
        Some(held(rd, result))
    } else {
        None
    }
}

/// What the opcode makes of the number that it reads and of its immediate.
fn result_of(op: Op, read: i64, imm: Imm) -> Option<i64>
    requires { is_lawful_imm op imm ≡ true }
    ensures { result ≡ result_of op read imm }
{
    match (op, imm) {
        (Op::Lui, Imm::Value(number)) => Some(upper(number)),
        (Op::Addi, Imm::Value(number)) => Some(sum(read, number)),
        (Op::Addiw, Imm::Value(number)) => Some(word_sum(read, number)),
        (Op::Slli, Imm::Value(number)) => Some(shifted(read, number as u32)),
        _ => None,
    }
}

/// The number as the upper 20 bits of a word.
fn upper(number: i64) -> i64
    ensures { result ≡ int_wrap w32 (number *ℤ pos 4096) }
{
    i64::from(low_word(number).wrapping_mul(4096))
}

/// The low 64 bits of the sum.
fn sum(a: i64, b: i64) -> i64
    ensures { result ≡ int_wrap w64 (a +ℤ b) }
{
    a.wrapping_add(b)
}

/// The low 32 bits of the sum, extended by their sign.
fn word_sum(a: i64, b: i64) -> i64
    ensures { result ≡ int_wrap w32 (a +ℤ b) }
{
    i64::from(low_word(a).wrapping_add(low_word(b)))
}

/// The low 32 bits, as a signed number.
fn low_word(number: i64) -> i32
    ensures { result ≡ int_wrap w32 number }
{
    (number.rem_euclid(1 << 32) as u32).cast_signed()
}

/// The number, shifted to the left.
fn shifted(number: i64, shift: u32) -> i64
    requires { shift < 64 }
    ensures { result ≡ int_wrap w64 (number *ℤ pos (2 ^ shift)) }
{
    number.wrapping_shl(shift)
}

/// Whether `instr` writes `rd`, and reads only it or `zero`.
fn is_on(rd: Reg, instr: &Instr) -> bool
    ensures { result ≡ is_on rd instr.now }
{
    instr.rd == rd && (instr.rs1 == rd || instr.rs1 == Reg::zero())
}

/// What is read from the register, where `number` was written to it.
fn held(register: Reg, number: i64) -> i64
    ensures { result ≡ held register number }
{
    if register == Reg::zero() { 0 } else { number }
}
