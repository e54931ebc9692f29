//! The instructions that load a constant.
ghost use Rattle.std.specs.Prelude.{◌≡◌, ◌≢◌, ◌≤◌, ◌++◌, length, false, true, Some, IfOk, OnOk};
ghost use Rattle.std.specs.List.{list_all};
ghost use Rattle.rv_isa.specs.Instruction.{is_lawful};
ghost use Rattle.rv_expand.specs.Value.{value_of};
ghost use Rattle.rv_expand.specs.Constant.{added, constant, high_part, is_word, low_bits, low_part, quotient_of, rest_of, shift_of, shifted, word};
ghost use Rattle.rv_expand.specs.Forms.{number};

use crate::forms::number;
use mca_fixed::NoMemory;
use rv_isa::{Instr, Op, Reg};
use std::alloc::Global;

/// How many shifts a constant of 64 bits takes at most.
const SHIFTS: u8 = 3;

/// The instructions that load `value` into `rd`: `lui` and `addiw` for a number of 32 bits, and else those
/// for a shorter number, a shift, and the low twelve bits. They are eight at most.
pub fn li(alloc: Global, rd: Reg, value: i64) -> Result<Vec<Instr>, NoMemory>
    ensures list { IfOk result (λ list. list.items ≡ constant rd value) }
    ensures value { IfOk result (λ list. rd ≢ 0 → value_of list.items ≡ Some value) }
    ensures short { IfOk result (λ list. length list.items ≤ 8) }
    ensures lawful { IfOk result (λ list. list_all is_lawful list.items ≡ true) }
{
    prove!(rd.number() < 32);
    shifted(alloc, rd, value, SHIFTS)
}

/// The instructions for a number that takes at most so many shifts.
fn shifted(alloc: Global, rd: Reg, value: i64, shifts: u8) -> Result<Vec<Instr>, NoMemory>
    ensures { IfOk result (λ list. list.items ≡ shifted shifts rd value) }
{
    if shifts == 0 || is_word(value) {
        return word(alloc, rd, value);
    }
    let front = shifted(alloc, rd, quotient_of(value), shifts - 1)?;
    with_low_bits(front, rd, value)
}

/// The instructions for the number's quotient, and behind them the shift and the low part.
fn with_low_bits(front: Vec<Instr>, rd: Reg, value: i64) -> Result<Vec<Instr>, NoMemory>
    ensures { IfOk result (λ list. list.items ≡ front.items ++ low_bits rd value) }
{
    let mut list = front;
    list.push(number(Op::Slli, rd, rd, i64::from(shift_of(value))))?;
    add(&mut list, Op::Addi, rd, low_part(value))?;
    Ok(list)
}

/// The instructions for a number of 32 bits.
fn word(alloc: Global, rd: Reg, value: i64) -> Result<Vec<Instr>, NoMemory>
    ensures { IfOk result (λ list. list.items ≡ word rd value) }
{
    let mut list = Vec::new(alloc);
    let low = low_part(value);
    let high = high_part(value);
    if high == 0 {
        list.push(number(Op::Addi, rd, Reg::zero(), low))?;
        return Ok(list);
    }
    list.push(number(Op::Lui, rd, Reg::zero(), high))?;
    add(&mut list, Op::Addiw, rd, low)?;
    Ok(list)
}

/// Adds the low part, where there is one.
fn add(list: &mut Vec<Instr>, op: Op, rd: Reg, low: i64) -> Result<(), NoMemory>
    ensures { OnOk result (list.new.items ≡ list.old.items ++ added op rd low) }
{
    if low != 0 {
        list.push(number(op, rd, rd, low))?;
    }
    Ok(())
}

/// Whether 32 bits hold the number.
#[tactic(auto, unfolding(crate::specs::Constant::is_word))]
fn is_word(value: i64) -> bool
    ensures { result ≡ is_word value }
{
    i64::from(i32::MIN) <= value && value <= i64::from(i32::MAX)
}

/// The low twelve bits, as a signed number.
#[tactic(auto, unfolding(crate::specs::Constant::low_part))]
fn low_part(value: i64) -> i64
    ensures { result ≡ low_part value }
{
    let bits = value.rem_euclid(4096);
    if 2048 <= bits { bits - 4096 } else { bits }
}

/// The 20 bits above the low part that make the number, together with it.
#[tactic(auto, unfolding(crate::specs::Constant::high_part))]
fn high_part(value: i64) -> i64
    ensures { result ≡ high_part value }
{
    (rest_of(value) >> 12).rem_euclid(1 << 20)
}

/// What is left of the number without its low part, at 64 bits.
#[tactic(auto, unfolding(crate::specs::Constant::rest_of))]
fn rest_of(value: i64) -> i64
    ensures { result ≡ rest_of value }
{
    value.wrapping_sub(low_part(value))
}

/// How many zero bits end that.
#[tactic(auto, unfolding(crate::specs::Constant::shift_of))]
fn shift_of(value: i64) -> u32
    ensures { result ≡ shift_of value }
{
    rest_of(value).trailing_zeros()
}

/// What is left of it without them.
#[tactic(auto, unfolding(crate::specs::Constant::quotient_of))]
fn quotient_of(value: i64) -> i64
    requires { is_word value ≡ false }
    ensures { result ≡ quotient_of value }
{
    rest_of(value) >> shift_of(value)
}
