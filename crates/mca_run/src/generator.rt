//! A program from a number.
ghost use Rattle.std.specs.Prelude.{◌≡◌, ◌∷◌, [], codes, length, map, take, true, IfOk};
ghost use Rattle.std.specs.List.{All};
ghost use Rattle.rv_isa.specs.Instruction.{is_lawful};
ghost use Rattle.rv_isa.specs.Spelling.{spelling};
ghost use Rattle.mca_run.specs.Load.{next_number, register, chosen, instruction_of, generated_from, generated};

use mca_fixed::NoMemory;
use rv_isa::{Imm, Instr, Op, Reg};
use std::alloc::Global;

/// How many instructions a program has that is made from a number.
const INSTRUCTIONS: usize = 512;

/// The number after this one.
fn next_number(x: u32) -> u32
    ensures { result ≡ next_number x }
{
    ((u64::from(x) * 1_664_525 + 1_013_904_223) % 0x1_0000_0000) as u32
}

/// One of the registers x10 to x17.
fn register(n: u32) -> Reg
    ensures { result ≡ register n }
{
    Reg::new((10 + n % 8) as u8)
}

/// The instruction that a number chooses among 16: the more often, the more common it is.
fn chosen(n: u32, rd: Reg, rs1: Reg, rs2: Reg) -> Instr
    ensures { result ≡ chosen n rd rs1 rs2 }
{
    let none = Reg::zero();
    let (op, rd, rs2, imm) = if n < 6 {
        (Op::Add, rd, rs2, Imm::None)
    } else if n < 9 {
        (Op::Addi, rd, none, Imm::Value(1))
    } else if n < 11 {
        (Op::Mul, rd, rs2, Imm::None)
    } else if n < 12 {
        (Op::Div, rd, rs2, Imm::None)
    } else if n < 14 {
        (Op::Ld, rd, none, Imm::Value(0))
    } else if n < 15 {
        (Op::Sd, none, rs2, Imm::Value(0))
    } else {
        (Op::Xor, rd, rs2, Imm::None)
    };
    Instr {
        op,
        rd,
        rs1,
        rs2,
        imm,
    }
}

/// The instruction by the upper half of a number.
fn instruction_of(x: u32) -> Instr
    ensures { result ≡ instruction_of x }
{
    let h = x / 65_536;
    chosen(
        h % 16,
        register(h / 16),
        register(h / 128),
        register(h / 1_024),
    )
}

/// So many instructions, by the numbers after this one.
fn generate_from(alloc: Global, count: usize, seed: u32) -> Result<Vec<Instr>, NoMemory>
    ensures { IfOk result (λ code. code.items ≡ generated_from count seed) }
{
    let mut code = Vec::with_capacity(alloc, count)?;
    let mut x = seed;
    for _ in 0..count {
        x = next_number(x);
        code.push(instruction_of(x))?;
    }
    Ok(code)
}

/// The program that a number gives: 512 instructions, each by the next number of a linear
/// congruential generator. They are `add`, `addi`, `mul`, `div`, `ld`, `sd` and `xor` on the
/// registers x10 to x17, and none has a symbol.
///
/// # Errors
/// `NoMemory`.
pub fn generate(alloc: Global, seed: u32) -> Result<Vec<Instr>, NoMemory>
    ensures program { IfOk result (λ code. code.items ≡ generated seed) }
    ensures count { IfOk result (λ code. length code.items ≡ 512) }
    ensures lawful { IfOk result (λ code. All (λ i. is_lawful i ≡ true) code.items) }
{
    generate_from(alloc, INSTRUCTIONS, seed)
}

/// A law about the definitions: what the program of the number 0 begins with.
pub fn worked_program()
    ensures { map (λ i. spelling i []) (take 3 (generated 0))
        ≡ codes "sd a7, 0(a0)" ∷ codes "add a5, a6, a1" ∷ codes "ld a4, 0(a3)" ∷ [] }
{}
