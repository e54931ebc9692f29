//! Operands: what each may be, and what those of an instruction come to.
ghost use Rattle.std.specs.Prelude.{◌≡◌, ◌<◌, ◌≤◌, ◌≤ℤ◌, ◌^◌, pos, neg_ℤ, true, length, Some, None, FitsSigned, IfSome, if◌then◌else◌};
ghost use Rattle.std.specs.Int.{w64};
ghost use Rattle.rv_isa.specs.Instruction.{is_within};
ghost use Rattle.rv_asm.specs.Operands.{last_open, is_wide, wrapped};

use crate::number::number_at;
use crate::symbol::is_symbolic;
use rv_isa::ranges::{BRANCH, JUMP, SHIFT_32, SHIFT_64, SIGNED_12, UPPER};
use rv_isa::{Imm, ImmRange, Reg, register_of, set_of};

/// What an operand may be.
#[derive(Clone, Copy, Debug, PartialEq, Eq)]
pub enum Shape {
    /// The register that is written.
    Rd,
    /// The first register that is read.
    Rs1,
    /// The second register that is read.
    Rs2,
    /// An immediate of 20 bits without a sign, or a symbol.
    Upper,
    /// An immediate of 12 bits with a sign, or a symbol.
    Signed12,
    /// A shift by less than 64, or a symbol.
    Shift64,
    /// A shift by less than 32, or a symbol.
    Shift32,
    /// The target of a branch: an even distance of 13 bits, or a symbol.
    Branch,
    /// The target of a jump: an even distance of 21 bits, or a symbol.
    Jump,
    /// An offset of 12 bits, a symbol or nothing, and the first register in parentheses.
    Offset,
    /// A number of 64 bits.
    Wide,
    /// A symbol.
    Symbol,
    /// A symbol within `%tprel_add(..)`.
    ThreadAdd,
    /// The set of what comes before a fence.
    Pred,
    /// The set of what comes behind a fence.
    Succ,
}

/// What the operands of an instruction come to.
#[derive(Debug, Drop)]
pub struct Parts<'a> {
    pub rd: Reg,
    pub rs1: Reg,
    pub rs2: Reg,
    /// A symbolic one has the number 0, and its text is `symbol`.
    pub imm: Imm,
    pub symbol: &'a [u8],
    pub pred: u8,
    /// Whether a number was out of its range.
    pub beyond: bool,
}

fn is_within(range: ImmRange, number: i128) -> bool
    ensures test { result ≡ is_within range number }
    ensures fits { result ≡ true → FitsSigned w64 number }
{
    range.low as i128 <= number && number <= range.high as i128 && (!range.even || number % 2 == 0)
}

fn narrowed(number: i128) -> i64
    requires { FitsSigned w64 number }
    ensures { result ≡ number }
{
    number as i64
}

fn is_wide(number: i128) -> bool
    ensures { result ≡ is_wide number }
{
    -(1 << 63) <= number && number < 1 << 64
}

fn wrapped(number: i128) -> i64
    requires { is_wide number ≡ true }
    ensures { result ≡ wrapped number }
{
    if number < 1 << 63 {
        return number as i64;
    }
    (number - (1 << 64)) as i64
}

/// The place of the last opening parenthesis.
fn last_open(text: &[u8]) -> Option<usize>
    ensures place { result ≡ last_open 0 None text.now }
    ensures bound { IfSome result (λ k. k < length text.now) }
{
    let mut last = None;
    for (k, b) in text.iter().enumerate() {
        if *b == b'(' {
            last = Some(k);
        }
    }
    last
}

impl<'a> Parts<'a> {
    ghost use Rattle.rv_asm.specs.Operands.{parts_of, no_operands, symbolic, immediate, displacement, based, offset, wide, accept};
    ghost use Rattle.rv_asm.specs.declared.operand.Shape.TheVariants as shape;

    /// No operands.
    pub fn none() -> Self
        ensures { parts_of result ≡ no_operands }
    {
        Parts {
            rd: Reg::zero(),
            rs1: Reg::zero(),
            rs2: Reg::zero(),
            imm: Imm::None,
            symbol: &[],
            pred: 0,
            beyond: false,
        }
    }

    fn symbolic(&mut self, text: &'a [u8]) -> bool
        ensures { (if result then Some (parts_of self.new) else None) ≡ symbolic text.now (parts_of self.old) }
    {
        if !is_symbolic(text) {
            return false;
        }
        self.imm = Imm::Symbol(0);
        self.symbol = text;
        true
    }

    fn immediate(&mut self, range: ImmRange, text: &'a [u8]) -> bool
        ensures { (if result then Some (parts_of self.new) else None) ≡ immediate range text.now (parts_of self.old) }
    {
        match number_at(text) {
            None => self.symbolic(text),
            Some(number) => {
                if is_within(range, number) {
                    self.imm = Imm::Value(narrowed(number));
                } else {
                    self.beyond = true;
                }
                true
            }
        }
    }

    fn displacement(&mut self, text: &'a [u8]) -> bool
        ensures { (if result then Some (parts_of self.new) else None) ≡ displacement text.now (parts_of self.old) }
    {
        if text.is_empty() {
            self.imm = Imm::Value(0);
            return true;
        }
        self.immediate(SIGNED_12, text)
    }

    fn based(&mut self, text: &'a [u8]) -> bool
        ensures { (if result then Some (parts_of self.new) else None) ≡ based text.now (parts_of self.old) (last_open 0 None text.now) }
    {
        match last_open(text) {
            None => false,
            Some(k) => match register_of(&text[k + 1..]) {
                None => false,
                Some(register) => {
                    self.rs1 = register;
                    self.displacement(&text[..k])
                }
            },
        }
    }

    fn offset(&mut self, text: &'a [u8]) -> bool
        ensures { (if result then Some (parts_of self.new) else None) ≡ offset text.now (parts_of self.old) }
    {
        if !text.ends_with(b")") {
            return false;
        }
        self.based(&text[..text.len() - 1])
    }

    fn wide(&mut self, text: &'a [u8]) -> bool
        ensures { (if result then Some (parts_of self.new) else None) ≡ wide text.now (parts_of self.old) }
    {
        match number_at(text) {
            None => false,
            Some(number) => {
                if is_wide(number) {
                    self.imm = Imm::Value(wrapped(number));
                } else {
                    self.beyond = true;
                }
                true
            }
        }
    }

    fn thread_add(&mut self, text: &'a [u8]) -> bool
        ensures { (if result then Some (parts_of self.new) else None) ≡ accept shape.ThreadAdd text.now (parts_of self.old) }
    {
        if !text.starts_with(b"%tprel_add(") {
            return false;
        }
        self.symbolic(text)
    }

    fn pred(&mut self, text: &'a [u8]) -> bool
        ensures { (if result then Some (parts_of self.new) else None) ≡ accept shape.Pred text.now (parts_of self.old) }
    {
        match set_of(text) {
            None => false,
            Some(set) => {
                self.pred = set;
                true
            }
        }
    }

    fn succ(&mut self, text: &'a [u8]) -> bool
        ensures { (if result then Some (parts_of self.new) else None) ≡ accept shape.Succ text.now (parts_of self.old) }
    {
        match set_of(text) {
            None => false,
            Some(set) => {
                self.imm = Imm::Value(16 * (self.pred as i64) + set as i64);
                true
            }
        }
    }

    fn take_rd(&mut self, text: &[u8]) -> bool
        ensures { (if result then Some (parts_of self.new) else None) ≡ accept shape.Rd text.now (parts_of self.old) }
    {
        match register_of(text) {
            None => false,
            Some(register) => {
                self.rd = register;
                true
            }
        }
    }

    fn take_rs1(&mut self, text: &[u8]) -> bool
        ensures { (if result then Some (parts_of self.new) else None) ≡ accept shape.Rs1 text.now (parts_of self.old) }
    {
        match register_of(text) {
            None => false,
            Some(register) => {
                self.rs1 = register;
                true
            }
        }
    }

    fn take_rs2(&mut self, text: &[u8]) -> bool
        ensures { (if result then Some (parts_of self.new) else None) ≡ accept shape.Rs2 text.now (parts_of self.old) }
    {
        match register_of(text) {
            None => false,
            Some(register) => {
                self.rs2 = register;
                true
            }
        }
    }

    /// Takes an operand, where it may be what it is to be.
    pub fn accept(&mut self, shape: Shape, text: &'a [u8]) -> bool
        ensures { (if result then Some (parts_of self.new) else None) ≡ accept shape text.now (parts_of self.old) }
    {
        match shape {
            Shape::Rd => self.take_rd(text),
            Shape::Rs1 => self.take_rs1(text),
            Shape::Rs2 => self.take_rs2(text),
            Shape::Upper => self.immediate(UPPER, text),
            Shape::Signed12 => self.immediate(SIGNED_12, text),
            Shape::Shift64 => self.immediate(SHIFT_64, text),
            Shape::Shift32 => self.immediate(SHIFT_32, text),
            Shape::Branch => self.immediate(BRANCH, text),
            Shape::Jump => self.immediate(JUMP, text),
            Shape::Offset => self.offset(text),
            Shape::Wide => self.wide(text),
            Shape::Symbol => self.symbolic(text),
            Shape::ThreadAdd => self.thread_add(text),
            Shape::Pred => self.pred(text),
            Shape::Succ => self.succ(text),
        }
    }
}
