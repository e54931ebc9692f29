//! The calls of `rv_isa`, `rv_expand` and `rv_asm`.
ghost use Rattle.std.specs.Prelude.{◌≡◌, ◌<◌, true, length};
ghost use Rattle.rv_isa.specs.Spelling.{IsNamed};

use crate::case::Case;
use crate::fault::{Fault, wrong};
use crate::findings::put_bytes;
use mca_fixed::{MOST_TEXT_BYTES, Name};
use rv_asm::{AsmText, ItemRef, Listing, read_asm};
use rv_expand::evaluate;
use rv_isa::{
    Imm, Instr, Op, Reg, default_class, form, has_side_effects, imm_range, is_lawful, kind, op_of,
    reads, register_name, register_of, spell, writes,
};
use std::alloc::Global;
use std::fmt::Write;

/// The answer of a call of this group; none for any other call.
pub(crate) fn answer(alloc: Global, call: &str, case: &Case) -> Result<Option<String>, Fault> {
    match call {
        "read_asm" => Ok(Some(program_of(alloc, case.input("text")?)?)),
        "evaluate" => Ok(Some(value_of(alloc, case.input("text")?)?)),
        "opcode" => Ok(Some(opcode(alloc, case.input("mnemonic")?)?)),
        "register" => Ok(Some(register(alloc, case.input("name")?)?)),
        _ => Ok(None),
    }
}

/// The items of an assembly text in one line, each with its line, and behind `|` its names; or the refusal.
fn program_of(alloc: Global, text: &[u8]) -> Result<String, Fault> {
    if text.len() > MOST_TEXT_BYTES {
        return Err(wrong(alloc, "longer than the call takes", "text"));
    }
    let mut out = String::new(alloc);
    match read_asm(alloc, text) {
        Ok(program) => put_program(alloc, &mut out, &program)?,
        Err(refusal) => {
            let line = refusal.line;
            let kind = refusal.kind.name();
            write!(&mut out, "{line} {kind}")?;
        }
    }
    Ok(out)
}

fn put_program(alloc: Global, out: &mut String, program: &AsmText) -> Result<(), Fault> {
    let names = program.names.as_slice();
    for place in 0..program.items.len() {
        if place != 0 {
            out.push_str("; ")?;
        }
        put_item(alloc, out, &program.items, place, names)?;
    }
    if !names.is_empty() {
        out.push_str(" |")?;
    }
    for name in names {
        out.push(' ')?;
        put_bytes(out, name.as_bytes())?;
    }
    Ok(())
}

fn put_item(
    alloc: Global,
    out: &mut String,
    items: &Listing,
    place: usize,
    names: &[Name],
) -> Result<(), Fault>
    requires { place < length items.now }
{
    match items.get(place) {
        ItemRef::Code(line, instr) => {
            write!(out, "{line} ")?;
            put_bytes(out, &spelled(alloc, &instr, names)?)
        }
        ItemRef::Begin(line, name) => {
            write!(out, "{line} begin ")?;
            put_bytes(out, name.as_bytes())
        }
        ItemRef::End(line, name) => {
            write!(out, "{line} end ")?;
            put_bytes(out, name.as_bytes())
        }
    }
}

fn is_named(imm: Imm, names: &[Name]) -> bool
    ensures { result ≡ true → IsNamed (length names.now) imm }
{
    match imm {
        Imm::Symbol(number) => (number as usize) < names.len(),
        _ => true,
    }
}

/// An instruction, spelled. One that cannot be spelled makes the case fail.
fn spelled(alloc: Global, instr: &Instr, names: &[Name]) -> Result<Vec<u8>, Fault> {
    if !is_lawful(instr) || !is_named(instr.imm, names) {
        return Err(wrong(alloc, "an instruction that cannot be spelled", "text"));
    }
    Ok(spell(alloc, instr, names)?)
}

/// The value that the instructions of a text leave in a register, as rv_expand evaluates lists.
fn value_of(alloc: Global, text: &[u8]) -> Result<String, Fault> {
    if text.len() > MOST_TEXT_BYTES {
        return Err(wrong(alloc, "longer than the call takes", "text"));
    }
    let Ok(program) = read_asm(alloc, text) else {
        return Err(wrong(alloc, "not assembly", "text"));
    };
    let mut list = Vec::new(alloc);
    for place in 0..program.items.len() {
        if let ItemRef::Code(_, instr) = program.items.get(place) {
            list.push(instr)?;
        }
    }
    let mut out = String::new(alloc);
    match evaluate(list.as_slice()) {
        Some(value) => write!(&mut out, "{value}")?,
        None => out.push_str("none")?,
    }
    Ok(out)
}

/// What is known of an opcode: its number, its immediate, the registers that it writes and reads where `rd`, `rs1` and
/// `rs2` are a0, a1 and a2, its kind, whether it has side effects, and its default classes.
fn opcode(alloc: Global, mnemonic: &[u8]) -> Result<String, Fault> {
    let mut out = String::new(alloc);
    let Some(op) = op_of(mnemonic) else {
        out.push_str("none")?;
        return Ok(out);
    };
    let number = op.number();
    write!(&mut out, "{number}")?;
    put_range(&mut out, op)?;
    put_accesses(&mut out, op)?;
    let kind = kind(op);
    write!(&mut out, " {kind:?}")?;
    if has_side_effects(op) {
        out.push_str(" effects")?;
    }
    let classes = default_class(op);
    for name in [classes.write, classes.read1, classes.read2] {
        if !name.is_empty() {
            out.push(' ')?;
            out.push_str(name)?;
        }
    }
    Ok(out)
}

fn put_range(out: &mut String, op: Op) -> Result<(), Fault> {
    match imm_range(op) {
        None => out.push_str(" none")?,
        Some(range) => {
            let low = range.low;
            let high = range.high;
            write!(out, " {low}..{high}")?;
            if range.even {
                out.push_str(" even")?;
            }
        }
    }
    if form(op).takes_symbol() {
        out.push_str(" or a symbol")?;
    }
    Ok(())
}

fn put_accesses(out: &mut String, op: Op) -> Result<(), Fault> {
    let every = Instr {
        op,
        rd: Reg::new(10),
        rs1: Reg::new(11),
        rs2: Reg::new(12),
        imm: Imm::None,
    };
    let [first, second] = reads(&every);
    out.push_str(", ")?;
    out.push_str(register_name(writes(&every)))?;
    out.push_str(" < ")?;
    out.push_str(register_name(first))?;
    out.push(' ')?;
    out.push_str(register_name(second))?;
    out.push(',')?;
    Ok(())
}

/// The name in the calling convention of the register that a text names.
fn register(alloc: Global, name: &[u8]) -> Result<String, Fault> {
    let text = match register_of(name) {
        Some(register) => register_name(register),
        None => "none",
    };
    Ok(String::from_str(alloc, text)?)
}
