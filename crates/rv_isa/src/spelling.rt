//! How an instruction is spelled.
ghost use Rattle.std.specs.Prelude.{◌≡◌, ◌≢◌, ◌++◌, codes, length, pos, true, is_some, OnOk, IfOk};
ghost use Rattle.rv_isa.specs.Opcodes.{facts_of};
ghost use Rattle.rv_isa.specs.Registers.{name_of};
ghost use Rattle.rv_isa.specs.Spelling.{IsNamed, IsSets, behind, imm_of, offset_of, operands, sets_of, spelling};

use crate::facts::Form;
use crate::instr::{Imm, Instr};
use crate::reg::Reg;
use crate::registers::register_name;
use crate::sets::set_name;
use crate::table::{form, mnemonic};
use mca_fixed::{Name, NoMemory, whole};
use std::alloc::Global;

/// The canonical spelling of `instr`: its mnemonic, one space where operands follow, and the operands with
/// a comma and a space between them. Registers have their names in the calling convention, numbers are
/// decimal, and a symbolic immediate is the text among `names` whose number it holds. The two sets of a
/// `fence` have the letters `iorw` in this order, and `0` for none.
pub fn spell(alloc: Global, instr: &Instr, names: &[Name]) -> Result<Vec<u8>, NoMemory>
    requires named { IsNamed (length names.now) instr.now.imm }
    requires given { is_some (facts_of instr.now.op).range ≡ true → instr.now.imm ≢ Imm.None }
    requires sets { IsSets (facts_of instr.now.op).form instr.now.imm }
    ensures { IfOk result (λ text. text.items ≡ spelling instr.now names.now) }
{
    let mut text = Vec::from_slice(alloc, mnemonic(instr.op).as_bytes())?;
    put_operands(alloc, &mut text, instr, names)?;
    Ok(text)
}

fn put_operands(
    alloc: Global,
    text: &mut Vec<u8>,
    instr: &Instr,
    names: &[Name],
) -> Result<(), NoMemory>
    requires named { IsNamed (length names.now) instr.now.imm }
    requires sets { IsSets (facts_of instr.now.op).form instr.now.imm }
    ensures { OnOk result (text.new.items ≡ text.old.items ++ behind (codes " ") (operands names.now instr.now (facts_of instr.now.op).form)) }
{
    let Instr {
        op,
        rd,
        rs1,
        rs2,
        imm,
    } = *instr;
    match form(op) {
        Form::RdImm => {
            put_register(text, b" ", rd)?;
            put_imm(alloc, text, imm, names)
        }
        Form::RdRs1Imm => {
            put_register(text, b" ", rd)?;
            put_register(text, b", ", rs1)?;
            put_imm(alloc, text, imm, names)
        }
        Form::RdRs1Rs2 => {
            put_register(text, b" ", rd)?;
            put_register(text, b", ", rs1)?;
            put_register(text, b", ", rs2)
        }
        Form::RdOffset => {
            put_register(text, b" ", rd)?;
            put_offset(alloc, text, instr, names)
        }
        Form::Rs2Offset => {
            put_register(text, b" ", rs2)?;
            put_offset(alloc, text, instr, names)
        }
        Form::Rs1Rs2Imm => {
            put_register(text, b" ", rs1)?;
            put_register(text, b", ", rs2)?;
            put_imm(alloc, text, imm, names)
        }
        Form::Sets => put_sets(text, imm),
        Form::Nothing => Ok(()),
    }
}

/// A register behind a separator.
fn put_register(text: &mut Vec<u8>, separator: &[u8], register: Reg) -> Result<(), NoMemory>
    ensures { OnOk result (text.new.items ≡ text.old.items ++ (separator.now ++ name_of register)) }
{
    text.extend_from_slice(separator)?;
    text.extend_from_slice(register_name(register).as_bytes())?;
    Ok(())
}

/// An immediate behind a comma.
fn put_imm(alloc: Global, text: &mut Vec<u8>, imm: Imm, names: &[Name]) -> Result<(), NoMemory>
    requires { IsNamed (length names.now) imm }
    ensures { OnOk result (text.new.items ≡ text.old.items ++ (codes ", " ++ imm_of names.now imm)) }
{
    text.extend_from_slice(b", ")?;
    match imm {
        Imm::None => Ok(()),
        Imm::Value(number) => put(text, whole(alloc, number as i128)?.as_slice()),
        Imm::Symbol(number) => put(text, names[number as usize].as_bytes()),
    }
}

/// An offset and its base register behind a comma.
fn put_offset(
    alloc: Global,
    text: &mut Vec<u8>,
    instr: &Instr,
    names: &[Name],
) -> Result<(), NoMemory>
    requires { IsNamed (length names.now) instr.now.imm }
    ensures { OnOk result (text.new.items ≡ text.old.items ++ (codes ", " ++ offset_of names.now instr.now)) }
{
    put_imm(alloc, text, instr.imm, names)?;
    put_register(text, b"(", instr.rs1)?;
    put(text, b")")
}

/// The two sets of a fence.
fn put_sets(text: &mut Vec<u8>, imm: Imm) -> Result<(), NoMemory>
    requires { IsSets Form.Sets imm }
    ensures { OnOk result (text.new.items ≡ text.old.items ++ behind (codes " ") (sets_of imm)) }
{
    let number = sets_number(imm);
    text.extend_from_slice(b" ")?;
    text.extend_from_slice(set_name(number / 16).as_bytes())?;
    text.extend_from_slice(b", ")?;
    text.extend_from_slice(set_name(number % 16).as_bytes())?;
    Ok(())
}

/// The two sets of a fence as one number.
fn sets_number(imm: Imm) -> u8
    requires { IsSets Form.Sets imm }
    ensures { imm ≡ Imm.Value (pos result) }
{
    match imm {
        Imm::Value(number) => number as u8,
        _ => unreachable!(),
    }
}

fn put(text: &mut Vec<u8>, piece: &[u8]) -> Result<(), NoMemory>
    ensures { OnOk result (text.new.items ≡ text.old.items ++ piece.now) }
{
    text.extend_from_slice(piece)?;
    Ok(())
}
