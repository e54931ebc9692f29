//! The items of a statement.
ghost use Rattle.std.specs.Prelude.{◌≡◌, ◌<◌, ◌≤◌, ◌+◌, ◌-◌, ◌^◌, ◌++◌, Ok, Some, true, length, map, OnOk, IfOk};
ghost use Rattle.rv_asm.specs.declared.item.Item.TheVariants as item;
ghost use Rattle.rv_asm.specs.declared.form.Makes.{Makes as MakesOf};
ghost use Rattle.rv_asm.specs.Operands.{parts_of};
ghost use Rattle.rv_asm.specs.Forms.{fit_of};
ghost use Rattle.rv_asm.specs.Meaning.{meaning};
ghost use Rattle.rv_asm.specs.Faults.{least};
ghost use Rattle.rv_asm.specs.Items.{numbered, named, made_by, is_right, items_at, names_at, faults_at};

use crate::fault::Fault;
use crate::form::{Made, Makes};
use crate::instruction::meaning;
use crate::item::Item;
use crate::listing::Listing;
use crate::names::Names;
use crate::operand::Parts;
use mca_fixed::NoMemory;
use rv_expand::{Pseudo, expand};
use rv_isa::{Imm, Instr};
use std::alloc::Global;

/// The immediate, with the number of its symbol.
fn numbered(alloc: Global, parts: &Parts<'_>, names: &mut Names) -> Result<Imm, NoMemory>
    requires { length names.old < 2 ^ 32 - 1 }
    ensures right { IfOk result (λ i. (m : MakesOf) → is_right m (parts_of parts.now) parts.now.imm ≡ true → is_right m (parts_of parts.now) i ≡ true) }
    ensures imm { IfOk result (λ i. i ≡ numbered names.old (parts_of parts.now).symbol (parts_of parts.now).imm) }
    ensures names { OnOk result (names.new ≡ named names.old (parts_of parts.now).symbol (parts_of parts.now).imm) }
    ensures more { OnOk result (length names.new ≤ length names.old + 1) }
{
    match parts.imm {
        Imm::Symbol(_) => Ok(Imm::Symbol(names.number(alloc, parts.symbol)?)),
        imm => Ok(imm),
    }
}

/// The instructions that a form stands for.
fn made_by(alloc: Global, makes: Makes, parts: &Parts<'_>, imm: Imm) -> Result<Vec<Instr>, NoMemory>
    requires { is_right makes (parts_of parts.now) imm ≡ true }
    ensures { IfOk result (λ list. list.items ≡ made_by makes (parts_of parts.now) imm) }
{
    match makes {
        Makes::One(op) => {
            let instr = Instr {
                op,
                rd: parts.rd,
                rs1: parts.rs1,
                rs2: parts.rs2,
                imm,
            };
            Ok(vec![in alloc; instr]?)
        }
        Makes::Several(kind) => {
            let pseudo = Pseudo {
                kind,
                rd: parts.rd,
                rs1: parts.rs1,
                rs2: parts.rs2,
                imm,
            };
            expand(alloc, &pseudo)
        }
    }
}

fn push_code(line: u32, list: &[Instr], items: &mut Listing) -> Result<(), NoMemory>
    ensures { OnOk result (items.new ≡ items.old ++ map (λ i. item.Code line i) list.now) }
{
    for instr in list {
        items.push(Item::Code(line, *instr))?;
    }
    Ok(())
}

/// The items of an instruction go behind the others, and its symbol behind the names.
fn put_made(
    alloc: Global,
    line: u32,
    made: &Made<'_>,
    names: &mut Names,
    items: &mut Listing,
) -> Result<(), NoMemory>
    requires names { length names.old < 2 ^ 32 - 1 }
    requires right { is_right made.now.makes (parts_of made.now.parts) made.now.parts.imm ≡ true }
    ensures items { OnOk result (items.new ≡ items.old ++ items_at line names.old (Ok (Some (fit_of made.now)))) }
    ensures names { OnOk result (names.new ≡ names_at names.old (Ok (Some (fit_of made.now)))) }
    ensures more { OnOk result (length names.new ≤ length names.old + 1) }
{
    let imm = numbered(alloc, &made.parts, names)?;
    let list = made_by(alloc, made.makes, &made.parts, imm)?;
    push_code(line, &list, items)
}

/// The items of a statement go behind the others, and its symbol behind the names; or it has a fault.
pub fn put_statement(
    alloc: Global,
    line: u32,
    text: &[u8],
    names: &mut Names,
    items: &mut Listing,
) -> Result<Option<Fault>, NoMemory>
    requires { length names.old < 2 ^ 32 - 1 }
    ensures items { OnOk result (items.new ≡ items.old ++ items_at line names.old (meaning text.now)) }
    ensures names { OnOk result (names.new ≡ names_at names.old (meaning text.now)) }
    ensures fault { IfOk result (λ f. f ≡ least (faults_at line (meaning text.now))) }
    ensures more { OnOk result (length names.new ≤ length names.old + 1) }
{
    match meaning(text) {
        Ok(None) => Ok(None),
        Ok(Some(made)) => {
            put_made(alloc, line, &made, names, items)?;
            Ok(None)
        }
        Err(cause) => Ok(Some(Fault { line, cause })),
    }
}
