//! Machines and instructions of a case's files, for the calls below the whole command.
ghost use Rattle.std.specs.Prelude.{◌≡◌, true, IfOk};
ghost use Rattle.std.specs.List.{All};
ghost use Rattle.rv_isa.specs.Instruction.{is_lawful};

use crate::fault::{Fault, wrong};
use machine_model::Tuning;
use mca_fixed::{MOST_ENTRIES, MOST_REGISTERS, MOST_TEXT_BYTES};
use mca_words::Options;
use rv_asm::{AsmText, ItemRef, read_asm};
use rv_isa::{Instr, is_lawful};
use sched_records::read_table;
use sched_validate::{CheckedTable, validate};
use std::alloc::Global;

/// What the options of a command change of a machine.
pub(crate) fn tuning(alloc: Global, options: &Options) -> Result<Tuning, Fault> {
    tuning_of(
        alloc,
        options.dispatch,
        options.register_file_size,
        options.lqueue,
        options.squeue,
        options.noalias,
    )
}

/// A dispatch width, registers, entries of the load queue and of the store queue, 0 for the machine's own, and whether
/// a load may pass an older store.
pub(crate) fn tuning_of(
    alloc: Global,
    dispatch: u32,
    registers: u32,
    loads: u32,
    stores: u32,
    no_alias: bool,
) -> Result<Tuning, Fault> {
    if dispatch > 64
        || registers > MOST_REGISTERS
        || loads > MOST_ENTRIES
        || stores > MOST_ENTRIES
    {
        return Err(wrong(alloc, "out of range", "options"));
    }
    Ok(Tuning::new(dispatch, registers, loads, stores, no_alias))
}

/// The machine of a table.
pub(crate) fn table_machine(
    alloc: Global,
    table: &[u8],
    tuning: &Tuning,
) -> Result<CheckedTable, Fault> {
    if table.len() > MOST_TEXT_BYTES {
        return Err(wrong(alloc, "longer than the call takes", "table"));
    }
    let Ok(records) = read_table(alloc, table) else {
        return Err(wrong(alloc, "no records", "table"));
    };
    match validate(alloc, &records, tuning) {
        Ok(machine) => Ok(machine),
        Err(_) => Err(wrong(alloc, "no machine", "table")),
    }
}

/// The program of an assembly.
fn program(alloc: Global, text: &[u8]) -> Result<AsmText, Fault> {
    if text.len() > MOST_TEXT_BYTES {
        return Err(wrong(alloc, "longer than the call takes", "assembly"));
    }
    match read_asm(alloc, text) {
        Ok(program) => Ok(program),
        Err(refusal) => Err(wrong(alloc, "no assembly", refusal.kind.name())),
    }
}

/// The instructions of an assembly without marks. Each is one of the manual, which a table of times needs.
pub(crate) fn code(alloc: Global, text: &[u8]) -> Result<Vec<Instr>, Fault>
    ensures { IfOk result (λ code. All (λ i. is_lawful i ≡ true) code.items) }
{
    let program = program(alloc, text)?;
    let mut code = Vec::new(alloc);
    for k in 0..program.items.len() {
        match program.items.get(k) {
            ItemRef::Code(_, instr) if is_lawful(&instr) => code.push(instr)?,
            _ => return Err(wrong(alloc, "no lawful instruction", "assembly")),
        }
    }
    Ok(code)
}
