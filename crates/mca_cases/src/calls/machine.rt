//! The calls of `sched_validate`: the machine of a table, and instructions bound to it.
ghost use Rattle.std.specs.Prelude.{◌≤◌, length, IfOk};

use crate::case::Case;
use crate::fault::{Fault, wrong};
use crate::inputs::tuning_of;
use cycle_rules::Bound;
use machine_model::{ClassAnswer, Limits, Machine, NO_CLASS, Tuning, WriteFacts};
use mca_fixed::MOST_TEXT_BYTES;
use rv_isa::{Imm, Instr, Op, Reg, mnemonic};
use sched_records::{MOST_RECORDS, Records, read_table};
use sched_resolve::all_opcodes;
use sched_validate::{bind, validate};
use std::alloc::Global;
use std::fmt::Write;
use unit_sets::UnitMask;

/// The answer of a call of this group; none for any other call.
pub(crate) fn answer(alloc: Global, call: &str, case: &Case) -> Result<Option<String>, Fault> {
    if call == "validate" {
        let (table, options) = case.inputs("table", "options")?;
        return Ok(Some(machine(alloc, table, options)?));
    }
    if call == "bind" {
        let (table, code) = case.inputs("table", "code")?;
        return Ok(Some(body(alloc, table, code)?));
    }
    Ok(None)
}

/// The machine of a table, with the options of the command line, as it tells itself; or its first illness.
fn machine(alloc: Global, table: &[u8], options: &[u8]) -> Result<String, Fault> {
    let records = records_of(alloc, table)?;
    let tuning = Changes::read(alloc, options)?.tuning(alloc)?;
    match validate(alloc, &records, &tuning) {
        Ok(machine) => told(alloc, &machine),
        Err(illness) => Ok(format!(in alloc;
            "record {}: {}",
            illness.number,
            illness.kind.name()
        )?),
    }
}

/// The instructions of the opcodes of these lines, bound to the machine of a table; or the fault of the first that
/// it does not run.
fn body(alloc: Global, table: &[u8], code: &[u8]) -> Result<String, Fault> {
    let records = records_of(alloc, table)?;
    let code = code_of(alloc, code)?;
    match validate(alloc, &records, &Tuning::new(0, 0, 0, 0, true)) {
        Ok(machine) => bound(alloc, &machine, &code),
        Err(_) => Err(wrong(alloc, "no machine", "table")),
    }
}

// What a case gives

/// The records of a table.
fn records_of(alloc: Global, table: &[u8]) -> Result<Records, Fault>
    ensures { IfOk result (λ records. length records ≤ MOST_RECORDS) }
{
    if table.len() > MOST_TEXT_BYTES {
        return Err(wrong(alloc, "longer than the call takes", "table"));
    }
    match read_table(alloc, table) {
        Ok(records) => Ok(records),
        Err(refusal) => Err(wrong(alloc, "no records", refusal.kind.name())),
    }
}

/// A line of options: its name, and its number.
fn option(alloc: Global, line: &str) -> Result<(&str, u32), Fault> {
    let (name, digits) = line.split_once('=').unwrap_or((line, ""));
    match digits.parse::<u32>() {
        Ok(number) => Ok((name, number)),
        Err(_) => Err(wrong(alloc, "no number", line)),
    }
}

/// What the options of the command line change of a machine.
#[derive(Clone, Copy)]
struct Changes {
    dispatch: u32,
    registers: u32,
    loads: u32,
    stores: u32,
    no_alias: bool,
}

impl Changes {
    /// One option more.
    fn with(self, alloc: Global, line: &str) -> Result<Changes, Fault> {
        if line == "-noalias=false" {
            return Ok(Changes {
                no_alias: false,
                ..self
            });
        }
        let (name, number) = option(alloc, line)?;
        match name {
            "-dispatch" => Ok(Changes {
                dispatch: number,
                ..self
            }),
            "-register-file-size" => Ok(Changes {
                registers: number,
                ..self
            }),
            "-lqueue" => Ok(Changes {
                loads: number,
                ..self
            }),
            "-squeue" => Ok(Changes {
                stores: number,
                ..self
            }),
            _ => Err(wrong(alloc, "unknown option", line)),
        }
    }

    /// The options of these lines.
    fn read(alloc: Global, options: &[u8]) -> Result<Changes, Fault> {
        let Ok(options) = str::from_utf8(options) else {
            return Err(wrong(alloc, "not in UTF-8", "options"));
        };
        let mut changes = Changes {
            dispatch: 0,
            registers: 0,
            loads: 0,
            stores: 0,
            no_alias: true,
        };
        for line in options.split_terminator('\n') {
            changes = changes.with(alloc, line)?;
        }
        Ok(changes)
    }

    fn tuning(&self, alloc: Global) -> Result<Tuning, Fault> {
        let Changes {
            dispatch,
            registers,
            loads,
            stores,
            no_alias,
        } = *self;
        tuning_of(alloc, dispatch, registers, loads, stores, no_alias)
    }
}

/// An instruction of an opcode, of the registers x10, x11 and x12.
fn instr(op: Op) -> Instr {
    Instr {
        op,
        rd: Reg::new(10),
        rs1: Reg::new(11),
        rs2: Reg::new(12),
        imm: Imm::None,
    }
}

/// The opcode of a name.
fn op_of(alloc: Global, name: &str) -> Result<Op, Fault> {
    for op in all_opcodes() {
        if mnemonic(*op) == name {
            return Ok(*op);
        }
    }
    Err(wrong(alloc, "no opcode", name))
}

/// An instruction of each opcode.
fn code_of(alloc: Global, names: &[u8]) -> Result<Vec<Instr>, Fault> {
    let Ok(names) = str::from_utf8(names) else {
        return Err(wrong(alloc, "not in UTF-8", "code"));
    };
    let mut code = Vec::new(alloc);
    for name in names.split_terminator('\n') {
        code.push(instr(op_of(alloc, name)?))?;
    }
    Ok(code)
}

// What a machine tells

fn put_limits(out: &mut String, limits: &Limits) -> Result<(), Fault> {
    let (width, reorder, retire) = (limits.width, limits.reorder, limits.retire);
    write!(
        out,
        "width {width}, reorder buffer {reorder}, retire width {retire}"
    )?;
    let (loads, stores, registers) = (limits.loads, limits.stores, limits.registers);
    write!(
        out,
        ", load queue {loads}, store queue {stores}, in flight {registers}"
    )?;
    writeln!(out, ", no alias {}", limits.no_alias)?;
    Ok(())
}

fn put_units<U: UnitMask>(out: &mut String, units: &U) -> Result<(), Fault> {
    for unit in 0..U::SIZE {
        if units.has(unit) {
            write!(out, " {unit}")?;
        }
    }
    writeln!(out)?;
    Ok(())
}

fn put_resources<M: Machine>(out: &mut String, machine: &M) -> Result<(), Fault> {
    for r in 0..machine.resource_count() {
        let name = machine.resource_name(r);
        let buffer = machine.buffer(r);
        write!(out, "{name}: buffer {buffer}, units")?;
        put_units(out, &machine.mask(r))?;
    }
    Ok(())
}

fn name_of<M: Machine>(machine: &M, resource: u8) -> &str {
    if (resource as usize) < machine.resource_count() {
        machine.resource_name(resource as usize)
    } else {
        "no resource"
    }
}

fn put_owners<M: Machine>(out: &mut String, machine: &M) -> Result<(), Fault> {
    for unit in 0..M::UNITS {
        if let Some(owner) = machine.owner(unit) {
            let place = owner.place;
            let name = name_of(machine, owner.resource);
            writeln!(out, "unit {unit}: {place} of {name}")?;
        }
    }
    Ok(())
}

fn put_facts<M: Machine>(out: &mut String, machine: &M, facts: &WriteFacts) -> Result<(), Fault> {
    let (latency, uops) = (facts.latency, facts.uops);
    write!(out, "latency {latency}, micro-ops {uops}")?;
    for used in facts.uses.iter().take(facts.use_count as usize) {
        let name = name_of(machine, used.resource);
        let hold = used.hold;
        write!(out, ", {name} {hold}")?;
    }
    if facts.begins_group {
        write!(out, ", begins a group")?;
    }
    if facts.ends_group {
        write!(out, ", ends a group")?;
    }
    Ok(())
}

/// The numbers of the class of an opcode.
fn put_class<M: Machine>(out: &mut String, machine: &M, op: Op) -> Result<(), Fault> {
    match machine.class_of(op) {
        ClassAnswer::Missing => write!(out, "missing")?,
        ClassAnswer::Unsupported => write!(out, "unsupported")?,
        ClassAnswer::Class(classes) => {
            if (classes.write as usize) < machine.write_count() {
                put_facts(out, machine, &machine.class(classes.write))?;
            }
        }
    }
    Ok(())
}

/// That an instruction of an opcode issues as it dispatches, or why it is not bound.
fn put_binding<M: Machine>(
    alloc: Global,
    out: &mut String,
    machine: &M,
    op: Op,
) -> Result<(), Fault> {
    match bind(alloc, machine, &[instr(op)]) {
        Err(fault) => write!(out, ", {fault:?}")?,
        Ok(body) => {
            for bound in body.as_slice() {
                if bound.reserved {
                    write!(out, ", reserved")?;
                }
            }
        }
    }
    writeln!(out)?;
    Ok(())
}

fn put_classes<M: Machine>(alloc: Global, out: &mut String, machine: &M) -> Result<(), Fault> {
    for op in all_opcodes() {
        let name = mnemonic(*op);
        write!(out, "{name}: ")?;
        put_class(out, machine, *op)?;
        put_binding(alloc, out, machine, *op)?;
    }
    Ok(())
}

/// The advance of a read after a write; none where there are no such classes.
fn advance<M: Machine>(machine: &M, read: u16, write: u16) -> Option<i32> {
    if write as usize >= machine.write_count() {
        return None;
    }
    if read == NO_CLASS {
        return Some(machine.advance(read, write));
    }
    if read as usize >= machine.read_count() {
        return None;
    }
    Some(machine.advance(read, write))
}

fn put_advances<M: Machine>(out: &mut String, machine: &M, read: u16) -> Result<(), Fault> {
    for write in 0..machine.write_count() {
        match advance(machine, read, write as u16) {
            Some(cycles) => write!(out, " {cycles}")?,
            None => write!(out, " none")?,
        }
    }
    writeln!(out)?;
    Ok(())
}

/// The advances of the reads of `add` after each of the writes, in their order.
fn put_reads_of_add<M: Machine>(out: &mut String, machine: &M) -> Result<(), Fault> {
    if let ClassAnswer::Class(classes) = machine.class_of(Op::Add) {
        let [rs1, rs2] = classes.reads;
        write!(out, "advances of rs1 of add:")?;
        put_advances(out, machine, rs1)?;
        write!(out, "advances of rs2 of add:")?;
        put_advances(out, machine, rs2)?;
    }
    Ok(())
}

fn put_files<M: Machine>(out: &mut String, machine: &M) -> Result<(), Fault> {
    let (reads, files) = (machine.read_count(), machine.file_count());
    writeln!(out, "{reads} read classes, {files} register files")?;
    for file in 0..files {
        let size = machine.file_size(file);
        writeln!(out, "file {file} has {size} registers")?;
    }
    Ok(())
}

fn put_shares<M: Machine>(out: &mut String, machine: &M) -> Result<(), Fault> {
    for register in 0..32 {
        if let Some(share) = machine.file_of(Reg::new(register)) {
            let (file, cost) = (share.file, share.cost);
            writeln!(out, "x{register} takes {cost} in file {file}")?;
        }
    }
    Ok(())
}

/// What a machine tells, in lines.
fn told<M: Machine>(alloc: Global, machine: &M) -> Result<String, Fault> {
    let mut out = String::new(alloc);
    put_limits(&mut out, &machine.limits())?;
    put_resources(&mut out, machine)?;
    put_owners(&mut out, machine)?;
    put_classes(alloc, &mut out, machine)?;
    put_reads_of_add(&mut out, machine)?;
    put_files(&mut out, machine)?;
    put_shares(&mut out, machine)?;
    Ok(out)
}

// What is bound

/// The number of a read class; none where there is none.
fn put_read(out: &mut String, read: u16) -> Result<(), Fault> {
    if read == NO_CLASS {
        write!(out, " none")?;
    } else {
        write!(out, " {read}")?;
    }
    Ok(())
}

/// A bound instruction: its uses in their order, the registers that it reads with the classes of the reads, and the
/// one that it writes.
fn put_bound<M: Machine>(out: &mut String, machine: &M, bound: &Bound) -> Result<(), Fault> {
    let (name, uops, latency) = (mnemonic(bound.op), bound.uops, bound.latency);
    write!(out, "{name}: micro-ops {uops}, latency {latency}")?;
    for used in bound.uses.iter().take(bound.use_count as usize) {
        let name = name_of(machine, used.resource);
        let hold = used.hold;
        write!(out, ", {name} {hold}")?;
    }
    for source in bound.reads.iter().take(bound.read_count as usize) {
        let register = source.reg.number();
        write!(out, ", reads x{register} as")?;
        put_read(out, source.read)?;
    }
    let (register, write) = (bound.rd.number(), bound.write);
    write!(out, ", writes x{register} as {write}")?;
    if bound.reserved {
        write!(out, ", reserved")?;
    }
    writeln!(out)?;
    Ok(())
}

fn bound<M: Machine>(alloc: Global, machine: &M, code: &[Instr]) -> Result<String, Fault> {
    let mut out = String::new(alloc);
    match bind(alloc, machine, code) {
        Ok(body) => {
            for bound in body.as_slice() {
                put_bound(&mut out, machine, bound)?;
            }
        }
        Err(fault) => write!(&mut out, "{fault:?}")?,
    }
    Ok(out)
}
