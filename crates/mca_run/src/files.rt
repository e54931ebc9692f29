//! The two files that the options name.
ghost use Rattle.std.specs.Prelude.{◌≡◌, ◌≤◌, ◌<◌, ℕ, List, length, Ok, IfOk, IfErr, OnOk};
ghost use Rattle.std.specs.Io.KnownBytes.{IsAtEnd};
ghost use Rattle.mca_io.specs.Devices.{IfContent, Rose};
ghost use Rattle.region_marks.specs.Marked.{code_of};
ghost use Rattle.region_marks.specs.Regions.{regions_of};
ghost use Rattle.rv_asm.specs.Program.{IsProgram};
ghost use Rattle.rv_asm.specs.declared.item.Item.{Item};
ghost use Rattle.sched_records.specs.Table.{HasRecords};
ghost use Rattle.mca_run.specs.Refusal.{Contents, IsInput, IsTable, IsAsmRefusal, IsTableRefusal, IfRefused};
ghost use Rattle.mca_run.specs.Steps.{TellsName, IsUnread, MayRefuseText, MayRefuseRecordsOf, IsOfFiles, IsSound};

use crate::program::{Program, code};
use crate::status::{LimitKind, Status};
use crate::stop::Stop;
use mca_fixed::{Items, MOST_TEXT_BYTES};
use mca_io::{ReadFault, Shelf, read_named};
use mca_words::Options;
use region_marks::regions;
use rv_asm::{AsmText, read_asm};
use sched_records::{MOST_RECORDS, Records, read_table};
use std::alloc::Global;

/// The content of a name. A content that is too long passes this limit.
fn content<F: Shelf>(
    alloc: Global,
    shelf: &mut F,
    name: &str,
    limit: LimitKind,
) -> Result<Vec<u8>, Stop>
    ensures content { IfOk result (λ v. IfContent (F.told shelf.old name.now) (λ text. v.items ≡ text)) }
    ensures short { IfOk result (λ v. length v.items ≤ MOST_TEXT_BYTES) }
    ensures end { OnOk result (IsAtEnd (F.rest shelf.new)) }
    ensures err { IfErr result (λ stop. IsUnread (F.told shelf.old name.now) limit stop.status) }
    ensures fault { IfErr result (λ stop. stop.status ≡ Status.ReadFault →
        Rose (F.faults shelf.old name.now) (F.faults shelf.new name.now)) }
    ensures told { (n : List ℕ) → F.told shelf.new n ≡ F.told shelf.old n }
    ensures later { (n : List ℕ) → F.faults shelf.old n ≤ F.faults shelf.new n }
{
    let status = match read_named(alloc, shelf, name, MOST_TEXT_BYTES) {
        Ok(text) => return Ok(text),
        Err(ReadFault::Failed) => Status::ReadFault,
        Err(ReadFault::TooLong) => Status::Limit(limit, MOST_TEXT_BYTES as u64 + 1),
        Err(ReadFault::Memory) => Status::Memory,
    };
    Err(Stop { status })
}

/// The program of an assembly text, or the status that refuses it.
fn program(alloc: Global, text: &[u8]) -> Result<Program, Stop>
    requires { length text.now ≤ MOST_TEXT_BYTES }
    ensures ok { IfOk result (λ p. (items : List Item) × IsProgram text.now items p.names
        × (p.code ≡ code_of items) × (regions_of items ≡ Ok p.regions)) }
    ensures sound { IfOk result IsSound }
    ensures err { IfErr result (λ stop. MayRefuseText text.now stop.status) }
{
    let asm = read_asm(alloc, text)?;
    let regions = regions(alloc, &asm)?;
    let code = code(alloc, &asm.items)?;
    let AsmText { names, .. } = asm;
    Ok(Program {
        code: Items::from_vec(code),
        regions: Items::from_vec(regions),
        names,
    })
}

/// Reads the assembly.
pub(crate) fn read_assembly<F: Shelf>(
    alloc: Global,
    options: &Options,
    shelf: &mut F,
) -> Result<Program, Stop>
    ensures ok { IfOk result (λ p. (contents : Contents) → TellsName (F.told shelf.old) contents options.now.input →
        IsInput contents options.now p) }
    ensures end { OnOk result (IsAtEnd (F.rest shelf.new)) }
    ensures sound { IfOk result IsSound }
    ensures err { IfErr result (λ stop. (contents : Contents) → TellsName (F.told shelf.old) contents options.now.input →
        IfRefused (IsAsmRefusal contents options.now) stop.status) }
    ensures of_files { IfErr result (λ stop. IsOfFiles stop.status) }
    ensures fault { IfErr result (λ stop. stop.status ≡ Status.ReadFault →
        Rose (F.faults shelf.old options.now.input) (F.faults shelf.new options.now.input)) }
    ensures told { (n : List ℕ) → F.told shelf.new n ≡ F.told shelf.old n }
    ensures later { (n : List ℕ) → F.faults shelf.old n ≤ F.faults shelf.new n }
{
    let text = content(
        alloc,
        shelf,
        options.input.as_str(),
        LimitKind::AssemblyBytes,
    )?;
    program(alloc, &text)
}

/// The records of a table's text, or the status that refuses it.
fn records(alloc: Global, text: &[u8]) -> Result<Records, Stop>
    requires { length text.now ≤ MOST_TEXT_BYTES }
    ensures has { IfOk result (HasRecords text.now) }
    ensures few { IfOk result (λ records. length records ≤ MOST_RECORDS) }
    ensures err { IfErr result (λ stop. MayRefuseRecordsOf text.now stop.status) }
{
    Ok(read_table(alloc, text)?)
}

/// Reads the scheduling table.
pub(crate) fn read_records<F: Shelf>(
    alloc: Global,
    options: &Options,
    shelf: &mut F,
) -> Result<Records, Stop>
    ensures ok { IfOk result (λ records. (contents : Contents) → TellsName (F.told shelf.old) contents options.now.table →
        IsTable contents options.now records) }
    ensures few { IfOk result (λ records. length records ≤ MOST_RECORDS) }
    ensures end { OnOk result (IsAtEnd (F.rest shelf.new)) }
    ensures err { IfErr result (λ stop. (contents : Contents) → TellsName (F.told shelf.old) contents options.now.table →
        IfRefused (IsTableRefusal contents options.now) stop.status) }
    ensures of_files { IfErr result (λ stop. IsOfFiles stop.status) }
    ensures fault { IfErr result (λ stop. stop.status ≡ Status.ReadFault →
        Rose (F.faults shelf.old options.now.table) (F.faults shelf.new options.now.table)) }
    ensures later { (n : List ℕ) → F.faults shelf.old n ≤ F.faults shelf.new n }
{
    let text = content(alloc, shelf, options.table.as_str(), LimitKind::TableBytes)?;
    records(alloc, &text)
}
