//! How a call of the tool ends.
ghost use Rattle.std.specs.Prelude.{◌≡◌, ◌++◌, IfOk, string_bytes, codes, decimal};
ghost use Rattle.mca_run.specs.Lines.{line_of, number_of, op_kind_name, machine_line, limit_kind_name};

use mca_fixed::NoMemory;
use mca_words::WordFault;
use rv_asm::AsmRefusal;
use rv_isa::{Op, mnemonic};
use sched_checks::IllKind;
use sched_records::TableRefusal;
use std::alloc::Global;

/// The limits that an input can pass.
#[derive(Clone, Copy, Debug, PartialEq, Eq)]
pub enum LimitKind {
    /// The bytes of the assembly, 8,388,608.
    AssemblyBytes,
    /// The bytes of the table, 8,388,608.
    TableBytes,
    /// The rows of a region's run, instructions times iterations, 1,048,576.
    RunSize,
    /// The bytes of the report, 67,108,864.
    ReportBytes,
}

impl LimitKind {
    /// The kind's name, as an error line prints it.
    pub fn name(self) -> &'static str
        ensures { result.now ≡ limit_kind_name self }
    {
        match self {
            LimitKind::AssemblyBytes => "AssemblyBytes",
            LimitKind::TableBytes => "TableBytes",
            LimitKind::RunSize => "RunSize",
            LimitKind::ReportBytes => "ReportBytes",
        }
    }
}

/// Why a machine does not run an opcode.
#[derive(Clone, Copy, Debug, PartialEq, Eq)]
pub enum OpKind {
    /// The machine has no class for it.
    NoWriteRes,
    /// Its class is marked as not supported.
    UnsupportedOp,
}

impl OpKind {
    /// The kind's name, as an error line prints it.
    pub fn name(self) -> &'static str
        ensures { result.now ≡ op_kind_name self }
    {
        match self {
            OpKind::NoWriteRes => "NoWriteRes",
            OpKind::UnsupportedOp => "UnsupportedOp",
        }
    }
}

/// Why a table is no machine, or a machine does not run a program.
#[derive(Clone, Copy, Debug, PartialEq, Eq)]
pub enum MachineRefusal {
    /// A record of the table, numbered from 1, or 0 for the table as a whole, has an illness. It is never
    /// `IllKind::Memory`.
    Record(u32, IllKind),
    /// The machine does not run an opcode of the program.
    Opcode(Op, OpKind),
}

/// How a call of the tool ended.
#[derive(Clone, Copy, Debug, PartialEq, Eq)]
pub enum Status {
    /// The whole report was written.
    Done,
    /// The command line was refused.
    Words(WordFault),
    /// The assembly was refused.
    Assembly(AsmRefusal),
    /// The scheduling table was refused.
    Table(TableRefusal),
    /// The machine was refused, or it refused the program.
    Machine(MachineRefusal),
    /// A limit was passed: by a file or the report, with the limit plus one; by a run, with its rows.
    Limit(LimitKind, u64),
    /// A named file could not be read.
    ReadFault,
    /// The report, or the line of another status, could not be written.
    WriteFault,
    /// There was no memory.
    Memory,
}

impl Status {
    /// The status's number, with which the program ends: 0 for `Done`, 1 for the words, 2 for the
    /// assembly, 3 for the table, 4 for the machine, 5 for a limit, 6 and 7 for a device, 8 for want of memory.
    pub fn number(&self) -> u8
        ensures { result ≡ number_of self.now }
    {
        match self {
            Status::Done => 0,
            Status::Words(_) => 1,
            Status::Assembly(_) => 2,
            Status::Table(_) => 3,
            Status::Machine(_) => 4,
            Status::Limit(_, _) => 5,
            Status::ReadFault => 6,
            Status::WriteFault => 7,
            Status::Memory => 8,
        }
    }
}

/// A line of a number and a kind.
fn kind_line(alloc: Global, head: &str, number: u64, kind: &str) -> Result<String, NoMemory>
    ensures { IfOk result (λ text. string_bytes text ≡ head.now ++ decimal number ++ codes ": " ++ kind.now ++ codes "\n") }
{
    let mut text = String::from_str(alloc, head)?;
    text.push_str(format!(in alloc; "{number}")?.as_str())?;
    text.push_str(": ")?;
    text.push_str(kind)?;
    text.push_str("\n")?;
    Ok(text)
}

/// The line of a limit.
fn limit_line(alloc: Global, kind: &str, number: u64) -> Result<String, NoMemory>
    ensures { IfOk result (λ text. string_bytes text ≡ codes "mca: limit " ++ kind.now ++ codes ": " ++ decimal number ++ codes "\n") }
{
    let mut text = String::from_str(alloc, "mca: limit ")?;
    text.push_str(kind)?;
    text.push_str(": ")?;
    text.push_str(format!(in alloc; "{number}")?.as_str())?;
    text.push_str("\n")?;
    Ok(text)
}

/// The line of an opcode that a machine does not run.
fn opcode_line(alloc: Global, op: &str, kind: &str) -> Result<String, NoMemory>
    ensures { IfOk result (λ text. string_bytes text ≡ codes "mca: machine opcode " ++ op.now ++ codes ": " ++ kind.now ++ codes "\n") }
{
    let mut text = String::from_str(alloc, "mca: machine opcode ")?;
    text.push_str(op)?;
    text.push_str(": ")?;
    text.push_str(kind)?;
    text.push_str("\n")?;
    Ok(text)
}

/// The line of a refused machine.
fn machine_line(alloc: Global, refusal: MachineRefusal) -> Result<String, NoMemory>
    ensures { IfOk result (λ text. string_bytes text ≡ machine_line refusal) }
{
    match refusal {
        MachineRefusal::Record(number, kind) => kind_line(
            alloc,
            "mca: machine record ",
            u64::from(number),
            kind.name(),
        ),
        MachineRefusal::Opcode(op, kind) => opcode_line(alloc, mnemonic(op), kind.name()),
    }
}

/// The line that tells a status; none for `Done`.
pub(crate) fn line(alloc: Global, status: Status) -> Result<String, NoMemory>
    ensures { IfOk result (λ text. string_bytes text ≡ line_of status) }
{
    match status {
        Status::Done => Ok(String::new(alloc)),
        Status::Words(fault) => { kind_line(alloc, "mca: word ", fault.word, fault.kind.name()) }
        Status::Assembly(refusal) => kind_line(
            alloc,
            "mca: assembly line ",
            u64::from(refusal.line),
            refusal.kind.name(),
        ),
        Status::Table(refusal) => kind_line(
            alloc,
            "mca: table line ",
            u64::from(refusal.line),
            refusal.kind.name(),
        ),
        Status::Machine(refusal) => machine_line(alloc, refusal),
        Status::Limit(kind, number) => limit_line(alloc, kind.name(), number),
        Status::ReadFault => Ok(String::from_str(alloc, "mca: read fault\n")?),
        Status::WriteFault => Ok(String::from_str(alloc, "mca: write fault\n")?),
        Status::Memory => Ok(String::from_str(alloc, "mca: out of memory\n")?),
    }
}
