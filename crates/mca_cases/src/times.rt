//! The times of a command's one region, by the plain engine, compared with those that a case expects; and what the
//! judge of tables says of them, and of tables that differ from them in one place.
ghost use Rattle.std.specs.Prelude.{◌≡◌, ◌≤◌, ◌<◌, ◌*◌, length, true};
ghost use Rattle.std.specs.List.{All};
ghost use Rattle.rv_isa.specs.Instruction.{is_lawful};
ghost use Rattle.cycle_rules.specs.Bind.{IsBoundBody};

use crate::case::Case;
use crate::fault::{Fault, wrong};
use crate::findings::Findings;
use crate::inputs::{code, table_machine, tuning};
use cycle_rules::{Bound, Field, NO_UNIT, Timeline, Times, check_run};
use machine_model::{Dual, Machine, Quad, Tiny};
use mca_fixed::{Items, MOST_REGION_INSTRUCTIONS, MOST_ROWS};
use mca_words::{Options, read_words};
use plain_engine::{PlainEngine, PlainFault};
use rv_isa::Instr;
use sched_validate::bind;
use std::alloc::Global;
use std::fmt::Write;

/// The file of a name.
fn file<'a>(alloc: Global, case: &'a Case, name: &str) -> Result<&'a [u8], Fault> {
    for part in case.parts() {
        if part.name.strip_prefix("file ") == Some(name) {
            return Ok(&part.bytes);
        }
    }
    Err(wrong(alloc, "no file", name))
}

/// A line `dispatch issue complete retire` for each row.
fn lines(alloc: Global, rows: &[Times]) -> Result<String, Fault> {
    let mut lines = String::new(alloc);
    for row in rows {
        writeln!(
            &mut lines,
            "{} {} {} {}",
            row.dispatch, row.issue, row.complete, row.retire
        )?;
    }
    Ok(lines)
}

/// A copy of rows.
fn copy(alloc: Global, rows: &[Times]) -> Result<Vec<Times>, Fault> {
    Ok(Vec::from_slice(alloc, rows)?)
}

/// A number in a change.
fn number(alloc: Global, digits: &str) -> Result<u64, Fault> {
    match digits.parse::<u64>() {
        Ok(number) => Ok(number),
        Err(_) => Err(wrong(alloc, "no number", digits)),
    }
}

/// Another value in a field of a row.
fn set(alloc: Global, row: &mut Times, field: &str, value: u64) -> Result<(), Fault> {
    match field {
        "dispatch" => row.dispatch = value,
        "issue" => row.issue = value,
        "complete" => row.complete = value,
        "retire" => row.retire = value,
        "unit" => row.units[0] = value.min(NO_UNIT as u64) as u16,
        "second-unit" => row.units[1] = value.min(NO_UNIT as u64) as u16,
        _ => return Err(wrong(alloc, "unknown field", field)),
    }
    Ok(())
}

/// The table with the change of a line: `rows N` keeps the first N rows, or repeats the last one up to N; `ROW FIELD
/// VALUE` sets a field of a row.
fn changed(alloc: Global, rows: &[Times], line: &str) -> Result<Vec<Times>, Fault> {
    let mut table = copy(alloc, rows)?;
    let (word, rest) = line.split_once(' ').unwrap_or((line, ""));
    if word == "rows" {
        let wanted = number(alloc, rest)?.min(MOST_ROWS) as usize;
        table.truncate(wanted);
        let Some(last) = rows.last() else {
            return Ok(table);
        };
        for _ in table.len()..wanted {
            table.push(*last)?;
        }
        return Ok(table);
    }
    let (field, value) = rest.split_once(' ').unwrap_or((rest, ""));
    let (row, value) = (number(alloc, word)?, number(alloc, value)?);
    for (k, times) in table.iter_mut().enumerate() {
        if k as u64 == row {
            set(alloc, times, field, value)?;
        }
    }
    Ok(table)
}

/// The name of a field.
fn field_name(field: Field) -> &'static str {
    match field {
        Field::Dispatch => "Dispatch",
        Field::Issue => "Issue",
        Field::Complete => "Complete",
        Field::Retire => "Retire",
        Field::Units => "Units",
    }
}

/// What the judge says of a table: a line `right`, or the place of its first mistake.
fn put_judgement<M: Machine>(
    judged: &mut String,
    machine: &M,
    body: &[Bound],
    iterations: u32,
    table: Vec<Times>,
) -> Result<(), Fault>
    requires bound { IsBoundBody (M.meaning machine.now) body.now }
    requires some { 0 < length body.now }
    requires iterations { 1 ≤ iterations }
    requires rows { iterations * length body.now ≤ MOST_ROWS }
{
    let run = Timeline {
        rows: Items::from_vec(table),
    };
    match check_run(machine, body, iterations, &run) {
        None => judged.push_str("right\n")?,
        Some(place) => writeln!(judged, "row {}: {}", place.row, field_name(place.field))?,
    }
    Ok(())
}

/// Compares the run of a bound body.
fn compare_run<M: Machine>(
    alloc: Global,
    case: &Case,
    machine: &M,
    body: &[Bound],
    iterations: u32,
    findings: &mut Findings,
) -> Result<(), Fault>
    requires bound { IsBoundBody (M.meaning machine.now) body.now }
    requires some { 0 < length body.now }
    requires iterations { 1 ≤ iterations }
    requires rows { iterations * length body.now ≤ MOST_ROWS }
{
    let run = match PlainEngine::run(alloc, machine, body, iterations) {
        Ok(run) => run,
        Err(PlainFault::Memory) => return Err(Fault::Memory),
    };
    let rows = run.rows.as_slice();
    findings.compare(case, "times", lines(alloc, rows)?.as_bytes())?;
    let mut judged = String::new(alloc);
    put_judgement(&mut judged, machine, body, iterations, copy(alloc, rows)?)?;
    if judged.as_str() != "right\n" {
        findings.differences.push_str("the judge of the run says ")?;
        findings.differences.push_str(judged.as_str())?;
    }
    if case.find("changed").is_some() {
        let mut judged = String::new(alloc);
        for line in case.need_text("changed")?.split_terminator('\n') {
            put_judgement(
                &mut judged,
                machine,
                body,
                iterations,
                changed(alloc, rows, line)?,
            )?;
        }
        findings.compare(case, "judged", judged.as_bytes())?;
    }
    Ok(())
}

/// Compares the run of instructions on a machine.
fn compare_on<M: Machine>(
    alloc: Global,
    case: &Case,
    machine: &M,
    code: &[Instr],
    iterations: u32,
    findings: &mut Findings,
) -> Result<(), Fault>
    requires lawful { All (λ i. is_lawful i ≡ true) code.now }
{
    let Ok(body) = bind(alloc, machine, code) else {
        return Err(wrong(alloc, "not bound", "assembly"));
    };
    let body = body.as_slice();
    let iterations = if iterations == 0 { 100 } else { iterations };
    if body.is_empty() || body.len() > MOST_REGION_INSTRUCTIONS {
        return Err(wrong(alloc, "no run", "assembly"));
    }
    let rows = u64::from(iterations) * body.len() as u64;
    if rows > MOST_ROWS {
        return Err(wrong(alloc, "no run", "assembly"));
    }
    compare_run(alloc, case, machine, body, iterations, findings)
}

/// Compares the run that the options name.
fn compare_as_asked(
    alloc: Global,
    case: &Case,
    options: &Options,
    findings: &mut Findings,
) -> Result<(), Fault> {
    let tuning = tuning(alloc, options)?;
    let code = code(alloc, file(alloc, case, options.input.as_str())?)?;
    let times = options.iterations;
    match options.mcpu.as_str() {
        "" => {
            let table = file(alloc, case, options.table.as_str())?;
            let machine = table_machine(alloc, table, &tuning)?;
            compare_on(alloc, case, &machine, &code, times, findings)
        }
        "tiny" => compare_on(alloc, case, &Tiny::make(&tuning), &code, times, findings),
        "dual" => compare_on(alloc, case, &Dual::make(&tuning), &code, times, findings),
        _ => compare_on(alloc, case, &Quad::make(&tuning), &code, times, findings),
    }
}

/// Compares the times of a command's run, where the case expects some.
pub(crate) fn compare(
    alloc: Global,
    case: &Case,
    words: &[String],
    findings: &mut Findings,
) -> Result<(), Fault> {
    if case.find("times").is_none() && case.find("changed").is_none() {
        return Ok(());
    }
    match read_words(alloc, words) {
        Ok(options) => compare_as_asked(alloc, case, &options, findings),
        Err(_) => Err(wrong(alloc, "no command with times", "args")),
    }
}
