//! The cycles for which the instructions hold each unit, in one iteration on average.
ghost use Rattle.std.specs.Prelude.{◌≡◌, ◌≤◌, ◌<◌, ◌++◌, [], codes, length, map, slice_index, IfOk, OnOk, IfErr, Some};
ghost use Rattle.std.specs.List.{All};
ghost use Rattle.mca_views.specs.Fault.{Over};
ghost use Rattle.mca_views.specs.Lines.{lines, listed, cell};
ghost use Rattle.mca_views.specs.Page.{added};
ghost use Rattle.mca_views.specs.Pressure.{columns, unit_number, name_of, unit_line, pressure_text, pressure_cells, cells, total_cells, pressure_line, unit_lines, iteration_lines, table_head, table_lines, lines_of, pressure_lines};
ghost use Rattle.mca_views.specs.Shown.{shown, IsShown};
ghost use Rattle.mca_views.specs.WorkedPressure.{one_sum, one_sum_text, repeated, repeated_text, three_sums, three_sums_text, pair_text};

use crate::cells::push_cell;
use crate::fault::ViewFault;
use crate::page::Page;
use crate::totals::{ratio, units_of};
use crate::view::View;
use cycle_rules::{sum_holds, sum_holds_at};
use machine_model::{Machine, UnitOwner};
use mca_fixed::{NoMemory, decimal, whole};
use mca_words::Options;
use rv_isa::spell;
use std::alloc::Global;

/// The pressure on the units: their names, the cycles for which the rows hold each of them, divided
/// by the iterations, and the same for each instruction. It has no option. The bytes are at most
/// `room`.
///
/// # Errors
/// `TooLong` where they would be more, and `Memory`.
pub fn pressure<M: Machine>(
    alloc: Global,
    v: &View<M>,
    _: &Options,
    room: usize,
) -> Result<Vec<u8>, ViewFault>
    requires shown { IsShown (shown M.meaning v.now) }
    ensures bytes { IfOk result (λ bytes. bytes.items
        ≡ lines (pressure_lines (shown M.meaning v.now))) }
    ensures fits { IfOk result (λ bytes. length bytes.items ≤ room) }
    ensures long { IfErr result (Over room
        (length (lines (pressure_lines (shown M.meaning v.now))))) }
{
    let mut page = Page::make(alloc, room);
    put_pressure(alloc, &mut page, v)?;
    Ok(page.into_vec())
}

/// The lines of the view.
pub(crate) fn put_pressure<M: Machine>(
    alloc: Global,
    page: &mut Page,
    v: &View<M>,
) -> Result<(), ViewFault>
    requires closed { page.old.open_line ≡ [] }
    requires shown { IsShown (shown M.meaning v.now) }
    ensures ok { OnOk result (page.new ≡ added page.old
        (lines (pressure_lines (shown M.meaning v.now)))) }
    ensures long { IfErr result (Over page.old.room (length (added page.old
        (lines (pressure_lines (shown M.meaning v.now)))).text)) }
{
    let units = columns(alloc, v.machine)?;
    put_view(alloc, page, v, &units)
}

/// The lines of the view of some units.
fn put_view<M: Machine>(
    alloc: Global,
    page: &mut Page,
    v: &View<M>,
    units: &[usize],
) -> Result<(), ViewFault>
    requires closed { page.old.open_line ≡ [] }
    requires shown { IsShown (shown M.meaning v.now) }
    requires low { All (λ u. u < M.UNITS) units.now }
    ensures ok { OnOk result (page.new ≡ added page.old
        (lines (lines_of units.now (shown M.meaning v.now)))) }
    ensures long { IfErr result (Over page.old.room (length (added page.old
        (lines (lines_of units.now (shown M.meaning v.now)))).text)) }
{
    put_units(alloc, page, v.machine, units)?;
    put_totals(alloc, page, v, units)?;
    put_table(alloc, page, v, units)?;
    Ok(())
}

/// The names of the units.
fn put_units<M: Machine>(
    alloc: Global,
    page: &mut Page,
    machine: &M,
    units: &[usize],
) -> Result<(), ViewFault>
    requires closed { page.old.open_line ≡ [] }
    requires low { All (λ u. u < M.UNITS) units.now }
    ensures ok { OnOk result (page.new ≡ added page.old
        (lines (unit_lines units.now (M.meaning machine.now)))) }
    ensures long { IfErr result (Over page.old.room (length (added page.old
        (lines (unit_lines units.now (M.meaning machine.now)))).text)) }
{
    page.put_line(b"Resources:")?;
    put_names(alloc, page, machine, units)?;
    Ok(())
}

/// The name of each unit.
fn put_names<M: Machine>(
    alloc: Global,
    page: &mut Page,
    machine: &M,
    units: &[usize],
) -> Result<(), ViewFault>
    requires closed { page.old.open_line ≡ [] }
    requires low { All (λ u. u < M.UNITS) units.now }
    ensures ok { OnOk result (page.new ≡ added page.old
        (lines (map (unit_line (M.meaning machine.now)) units.now))) }
    ensures long { IfErr result (Over page.old.room (length (added page.old
        (lines (map (unit_line (M.meaning machine.now)) units.now))).text)) }
{
    for unit in units {
        let line = unit_line(alloc, machine, *unit)?;
        page.put_line(&line)?;
    }
    Ok(())
}

/// The pressure of all rows together.
fn put_totals<M: Machine>(
    alloc: Global,
    page: &mut Page,
    v: &View<M>,
    units: &[usize],
) -> Result<(), ViewFault>
    requires closed { page.old.open_line ≡ [] }
    requires shown { IsShown (shown M.meaning v.now) }
    requires low { All (λ u. u < M.UNITS) units.now }
    ensures ok { OnOk result (page.new ≡ added page.old
        (lines (iteration_lines units.now (shown M.meaning v.now)))) }
    ensures long { IfErr result (Over page.old.room (length (added page.old
        (lines (iteration_lines units.now (shown M.meaning v.now)))).text)) }
{
    let head = heads(alloc, units)?;
    let totals = total_cells(alloc, v, units)?;
    page.put_lines(&[
        b"",
        b"Resource pressure per iteration:",
        head.as_slice(),
        totals.as_slice(),
    ])
}

/// The cells of all rows together.
fn total_cells<M: Machine>(alloc: Global, v: &View<M>, units: &[usize]) -> Result<Vec<u8>, NoMemory>
    requires shown { IsShown (shown M.meaning v.now) }
    requires low { All (λ u. u < M.UNITS) units.now }
    ensures { IfOk result (λ line. line.items ≡ total_cells units.now (shown M.meaning v.now)) }
{
    let mut sums = vec![in alloc; 0; M::UNITS]?;
    sum_holds(
        &mut sums,
        v.body,
        v.run.rows.as_slice(),
        v.iterations as usize,
    );
    let mut line = Vec::new(alloc);
    push_pressures(alloc, &mut line, v.iterations, &sums, units)?;
    Ok(line)
}

/// The pressure of each instruction.
fn put_table<M: Machine>(
    alloc: Global,
    page: &mut Page,
    v: &View<M>,
    units: &[usize],
) -> Result<(), ViewFault>
    requires closed { page.old.open_line ≡ [] }
    requires shown { IsShown (shown M.meaning v.now) }
    requires low { All (λ u. u < M.UNITS) units.now }
    ensures ok { OnOk result (page.new ≡ added page.old
        (lines (table_lines units.now (shown M.meaning v.now)))) }
    ensures long { IfErr result (Over page.old.room (length (added page.old
        (lines (table_lines units.now (shown M.meaning v.now)))).text)) }
{
    put_table_head(alloc, page, units)?;
    put_rows(alloc, page, v, units)?;
    Ok(())
}

/// The head of the table.
fn put_table_head(alloc: Global, page: &mut Page, units: &[usize]) -> Result<(), ViewFault>
    requires closed { page.old.open_line ≡ [] }
    ensures ok { OnOk result (page.new ≡ added page.old (lines (table_head units.now))) }
    ensures long { IfErr result (Over page.old.room (length (added page.old
        (lines (table_head units.now))).text)) }
{
    let mut head = heads(alloc, units)?;
    head.extend_from_slice(b"Instructions:")?;
    page.put_lines(&[b"", b"Resource pressure by instruction:", head.as_slice()])
}

/// A line for each instruction.
fn put_rows<M: Machine>(
    alloc: Global,
    page: &mut Page,
    v: &View<M>,
    units: &[usize],
) -> Result<(), ViewFault>
    requires closed { page.old.open_line ≡ [] }
    requires shown { IsShown (shown M.meaning v.now) }
    requires low { All (λ u. u < M.UNITS) units.now }
    ensures ok { OnOk result (page.new ≡ added page.old (lines (listed (length v.now.code.now)
        (pressure_line units.now (shown M.meaning v.now))))) }
    ensures long { IfErr result (Over page.old.room (length (added page.old
        (lines (listed (length v.now.code.now)
        (pressure_line units.now (shown M.meaning v.now))))).text)) }
{
    let mut sums = vec![in alloc; 0; M::UNITS]?;
    let mut line = Vec::new(alloc);
    for k in 0..v.code.len() {
        write_row(alloc, &mut line, &mut sums, v, units, k)?;
        page.put_line(&line)?;
    }
    Ok(())
}

/// Makes the line of an instruction, in a buffer and with sums that are used again.
fn write_row<M: Machine>(
    alloc: Global,
    line: &mut Vec<u8>,
    sums: &mut [u64],
    v: &View<M>,
    units: &[usize],
    k: usize,
) -> Result<(), NoMemory>
    requires place { k < length v.now.code.now }
    requires shown { IsShown (shown M.meaning v.now) }
    requires low { All (λ u. u < M.UNITS) units.now }
    requires sums { length sums.old ≡ M.UNITS }
    ensures { OnOk result (line.new.items ≡ pressure_line units.now (shown M.meaning v.now) k) }
{
    sum_holds_at(
        sums,
        v.body,
        v.run.rows.as_slice(),
        v.iterations as usize,
        k,
    );
    line.clear();
    push_pressures(alloc, line, v.iterations, sums, units)?;
    line.extend_from_slice(&spell(alloc, &v.code[k], v.names)?)?;
    Ok(())
}

/// The units of the machine: those that a resource has which is no group.
fn columns<M: Machine>(alloc: Global, machine: &M) -> Result<Vec<usize>, NoMemory>
    ensures is { IfOk result (λ units. units.items ≡ columns (M.meaning machine.now)) }
    ensures low { IfOk result (λ units. All (λ u. u < M.UNITS) units.items) }
{
    let mut units = Vec::new(alloc);
    for unit in 0..M::UNITS {
        if machine.owner(unit).is_some() {
            units.push(unit)?;
        }
    }
    Ok(units)
}

/// The line of a unit: its number and its name.
fn unit_line<M: Machine>(alloc: Global, machine: &M, unit: usize) -> Result<Vec<u8>, NoMemory>
    requires { unit < M.UNITS }
    ensures { IfOk result (λ line. line.items ≡ unit_line (M.meaning machine.now) unit) }
{
    let mut line = unit_number(alloc, unit)?;
    line.extend_from_slice(b" - ")?;
    if let Some(owner) = machine.owner(unit) {
        push_name(alloc, &mut line, machine, &owner)?;
    }
    Ok(line)
}

/// The name of a unit of a resource behind a line.
fn push_name<M: Machine>(
    alloc: Global,
    line: &mut Vec<u8>,
    machine: &M,
    owner: &UnitOwner,
) -> Result<(), NoMemory>
    requires { owner.now.resource < (M.meaning machine.now).resource_count }
    ensures { OnOk result (line.new.items ≡ line.old.items
        ++ name_of (M.meaning machine.now) (Some owner.now)) }
{
    line.extend_from_slice(machine.resource_name(owner.resource as usize).as_bytes())?;
    if units_of(machine, owner.resource as usize) > 1 {
        line.push(b'.')?;
        line.extend_from_slice(&whole(alloc, owner.place as i128)?)?;
    }
    Ok(())
}

/// A unit's number.
fn unit_number(alloc: Global, unit: usize) -> Result<Vec<u8>, NoMemory>
    ensures { IfOk result (λ text. text.items ≡ unit_number unit) }
{
    let mut text = Vec::from_slice(alloc, b"[")?;
    text.extend_from_slice(&whole(alloc, unit as i128)?)?;
    text.push(b']')?;
    Ok(text)
}

/// The numbers of units, a cell for each.
fn heads(alloc: Global, units: &[usize]) -> Result<Vec<u8>, NoMemory>
    ensures { IfOk result (λ line. line.items ≡ cells unit_number units.now) }
{
    let mut line = Vec::new(alloc);
    for unit in units {
        push_cell(&mut line, &unit_number(alloc, *unit)?, 7)?;
    }
    Ok(line)
}

/// The cells of sums behind a line.
fn push_pressures(
    alloc: Global,
    line: &mut Vec<u8>,
    iterations: u32,
    sums: &[u64],
    units: &[usize],
) -> Result<(), NoMemory>
    requires iterations { 1 ≤ iterations }
    requires within { All (λ u. u < length sums.now) units.now }
    ensures { OnOk result (line.new.items ≡ line.old.items
        ++ pressure_cells iterations (slice_index sums.now) units.now) }
{
    for unit in units {
        push_pressure(alloc, line, iterations, sums[*unit])?;
    }
    Ok(())
}

/// The cell of a sum behind a line.
fn push_pressure(
    alloc: Global,
    line: &mut Vec<u8>,
    iterations: u32,
    sum: u64,
) -> Result<(), NoMemory>
    requires { 1 ≤ iterations }
    ensures { OnOk result (line.new.items ≡ line.old.items
        ++ cell (pressure_text iterations sum) 7) }
{
    if sum == 0 {
        return push_cell(line, b"-", 7);
    }
    push_cell(line, &decimal(alloc, ratio(sum, iterations as u64), 2)?, 7)
}

/// What the definitions give for small regions that were worked out by hand.
pub fn worked_pressure()
    ensures one { lines (pressure_lines one_sum) ≡ one_sum_text }
    ensures repeated { lines (pressure_lines repeated) ≡ repeated_text }
    ensures three { lines (pressure_lines three_sums) ≡ three_sums_text }
    ensures pair { pair_text ≡ codes "[0] - .0\n[1] - .1\n[63] -\n" }
{}
