//! The bodies of a program's regions on a machine.
ghost use Rattle.std.specs.Prelude.{◌≡◌, ◌<◌, ◌≤◌, ◌⊎◌, ℕ, length, IfOk, IfErr, OnOk};
ghost use Rattle.mca_fixed.specs.declared.limits.TheConstants.{MOST_ROWS};
ghost use Rattle.mca_run.specs.Refusal.{IsUnbound, IsTooLong, opcode_status, rows_at};
ghost use Rattle.mca_run.specs.Steps.{IsSound, AreBodies};
ghost use Rattle.sched_validate.specs.declared.fault.BindFault.{BindFault as Fault};
ghost use Rattle.mca_run.specs.declared.status.LimitKind.TheVariants.{RunSize};

use crate::program::Program;
use crate::status::{LimitKind, Status};
use crate::stop::Stop;
use cycle_rules::Bound;
use machine_model::Machine;
use mca_fixed::{Items, MOST_ROWS};
use sched_validate::bind;
use std::alloc::Global;

/// The bodies of the regions in order, or the status for the first instruction that the machine does
/// not run.
pub(crate) fn bind_regions<M: Machine>(
    alloc: Global,
    machine: &M,
    program: &Program,
) -> Result<Vec<Items<Bound>>, Stop>
    requires sound { IsSound program.now }
    ensures ok { IfOk result (λ bodies. AreBodies (M.meaning machine.now)
        program.now (length program.now.regions) bodies.items) }
    ensures err { IfErr result (λ stop. (stop.status ≡ Status.Memory) ⊎ ((k : ℕ) × (fault : Fault)
        × IsUnbound (M.meaning machine.now) program.now k fault
        × (stop.status ≡ opcode_status fault))) }
{
    let mut bodies = Vec::with_capacity(alloc, program.regions.len())?;
    for k in 0..program.regions.len() {
        let body = bind(alloc, machine, program.instructions(k))?;
        bodies.push(body)?;
    }
    Ok(bodies)
}

/// Refuses the first region with too many rows.
pub(crate) fn check_sizes(program: &Program, iterations: u32) -> Result<(), Stop>
    requires sound { IsSound program.now }
    ensures ok { OnOk result ((k : ℕ) → k < length program.now.regions →
        rows_at program.now iterations k ≤ MOST_ROWS) }
    ensures err { IfErr result (λ stop. (k : ℕ) × IsTooLong program.now iterations k
        × (stop.status ≡ Status.Limit RunSize (rows_at program.now iterations k))) }
{
    for k in 0..program.regions.len() {
        let rows = u64::from(iterations) * program.instructions(k).len() as u64;
        if rows > MOST_ROWS {
            return Err(Stop {
                status: Status::Limit(LimitKind::RunSize, rows),
            });
        }
    }
    Ok(())
}
