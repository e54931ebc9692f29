//! A reorder buffer of 4 micro-ops.
use mca_fixed::NoMemory;
use reorder_buffer::{Rob, RobEntry};
use std::alloc::Global;

/// Rows of 3 and 1 micro-ops fill the buffer, and the retirement of the first makes room for three.
pub fn a_retirement_frees_its_micro_ops(alloc: Global) -> Result<String, NoMemory> {
    let mut rob = Rob::make(alloc, 4)?;
    let mut entered: u32 = 0;
    for row in 0..4u32 {
        let uops = if row == 0 { 3 } else { 1 };
        if rob.room(uops) {
            rob.push(RobEntry { row, uops });
            entered = row;
        }
    }
    let full = rob.room(1);
    let oldest = rob.pop_front();
    let freed = rob.room(3);
    let next = rob.front();
    Ok(format!(in alloc;
        "reorder_buffer: up to row {entered} in flight, room {full}; {oldest:?} retires, room {freed}; then {next:?}"
    )?)
}
