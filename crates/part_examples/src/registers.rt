//! The register files of a machine on which one register may be in flight.
use machine_model::{Fixed, Tuning};
use mca_fixed::NoMemory;
use reg_files::Files;
use rv_isa::Reg;
use std::alloc::Global;

/// A write holds the one register until it retires; a write of x0 needs none.
pub fn one_register_in_flight(alloc: Global) -> Result<String, NoMemory> {
    let machine: Fixed<2, 32, 2> = Fixed::make(&Tuning::new(0, 1, 0, 0, true));
    let mut files = Files::make(alloc, &machine)?;
    let (a0, a1) = (Reg::new(10), Reg::new(11));
    let first = files.has_room(a0);
    if !first {
        return Ok(format!(in alloc; "reg_files: no room")?);
    }
    files.take(a0);
    let second = files.has_room(a1);
    let zero = files.has_room(Reg::zero());
    files.free(a0);
    let third = files.has_room(a1);
    Ok(format!(in alloc;
        "reg_files: a0 {first}; a1 beside it {second}, x0 {zero}; a1 after it {third}"
    )?)
}
