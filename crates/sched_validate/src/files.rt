//! The register files of a table's machine.
ghost use Rattle.std.specs.Prelude.{◌≡◌, ◌<◌, ◌≤◌, ◌^◌, map, length, slice_get, All, IfOk};
ghost use Rattle.std.specs.List.{range_with_len};
ghost use Rattle.sched_checks.specs.Resources.{count_of};
ghost use Rattle.sched_validate.specs.Files.{cost_or_one, share_by, share_in, share_from, IsSmallFile};

use crate::narrow::count;
use machine_model::FileShare;
use mca_fixed::{Items, NoMemory};
use sched_resolve::{File, Registers};
use std::alloc::Global;

/// The sizes of the files, in physical registers; 0 for no bound.
pub(crate) fn sizes(alloc: Global, files: &[&File]) -> Result<Items<u32>, NoMemory>
    requires { All (λ f. IsSmallFile f.now) files.now }
    ensures { IfOk result (λ sizes. sizes ≡ map (λ f. count_of f.now.size) files.now) }
{
    let mut sizes = Vec::with_capacity(alloc, files.len())?;
    for file in files {
        sizes.push(count(file.size))?;
    }
    Ok(Items::from_vec(sizes))
}

/// The cost at a place of the costs; 1 where they have none there.
fn cost_at(costs: &[i64], place: usize) -> u32
    requires { All (λ c. count_of c < 2 ^ 32) costs.now }
    ensures { result ≡ cost_or_one (slice_get costs.now place) }
{
    match costs.get(place) {
        Some(cost) => count(*cost),
        None => 1,
    }
}

/// The share of a register by the classes of a file and their costs.
fn share_by(file: u8, register: u8, classes: &[Registers], costs: &[i64]) -> Option<FileShare>
    requires { All (λ c. count_of c < 2 ^ 32) costs.now }
    ensures { result ≡ share_by file register classes.now costs.now }
{
    for (place, class) in classes.iter().enumerate() {
        if class.has(register as usize) {
            return Some(FileShare {
                file,
                cost: cost_at(costs, place),
            });
        }
    }
    None
}

/// The share of a register in a file, which holds x1 to x31 where it has no classes.
fn share_in(number: u8, register: u8, file: &File) -> Option<FileShare>
    requires { IsSmallFile file.now }
    ensures { result ≡ share_in number register file.now }
{
    if file.classes.is_empty() {
        share_by(number, register, &[Registers::General], &[])
    } else {
        share_by(
            number,
            register,
            file.classes.as_slice(),
            file.costs.as_slice(),
        )
    }
}

/// The share of a register in the first file that holds it.
fn share(files: &[&File], register: u8) -> Option<FileShare>
    requires files { All (λ f. IsSmallFile f.now) files.now }
    requires few { length files.now ≤ 8 }
    ensures { result ≡ share_from 0 register (map (λ f. f.now) files.now) }
{
    for (number, file) in files.iter().enumerate() {
        let share = share_in(number as u8, register, file);
        if share.is_some() {
            return share;
        }
    }
    None
}

/// The share of each of the 32 registers.
pub(crate) fn shares(alloc: Global, files: &[&File]) -> Result<Items<Option<FileShare>>, NoMemory>
    requires files { All (λ f. IsSmallFile f.now) files.now }
    requires few { length files.now ≤ 8 }
    ensures { IfOk result (λ shares. shares
        ≡ map (λ r. share_from 0 r (map (λ f. f.now) files.now)) (range_with_len 0 32)) }
{
    let mut shares = Vec::with_capacity(alloc, 32)?;
    for register in 0..32 {
        shares.push(share(files, register))?;
    }
    Ok(Items::from_vec(shares))
}
