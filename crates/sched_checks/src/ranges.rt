//! Numbers in and out of their ranges.
ghost use Rattle.std.specs.Prelude.{◌≡◌, [], ◌||◌, pos, neg_ℤ, nat_lt, length};
ghost use Rattle.std.specs.List.{list_any};
ghost use Rattle.std.specs.Option.{option_to_list};
ghost use Rattle.sched_checks.specs.Checks.{is_outside, bad_units, entry_units, out_of_range};
ghost use Rattle.machine_model.specs.declared.limits.TheConstants.{MOST_CYCLES};
ghost use Rattle.mca_fixed.specs.declared.limits.TheConstants.{MOST_ENTRIES, MOST_REGISTERS};

use machine_model::MOST_CYCLES;
use mca_fixed::{MOST_ENTRIES, MOST_REGISTERS};
use sched_resolve::{Advance, Entry, File, Makeup, Model, Numbers, Resource, Retirement, Write};

fn is_outside(low: i64, high: i64, number: i64) -> bool
    ensures { result ≡ is_outside low high number }
{
    !(low <= number && number <= high)
}

fn any_outside(low: i64, high: i64, numbers: &[i64]) -> bool
    ensures { result ≡ list_any (is_outside low high) numbers.now }
{
    numbers.iter().any(|number| is_outside(low, high, *number))
}

/// Whether a use may not hold a unit for so long, if it is given for how long.
fn is_bad_hold(cycles: Option<i64>) -> bool
    ensures { result ≡ list_any (is_outside (pos 0) (pos MOST_CYCLES)) (option_to_list cycles) }
{
    match cycles {
        None => false,
        Some(cycles) => is_outside(0, MOST_CYCLES as i64, cycles),
    }
}

fn some_bad_hold(cycles: &Numbers) -> bool
    ensures { result ≡ list_any (is_outside (pos 0) (pos MOST_CYCLES)) cycles.now }
{
    for place in 0..cycles.len() {
        if is_bad_hold(cycles.get(place)) {
            return true;
        }
    }
    false
}

/// The units that a record adds to the machine's.
pub fn entry_units(entry: &Entry) -> u64
    ensures { result ≡ entry_units entry.now }
{
    match entry {
        Entry::Resource(resource) => resource.makeup.own_units(),
        _ => 0,
    }
}

fn bad_units(makeup: &Makeup) -> bool
    ensures { result ≡ bad_units makeup.now }
{
    match makeup {
        Makeup::Units(units) => !(0 <= *units),
        Makeup::Group(_) => false,
    }
}

pub fn bad_model(model: &Model) -> bool
    ensures { result ≡ out_of_range [] (Entry.Model model.now) }
{
    is_outside(1, 64, model.width) || is_outside(0, MOST_ENTRIES as i64, model.buffer)
}

/// A number of the resource is outside its range; how many there are is another matter.
pub fn bad_resource(resource: &Resource) -> bool
    ensures { result
        ≡ (is_outside (neg_ℤ (pos 1)) (pos MOST_ENTRIES) resource.now.buffer || bad_units resource.now.makeup) }
{
    is_outside(-1, MOST_ENTRIES as i64, resource.buffer) || bad_units(&resource.makeup)
}

pub fn bad_write(write: &Write) -> bool
    ensures { result ≡ out_of_range [] (Entry.Write write.now) }
{
    is_outside(0, MOST_CYCLES as i64, write.latency)
        || is_outside(1, MOST_ENTRIES as i64, write.micro_ops)
        || some_bad_hold(&write.cycles)
        || 8 < write.uses.len()
}

pub fn bad_advance(advance: &Advance) -> bool
    ensures { result ≡ out_of_range [] (Entry.Advance advance.now) }
{
    is_outside(-1000, 1000, advance.cycles)
}

/// A number of the file is outside its range; how many there are is another matter.
pub fn bad_file(file: &File) -> bool
    ensures { result
        ≡ (is_outside (pos 0) (pos MOST_REGISTERS) file.now.size || list_any (is_outside (pos 1) (pos 8)) file.now.costs) }
{
    is_outside(0, MOST_REGISTERS as i64, file.size) || any_outside(1, 8, file.costs.as_slice())
}

pub fn bad_retirement(retirement: &Retirement) -> bool
    ensures { result ≡ out_of_range [] (Entry.Retirement retirement.now) }
{
    is_outside(-1, MOST_ENTRIES as i64, retirement.entries) || is_outside(-1, 64, retirement.width)
}
