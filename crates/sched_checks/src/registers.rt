//! Register files: the registers that each holds, and its size.
ghost use Rattle.std.specs.Prelude.{◌≡◌, ℕ, ◌<◌, ◌||◌, false, length, nat_lt, int_le, not, count_by, slice_index_or};
ghost use Rattle.std.specs.List.{list_any};
ghost use Rattle.sched_checks.specs.Checks.{class_has, file_has, held_by, file_too_small};

use sched_resolve::{Entry, File, Registers};

fn any_has(register: usize, classes: &[Registers]) -> bool
    ensures { result ≡ list_any (class_has register) classes.now }
{
    classes.iter().any(|class| class.has(register))
}

/// Whether more than one of the classes has the register.
pub fn has_twice(register: usize, classes: &[Registers]) -> bool
    ensures { result ≡ nat_lt 1 (count_by (class_has register) classes.now) }
{
    1 < classes.iter().filter(|class| class.has(register)).count()
}

/// Whether a file holds the register.
pub fn file_has(register: usize, file: &File) -> bool
    ensures { result ≡ file_has register file.now }
{
    (file.classes.is_empty() && Registers::General.has(register))
        || any_has(register, file.classes.as_slice())
}

/// Whether the entry is a file that holds the register.
fn is_held_by(register: usize, entry: &Entry) -> bool
    ensures { result ≡ held_by register entry.now }
{
    match entry {
        Entry::File(file) => file_has(register, file),
        _ => false,
    }
}

/// Notes the registers that an entry holds beside those that are held.
pub fn note_registers(held: &mut [bool], entry: &Entry)
    ensures { (r : ℕ) → r < length held.old
        → slice_index_or held.new r false ≡ (slice_index_or held.old r false || held_by r entry.now) }
{
    for (register, is_held) in held.iter_mut().enumerate() {
        *is_held = *is_held || is_held_by(register, entry);
    }
}

fn any_above(costs: &[i64], size: i64) -> bool
    ensures { result ≡ list_any (λ c. not (int_le c size)) costs.now }
{
    costs.iter().any(|cost| !(*cost <= size))
}

/// A register file is smaller than one of its costs.
pub fn file_too_small(entry: &Entry) -> bool
    ensures { result ≡ file_too_small entry.now }
{
    match entry {
        Entry::File(file) => 1 <= file.size && any_above(file.costs.as_slice(), file.size),
        _ => false,
    }
}
