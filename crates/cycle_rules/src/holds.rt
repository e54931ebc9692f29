//! For how many cycles the rows of a run hold each unit.
ghost use Rattle.std.specs.Prelude.{◌≡◌, ◌≤◌, ◌<◌, ◌+◌, ◌-◌, ◌*◌, ◌^◌, ℕ, List, length, map, take, slice_index, if◌then◌else◌, nat_eq};
ghost use Rattle.std.specs.List.{All};
ghost use Rattle.cycle_rules.specs.Below.{sum_below};
ghost use Rattle.cycle_rules.specs.Bind.{row_of};
ghost use Rattle.cycle_rules.specs.Holds.{held, held_at, held_by_all, HasPlaces, AreRows};
ghost use Rattle.cycle_rules.specs.Row.{Row, Table, times};

use crate::bound::Bound;
use crate::times::Times;
use machine_model::Use;

/// Sets the sum of each unit to the cycles for which the rows of one instruction hold it, in all
/// iterations together: those at its place of the body. A unit is the place of its sum. The work is
/// a few instructions for each unit and use.
pub fn sum_holds_at(
    sums: &mut [u64],
    body: &[Bound],
    rows: &[Times],
    iterations: usize,
    place: usize,
)
    requires places { All HasPlaces body.now }
    requires rows { AreRows body.now rows.now iterations }
    requires place { place < length body.now }
    ensures length { length sums.new ≡ length sums.old }
    ensures each { (u : ℕ) → u < length sums.old → slice_index sums.new u
        ≡ held_at (map row_of body.now) (times rows.now) iterations place u }
{
    clear(sums);
    let uses = uses_of(&body[place]);
    for k in 0..iterations {
        add_holds(sums, uses, &rows[k * body.len() + place].units);
    }
}

/// Sets the sum of each unit to the cycles for which all rows together hold it. A unit is the place
/// of its sum. The work is a few instructions for each unit and use.
pub fn sum_holds(sums: &mut [u64], body: &[Bound], rows: &[Times], iterations: usize)
    requires places { All HasPlaces body.now }
    requires rows { AreRows body.now rows.now iterations }
    ensures length { length sums.new ≡ length sums.old }
    ensures each { (u : ℕ) → u < length sums.old → slice_index sums.new u
        ≡ held_by_all (map row_of body.now) (times rows.now) iterations u }
{
    clear(sums);
    for j in 0..rows.len() {
        add_holds(sums, uses_of(&body[j % body.len()]), &rows[j].units);
    }
}

/// What the rows of each instruction hold of a unit adds up to what all rows hold of it.
pub fn holds_add_up()
    ensures { (body : List Row) (t : Table) (iterations u : ℕ) → held_by_all body t iterations u
        ≡ sum_below (length body) (λ place. held_at body t iterations place u) }
{}

/// Sets the sum of each unit to 0.
fn clear(sums: &mut [u64])
    ensures length { length sums.new ≡ length sums.old }
    ensures each { (u : ℕ) → u < length sums.old → slice_index sums.new u ≡ 0 }
{
    sums.fill(0);
}

/// The uses that count.
fn uses_of(b: &Bound) -> &[Use]
    requires { HasPlaces b.now }
    ensures uses { result.now ≡ (row_of b.now).uses }
    ensures few { length result.now ≤ 8 }
{
    &b.uses[..b.use_count as usize]
}

/// Adds the holds of a row to the sums of the units.
fn add_holds(sums: &mut [u64], uses: &[Use], units: &[u16])
    requires few { length uses.now ≤ 8 }
    requires enough { length uses.now ≤ length units.now }
    requires room { (u : ℕ) → u < length sums.old → slice_index sums.old u < 2 ^ 63 }
    ensures length { length sums.new ≡ length sums.old }
    ensures each { (u : ℕ) → u < length sums.old → slice_index sums.new u
        ≡ slice_index sums.old u + held uses.now units.now u }
    ensures low { (u : ℕ) → u < length sums.old → slice_index sums.new u
        ≤ slice_index sums.old u + 2 ^ 35 }
{
    for k in 0..uses.len() {
        add_hold(sums, units[k] as usize, uses[k].hold);
    }
}

/// Adds a hold to the sum of a unit; a number that is no unit's stands for none.
fn add_hold(sums: &mut [u64], unit: usize, hold: u32)
    requires { (u : ℕ) → u < length sums.old → slice_index sums.old u < 2 ^ 64 - 2 ^ 32 }
    ensures length { length sums.new ≡ length sums.old }
    ensures each { (u : ℕ) → u < length sums.old → slice_index sums.new u
        ≡ slice_index sums.old u + (if nat_eq unit u then hold else 0) }
    ensures low { (u : ℕ) → u < length sums.old → slice_index sums.new u
        ≤ slice_index sums.old u + 2 ^ 32 }
{
    if unit < sums.len() {
        sums[unit] += hold as u64;
    }
}
