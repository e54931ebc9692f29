//! The numbers of a run as a whole, and reciprocal throughputs.
ghost use Rattle.std.specs.Prelude.{◌≡◌, ◌≤◌, ◌<◌, ◌*◌, ◌^◌, map, length};
ghost use Rattle.std.specs.List.{All};
ghost use Rattle.machine_model.specs.Meaning.{MachineMeaning};
ghost use Rattle.machine_model.specs.Uses.{units_of};
ghost use Rattle.cycle_rules.specs.Bind.{row_of};
ghost use Rattle.cycle_rules.specs.Row.{input};
ghost use Rattle.cycle_rules.specs.Totals.{
  total_uops,
  over,
  greater,
  uses_hold,
  body_holds,
  body_uops,
  greatest_load,
  block_throughput,
  holds_unit,
  throughput,
};
ghost use Rattle.mca_views.specs.Shown.{IsEntry};
ghost use Rattle.mca_fixed.specs.declared.limits.TheConstants.{MOST_ROWS};

use cycle_rules::Bound;
use machine_model::{Machine, Use};
use mca_fixed::Frac;
use unit_sets::UnitMask;

/// Two whole numbers as a fraction.
pub(crate) fn ratio(num: u64, den: u64) -> Frac
    ensures is { result ≡ over num den }
    ensures num_high { result.num < 2 ^ 64 }
    ensures den_high { result.den < 2 ^ 64 }
{
    Frac {
        num: num as u128,
        den: den as u128,
    }
}

/// The reciprocal throughput of a body.
pub(crate) fn block_throughput<M: Machine>(machine: &M, body: &[Bound]) -> Frac
    requires entry { All (IsEntry (M.meaning machine.now)) body.now }
    requires few { length body.now ≤ MOST_ROWS }
    ensures is { result ≡ block_throughput (M.meaning machine.now) body.now }
    ensures den { 1 ≤ result.den }
    ensures num_high { result.num < 2 ^ 64 }
    ensures den_high { result.den < 2 ^ 64 }
{
    let first = ratio(body_uops(body), machine.limits().width as u64);
    greatest_load(machine, first, body)
}

/// The reciprocal throughput of an instruction.
pub(crate) fn throughput<M: Machine>(machine: &M, b: &Bound) -> Frac
    requires entry { IsEntry (M.meaning machine.now) b.now }
    ensures is { result ≡ throughput (M.meaning machine.now) b.now }
    ensures den { 1 ≤ result.den }
    ensures num_high { result.num < 2 ^ 64 }
    ensures den_high { result.den < 2 ^ 64 }
{
    if holds_unit(b) {
        greatest_load(machine, ratio(0, 1), std::slice::from_ref(b))
    } else {
        ratio(b.uops as u64, machine.limits().width as u64)
    }
}

/// The micro-ops of a body that is repeated.
pub(crate) fn total_uops(body: &[Bound], iterations: u32) -> u64
    requires some { 1 ≤ iterations }
    requires few { iterations * length body.now ≤ MOST_ROWS }
    ensures { (m : MachineMeaning) →
        result ≡ total_uops (input m (map row_of body.now) iterations) }
{
    body_uops(body) * iterations as u64
}

/// The micro-ops of a body.
fn body_uops(body: &[Bound]) -> u64
    requires few { length body.now ≤ MOST_ROWS }
    ensures is { result ≡ body_uops body.now }
    ensures low { result ≤ length body.now * 2 ^ 16 }
{
    let mut sum = 0;
    for b in body {
        sum += b.uops as u64;
    }
    sum
}

/// The greatest of a fraction and, for each resource, of the holds of instructions over its units.
fn greatest_load<M: Machine>(machine: &M, first: Frac, body: &[Bound]) -> Frac
    requires counts { All (λ b. b.use_count ≤ 8) body.now }
    requires few { length body.now ≤ MOST_ROWS }
    requires den { 1 ≤ first.den }
    requires num_high { first.num < 2 ^ 64 }
    requires den_high { first.den < 2 ^ 64 }
    ensures is { result ≡ greatest_load (M.meaning machine.now) first body.now }
    ensures den { 1 ≤ result.den }
    ensures num_high { result.num < 2 ^ 64 }
    ensures den_high { result.den < 2 ^ 64 }
{
    let mut most = first;
    for r in 0..machine.resource_count() {
        most = greater(most, ratio(body_holds(r, body), units_of(machine, r)));
    }
    most
}

/// How many units a resource has.
pub(crate) fn units_of<M: Machine>(machine: &M, r: usize) -> u64
    requires { r < (M.meaning machine.now).resource_count }
    ensures is { result ≡ units_of (M.meaning machine.now) r }
    ensures some { 1 ≤ result }
{
    machine.mask(r).count() as u64
}

/// The greater of two fractions; of equal ones the first.
fn greater(a: Frac, b: Frac) -> Frac
    requires a_num { a.num < 2 ^ 64 }
    requires a_den { a.den < 2 ^ 64 }
    requires b_num { b.num < 2 ^ 64 }
    requires b_den { b.den < 2 ^ 64 }
    requires a_some { 1 ≤ a.den }
    requires b_some { 1 ≤ b.den }
    ensures is { result ≡ greater a b }
    ensures some { 1 ≤ result.den }
    ensures num { result.num < 2 ^ 64 }
    ensures den { result.den < 2 ^ 64 }
{
    if a.num * b.den < b.num * a.den { b } else { a }
}

/// For how many cycles the uses of instructions hold units of a resource.
fn body_holds(r: usize, body: &[Bound]) -> u64
    requires few { length body.now ≤ MOST_ROWS }
    requires counts { All (λ b. b.use_count ≤ 8) body.now }
    ensures { result ≡ body_holds r body.now }
{
    let mut sum = 0;
    for b in body {
        sum += uses_hold(r, &b.uses[..b.use_count as usize]);
    }
    sum
}

/// The same of uses.
fn uses_hold(r: usize, uses: &[Use]) -> u64
    requires few { length uses.now ≤ 8 }
    ensures is { result ≡ uses_hold r uses.now }
    ensures low { result ≤ length uses.now * 2 ^ 32 }
{
    let mut sum = 0;
    for w in uses {
        if w.resource as usize == r {
            sum += w.hold as u64;
        }
    }
    sum
}

/// Whether an instruction holds a unit.
fn holds_unit(b: &Bound) -> bool
    requires { b.now.use_count ≤ 8 }
    ensures { result ≡ holds_unit b.now }
{
    b.uses[..b.use_count as usize].iter().any(|w| w.hold > 0)
}
