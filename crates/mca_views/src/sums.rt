//! Sums of waits over the rows of each instruction and over all rows.
ghost use Rattle.std.specs.Prelude.{◌≡◌, ◌<◌, ◌≤◌, ◌+◌, ◌%◌, ◌^◌, ℕ, length, IfOk};
ghost use Rattle.cycle_rules.specs.Row.{times};
ghost use Rattle.mca_views.specs.Past.{IsPast};
ghost use Rattle.mca_views.specs.Shown.{Shown, shown, run_of, IsShown};
ghost use Rattle.mca_views.specs.Sums.{AreWaits, AreSums, AreLow, AreAll};

use crate::past::Past;
use crate::view::View;
use machine_model::Machine;
use mca_fixed::NoMemory;
use std::alloc::Global;

/// For how many cycles rows wait to issue, for how many of them ready, and for how many to retire.
#[derive(Clone, Copy, Debug)]
pub(crate) struct Sums {
    pub(crate) to_issue: u64,
    pub(crate) while_ready: u64,
    pub(crate) to_retire: u64,
}

/// The sums of each instruction, and those of all rows.
#[derive(Drop)]
pub(crate) struct AllSums {
    pub(crate) places: Vec<Sums>,
    pub(crate) all: Sums,
}

/// The sums over the first rows.
pub(crate) fn sums_of<M: Machine>(
    alloc: Global,
    v: &View<M>,
    rows: usize,
) -> Result<AllSums, NoMemory>
    requires shown { IsShown (shown M.meaning v.now) }
    requires rows { rows ≤ length v.now.run.now.rows }
    ensures { IfOk result (λ sums. AreAll (shown M.meaning v.now) rows sums) }
{
    let mut sums = no_sums(alloc, v)?;
    let mut past = Past::none(alloc)?;
    for j in 0..rows {
        add_row(&mut sums, v, &past, j);
        past.pass(v, j, j % v.body.len());
    }
    Ok(sums)
}

/// The sums over no row.
fn no_sums<M: Machine>(alloc: Global, v: &View<M>) -> Result<AllSums, NoMemory>
    ensures { IfOk result (λ sums. AreAll (shown M.meaning v.now) 0 sums) }
{
    let all = Sums {
        to_issue: 0,
        while_ready: 0,
        to_retire: 0,
    };
    let mut places = Vec::new(alloc);
    places.resize(v.body.len(), all)?;
    Ok(AllSums { places, all })
}

/// One row more.
fn add_row<M: Machine>(sums: &mut AllSums, v: &View<M>, past: &Past, j: usize)
    requires shown { IsShown (shown M.meaning v.now) }
    requires row { j < length v.now.run.now.rows }
    requires past { IsPast (run_of (shown M.meaning v.now)) (times v.now.run.now.rows) j past.now }
    requires sums { AreAll (shown M.meaning v.now) j sums.old }
    ensures { AreAll (shown M.meaning v.now) (j + 1) sums.new }
{
    let place = j % v.body.len();
    let waits = waits_of(v, past, j, place);
    sums.places[place] = plus(sums.places[place], waits);
    sums.all = plus(sums.all, waits);
}

/// The waits of row j, at a place of the body.
fn waits_of<M: Machine>(v: &View<M>, past: &Past, j: usize, place: usize) -> Sums
    requires shown { IsShown (shown M.meaning v.now) }
    requires row { j < length v.now.run.now.rows }
    requires place { place ≡ j % length v.now.body.now }
    requires past { IsPast (run_of (shown M.meaning v.now)) (times v.now.run.now.rows) j past.now }
    ensures are { AreWaits (shown M.meaning v.now) j result }
    ensures low { AreLow (2 ^ 42) result }
{
    let memory = past.memory_at(v, j, place);
    let row = &v.run.rows.as_slice()[j];
    Sums {
        to_issue: row.issue - row.dispatch,
        while_ready: row.issue - memory,
        to_retire: row.retire - row.complete,
    }
}

/// Sums and the waits of one row more.
fn plus(sums: Sums, waits: Sums) -> Sums
    requires sums { AreLow (2 ^ 63) sums }
    requires waits { AreLow (2 ^ 42) waits }
    ensures issue { result.to_issue ≡ sums.to_issue + waits.to_issue }
    ensures ready { result.while_ready ≡ sums.while_ready + waits.while_ready }
    ensures retire { result.to_retire ≡ sums.to_retire + waits.to_retire }
{
    Sums {
        to_issue: sums.to_issue + waits.to_issue,
        while_ready: sums.while_ready + waits.while_ready,
        to_retire: sums.to_retire + waits.to_retire,
    }
}
