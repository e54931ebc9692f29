//! From which cycle on a row has the values that it reads.
ghost use Rattle.std.specs.Prelude.{◌≡◌, ◌<◌, ◌+◌, ◌^◌, nat_lt, if◌then◌else◌, MatchOption};
ghost use Rattle.cycle_rules.specs.Links.{named};
ghost use Rattle.cycle_rules.specs.Row.{times};
ghost use Rattle.dep_graph.specs.Peaks.{HaveLinks, IsLate};
ghost use Rattle.dep_graph.specs.Walk.{IsSoundRun};

use crate::peak::Peak;
use crate::rows::Rows;
use cycle_rules::{Link, Links};

// From which cycle on a value is there, by the issue of the row that makes it.
fn available(issue: u64, lead: u32) -> u64
    requires { issue < 2 ^ 42 }
    ensures { result ≡ issue + lead }
{
    issue + lead as u64
}

// From which cycle on the value is there that a link of row j names, and the row that makes it.
fn value<R: Rows>(rows: &R, j: usize, link: Link) -> Peak
    requires run { IsSoundRun (R.input rows.now) (R.table rows.now) }
    requires row { j < (R.input rows.now).rows }
    ensures { MatchOption (named j link) (result.time ≡ 0)
        (λ k. (result.time ≡ (times (R.table rows.now) k).issue + link.lead) × (result.row ≡ k)) }
{
    let back = link.back as usize;
    if back == 0 {
        return Peak::none();
    }
    if j < back {
        return Peak::none();
    }
    let k = j - back;
    Peak {
        time: available(rows.times(k).issue, link.lead),
        row: k as u32,
    }
}

/// From which cycle on row j has the values that it reads, and the row that makes the first of those
/// that are there last.
pub fn late<R: Rows>(rows: &R, links: &[Links], j: usize) -> Peak
    requires run { IsSoundRun (R.input rows.now) (R.table rows.now) }
    requires links { HaveLinks (R.input rows.now) (R.size rows.now) links.now }
    requires row { j < (R.input rows.now).rows }
    ensures { IsLate (R.input rows.now) (times (R.table rows.now)) j
        ((R.input rows.now).row j).reads result }
{
    let links = links[rows.place(j)];
    later(value(rows, j, links.first), value(rows, j, links.second))
}

// The later of two times, the first where they are one.
fn later(first: Peak, second: Peak) -> Peak
    ensures { result ≡ (if nat_lt first.time second.time then second else first) }
{
    if first.time < second.time {
        second
    } else {
        first
    }
}
