//! The views of a region's report: each a text that is made of the region, its machine and its run.
//!
//! What a reader must believe stands in `specs/`, a file for each idea:
//!
//! | file | what it says |
//! |---|---|
//! | `Shown` | what a view shows, and what it asks of it |
//! | `Lines` | lines, cells, and how they become bytes |
//! | `Page`, `Fault` | a page that is written line by line, and when it is too long |
//! | `Summary`, `Information`, `Pressure`, `Timeline`, `WaitTimes` | the lines of each view |
//! | `Bottleneck` | the lines of that view, and the chain that it shows |
//! | `Past`, `Sums` | what is kept while the rows are passed for the waits |
//! | `Region` | the report of a region: the views that are on, in their order |
//! | `Worked`, `WorkedPressure`, `WorkedTimes`, `WorkedBottleneck` | reports that were worked out by hand |
//!
//! The views are those of llvm-mca in LLVM's Command Guide, in a layout of this project's own.
#![tactic(auto)]

ghost use Rattle.std.specs.Prelude.{◌≡◌, ℕ};
ghost use Rattle.mca_views.specs.Information.{information_lines};
ghost use Rattle.mca_views.specs.Lines.{lines};
ghost use Rattle.mca_views.specs.Summary.{summary_lines};
ghost use Rattle.mca_views.specs.Worked.{
  report,
  report_text,
  short,
  short_text,
  products,
  products_text,
  mixed,
  mixed_text,
};
ghost use Rattle.mca_views.specs.Shown.{Shown, IsShown, WasRun};

mod bottlenecks;
mod cells;
mod fault;
mod information;
mod latest;
mod page;
mod past;
mod pressures;
mod region;
mod summaries;
mod sums;
mod timelines;
mod totals;
mod view;
mod wait_times;

pub use bottlenecks::{
    HeldUp, bottleneck, held_up_for, one_bottleneck, some_sequence, worked_bottleneck,
};
pub use fault::ViewFault;
pub use information::instruction_info;
pub use page::Page;
pub use pressures::{pressure, worked_pressure};
pub use region::put_region;
pub use summaries::summary;
pub use timelines::timeline;
pub use view::View;
pub use wait_times::{waits, worked_times};

/// A region can be shown where its lawful instructions were bound by a valid machine and its table is
/// their run, of at most 1,048,576 rows.
pub fn run_is_shown()
    ensures { (numbers size : ℕ) (s : Shown) → WasRun numbers size s → IsShown s }
{}

/// What the definitions give for regions that were worked out by hand: a whole report, one with no view
/// but the summary, a summary, and the numbers of instructions.
pub fn worked()
    ensures report { report ≡ report_text }
    ensures short { short ≡ short_text }
    ensures summary { lines (summary_lines products) ≡ products_text }
    ensures information { lines (information_lines mixed) ≡ mixed_text }
{}
