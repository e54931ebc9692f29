//! The rows of a run, and when they did what.
ghost use Rattle.std.specs.Prelude.{◌≡◌, ◌<◌, ◌≤◌, ◌*◌, ◌%◌, ℕ, List, length, map};
ghost use Rattle.cycle_rules.specs.Bind.{row_of, IsBound, AreBound};
ghost use Rattle.cycle_rules.specs.Row.{Input, times};
ghost use Rattle.cycle_rules.specs.declared.times.Times.{Times as TimesOf};
ghost use Rattle.mca_fixed.specs.declared.limits.TheConstants.{MOST_ROWS};

use cycle_rules::{BodyPlaces, Bound, Times};
use machine_model::{FileShare, Limits, Machine};
use rv_isa::Reg;

/// The rows of a run: a body, repeated iteration by iteration, on a machine, and the times of each.
pub trait Rows {
    ghost input: { Self → Input };

    ghost table: { Self → List TimesOf };

    ghost size: { Self → ℕ };

    /// How many rows there are.
    fn count(&self) -> usize
        ensures { result ≡ (input self.now).rows };

    /// The widths and bounds of the machine.
    fn limits(&self) -> Limits
        ensures { result ≡ (input self.now).machine.limits };

    /// The register file that holds a register.
    fn file_of(&self, rd: Reg) -> Option<FileShare>
        ensures { result ≡ (input self.now).machine.file_of rd };

    /// The physical registers of a register file; 0 for no bound.
    fn file_size(&self, f: usize) -> u32
        ensures { result ≡ (input self.now).machine.file_size f };

    /// The bound instruction that a row is.
    fn instruction(&self, j: usize) -> &Bound
        requires { j < (input self.now).rows }
        ensures row { row_of result.now ≡ (input self.now).row j }
        ensures bound { IsBound (input self.now).machine result.now };

    /// Which place of the body a row is.
    fn place(&self, j: usize) -> usize
        requires { j < (input self.now).rows }
        ensures { result ≡ j % size self.now };

    /// When a row did what.
    fn times(&self, j: usize) -> &Times
        requires { j < length (table self.now) }
        ensures { result.now ≡ times (table self.now) j };
}

/// A body that is bound by a machine, how often it is repeated, and the times of its rows.
#[derive(Drop)]
pub struct Run<'a, M: Machine> {
    machine: &'a M,
    body: &'a [Bound],
    iterations: usize,
    table: &'a [Times],
    places: BodyPlaces,
    ghost some: { 0 < length body.now },
    ghost few: { iterations * length body.now ≤ MOST_ROWS },
    ghost bound: { AreBound (M.meaning machine.now) body.now },
    ghost placed: { places.size ≡ length body.now },
}

impl<'a, M: Machine> Run<'a, M> {
    /// The rows of a body, so often repeated, with their times.
    pub fn make(
        machine: &'a M,
        body: &'a [Bound],
        iterations: usize,
        table: &'a [Times],
    ) -> Run<'a, M>
        requires some { 0 < length body.now }
        requires iterations { 1 ≤ iterations }
        requires few { iterations * length body.now ≤ MOST_ROWS }
        requires bound { AreBound (M.meaning machine.now) body.now }
        ensures machine { result.machine.now ≡ machine.entry.now }
        ensures body { result.body.now ≡ body.entry.now }
        ensures iterations { result.iterations ≡ iterations }
        ensures table { result.table.now ≡ table.entry.now }
    {
        Run {
            machine,
            body,
            iterations,
            table,
            places: BodyPlaces::of(body.len()),
        }
    }
}

impl<'a, M: Machine> Rows for Run<'a, M> {
    ghost use Rattle.cycle_rules.specs.Row.{input};

    ghost input = { λ r. input (M.meaning r.machine.now) (map row_of r.body.now) r.iterations };

    ghost table = { λ r. r.table.now };

    ghost size = { λ r. length r.body.now };

    fn count(&self) -> usize {
        self.iterations * self.body.len()
    }

    fn limits(&self) -> Limits {
        self.machine.limits()
    }

    fn file_of(&self, rd: Reg) -> Option<FileShare> {
        self.machine.file_of(rd)
    }

    fn file_size(&self, f: usize) -> u32 {
        self.machine.file_size(f)
    }

    fn instruction(&self, j: usize) -> &Bound {
        &self.body[self.place(j)]
    }

    fn place(&self, j: usize) -> usize {
        self.places.at(j)
    }

    fn times(&self, j: usize) -> &Times {
        &self.table[j]
    }
}
