//! The cycle rules: when each instruction of a repeated region dispatches, issues, completes and
//! retires on an out-of-order machine; that there is one such run, and that it ends within a bound.
//!
//! What a reader must believe stands in `specs/`, a file for each idea:
//!
//! | file | what it says |
//! |---|---|
//! | `Bind` | the numbers of an instruction on a machine, and what a bound body is |
//! | `Row` | the rows of a run, and what stands for a table of their times |
//! | `Dispatch`, `Issue`, `Retire` | when a row may do so; `Pick` has the units that it takes |
//! | `Seen` | what a condition may look at: the order of events |
//! | `Run` | the run as a whole |
//! | `Judged` | which field of a table is the first that is not as the rules say |
//! | `Given`, `Still` | the words of its private functions: what is judged, and when nothing changes |
//! | `Schedule`, `Events` | the run as events, and what the rules give below a bound |
//! | `Waits`, `WaitTimes` | how long rows wait, and how that is read from the times of a table |
//! | `Held`, `CycleBound` | how long units are held, and the bound |
//! | `Links` | where the values that a row reads come from, in each iteration alike |
//! | `Holds` | the cycles for which the rows hold a unit, summed |
//! | `Totals` | the numbers of a run as a whole, and reciprocal throughputs |
//! | `Examples` | for each rule a run and a table that breaks it, in the words of `Worked` |
//!
//! The rules follow the outline of LLVM's Command Guide for llvm-mca ("How llvm-mca works"); where the
//! guide gives no exact cycle the rule is this project's own (`docs/rules.md` says which).
#![tactic(auto)]

ghost use Rattle.std.specs.Prelude.{◌≡◌, ◌≤◌, ◌<◌, ◌+◌, ◌^◌, ℕ, is_some, List, [], ◌∷◌, map, nat_lt, true, false};
ghost use Rattle.std.specs.List.{All};
ghost use Rattle.machine_model.specs.Meaning.{MachineMeaning};
ghost use Rattle.machine_model.specs.Valid.{IsValidMachine};
ghost use Rattle.cycle_rules.specs.Below.{count_below};
ghost use Rattle.machine_model.specs.declared.facts.Use.{Use as UseOf};
ghost use Rattle.cycle_rules.specs.Bind.{IsBoundBody, AreBound, AreBoundRows, AreUses, row_of};
ghost use Rattle.cycle_rules.specs.CycleBound.{cycle_bound, reach};
ghost use Rattle.cycle_rules.specs.Held.{AllEnd, AllBegun, NoChange, changes_at, most_changes, taken_of};
ghost use Rattle.cycle_rules.specs.Pick.{Taken, pick, pick_units, taken_by};
ghost use Rattle.cycle_rules.specs.Seen.{has_issued, sees};
ghost use Rattle.cycle_rules.specs.Row.{Row, Input, Table, input, times};
ghost use Rattle.cycle_rules.specs.WaitTimes.{IsTimed, IsInTime, by_phase, by_issue};
ghost use Rattle.cycle_rules.specs.Run.{IsRun, IsRunOf, total_of};
ghost use Rattle.cycle_rules.specs.Schedule.{Rules, Known, IsSchedule, made};
ghost use Rattle.cycle_rules.specs.Events.{events, rules_of, run_below, retired_below};
ghost use Rattle.cycle_rules.specs.Totals.{AreFractions, IsOneOf, greatest, is_less};
ghost use Rattle.mca_fixed.specs.declared.decimals.Frac.{Frac as FracOf};
ghost use Rattle.cycle_rules.specs.Examples.{examples, worked_bounds};
ghost use Rattle.cycle_rules.specs.declared.bound.Bound.{Bound as BoundOf};
ghost use Rattle.cycle_rules.specs.declared.times.Times.{Times as TimesOf};

mod body_places;
mod bound;
mod finds;
mod given;
mod holds;
mod judge;
mod links;
mod next;
mod operands;
mod pipe;
mod place;
mod room;
mod starts;
mod steps;
mod times;

pub use body_places::BodyPlaces;
pub use bound::{Bound, Source};
pub use holds::{holds_add_up, sum_holds, sum_holds_at};
pub use judge::check_run;
pub use links::{Link, Links, all_links};
pub use operands::{lead, lead_of};
pub use pipe::{Pipe, drive};
pub use place::{Field, Place};
pub use steps::Steps;
pub use times::{NO_UNIT, Timeline, Times};

/// Each instruction of a body that is bound by a machine has the numbers of its classes, in their
/// ranges, and so has each row of the body, repeated.
pub fn bound_rows()
    ensures body { (numbers size : ℕ) (m : MachineMeaning) (body : List BoundOf) →
        IsValidMachine numbers size m → IsBoundBody m body → AreBound m body }
    ensures rows { (numbers size : ℕ) (m : MachineMeaning) (body : List BoundOf) (iterations : ℕ) →
        IsValidMachine numbers size m → IsBoundBody m body →
        AreBoundRows (input m (map row_of body) iterations) }
{}

/// At most one table of times is the run of a body on a machine.
pub fn one_run()
    ensures { (m : MachineMeaning) (body : List Row) (iterations : ℕ) (a b : List TimesOf) →
        IsRun m body iterations a → IsRun m body iterations b → a ≡ b }
{}

/// By any rules under which each event falls in the least cycle that is allowed, there is below every
/// bound one schedule and no other. The rules of the machine are one case.
pub fn one_schedule()
    ensures some { (r : Rules (List ℕ)) (m bound : ℕ) → IsSchedule r m bound (made r m bound) }
    ensures one { (r : Rules (List ℕ)) (m bound : ℕ) (v w : Known (List ℕ)) →
        IsSchedule r m bound v → IsSchedule r m bound w → (e : ℕ) → e < m → v e ≡ w e }
{}

/// Below every bound on cycles the rules of the machine give one table. Where all its rows retire
/// below the bound, it is the run; where a run has them all below the bound, it is that table; and of
/// each run as many rows retire below the bound as by the rules.
pub fn run_exists()
    ensures schedule { (g : Input) (bound : ℕ) →
        IsSchedule (rules_of g) (events g) bound (made (rules_of g) (events g) bound) }
    ensures run { (g : Input) (bound : ℕ) → g.rows ≤ retired_below g bound →
        IsRunOf g (run_below g bound) }
    ensures bound { (g : Input) (bound : ℕ) → g.rows ≤ retired_below g bound →
        (j : ℕ) → j < g.rows → (times (run_below g bound) j).retire < bound }
    ensures count { (g : Input) (bound : ℕ) (table : List TimesOf) → IsRunOf g table →
        retired_below g bound ≡ count_below g.rows (λ j. nat_lt (times table j).retire bound) }
    ensures converse { (g : Input) (bound : ℕ) (table : List TimesOf) → IsRunOf g table →
        ((j : ℕ) → j < g.rows → (times table j).retire < bound) →
        (g.rows ≤ retired_below g bound) × (run_below g bound ≡ table) }
{}

/// What is told of the units of rows, however they are picked. A row holds none from the cycle of its
/// issue and its reach on. It finds units at a key where no row that has issued holds one in that cycle
/// or later. It picks the same at two keys, or nothing at both, where no row issues at the first or
/// between them, and no unit is given back in the cycles after the first, up to the second.
pub fn unit_laws()
    ensures end { (g : Input) (t : Table) (j : ℕ) →
        AllEnd ((t j).issue + reach (g.row j).uses) (taken_of g t j) }
    ensures found { (g : Input) (t : Table) (p j c : ℕ) → AreUses g.machine (g.row j).uses →
        ((k : ℕ) → has_issued g t k c p j ≡ true → AllEnd c (taken_of g t k)) →
        is_some (pick g (sees g t p j c) j c) ≡ true }
    ensures stay { (g : Input) (t : Table) (p q j a b : ℕ) → a ≤ b →
        ((k : ℕ) → has_issued g t k a p j ≡ has_issued g t k b q j) →
        ((k : ℕ) → has_issued g t k a p j ≡ true → NoChange g.machine a b (taken_of g t k)) →
        pick g (sees g t p j a) j a ≡ pick g (sees g t q j b) j b }
{}

/// The same of lists of uses that took units, in issue order. And a use changes no more often than the
/// machine's uses can, and only after it took its unit.
pub fn taken_laws()
    ensures end { (c : ℕ) (uses : List UseOf) (units : List ℕ) →
        AllEnd (c + reach uses) (taken_by c uses units) }
    ensures found { (m : MachineMeaning) (earlier : List Taken) (c : ℕ) (uses : List UseOf) →
        AreUses m uses → AllEnd c earlier → is_some (pick_units m earlier c uses) ≡ true }
    ensures stay { (m : MachineMeaning) (earlier : List Taken) (a b : ℕ) (uses : List UseOf) →
        a ≤ b → AllBegun a earlier → NoChange m a b earlier →
        pick_units m earlier a uses ≡ pick_units m earlier b uses }
    ensures few { (m : MachineMeaning) (h : Taken) (n : ℕ) →
        count_below n (λ c. changes_at m c h) ≤ most_changes m }
    ensures late { (m : MachineMeaning) (h : Taken) (c : ℕ) → changes_at m c h ≡ true → h.from < c }
{}

/// Each body that is bound by a valid machine has a run, however often it is repeated, and its total is
/// at most `cycle_bound`: below that bound the rules let all rows retire. It fits a `u64` by far.
pub fn run_ends()
    ensures run { (numbers size : ℕ) (m : MachineMeaning) (body : List BoundOf) (iterations : ℕ) →
        IsValidMachine numbers size m → IsBoundBody m body →
        (table : List TimesOf) × IsRun m (map row_of body) iterations table ×
        (total_of table ≤ cycle_bound (input m (map row_of body) iterations)) }
    ensures retire { (numbers size : ℕ) (g : Input) → IsValidMachine numbers size g.machine →
        AreBoundRows g → g.rows ≤ retired_below g (cycle_bound g) }
    ensures low { (numbers size : ℕ) (g : Input) → IsValidMachine numbers size g.machine →
        AreBoundRows g → g.rows ≤ 2 ^ 20 → cycle_bound g < 2 ^ 41 }
{}

/// The greatest of fractions, none of which has the denominator 0, is one of them, and none is above it.
pub fn greatest_of_fractions()
    ensures one { (first : FracOf) (n : ℕ) (f : ℕ → FracOf) →
        IsOneOf first n f (greatest first n f) }
    ensures first { (first : FracOf) (n : ℕ) (f : ℕ → FracOf) → AreFractions first n f →
        is_less (greatest first n f) first ≡ false }
    ensures others { (first : FracOf) (n : ℕ) (f : ℕ → FracOf) → AreFractions first n f →
        (k : ℕ) → k < n → is_less (greatest first n f) (f k) ≡ false }
{}

/// The waits of rows, read from the times of a table without walking its cycles: of any table, where a
/// reserved row is found to have issued a cycle later by a row that is not reserved; of a run, by the
/// issues alone, and there no row waits longer than until its issue.
pub fn waits_timed()
    ensures table { (g : Input) (t : Table) → IsTimed g t (by_phase g t) }
    ensures run { (g : Input) (table : List TimesOf) → IsRunOf g table →
        IsTimed g (times table) (by_issue (times table)) }
    ensures time { (g : Input) (table : List TimesOf) → IsRunOf g table → IsInTime g (times table) }
{}

/// For each rule, by its name, there is an example that was worked out by hand: its run, which ends
/// within the bound, and a table that breaks that rule alone. And the numbers of `CycleBound` on worked
/// rows.
pub fn worked()
    ensures runs { All (λ e. IsRunOf e.input e.run) examples }
    ensures broken { All (λ e. IsRunOf e.input e.broken → ⊥) examples }
    ensures within { All (λ e. total_of e.run ≤ cycle_bound e.input) examples }
    ensures bounds { worked_bounds ≡ 8 ∷ 10 ∷ 48 ∷ 10 ∷ 26 ∷ 28 ∷ [] }
{}
