//! What an engine has recorded of a run: at each key exactly the events that the rules give before it.
//!
//! An engine walks over the cycles of a run and writes the times of rows into a table. `specs/State` says
//! what such a table has recorded when the engine comes to a key (a cycle, a phase of it and a row), and
//! `specs/Flight` which rows are in flight there. The laws below lead from key to key: an event that falls
//! is written, one that does not changes nothing, and when all rows have retired the table is the run.
//! They know no engine, so that every engine rests on them. Each law is a function that does nothing.
#![tactic(auto)]

ghost use Rattle.std.specs.Prelude.{◌≡◌, ℕ, ◌+◌, ◌-◌, ◌<◌, ◌≤◌, List, ◌++◌, replicate, set, true, false, [], length, if◌then◌else◌};
ghost use Rattle.circular_buffer.specs.Buffer.{buffer};
ghost use Rattle.dispatch_unit.specs.Group.{has_place};
ghost use Rattle.reorder_buffer.specs.Rob.{has_room as has_room_in_buffer};
ghost use Rattle.reg_files.specs.Files.{has_room as has_room_in_files};
ghost use Rattle.cycle_rules.specs.Row.{Input, times, uops_of};
ghost use Rattle.cycle_rules.specs.Run.{IsRunOf};
ghost use Rattle.cycle_rules.specs.Pick.{taken_by};
ghost use Rattle.cycle_rules.specs.Dispatch.{fits_group, fits_reorder, fits_registers, can_dispatch};
ghost use Rattle.cycle_rules.specs.Issue.{can_issue};
ghost use Rattle.cycle_rules.specs.Retire.{can_retire};
ghost use Rattle.cycle_rules.specs.Events.{retired_below};
ghost use Rattle.cycle_rules.specs.declared.times.Times.{Times as TimesOf};
ghost use Rattle.engine_state.specs.State.{never, now, taken_now, at, IsState};
ghost use Rattle.engine_state.specs.Flight.{IsFlow, window};
ghost use Rattle.engine_state.specs.Parts.{dispatched_row, entry_of, write_of};
ghost use Rattle.engine_state.specs.InTurn.{IssuesInTurn};
ghost use Rattle.engine_state.specs.Writes.{IsRetired, IsIssued, IsDispatched};

/// Before the first cycle nothing is recorded, and no row is in flight.
pub fn start_of_a_run()
    ensures state { (g : Input) (v : TimesOf) → v.dispatch ≡ never → v.issue ≡ never → v.retire
        ≡ never →
        IsState g (at g 0 0 0) (replicate g.rows v) }
    ensures flow { (g : Input) (v : TimesOf) → v.dispatch ≡ never → v.issue ≡ never → v.retire
        ≡ never →
        IsFlow g (replicate g.rows v) 0 0 }
{}

/// At the key of an event that has fallen, or may not fall, nothing changes.
pub fn keys_without_an_event()
    ensures retire { (g : Input) (c j : ℕ) (xs : List TimesOf) → IsState g (at g c 0 j) xs → j
        < g.rows →
        ((times xs j).retire ≡ never → can_retire g (now g c xs) j c ≡ false) →
        IsState g (at g c 0 (j + 1)) xs }
    ensures issue { (g : Input) (c j : ℕ) (xs : List TimesOf) → IsState g (at g c 1 j) xs → j
        < g.rows →
        ((g.row j).reserved ≡ false → (times xs j).issue ≡ never →
        can_issue g (now g c xs) j c ≡ false) →
        IsState g (at g c 1 (j + 1)) xs }
    ensures dispatch { (g : Input) (c j : ℕ) (xs : List TimesOf) → IsState g (at g c 2 j) xs → j
        < g.rows →
        ((times xs j).dispatch ≡ never → can_dispatch g (now g c xs) j c ≡ false) →
        IsState g (at g c 2 (j + 1)) xs }
{}

/// At the key of an event that has not fallen, and may, it is written.
pub fn keys_with_an_event()
    ensures retire { (g : Input) (c j : ℕ) (xs : List TimesOf) (v : TimesOf) →
        IsState g (at g c 0 j) xs → j < g.rows → c < never → (times xs j).retire ≡ never →
        can_retire g (now g c xs) j c ≡ true → IsRetired xs j c v →
        IsState g (at g c 0 (j + 1)) (set xs j v) }
    ensures issue { (g : Input) (c j : ℕ) (xs : List TimesOf) (v : TimesOf) →
        IsState g (at g c 1 j) xs → j < g.rows → c < never →
        (g.row j).reserved ≡ false → (times xs j).issue ≡ never →
        can_issue g (now g c xs) j c ≡ true → IsIssued g xs j c v →
        IsState g (at g c 1 (j + 1)) (set xs j v) }
    ensures dispatch { (g : Input) (c j : ℕ) (xs : List TimesOf) (v : TimesOf) →
        IsState g (at g c 2 j) xs → j < g.rows → c < never → (times xs j).dispatch ≡ never →
        can_dispatch g (now g c xs) j c ≡ true → IsDispatched g xs j c v →
        IsState g (at g c 2 (j + 1)) (set xs j v) }
{}

/// Behind the last row of a phase comes the first row of the next phase, or of the next cycle.
pub fn ends_of_phases()
    ensures phase { (g : Input) (c p : ℕ) (xs : List TimesOf) → IsState g (at g c p g.rows) xs →
        IsState g (at g c (p + 1) 0) xs }
    ensures cycle { (g : Input) (c : ℕ) (xs : List TimesOf) → IsState g (at g c 2 g.rows) xs →
        IsState g (at g (c + 1) 0 0) xs }
{}

/// Only rows in flight and the row that dispatches next are looked at: in each phase the older rows are
/// passed over, and so are the younger ones once a row may not retire, or may not dispatch.
pub fn rows_passed_over()
    ensures retired { (g : Input) (c front head : ℕ) (xs : List TimesOf) → IsFlow g xs front head →
        IsState g (at g c 0 0) xs → IsState g (at g c 0 front) xs }
    ensures retires { (g : Input) (c front head : ℕ) (xs : List TimesOf) → IsFlow g xs front head →
        (front < g.rows → can_retire g (now g c xs) front c ≡ false) →
        IsState g (at g c 0 front) xs → IsState g (at g c 0 g.rows) xs }
    ensures issued { (g : Input) (c front head : ℕ) (xs : List TimesOf) → IsFlow g xs front head →
        IsState g (at g c 1 0) xs → IsState g (at g c 1 front) xs }
    ensures issues { (g : Input) (c front head : ℕ) (xs : List TimesOf) → IsFlow g xs front head →
        IsState g (at g c 1 head) xs → IsState g (at g c 1 g.rows) xs }
    ensures dispatched { (g : Input) (c front head : ℕ) (xs : List TimesOf) →
        IsFlow g xs front head →
        IsState g (at g c 2 0) xs → IsState g (at g c 2 head) xs }
    ensures dispatches { (g : Input) (c front head : ℕ) (xs : List TimesOf) →
        IsFlow g xs front head →
        (head < g.rows → can_dispatch g (now g c xs) head c ≡ false) →
        IsState g (at g c 2 head) xs → IsState g (at g c 2 g.rows) xs }
{}

/// The list of the uses that took units grows at its end as a row issues, and stays as it is where none
/// does and as the next cycle begins.
pub fn taken_units()
    ensures start { (g : Input) (xs : List TimesOf) → IsState g (at g 0 0 0) xs → taken_now g 0 xs
        ≡ [] }
    ensures retire { (g : Input) (c j : ℕ) (xs : List TimesOf) (v : TimesOf) →
        length xs ≡ g.rows → j < g.rows → IsRetired xs j c v →
        taken_now g c (set xs j v) ≡ taken_now g c xs }
    ensures issue { (g : Input) (c j : ℕ) (xs : List TimesOf) (v : TimesOf) →
        IsState g (at g c 1 j) xs → j < g.rows → c < never →
        (g.row j).reserved ≡ false → (times xs j).issue ≡ never → IsIssued g xs j c v →
        taken_now g c (set xs j v) ≡ taken_now g c xs ++ taken_by c (g.row j).uses v.units }
    ensures dispatch { (g : Input) (c j : ℕ) (xs : List TimesOf) (v : TimesOf) →
        IsState g (at g c 2 j) xs → j < g.rows → c < never → (times xs j).dispatch ≡ never →
        IsDispatched g xs j c v →
        taken_now g c (set xs j v) ≡ taken_now g c xs
        ++ (if (g.row j).reserved then taken_by c (g.row j).uses v.units else []) }
    ensures cycle { (g : Input) (c : ℕ) (xs : List TimesOf) → IsState g (at g (c + 1) 0 0) xs →
        taken_now g (c + 1) xs ≡ taken_now g c xs }
{}

/// What the parts of a machine count over the rows that they keep is what the rules count over all older
/// rows: the dispatch group keeps all that have dispatched, the reorder buffer and the register files
/// those in flight.
pub fn rows_of_the_parts()
    ensures group { (g : Input) (c front head : ℕ) (xs : List TimesOf) → IsFlow g xs front head →
        has_place g.machine.limits.width c (window (dispatched_row g xs) 0 head)
        (uops_of g head) (g.row head).begins_group
        ≡ fits_group g (now g c xs) head c }
    ensures reorder { (g : Input) (c front head : ℕ) (xs : List TimesOf) →
        IsState g (at g c 2 head) xs → IsFlow g xs front head → head < g.rows →
        has_room_in_buffer
        (buffer (window (entry_of g) front (head - front)) g.machine.limits.reorder)
        (uops_of g head)
        ≡ fits_reorder g (now g c xs) head c }
    ensures registers { (g : Input) (c front head : ℕ) (xs : List TimesOf) →
        IsState g (at g c 2 head) xs → IsFlow g xs front head → head < g.rows →
        has_room_in_files g.machine (window (write_of g) front (head - front)) (g.row head).rd
        ≡ fits_registers g (now g c xs) head c }
{}

/// Where all rows have retired the table is the run, and every retirement is below the cycle that comes;
/// at each cycle as many have as do by the rules.
pub fn end_of_a_run()
    ensures run { (g : Input) (bound : ℕ) (xs : List TimesOf) → IsState g (at g bound 0 0) xs →
        ((j : ℕ) → j < g.rows → (times xs j).retire ≡ never → ⊥) → IsRunOf g xs }
    ensures low { (g : Input) (bound : ℕ) (xs : List TimesOf) (j : ℕ) → IsState g
        (at g bound 0 0) xs →
        j < g.rows → ((times xs j).retire ≡ never → ⊥) → (times xs j).retire < bound }
    ensures count { (g : Input) (bound front head : ℕ) (xs : List TimesOf) →
        IsState g (at g bound 0 0) xs → IsFlow g xs front head → front ≡ retired_below g bound }
{}

/// In every run, rows that share a buffer of one entry issue in program order.
pub fn rows_in_turn()
    ensures { (g : Input) (table : List TimesOf) → IsRunOf g table → IssuesInTurn g table }
{}
