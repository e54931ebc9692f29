//! The laws of the machines of tables.
ghost use Rattle.std.specs.Prelude.{◌≡◌, ◌≤◌, List, length, slice_get, None};
ghost use Rattle.machine_model.specs.Valid.{HaveOwners, IsValidMachine};
ghost use Rattle.machine_model.specs.declared.tuning.Tuning.{Tuning as TuningOf};
ghost use Rattle.mca_fixed.specs.declared.limits.TheConstants.{MOST_UNITS};
ghost use Rattle.sched_records.specs.declared.limits.TheConstants.{MOST_RECORDS};
ghost use Rattle.sched_checks.specs.Illness.{illness_of};
ghost use Rattle.sched_checks.specs.Resources.{group_at, resources_of};
ghost use Rattle.sched_resolve.specs.declared.entry.Entry.{Entry as EntryOf};
ghost use Rattle.sched_resolve.specs.declared.entry.Defaults.{Defaults as DefaultsOf};
ghost use Rattle.sched_validate.specs.Files.{HasFiles};
ghost use Rattle.sched_validate.specs.Lists.{files_of};
ghost use Rattle.sched_validate.specs.Machine.{machine_of};
ghost use Rattle.sched_resolve.specs.InRange.{AreInRange};

/// A table without an illness describes a machine that keeps the law.
pub fn machine_is_valid()
    ensures { (es : List EntryOf) (ds : List DefaultsOf) (t : TuningOf) → length es ≤ MOST_RECORDS
        → AreInRange es ds → illness_of es ≡ None → IsValidMachine MOST_UNITS MOST_UNITS (machine_of es ds t) }
{}

/// A unit of a table's machine has an owner exactly where a resource that is no group has it.
pub fn owners_are_told()
    ensures { (es : List EntryOf) (ds : List DefaultsOf) (t : TuningOf)
        → HaveOwners (machine_of es ds t) (λ r. group_at (slice_get (resources_of es) r)) }
{}

/// A register of the machine of a table without an illness is in a file exactly where the file holds it, at
/// what the file asks for the class that has it.
pub fn files_are_told()
    ensures { (es : List EntryOf) (ds : List DefaultsOf) (t : TuningOf) → illness_of es ≡ None
        → HasFiles (files_of es) (machine_of es ds t) }
{}
