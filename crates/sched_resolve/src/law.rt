//! What holds of the entries of every table.
ghost use Rattle.std.specs.Prelude.{List};
ghost use Rattle.sched_records.specs.declared.records.Record.{Record as RecordOf};
ghost use Rattle.sched_resolve.specs.Entries.{entries_of, all_defaults};
ghost use Rattle.sched_resolve.specs.InRange.{AreInRange};

/// Whatever the records are, each place that their entries and the defaults tell is below the number of
/// resources, writes or advances, and there is a default for each of the 66 opcodes.
pub fn places_in_range()
    ensures { (rs : List RecordOf) → AreInRange (entries_of rs) (all_defaults rs) }
{}
