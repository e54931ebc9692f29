//! The numbers of a table's machine, kept so that each of its answers is one look.
ghost use Rattle.std.specs.Prelude.{◌≡◌, ◌≤◌, length, map, IfOk, None};
ghost use Rattle.sched_records.specs.declared.limits.TheConstants.{MOST_RECORDS};
ghost use Rattle.sched_checks.specs.Illness.{illness_of};
ghost use Rattle.sched_resolve.specs.InRange.{AreInRange, resources_of, writes_of, advances_of};
ghost use Rattle.sched_validate.specs.MachineNumbers.{AreNumbers, AreLists};

use crate::advances::{Advances, kept_advances};
use crate::classes::all_classes;
use crate::files::{shares, sizes};
use crate::layout::{masks, owners};
use crate::limits::limits;
use crate::lists::{Lists, advances, files, resources, rewrites, writes};
use crate::resources::{buffers, names};
use crate::writes::all_facts;
use machine_model::{ClassAnswer, FileShare, Limits, Tuning, UnitOwner, WriteFacts};
use mca_fixed::{Items, NoMemory, Text};
use sched_resolve::{Defaults, Entries, Entry};
use std::alloc::Global;
use unit_sets::UnitSet;

/// The numbers of a table's machine, by the numbers of its parts.
#[derive(Drop)]
pub struct MachineNumbers {
    pub limits: Limits,
    /// Of each resource, its buffer, its name and its units.
    pub buffers: Items<i32>,
    pub names: Items<Text>,
    pub masks: Items<UnitSet>,
    /// Of each of the 256 units, its owner.
    pub owners: Items<Option<UnitOwner>>,
    /// Of each register file, its size.
    pub sizes: Items<u32>,
    /// Of each of the 32 registers, its share of a file.
    pub shares: Items<Option<FileShare>>,
    /// Of each of the 66 opcodes, its classes.
    pub classes: Items<ClassAnswer>,
    /// Of each write class, its numbers.
    pub writes: Items<WriteFacts>,
    pub read_count: usize,
    pub advances: Advances,
}

impl MachineNumbers {
    /// The numbers of a machine, by the lists of its table's entries.
    fn of_lists(
        alloc: Global,
        list: &[Entry],
        defaults: &[Defaults],
        lists: &Lists<'_>,
        tuning: &Tuning,
    ) -> Result<MachineNumbers, NoMemory>
        requires few { length list.now ≤ MOST_RECORDS }
        requires places { AreInRange list.now defaults.now }
        requires healthy { illness_of list.now ≡ None }
        requires lists { AreLists list.now lists.now }
        ensures { IfOk result (λ numbers. AreNumbers list.now defaults.now tuning.now numbers) }
    {
        Ok(MachineNumbers {
            limits: limits(list, lists.resources, tuning),
            buffers: buffers(alloc, lists.resources)?,
            names: names(alloc, lists.resources)?,
            masks: masks(alloc, lists.resources)?,
            owners: owners(alloc, lists.resources)?,
            sizes: sizes(alloc, lists.files)?,
            shares: shares(alloc, lists.files)?,
            classes: all_classes(alloc, lists.writes, lists.rewrites, defaults)?,
            writes: all_facts(alloc, lists.writes)?,
            read_count: lists.advances.len(),
            advances: kept_advances(alloc, lists.advances)?,
        })
    }

    /// The numbers of the machine of a table without an illness.
    pub(crate) fn of(
        alloc: Global,
        entries: &Entries,
        tuning: &Tuning,
    ) -> Result<MachineNumbers, NoMemory>
        requires few { length entries.now.list ≤ MOST_RECORDS }
        requires places { AreInRange entries.now.list entries.now.defaults }
        requires healthy { illness_of entries.now.list ≡ None }
        ensures { IfOk result (λ numbers. AreNumbers entries.now.list entries.now.defaults
            tuning.now numbers) }
    {
        let list = entries.list.as_slice();
        let resources = resources(alloc, list)?;
        let files = files(alloc, list)?;
        let writes = writes(alloc, list)?;
        let rewrites = rewrites(alloc, list)?;
        let advances = advances(alloc, list)?;
        let lists = Lists {
            resources: &resources,
            files: &files,
            writes: &writes,
            rewrites: &rewrites,
            advances: &advances,
        };
        MachineNumbers::of_lists(alloc, list, entries.defaults.as_slice(), &lists, tuning)
    }
}
