//! The resources of which no unit is found any more in a phase of a cycle.
ghost use Rattle.std.specs.Prelude.{◌≡◌, ◌<◌, ◌≤◌, ℕ, List, false, nat_eq};
ghost use Rattle.unit_sets.specs.Members.{in_word};
ghost use Rattle.cycle_rules.specs.Bind.{row_of};
ghost use Rattle.cycle_rules.specs.Pick.{Taken};
ghost use Rattle.resource_units.specs.Kept.{HasUses};
ghost use Rattle.resource_units.specs.Stand.{StandsFor as UnitsStandFor, machine_of};
ghost use Rattle.engine_steps.specs.Refused.{AreRefused, HasOneUse};

use crate::wakeup::{OTHERS, class_of};
use cycle_rules::Bound;
use machine_model::Machine;
use resource_units::Units;
use unit_sets::UnitMask;

/// Puts the class of an instruction into the set, where it is a resource and the instruction finds no unit
/// of it.
pub fn refuse<M: Machine>(units: &Units<M>, b: &Bound, refused: &mut u64, c: u64)
    requires { HasUses (machine_of M.meaning units.now) b.now }
    ensures { (taken : List Taken) → UnitsStandFor M.meaning M.Mask.holds c units.now taken →
        AreRefused (machine_of M.meaning units.now) taken c refused.old →
        AreRefused (machine_of M.meaning units.now) taken c refused.new }
{
    let class = class_of(b);
    if class == OTHERS {
        return;
    }
    if units.can_take(b, c) {
        return;
    }
    refused.insert(class);
}
