//! What is true of the order in which the uses of an instruction are met, and of the owners of
//! units.
ghost use Rattle.std.specs.Prelude.{◌≡◌, ℕ, List, false};
ghost use Rattle.machine_model.specs.Fixed.{AreSizes, fixed_meaning};
ghost use Rattle.machine_model.specs.Uses.{in_use_order, IsUseOrder};
ghost use Rattle.machine_model.specs.Valid.{HaveOwners};
ghost use Rattle.machine_model.specs.declared.facts.Use.{Use as UseOf};
ghost use Rattle.machine_model.specs.declared.tuning.Tuning.{Tuning};

/// Each list of uses has one use order: the fewest units first, and as written where two have as many.
pub fn one_use_order()
    ensures some { (size : ℕ → ℕ) (ws : List UseOf) → IsUseOrder size ws (in_use_order size ws) }
    ensures one { (size : ℕ → ℕ) (ws list : List UseOf) → IsUseOrder size ws list → list ≡ in_use_order size ws }
{}

/// A unit of a machine of this crate has an owner exactly where one of its resources has the unit: none
/// of these is a group.
pub fn unit_owners()
    ensures { (width reorder alus : ℕ) (t : Tuning) → AreSizes width reorder alus →
        HaveOwners (fixed_meaning width reorder alus t) (λ _. false) }
{}
