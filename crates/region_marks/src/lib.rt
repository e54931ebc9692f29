//! The regions of a program: its instructions between the marks `# LLVM-MCA-BEGIN` and
//! `# LLVM-MCA-END` (LLVM Command Guide, llvm-mca, on code regions).
//!
//! items → a walk that keeps the region that is open (`walk`) → regions, or the first fault
//! (`read`). What the marks of a text make, step by step, is told in specs/Regions; how the regions
//! stand in the text, in specs/Marked.
#![tactic(auto)]

ghost use Rattle.std.specs.Prelude.{◌≡◌, List, Ok};
ghost use Rattle.std.specs.List.{All};
ghost use Rattle.region_marks.specs.Marked.{AreRegions, HasRightSize, LiesWithin};
ghost use Rattle.region_marks.specs.Regions.{regions_of};
ghost use Rattle.region_marks.specs.Worked.{answers, wanted};
ghost use Rattle.region_marks.specs.declared.region.Region.{Region as RegionOf};
ghost use Rattle.rv_asm.specs.declared.item.Item.{Item};

mod read;
mod region;
mod walk;

pub use read::regions;
pub use region::Region;

/// The regions of a text are what stands between its marks, in order, and all of that; and a text in
/// which regions stand so has them, and no fault. Each has an instruction, at most 4,096, and lies within
/// the instructions of the text.
pub fn regions_stand_between_marks()
    ensures marks { (items : List Item) (regions : List RegionOf) →
        regions_of items ≡ Ok regions → AreRegions items regions }
    ensures all { (items : List Item) (regions : List RegionOf) →
        AreRegions items regions → regions_of items ≡ Ok regions }
    ensures sizes { (items : List Item) (regions : List RegionOf) →
        regions_of items ≡ Ok regions → All HasRightSize regions }
    ensures within { (items : List Item) (regions : List RegionOf) →
        regions_of items ≡ Ok regions → All (LiesWithin items) regions }
{}

/// What the definition answers for texts that were worked out by hand.
pub fn worked()
    ensures { answers ≡ wanted }
{}
