//! A program, cut into its regions.
ghost use Rattle.std.specs.Prelude.{◌≡◌, ◌<◌, ◌≤◌, length, IfOk};
ghost use Rattle.region_marks.specs.Marked.{code_of};
ghost use Rattle.mca_run.specs.Regions.{region_at, code_at};
ghost use Rattle.mca_run.specs.Steps.{IsSound};

use mca_fixed::{Items, Name, NoMemory};
use region_marks::Region;
use rv_asm::{ItemRef, Listing};
use rv_isa::Instr;
use std::alloc::Global;

/// What is read of an assembly.
#[derive(Drop)]
pub(crate) struct Program {
    /// Its instructions, outside of regions too.
    pub code: Items<Instr>,
    /// Its regions, in order.
    pub regions: Items<Region>,
    /// The texts of its symbols.
    pub names: Items<Name>,
}

impl Program {
    /// The instructions of a region, by its number.
    pub(crate) fn instructions(&self, k: usize) -> &[Instr]
        requires sound { IsSound self.now }
        requires region { k < length self.now.regions }
        ensures { result.now ≡ code_at self.now k }
    {
        let region = &self.regions.as_slice()[k];
        let first = region.first as usize;
        &self.code.as_slice()[first..first + region.count as usize]
    }

    /// The name of a region, by its number; empty for none.
    pub(crate) fn name(&self, k: usize) -> &Name
        requires region { k < length self.now.regions }
        ensures { result.now ≡ (region_at self.now k).name }
    {
        &self.regions.as_slice()[k].name
    }
}

/// The instructions among the items.
#[tactic(auto, using(crate::proofs::Walk::front_is))]
pub(crate) fn code(alloc: Global, items: &Listing) -> Result<Vec<Instr>, NoMemory>
    ensures { IfOk result (λ code. code.items ≡ code_of items.now) }
{
    let mut code = Vec::with_capacity(alloc, items.len())?;
    for k in 0..items.len() {
        match items.get(k) {
            ItemRef::Code(_, instr) => code.push(instr)?,
            ItemRef::Begin(_, _) | ItemRef::End(_, _) => continue,
        }
    }
    Ok(code)
}
