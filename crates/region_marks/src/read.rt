//! The regions of a program.
ghost use Rattle.std.specs.Prelude.{◌≡◌, ◌<◌, ◌^◌, length, Ok, IfOk, IfErr};
ghost use Rattle.region_marks.specs.Regions.{regions_of, has_mark, MayRefuse};

use crate::region::Region;
use crate::walk::Walk;
use rv_asm::{AsmRefusal, AsmText, ItemRef, Listing};
use std::alloc::Global;

/// The regions of a program, at most 64, in the order of their ends. Instructions outside the marks
/// belong to none. Without marks one region, which has no name, holds every instruction.
///
/// # Errors
/// The items are walked in order, and the first fault is answered: `BeginInside`, `TooManyRegions`,
/// `EndWithoutBegin`, `WrongName`, `NoInstruction` or `RegionTooLong` with the line of its item;
/// after all items `NeverEnded` with the line of the BEGIN, or, for a text without marks and
/// instructions, `NoInstruction` with line 0. `Memory` has line 0.
pub fn regions(alloc: Global, text: &AsmText) -> Result<Vec<Region>, AsmRefusal>
    requires { length text.now.items < 2 ^ 32 }
    ensures ok { IfOk result (λ regions. regions_of text.now.items ≡ Ok regions.items) }
    ensures err { IfErr result (MayRefuse (regions_of text.now.items)) }
{
    let marked = has_mark(&text.items);
    let mut walk = Walk::start(alloc, marked);
    for k in 0..text.items.len() {
        walk.step(alloc, &text.items, k)?;
    }
    walk.finish(marked)
}

/// Whether the items have a mark.
#[tactic(auto, using(crate::proofs::Walks::front_is))]
fn has_mark(items: &Listing) -> bool
    ensures { result ≡ has_mark items.now }
{
    for k in 0..items.len() {
        match items.get(k) {
            ItemRef::Code(_, _) => continue,
            ItemRef::Begin(_, _) | ItemRef::End(_, _) => return true,
        }
    }
    false
}
