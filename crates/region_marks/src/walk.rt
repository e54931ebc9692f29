//! The walk over the items of a program.
ghost use Rattle.std.specs.Prelude.{◌≡◌, ◌⊎◌, ◌-◌, ◌<◌, ◌≤◌, ◌+◌, ◌^◌, ◌++◌, ◌∷◌, [], length, Ok, Err, IfOk, OnOk, IfErr, true, false, nat_eq};
ghost use Rattle.region_marks.specs.Regions.{start, step, step_code, step_begin, step_end, finish, is_other, item_at, MayRefuse};
ghost use Rattle.rv_asm.specs.declared.fault.AsmKind.TheVariants.{Memory, NoInstruction};

use crate::region::Region;
use mca_fixed::{MOST_REGION_INSTRUCTIONS, MOST_REGIONS, Name};
use rv_asm::{AsmKind, AsmRefusal, ItemRef, Listing};
use std::alloc::Global;
use std::marker::Model;

/// A region that has begun.
#[derive(Drop)]
struct Open {
    name: Name,
    /// The line of its BEGIN.
    line: u32,
    /// The number of its first instruction.
    first: u32,
    /// Its instructions so far.
    count: u32,
}

/// What has been walked over.
#[derive(Drop)]
pub(crate) struct Walk {
    /// The instructions so far, outside of regions too.
    number: u32,
    /// The BEGINs so far.
    begun: u32,
    ended: Vec<Region>,
    inside: Option<Open>,
}

impl Model for Walk {
    ghost use Rattle.region_marks.specs.Regions.{Walked};

    ghost Value = { Walked };

    ghost view = { λ s. record {
      number = s.number;
      begun = s.begun;
      ended = s.ended.items;
      inside = s.inside;
    } };
}

fn refused(line: u32, kind: AsmKind) -> Result<(), AsmRefusal>
    ensures { result ≡ Err (record { line = line; kind = kind }) }
{
    Err(AsmRefusal { line, kind })
}

/// Whether an END has a name, and another one than the open region.
fn is_other(name: &[u8], own: &[u8]) -> bool
    ensures { result ≡ is_other name.now own.now }
{
    !name.is_empty() && !(name == own)
}

/// A region that has ended goes behind the others.
fn close(ended: &mut Vec<Region>, last: Open, line: u32) -> Result<(), AsmRefusal>
    ensures ok { OnOk result ((nat_eq last.count 0 ≡ false) × (ended.new.items ≡ ended.old.items
        ++ record { name = last.name; first = last.first; count = last.count } ∷ [])) }
    ensures err { IfErr result (λ r. (r ≡ record { line = 0; kind = Memory })
        ⊎ ((nat_eq last.count 0 ≡ true) × (r ≡ record { line = line; kind = NoInstruction }))) }
{
    if last.count == 0 {
        return refused(line, AsmKind::NoInstruction);
    }
    let Open {
        name,
        first,
        count,
        ..
    } = last;
    match ended.push(Region { name, first, count }) {
        Ok(()) => Ok(()),
        Err(_) => refused(0, AsmKind::Memory),
    }
}

impl Walk {
    /// The walk begins outside all regions; without marks inside one that holds all.
    pub(crate) fn start(alloc: Global, marked: bool) -> Walk
        ensures { result ≡ start marked }
    {
        let inside = if marked {
            None
        } else {
            Some(Open {
                name: Name::from_vec(Vec::new(alloc)),
                line: 0,
                first: 0,
                count: 0,
            })
        };
        Walk {
            number: 0,
            begun: 0,
            ended: Vec::new(alloc),
            inside,
        }
    }

    /// An instruction.
    fn code(&mut self, line: u32) -> Result<(), AsmRefusal>
        requires { self.old.number < 2 ^ 32 - 1 }
        ensures ok { OnOk result (step_code self.old line self.old.inside ≡ Ok self.new) }
        ensures err { IfErr result (MayRefuse (step_code self.old line self.old.inside)) }
        ensures number { OnOk result (self.new.number ≡ self.old.number + 1) }
    {
        if let Some(open) = &mut self.inside {
            if open.count >= MOST_REGION_INSTRUCTIONS as u32 {
                return refused(line, AsmKind::RegionTooLong);
            }
            open.count += 1;
        }
        self.number += 1;
        Ok(())
    }

    /// A region begins.
    fn begin(&mut self, alloc: Global, line: u32, name: &Name) -> Result<(), AsmRefusal>
        ensures ok { OnOk result (step_begin self.old line name.now self.old.inside ≡ Ok self.new) }
        ensures err { IfErr result (MayRefuse (step_begin self.old line name.now self.old.inside)) }
        ensures number { OnOk result (self.new.number ≡ self.old.number) }
    {
        if self.inside.is_some() {
            return refused(line, AsmKind::BeginInside);
        }
        if self.begun >= MOST_REGIONS as u32 {
            return refused(line, AsmKind::TooManyRegions);
        }
        let name = match Name::from_bytes(alloc, name.as_bytes()) {
            Ok(name) => name,
            Err(_) => return refused(0, AsmKind::Memory),
        };
        self.begun += 1;
        self.inside = Some(Open {
            name,
            line,
            first: self.number,
            count: 0,
        });
        Ok(())
    }

    /// The open region ends.
    fn end(&mut self, line: u32, name: &Name) -> Result<(), AsmRefusal>
        ensures ok { OnOk result (step_end self.old line name.now self.old.inside ≡ Ok self.new) }
        ensures err { IfErr result (MayRefuse (step_end self.old line name.now self.old.inside)) }
        ensures number { OnOk result (self.new.number ≡ self.old.number) }
    {
        match self.inside.take() {
            None => refused(line, AsmKind::EndWithoutBegin),
            Some(open) => {
                if is_other(name.as_bytes(), open.name.as_bytes()) {
                    return refused(line, AsmKind::WrongName);
                }
                close(&mut self.ended, open, line)
            }
        }
    }

    /// One more item: the one at a place.
    pub(crate) fn step(
        &mut self,
        alloc: Global,
        items: &Listing,
        k: usize,
    ) -> Result<(), AsmRefusal>
        requires number { self.old.number < 2 ^ 32 - 1 }
        requires place { k < length items.now }
        ensures ok { OnOk result (step self.old (item_at items.now k) ≡ Ok self.new) }
        ensures err { IfErr result (MayRefuse (step self.old (item_at items.now k))) }
        ensures number { OnOk result (self.new.number ≤ self.old.number + 1) }
    {
        match items.get(k) {
            ItemRef::Code(line, _) => self.code(line),
            ItemRef::Begin(line, name) => self.begin(alloc, line, name),
            ItemRef::End(line, name) => self.end(line, name),
        }
    }

    /// After all items.
    pub(crate) fn finish(self, marked: bool) -> Result<Vec<Region>, AsmRefusal>
        ensures ok { IfOk result (λ regions. finish marked self ≡ Ok regions.items) }
        ensures err { IfErr result (MayRefuse (finish marked self)) }
    {
        let Walk {
            mut ended,
            inside,
            ..
        } = self;
        if let Some(open) = inside {
            if marked {
                return Err(AsmRefusal {
                    line: open.line,
                    kind: AsmKind::NeverEnded,
                });
            }
            close(&mut ended, open, 0)?;
        }
        Ok(ended)
    }
}
