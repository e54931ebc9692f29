//! The items of a text, kept short. A text may have an item for every three or four bytes, and an `Item`,
//! which has room for any number and any name, takes twice as much as the instructions that texts are
//! made of need.
ghost use Rattle.std.specs.Prelude.{◌≡◌, ◌<◌, ◌++◌, ◌∷◌, [], ℕ, length, take, nat_eq, slice_get, Some, OnOk, OnErr, IfSome, IsSome, List};
ghost use Rattle.rv_asm.specs.declared.item.Item.{Item as ItemOf};
ghost use Rattle.rv_asm.specs.Listing.{item_of, with_imm, kept_item, IsWithin, HasRoom};

use crate::item::Item;
use mca_fixed::{Name, NoMemory};
use rv_isa::{Imm, Instr, Op, Reg};
use std::alloc::Global;
use std::marker::Model;

/// An instruction without its immediate, with its line.
#[derive(Clone, Copy, Debug)]
struct Stem {
    line: u32,
    op: Op,
    rd: Reg,
    rs1: Reg,
    rs2: Reg,
}

/// An item as it is kept.
#[derive(Clone, Copy, Debug)]
enum ShortItem {
    /// An instruction without an immediate.
    Plain(Stem),
    /// An instruction whose immediate is a number of at most 32 bits.
    Number(Stem, i32),
    /// An instruction whose immediate is a symbol.
    Symbol(Stem, u32),
    /// Any other item, as its place among those kept aside.
    Aside(u32),
}

const _: () = prove!(size_of::<ShortItem>() == 16);

/// The items of a text, in the order of their places. Contracts see the list.
#[derive(Debug, Drop)]
pub struct Listing {
    kept: Vec<ShortItem>,
    aside: Vec<Item>,
}

impl Model for Listing {
    ghost use Rattle.std.specs.Prelude.{List, map};
    ghost use Rattle.std.specs.List.{All};
    ghost use Rattle.rv_asm.specs.declared.item.Item.{Item};

    ghost Value = { List Item };

    ghost use Rattle.rv_asm.specs.Listing.{kept_item, IsWithin};

    ghost view = { λ s. map (kept_item s.aside.items) s.kept.items };

    ghost invariant = { λ s. All (IsWithin s.aside.items) s.kept.items };
}

/// An item of a listing.
#[derive(Clone, Copy, Debug)]
pub enum ItemRef<'a> {
    /// An instruction, in its line.
    Code(u32, Instr),
    /// A region begins, under a name; the empty name means none.
    Begin(u32, &'a Name),
    /// A region ends, under a name; the empty name means none.
    End(u32, &'a Name),
}

impl Stem {
    /// The item with this immediate.
    fn with<'a>(self, imm: Imm) -> ItemRef<'a>
        ensures { item_of result ≡ with_imm self imm }
    {
        ItemRef::Code(
            self.line,
            Instr {
                op: self.op,
                rd: self.rd,
                rs1: self.rs1,
                rs2: self.rs2,
                imm,
            },
        )
    }
}

/// How an instruction is kept, unless its immediate is a number of more than 32 bits.
fn short(line: u32, instr: &Instr) -> Option<ShortItem>
    ensures item { IfSome result (λ kept. (aside : List ItemOf) → kept_item aside kept ≡ ItemOf.Code line instr.now) }
    ensures within { IfSome result (λ kept. (aside : List ItemOf) → IsWithin aside kept) }
    ensures some { HasRoom instr.now.imm → IsSome result }
{
    let stem = Stem {
        line,
        op: instr.op,
        rd: instr.rd,
        rs1: instr.rs1,
        rs2: instr.rs2,
    };
    match instr.imm {
        Imm::None => Some(ShortItem::Plain(stem)),
        Imm::Symbol(n) => Some(ShortItem::Symbol(stem, n)),
        Imm::Value(n) => match i32::try_from(n) {
            Ok(n) => Some(ShortItem::Number(stem, n)),
            Err(_) => None,
        },
    }
}

fn borrowed(item: &Item) -> ItemRef<'_>
    ensures { item_of result ≡ item.now }
{
    match item {
        Item::Code(line, instr) => ItemRef::Code(*line, *instr),
        Item::Begin(line, name) => ItemRef::Begin(*line, name),
        Item::End(line, name) => ItemRef::End(*line, name),
    }
}

impl Listing {
    /// No items.
    pub fn none(alloc: Global) -> Self
        ensures { result ≡ [] }
    {
        Listing {
            kept: Vec::new(alloc),
            aside: Vec::new(alloc),
        }
    }

    /// An item goes behind the others, and is kept aside.
    fn set_aside(&mut self, item: Item) -> Result<(), NoMemory>
        ensures ok { OnOk result (self.new ≡ self.old ++ item ∷ []) }
        ensures err { OnErr result (self.new ≡ self.old) }
    {
        let Ok(place) = u32::try_from(self.aside.len()) else {
            return Err(NoMemory);
        };
        self.aside.push(item)?;
        self.kept.push(ShortItem::Aside(place))?;
        Ok(())
    }

    /// An item goes behind the others.
    pub fn push(&mut self, item: Item) -> Result<(), NoMemory>
        ensures ok { OnOk result (self.new ≡ self.old ++ item ∷ []) }
        ensures err { OnErr result (self.new ≡ self.old) }
    {
        if let Item::Code(line, instr) = &item {
            if let Some(kept) = short(*line, instr) {
                self.kept.push(kept)?;
                return Ok(());
            }
        }
        self.set_aside(item)
    }

    /// Items go behind the others; where memory is wanting, only the first of them may.
    pub fn extend(&mut self, items: Vec<Item>) -> Result<(), NoMemory>
        ensures ok { OnOk result (self.new ≡ self.old ++ items.items) }
        ensures err { OnErr result ((n : ℕ) × (self.new ≡ self.old ++ take n items.items)) }
    {
        for item in items {
            self.push(item)?;
        }
        Ok(())
    }

    /// How many they are.
    pub fn len(&self) -> usize
        ensures { result ≡ length self.now }
    {
        self.kept.len()
    }

    /// Whether there is none.
    pub fn is_empty(&self) -> bool
        ensures { result ≡ nat_eq (length self.now) 0 }
    {
        self.len() == 0
    }

    /// The item at a place.
    pub fn get(&self, place: usize) -> ItemRef<'_>
        requires { place < length self.now }
        ensures { slice_get self.now place ≡ Some (item_of result) }
    {
        let kept = self.kept[place];
        match kept {
            ShortItem::Plain(stem) => stem.with(Imm::None),
            ShortItem::Number(stem, n) => stem.with(Imm::Value(i64::from(n))),
            ShortItem::Symbol(stem, n) => stem.with(Imm::Symbol(n)),
            ShortItem::Aside(k) => borrowed(&self.aside[k as usize]),
        }
    }
}
