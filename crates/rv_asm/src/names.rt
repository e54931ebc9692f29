//! The names of a text, which are numbered as they appear.
ghost use Rattle.std.specs.Prelude.{◌≡◌, ◌<◌, ◌≤◌, ◌+◌, ◌^◌, [], length, IfOk, ◌-◌};
ghost use Rattle.rv_asm.specs.Names.{with_name, number_of};

use indexmap::IndexSet;
use mca_fixed::{Items, Name, NoMemory};
use std::alloc::Global;
use std::marker::Model;

/// The names so far, in the order of their first appearance. Contracts see the list.
#[derive(Drop)]
pub struct Names {
    set: IndexSet<Vec<u8>>,
}

impl Model for Names {
    ghost use Rattle.std.specs.Prelude.{List, ℕ, map};

    ghost Value = { List (List ℕ) };

    ghost view = { λ s. map (λ v. v.items) s.set.keys };
}

impl Names {
    /// No names.
    pub fn none(alloc: Global) -> Self
        ensures { result ≡ [] }
    {
        Names {
            set: IndexSet::new(alloc),
        }
    }

    /// The number of a name that appears.
    pub fn number(&mut self, alloc: Global, name: &[u8]) -> Result<u32, NoMemory>
        requires { length self.old < 2 ^ 32 - 1 }
        ensures number { IfOk result (λ n. n ≡ number_of self.old name.now) }
        ensures after { IfOk result (λ n. self.new ≡ with_name self.old name.now) }
        ensures more { IfOk result (λ n. length self.new ≤ length self.old + 1) }
    {
        let (number, _) = self.set.insert_full(Vec::from_slice(alloc, name)?)?;
        Ok(number as u32)
    }

    /// The names as a list of their own.
    pub fn into_items(self, alloc: Global) -> Result<Items<Name>, NoMemory>
        ensures { IfOk result (λ items. items ≡ self) }
    {
        let Names { set } = self;
        let names: Vec<Name> = set.into_iter().map(|v| Name::from_vec(v)).collect(alloc)?;
        Ok(Items::from_vec(names))
    }
}
