//! The scopes around a place.
ghost use Rattle.std.specs.Prelude.{◌≡◌, [], ◌∷◌, length, drop, OnOk};
ghost use Rattle.sched_records.specs.Scopes.{closes, closed};

use crate::members::Scope;
use mca_fixed::NoMemory;
use std::alloc::Global;
use std::marker::Model;

/// The `let` scopes around a place, the innermost first.
#[derive(Drop)]
pub struct Scopes {
    scopes: Vec<Scope>,
}

impl Model for Scopes {
    ghost use Rattle.std.specs.Prelude.{List};
    ghost use Rattle.sched_records.specs.declared.members.Scope.{Scope};

    ghost Value = { List Scope };

    ghost view = { λ s. s.scopes.items };
}

impl Scopes {
    pub fn new(alloc: Global) -> Scopes
        ensures { result ≡ [] }
    {
        Scopes {
            scopes: Vec::new(alloc),
        }
    }

    pub fn as_slice(&self) -> &[Scope]
        ensures { result.now ≡ self.now }
    {
        self.scopes.as_slice()
    }

    /// Puts a scope inside all others.
    pub fn enter(&mut self, scope: Scope) -> Result<(), NoMemory>
        ensures { OnOk result (self.new ≡ scope ∷ self.old) }
    {
        self.scopes.insert(0, scope)?;
        Ok(())
    }

    /// Takes away the scopes without braces up to the first that has them.
    pub fn close(&mut self)
        ensures { self.new ≡ closed self.old }
    {
        while closes(self.as_slice()) {
            self.leave();
        }
    }

    /// Takes away the innermost scope.
    pub fn leave(&mut self)
        ensures { self.new ≡ drop 1 self.old }
    {
        if !self.scopes.as_slice().is_empty() {
            self.scopes.remove(0);
        }
    }
}

/// Whether the innermost scope has no braces.
fn closes(scopes: &[Scope]) -> bool
    ensures { result ≡ closes scopes.now }
{
    match scopes {
        [] => false,
        [scope, ..] => !scope.braced,
    }
}
