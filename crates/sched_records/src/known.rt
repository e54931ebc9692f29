//! What is known of a text up to a place, and what each phrase of it comes to.
ghost use Rattle.std.specs.Prelude.{◌≡◌, [], ◌∷◌, ◌++◌, OnOk, IfOk};
ghost use Rattle.sched_records.specs.Known.{known_after, doing_after, is_item, may_end};

use crate::class::Class;
use crate::members::{Given, Scope};
use crate::records::{Record, Records, Value};
use crate::scopes::Scopes;
use crate::so_far::RecordsSoFar;
use crate::tokens::Tokens;
use mca_fixed::{Items, Name, NoMemory};
use std::alloc::Global;

/// A record up to its arguments.
#[derive(Drop)]
pub struct Head {
    pub class: Class,
    pub name: Name,
    pub args: Items<Value>,
}

/// What stands open at a place.
#[derive(Drop)]
pub enum Doing {
    /// An item is next, or the end of the items.
    Item,
    /// An argument of the record is next.
    Arguments(Head),
    /// A `let` of the record's body is next, or its end; these were given.
    Body(Head, Items<Given>),
    /// A field of a scope is next; these were given.
    Scope(Items<Given>),
}

/// What a phrase comes to.
#[derive(Drop)]
pub enum Step {
    /// This stands open now.
    Next(Doing),
    /// A record is whole.
    Whole(Record),
    /// A scope begins.
    Into(Scope),
    /// The items in braces end.
    OutOf,
}

/// The scopes around a place, the innermost first, and the records before it.
#[derive(Drop)]
pub struct Known {
    pub scopes: Scopes,
    pub kept: RecordsSoFar,
}

impl Known {
    pub fn new(alloc: Global) -> Known
        ensures scopes { result.scopes ≡ [] }
        ensures kept { result.kept ≡ [] }
    {
        Known {
            scopes: Scopes::new(alloc),
            kept: RecordsSoFar::new(alloc),
        }
    }

    /// Takes up what a phrase comes to, and says what stands open then.
    pub fn take(&mut self, alloc: Global, step: Step) -> Result<Doing, NoMemory>
        ensures known { OnOk result (self.new ≡ known_after self.old step) }
        ensures doing { IfOk result (λ d. d ≡ doing_after step) }
    {
        match step {
            Step::Next(doing) => return Ok(doing),
            Step::Whole(record) => {
                self.kept.push(alloc, record)?;
                self.scopes.close();
            }
            Step::Into(scope) => self.scopes.enter(scope)?,
            Step::OutOf => {
                self.scopes.leave();
                self.scopes.close();
            }
        }
        Ok(Doing::Item)
    }

    pub fn into_records(self) -> Records
        ensures { result ≡ self.kept }
    {
        let Known { scopes: _, kept } = self;
        kept.into_records()
    }
}

fn is_item(doing: &Doing) -> bool
    ensures { result ≡ is_item doing.now }
{
    matches!(doing, Doing::Item)
}

/// Whether the text may end here, and does.
pub fn may_end(known: &Known, doing: &Doing, tokens: &Tokens<'_>) -> bool
    ensures { result ≡ may_end known.now doing.now tokens.now }
{
    is_item(doing) && known.scopes.as_slice().is_empty() && tokens.first().is_the_end()
}
