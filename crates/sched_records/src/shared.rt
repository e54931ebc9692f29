//! A value with several owners, kept once.
ghost use Rattle.std.specs.Prelude.{◌≡◌, IfOk};

use mca_fixed::NoMemory;
use std::alloc::Global;
use std::fmt;
use std::marker::Model;
use std::rc::Rc;

/// One of the owners of a value, which goes with the last of them. Contracts see the value alone.
#[derive(Drop)]
pub struct Shared<T> {
    kept: Rc<T>,
}

impl<T> Model for Shared<T> {
    ghost Value = { T };

    ghost view = { λ s. s.kept.value };
}

impl<T> Shared<T> {
    /// The value, with one owner.
    pub fn make(alloc: Global, value: T) -> Result<Self, NoMemory>
    where
        T: Drop,
        ensures { IfOk result (λ shared. shared ≡ value) }
    {
        Ok(Shared {
            kept: Rc::new(alloc, value)?,
        })
    }

    /// The value.
    pub fn get(&self) -> &T
        ensures { result.now ≡ self.now }
    {
        self.kept.as_ref()
    }

    /// One more owner of the same value, which is not copied.
    pub fn again(&self) -> Result<Self, NoMemory>
    where
        T: Drop,
        ensures { IfOk result (λ shared. shared ≡ self.now) }
    {
        Ok(Shared {
            kept: self.kept.clone()?,
        })
    }
}

impl<T: fmt::Debug> fmt::Debug for Shared<T> {
    ghost debug_output = { λ s. T.debug_output s };

    fn fmt<W: fmt::Write>(&self, f: &mut fmt::Formatter<W>) -> fmt::Result {
        fmt::Debug::fmt(self.get(), f)
    }
}
