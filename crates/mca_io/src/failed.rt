//! The one way in which a device refuses.

use std::error::Error;
use std::fmt;

/// A device failed in this call. Its count of faults rose, and nothing else of it changed.
#[derive(Clone, Copy, Debug, PartialEq, Eq)]
pub struct Failed;

impl fmt::Display for Failed {
    ghost use Rattle.std.specs.Prelude.{Some};
    ghost use Rattle.mca_io.specs.Texts.{failed_text};

    ghost output = { λ failed. Some (failed_text failed) };

    fn fmt<W: fmt::Write>(&self, f: &mut fmt::Formatter<W>) -> fmt::Result {
        write!(f, "a device failed")
    }
}

impl Error for Failed {}
