//! The devices over std, which are the trusted edge: they count their faults and tell no bytes.
ghost use Rattle.std.specs.Prelude.{◌≡◌, ℕ, List, false, None, is_some};

use crate::failed::Failed;
use crate::shelf::Shelf;
use crate::sink::Sink;
use std::alloc::Global;
use std::fs::{self, Files};
use std::io::{Read, Write};

/// The files of the system, by their paths. All names have one count of faults.
#[derive(Drop)]
pub struct FileShelf<R: Files + Drop> {
    rt: R,
    file: Option<R::File>,
    faults: u64,
}

impl<R: Files + Drop> FileShelf<R> {
    /// A shelf with no file chosen and no fault counted. Takes no memory.
    pub fn make(rt: R, _alloc: Global) -> FileShelf<R>
        ensures chosen { ⟦<FileShelf<R> as Shelf>⟧.chosen result ≡ false }
        ensures faults { (n : List ℕ) → ⟦<FileShelf<R> as Shelf>⟧.faults result n ≡ 0 }
    {
        FileShelf {
            rt,
            file: None,
            faults: 0,
        }
    }
}

impl<R: Files + Drop> Shelf for FileShelf<R> {
    ghost told = { λ s n. None };

    ghost chosen = { λ s. is_some s.file };

    ghost rest = { λ s. None };

    ghost faults = { λ s n. s.faults };

    fn choose(&mut self, name: &str) -> Result<(), Failed> {
        match fs::open(&self.rt, name) {
            Ok(file) => {
                self.file = Some(file);
                Ok(())
            }
            Err(_) => {
                self.faults = self.faults.saturating_add(1);
                Err(Failed)
            }
        }
    }

    fn read(&mut self, buf: &mut [u8]) -> Result<usize, Failed> {
        let answer = match &mut self.file {
            Some(file) => file.read(buf),
            None => unreachable!(),
        };
        match answer {
            Ok(n) => Ok(n),
            Err(_) => {
                self.faults = self.faults.saturating_add(1);
                Err(Failed)
            }
        }
    }
}

/// A writer of std. A write of nothing counts as a fault.
#[derive(Drop)]
pub struct StdSink<W: Write + Drop> {
    inner: W,
    faults: u64,
}

impl<W: Write + Drop> StdSink<W> {
    /// A sink over a writer, with no fault counted. Takes no memory.
    pub fn make(inner: W) -> StdSink<W>
        ensures { (⟦<StdSink<W> as Sink>⟧.told result).faults ≡ 0 }
    {
        StdSink { inner, faults: 0 }
    }
}

impl<W: Write + Drop> Sink for StdSink<W> {
    ghost told = { λ s. record { contents = None; faults = s.faults } };

    fn write(&mut self, bytes: &[u8]) -> Result<usize, Failed> {
        match self.inner.write(bytes) {
            Ok(n) if n > 0 => Ok(n),
            _ => {
                self.faults = self.faults.saturating_add(1);
                Err(Failed)
            }
        }
    }
}
