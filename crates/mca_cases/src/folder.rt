//! The files that lie beside a list of cases.
use crate::fault::{Fault, wrong};
use mca_io::{ReadFault, Shelf, read_named};
use std::alloc::Global;

/// The most bytes that are read of a file.
const MOST_BYTES: usize = 16_777_216;

/// The files of one folder, read by their names below it.
#[derive(Drop)]
pub(crate) struct Folder<S: Shelf + Drop> {
    alloc: Global,
    shelf: S,
    path: String,
}

impl<S: Shelf + Drop> Folder<S> {
    /// The folder in which a file lies.
    pub(crate) fn of_file(alloc: Global, shelf: S, file: &str) -> Result<Folder<S>, Fault> {
        let mut path = String::new(alloc);
        if let Some((folder, _)) = file.rsplit_once('/') {
            path.push_str(folder)?;
            path.push_str("/")?;
        }
        Ok(Folder { alloc, shelf, path })
    }

    /// The whole content of a file of the folder.
    pub(crate) fn content(&mut self, name: &str) -> Result<Vec<u8>, Fault> {
        let mut path = self.path.clone()?;
        path.push_str(name)?;
        match read_named(self.alloc, &mut self.shelf, path.as_str(), MOST_BYTES) {
            Ok(bytes) => Ok(bytes),
            Err(ReadFault::Failed) => Err(wrong(self.alloc, "cannot be read", name)),
            Err(ReadFault::TooLong) => Err(wrong(self.alloc, "too long", name)),
            Err(ReadFault::Memory) => Err(Fault::Memory),
        }
    }
}
