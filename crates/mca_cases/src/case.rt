//! A case: the parts of a case file, with their contents made.
use crate::archive::sections;
use crate::fault::{Fault, wrong};
use crate::folder::Folder;
use crate::generate::generate;
use mca_io::Shelf;
use std::alloc::Global;

/// A part of a case.
#[derive(Drop)]
pub(crate) struct Part {
    pub name: String,
    pub bytes: Vec<u8>,
}

/// A case. No two of its parts have the same name.
#[derive(Drop)]
pub(crate) struct Case {
    alloc: Global,
    parts: Vec<Part>,
}

impl Case {
    /// A case without parts.
    pub(crate) fn new(alloc: Global) -> Case {
        Case {
            alloc,
            parts: Vec::new(alloc),
        }
    }

    /// The case of a file. A section `generate NAME` makes the part NAME by its lines, which are rules.
    pub(crate) fn read(
        alloc: Global,
        data: &mut Folder<impl Shelf + Drop>,
        name: &str,
    ) -> Result<Case, Fault> {
        let mut case = Case::new(alloc);
        let file = data.content(name)?;
        for section in sections(alloc, &file)? {
            match section.name.strip_prefix("generate ") {
                Some(name) => case.put(name, generate(alloc, data, section.text.as_str())?)?,
                None => {
                    let bytes = Vec::from_slice(alloc, section.text.as_bytes())?;
                    case.put(section.name.as_str(), bytes)?;
                }
            }
        }
        Ok(case)
    }

    /// Adds a part.
    pub(crate) fn put(&mut self, name: &str, bytes: Vec<u8>) -> Result<(), Fault> {
        if self.find(name).is_some() {
            return Err(wrong(self.alloc, "the section stands twice", name));
        }
        let name = String::from_str(self.alloc, name)?;
        self.parts.push(Part { name, bytes })?;
        Ok(())
    }

    /// The parts, in their order.
    pub(crate) fn parts(&self) -> &[Part] {
        &self.parts
    }

    /// The bytes of the part of a name.
    pub(crate) fn find(&self, name: &str) -> Option<&[u8]> {
        for part in &self.parts {
            if part.name.as_str() == name {
                return Some(&part.bytes);
            }
        }
        None
    }

    /// The bytes of the part of a name, which has to be there.
    pub(crate) fn need(&self, name: &str) -> Result<&[u8], Fault> {
        match self.find(name) {
            Some(bytes) => Ok(bytes),
            None => Err(wrong(self.alloc, "no section", name)),
        }
    }

    /// The text of the part of a name, which has to be there.
    pub(crate) fn need_text(&self, name: &str) -> Result<&str, Fault> {
        match str::from_utf8(self.need(name)?) {
            Ok(text) => Ok(text),
            Err(_) => Err(wrong(self.alloc, "not in UTF-8", name)),
        }
    }

    /// The input of a call that has one.
    pub(crate) fn input(&self, name: &str) -> Result<&[u8], Fault> {
        self.check(|other| other == name || is_of_call(other))?;
        self.need(name)
    }

    /// The inputs of a call that has two.
    pub(crate) fn inputs(&self, one: &str, two: &str) -> Result<(&[u8], &[u8]), Fault> {
        self.check(|other| other == one || other == two || is_of_call(other))?;
        Ok((self.need(one)?, self.need(two)?))
    }

    /// Refuses a case that has a part of another name than those that are known.
    pub(crate) fn check<F: Fn(&str) -> bool>(&self, known: F) -> Result<(), Fault>
        requires { F.IsAlwaysCallable known }
    {
        for part in &self.parts {
            if !known(part.name.as_str()) {
                return Err(wrong(self.alloc, "unknown section", part.name.as_str()));
            }
        }
        Ok(())
    }
}

/// Whether a part is no input of a call: its name, or what is expected.
fn is_of_call(name: &str) -> bool {
    name == "call" || name == "answer"
}
