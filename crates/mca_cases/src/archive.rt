//! The parts of a case file, which is a txtar archive: a comment, and then sections, each headed by a line
//! `-- NAME --`.
use crate::fault::{Fault, wrong};
use std::alloc::Global;

/// A section: its name, and its lines, each with its line feed.
#[derive(Drop)]
pub(crate) struct Section {
    pub name: String,
    pub text: String,
}

/// The name in a line that heads a section; none in any other line.
fn head(line: &str) -> Option<&str> {
    let line = line.strip_suffix('\n').unwrap_or(line);
    line.strip_prefix("-- ")?.strip_suffix(" --")
}

/// The sections of a case file, in their order. The comment on top is passed over.
pub(crate) fn sections(alloc: Global, file: &[u8]) -> Result<Vec<Section>, Fault> {
    let Ok(file) = str::from_utf8(file) else {
        return Err(wrong(alloc, "not in UTF-8", "the case file"));
    };
    let mut sections = Vec::new(alloc);
    for line in file.split_inclusive('\n') {
        if let Some(name) = head(line) {
            sections.push(Section {
                name: String::from_str(alloc, name)?,
                text: String::new(alloc),
            })?;
        } else if let Some(last) = sections.last_mut() {
            put_line(last, line)?;
        }
    }
    Ok(sections)
}

/// A line goes to the end of a section.
fn put_line(section: &mut Section, line: &str) -> Result<(), Fault> {
    section.text.push_str(line)?;
    Ok(())
}
