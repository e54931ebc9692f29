//! What comparing a case found, and how it is told.
use crate::case::Case;
use crate::fault::Fault;
use std::alloc::Global;

/// What comparing a case found: the differences, as they are told, and whether anything was compared.
#[derive(Drop)]
pub(crate) struct Findings {
    pub differences: String,
    pub compared: bool,
}

impl Findings {
    /// Nothing is compared yet.
    pub(crate) fn none(alloc: Global) -> Findings {
        Findings {
            differences: String::new(alloc),
            compared: false,
        }
    }

    /// Compares what came with what a case wants, if it says so in a part of this name.
    pub(crate) fn compare(&mut self, case: &Case, name: &str, came: &[u8]) -> Result<(), Fault> {
        let Some(wanted) = case.find(name) else {
            return Ok(());
        };
        self.compared = true;
        if wanted != came {
            self.differences.push_str(name)?;
            self.differences.push_str(" wanted:\n")?;
            put_lines(&mut self.differences, wanted)?;
            self.differences.push_str(name)?;
            self.differences.push_str(" came:\n")?;
            put_lines(&mut self.differences, came)?;
        }
        Ok(())
    }
}

/// Adds lines, each behind a bar. A last line without a line feed is marked.
fn put_lines(text: &mut String, lines: &[u8]) -> Result<(), Fault> {
    for line in lines.split_inclusive(|byte| *byte == b'\n') {
        text.push_str("| ")?;
        match line.strip_suffix(b"\n") {
            Some(line) => {
                put_bytes(text, line)?;
                text.push_str("\n")?;
            }
            None => {
                put_bytes(text, line)?;
                text.push_str("\n(without a line feed)\n")?;
            }
        }
    }
    Ok(())
}

/// Adds bytes, each as the character of its number.
pub(crate) fn put_bytes(text: &mut String, bytes: &[u8]) -> Result<(), Fault> {
    for byte in bytes {
        text.push(char::from(*byte))?;
    }
    Ok(())
}
