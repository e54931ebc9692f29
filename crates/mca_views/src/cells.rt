//! Texts of a line: cells, labels, and numbers with a label.
ghost use Rattle.std.specs.Prelude.{◌≡◌, ◌≤◌, ◌^◌, ◌++◌, IfOk, OnOk};
ghost use Rattle.std.specs.Fmt.{decimal};
ghost use Rattle.mca_fixed.specs.Decimals.{fixed};
ghost use Rattle.mca_views.specs.Lines.{cell, labelled};

use mca_fixed::{Frac, NoMemory, decimal, whole};
use std::alloc::Global;

/// A text with spaces behind it up to `n` bytes, and at least one.
pub(crate) fn cell(alloc: Global, text: &[u8], n: usize) -> Result<Vec<u8>, NoMemory>
    ensures { IfOk result (λ padded. padded.items ≡ cell text.now n) }
{
    let mut padded = Vec::from_slice(alloc, text)?;
    padded.push(b' ')?;
    padded.resize((text.len() + 1).max(n), b' ')?;
    Ok(padded)
}

/// The same behind a line.
pub(crate) fn push_cell(line: &mut Vec<u8>, text: &[u8], n: u8) -> Result<(), NoMemory>
    ensures { OnOk result (line.new.items ≡ line.old.items ++ cell text.now n) }
{
    line.extend_from_slice(text)?;
    line.resize(
        line.len() + (n as usize).saturating_sub(text.len()).max(1),
        b' ',
    )?;
    Ok(())
}

/// A number in decimal.
pub(crate) fn digits(alloc: Global, number: u64) -> Result<Vec<u8>, NoMemory>
    ensures { IfOk result (λ text. text.items ≡ decimal number) }
{
    whole(alloc, number as i128)
}

/// A label and a text.
pub(crate) fn labelled(alloc: Global, label: &str, value: &[u8]) -> Result<Vec<u8>, NoMemory>
    ensures { IfOk result (λ text. text.items ≡ labelled label.now value.now) }
{
    let mut text = cell(alloc, label.as_bytes(), 19)?;
    text.extend_from_slice(value)?;
    Ok(text)
}

/// A label and a number.
pub(crate) fn counted(alloc: Global, label: &str, number: u64) -> Result<Vec<u8>, NoMemory>
    ensures { IfOk result (λ text. text.items ≡ labelled label.now (decimal number)) }
{
    let text = digits(alloc, number)?;
    labelled(alloc, label, &text)
}

/// A label and a fraction, with 1 or 2 decimals.
pub(crate) fn rated(alloc: Global, label: &str, f: Frac, places: u32) -> Result<Vec<u8>, NoMemory>
    requires den { 1 ≤ f.den }
    requires den_high { f.den ≤ 2 ^ 100 }
    requires num_high { f.num ≤ 2 ^ 100 }
    requires some { 1 ≤ places }
    requires few { places ≤ 2 }
    ensures { IfOk result (λ text. text.items ≡ labelled label.now (fixed f.num f.den places)) }
{
    let text = decimal(alloc, f, places)?;
    labelled(alloc, label, &text)
}
