//! What a statement has behind its labels.
ghost use Rattle.std.specs.Prelude.{◌≡◌, ◌⊎◌, ◌++◌, ◌∷◌, [], true, false, OnOk};
ghost use Rattle.rv_asm.specs.Statement.{more, behind, takes_strings};

use crate::statement::{is_label, is_skipped};
use mca_fixed::NoMemory;
use std::alloc::Global;
use std::marker::Model;

/// The text of a statement behind its labels, so far. Contracts see its bytes.
#[derive(Drop)]
pub struct BehindLabels {
    text: Vec<u8>,
    /// Whether the statement is skipped, once that is settled: behind a `"`, and behind a colon that ends
    /// no label. So no byte is looked at again and again.
    settled: Option<bool>,
}

impl Model for BehindLabels {
    ghost use Rattle.std.specs.Prelude.{List, ℕ};

    ghost Value = { List ℕ };

    ghost use Rattle.rv_asm.specs.Statement.{IsSettled};

    ghost view = { λ s. s.text.items };

    ghost invariant = { λ s. IsSettled s.settled s.text.items };
}

impl BehindLabels {
    /// Nothing.
    pub fn empty(alloc: Global) -> Self
        ensures { result ≡ [] }
    {
        BehindLabels {
            text: Vec::new(alloc),
            settled: None,
        }
    }

    /// Whether a `"` that comes next begins a string.
    pub fn takes_strings(&self) -> bool
        ensures { result ≡ takes_strings self.now }
    {
        match self.settled {
            Some(skipped) => skipped,
            None => is_skipped(&self.text),
        }
    }

    /// Takes a colon or a `"`.
    fn push_stop(&mut self, b: u8) -> Result<(), NoMemory>
        requires { (b ≡ 58) ⊎ (b ≡ 34) }
        ensures { OnOk result (self.new ≡ more self.old b) }
    {
        if b == b':' && is_label(&self.text) {
            self.clear();
            return Ok(());
        }
        let skipped = is_skipped(&self.text);
        self.text.push(b)?;
        self.settled = Some(skipped);
        Ok(())
    }

    /// Whether a byte settles what the statement is, or ends a label.
    fn settles(&self, b: u8) -> bool
        ensures stop { result ≡ true → (b ≡ 58) ⊎ (b ≡ 34) }
        ensures other { result ≡ false → more self.now b ≡ self.now ++ b ∷ [] }
    {
        if b != b':' && b != b'"' {
            return false;
        }
        self.settled.is_none()
    }

    /// Takes a byte that ends no label and settles nothing.
    fn push_byte(&mut self, b: u8) -> Result<(), NoMemory>
        ensures { OnOk result (self.new ≡ self.old ++ b ∷ []) }
    {
        self.text.push(b)?;
        Ok(())
    }

    /// Takes a byte.
    fn push(&mut self, b: u8) -> Result<(), NoMemory>
        ensures { OnOk result (self.new ≡ more self.old b) }
    {
        if self.settles(b) {
            return self.push_stop(b);
        }
        self.push_byte(b)
    }

    /// Takes the bytes of a piece.
    pub fn extend(&mut self, bytes: &[u8]) -> Result<(), NoMemory>
        ensures { OnOk result (self.new ≡ behind self.old bytes.now) }
    {
        for b in bytes {
            self.push(*b)?;
        }
        Ok(())
    }

    /// The bytes.
    pub fn as_slice(&self) -> &[u8]
        ensures { result.now ≡ self.now }
    {
        self.text.as_slice()
    }

    /// The statement ends.
    pub fn clear(&mut self)
        ensures { self.new ≡ [] }
    {
        self.text.clear();
        self.settled = None;
    }
}
