//! Reading the whole content of a name.
ghost use Rattle.std.specs.Prelude.{◌≡◌, List, ℕ, ◌<◌, ◌≤◌, ◌+◌, ◌++◌, length, IfOk, OnOk, true, Err, Some, drop};
ghost use Rattle.std.specs.Io.KnownBytes.{Consumes, IsAtEnd};
ghost use Rattle.mca_io.specs.Devices.{IfContent, Rose};

use crate::failed::Failed;
use crate::shelf::Shelf;
use std::alloc::{AllocError, Global};
use std::error::Error;
use std::fmt;

/// Why a name was not read whole.
#[derive(Clone, Copy, Debug, PartialEq, Eq)]
pub enum ReadFault {
    /// The shelf failed; its count of the name rose.
    Failed,
    /// No call failed, and the content is longer than the limit.
    TooLong,
    /// No memory was to be had.
    Memory,
}

impl fmt::Display for ReadFault {
    ghost use Rattle.std.specs.Prelude.{Some};
    ghost use Rattle.mca_io.specs.Texts.{fault_text};

    ghost output = { λ fault. Some (fault_text fault) };

    fn fmt<W: fmt::Write>(&self, f: &mut fmt::Formatter<W>) -> fmt::Result {
        match self {
            ReadFault::Failed => write!(f, "the shelf failed"),
            ReadFault::TooLong => write!(f, "the content is too long"),
            ReadFault::Memory => write!(f, "out of memory"),
        }
    }
}

impl Error for ReadFault {}

impl From<Failed> for ReadFault {
    ghost use Rattle.mca_io.specs.declared.read.ReadFault.TheVariants.{Failed as DeviceFailed};

    ghost from_gives = { λ _ fault. fault ≡ DeviceFailed };

    fn from(_: Failed) -> ReadFault {
        ReadFault::Failed
    }
}

impl From<AllocError> for ReadFault {
    ghost use Rattle.mca_io.specs.declared.read.ReadFault.TheVariants.{Memory};

    ghost from_gives = { λ _ fault. fault ≡ Memory };

    fn from(_: AllocError) -> ReadFault {
        ReadFault::Memory
    }
}

// The bytes that one read asks for at most.
const PIECE: usize = 65_536;

// A buffer for one read.
fn buffer(alloc: Global) -> Result<Vec<u8>, ReadFault>
    ensures room { IfOk result (λ piece. 0 < length piece.items) }
    ensures err { result ≡ Err ReadFault.Failed → ⊥ }
    ensures not_long { result ≡ Err ReadFault.TooLong → ⊥ }
{
    Ok(vec![in alloc; 0u8; PIECE]?)
}

// Reads the next piece, at most so many bytes, to the end of `bytes`. Answers whether it was the end.
fn read_piece<F: Shelf>(
    shelf: &mut F,
    piece: &mut [u8],
    bytes: &mut Vec<u8>,
    most: usize,
) -> Result<bool, ReadFault>
    requires chosen { F.chosen shelf.old ≡ true }
    requires room { 0 < length piece.old }
    requires most { 0 < most }
    ensures told { (n : List ℕ) → F.told shelf.new n ≡ F.told shelf.old n }
    ensures chosen { F.chosen shelf.new ≡ true }
    ensures later { (n : List ℕ) → F.faults shelf.old n ≤ F.faults shelf.new n }
    ensures still { OnOk result ((n : List ℕ) → F.faults shelf.new n ≡ F.faults shelf.old n) }
    ensures failed { result ≡ Err ReadFault.Failed → (n : List ℕ) → Rose (F.faults shelf.old n) (F.faults shelf.new n) }
    ensures not_long { result ≡ Err ReadFault.TooLong → ⊥ }
    ensures piece { IfOk result (λ end. (read : List ℕ) × (length read ≤ most) × (bytes.new.items ≡ bytes.old.items ++ read) × Consumes (F.rest shelf.old) (F.rest shelf.new) read × (end ≡ true → IsAtEnd (F.rest shelf.new)) × ((end ≡ true → ⊥) → 0 < length read)) }
{
    let want = most.min(piece.len());
    let n = shelf.read(&mut piece[..want])?;
    bytes.extend_from_slice(&piece[..n])?;
    Ok(n == 0)
}

/// The whole content of a name, of at most `limit` bytes. It is read in pieces, and never past
/// `limit + 1` bytes. Which files are there and what they hold stays, whatever the answer.
pub fn read_named<F: Shelf>(
    alloc: Global,
    shelf: &mut F,
    name: &str,
    limit: usize,
) -> Result<Vec<u8>, ReadFault>
    requires { limit ≤ 67108864 }
    ensures content { IfOk result (λ v. IfContent (F.told shelf.old name.now) (λ content. v.items ≡ content)) }
    ensures short { IfOk result (λ v. length v.items ≤ limit) }
    ensures end { OnOk result (IsAtEnd (F.rest shelf.new)) }
    ensures told { (n : List ℕ) → F.told shelf.new n ≡ F.told shelf.old n }
    ensures later { (n : List ℕ) → F.faults shelf.old n ≤ F.faults shelf.new n }
    ensures failed { result ≡ Err ReadFault.Failed → Rose (F.faults shelf.old name.now) (F.faults shelf.new name.now) }
    ensures no_fault { OnOk result ((n : List ℕ) → F.faults shelf.new n ≡ F.faults shelf.old n) }
    ensures long_no_fault { result ≡ Err ReadFault.TooLong → (n : List ℕ) → F.faults shelf.new n ≡ F.faults shelf.old n }
    ensures too_long { result ≡ Err ReadFault.TooLong →
        IfContent (F.told shelf.old name.now) (λ content. limit < length content) }
    ensures stops { result ≡ Err ReadFault.TooLong →
        IfContent (F.told shelf.old name.now) (λ content. F.rest shelf.new ≡ Some (drop (limit + 1) content)) }
{
    shelf.choose(name)?;
    let mut piece = buffer(alloc)?;
    let piece = piece.as_mut_slice();
    let mut bytes = Vec::new(alloc);
    let mut ended = false;
    while !ended {
        let most = limit + 1 - bytes.len();
        ended = read_piece(shelf, piece, &mut bytes, most)?;
        if bytes.len() > limit {
            return Err(ReadFault::TooLong);
        }
    }
    Ok(bytes)
}
