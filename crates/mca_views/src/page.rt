//! A page that counts its bytes and stops where there is no room.
ghost use Rattle.std.specs.Prelude.{
  ◌≡◌,
  ◌<◌,
  ◌≤◌,
  ◌+◌,
  ◌-◌,
  [],
  ◌∷◌,
  ◌++◌,
  length,
  OnOk,
  OnErr,
  IfErr,
  IsOkUnless,
  map,
  take,
};
ghost use Rattle.mca_fixed.specs.Padding.{spaces};
ghost use Rattle.mca_views.specs.Page.{size, more, closed, added};
ghost use Rattle.mca_views.specs.Lines.{line, lines, trimmed};
ghost use Rattle.mca_views.specs.Fault.{Over};

use crate::fault::ViewFault;
use std::alloc::Global;
use std::marker::Model;

/// The lines that are written so far, and the one that is being written. The spaces at the end of a line
/// are dropped: a page takes no byte for a space until something follows it in its line. It never has
/// more than `room` bytes.
///
/// A call answers `TooLong` exactly where the page would have more bytes than its room, or `Memory`. What
/// stands on the page after an error is not said.
#[derive(Drop)]
pub struct Page {
    // The whole lines, each with its line feed.
    text: Vec<u8>,
    // The open line up to its last byte that is no space, and how many spaces follow.
    last: Vec<u8>,
    blanks: usize,
    room: usize,
}

impl Model for Page {
    ghost use Rattle.mca_views.specs.Page.{Written, written, IsKept};

    ghost Value = { Written };

    ghost view = { λ s. written s.text.items s.last.items s.blanks s.room };

    ghost invariant = { λ s. IsKept s.text.items s.last.items s.room };
}

impl Page {
    /// An empty page.
    pub fn make(alloc: Global, room: usize) -> Page
        ensures { result ≡ record { text = []; open_line = []; room = room } }
    {
        Page {
            text: Vec::new(alloc),
            last: Vec::new(alloc),
            blanks: 0,
            room,
        }
    }

    /// The lines of a page.
    pub fn into_vec(self) -> Vec<u8>
        ensures bytes { result.items ≡ self.text }
        ensures fits { length result.items ≤ self.room }
    {
        let Page { text, .. } = self;
        text
    }

    /// Takes memory ahead for so many more bytes of whole lines, or for as many as there is room for. The
    /// page stays as it was.
    pub(crate) fn reserve(&mut self, bytes: usize) -> Result<(), ViewFault>
        ensures ok { OnOk result (self.new ≡ self.old) }
        ensures err { IsOkUnless result ViewFault.Memory }
    {
        let room = left(self.room, &self.text);
        self.text.reserve(bytes.min(room))?;
        Ok(())
    }

    /// So many spaces. They take no memory and no room.
    pub fn put_spaces(&mut self, n: usize) -> Result<(), ViewFault>
        ensures ok { OnOk result (self.new ≡ more self.old (spaces n)) }
        ensures long { IfErr result (Over self.old.room (size (more self.old (spaces n)))) }
    {
        match self.blanks.checked_add(n) {
            Some(blanks) => {
                self.blanks = blanks;
                Ok(())
            }
            None => Err(ViewFault::Memory),
        }
    }

    /// One byte.
    pub fn put_byte(&mut self, byte: u8) -> Result<(), ViewFault>
        ensures ok { OnOk result (self.new ≡ more self.old (byte ∷ [])) }
        ensures long { IfErr result (Over self.old.room (size (more self.old (byte ∷ [])))) }
    {
        if byte == b' ' {
            return self.put_spaces(1);
        }
        let room = left(self.room, &self.text);
        store(&mut self.last, room, self.blanks, byte)?;
        self.blanks = 0;
        Ok(())
    }

    /// More bytes of the open line, none of which is a line feed.
    pub fn put(&mut self, bytes: &[u8]) -> Result<(), ViewFault>
        ensures ok { OnOk result (self.new ≡ more self.old bytes.now) }
        ensures long { IfErr result (Over self.old.room (size (more self.old bytes.now))) }
    {
        let n = bare_len(bytes);
        if n == 0 {
            return self.put_spaces(bytes.len());
        }
        self.put_bare(&bytes[..n])?;
        self.put_spaces(bytes.len() - n)?;
        Ok(())
    }

    /// Bytes of which the last is no space.
    fn put_bare(&mut self, bytes: &[u8]) -> Result<(), ViewFault>
        requires some { 0 < length bytes.now }
        requires bare { trimmed bytes.now ≡ bytes.now }
        ensures ok { OnOk result (self.new ≡ more self.old bytes.now) }
        ensures long { IfErr result (Over self.old.room (size (more self.old bytes.now))) }
    {
        let room = left(self.room, &self.text);
        store_all(&mut self.last, room, self.blanks, bytes)?;
        self.blanks = 0;
        Ok(())
    }

    /// A whole line, behind whole lines.
    pub fn put_line(&mut self, bytes: &[u8]) -> Result<(), ViewFault>
        requires { self.old.open_line ≡ [] }
        ensures ok { OnOk result (self.new ≡ added self.old (line bytes.now)) }
        ensures long { IfErr result (Over self.old.room
            (length (added self.old (line bytes.now)).text)) }
    {
        let n = bare_len(bytes);
        close(&mut self.text, self.room, &bytes[..n])?;
        self.last.clear();
        self.blanks = 0;
        Ok(())
    }

    /// Whole lines, behind whole lines.
    pub fn put_lines(&mut self, texts: &[&[u8]]) -> Result<(), ViewFault>
        requires { self.old.open_line ≡ [] }
        ensures ok { OnOk result (self.new ≡ added self.old (lines (map (λ t. t.now) texts.now))) }
        ensures long { IfErr result (Over self.old.room
            (length (added self.old (lines (map (λ t. t.now) texts.now))).text)) }
    {
        for text in texts {
            self.put_line(text)?;
        }
        Ok(())
    }

    /// The end of the line.
    pub fn end(&mut self) -> Result<(), ViewFault>
        ensures ok { OnOk result (self.new ≡ closed self.old) }
        ensures long { IfErr result (Over self.old.room (length (closed self.old).text)) }
    {
        close(&mut self.text, self.room, &self.last)?;
        self.last.clear();
        self.blanks = 0;
        Ok(())
    }
}

/// A line with its line feed, where there is room for both.
fn close(text: &mut Vec<u8>, room: usize, last: &[u8]) -> Result<(), ViewFault>
    requires { length text.old.items ≤ room }
    ensures ok { OnOk result (text.new.items ≡ text.old.items ++ (last.now ++ 10 ∷ [])) }
    ensures fits { OnOk result (length text.new.items ≤ room) }
    ensures err { OnErr result (text.new.items ≡ text.old.items) }
    ensures long { IfErr result (Over room (length text.old.items + length last.now + 1)) }
{
    if room - text.len() <= last.len() {
        return Err(ViewFault::TooLong);
    }
    text.reserve(last.len() + 1)?;
    let _ = text.extend_from_slice(last);
    let _ = text.push(b'\n');
    Ok(())
}

/// How many bytes of a text come before the spaces at its end.
fn bare_len(bytes: &[u8]) -> usize
    ensures le { result ≤ length bytes.now }
    ensures split { bytes.now ≡ take result bytes.now ++ spaces (length bytes.now - result) }
    ensures bare { trimmed (take result bytes.now) ≡ take result bytes.now }
{
    let mut n = bytes.len();
    while n > 0 {
        if bytes[n - 1] != b' ' {
            return n;
        }
        n -= 1;
    }
    0
}

/// The room that a text leaves.
fn left(room: usize, text: &[u8]) -> usize
    requires { length text.now ≤ room }
    ensures { result ≡ room - length text.now }
{
    room - text.len()
}

/// A byte behind so many spaces, where there is room for all.
fn store(bytes: &mut Vec<u8>, room: usize, blanks: usize, byte: u8) -> Result<(), ViewFault>
    requires { length bytes.old.items ≤ room }
    ensures ok { OnOk result (bytes.new.items ≡ (bytes.old.items ++ spaces blanks) ++ byte ∷ []) }
    ensures fits { OnOk result (length bytes.new.items ≤ room) }
    ensures err { OnErr result (bytes.new.items ≡ bytes.old.items) }
    ensures long { IfErr result (Over room (length bytes.old.items + blanks + 1)) }
{
    if room - bytes.len() <= blanks {
        return Err(ViewFault::TooLong);
    }
    bytes.reserve(blanks + 1)?;
    let _ = bytes.resize(bytes.len() + blanks, b' ');
    let _ = bytes.push(byte);
    Ok(())
}

/// Bytes behind so many spaces, where there is room for all.
fn store_all(bytes: &mut Vec<u8>, room: usize, blanks: usize, more: &[u8]) -> Result<(), ViewFault>
    requires { length bytes.old.items ≤ room }
    ensures ok { OnOk result (bytes.new.items ≡ (bytes.old.items ++ spaces blanks) ++ more.now) }
    ensures fits { OnOk result (length bytes.new.items ≤ room) }
    ensures err { OnErr result (bytes.new.items ≡ bytes.old.items) }
    ensures long { IfErr result (Over room (length bytes.old.items + blanks + length more.now)) }
{
    let free = room - bytes.len();
    if free < blanks {
        return Err(ViewFault::TooLong);
    }
    if free - blanks < more.len() {
        return Err(ViewFault::TooLong);
    }
    bytes.reserve(blanks + more.len())?;
    let _ = bytes.resize(bytes.len() + blanks, b' ');
    let _ = bytes.extend_from_slice(more);
    Ok(())
}
