//! Where files are read from, by name.
ghost use Rattle.std.specs.Prelude.{◌≡◌, List, ℕ, ◌<◌, ◌≤◌, length, IfOk, OnOk, OnErr, Bool, true, Option};
ghost use Rattle.std.specs.Io.KnownBytes.{ReadConsumes};
ghost use Rattle.mca_io.specs.Devices.{HasCause, Opens, Told};

use crate::failed::Failed;

/// A device that keeps files. One of them at a time can be chosen, and is then read from its start to
/// its end. No call changes which files are there, nor what they hold.
pub trait Shelf {
    /// What the shelf tells of the file of a name.
    ghost told: { Self → List ℕ → Told };

    /// Whether a file is chosen.
    ghost chosen: { Self → Bool };

    /// What is left to read of the chosen file, where the shelf tells it.
    ghost rest: { Self → Option (List ℕ) };

    /// For each name the count of faults. It never falls, stands still at 2^64 - 1, and is left alone by a call that
    /// does not fail.
    ghost faults: { Self → List ℕ → ℕ };

    /// Chooses the file of this name; its whole content is then left to read. Where there is no such
    /// file, or the device fails, the file chosen before stays as it was and the count of that name rises.
    fn choose(&mut self, name: &str) -> Result<(), Failed>
        ensures told { (n : List ℕ) → told self.new n ≡ told self.old n }
        ensures chosen { OnOk result (chosen self.new ≡ true) }
        ensures opens { OnOk result (Opens (told self.old name.now) (rest self.new)) }
        ensures err_chosen { OnErr result (chosen self.new ≡ chosen self.old) }
        ensures err_rest { OnErr result (rest self.new ≡ rest self.old) }
        ensures later { (n : List ℕ) → faults self.old n ≤ faults self.new n }
        ensures still { OnOk result ((n : List ℕ) → faults self.new n ≡ faults self.old n) }
        ensures cause { HasCause (faults self.old name.now) (faults self.new name.now) result };

    /// Takes the next bytes of the chosen file, puts them at the start of the buffer and answers how
    /// many they are: 0 exactly at the end of the file. A failing read takes none, and the count of
    /// every name rises.
    fn read(&mut self, buf: &mut [u8]) -> Result<usize, Failed>
        requires chosen { chosen self.old ≡ true }
        requires room { 0 < length buf.old }
        ensures told { (n : List ℕ) → told self.new n ≡ told self.old n }
        ensures chosen { chosen self.new ≡ true }
        ensures bound { IfOk result (λ n. n ≤ length buf.new) }
        ensures bytes { ReadConsumes (rest self.old) (rest self.new) result buf.new }
        ensures err { OnErr result (rest self.new ≡ rest self.old) }
        ensures still { OnOk result ((n : List ℕ) → faults self.new n ≡ faults self.old n) }
        ensures cause { (n : List ℕ) → HasCause (faults self.old n) (faults self.new n) result };
}
