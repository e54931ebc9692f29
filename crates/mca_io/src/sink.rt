//! Where bytes are written to.
ghost use Rattle.std.specs.Prelude.{◌≡◌, ◌<◌, ◌≤◌, length, IfOk, OnErr};
ghost use Rattle.std.specs.Io.KnownBytes.{WriteAppends};
ghost use Rattle.mca_io.specs.Devices.{HasCause, Seen};

use crate::failed::Failed;

/// A device that takes bytes.
pub trait Sink {
    /// All bytes written so far, where the sink tells them, and the count of faults. The count never falls, and
    /// stands still at 2^64 - 1.
    ghost told: { Self → Seen };

    /// Takes some first bytes of the piece, at least one, and answers how many. A failing write takes
    /// none, and the count of faults rises.
    fn write(&mut self, bytes: &[u8]) -> Result<usize, Failed>
        requires { 0 < length bytes.now }
        ensures some { IfOk result (λ n. 0 < n) }
        ensures bound { IfOk result (λ n. n ≤ length bytes.now) }
        ensures bytes { WriteAppends (told self.old).contents (told self.new).contents result bytes.now }
        ensures err { OnErr result ((told self.new).contents ≡ (told self.old).contents) }
        ensures cause { HasCause (told self.old).faults (told self.new).faults result };
}
