//! Writing all of a piece.
ghost use Rattle.std.specs.Prelude.{◌≡◌, ℕ, ◌<◌, length, OnOk, OnErr, take};
ghost use Rattle.std.specs.Io.KnownBytes.{Appends};
ghost use Rattle.mca_io.specs.Devices.{HasCause};

use crate::failed::Failed;
use crate::sink::Sink;

/// Writes all bytes, in as many writes as the sink needs. After a failure a proper front of them was
/// written. Takes no memory.
pub fn write_whole<S: Sink>(sink: &mut S, bytes: &[u8]) -> Result<(), Failed>
    ensures whole { OnOk result (Appends (S.told sink.old).contents (S.told sink.new).contents bytes.now) }
    ensures front { OnErr result ((n : ℕ) × (n < length bytes.now) × Appends (S.told sink.old).contents (S.told sink.new).contents (take n bytes.now)) }
    ensures cause { HasCause (S.told sink.old).faults (S.told sink.new).faults result }
{
    let mut at = 0;
    while at < bytes.len() {
        at += sink.write(&bytes[at..])?;
    }
    Ok(())
}
