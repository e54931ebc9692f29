//! Which calls of a device in memory are to fail.
ghost use Rattle.std.specs.Prelude.{◌≡◌};
ghost use Rattle.mca_io.specs.Calls.{is_listed};

/// Whether the call of this number is to fail.
pub(crate) fn listed(failing: &[u64], call: u64) -> bool
    ensures { result ≡ is_listed failing.now call }
{
    failing.iter().any(|number| *number == call)
}
