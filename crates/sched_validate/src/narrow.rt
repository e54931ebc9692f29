//! Numbers of a table as those of a machine.
ghost use Rattle.std.specs.Prelude.{◌≡◌, ◌^◌, ◌<◌, pos, neg_ℤ, int_le, true};
ghost use Rattle.sched_checks.specs.Resources.{count_of};

/// A number, or 0 where it is negative. Up to the most of a `u32` it stays.
pub(crate) fn count(number: i64) -> u32
    ensures { count_of number < 2 ^ 32 → result ≡ count_of number }
{
    if number <= 0 {
        return 0;
    }
    if number > u32::MAX as i64 {
        return u32::MAX;
    }
    number as u32
}

/// A number of micro-ops. Up to the most of a `u16` it stays.
pub(crate) fn micro_ops(number: i64) -> u16
    ensures { count_of number < 2 ^ 16 → result ≡ count_of number }
{
    if number <= 0 {
        return 0;
    }
    if number > u16::MAX as i64 {
        return u16::MAX;
    }
    number as u16
}

/// A number from -1,000 to 1,000 stays.
pub(crate) fn signed(number: i64) -> i32
    ensures { int_le (neg_ℤ (pos 1000)) number ≡ true → int_le number (pos 1000) ≡ true
        → result ≡ number }
{
    if number < -1000 || number > 1000 {
        return 0;
    }
    number as i32
}
