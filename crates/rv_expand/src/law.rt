//! What holds of constants, whatever the program does.
ghost use Rattle.std.specs.Prelude.{◌≡◌, ◌++◌, ℕ, ℤ, false, FitsSigned};
ghost use Rattle.std.specs.Int.{w64};
ghost use Rattle.rv_expand.specs.Constant.{constant, is_word, low_bits, quotient_of};

/// A constant of 64 bits that 32 bits do not hold takes the instructions for its quotient, and behind them
/// the shift and the low part: three shifts are enough.
pub fn constants_by_quotients()
    ensures { (rd : ℕ) (v : ℤ) → FitsSigned w64 v → is_word v ≡ false → constant rd v ≡ constant rd (quotient_of v) ++ low_bits rd v }
{}
