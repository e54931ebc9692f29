//! The widths and bounds of a machine.

/// The most cycles of a latency, and for which a use holds its unit.
pub const MOST_CYCLES: u32 = 1_000_000;

/// The widths and bounds of a machine.
#[derive(Clone, Copy, Debug, PartialEq, Eq)]
pub struct Limits {
    /// The dispatch width: micro-ops that dispatch in one cycle, 1 to 64.
    pub width: u32,
    /// The entries of the reorder buffer, in micro-ops, 1 to 4,096.
    pub reorder: u32,
    /// Instructions that retire in one cycle, 0 to 64; 0 for no bound.
    pub retire: u32,
    /// The entries of the load queue, 0 to 4,096; 0 for no bound.
    pub loads: u32,
    /// The entries of the store queue, 0 to 4,096; 0 for no bound.
    pub stores: u32,
    /// Registers that may be written and not yet retired, 0 to 65,536; 0 for no bound.
    pub registers: u32,
    /// Whether a load may pass an older store.
    pub no_alias: bool,
}
