//! How large what is read and run may be.

/// The most bytes of a text that is read: of an assembly text, or of a table.
pub const MOST_TEXT_BYTES: usize = 8_388_608;

/// The most instructions of a region.
pub const MOST_REGION_INSTRUCTIONS: usize = 4_096;

/// The most rows of a run: iterations times instructions of the region.
pub const MOST_ROWS: u64 = 1_048_576;

/// The most regions of a text.
pub const MOST_REGIONS: usize = 64;

/// The most registers of a register file, and the most that a run may have written and not yet retired.
pub const MOST_REGISTERS: u32 = 65_536;

/// The most entries of a reorder buffer, of the load queue, of the store queue and of a resource's buffer.
pub const MOST_ENTRIES: u32 = 4_096;

/// The most units of all resources together.
pub const MOST_UNITS: usize = 256;

/// The most bytes of a report.
pub const MOST_REPORT_BYTES: usize = 67_108_864;
