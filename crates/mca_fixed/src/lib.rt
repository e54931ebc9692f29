//! Small exact values that every other crate speaks of: names, texts, want of memory, numbers and
//! fractions in decimal, padding, and how large an input may be.
#![tactic(auto)]

mod decimals;
mod items;
mod limits;
mod memory;
mod name;
mod numbers;
mod padding;
mod text;

pub use decimals::{Frac, decimal};
pub use items::Items;
pub use limits::{
    MOST_ENTRIES, MOST_REGION_INSTRUCTIONS, MOST_REGIONS, MOST_REGISTERS, MOST_REPORT_BYTES,
    MOST_ROWS, MOST_TEXT_BYTES, MOST_UNITS,
};
pub use memory::NoMemory;
pub use name::Name;
pub use numbers::whole;
pub use padding::{pad_left, pad_right};
pub use text::Text;
