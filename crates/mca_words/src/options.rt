//! What the command line asks for.

use mca_fixed::Text;

/// The value of each option as it was given, or its default, and the input. The options are those of
/// llvm-mca in LLVM's Command Guide, but `-table`; their ranges are this project's own. What a number 0
/// means is said, and applied, where the number is used.
#[derive(Debug, Drop)]
pub struct Options {
    /// The name of the file with the scheduling table; empty where it was not given.
    pub table: Text,
    /// The name of the built-in machine; empty where it was not given.
    pub mcpu: Text,
    /// How often the body of a region is repeated: 0 to 1,048,576.
    pub iterations: u32,
    /// The dispatch width in micro-ops: 0 to 64.
    pub dispatch: u32,
    /// How many written registers may be in flight: 0 to 65,536.
    pub register_file_size: u32,
    /// The entries of the load queue: 0 to 4,096.
    pub lqueue: u32,
    /// The entries of the store queue: 0 to 4,096.
    pub squeue: u32,
    /// Whether a load may pass older stores.
    pub noalias: bool,
    /// Whether the view of each instruction's numbers is printed.
    pub instruction_info: bool,
    /// Whether the view of each resource's load is printed.
    pub resource_pressure: bool,
    /// Whether the timeline is printed.
    pub timeline: bool,
    /// How many iterations the timeline shows: 0 to 1,048,576.
    pub timeline_max_iterations: u32,
    /// How many cycles the timeline shows: 0 to 1,000,000.
    pub timeline_max_cycles: u32,
    /// Whether the view of the bottlenecks is printed.
    pub bottleneck_analysis: bool,
    /// The number from which a program is made in place of reading one, where it was given: 0 to
    /// 4,294,967,295. Then every other option has its default.
    pub load: Option<u32>,
    /// The name of the file with the assembly; empty where `load` was given.
    pub input: Text,
}
