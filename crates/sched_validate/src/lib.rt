//! The machine of a table, or its first illness, and instructions bound to a machine.
//!
//! records → entries, their names resolved → the first illness of these, if there is one → what each kind of entry says
//! (`lists`), in a machine's own numbers (`machine_numbers`) → a machine (`table`). A machine and instructions → bound
//! instructions (`binding`).
//!
//! What the machine is, apart from how it is kept, is `machine_of` of specs/Machine; the other definitions stand in
//! specs/ under the names of the modules below.
#![tactic(auto)]

// a table and its machine
mod law;
mod table;
mod validation;

// the parts of the machine
mod advances;
mod classes;
mod files;
mod layout;
mod limits;
mod lists;
mod machine_numbers;
mod narrow;
mod resources;
mod writes;

// instructions
mod binding;
mod fault;

pub use binding::bind;
pub use fault::BindFault;
pub use law::{files_are_told, machine_is_valid, owners_are_told};
pub use sched_checks::{IllKind, TableIllness};
pub use table::CheckedTable;
pub use validation::validate;
