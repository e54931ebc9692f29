//! The steps of an engine's cycle: from what is known when all cycles below one are done to what is known
//! when that one is done too, and whether an event fell in it.
//!
//! A cycle has three phases. Rows retire from the oldest in flight on (`retire`), rows that are ready are
//! tried in age order (`issue`), and the rows that come next dispatch as long as they fit (`dispatch`).
//! Which rows are ready, and for which cycle others wait, is kept up by each event (`wakeup`). What a row may do is told by the parts of the machine, by their public contracts alone:
//! each stands for a list of rows, and `specs/Flight` says which list that is at each key of the run.
//! `Pipeline` has them all, and is what an engine turns; which cycles it turns is the engine's own matter.
#![tactic(auto)]

mod dispatch;
mod flight;
mod issue;
mod memory;
mod pipeline;
mod plan;
mod readers;
mod refused;
mod retire;
mod rows;
mod wakeup;

pub use flight::Flight;
pub use pipeline::Pipeline;
pub use plan::Plan;
pub use rows::Rows;
pub use wakeup::Wakeup;
