//! The dispatch group: how many micro-ops dispatch together in one cycle.
//!
//! A machine dispatches at most its width of micro-ops a cycle. A row that is wider than the width
//! starts an empty group and fills the group of cycle after cycle until its micro-ops are through. The
//! unit keeps one sum for all rows, and answers as if it had kept the list of them: `specs/Group` has
//! the rules over that list. No call takes memory, and the work of each is constant.
#![tactic(auto)]

mod group;

pub use group::Group;
