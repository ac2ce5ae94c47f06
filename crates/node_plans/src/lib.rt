//! Plans of changes to a table of nodes: rows that are to stand in it, and nodes that are to go. The table is not touched before a plan
//! is settled, so a plan that is refused is only let go.
//!
//! Contracts speak of the table that a plan and the rows below it are together (`specs/Planned.antt`).
#![tactic(auto)]

pub mod changes;
pub mod numbers;
pub mod plan;
pub mod splice;
