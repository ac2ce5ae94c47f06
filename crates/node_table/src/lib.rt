//! The flat table of nodes that a forest stands on: rows by identity, what they say of nested trees, and the walks over them.
//!
//! Contracts speak of tables (`specs/Flat.antt`), of the numbers that rows carry (`specs/Labels.antt`), and of nested trees.
#![tactic(auto)]

pub mod cursor;
pub mod exchange;
pub mod label;
pub mod laws;
pub mod list;
pub mod order;
pub mod plain;
pub mod plant;
pub mod table;
pub mod tree;
pub mod walk;
