//! The configuration of a node, as a TOML text gives it.
#![tactic(auto)]

mod config;
mod entries;

pub use config::{Config, ConfigFault, read_config};
