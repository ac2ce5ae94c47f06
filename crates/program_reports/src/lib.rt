//! What the runs of the program have in common: files that are read whole, and the reports that end a run.
#![tactic(auto)]

mod reports;

pub use reports::{
    ReadFault, cannot_read, no_memory, no_network, read_all, store_failed, wrong_config, wrong_line,
};
