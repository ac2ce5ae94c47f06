//! Disks in memory of which each fails from some call on and tells whether memory was refused to it, and the files of a database on two of them.
#![tactic(auto)]

mod damage;
mod disk;
mod files;
mod watched;

pub use damage::{Damage, harm};
pub use disk::FailingDisk;
pub use files::{Written, bytes_of, crashed, empty_files, files_with, lacked_memory};
pub use watched::Watched;
