//! The file of a node's configuration.

use configuration::{Config, ConfigFault, read_config};
use program_reports::{ReadFault, read_all};
use std::alloc::Global;
use std::io::Read;

/// Why there is no configuration.
#[derive(Clone, Copy, PartialEq, Eq, Debug)]
pub(super) enum NoConfig {
    /// The file cannot be read, or is no text in UTF-8.
    Unreadable,
    /// Its text is no configuration.
    Wrong,
    /// Memory was refused.
    Memory,
}

/// The configuration that a reader gives.
pub(super) fn configuration<R: Read>(alloc: Global, reader: &mut R) -> Result<Config, NoConfig> {
    let bytes = match read_all(alloc, reader) {
        Ok(bytes) => bytes,
        Err(ReadFault::Failed) => return Err(NoConfig::Unreadable),
        Err(ReadFault::Memory) => return Err(NoConfig::Memory),
    };
    let Ok(text) = str::from_utf8(&bytes) else {
        return Err(NoConfig::Unreadable);
    };
    match read_config(alloc, text) {
        Ok(config) => Ok(config),
        Err(ConfigFault::Memory) => Err(NoConfig::Memory),
        Err(ConfigFault::Wrong) => Err(NoConfig::Wrong),
    }
}
