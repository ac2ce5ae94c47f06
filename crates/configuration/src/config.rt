//! What a node is told when it starts.

ghost use Rattle.std.specs.Prelude.{◌≡◌, None, Some, IfOk, IsErrOf};
ghost use Rattle.toml.specs.View.{view, table_view};
ghost use Rattle.configuration.specs.Configuration.{IsConfiguration, configuration_of, configured, entries_of};
ghost use Rattle.configuration.specs.Configured.{config_term};

use super::entries::{
    begin_of, has_entries_alone, number_of, read_addresses, read_docs, read_records,
};
use document_names::Names;
use std::alloc::{AllocError, Global};
use toml::{Table, Value};

/// The configuration of a node.
#[derive(Drop)]
pub struct Config {
    /// The group's number.
    pub group: u32,
    /// The member's number, from 1 to the number of members.
    pub member: u8,
    /// The members' addresses, 1 to 63 of them, in member order.
    pub members: Vec<String>,
    /// The names of the documents.
    pub docs: Names,
    /// The path of the file that holds the records; without it they are in memory.
    pub records: Option<String>,
    /// Whether the node begins when it starts.
    pub begin: bool,
}

/// Why a text gives no configuration.
#[derive(Clone, Copy, Debug, PartialEq, Eq, thiserror::Error)]
pub enum ConfigFault {
    /// Memory was refused (1).
    #[error("no memory")]
    Memory,
    /// The text is no configuration (2).
    #[error("config")]
    Wrong,
}

impl From<AllocError> for ConfigFault {
    ghost use Rattle.configuration.specs.declared.config.ConfigFault.TheVariants.{Memory};

    ghost from_gives = { λ _ fault. fault ≡ Memory };

    fn from(_refused: AllocError) -> ConfigFault {
        ConfigFault::Memory
    }
}

/// Reads the configuration of a node from a TOML 1.1 text.
///
/// Its entries are `group` (an integer, 0 to 4294967295), `member` (an integer, 1 to the number of
/// members), `members` (1 to 63 strings: addresses, in member order), `docs` (strings that
/// [`Names`] takes), `records` (a string: a file's path; absent for records in memory) and `begin`
/// (a boolean; absent for false), and no others.
///
/// # Errors
///
/// `Wrong` where the text is no such TOML, and `Memory` where memory was refused.
pub fn read_config(alloc: Global, text: &str) -> Result<Config, ConfigFault>
    ensures read { IfOk result (λ c. IsConfiguration text.now (config_term c)) }
    ensures wrong { IsErrOf result ConfigFault.Wrong → configuration_of text.now ≡ None }
{
    match toml::table_from_str(alloc, text) {
        Ok(table) => read_table(alloc, table),
        Err(error) if error.is_memory() => Err(ConfigFault::Memory),
        Err(_) => Err(ConfigFault::Wrong),
    }
}

/// Reads a configuration from a table.
fn read_table(alloc: Global, table: Table) -> Result<Config, ConfigFault>
    ensures read { IfOk result (λ c. configured (table_view table) ≡ Some (config_term c)) }
    ensures wrong { IsErrOf result ConfigFault.Wrong → configured (table_view table) ≡ None }
{
    if !has_entries_alone(&table) {
        return Err(ConfigFault::Wrong);
    }
    read_entries(alloc, &Value::Table(table))
}

/// Reads the entries of a configuration.
fn read_entries(alloc: Global, document: &Value) -> Result<Config, ConfigFault>
    ensures read { IfOk result (λ c. entries_of (view document.now) ≡ Some (config_term c)) }
    ensures wrong { IsErrOf result ConfigFault.Wrong → entries_of (view document.now) ≡ None }
{
    let Some(group) = number_of(document, "group", 0, u32::MAX) else {
        return Err(ConfigFault::Wrong);
    };
    let Some(begin) = begin_of(document) else {
        return Err(ConfigFault::Wrong);
    };
    let Some(members) = read_addresses(alloc, document)? else {
        return Err(ConfigFault::Wrong);
    };
    let Some(member) = number_of(document, "member", 1, members.len() as u32) else {
        return Err(ConfigFault::Wrong);
    };
    let Some(docs) = read_docs(alloc, document)? else {
        return Err(ConfigFault::Wrong);
    };
    let Some(records) = read_records(alloc, document)? else {
        return Err(ConfigFault::Wrong);
    };
    Ok(Config {
        group,
        member: member as u8,
        members,
        docs,
        records,
        begin,
    })
}
