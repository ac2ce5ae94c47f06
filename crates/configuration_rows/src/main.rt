//! `configuration_rows FILE`: prints what the text of each row configures, or its fault, and what words of the command line ask for.
//!
//! A row is a text between two backticks, in which `\n` ends a line; or `words TEXT ..`, words of the command line of `paxq`.
#![tactic(auto)]

mod commands;

use configuration::{Config, ConfigFault, read_config};
use rows::{Answers, RowFault, Words, run_table};
use std::alloc::{AllocError, Global};
use std::process::ExitCode;

/// Ends with the table's exit status: 1 where a row is not understood, and where the file cannot be read or memory is refused.
fn main(rt: HostRuntime) -> ExitCode {
    match run_table(&rt, &mut ConfigurationRows) {
        Ok(status) => ExitCode::from(status),
        Err(_) => ExitCode::from(1),
    }
}

/// The rows on configurations and command lines.
#[derive(Drop)]
struct ConfigurationRows;

impl Answers for ConfigurationRows {
    fn answer(&mut self, alloc: Global, row: &str) -> Result<String, RowFault> {
        let mut words = Words::new(row);
        let mut ahead = words;
        match ahead.plain() {
            Ok("words") => commands::asked(alloc, &mut ahead),
            _ => configured(alloc, &mut words),
        }
    }
}

/// What a text configures.
fn configured(alloc: Global, words: &mut Words<'_>) -> Result<String, RowFault> {
    let text = words.text(alloc)?;
    if !words.is_empty() {
        return Err(RowFault::NotARow);
    }
    match read_config(alloc, &text) {
        Ok(config) => Ok(shown(alloc, &config)?),
        Err(ConfigFault::Wrong) => Ok(String::from_str(alloc, "fault 2")?),
        Err(ConfigFault::Memory) => Err(RowFault::Memory),
    }
}

/// What a configuration says.
fn shown(alloc: Global, config: &Config) -> Result<String, AllocError> {
    let (group, member, count) = (config.group, config.member, config.members.len());
    let mut text = format!(in alloc; "group {group}, member {member} of {count}:")?;
    for address in &config.members {
        text.push(' ')?;
        text.push_str(address.as_str())?;
    }
    text.push_str(", docs:")?;
    push_docs(&mut text, config)?;
    match &config.records {
        Some(path) => {
            text.push_str(", records ")?;
            text.push_str(path.as_str())?;
        }
        None => text.push_str(", records in memory")?,
    }
    text.push_str(if config.begin { ", begins" } else { ", waits" })?;
    Ok(text)
}

/// Appends the names of the documents.
fn push_docs(text: &mut String, config: &Config) -> Result<(), AllocError> {
    for name in config.docs.as_slice() {
        text.push(' ')?;
        text.push_str(name.as_str())?;
    }
    Ok(())
}
