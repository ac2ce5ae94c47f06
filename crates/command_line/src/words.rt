//! The words, read by `clap`.

ghost use Rattle.std.specs.Prelude.{◌≡◌, ◌≢◌, ◌↔◌, IfOk, IsErrOf, List, OnOk, Some, [], ℕ, codes, false, map, option_map};
ghost use Rattle.std.specs.List.{list_any};
ghost use Rattle.std.specs.Str.{IsUtf8, bytes_eq};
ghost use Rattle.std.specs.String.{string_bytes};
ghost use Rattle.clap.specs.Words.{app_of, fault_of, kind_of, subcommand_of, subcommand_rows_of};
ghost use Rattle.command_line.specs.Words.{IsForm, IsFormOf, IsLocal, IsNetworkForm, file_in, form_shape, local_shape, network_app, node_shape, number_in, paxq_app, send_shape, value_in};

use clap::error::ErrorKind;
use clap::{Arg, ArgMatches, Command, Error};
use line_parts::read_client;
use std::alloc::{AllocError, Global};

/// At most so many members run in one process.
const MOST_LOCAL: u32 = 15;

/// What the command line asks for.
#[derive(Debug, Drop, PartialEq, Eq)]
pub enum Form {
    /// `run SCRIPT`: one member in memory.
    Run {
        /// The name of the file that holds the script.
        script: String,
    },
    /// `sim EVENTS`: a group of members in memory.
    Sim {
        /// The name of the file that holds the events.
        events: String,
    },
    /// `local N SCRIPT`: a group of members over loopback sockets, in one process.
    Local {
        /// How many members, from 1 to 15.
        members: u8,
        /// The name of the file that holds the script.
        script: String,
    },
    /// `node CONFIG [--turns K]`: one node of a group.
    Node {
        /// The name of the file that holds the configuration.
        config: String,
        /// For how many turns it serves; without the option it goes on.
        turns: Option<u32>,
    },
    /// `send --group G ADDRESS LINE`: one line of a script, sent to a node.
    Send {
        /// The group's number.
        group: u32,
        /// Where the node is: `IP:PORT` or `NAME:PORT`.
        address: String,
        /// The line.
        line: String,
    },
}

/// Why no form was read.
#[derive(Clone, Copy, Debug, PartialEq, Eq, thiserror::Error)]
pub enum WordsFault {
    /// Memory was refused.
    #[error("no memory")]
    Memory,
    /// The words are of no form, or ask for help.
    #[error("usage")]
    Usage,
}

/// Reads the words of the command line, the program's name left out.
///
/// The forms are `run SCRIPT`, `sim EVENTS`, `local N SCRIPT`, `node CONFIG` with `--turns K` where that is wanted, and `send --group G ADDRESS
/// LINE`. Numbers are decimal and without a sign: N from 1 to 15, K and G below 2^32. What begins with `-` and is more than that is taken for an
/// option, so `./-name` names such a file, and no LINE begins so. `--` is a word of no form.
///
/// # Errors
///
/// `Usage` where the words are of no form, and `Memory` where memory was refused.
pub fn read_words(alloc: Global, words: &[String]) -> Result<Form, WordsFault>
    ensures ok { IfOk result (IsForm (map string_bytes words.now)) }
    ensures no_run { IsErrOf result WordsFault.Usage
        → (script : List ℕ) → IsFormOf (codes "run") (map string_bytes words.now) script → ⊥ }
    ensures no_sim { IsErrOf result WordsFault.Usage
        → (events : List ℕ) → IsFormOf (codes "sim") (map string_bytes words.now) events → ⊥ }
{
    if names_one_file(words) {
        return read_file_form(alloc, words);
    }
    read_network_form(alloc, words)
}

/// Whether the first word is the name of a form with one file, and no more than that.
fn names_one_file(words: &[String]) -> bool
    ensures no_run { result ≡ false → (script : List ℕ) → IsFormOf (codes "run") (map string_bytes words.now) script → ⊥ }
    ensures no_sim { result ≡ false → (events : List ℕ) → IsFormOf (codes "sim") (map string_bytes words.now) events → ⊥ }
{
    match words.first() {
        Some(word) => word.as_str() == "run" || word.as_str() == "sim",
        None => false,
    }
}

/// Reads a form with one file.
fn read_file_form(alloc: Global, words: &[String]) -> Result<Form, WordsFault>
    ensures ok { IfOk result (IsForm (map string_bytes words.now)) }
    ensures no_run { IsErrOf result WordsFault.Usage
        → (script : List ℕ) → IsFormOf (codes "run") (map string_bytes words.now) script → ⊥ }
    ensures no_sim { IsErrOf result WordsFault.Usage
        → (events : List ℕ) → IsFormOf (codes "sim") (map string_bytes words.now) events → ⊥ }
{
    if has_terminator(words) {
        return Err(WordsFault::Usage);
    }
    let matches = parse(alloc, words)?;
    if let Some(script) = file_of(&matches, "run") {
        let script = copied(alloc, script)?;
        return Ok(Form::Run { script });
    }
    // `clap` took the words, so the other subcommand has its one argument.
    let events = copied(alloc, file_of(&matches, "sim").unwrap())?;
    Ok(Form::Sim { events })
}

/// Reads a form that has to do with a network.
fn read_network_form(alloc: Global, words: &[String]) -> Result<Form, WordsFault>
    ensures { IfOk result (IsForm (map string_bytes words.now)) }
{
    if has_terminator(words) {
        return Err(WordsFault::Usage);
    }
    let matches = parse_network(alloc, words)?;
    if let Some(script) = value_of(&matches, "local", "file") {
        return read_local(alloc, &matches, script);
    }
    if let Some(config) = value_of(&matches, "node", "file") {
        return read_node(alloc, &matches, config);
    }
    read_send(alloc, &matches)
}

/// The form `local`, with the name of its script.
fn read_local<'a>(
    alloc: Global,
    matches: &ArgMatches<'a>,
    script: &'a str,
) -> Result<Form, WordsFault>
    requires { value_in (codes "local") (codes "file") (subcommand_rows_of matches.now) ≡ Some script.now }
    ensures { IfOk result (IsNetworkForm (subcommand_rows_of matches.now)) }
{
    let Some(members) = number_of(matches, "local", "members") else {
        return Err(WordsFault::Usage);
    };
    if members < 1 || members > MOST_LOCAL {
        return Err(WordsFault::Usage);
    }
    let script = copied(alloc, script)?;
    Ok(Form::Local {
        members: members as u8,
        script,
    })
}

/// The form `node`, with the name of its configuration.
fn read_node<'a>(
    alloc: Global,
    matches: &ArgMatches<'a>,
    config: &'a str,
) -> Result<Form, WordsFault>
    requires { value_in (codes "node") (codes "file") (subcommand_rows_of matches.now) ≡ Some config.now }
    ensures { IfOk result (IsNetworkForm (subcommand_rows_of matches.now)) }
{
    let config = copied(alloc, config)?;
    if value_of(matches, "node", "turns").is_none() {
        return Ok(Form::Node {
            config,
            turns: None,
        });
    }
    match number_of(matches, "node", "turns") {
        Some(turns) => Ok(Form::Node {
            config,
            turns: Some(turns),
        }),
        None => Err(WordsFault::Usage),
    }
}

/// The form `send`.
fn read_send(alloc: Global, matches: &ArgMatches<'_>) -> Result<Form, WordsFault>
    ensures { IfOk result (IsNetworkForm (subcommand_rows_of matches.now)) }
{
    let Some(group) = number_of(matches, "send", "group") else {
        return Err(WordsFault::Usage);
    };
    let Some(address) = value_of(matches, "send", "address") else {
        return Err(WordsFault::Usage);
    };
    let Some(line) = value_of(matches, "send", "line") else {
        return Err(WordsFault::Usage);
    };
    let address = copied(alloc, address)?;
    let line = copied(alloc, line)?;
    Ok(Form::Send {
        group,
        address,
        line,
    })
}

/// The number below 2^32 that an argument of the form of a name was given, if it was.
fn number_of(matches: &ArgMatches<'_>, form: &str, argument: &str) -> Option<u32>
    ensures { result ≡ number_in form.now argument.now (subcommand_rows_of matches.now) }
{
    match value_of(matches, form, argument) {
        Some(digits) => read_client(digits),
        None => None,
    }
}

/// A copy of a text.
fn copied(alloc: Global, text: &str) -> Result<String, WordsFault>
    ensures ok { IfOk result (λ copy. string_bytes copy ≡ text.now) }
    ensures text { IsUtf8 text.now }
    ensures memory { IsErrOf result WordsFault.Usage → ⊥ }
{
    match String::from_str(alloc, text) {
        Ok(copy) => Ok(copy),
        Err(_) => Err(WordsFault::Memory),
    }
}

/// Whether `--` is among the words. `clap` lets it stand before or after a script.
fn has_terminator(words: &[String]) -> bool
    ensures { result ≡ list_any (λ word. bytes_eq (string_bytes word) (codes "--")) words.now }
{
    words.iter().any(|word| word.as_str() == "--")
}

/// What `clap` makes of the words.
fn parse<'a>(alloc: Global, words: &'a [String]) -> Result<ArgMatches<'a>, WordsFault>
    ensures matches { IfOk result (λ m.
        subcommand_rows_of m ≡ subcommand_of paxq_app (map string_bytes words.now)) }
    ensures ok { OnOk result (fault_of paxq_app (map string_bytes words.now) ≡ []) }
    ensures usage { IsErrOf result WordsFault.Usage
        → fault_of paxq_app (map string_bytes words.now) ≢ [] }
{
    let command = command(alloc).map_err(|_| WordsFault::Memory)?;
    match command.try_get_matches_from(words) {
        Ok(matches) => Ok(matches),
        Err(error) => Err(refusal(&error)),
    }
}

/// The command as `clap` knows it: a subcommand for each form.
fn command<'a>(alloc: Global) -> Result<Command<'a>, AllocError>
    ensures { IfOk result (λ c. app_of c ≡ paxq_app) }
{
    let run = subcommand(alloc, "run")?;
    let sim = subcommand(alloc, "sim")?;
    Command::new(alloc, "paxq")
        .no_binary_name(true)
        .subcommand_required(true)
        .disable_help_flag(true)
        .disable_help_subcommand(true)
        .subcommand(run)?
        .subcommand(sim)
}

/// The subcommand of a form, which names a file.
fn subcommand<'a>(alloc: Global, name: &'a str) -> Result<Command<'a>, AllocError>
    ensures shape { IfOk result (λ c. (app_of c).top ≡ form_shape name.now) }
    ensures local { IfOk result IsLocal }
{
    let file = Arg::new(alloc, "file").required(true);
    Command::new(alloc, name).arg(file)
}

/// The file that the form of a name was given.
fn file_of<'a>(matches: &ArgMatches<'a>, form: &str) -> Option<&'a str>
    ensures { option_map (λ s. s.now) result ≡ file_in form.now (subcommand_rows_of matches.now) }
{
    matches.subcommand_matches(form)?.get_str("file")
}

/// The value that an argument of the form of a name was given, if it was.
fn value_of<'a>(matches: &ArgMatches<'a>, form: &str, argument: &str) -> Option<&'a str>
    ensures { option_map (λ s. s.now) result ≡ value_in form.now argument.now (subcommand_rows_of matches.now) }
{
    matches.subcommand_matches(form)?.get_str(argument)
}

/// What `clap` makes of the words at the forms that have to do with a network.
fn parse_network<'a>(alloc: Global, words: &'a [String]) -> Result<ArgMatches<'a>, WordsFault>
    ensures matches { IfOk result (λ m.
        subcommand_rows_of m ≡ subcommand_of network_app (map string_bytes words.now)) }
    ensures ok { OnOk result (fault_of network_app (map string_bytes words.now) ≡ []) }
{
    let command = network_command(alloc).map_err(|_| WordsFault::Memory)?;
    match command.try_get_matches_from(words) {
        Ok(matches) => Ok(matches),
        Err(error) => Err(refusal(&error)),
    }
}

/// The command as `clap` knows it, with the forms that have to do with a network.
fn network_command<'a>(alloc: Global) -> Result<Command<'a>, AllocError>
    ensures { IfOk result (λ c. app_of c ≡ network_app) }
{
    let local = local_subcommand(alloc)?;
    let node = node_subcommand(alloc)?;
    let send = send_subcommand(alloc)?;
    Command::new(alloc, "paxq")
        .no_binary_name(true)
        .subcommand_required(true)
        .disable_help_flag(true)
        .disable_help_subcommand(true)
        .subcommand(local)?
        .subcommand(node)?
        .subcommand(send)
}

/// The subcommand `local`, with a number of members and a file.
fn local_subcommand<'a>(alloc: Global) -> Result<Command<'a>, AllocError>
    ensures shape { IfOk result (λ c. (app_of c).top ≡ local_shape) }
    ensures local { IfOk result IsLocal }
{
    let members = Arg::new(alloc, "members").required(true);
    let file = Arg::new(alloc, "file").required(true);
    Command::new(alloc, "local").arg(members)?.arg(file)
}

/// The subcommand `node`, with a file, and a number of turns if there is one.
fn node_subcommand<'a>(alloc: Global) -> Result<Command<'a>, AllocError>
    ensures shape { IfOk result (λ c. (app_of c).top ≡ node_shape) }
    ensures local { IfOk result IsLocal }
{
    let turns = Arg::new(alloc, "turns").long("turns");
    let file = Arg::new(alloc, "file").required(true);
    Command::new(alloc, "node").arg(turns)?.arg(file)
}

/// The subcommand `send`, with a group, an address and a line.
fn send_subcommand<'a>(alloc: Global) -> Result<Command<'a>, AllocError>
    ensures shape { IfOk result (λ c. (app_of c).top ≡ send_shape) }
    ensures local { IfOk result IsLocal }
{
    let group = Arg::new(alloc, "group").long("group").required(true);
    let address = Arg::new(alloc, "address").required(true);
    let line = Arg::new(alloc, "line").required(true);
    Command::new(alloc, "send")
        .arg(group)?
        .arg(address)?
        .arg(line)
}

/// What a refusal by `clap` means here.
fn refusal(error: &Error) -> WordsFault
    ensures memory { (result ≡ WordsFault.Memory) ↔ (kind_of error.now ≡ ErrorKind.OutOfMemory) }
    ensures usage { (result ≡ WordsFault.Usage) ↔ (kind_of error.now ≢ ErrorKind.OutOfMemory) }
{
    match error.kind() {
        ErrorKind::OutOfMemory => WordsFault::Memory,
        _ => WordsFault::Usage,
    }
}
