//! `paxq`: reads the command line and runs what it asks for.
#![tactic(auto)]

ghost use Rattle.std.specs.Prelude.{◌≡◌, ◌≢◌};
ghost use Rattle.std.specs.IoError.{error_kind};
ghost use Rattle.std.specs.declared.io.ErrorKind.TheVariants.{OutOfMemory};

use command_line::{Form, WordsFault, read_words};
use paxq_group::{local_file, send};
use paxq_node::node_file;
use paxq_run::run_file;
use paxq_sim::sim_file;
use std::io;
use std::process::ExitCode;
use std::sync::Wait;

/// Runs the form that the command line asks for, and ends with its exit status: 0 done, 1 a file that
/// cannot be read or is wrong, 2 words of no form, 3 no answer, 4 want of memory, a store that failed or no network.
///
/// Where standard output or standard error cannot be written, the status is 1 too.
fn main(rt: HostRuntime) -> ExitCode {
    match run_words(&rt, &rt) {
        Ok(status) => ExitCode::from(status),
        Err(error) => ExitCode::from(failed(&rt, &error)),
    }
}

/// Reads the words and runs their form. `waits` is the leave to wait for readers.
fn run_words<T: Wait>(rt: &HostRuntime, waits: &T) -> io::Result<u8> {
    let args = match std::env::args(rt) {
        Ok(args) => args,
        // A word that is not UTF-8 is none of a form.
        Err(error) if error.kind() == io::ErrorKind::InvalidData => {
            return refuse(rt, WordsFault::Usage);
        }
        Err(error) => return Err(error),
    };
    let words: Vec<String> = args.collect(rt.alloc())?;
    let words = match words.as_slice() {
        [_, words @ ..] => words,
        [] => &[],
    };
    match read_words(rt.alloc(), words) {
        Ok(form) => run_form(rt, waits, &form),
        Err(fault) => refuse(rt, fault),
    }
}

/// Reports why words were not read, and gives the exit status.
fn refuse(rt: &HostRuntime, fault: WordsFault) -> io::Result<u8> {
    eprintln!(rt; "paxq: {fault}")?;
    Ok(status_of(fault))
}

/// Runs a form.
fn run_form<T: Wait>(rt: &HostRuntime, waits: &T, form: &Form) -> io::Result<u8> {
    match form {
        Form::Run { script } => run_file(rt, waits, script.as_str()),
        Form::Sim { events } => sim_file(rt, events.as_str()),
        Form::Local { members, script } => local_file(rt, *members, script.as_str()),
        Form::Node { config, turns } => node_file(rt, config.as_str(), *turns),
        Form::Send {
            group,
            address,
            line,
        } => send(rt, *group, address.as_str(), line.as_str()),
    }
}

/// Reports what ended the program before its time, where there is a report for it, and gives the
/// exit status.
fn failed(rt: &impl Eprint, error: &io::Error) -> u8
    ensures memory { error_kind error.now ≡ OutOfMemory → result ≡ 4 }
    ensures other { error_kind error.now ≢ OutOfMemory → result ≡ 1 }
{
    if error.kind() != io::ErrorKind::OutOfMemory {
        return 1;
    }
    // Nothing is left to do where even this cannot be written.
    let _ = eprintln!(rt; "paxq: no memory");
    4
}

/// The exit status of words that were not read.
fn status_of(fault: WordsFault) -> u8
    ensures usage { fault ≡ WordsFault.Usage → result ≡ 2 }
    ensures memory { fault ≡ WordsFault.Memory → result ≡ 4 }
{
    match fault {
        WordsFault::Usage => 2,
        WordsFault::Memory => 4,
    }
}
