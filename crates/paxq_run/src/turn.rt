//! What one command prints.

ghost use Rattle.std.specs.Prelude.{◌≡◌, ℕ, List, ◌++◌, IfOk, Ok, true, false, codes, length, string_bytes};
ghost use Rattle.ballots.specs.declared.value.Value.{Value as ValueTerm};
ghost use Rattle.paxq_files.specs.Commands.{command_term};
ghost use Rattle.paxq_files.specs.Script.{submit, ask, ask_at};
ghost use Rattle.paxq_run.specs.Play.{turn_of};
ghost use Rattle.paxq_run.specs.Sites.{HasTurned, Shows};
ghost use Rattle.program_reports.specs.Reports.{line_feed};

use super::lone::{LoneReader, LoneSite, take_request};
use ballots::Request;
use ballots::limits::POSITIONS;
use paxq_files::Command;
use printed_replies::{answer_text, behind_text, reply_text};
use published::Opening;
use sight::Naming;
use std::alloc::{AllocError, Global};
use std::sync::Wait;

/// What one command prints, and whether the run goes on after it.
#[derive(Drop)]
pub(super) struct Turn {
    pub(super) text: String,
    pub(super) goes_on: bool,
}

/// Runs a command.
///
/// It fails where memory is refused.
pub(super) fn take_turn<J: Naming + Opening, T: Wait>(
    rt: &T,
    alloc: Global,
    site: &mut LoneSite<J>,
    reader: &mut LoneReader<J>,
    command: Command,
) -> Result<Turn, AllocError>
    ensures { IfOk result (λ turn. (values : List ValueTerm) → Shows J.names values site.old reader.old.sight
        → HasTurned J.names (turn_of J.names values (command_term command)) (string_bytes turn.text) turn.goes_on site.new reader.new.sight) }
{
    match command {
        Command::Submit(request) => submit(rt, alloc, site, reader, request),
        Command::Ask(level, question) => ask(alloc, site, reader, level, &question),
        Command::AskAt(level, floor, question) => {
            ask_at(alloc, site, reader, level, floor, &question)
        }
    }
}

/// Submits a request: one that has a reply gets it; a new one is applied at the next position.
fn submit<J: Naming + Opening, T: Wait>(
    rt: &T,
    alloc: Global,
    site: &mut LoneSite<J>,
    reader: &mut LoneReader<J>,
    request: Request,
) -> Result<Turn, AllocError>
    ensures { IfOk result (λ turn. (values : List ValueTerm) → Shows J.names values site.old reader.old.sight
        → HasTurned J.names (turn_of J.names values (submit request)) (string_bytes turn.text) turn.goes_on site.new reader.new.sight) }
{
    let id = request.id();
    if let Some(reply) = site.node().state().reply_of(id.client, id.number) {
        return printed(reply_text(alloc, reply));
    }
    if site.applied() >= POSITIONS {
        return no_answer(alloc);
    }
    take_request(rt, alloc, site, reader, request)?;
    match site.node().state().reply_of(id.client, id.number) {
        Some(reply) => printed(reply_text(alloc, reply)),
        None => Err(AllocError),
    }
}

/// Asks a question at a level of the language: the reader answers it over all that is shown.
fn ask<J: Naming + Opening>(
    alloc: Global,
    site: &LoneSite<J>,
    reader: &mut LoneReader<J>,
    level: u8,
    question: &String,
) -> Result<Turn, AllocError>
    ensures { IfOk result (λ turn. (values : List ValueTerm) → Shows J.names values site.now reader.old.sight
        → HasTurned J.names (turn_of J.names values (ask level (string_bytes question.now))) (string_bytes turn.text) turn.goes_on site.now reader.new.sight) }
{
    let shown = shown(site)?;
    match reader.ask(alloc, level, question.as_str()) {
        Ok((answer, position)) if position == u64::from(shown) => {
            printed(answer_text(alloc, shown, &answer))
        }
        // The reader has learnt of all that is shown, and nothing is shown in between, so it has no other answer.
        _ => Err(AllocError),
    }
}

/// Asks a question that is to be answered where so many positions are shown.
fn ask_at<J: Naming + Opening>(
    alloc: Global,
    site: &LoneSite<J>,
    reader: &mut LoneReader<J>,
    level: u8,
    floor: u32,
    question: &String,
) -> Result<Turn, AllocError>
    ensures { IfOk result (λ turn. (values : List ValueTerm) → Shows J.names values site.now reader.old.sight
        → HasTurned J.names (turn_of J.names values (ask_at level floor (string_bytes question.now))) (string_bytes turn.text) turn.goes_on site.now reader.new.sight) }
{
    let shown = shown(site)?;
    if shown < floor {
        return printed(behind_text(alloc, shown));
    }
    ask(alloc, site, reader, level, question)
}

/// How many positions are shown. It fails where they are more than there are.
fn shown<J: Naming + Opening>(site: &LoneSite<J>) -> Result<u32, AllocError>
    ensures { IfOk result (λ shown. shown ≡ length site.now.store.published) }
{
    match u32::try_from(site.published()) {
        Ok(shown) => Ok(shown),
        Err(_) => Err(AllocError),
    }
}

/// A turn after which the run goes on.
fn printed(text: Result<String, AllocError>) -> Result<Turn, AllocError>
    ensures { IfOk result (λ turn. (text ≡ Ok turn.text) × (turn.goes_on ≡ true)) }
{
    Ok(Turn {
        text: text?,
        goes_on: true,
    })
}

/// The turn that ends a run which has no position left.
fn no_answer(alloc: Global) -> Result<Turn, AllocError>
    ensures { IfOk result (λ turn. (string_bytes turn.text ≡ codes "no answer" ++ line_feed) × (turn.goes_on ≡ false)) }
{
    Ok(Turn {
        text: String::from_str(alloc, "no answer\n")?,
        goes_on: false,
    })
}
