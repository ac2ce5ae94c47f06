// What one line of a script asks for.

ghost use Rattle.std.specs.Prelude.{◌≡◌, true, IfOk};
ghost use Rattle.std.specs.Option.{option_map};
ghost use Rattle.ballots.specs.Terms.{is_level};
ghost use Rattle.paxq_files.specs.Commands.{command_term};
ghost use Rattle.paxq_files.specs.Script.{ask_at_of, ask_at_with, ask_of, command_alone, command_at_1, command_of, submit_of};

use crate::script::Command;
use line_parts::{cut_at, has_text_length, read_floor, read_request, text_after};
use std::alloc::{AllocError, Global};

/// Reads one line that stands alone, without a line feed: `submit CLIENT NUMBER TEXT`, `askat FLOOR TEXT` or `ask TEXT`, or one of these words with a
/// 2, as [`read_script`] has them. Any other text gives `None`, also one with a line feed in it. It fails where memory is refused.
///
/// [`read_script`]: crate::read_script
pub fn read_command(alloc: Global, text: &str) -> Result<Option<Command>, AllocError>
    ensures { IfOk result (λ command. option_map command_term command ≡ command_alone text.now) }
{
    if text.as_bytes().contains(&b'\n') {
        return Ok(None);
    }
    read_line(alloc, text)
}

/// Reads a line `submit CLIENT NUMBER TEXT`, `askat FLOOR TEXT` or `ask TEXT`, of level 1, or one of these words with a 2, of level 2.
/// Any other line gives `None`. It fails where memory is refused.
#[tactic(auto, unfolding(crate::specs::Script::command_of))]
pub(crate) fn read_line(alloc: Global, line: &str) -> Result<Option<Command>, AllocError>
    ensures { IfOk result (λ command. option_map command_term command ≡ command_of line.now) }
{
    if let Some(parts) = text_after("submit2 ", line) {
        return read_submit(alloc, 2, parts);
    }
    if let Some(parts) = text_after("askat2 ", line) {
        return read_ask_at(alloc, 2, parts);
    }
    match text_after("ask2 ", line) {
        Some(text) => read_ask(alloc, 2, text),
        None => read_first_level(alloc, line),
    }
}

// Reads a line of level 1.
#[tactic(auto, unfolding(crate::specs::Script::command_at_1))]
fn read_first_level(alloc: Global, line: &str) -> Result<Option<Command>, AllocError>
    ensures { IfOk result (λ command. option_map command_term command ≡ command_at_1 line.now) }
{
    if let Some(parts) = text_after("submit ", line) {
        return read_submit(alloc, 1, parts);
    }
    if let Some(parts) = text_after("askat ", line) {
        return read_ask_at(alloc, 1, parts);
    }
    match text_after("ask ", line) {
        Some(text) => read_ask(alloc, 1, text),
        None => Ok(None),
    }
}

// Reads `CLIENT NUMBER TEXT`, a request of that level.
fn read_submit(alloc: Global, level: u8, parts: &str) -> Result<Option<Command>, AllocError>
    requires { is_level level ≡ true }
    ensures { IfOk result (λ command. option_map command_term command ≡ submit_of level parts.now) }
{
    match read_request(alloc, level, parts)? {
        Some(request) => Ok(Some(Command::Submit(request))),
        None => Ok(None),
    }
}

// A question of that level and text, unless the text is empty or too long.
fn read_ask(alloc: Global, level: u8, text: &str) -> Result<Option<Command>, AllocError>
    ensures { IfOk result (λ command. option_map command_term command ≡ ask_of level text.now) }
{
    if !has_text_length(text) {
        return Ok(None);
    }
    Ok(Some(Command::Ask(level, String::from_str(alloc, text)?)))
}

// Reads `FLOOR TEXT`, a question of that level.
fn read_ask_at(alloc: Global, level: u8, parts: &str) -> Result<Option<Command>, AllocError>
    ensures { IfOk result (λ command. option_map command_term command ≡ ask_at_of level parts.now) }
{
    let (floor, text) = cut_at(' ', parts);
    match read_floor(floor) {
        Some(floor) => ask_at_with(alloc, level, floor, text),
        None => Ok(None),
    }
}

// A question of that level, floor and text, unless the text is empty or too long.
fn ask_at_with(
    alloc: Global,
    level: u8,
    floor: u32,
    text: &str,
) -> Result<Option<Command>, AllocError>
    ensures { IfOk result (λ command. option_map command_term command ≡ ask_at_with level floor text.now) }
{
    if !has_text_length(text) {
        return Ok(None);
    }
    Ok(Some(Command::AskAt(level, floor, String::from_str(alloc, text)?)))
}
