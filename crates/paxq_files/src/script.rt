//! Scripts: a first line may name the documents, and each further line is a request or a question.

ghost use Rattle.std.specs.Prelude.{◌≡◌, ◌+◌, ◌^◌, ◌<◌, [], ◌∷◌, false, true, codes, length, map, string_bytes, IfErr, IfOk, IfSome, IsErrOf, MatchOption, OnOk};
ghost use Rattle.std.specs.List.{slice_split};
ghost use Rattle.paxq_files.specs.Commands.{IsFaultOf};
ghost use Rattle.paxq_files.specs.Lines.{lines_after};
ghost use Rattle.line_parts.specs.Parts.{is_space};
ghost use Rattle.paxq_files.specs.Script.{after_docs, commands_from, script, script_of};

use crate::line::read_line;
use crate::lines::{Line, first_line};
use ballots::Request;
use document_names::{Names, NamesFault};
use line_parts::{read_names, text_after};
use std::alloc::{AllocError, Global};
use std::collections::VecDeque;
use std::marker::Model;

/// What a line of a script asks for.
#[derive(Drop)]
pub enum Command {
    /// `submit CLIENT NUMBER TEXT`, or `submit2` at level 2 of the language: a request.
    Submit(Request),
    /// `ask TEXT`, or `ask2`: a question, with the level of its text.
    Ask(u8, String),
    /// `askat FLOOR TEXT`, or `askat2`: the same, to be answered where so many positions are applied.
    AskAt(u8, u32, String),
}

/// The documents' names, and the commands in order.
#[derive(Drop)]
pub struct Script {
    names: Names,
    commands: VecDeque<Command>,
}

impl Model for Script {
    ghost use Rattle.std.specs.Prelude.{map};
    ghost use Rattle.paxq_files.specs.Commands.{command_term};
    ghost use Rattle.paxq_files.specs.Script.{ScriptTerm};
    ghost use Rattle.paxq_files.specs.ScriptCode.{script_code};

    ghost Value = { ScriptTerm };

    ghost coded = { script_code };

    ghost view = { λ a. record { names = a.names; commands = map command_term a.commands.items } };
}

/// Why a text is no script.
#[derive(Clone, Copy, PartialEq, Eq, Debug)]
pub enum ScriptFault {
    /// Memory was refused.
    Memory,
    /// The first wrong line, counted from 1.
    Line(u64),
}

impl From<AllocError> for ScriptFault {
    ghost use Rattle.paxq_files.specs.declared.script.ScriptFault.TheVariants.{Memory};

    ghost from_gives = { λ _ fault. fault ≡ Memory };

    fn from(_refused: AllocError) -> ScriptFault {
        ScriptFault::Memory
    }
}

impl Script {
    ghost use Rattle.std.specs.Prelude.{◌≡◌, ◌∷◌, [], MatchOption};
    ghost use Rattle.paxq_files.specs.Commands.{command_term};

    /// The names of the documents, in order.
    pub fn names(&self) -> &Names
        ensures { result.now ≡ self.now.names }
    {
        &self.names
    }

    /// Takes the next command out of the script, if there is one.
    pub fn next_command(&mut self) -> Option<Command>
        ensures taken { MatchOption result ((self.old.commands ≡ []) × (self.new ≡ self.old))
            (λ command. self.old ≡ record self.new { commands = command_term command ∷ self.new.commands }) }
    {
        self.commands.pop_front()
    }
}

/// Reads a script: lines that end with line feeds, of which the last need not.
///
/// Empty lines and lines that begin with `#` are skipped. The first other line may be
/// `docs NAME ..`, which gives the names of the documents as [`Names`] takes them; without it there
/// is the one document `db`. Each further line is `submit CLIENT NUMBER TEXT`, `ask TEXT` or `askat FLOOR TEXT`,
/// whose texts are of level 1 of the language; `submit2`, `ask2` and `askat2` are the same at level 2.
/// Single spaces stand between the parts. CLIENT (up to 2^32 - 1), NUMBER (up to 2^64 - 1) and FLOOR (up to 1,000,000)
/// are decimal numbers without a sign, and TEXT, the rest of the line, is 1 to 4,096 bytes.
///
/// Any other text ends in [`ScriptFault::Line`], with the number of its first wrong line, and in
/// [`ScriptFault::Memory`] where memory is refused before that line.
pub fn read_script(alloc: Global, text: &str) -> Result<Script, ScriptFault>
    ensures read { IfOk result (λ s. script_of text.now ≡ script s) }
    ensures wrong { IfErr result (IsFaultOf (script_of text.now)) }
{
    match docs_line(text) {
        Some(docs) => match read_names(alloc, docs.text) {
            Ok(names) => read_commands(alloc, names, docs.rest, docs.number),
            Err(NamesFault::Memory) => Err(ScriptFault::Memory),
            Err(NamesFault::Wrong) => Err(ScriptFault::Line(docs.number)),
        },
        None => read_commands(alloc, default_names(alloc)?, text, 0),
    }
}

// The line `docs NAME ..`, where the first line that says something is one. Its text is then the
// names alone.
#[tactic(auto, unfolding(crate::specs::Script::script_of, crate::specs::Script::lines_of, crate::specs::Lines::lines_after))]
fn docs_line(text: &str) -> Option<Line<'_>>
    ensures found { MatchOption result (script_of text.now ≡ commands_from (codes "db" ∷ []) [] (lines_after 0 text.now))
        (λ line. script_of text.now ≡ after_docs line.number (slice_split is_space line.text.now) (lines_after line.number line.rest.now)) }
    ensures room { IfSome result (λ line. line.number + length line.rest.now < 2 ^ 64) }
{
    let line = first_line(text, 0)?;
    let names = text_after("docs ", line.text)?;
    Some(Line {
        text: names,
        ..line
    })
}

// The names of the documents where a script gives none.
fn default_names(alloc: Global) -> Result<Names, AllocError>
    ensures { IfOk result (λ names. names ≡ codes "db" ∷ []) }
{
    match read_names(alloc, "db") {
        Ok(names) => Ok(names),
        Err(NamesFault::Memory) => Err(AllocError),
        Err(NamesFault::Wrong) => unreachable!(),
    }
}

// The script of those names whose commands are the lines of a text before which `before` lines stand.
fn read_commands(
    alloc: Global,
    names: Names,
    text: &str,
    before: u64,
) -> Result<Script, ScriptFault>
    requires { before + length text.now < 2 ^ 64 }
    ensures read { IfOk result (λ s. commands_from names [] (lines_after before text.now) ≡ script s) }
    ensures wrong { IfErr result (IsFaultOf (commands_from names [] (lines_after before text.now))) }
{
    let mut commands = VecDeque::new(alloc);
    let mut rest = text;
    let mut number = before;
    while let Some(line) = first_line(rest, number) {
        rest = line.rest;
        number = line.number;
        let Some(command) = read_line(alloc, line.text)? else {
            return Err(ScriptFault::Line(number));
        };
        commands.push_back(command).map_err(AllocError::from)?;
    }
    Ok(Script { names, commands })
}
