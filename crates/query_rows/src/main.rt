//! `query_rows FILE`: prints each row of a file with what an expression gives.
//!
//! A row is `ask TEXT`, or `at KIND NAME TEXT ask TEXT` for a context item: a node of that kind, name and text with no parent. `tree`
//! and `PARENT KIND NAME TEXT` for each of its nodes, whose identities are 2, 3, .., is the tree below the document `db`, 1, in which the
//! rows after it look: `in ask TEXT`, or `in from NODE ask TEXT` for a context item. It prints how many nodes there are then. `list TEXT`
//! gives the update primitives of an expression over that tree, and the next identity. `answer LEVEL TEXT` is what a question gives there:
//! how many bytes its text has, and its lines. The items and lines are printed with ` / ` between two of them; a fault by its code.
#![tactic(auto)]

mod answers;
mod asking;
mod growing;
mod lists;

use answers::answer_in;
use asking::{ask, ask_at, ask_in, list_in};
use growing::grown;
use rows::{Answers, RowFault, Words, run_table};
use std::alloc::Global;
use std::process::ExitCode;

/// Ends with the table's exit status: 1 where a row is not understood, and where the file cannot be read or memory is refused.
fn main(rt: HostRuntime) -> ExitCode {
    let mut rows = QueryRows {
        nodes: String::new(rt.alloc()),
    };
    match run_table(&rt, &mut rows) {
        Ok(status) => ExitCode::from(status),
        Err(_) => ExitCode::from(1),
    }
}

/// The rows on expressions.
#[derive(Drop)]
struct QueryRows {
    /// The nodes of the tree in which rows look, as their row describes them.
    nodes: String,
}

impl QueryRows {
    /// `PARENT KIND NAME TEXT ..`: looks in these nodes from now on, and gives how many there are with their document.
    fn look_in(&mut self, alloc: Global, words: Words<'_>) -> Result<String, RowFault> {
        let forest = grown(alloc, words)?;
        self.nodes = String::from_str(alloc, words.rest())?;
        Ok(forest.len().to_string(alloc)?)
    }
}

impl Answers for QueryRows {
    fn answer(&mut self, alloc: Global, row: &str) -> Result<String, RowFault> {
        let mut words = Words::new(row);
        let result = match words.plain()? {
            "ask" => ask(alloc, &mut words)?,
            "at" => ask_at(alloc, &mut words)?,
            "in" => ask_in(alloc, &self.nodes, &mut words)?,
            "list" => list_in(alloc, &self.nodes, &mut words)?,
            "answer" => answer_in(alloc, &self.nodes, &mut words)?,
            "tree" => return self.look_in(alloc, words),
            _ => return Err(RowFault::NotARow),
        };
        if words.is_empty() {
            Ok(result)
        } else {
            Err(RowFault::NotARow)
        }
    }
}
