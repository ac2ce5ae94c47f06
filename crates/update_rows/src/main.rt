//! `update_rows FILE`: prints each row of a file with what lists of update primitives make of a store. The lists are built by hand, primitive by
//! primitive, and no text of a query is read.
//!
//! `tree [NAME NODE .. ] ..` describes the store of the rows after it: one or two documents with what stands below them, whose nodes are spelt
//! as `nodes.rt` of `update_words` says. The documents have the identities 1 and 2; a last `next N` lets the next node take the identity N. It prints how many nodes there
//! are and the next identity. The store is made anew for each row.
//!
//! `list STEP ..` takes steps on that store and on two lists, which are empty at first, and prints what they gave with ` | ` between two of them.
//! `loop N STEP ..` does the same N times over, each time from the store as it was described, for benchmarks: it prints what the last time gave,
//! and makes no second store to compare with.
//!
//! `copies TARGET .. do PRIMITIVE ..` updates copies of nodes of that store (`copies.rt`). `undo PRIMITIVE ..` makes an update that it takes back, and then one
//! that it keeps (`undo.rt`).
//!
//! - A primitive (`primitives.rt` there) is added to the list, and after the word `other` to the other list; it prints nothing, or `PXQ0002`. The nodes of
//!   its trees take the identities after those of all primitives before it, and `next N` lets them take later ones.
//! - `merge` adds the other list's primitives at the end of the list, and the other list is empty then; it prints nothing, or `PXQ0002`.
//! - `check` prints `compatible` or the code, and `len` how many primitives are in the list.
//! - `apply` updates the store and prints `done` or the code. `settle` prepares the update and settles it, `discard` prepares and discards
//!   it: they print `settled`, `discarded` or the code. After an update both lists are empty.
//! - `store` prints all nodes with their identities as `tree` would take them, and the next identity; `size` how many nodes there are and the next
//!   identity; `same` whether the store is as described.
//! - `repeat N STEP .. end` takes the steps N times. A target written `N+M` is the identity N in the first turn, N + M in the second, and so on.
//!
//! Where an update finds no memory, the store is compared with a second one that never saw the update, which is then made again. After a code, and where
//! an update is discarded, the store is compared so too. A store that is not as it was shows as `changed`; one of more than 20,000 nodes is not compared.
//! Where no memory is found to add a primitive, both lists are to have as many as before, and it is added again; a check is made again; and of `merge`, whose
//! other list is gone then, the row says `memory`.
#![tactic(auto)]

mod copies;
mod steps;
mod undo;

use rows::{Answers, RowFault, Words, run_table};
use std::alloc::Global;
use std::process::ExitCode;
use update_words::{opened, printed};

/// Ends with the table's exit status: 1 where a row is not understood, and where the file cannot be read or memory is refused.
fn main(rt: HostRuntime) -> ExitCode {
    let mut rows = UpdateRows {
        described: String::new(rt.alloc()),
    };
    match run_table(&rt, &mut rows) {
        Ok(status) => ExitCode::from(status),
        Err(_) => ExitCode::from(1),
    }
}

/// The rows on updates.
#[derive(Drop)]
struct UpdateRows {
    /// The store on which rows work, as its row describes it.
    described: String,
}

impl UpdateRows {
    /// `[NAME NODE .. ] ..`: works on this store from now on, and gives its size.
    fn work_on(&mut self, alloc: Global, described: &str) -> Result<String, RowFault> {
        let desk = opened(alloc, described)?;
        let size = printed::size(alloc, desk.forest())?;
        self.described = String::from_str(alloc, described)?;
        Ok(size)
    }
}

impl Answers for UpdateRows {
    fn answer(&mut self, alloc: Global, row: &str) -> Result<String, RowFault> {
        let mut words = Words::new(row);
        match words.plain()? {
            "tree" => self.work_on(alloc, words.rest()),
            "copies" => copies::copied(alloc, &self.described, words),
            "undo" => undo::undone(alloc, &self.described, words),
            "list" => steps::taken(alloc, &self.described, words, true),
            "loop" => {
                let times = words.number()?;
                steps::looped(alloc, &self.described, words, times)
            }
            _ => Err(RowFault::NotARow),
        }
    }
}
