//! Rows on a record by itself: `record CALLS`.
//!
//! `promise BALLOT`, `vote POSITION BALLOT NUMBER`, `copy` (it goes on with a copy of itself), `promised`, `has POSITION BALLOT NUMBER`.

use crate::playing::{Played, play_all};
use crate::reading::{said, value, yes_or_no};
use ballots::Vote;
use message_words::{ballot_text, read_ballot, read_u32};
use records::Record;
use rows::{RowFault, Words};
use std::alloc::{AllocError, Global};

/// A record, as calls of it show it.
#[derive(Drop)]
struct PlayedRecord {
    record: Record,
}

/// A row on a record.
pub(super) fn row(alloc: Global, words: &Words<'_>) -> Result<String, RowFault> {
    let record = Record::new(alloc);
    play_all(alloc, &mut PlayedRecord { record }, words.rest())
}

/// A ballot, and the number of a request.
fn read_vote(alloc: Global, words: &mut Words<'_>) -> Result<Vote, RowFault> {
    let ballot = read_ballot(words)?;
    let value = value(alloc, words.number()?)?;
    Ok(Vote { ballot, value })
}

impl PlayedRecord {
    /// Records a vote; where memory is refused nothing has changed, and it is recorded again.
    fn vote(&mut self, position: u32, vote: &Vote) -> Result<(), RowFault> {
        if position < 1 {
            return Err(RowFault::NotARow);
        }
        if self.record.set_vote(position, vote.clone()?).is_err() {
            self.record.set_vote(position, vote.clone()?)?;
        }
        Ok(())
    }

    /// Goes on with a copy.
    fn copy(&mut self) -> Result<(), AllocError> {
        self.record = self.record.clone()?;
        Ok(())
    }
}

impl Played for PlayedRecord {
    fn call(&mut self, alloc: Global, words: &mut Words<'_>) -> Result<String, RowFault> {
        match words.plain()? {
            "promise" => {
                self.record.set_promise(read_ballot(words)?);
                said(alloc, "ok")
            }
            "vote" => {
                let position = read_u32(words)?;
                self.vote(position, &read_vote(alloc, words)?)?;
                said(alloc, "ok")
            }
            "copy" => {
                self.copy()?;
                said(alloc, "ok")
            }
            "promised" => Ok(ballot_text(alloc, self.record.promise())?),
            "has" => {
                let position = read_u32(words)?;
                let vote = read_vote(alloc, words)?;
                yes_or_no(alloc, self.record.has_vote(position, &vote))
            }
            _ => Err(RowFault::NotARow),
        }
    }
}
