//! What a learner is about to change.

ghost use Rattle.std.specs.Prelude.{◌≡◌};

use ballots::{Pair, Vote};
use std::marker::Model;

/// A change of a learner.
#[derive(Drop)]
pub(super) enum Change {
    /// No change.
    Nothing,
    /// One more acceptance of a vote is tallied: the member, the position and the vote.
    Counts(u8, u32, Vote),
    /// Values are learnt.
    Learns(Vec<Pair>),
}

/// What a learner is about to change. `Learner::commit` makes the change, and until then nothing that shows has changed.
#[derive(Drop)]
pub struct Draft {
    pub(super) change: Change,
    /// The positions that are learnt by the change, in order.
    pub(super) news: Vec<u32>,
}

impl Model for Draft {
    ghost use Rattle.learner.specs.Drafts.{Draft as DraftTerm};

    ghost Value = { DraftTerm };

    ghost use Rattle.learner.specs.Drafts.{change_in};

    ghost view = { λ d. record { change = change_in d.change; news = d.news.items } };
}

impl Draft {
    /// The positions that are learnt by the change, in order.
    pub fn news(&self) -> &[u32]
        ensures { result.now ≡ self.now.news }
    {
        &self.news
    }
}
