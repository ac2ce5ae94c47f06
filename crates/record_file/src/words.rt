//! The words of the command line.

use ballots::{Ballot, Setup};
use document_names::Names;
use std::alloc::Global;

/// What is done with a record.
#[derive(Clone, Copy)]
pub(super) enum Deed {
    /// It is opened alone.
    Open,
    /// The promise, and how many votes and learnt values there are.
    Load,
    /// The promise, each vote and each learnt value.
    Show,
    /// Votes of a ballot at so many positions from one on.
    Votes {
        ballot: Ballot,
        from: u32,
        count: u32,
    },
    /// So many values are kept as learnt, at the next positions.
    Learnt {
        count: u32,
    },
    /// So many promises from a ballot on, each of the next round.
    Promises {
        ballot: Ballot,
        count: u32,
    },
}

/// The file, whose it is, and what is done.
pub(super) fn read_words(alloc: Global, words: &[String]) -> Option<(&str, Setup, Deed)> {
    let [_, file, group, member, members, what @ ..] = words else {
        return None;
    };
    let member = member.parse::<u8>().ok()?;
    let deed = read_deed(member, what)?;
    let setup = setup(
        alloc,
        group.parse::<u32>().ok()?,
        member,
        members.parse::<u8>().ok()?,
    )?;
    Some((file.as_str(), setup, deed))
}

/// The setup of that member, with the one document `db`.
fn setup(alloc: Global, group: u32, member: u8, members: u8) -> Option<Setup> {
    let mut texts = Vec::new(alloc);
    texts.push(String::from_str(alloc, "db").ok()?).ok()?;
    let names = Names::new(alloc, texts.as_slice()).ok()?;
    Setup::new(alloc, group, member, members, &names).ok()
}

/// What the last words ask for.
fn read_deed(member: u8, words: &[String]) -> Option<Deed> {
    let (what, numbers) = words.split_first()?;
    match (what.as_str(), numbers) {
        ("open", []) => Some(Deed::Open),
        ("load", []) => Some(Deed::Load),
        ("show", []) => Some(Deed::Show),
        ("votes", [round, from, count]) => Some(Deed::Votes {
            ballot: ballot(round, member)?,
            from: from.parse::<u32>().ok()?,
            count: count.parse::<u32>().ok()?,
        }),
        ("learnt", [count]) => Some(Deed::Learnt {
            count: count.parse::<u32>().ok()?,
        }),
        ("promises", [round, count]) => Some(Deed::Promises {
            ballot: ballot(round, member)?,
            count: count.parse::<u32>().ok()?,
        }),
        _ => None,
    }
}

/// The ballot of that round and member.
fn ballot(round: &str, member: u8) -> Option<Ballot> {
    let round = round.parse::<u64>().ok()?;
    Some(Ballot { round, member })
}
