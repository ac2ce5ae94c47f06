//! What a leader is told of positions: votes that are reported, and what is learnt.

ghost use Rattle.std.specs.Prelude.{◌≡◌, ◌≤◌, ℕ, [], ◌∷◌, is_some, IfOk, OnOk};
ghost use Rattle.ballots.specs.Values.{positions, IsRising};
ghost use Rattle.position_map.specs.Slots.{filled, value_at, HasSlot};
ghost use Rattle.proposer.specs.Beginning.{is_in};
ghost use Rattle.proposer.specs.Merging.{HaveRoom, HavePlaces, IsLearning, IsMerged};
ghost use Rattle.proposer.specs.Views.{AreRising};

use ballots::{Entry, Vote};
use position_map::PositionMap;
use std::alloc::{AllocError, Global};

/// A map of positions that rise.
pub(super) fn positions_known(alloc: Global, learnt: &[u32]) -> Result<PositionMap<()>, AllocError>
    requires rising { IsRising 1 learnt.now }
    ensures { IfOk result (λ map. (q : ℕ) → is_some (value_at q (filled map)) ≡ is_in q learnt.now) }
{
    let mut map = PositionMap::new(alloc);
    for position in learnt {
        map.reserve(*position)?;
        map.fill(*position, ());
    }
    Ok(map)
}

/// Makes room for learnt positions.
pub(super) fn reserve_positions(map: &mut PositionMap<()>, learnt: &[u32]) -> Result<(), AllocError>
    requires rising { IsRising 1 learnt.now }
    ensures same { filled map.new ≡ filled map.old }
    ensures places { OnOk result (HavePlaces learnt.now map.new) }
{
    for position in learnt {
        map.reserve(*position)?;
    }
    Ok(())
}

/// Takes in learnt positions.
pub(super) fn learn_all(map: &mut PositionMap<()>, learnt: &[u32])
    requires rising { IsRising 1 learnt.now }
    requires room { HavePlaces learnt.now map.old }
    ensures { IsLearning learnt.now map.old map.new }
{
    for position in learnt {
        map.fill(*position, ());
    }
}

/// Makes room for votes.
pub(super) fn reserve_entries(
    reports: &mut PositionMap<Vote>,
    entries: &[Entry],
) -> Result<(), AllocError>
    requires rising { AreRising 1 entries.now }
    ensures same { filled reports.new ≡ filled reports.old }
    ensures room { OnOk result (HaveRoom entries.now reports.new) }
{
    for entry in entries {
        reports.reserve(entry.position)?;
    }
    Ok(())
}

/// Takes in reported votes: of two at a position the one of the higher ballot stays.
pub(super) fn merge_all(reports: &mut PositionMap<Vote>, entries: Vec<Entry>)
    requires rising { AreRising 1 entries.items }
    requires room { HaveRoom entries.items reports.old }
    ensures { IsMerged entries.items reports.old reports.new }
{
    let mut left = entries;
    while let Some(entry) = left.pop() {
        merge_one(reports, entry);
    }
}

/// Takes in a reported vote.
fn merge_one(reports: &mut PositionMap<Vote>, entry: Entry)
    requires most { entry.position ≤ positions }
    requires room { HasSlot entry.position reports.old }
    ensures { IsMerged (entry ∷ []) reports.old reports.new }
{
    if let Some(known) = reports.get(entry.position) {
        if !known.ballot.is_below(entry.vote.ballot) {
            return;
        }
    }
    reports.fill(entry.position, entry.vote);
}
