//! A learner.

ghost use Rattle.std.specs.Prelude.{◌≡◌, ◌≤◌, ℕ, List, [], ◌∷◌, ◌++◌, None, Some, is_some, length, IfOk, IsSome, OnErr, OnOk, MatchOption};
ghost use Rattle.std.specs.List.{All};
ghost use Rattle.std.specs.Option.{option_copied};
ghost use Rattle.ballots.specs.Values.{IsPosition, positions, IsRising};
ghost use Rattle.position_map.specs.Slots.{filled, value_at as value_in, HasSlot};
ghost use Rattle.paxos.specs.Knowledge.{AcceptedBy, ChosenAre, Heard, first, kept_news, last_of_run, learnt as learnt_at, numbered, pair_of, prefix, value_at};
ghost use Rattle.learner.specs.Changes.{AreForgotten, change_of, HasRoom, IsAsWas, IsChanged, IsDue, Learns, not_learnt, positions_in, positions_of};
ghost use Rattle.learner.specs.Hearing.{AreAbove, HasHeard, IsLowest, news_at};
ghost use Rattle.learner.specs.Slots.{AreWithin, pairs_of};
ghost use Rattle.learner.specs.Terms.{learnt_of, open_in, open_of};
ghost use Rattle.ballots.specs.Ballot.{most_members};

use super::draft::{Change, Draft};
use super::poll::mask_with;
use super::tallies::Tallies;
use ballots::{Members, Pair, Value, Vote};
use position_map::PositionMap;
use std::alloc::{AllocError, Global};
use std::marker::Model;

/// A learner ("Paxos Made Simple", section 2.3): it counts the members that were heard to have accepted a vote, and knows the
/// values that are chosen.
#[derive(Drop)]
pub struct Learner {
    members: Members,
    chosen: PositionMap<Value>,
    tallies: Tallies,
}

impl Model for Learner {
    ghost use Rattle.learner.specs.Terms.{Learner as LearnerTerm, learner_code};

    ghost Value = { LearnerTerm };

    ghost coded = { learner_code };

    ghost view = { λ l. record { members = l.members; slots = l.chosen; tallies = l.tallies } };

    ghost use Rattle.std.specs.Prelude.{◌≤◌};
    ghost use Rattle.learner.specs.Slots.{AreWithin};
    ghost use Rattle.ballots.specs.Ballot.{most_members};

    ghost invariant = { λ l. (l.members ≤ most_members) × AreWithin l.chosen };
}

impl Learner {
    /// A learner that has heard nothing, of so many members.
    pub fn new(alloc: Global, members: Members) -> Learner
        ensures members { result.members ≡ members }
        ensures heard { HasHeard [] result }
        ensures nothing { result ≡ record { members = members; slots = []; tallies = [] } }
    {
        // Members are at most 63, as their count says.
        let _count = members.count();
        Learner {
            members,
            chosen: PositionMap::new(alloc),
            tallies: Tallies::new(alloc),
        }
    }

    /// A learner that has learnt these values at the positions from 1 on, and has heard nothing else.
    ///
    /// It fails where memory is refused.
    pub fn resume(alloc: Global, members: Members, values: &[Value]) -> Result<Learner, AllocError>
        requires few { length values.now ≤ positions }
        ensures members { IfOk result (λ l. l.members ≡ members) }
        ensures heard { IfOk result (HasHeard (kept_news (numbered 1 values.now))) }
    {
        // Members are at most 63, as their count says.
        let _count = members.count();
        Ok(Learner {
            members,
            chosen: placed(alloc, values)?,
            tallies: Tallies::new(alloc),
        })
    }

    /// How many members there are.
    pub fn members(&self) -> Members
        ensures { result ≡ self.now.members }
    {
        self.members
    }

    /// The value that is learnt at a position, if there is one.
    pub fn learned(&self, position: u32) -> Option<&Value>
        ensures value { option_copied result ≡ value_at position (learnt_of self.now) }
        ensures heard { (heard : List Heard) → HasHeard heard self.now → option_copied result ≡ learnt_at self.now.members position heard }
    {
        self.chosen.get(position)
    }

    /// How many votes have been heard at positions that are not learnt.
    pub fn open_tallies(&self) -> usize
        ensures { result ≡ length (open_of self.now) }
    {
        self.tallies.len()
    }

    /// The lowest position at or above this one that is learnt.
    pub fn next_learned(&self, from: u32) -> Option<u32>
        ensures lowest { MatchOption result ((q : ℕ) → from ≤ q → value_at q (learnt_of self.now) ≡ None) (λ p. IsLowest from p (learnt_of self.now)) }
        ensures within { (p : ℕ) → result ≡ Some p → IsPosition p }
    {
        self.chosen.next_from(from)
    }

    /// How many positions are learnt from 1 on without a gap.
    pub fn prefix(&self) -> u32
        ensures longest { result ≡ last_of_run (λ p. is_some (value_at p (learnt_of self.now))) positions 0 }
        ensures heard { (heard : List Heard) → HasHeard heard self.now → result ≡ prefix self.now.members heard }
    {
        // No position below 1 has a value.
        self.chosen.run_end(0)
    }

    /// A member was heard to have accepted a vote at a position. Gives the position, if it is learnt by that.
    ///
    /// It fails where memory is refused, and nothing that shows has changed then.
    pub fn on_accepted(
        &mut self,
        alloc: Global,
        member: u8,
        position: u32,
        vote: &Vote,
    ) -> Result<Vec<u32>, AllocError>
        requires least_member { 1 ≤ member }
        requires most_member { member ≤ most_members }
        requires least { 1 ≤ position }
        requires most { position ≤ positions }
        ensures heard { OnOk result ((heard : List Heard) → HasHeard heard self.old → HasHeard (AcceptedBy member position vote.now ∷ heard) self.new) }
        ensures newly { IfOk result (λ v. (heard : List Heard) → HasHeard heard self.old → v.items ≡ news_at self.old.members (AcceptedBy member position vote.now) heard) }
        ensures rising { IfOk result (λ v. IsRising 1 v.items) }
        ensures members { self.new.members ≡ self.old.members }
        ensures refused { OnErr result (IsAsWas self.old self.new) }
    {
        let draft = self.draft_accepted(alloc, member, position, vote)?;
        Ok(self.commit(draft))
    }

    /// Values were told as chosen. Gives the positions that are learnt by that, in order.
    ///
    /// It fails where memory is refused, and nothing that shows has changed then.
    pub fn on_chosen(&mut self, alloc: Global, pairs: &[Pair]) -> Result<Vec<u32>, AllocError>
        requires rising { AreAbove 0 pairs.now }
        requires most { All (λ e. e.position ≤ positions) pairs.now }
        ensures heard { OnOk result ((heard : List Heard) → HasHeard heard self.old → HasHeard (ChosenAre pairs.now ∷ heard) self.new) }
        ensures newly { IfOk result (λ v. (heard : List Heard) → HasHeard heard self.old → v.items ≡ news_at self.old.members (ChosenAre pairs.now) heard) }
        ensures rising { IfOk result (λ v. IsRising 1 v.items) }
        ensures members { self.new.members ≡ self.old.members }
        ensures refused { OnErr result (IsAsWas self.old self.new) }
    {
        let draft = self.draft_chosen(alloc, pairs)?;
        Ok(self.commit(draft))
    }

    /// What `on_accepted` is about to change, with the room that it takes. Nothing that shows has changed.
    ///
    /// It takes away the room that an earlier draft has left. It fails where memory is refused.
    pub fn draft_accepted(
        &mut self,
        alloc: Global,
        member: u8,
        position: u32,
        vote: &Vote,
    ) -> Result<Draft, AllocError>
        requires least_member { 1 ≤ member }
        requires most_member { member ≤ most_members }
        requires least { 1 ≤ position }
        requires most { position ≤ positions }
        ensures change { IfOk result (λ d. d.change ≡ change_of self.old (AcceptedBy member position vote.now)) }
        ensures news { IfOk result (λ d. d.news ≡ positions_of d.change) }
        ensures newly { IfOk result (λ d. (heard : List Heard) → HasHeard heard self.old → d.news ≡ news_at self.old.members (AcceptedBy member position vote.now) heard) }
        ensures rising { IfOk result (λ d. IsRising 1 d.news) }
        ensures room { IfOk result (λ d. HasRoom self.new d.change) }
        ensures due { IfOk result (λ d. IsDue d.change) }
        ensures same { IsAsWas self.old self.new }
    {
        self.forget_rooms();
        // What is chosen stays chosen, so a vote more tells nothing, and is not counted.
        if self.chosen.get(position).is_some() {
            return Ok(Draft {
                change: Change::Nothing,
                news: Vec::new(alloc),
            });
        }
        let mask = mask_with(self.tallies.mask_of(position, vote), member);
        if self.members.is_majority(mask) {
            return draft_learnt(alloc, &mut self.chosen, position, &vote.value);
        }
        let copy = vote.clone()?;
        self.tallies.reserve(alloc, position, vote)?;
        Ok(Draft {
            change: Change::Counts(member, position, copy),
            news: Vec::new(alloc),
        })
    }

    /// What `on_chosen` is about to change, with the room that it takes. Nothing that shows has changed.
    ///
    /// It takes away the room that an earlier draft has left. It fails where memory is refused.
    pub fn draft_chosen(&mut self, alloc: Global, pairs: &[Pair]) -> Result<Draft, AllocError>
        requires rising { AreAbove 0 pairs.now }
        requires most { All (λ e. e.position ≤ positions) pairs.now }
        ensures change { IfOk result (λ d. d.change ≡ change_of self.old (ChosenAre pairs.now)) }
        ensures news { IfOk result (λ d. d.news ≡ positions_of d.change) }
        ensures newly { IfOk result (λ d. (heard : List Heard) → HasHeard heard self.old → d.news ≡ news_at self.old.members (ChosenAre pairs.now) heard) }
        ensures rising { IfOk result (λ d. IsRising 1 d.news) }
        ensures room { IfOk result (λ d. HasRoom self.new d.change) }
        ensures due { IfOk result (λ d. IsDue d.change) }
        ensures same { IsAsWas self.old self.new }
    {
        self.forget_rooms();
        draft_pairs(alloc, &mut self.chosen, pairs)
    }

    /// Makes the change of a draft that this learner made, and has not changed since. Gives the positions that are learnt by it.
    ///
    /// It takes no memory.
    pub fn commit(&mut self, draft: Draft) -> Vec<u32>
        requires room { HasRoom self.old draft.change }
        requires due { IsDue draft.change }
        ensures news { result.items ≡ draft.news }
        ensures changed { IsChanged self.old draft.change self.new }
        ensures heard { (heard : List Heard) (h : Heard) → HasHeard heard self.old → draft.change ≡ change_of self.old h → HasHeard (h ∷ heard) self.new }
        ensures members { self.new.members ≡ self.old.members }
    {
        let Draft { change, news } = draft;
        match change {
            Change::Nothing => {}
            Change::Counts(member, position, vote) => self.tallies.count(member, position, &vote),
            Change::Learns(pairs) => learn(&mut self.chosen, &mut self.tallies, pairs),
        }
        news
    }

    /// Takes away the room that a draft has left.
    fn forget_rooms(&mut self)
        ensures same { IsAsWas self.old self.new }
        ensures full { (q : ℕ) → HasSlot q self.new.slots → IsSome (value_in q (filled self.new.slots)) }
    {
        self.chosen.forget_rooms();
        self.tallies.forget_room();
    }
}

/// Copies of values, at the positions from 1 on.
///
/// It fails where memory is refused.
#[tactic(auto, unfolding(ballots::specs::Values::positions))]
fn placed(alloc: Global, values: &[Value]) -> Result<PositionMap<Value>, AllocError>
    requires few { length values.now ≤ positions }
    ensures placed { IfOk result (λ m. (q : ℕ) → value_at q (pairs_of (filled m)) ≡ value_at q (numbered 1 values.now)) }
    ensures within { IfOk result AreWithin }
{
    let mut chosen = PositionMap::new(alloc);
    let mut position = 0;
    for value in values {
        position += 1;
        chosen.reserve(position)?;
        chosen.fill(position, value.clone()?);
    }
    Ok(chosen)
}

/// A draft that learns one value, with room for it.
fn draft_learnt(
    alloc: Global,
    chosen: &mut PositionMap<Value>,
    position: u32,
    value: &Value,
) -> Result<Draft, AllocError>
    requires least { 1 ≤ position }
    requires most { position ≤ positions }
    ensures change { IfOk result (λ d. d.change ≡ Learns (pair_of position value.now ∷ [])) }
    ensures news { IfOk result (λ d. d.news ≡ positions_of d.change) }
    ensures room { OnOk result (HasSlot position chosen.new) }
    ensures same { filled chosen.new ≡ filled chosen.old }
{
    let mut news = Vec::new(alloc);
    news.push(position)?;
    let mut pairs = Vec::new(alloc);
    pairs.push(Pair {
        position,
        value: value.clone()?,
    })?;
    chosen.reserve(position)?;
    Ok(Draft {
        change: Change::Learns(pairs),
        news,
    })
}

/// A draft that learns the pairs whose positions are not learnt, with room for them.
fn draft_pairs(
    alloc: Global,
    chosen: &mut PositionMap<Value>,
    pairs: &[Pair],
) -> Result<Draft, AllocError>
    requires places { All (λ e. IsPosition e.position) pairs.now }
    ensures change { IfOk result (λ d. d.change ≡ Learns (not_learnt (pairs_of (filled chosen.old)) pairs.now)) }
    ensures news { IfOk result (λ d. d.news ≡ positions_of d.change) }
    ensures room { IfOk result (λ d. All (λ e. HasSlot e.position chosen.new) (not_learnt (pairs_of (filled chosen.old)) pairs.now)) }
    ensures same { filled chosen.new ≡ filled chosen.old }
{
    let mut learnt = Vec::new(alloc);
    let mut news = Vec::new(alloc);
    for pair in pairs {
        draft_pair(chosen, pair, &mut learnt, &mut news)?;
    }
    Ok(Draft {
        change: Change::Learns(learnt),
        news,
    })
}

/// Adds a pair to those that are to be learnt, with room for it, if its position is not learnt.
fn draft_pair(
    chosen: &mut PositionMap<Value>,
    pair: &Pair,
    learnt: &mut Vec<Pair>,
    news: &mut Vec<u32>,
) -> Result<(), AllocError>
    requires least { 1 ≤ pair.now.position }
    ensures pairs { OnOk result (learnt.new.items ≡ learnt.old.items ++ not_learnt (pairs_of (filled chosen.old)) (pair.now ∷ [])) }
    ensures news { OnOk result (news.new.items ≡ news.old.items ++ positions_in (not_learnt (pairs_of (filled chosen.old)) (pair.now ∷ []))) }
    ensures room { OnOk result (All (λ e. HasSlot e.position chosen.new) (not_learnt (pairs_of (filled chosen.old)) (pair.now ∷ []))) }
    ensures others { (q : ℕ) → HasSlot q chosen.old → HasSlot q chosen.new }
    ensures same { filled chosen.new ≡ filled chosen.old }
{
    if chosen.get(pair.position).is_some() {
        return Ok(());
    }
    let copy = pair.clone()?;
    chosen.reserve(pair.position)?;
    learnt.push(copy)?;
    news.push(pair.position)?;
    Ok(())
}

/// Learns pairs, and drops the tallies of their positions.
///
/// The last goes first: of two pairs of one position the first would count.
fn learn(chosen: &mut PositionMap<Value>, tallies: &mut Tallies, mut pairs: Vec<Pair>)
    requires room { All (λ e. HasSlot e.position chosen.old) pairs.items }
    requires places { All (λ e. IsPosition e.position) pairs.items }
    ensures learnt { (q : ℕ) → value_at q (pairs_of (filled chosen.new)) ≡ first (value_at q pairs.items) (value_at q (pairs_of (filled chosen.old))) }
    ensures forgotten { AreForgotten pairs.items (open_in tallies.old) (open_in tallies.new) }
    ensures within { AreWithin chosen.old → AreWithin chosen.new }
{
    while let Some(pair) = pairs.pop() {
        chosen.fill(pair.position, pair.value);
        tallies.forget(pair.position);
    }
}
