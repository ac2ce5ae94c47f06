//! What a proposer has while it leads.

ghost use Rattle.std.specs.Prelude.{◌≡◌, ◌≤◌, ◌<◌, ◌+◌, length, nat_lt, flat_map, replicate, ◌++◌, IfOk, OnOk};
ghost use Rattle.ballots.specs.Terms.{Request};
ghost use Rattle.std.specs.Option.{option_copied};
ghost use Rattle.std.specs.Vec.{vec_capacity};
ghost use Rattle.ballots.specs.Ballot.{count};
ghost use Rattle.ballots.specs.Messages.{up_to, window_of};
ghost use Rattle.ballots.specs.Values.{is_numbered, positions, IsRising, most_open};
ghost use Rattle.paxos.specs.Knowledge.{joins};
ghost use Rattle.paxos.specs.Proposing.{has_free_place, has_open, has_place, still_open};
ghost use Rattle.proposer.specs.Beginning.{is_in, IsBegun};
ghost use Rattle.proposer.specs.Knowing.{asked_of, IsAcceptOf, IsAgain};
ghost use Rattle.proposer.specs.Following.{is_followed_of};
ghost use Rattle.proposer.specs.Inside.{IsLastKnown};
ghost use Rattle.proposer.specs.Merging.{HaveRoom, HavePlaces, IsCovering, IsLearning, IsMerged, advanced, with_learnt, with_proposals, with_reports};
ghost use Rattle.proposer.specs.Taking.{CanTake, HasTaken, IsAsWas, IsSaid, Tells, left_open, view_of};
ghost use Rattle.proposer.specs.Turning.{HasGone};
ghost use Rattle.proposer.specs.Views.{AreRising};
ghost use Rattle.proposer.specs.Terms.{cover_of, is_learnt_of, proposing, report_of, turn_of};

use super::draft::News;
use super::reported::{learn_all, merge_all, positions_known, reserve_entries, reserve_positions};
use super::sends::{Asked, Sends};
use super::view::{Made, View};
use ballots::limits::{MOST_OPEN, POSITIONS};
use ballots::{Ballot, Entry, Members, Pair, Value, Vote, Window};
use position_map::PositionMap;
use std::alloc::{AllocError, Global};
use std::marker::Model;

/// What a proposer has while it leads.
#[derive(Drop)]
pub(super) struct Lead {
    pub(super) ballot: Ballot,
    /// The positions up to this one were learnt when it began.
    base: u32,
    /// The next position to propose at.
    next: u32,
    /// The open proposals, by rising position.
    proposals: Vec<Pair>,
    /// How far each member's windows cover, member 1's first.
    covers: Vec<u32>,
    /// The highest votes reported, from the next position on.
    reports: PositionMap<Vote>,
    /// The learnt positions, from the next position on.
    learnt: PositionMap<()>,
}

impl Model for Lead {
    ghost use Rattle.proposer.specs.Terms.{Leading, leading_code};

    ghost Value = { Leading };

    ghost coded = { leading_code };

    ghost view = { λ l. record {
      ballot = l.ballot;
      base = l.base;
      next = l.next;
      proposals = l.proposals.items;
      covers = l.covers.items;
      reports = l.reports;
      learnt = l.learnt;
    } };

    ghost use Rattle.std.specs.Prelude.{◌≤◌, length};
    ghost use Rattle.std.specs.Vec.{vec_capacity};
    ghost use Rattle.proposer.specs.Inside.{IsWithin};
    ghost use Rattle.ballots.specs.Values.{most_open};

    ghost invariant = { λ l. (1 ≤ l.next) × (length l.proposals.items ≤ most_open) × (most_open ≤ vec_capacity l.proposals) × IsWithin l.reports × IsWithin l.learnt };
}

impl Lead {
    /// A leader of a ballot that begins at a position, where these positions from there on are learnt.
    ///
    /// It fails where memory is refused.
    pub(super) fn begin(
        alloc: Global,
        members: Members,
        ballot: Ballot,
        from: u32,
        learnt: &[u32],
    ) -> Result<Lead, AllocError>
        requires least { 1 ≤ from }
        requires rising { IsRising from learnt.now }
        ensures { IfOk result (λ l. IsBegun members ballot from learnt.now l) }
    {
        Ok(Lead {
            ballot,
            base: from - 1,
            next: from,
            proposals: Vec::with_capacity(alloc, MOST_OPEN)?,
            covers: same_covers(alloc, members, from - 1)?,
            reports: PositionMap::new(alloc),
            learnt: positions_known(alloc, learnt)?,
        })
    }

    /// How far a member's windows cover.
    pub(super) fn cover(&self, member: u8) -> u32
        requires least { 1 ≤ member }
        ensures { result ≡ cover_of self.now member }
    {
        match self.covers.get(usize::from(member) - 1) {
            Some(cover) => *cover,
            None => self.base,
        }
    }

    /// Takes in reported votes: of two at a position the one of the higher ballot stays. It takes no memory.
    pub(super) fn merge(&mut self, entries: Vec<Entry>)
        requires rising { AreRising 1 entries.items }
        requires room { HaveRoom entries.items self.old.reports }
        ensures same { self.new ≡ with_reports self.new.reports self.old }
        ensures merged { IsMerged entries.items self.old.reports self.new.reports }
    {
        merge_all(&mut self.reports, entries);
    }

    /// Takes in learnt positions. It takes no memory.
    pub(super) fn learn(&mut self, learnt: &[u32])
        requires rising { IsRising 1 learnt.now }
        requires room { HavePlaces learnt.now self.old.learnt }
        ensures same { self.new ≡ with_learnt self.new.learnt self.old }
        ensures learning { IsLearning learnt.now self.old.learnt self.new.learnt }
    {
        learn_all(&mut self.learnt, learnt);
    }

    /// Whether a member's window is of its ballot, leaves no gap after what that member covers, and covers more.
    pub(super) fn joins(&self, sender: u8, window: &Window) -> bool
        requires least { 1 ≤ sender }
        ensures { result ≡ joins self.now.ballot (cover_of self.now sender) (window_of window.now) }
    {
        let cover = self.cover(sender);
        self.ballot.round == window.ballot.round
            && self.ballot.member == window.ballot.member
            && u64::from(window.from) <= u64::from(cover) + 1
            && cover < window.covered
    }

    #[tactic(auto, unfolding(ballots::specs::Values::positions))]
    /// What it sends once it took in what a message told: a member that promised is asked on, and what was proposed goes to all.
    ///
    /// It fails where memory is refused.
    pub(super) fn sends_of(&self, alloc: Global, news: &News) -> Result<Sends, AllocError>
        ensures { IfOk result (λ s. IsSaid self.now news.now s) }
    {
        let mut prepares = Vec::new(alloc);
        if news.member > 0 && news.covered < POSITIONS {
            prepares.push(Asked {
                member: news.member,
                from: news.covered + 1,
            })?;
        }
        Ok(Sends {
            ballot: self.ballot,
            prepares,
            accepts: news.made.proposals.clone()?,
        })
    }

    /// What a message tells, with room for it, and what proposing comes to then. Nothing but room changes.
    ///
    /// It fails where memory is refused.
    pub(super) fn news(
        &mut self,
        alloc: Global,
        members: Members,
        member: u8,
        covered: u32,
        entries: Vec<Entry>,
        learnt: Vec<u32>,
    ) -> Result<News, AllocError>
        requires entries { AreRising 1 entries.items }
        requires learnt { IsRising 1 learnt.items }
        requires member { member ≤ length self.old.covers }
        ensures same { IsAsWas self.old self.new }
        ensures next { OnOk result (1 ≤ self.new.next) }
        ensures told { IfOk result (λ n. Tells member covered entries.items learnt.items n) }
        ensures gone { IfOk result (λ n. HasGone members (view_of self.new n) (left_open self.new n) self.new.next n.made) }
        ensures ready { IfOk result (λ n. CanTake self.new n) }
    {
        // Room comes first, so that taking the news cannot be refused any more.
        self.make_room(&entries, &learnt)?;
        let waiting = self.left_open(&learnt);
        let from = self.next;
        let view = View {
            lead: self,
            member,
            covered,
            entries: &entries,
            learnt: &learnt,
        };
        let made = view.go_on(alloc, members, waiting, from)?;
        Ok(News {
            member,
            covered,
            entries,
            learnt,
            made,
        })
    }

    /// Makes room for votes and learnt positions, and takes away the room that an earlier draft has left.
    fn make_room(&mut self, entries: &[Entry], learnt: &[u32]) -> Result<(), AllocError>
        requires entries { AreRising 1 entries.now }
        requires learnt { IsRising 1 learnt.now }
        ensures same { IsAsWas self.old self.new }
        ensures room { OnOk result (HaveRoom entries.now self.new.reports) }
        ensures places { OnOk result (HavePlaces learnt.now self.new.learnt) }
    {
        self.reports.forget_rooms();
        self.learnt.forget_rooms();
        reserve_entries(&mut self.reports, entries)?;
        reserve_positions(&mut self.learnt, learnt)
    }

    /// How many proposals are open once these positions are learnt.
    fn left_open(&self, learnt: &[u32]) -> usize
        ensures count { result ≡ length (still_open (λ p. is_in p learnt.now) self.now.proposals) }
        ensures most { result ≤ most_open }
    {
        let mut open_ones = 0;
        for proposal in &self.proposals {
            if !is_among(learnt, proposal.position) {
                open_ones += 1;
            }
        }
        open_ones
    }

    /// Takes in what a message told, closes proposals and goes on to what proposing came to. It takes no memory.
    pub(super) fn take(&mut self, news: News)
        requires ready { CanTake self.old news }
        ensures { HasTaken self.old news self.new }
    {
        let News {
            member,
            covered,
            entries,
            learnt,
            made,
        } = news;
        if member > 0 {
            self.cover_to(member, covered);
        }
        self.merge(entries);
        self.learn(&learnt);
        self.close(&learnt);
        self.advance(made);
    }

    /// A member's windows cover this far.
    pub(super) fn cover_to(&mut self, member: u8, covered: u32)
        requires least { 1 ≤ member }
        requires there { member ≤ length self.old.covers }
        ensures { IsCovering member covered self.old self.new }
    {
        self.covers[usize::from(member) - 1] = covered;
    }

    /// Closes the proposals at learnt positions.
    pub(super) fn close(&mut self, learnt: &[u32])
        ensures { self.new ≡ with_proposals (still_open (λ p. is_in p learnt.now) self.old.proposals) self.old }
    {
        close_all(&mut self.proposals, learnt);
    }

    /// Goes on to what proposing came to. It takes no memory.
    pub(super) fn advance(&mut self, made: Made)
        requires least { 1 ≤ made.next }
        requires most { length self.old.proposals + length made.proposals.items ≤ most_open }
        ensures { self.new ≡ advanced made.next made.proposals.items self.old }
    {
        let Made {
            next,
            mut proposals,
        } = made;
        // There is room for 16 from the start.
        if self.proposals.append(&mut proposals).is_ok() {
            self.next = next;
        }
    }

    #[tactic(auto, unfolding(ballots::specs::Values::positions))]
    /// Proposes a value at the next position. It takes no memory.
    pub(super) fn propose(&mut self, value: Value)
        requires fewer { length self.old.proposals < most_open }
        requires most { self.old.next ≤ positions }
        ensures { self.new ≡ proposing value self.old }
    {
        let pair = Pair {
            position: self.next,
            value,
        };
        // There is room for 16 from the start.
        if self.proposals.push(pair).is_ok() {
            self.next += 1;
        }
    }

    /// The Accept of a value at the next position.
    ///
    /// It fails where memory is refused.
    pub(super) fn accept_next(&self, alloc: Global, value: Value) -> Result<Sends, AllocError>
        ensures { IfOk result (λ s. IsAcceptOf value self.now s) }
    {
        let mut accepts = Vec::new(alloc);
        accepts.push(Pair {
            position: self.next,
            value,
        })?;
        Ok(Sends {
            ballot: self.ballot,
            prepares: Vec::new(alloc),
            accepts,
        })
    }

    /// Whether a request finds a place: fewer than 16 proposals are open, a majority covers the next position, and nothing is
    /// reported or learnt there or above.
    pub(super) fn has_free_place(&self, members: Members) -> bool
        ensures place { result ≡ has_free_place members (cover_of self.now) (report_of self.now) (is_learnt_of self.now) (turn_of self.now) }
        ensures least { 1 ≤ self.now.next }
    {
        self.has_place(members) && self.last_known() < self.next
    }

    /// Whether fewer than 16 proposals are open, and a majority covers the next position.
    fn has_place(&self, members: Members) -> bool
        ensures { result ≡ has_place members (cover_of self.now) (turn_of self.now) }
    {
        let untold = View {
            lead: self,
            member: 0,
            covered: 0,
            entries: &[],
            learnt: &[],
        };
        untold.has_place(members, self.proposals.len(), self.next)
    }

    /// The highest vote reported at a position.
    pub(super) fn report(&self, position: u32) -> Option<&Vote>
        ensures { option_copied result ≡ report_of self.now position }
    {
        self.reports.get(position)
    }

    /// Whether a position is learnt.
    pub(super) fn is_learnt(&self, position: u32) -> bool
        ensures { result ≡ is_learnt_of self.now position }
    {
        self.learnt.get(position).is_some()
    }

    /// The last position that has a report or is learnt, 0 where there is none.
    pub(super) fn last_known(&self) -> u32
        ensures { IsLastKnown self.now result }
    {
        let reported = self.reports.last().unwrap_or(0);
        let learnt = self.learnt.last().unwrap_or(0);
        reported.max(learnt)
    }

    /// All that it says again: its open proposals, and a Prepare to each member that is not covered to the end.
    ///
    /// It fails where memory is refused.
    pub(super) fn say_again(&self, alloc: Global, members: Members) -> Result<Sends, AllocError>
        ensures { IfOk result (λ s. IsAgain members self.now s) }
    {
        Ok(Sends {
            ballot: self.ballot,
            prepares: self.ask_on(alloc, members)?,
            accepts: self.proposals.clone()?,
        })
    }

    /// A Prepare to each member that is not covered to the end.
    fn ask_on(&self, alloc: Global, members: Members) -> Result<Vec<Asked>, AllocError>
        ensures { IfOk result (λ v. v.items ≡ flat_map (asked_of self.now) (up_to members)) }
    {
        let mut prepares = Vec::new(alloc);
        for before in 0..members.count() {
            self.ask_member(&mut prepares, before + 1)?;
        }
        Ok(prepares)
    }

    #[tactic(auto, unfolding(ballots::specs::Values::positions))]
    /// Adds a Prepare to a member, if it is not covered to the end.
    fn ask_member(&self, prepares: &mut Vec<Asked>, member: u8) -> Result<(), AllocError>
        requires least { 1 ≤ member }
        ensures { OnOk result (prepares.new.items ≡ prepares.old.items ++ asked_of self.now member) }
    {
        let cover = self.cover(member);
        if cover < POSITIONS {
            prepares.push(Asked {
                member,
                from: cover + 1,
            })?;
        }
        Ok(())
    }

    /// Whether a majority of the members has promised its ballot.
    pub(super) fn is_followed(&self, members: Members) -> bool
        ensures { result ≡ is_followed_of members self.now }
    {
        2 * self.followers(members) > members.count()
    }

    /// How many members have promised its ballot: their windows cover more than was learnt when it began.
    fn followers(&self, members: Members) -> u8
        ensures count { result ≡ count members (λ m. nat_lt self.now.base (cover_of self.now m)) }
        ensures most { result ≤ members }
    {
        let mut found = 0;
        for before in 0..members.count() {
            if self.base < self.cover(before + 1) {
                found += 1;
            }
        }
        found
    }

    /// Whether a request of this client and number is open.
    pub(super) fn has_open(&self, client: u32, number: u64) -> bool
        ensures { (q : Request) → q.client ≡ client → q.number ≡ number → result ≡ has_open q self.now.proposals }
    {
        for proposal in &self.proposals {
            if is_numbered(&proposal.value, client, number) {
                return true;
            }
        }
        false
    }
}

/// As many covers as there are members, all the same.
fn same_covers(alloc: Global, members: Members, cover: u32) -> Result<Vec<u32>, AllocError>
    ensures { IfOk result (λ v. v.items ≡ replicate members cover) }
{
    let mut covers = Vec::new(alloc);
    for _member in 0..members.count() {
        covers.push(cover)?;
    }
    Ok(covers)
}

/// Whether a value is a request of this client and number.
fn is_numbered(value: &Value, client: u32, number: u64) -> bool
    ensures { (q : Request) → q.client ≡ client → q.number ≡ number → result ≡ is_numbered q value.now }
{
    match value {
        Value::NoOp => false,
        Value::Request(request) => request.id().client == client && request.id().number == number,
    }
}

/// Closes the proposals at learnt positions.
fn close_all(proposals: &mut Vec<Pair>, learnt: &[u32])
    ensures kept { proposals.new.items ≡ still_open (λ p. is_in p learnt.now) proposals.old.items }
    ensures fewer { length proposals.new.items ≤ length proposals.old.items }
    ensures capacity { vec_capacity proposals.old ≤ vec_capacity proposals.new }
{
    let mut index = 0;
    while index < proposals.len() {
        if is_among(learnt, proposals[index].position) {
            proposals.remove(index);
        } else {
            index += 1;
        }
    }
}

/// Whether a position is among these.
pub(super) fn is_among(positions: &[u32], position: u32) -> bool
    ensures { result ≡ is_in position positions.now }
{
    positions.contains(&position)
}

/// A copy of entries.
///
/// It fails where memory is refused.
pub(super) fn copy_entries(entries: &Vec<Entry>) -> Result<Vec<Entry>, AllocError>
    ensures { IfOk result (λ v. v.items ≡ entries.now.items) }
{
    entries.clone()
}
