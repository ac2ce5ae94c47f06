//! Paxos at many positions: its definitions stand in `specs`, and its laws are the contracts of functions with empty bodies.
//!
//! Nothing here runs. The members' parts (acceptor, proposer, learner) and the world that runs them cite the definitions, and so
//! get the laws.
#![tactic(auto)]

ghost use Rattle.std.specs.Prelude.{◌≡◌, ℕ, suc, ◌<◌, ◌≤◌, Bool, true, false, List, [], ◌∷◌, ◌++◌, length, take, Option, Some, None, IsSome};
ghost use Rattle.paxos.specs.Lists.{at};
ghost use Rattle.paxos.specs.Agreement.{Agreement};
ghost use Rattle.paxos.specs.Examples.{accepted_from, ballot, request, vote, no_op, votes_to, reporting, after_stop, straight, after_straight, applied_in, leader_change, gap_heard, gap_leader, gap_proposed, gap_accepted, other_request};
ghost use Rattle.paxos.specs.Knowledge.{Heard, learnt, pair_of, IsHeard, prefix, values_to, reported};
ghost use Rattle.ballots.specs.Ballot.{most_members};
ghost use Rattle.ballots.specs.Values.{positions};
ghost use Rattle.ballots.specs.declared.value.Value.{Value};
ghost use Rattle.ballots.specs.declared.value.Value.TheVariants.{NoOp, Request as Of};
ghost use Rattle.ballots.specs.declared.value.Vote.{Vote};
ghost use Rattle.ballots.specs.declared.value.Pair.{Pair};
ghost use Rattle.ballots.specs.Messages.{Promise, Packet, packet};
ghost use Rattle.paxos.specs.Application.{Application};
ghost use Rattle.paxos.specs.Proposable.{P2c};
ghost use Rattle.paxos.specs.Proposing.{turns, WentOn};
ghost use Rattle.paxos.specs.Records.{Record, window};
ghost use Rattle.paxos.specs.Step.{Running, goes_on, on_message, on_begin, on_resend, on_catch_up_tick, on_keep};
ghost use Rattle.paxos.specs.WellFormed.{IsMessage, IsState, IsStep, IsWellFormed};
ghost use Rattle.paxos.specs.World.{World, told_to, start, Event, Keep, StopInKeep, Stop, Start, Happening, run, Run};

/// No position has two chosen values; what a member has learnt, and what its record keeps as learnt, it was told, and what it was
/// told is chosen; and members that have applied as many positions have applied the same values.
///
/// This holds for every number of members and every list of events, whatever each event left open, after each beginning of the
/// list: the first `k` events.
pub fn agreement()
    ensures after_each_beginning { (app : Application) (members : ℕ) (events : List Happening) (k : ℕ)
        → Agreement (run app (start members) (take k events)) }
    ensures after_each_run { (app : Application) (members : ℕ) (events : List Event) (end : World)
        → Run app (start members) events end → Agreement end }
{}

/// Why a value may be proposed ("Paxos Made Simple", section 2.2, P2c), at each position and for each Accept that was ever sent.
///
/// A majority has promised its ballot there, and either none of it has accepted a proposal of a lower ballot, or the value is
/// that of the highest such proposal. One ballot has one value at a position.
pub fn promised_or_free()
    ensures { (app : Application) (members : ℕ) (events : List Happening) (k : ℕ)
        → P2c (run app (start members) (take k events)) }
{}

/// Each step of a member keeps what it keeps and leads well formed, and sends and tells nothing else.
///
/// This holds for all that a member of up to 63 may keep and have heard, where a message comes well formed. A ballot is asked for and proposed under by its own member alone, votes are not above the
/// promise, and a window ends with the last position or with its eighth vote.
pub fn steps_are_well_formed()
    ensures message { (app : Application) (n m : ℕ) (k : Packet) (r : Record) (u : Running)
        → 1 ≤ m → m ≤ n → n ≤ most_members
        → IsMessage n k → IsState n m r u → IsStep n m r (on_message app n m k r u) }
    ensures begin { (n m : ℕ) (r : Record) (u : Running)
        → 1 ≤ m → m ≤ n → n ≤ most_members → IsState n m r u → IsStep n m r (on_begin n m r u) }
    ensures resend { (n m : ℕ) (r : Record) (u : Running)
        → 1 ≤ m → m ≤ n → n ≤ most_members → IsState n m r u → IsStep n m r (on_resend n m u) }
    ensures catch_up { (n m : ℕ) (r : Record) (u : Running)
        → 1 ≤ m → m ≤ n → n ≤ most_members → IsState n m r u → IsStep n m r (on_catch_up_tick n m u) }
    ensures keep { (n m : ℕ) (r : Record) (u : Running)
        → 1 ≤ m → m ≤ n → n ≤ most_members → IsState n m r u → IsStep n m r (on_keep n r u) }
{}

/// All members and all messages ever sent are well formed, and no promise is on its way to a member that has not promised as
/// much.
///
/// This holds for 1 to 63 members and after every list of events, whatever each event left open; so it does after each
/// beginning of the list, which is a list too.
pub fn runs_are_well_formed()
    ensures { (app : Application) (members : ℕ) (events : List Happening)
        → 1 ≤ members → members ≤ most_members → IsWellFormed (run app (start members) events) }
{}

/// A position is learnt exactly where a majority was heard to have accepted one vote there, or its value was told as chosen; the
/// first of these gives the value. The prefix is the longest beginning without a gap.
///
/// This holds for all that a learner may have heard, whoever said it; a list has the newest first.
pub fn learning()
    ensures has_a_reason { (members : ℕ) (position : ℕ) (heard : List Heard) (value : Value)
        → learnt members position heard ≡ Some value → IsHeard members position heard value }
    ensures is_learnt { (members : ℕ) (position : ℕ) (heard : List Heard) (value : Value)
        → IsHeard members position heard value → IsSome (learnt members position heard) }
    ensures stays { (members : ℕ) (position : ℕ) (newer : List Heard) (older : List Heard) (value : Value)
        → learnt members position older ≡ Some value
        → learnt members position (newer ++ older) ≡ Some value }
    ensures prefix_learnt { (members : ℕ) (heard : List Heard) (position : ℕ)
        → 0 < position → position ≤ prefix members heard → IsSome (learnt members position heard) }
    ensures prefix_longest { (members : ℕ) (heard : List Heard)
        → prefix members heard < positions → learnt members (suc (prefix members heard)) heard ≡ None }
{}

/// Proposing goes on until it has a reason to stop; each value is proposed for its reason, and no position is passed without one.
///
/// This holds whatever the windows cover and report, whatever is learnt, and whatever was proposed before.
pub fn proposing()
    ensures { (members : ℕ) (cover : ℕ → ℕ) (report : ℕ → Option Vote) (is_learnt : ℕ → Bool)
        (next : ℕ) (proposals : List Pair) → 0 < next
        → WentOn members cover report is_learnt
        (record { next = next; proposals = proposals; made = [] })
        (turns members cover report is_learnt positions
        (record { next = next; proposals = proposals; made = [] })) }
{}

#[tactic(auto, unfolding(ballots::specs::Values::positions))]
/// Worked examples of windows: votes at 1 to 9, asked for from position 1 and from position 9.
pub fn windows_of_nine_votes()
    ensures first_eight { (window (ballot 2 2) 1 (votes_to 9)).entries ≡ votes_to 8 }
    ensures up_to_the_eighth { (window (ballot 2 2) 1 (votes_to 9)).covered ≡ 8 }
    ensures the_last { length ((window (ballot 2 2) 9 (votes_to 9)).entries) ≡ 1 }
    ensures to_the_end { (window (ballot 2 2) 9 (votes_to 9)).covered ≡ 1000000 }
{}

/// Worked examples of learning with four members: two Accepted tell nothing, the third of the same ballot tells, and those of
/// different ballots don't add up.
pub fn majority_of_four()
    ensures half { learnt 4 1 (accepted_from (ballot 1 1) (2 ∷ 1 ∷ [])) ≡ None }
    ensures repeated { learnt 4 1 (accepted_from (ballot 1 1) (2 ∷ 2 ∷ 1 ∷ [])) ≡ None }
    ensures three { learnt 4 1 (accepted_from (ballot 1 1) (3 ∷ 2 ∷ 1 ∷ [])) ≡ Some (Of request) }
    ensures two_ballots { learnt 4 1 (accepted_from (ballot 2 2) (3 ∷ []) ++ accepted_from (ballot 1 1) (2 ∷ 1 ∷ []))
        ≡ None }
{}

#[tactic(auto, unfolding(ballots::specs::Values::positions))]
/// Worked examples of reports: of two votes reported at a position the one of the higher ballot counts, whichever came first.
pub fn highest_report()
    ensures later { reported (ballot 3 3) 0 1
        (reporting 2 (no_op (ballot 2 2)) ∷ reporting 1 (vote (ballot 1 1)) ∷ [])
        ≡ Some (no_op (ballot 2 2)) }
    ensures earlier { reported (ballot 3 3) 0 1
        (reporting 1 (vote (ballot 1 1)) ∷ reporting 2 (no_op (ballot 2 2)) ∷ [])
        ≡ Some (no_op (ballot 2 2)) }
{}

/// Worked examples of a stop inside a write: the Promise after the next start reports the vote if it was kept, and none if it
/// was lost; no Accepted was sent in either.
pub fn stop_inside_a_write()
    ensures kept { at (after_stop true).sent 3
        ≡ Some (packet 2 (Promise (window (ballot 2 3) 1 (votes_to 1))) 3) }
    ensures lost { at (after_stop false).sent 3
        ≡ Some (packet 2 (Promise (window (ballot 2 3) 1 [])) 3) }
    ensures nothing_else_kept { length (after_stop true).sent ≡ 3 }
    ensures nothing_else_lost { length (after_stop false).sent ≡ 3 }
{}

/// A worked example of a run: of three members one begins, and all is delivered; a request is submitted to it, and all is
/// delivered. That takes 19 messages, and each member is told the request at position 1 and has applied it.
pub fn straight_run_of_three()
    ensures messages { length ((straight 3).sent) ≡ 19 }
    ensures told { (straight 3).told
        ≡ told_to 1 (pair_of 1 (Of request)) ∷ told_to 2 (pair_of 1 (Of request)) ∷
        told_to 3 (pair_of 1 (Of request)) ∷ [] }
    ensures applied { applied_in (straight 3) ≡ Some 1 ∷ Some 1 ∷ Some 1 ∷ [] }
{}

/// Worked examples of starts after that run: member 3 has applied position 1 at once where it kept it, without a message, and nothing where
/// it did not keep it. A stop inside the write leaves it kept or not.
pub fn kept_over_a_stop()
    ensures applied { applied_in (after_straight (Keep 3 ∷ Stop 3 ∷ Start 3 ∷ [])) ≡ Some 1 ∷ Some 1 ∷ Some 1 ∷ [] }
    ensures messages { length ((after_straight (Keep 3 ∷ Stop 3 ∷ Start 3 ∷ [])).sent) ≡ 19 }
    ensures told { (after_straight (Keep 3 ∷ Stop 3 ∷ Start 3 ∷ [])).told
        ≡ told_to 1 (pair_of 1 (Of request)) ∷ told_to 2 (pair_of 1 (Of request)) ∷
        told_to 3 (pair_of 1 (Of request)) ∷ [] }
    ensures not_kept { applied_in (after_straight (Stop 3 ∷ Start 3 ∷ [])) ≡ Some 1 ∷ Some 1 ∷ Some 0 ∷ [] }
    ensures stop_kept { applied_in (after_straight (StopInKeep 3 true ∷ Start 3 ∷ [])) ≡ Some 1 ∷ Some 1 ∷ Some 1 ∷ [] }
    ensures stop_lost { applied_in (after_straight (StopInKeep 3 false ∷ Start 3 ∷ [])) ≡ Some 1 ∷ Some 1 ∷ Some 0 ∷ [] }
{}

/// The same with four members: 29 messages, and three of four are a majority.
pub fn straight_run_of_four()
    ensures messages { length ((straight 4).sent) ≡ 29 }
    ensures told { (straight 4).told
        ≡ told_to 1 (pair_of 1 (Of request)) ∷ told_to 2 (pair_of 1 (Of request)) ∷
        told_to 3 (pair_of 1 (Of request)) ∷ told_to 4 (pair_of 1 (Of request)) ∷ [] }
    ensures applied { applied_in (straight 4) ≡ Some 1 ∷ Some 1 ∷ Some 1 ∷ Some 1 ∷ [] }
{}

/// A worked example of a leader change: the first leader's request was accepted by one member alone; the second leader hears of
/// it by that member's promise, proposes it again, and it is told.
pub fn change_of_leader()
    ensures { leader_change.told
        ≡ told_to 2 (pair_of 1 (Of request)) ∷ told_to 3 (pair_of 1 (Of request)) ∷ [] }
{}

#[tactic(auto, unfolding(ballots::specs::Values::positions))]
/// A worked example of a gap: votes are reported at 1 and 3 alone, so the no-op is proposed at 2; once all are accepted by a
/// majority, three positions are learnt without a gap, with these values.
pub fn gap_between_reports()
    ensures proposed { (goes_on 3 gap_heard gap_leader).made ≡ gap_proposed }
    ensures learnt { prefix 3 gap_accepted ≡ 3 }
    ensures values { values_to 3 gap_accepted 3 ≡ Of request ∷ NoOp ∷ Of other_request ∷ [] }
{}
