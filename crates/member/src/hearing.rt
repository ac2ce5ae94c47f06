//! Which messages may come to a member.

ghost use Rattle.std.specs.Prelude.{◌≡◌, ◌≤◌, ◌⊎◌, ◌↔◌, ◌∷◌, [], true, length, IsTrue};
ghost use Rattle.ballots.specs.Ballot.{IsBallotOf};
ghost use Rattle.ballots.specs.Messages.{body_of, packet, window_of};
ghost use Rattle.ballots.specs.Values.{positions, most_entries};
ghost use Rattle.paxos.specs.WellFormed.{ArePairs, AreVotes, IsBody, IsSender, IsWindow, last_position};
ghost use Rattle.member.specs.Steps.{Hears, IsHeard, IsNoQuestion};

use ballots::limits::{MOST_ENTRIES, POSITIONS, is_position};
use ballots::{Ballot, Entry, Members, Message, Pair, Window};

/// Whether a ballot is one of the members'.
fn is_ballot(members: Members, ballot: Ballot) -> bool
    ensures { IsTrue result ↔ IsBallotOf members ballot }
{
    ballot.is_of(u32::from(members.count()))
}

/// Whether a vote stands between two positions, of a ballot that is not above the promise.
fn is_vote(members: Members, promise: Ballot, least: u32, most: u32, entry: &Entry) -> bool
    ensures sound { result ≡ true → AreVotes members promise least most (entry.now ∷ []) }
    ensures complete { AreVotes members promise least most (entry.now ∷ []) → result ≡ true }
{
    least <= entry.position
        && entry.position <= most
        && is_ballot(members, entry.vote.ballot)
        && !promise.is_below(entry.vote.ballot)
}

/// Whether votes rise between two positions, of ballots that are not above the promise.
#[tactic(auto, unfolding(ballots::specs::Values::positions))]
fn are_votes(members: Members, promise: Ballot, least: u32, most: u32, entries: &[Entry]) -> bool
    requires most { most ≤ positions }
    ensures sound { result ≡ true → AreVotes members promise least most entries.now }
    ensures complete { AreVotes members promise least most entries.now → result ≡ true }
{
    match entries.split_first() {
        None => true,
        Some((entry, others)) => {
            is_vote(members, promise, least, most, entry)
                && are_votes(members, promise, entry.position + 1, most, others)
        }
    }
}

/// The position of the last vote, or this one where there is none.
fn last_position(position: u32, entries: &[Entry]) -> u32
    ensures { result ≡ last_position position entries.now }
{
    match entries.split_first() {
        None => position,
        Some((entry, others)) => last_position(entry.position, others),
    }
}

/// Whether a window ends with the last position, or with the last of 8 votes.
#[tactic(auto, unfolding(ballots::specs::Values::positions))]
fn ends(window: &Window) -> bool
    ensures sound { result ≡ true → (window.now.covered ≡ positions) ⊎ ((length window.now.entries.items ≡ most_entries) × (last_position 0 window.now.entries.items ≡ window.now.covered)) }
    ensures complete { (window.now.covered ≡ positions) ⊎ ((length window.now.entries.items ≡ most_entries) × (last_position 0 window.now.entries.items ≡ window.now.covered)) → result ≡ true }
{
    window.covered == POSITIONS
        || window.entries.len() == MOST_ENTRIES
            && last_position(0, &window.entries) == window.covered
}

/// Whether a member may promise a window.
#[tactic(auto, unfolding(ballots::specs::Values::positions))]
fn is_window(members: Members, window: &Window) -> bool
    ensures sound { result ≡ true → IsWindow members (window_of window.now) }
    ensures complete { IsWindow members (window_of window.now) → result ≡ true }
{
    is_ballot(members, window.ballot)
        && 1 <= window.from
        && window.from <= window.covered
        && window.covered <= POSITIONS
        && window.entries.len() <= MOST_ENTRIES
        && are_votes(
            members,
            window.ballot,
            window.from,
            window.covered,
            &window.entries,
        )
        && ends(window)
}

/// Whether values stand at positions that rise from one on.
#[tactic(auto, unfolding(ballots::specs::Values::positions))]
fn are_pairs(least: u32, pairs: &[Pair]) -> bool
    ensures sound { result ≡ true → ArePairs least pairs.now }
    ensures complete { ArePairs least pairs.now → result ≡ true }
{
    match pairs.split_first() {
        None => true,
        Some((pair, others)) => {
            least <= pair.position
                && pair.position <= POSITIONS
                && are_pairs(pair.position + 1, others)
        }
    }
}

/// Whether one message may tell the values.
fn is_chosen(pairs: &[Pair]) -> bool
    ensures sound { result ≡ true → ArePairs 1 pairs.now × (1 ≤ length pairs.now) × (length pairs.now ≤ most_entries) }
    ensures complete { ArePairs 1 pairs.now × (1 ≤ length pairs.now) × (length pairs.now ≤ most_entries) → result ≡ true }
{
    1 <= pairs.len() && pairs.len() <= MOST_ENTRIES && are_pairs(1, pairs)
}

/// Whether a message says what may be said, and asks no question.
fn is_body(members: Members, message: &Message) -> bool
    ensures sound { result ≡ true → IsBody members (body_of message.now) × IsNoQuestion (body_of message.now) }
    ensures complete { IsBody members (body_of message.now) → IsNoQuestion (body_of message.now) → result ≡ true }
{
    match message {
        Message::Prepare(ballot, from) => is_ballot(members, *ballot) && is_position(*from),
        Message::Promise(window) => is_window(members, window),
        Message::Accept(position, vote) => {
            is_position(*position) && is_ballot(members, vote.ballot)
        }
        Message::Accepted(position, vote) => {
            is_position(*position) && is_ballot(members, vote.ballot)
        }
        Message::Chosen(pairs) => is_chosen(pairs),
        Message::CatchUp(from) => is_position(*from),
        Message::Elsewhere(_, _, member) => *member <= members.count(),
        Message::Ask(_) => false,
        Message::Submit(_)
        | Message::Reply(_, _, _)
        | Message::Answer(_, _, _, _)
        | Message::Behind(_, _, _) => true,
    }
}

/// Whether one of the members, or the clients (0), may say it: a ballot is asked for and proposed under by its own member alone.
fn is_sender(members: Members, sender: u8, message: &Message) -> bool
    ensures sound { result ≡ true → IsSender members sender (body_of message.now) }
    ensures complete { IsSender members sender (body_of message.now) → result ≡ true }
{
    match message {
        Message::Prepare(ballot, _) => sender == ballot.member,
        Message::Accept(_, vote) => sender == vote.ballot.member,
        Message::Submit(_) => sender == 0,
        Message::Ask(_) => sender == 0,
        _ => 1 <= sender && sender <= members.count(),
    }
}

/// Whether a message may come from that sender to one of the members.
pub(super) fn may_come(members: Members, sender: u8, target: u8, message: &Message) -> bool
    requires most { target ≤ members }
    ensures sound { result ≡ true → IsHeard members (Hears (packet sender (body_of message.now) target)) }
    ensures complete { IsHeard members (Hears (packet sender (body_of message.now) target)) → result ≡ true }
{
    is_sender(members, sender, message) && is_body(members, message)
}
