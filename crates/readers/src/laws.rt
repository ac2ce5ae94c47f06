//! What readers see of a world.

ghost use Rattle.std.specs.Prelude.{◌≡◌, ℕ, List, length};
ghost use Rattle.ballots.specs.declared.value.Value.{Value as ValueTerm};
ghost use Rattle.paxos.specs.Agreement.{IsRunning};
ghost use Rattle.paxos.specs.Application.{Application as Meaning};
ghost use Rattle.paxos.specs.Knowledge.{news, prefix};
ghost use Rattle.paxos.specs.Lists.{Has};
ghost use Rattle.paxos.specs.Step.{Running, values_of};
ghost use Rattle.paxos.specs.World.{World, Event, Run, start};
ghost use Rattle.published.specs.Histories.{Happened};
ghost use Rattle.published.specs.Stores.{Store as StoreTerm, handed_on};
ghost use Rattle.readers.specs.Chosen.{AreChosen};
ghost use Rattle.sight.specs.Sights.{IsSight};

/// A law: in a world of any number of members, after any list of events, whatever is seen of the store of a member that runs there are the
/// values chosen at the positions from 1 on, in their order: what its readers have seen, what boards show and what notes carry.
///
/// A site hands on a beginning of what its member has applied (`Turns`), which are positions that it has learnt (`RunsAs`).
pub fn every_sight_is_chosen()
    ensures { (app : Meaning) (members : ℕ) (events : List Event) (w : World) → Run app (start members) events w
        → (member : ℕ) (u : Running) → IsRunning w member u
        → (store : StoreTerm) (seen : List (List ValueTerm)) → Happened store seen → IsSight (handed_on store) (values_of (length w.members) u)
        → (sight : List ValueTerm) → Has seen sight → AreChosen w sight }
{}
