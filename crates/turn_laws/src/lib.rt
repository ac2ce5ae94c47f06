//! Turns of several steps whose writes are made in one: the laws of the protocol hold of them as they stand.
//!
//! Nothing here runs.
#![tactic(auto)]

ghost use Rattle.std.specs.Prelude.{◌≡◌, ℕ, List, [], ◌∷◌};
ghost use Rattle.paxos.specs.Agreement.{Agreement};
ghost use Rattle.paxos.specs.Application.{Application};
ghost use Rattle.paxos.specs.World.{World, Happening, happens, run, start};
ghost use Rattle.turn_laws.specs.Turns.{Acknowledged, IsButForLost, Turn, run_turns};

/// A turn is a list of events, or a stop: whatever turns there were, there are events that lead to the same members, votes and told values, where
/// messages were sent beside those of the turns, all of them lost. So all that was proved of events holds of turns.
///
/// The events are those of the turns, in order. Where a member stopped in the write of a turn, and the record before it is left, it stops; where
/// the record after it is left, the steps happen, their messages are lost, and it stops.
pub fn turns_are_events()
    ensures { (app : Application) (members : ℕ) (turns : List Turn)
        → (events : List Happening) × IsButForLost (run_turns app (start members) turns) (run app (start members) events) }
{}

/// Agreement holds after every list of turns: for every number of members, and however the write of each turn ends.
pub fn turns_agree()
    ensures { (app : Application) (members : ℕ) (turns : List Turn) → Agreement (run_turns app (start members) turns) }
{}

/// An event is a turn of one step.
pub fn events_are_turns()
    ensures { (app : Application) (w : World) (m : ℕ) (step : Happening)
        → run_turns app w (record { member = m; steps = step ∷ []; ending = Acknowledged } ∷ []) ≡ happens app w step.choice step.event }
{}
