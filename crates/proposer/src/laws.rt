//! A law of what a proposer knows.

ghost use Rattle.std.specs.Prelude.{◌≡◌, List, [], ◌∷◌, Option};
ghost use Rattle.ballots.specs.Messages.{Packet};
ghost use Rattle.paxos.specs.Knowledge.{news_of, promised_of};
ghost use Rattle.paxos.specs.Step.{Leader};
ghost use Rattle.proposer.specs.Knowing.{Knows};
ghost use Rattle.proposer.specs.Terms.{Proposer};

/// A message that promises nothing and tells nothing leaves what a proposer knows.
pub fn unmoved()
    ensures { (heard : List Packet) (leader : Option Leader) (x : Proposer) (k : Packet) → news_of k.sender k.body ≡ [] → promised_of k.sender k.body ≡ []
        → Knows heard leader x → Knows (k ∷ heard) leader x }
{}
