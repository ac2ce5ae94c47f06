//! What holds of all that is seen of a store.

ghost use Rattle.std.specs.Prelude.{List};
ghost use Rattle.ballots.specs.declared.value.Value.{Value as ValueTerm};
ghost use Rattle.paxos.specs.Lists.{Has};
ghost use Rattle.published.specs.Histories.{Happened};
ghost use Rattle.published.specs.Stores.{Store as StoreTerm};
ghost use Rattle.sight.specs.Sights.{IsSight};

/// A law: whatever happened to a store, and whoever saw it, each sight is a beginning of what is published. A reader's first sight, what a note
/// carries and what a board shows are sights too.
pub fn every_sight_was_published()
    ensures { (store : StoreTerm) (seen : List (List ValueTerm)) → Happened store seen → (sight : List ValueTerm) → Has seen sight → IsSight sight store.published }
{}
