//! Events that name members of a world.

ghost use Rattle.std.specs.Prelude.{◌≡◌};
ghost use Rattle.std.specs.List.{list_all};
ghost use Rattle.events.specs.Events.{is_for};

use ballots::Members;
use events::Event;

/// Whether each member that the events name is one of so many.
pub(super) fn are_for(members: Members, events: &[Event]) -> bool
    ensures { result ≡ list_all (is_for members) events.now }
{
    for event in events {
        if !event.is_for(members) {
            return false;
        }
    }
    true
}
