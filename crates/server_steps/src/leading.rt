//! When a member that was told to lead begins a ballot.

ghost use Rattle.std.specs.Prelude.{◌≡◌, true};
ghost use Rattle.server_steps.specs.Leading.{after_pause, after_tick, is_told};

/// How many ticks pass before a member that nobody follows begins again, for the first time.
const FIRST_PAUSE: u32 = 10;

/// How many pass at most.
const LONGEST_PAUSE: u32 = 64;

/// How far the word to lead has come.
#[derive(Clone, Copy, PartialEq, Eq, Debug)]
pub(super) enum Word {
    /// None was given.
    Unsaid,
    /// It was given, and no tick has come since.
    Said,
    /// So many positions were learnt without a gap at the last tick.
    CatchingUp(u32),
    /// A ballot was begun: so many ticks are left of a pause of so many, before one begins again.
    Begun(u32, u32),
    /// The member was followed, or it has yielded to another: it does not begin again.
    Spent,
}

impl Word {
    /// What becomes of it at a tick, and whether a ballot begins now: where so many positions are learnt without a gap, where the node leads,
    /// and where it is followed.
    pub(super) fn at_tick(self, prefix: u32, leads: bool, is_followed: bool) -> (Word, bool)
        ensures said { result ≡ after_tick self prefix leads is_followed }
    {
        match self {
            Word::Unsaid => (Word::Unsaid, false),
            Word::Said => (Word::CatchingUp(prefix), false),
            Word::CatchingUp(before) => {
                // Nothing has come since the last tick: what the others tell is learnt, and no ballot need propose it once more.
                if prefix == before {
                    (Word::Begun(FIRST_PAUSE, FIRST_PAUSE), true)
                } else {
                    (Word::CatchingUp(prefix), false)
                }
            }
            Word::Begun(left, pause) => {
                // Once it was followed the word has done what it was for. Where it leads no more, another does, and two would hold each other up.
                if leads && !is_followed {
                    in_pause(left, pause)
                } else {
                    (Word::Spent, false)
                }
            }
            Word::Spent => (Word::Spent, false),
        }
    }

    /// The same, where no ballot could begin: it is as if the word were given now.
    pub(super) fn unless_begun(self, leads: bool) -> Word
        ensures told { is_told self ≡ true → is_told result ≡ true }
    {
        if leads { self } else { Word::Said }
    }
}

/// So many ticks of a pause are left, before one.
fn in_pause(left: u32, pause: u32) -> (Word, bool)
    ensures { result ≡ after_pause left pause }
{
    if left <= 1 {
        let next = pause.saturating_mul(2).min(LONGEST_PAUSE);
        (Word::Begun(next, next), true)
    } else {
        (Word::Begun(left - 1, pause), false)
    }
}
