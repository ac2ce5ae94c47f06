//! Several writes of an acceptor's record in one.

ghost use Rattle.std.specs.Prelude.{◌≡◌, ◌≤◌, [], false, IsOk};
ghost use Rattle.paxos.specs.Records.{Record as RecordTerm};
ghost use Rattle.records.specs.Group.{AreWrites, GoTogether, MayBeWritten, after};
ghost use Rattle.records.specs.Law.{Counts, Puts};

use super::records::{Records, RecordsFault};
use ballots::{Ballot, Value, Vote};
use std::alloc::Global;

/// One write of a record. A vote is written together with the promise of its ballot.
#[derive(Drop)]
pub enum Write {
    /// A ballot is promised.
    Promise(Ballot),
    /// A vote at a position.
    Vote(u32, Vote),
    /// A value is kept as learnt at a position, the first one past those that are kept.
    Learnt(u32, Value),
}

/// Records that acknowledge several writes at once.
pub trait GroupRecords: Records {
    /// Acknowledges several writes in their order, all of them or none: each may be written over the record after those before it.
    ///
    /// After an `Ok` every crash leaves the record after all of them; after a failure of the store that one or the record before the
    /// first, and `failures` has grown by one; after want of memory the old one. No writes are no write, and an `Ok`.
    fn put_all(&mut self, alloc: Global, writes: &[Write]) -> Result<(), RecordsFault>
        requires writes { AreWrites writes.now }
        requires due { Self.is_kept self.old → (last : RecordTerm) × Self.stands self.old last last × MayBeWritten writes.now last }
        ensures law { Self.is_kept self.new → (last : RecordTerm) → Self.stands self.old last last
            → Puts (Self.stands self.new) last (after writes.now last) result }
        ensures goes { Self.is_kept self.new → (last : RecordTerm) → Self.stands self.old last last
            → GoTogether (Self.stands self.new) (Self.fates self.old) (Self.fates self.new) (Self.passes self.old) last writes.now result }
        ensures kept { Self.is_kept self.new → Self.is_kept self.old }
        ensures counts { Counts (Self.failed self.old) (Self.failed self.new) result }
        ensures passes { Self.passes self.new ≡ false }
        ensures idle { writes.now ≡ [] → IsOk result };
}
