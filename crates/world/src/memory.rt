//! Worlds whose members keep their records in memory.

ghost use Rattle.std.specs.Prelude.{◌≡◌, ◌⊎◌, [], IfErr, IfOk, length};
ghost use Rattle.paxos.specs.Lists.{Has};
ghost use Rattle.paxos.specs.Records.{Record};
ghost use Rattle.paxos.specs.World.{fresh};
ghost use Rattle.world.specs.Reached.{Reached, ReachedSmoothly};

use crate::world::World;
use applications::Application;
use ballots::Members;
use document_names::Names;
use records::{MemRecords, RecordsFault};
use std::alloc::{AllocError, Global};

/// Records in memory that nobody has written, for so many members.
///
/// It fails where memory is refused.
fn stores(alloc: Global, members: Members) -> Result<Vec<MemRecords>, AllocError>
    ensures many { IfOk result (λ stores. length stores.items ≡ members) }
    ensures unwritten { IfOk result (λ stores. (r : Record) → Has stores.items r → r ≡ fresh.kept) }
{
    let mut stores = Vec::new(alloc);
    for before in 0..members.count() {
        stores.push(MemRecords::new(alloc))?;
    }
    Ok(stores)
}

impl<A: Application + Drop> World<MemRecords, A> {
    /// Nodes that never did anything, over documents of these names, with records in memory, which never fail.
    ///
    /// It fails where memory is refused.
    pub fn in_memory(
        alloc: Global,
        members: Members,
        names: &Names,
    ) -> Result<World<MemRecords, A>, RecordsFault>
        ensures members { IfOk result (λ w. w.members ≡ members) }
        ensures names { IfOk result (λ w. w.names ≡ names.now) }
        ensures reached { IfOk result (λ w. Reached (λ s a b. (s ≡ a) ⊎ (s ≡ b)) A.has_applied (A.meaning names.now) w []) }
        ensures smoothly { IfOk result (λ w. ReachedSmoothly (λ s a b. (s ≡ a) ⊎ (s ≡ b)) A.has_applied (A.meaning names.now) w []) }
        ensures refused { IfErr result (λ fault. fault ≡ RecordsFault.Memory) }
    {
        let Ok(stores) = stores(alloc, members) else {
            return Err(RecordsFault::Memory);
        };
        World::new(alloc, members, names, stores)
    }
}
