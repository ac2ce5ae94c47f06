//! The stores of a group's members.

ghost use Rattle.std.specs.Prelude.{◌≡◌, IfOk, length};
ghost use Rattle.paxos.specs.Lists.{Has};
ghost use Rattle.paxos.specs.World.{fresh};
ghost use Rattle.records.specs.Script.{Script, Stands};
ghost use Rattle.paxq_sim.specs.Stores.{plan_of, store_of, stores_of};

use ballots::Members;
use event_files::Failure;
use records::ScriptRecords;
use std::alloc::{AllocError, Global};

/// The writes of a member that fail, in the order of the file. It fails where memory is refused.
fn plan_of(alloc: Global, member: u8, failures: &[Failure]) -> Result<Vec<(u64, bool)>, AllocError>
    ensures { IfOk result (λ plan. plan.items ≡ plan_of member failures.now) }
{
    let mut plan = Vec::new(alloc);
    for failure in failures {
        if failure.member == member {
            plan.push((failure.write, failure.kept))?;
        }
    }
    Ok(plan)
}

/// A member's store, which nobody has written. It fails where memory is refused.
fn store_of(alloc: Global, member: u8, failures: &[Failure]) -> Result<ScriptRecords, AllocError>
    ensures { IfOk result (λ store. store ≡ store_of failures.now member) }
{
    let plan = plan_of(alloc, member, failures)?;
    ScriptRecords::new(alloc, &plan)
}

/// The stores of the members, in order, whose writes fail as the file says. Nobody has written them. It fails where memory is refused.
pub fn stores_of(
    alloc: Global,
    members: Members,
    failures: &[Failure],
) -> Result<Vec<ScriptRecords>, AllocError>
    ensures stores { IfOk result (λ stores. stores.items ≡ stores_of members failures.now) }
    ensures many { IfOk result (λ stores. length stores.items ≡ members) }
    ensures unwritten { IfOk result (λ stores. (r : Script) → Has stores.items r → Stands r fresh.kept fresh.kept) }
{
    let stores = all_stores(alloc, members, failures)?;
    Ok(stores)
}

/// The same stores.
fn all_stores(
    alloc: Global,
    members: Members,
    failures: &[Failure],
) -> Result<Vec<ScriptRecords>, AllocError>
    ensures { IfOk result (λ stores. stores.items ≡ stores_of members failures.now) }
{
    let mut stores = Vec::new(alloc);
    for before in 0..members.count() {
        stores.push(store_of(alloc, before + 1, failures)?)?;
    }
    Ok(stores)
}
