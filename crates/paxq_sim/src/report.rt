//! What a simulation prints.

ghost use Rattle.std.specs.Prelude.{◌≡◌, ◌++◌, ◌==◌, ◌&&◌, ◌||◌, ℕ, [], IfOk, OnOk, flat_map, if◌then◌else◌, length, string_bytes};
ghost use Rattle.ballots.specs.Messages.{up_to};
ghost use Rattle.paxos.specs.Records.{Record};
ghost use Rattle.paxos.specs.World.{World as Whole, told_to};
ghost use Rattle.paxq_sim.specs.Places.{is_place};
ghost use Rattle.paxq_sim.specs.Play.{applied_line, first_told, member_line, report, request_words, stopped_line, told_line, value_words};
ghost use Rattle.world.specs.Shown.{Shows};
ghost use Rattle.world.specs.Tellings.{told_in};

use super::places::Places;
use applications::Application;
use ballots::{RequestId, Value};
use records::ScriptRecords;
use std::alloc::{AllocError, Global};
use world::{Told, World};

/// What is printed of a world in the end: all that members were told, each thing once, how many messages were sent, and how far each
/// member is. It fails where memory is refused.
pub(crate) fn report<A: Application + Drop>(
    alloc: Global,
    world: &World<ScriptRecords, A>,
) -> Result<String, AllocError>
    ensures { IfOk result (λ text. (kept : ℕ → Record) (v : Whole) → Shows A.has_applied world.now kept v → string_bytes text ≡ report v) }
{
    let mut out = String::new(alloc);
    push_told(alloc, &mut out, world.told())?;
    let messages = world.messages();
    out.push_str(format!(in alloc; "messages {messages}\n")?.as_str())?;
    push_members(alloc, &mut out, world)?;
    Ok(out)
}

/// Appends what members were told, each thing once. It fails where memory is refused.
fn push_told(alloc: Global, out: &mut String, told: &[Told]) -> Result<(), AllocError>
    ensures { OnOk result (string_bytes out.new ≡ string_bytes out.old ++ flat_map told_line (first_told [] (told_in told.now))) }
{
    let mut places = Places::new(alloc);
    for telling in told {
        push_new(alloc, out, &mut places, telling)?;
    }
    Ok(())
}

/// Appends what a member was told, if it was not told of that position before. It fails where memory is refused.
fn push_new(
    alloc: Global,
    out: &mut String,
    places: &mut Places,
    told: &Told,
) -> Result<(), AllocError>
    ensures text { OnOk result (string_bytes out.new ≡ string_bytes out.old ++ (if is_place places.old told.now.member told.now.pair.position then [] else told_line (told_to told.now.member told.now.pair))) }
    ensures places { OnOk result ((m p : ℕ) → is_place places.new m p ≡ ((m == told.now.member) && (p == told.now.pair.position) || is_place places.old m p)) }
{
    if !places.add(told.member, told.pair.position)? {
        return Ok(());
    }
    push_telling(alloc, out, told)
}

/// Appends what a member was told. It fails where memory is refused.
fn push_telling(alloc: Global, out: &mut String, told: &Told) -> Result<(), AllocError>
    ensures { OnOk result (string_bytes out.new ≡ string_bytes out.old ++ told_line (told_to told.now.member told.now.pair)) }
{
    let member = told.member;
    let position = told.pair.position;
    let value = value_words(alloc, &told.pair.value)?;
    out.push_str(format!(in alloc; "told {member} {position} {value}\n")?.as_str())
}

/// `CLIENT NUMBER` of a request, or `noop`. It fails where memory is refused.
fn value_words(alloc: Global, value: &Value) -> Result<String, AllocError>
    ensures { IfOk result (λ text. string_bytes text ≡ value_words value.now) }
{
    match value {
        Value::NoOp => String::from_str(alloc, "noop"),
        Value::Request(request) => request_words(alloc, request.id()),
    }
}

/// `CLIENT NUMBER`. It fails where memory is refused.
fn request_words(alloc: Global, id: RequestId) -> Result<String, AllocError>
    ensures { IfOk result (λ text. string_bytes text ≡ request_words id.client id.number) }
{
    let client = id.client;
    let number = id.number;
    format!(in alloc; "{client} {number}")
}

/// Appends how far each member is. It fails where memory is refused.
fn push_members<A: Application + Drop>(
    alloc: Global,
    out: &mut String,
    world: &World<ScriptRecords, A>,
) -> Result<(), AllocError>
    ensures { OnOk result ((kept : ℕ → Record) (v : Whole) → Shows A.has_applied world.now kept v → string_bytes out.new ≡ string_bytes out.old ++ flat_map (member_line v) (up_to (length v.members))) }
{
    for before in 0..world.members().count() {
        out.push_str(member_text(alloc, world, before + 1)?.as_str())?;
    }
    Ok(())
}

/// How far a member is. It fails where memory is refused.
fn member_text<A: Application + Drop>(
    alloc: Global,
    world: &World<ScriptRecords, A>,
    number: u8,
) -> Result<String, AllocError>
    ensures { IfOk result (λ text. (kept : ℕ → Record) (v : Whole) → Shows A.has_applied world.now kept v → string_bytes text ≡ member_line v number) }
{
    match world.node(number) {
        Some(node) => applied_line(alloc, number, node.applied()),
        None => stopped_line(alloc, number),
    }
}

/// `member M applied P`, with its line feed. It fails where memory is refused.
fn applied_line(alloc: Global, member: u8, positions: u32) -> Result<String, AllocError>
    ensures { IfOk result (λ text. string_bytes text ≡ applied_line member positions) }
{
    format!(in alloc; "member {member} applied {positions}\n")
}

/// `member M stopped`, with its line feed. It fails where memory is refused.
fn stopped_line(alloc: Global, member: u8) -> Result<String, AllocError>
    ensures { IfOk result (λ text. string_bytes text ≡ stopped_line member) }
{
    format!(in alloc; "member {member} stopped\n")
}
