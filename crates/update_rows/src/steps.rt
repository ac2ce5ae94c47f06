//! Steps of rows.

ghost use Rattle.std.specs.Prelude.{IfOk, OnOk};
ghost use Rattle.update_words.specs.Ready.{IsReady};

use apply::ApplyFault;
use fault_codes::Code;
use pending::{CheckFault, ListFault};
use rows::{RowFault, Words};
use std::alloc::{AllocError, Global};
use trees::Forest;
use update_words::{Desk, Way, opened, printed, read_primitive, take_next};

/// The most steps of a row, and of a turn of a `repeat`.
const MOST_STEPS: u32 = 100_000;

/// Larger stores are not compared with a second one.
const MOST_COMPARED: u64 = 20_000;

/// What a step is taken in: the description of the store, whether stores are compared, and the turn of a `repeat`.
#[derive(Clone, Copy)]
struct Scene<'a> {
    described: &'a str,
    compares: bool,
    turn: u64,
}

/// What a step gave.
#[derive(Clone, Copy)]
enum Given {
    Nothing,
    Word(&'static str),
    Code(Code),
}

/// What a row prints: what its steps gave, with bars between them.
#[derive(Drop)]
struct Said {
    text: String,
}

impl Said {
    fn push(&mut self, text: &str) -> Result<(), AllocError> {
        if !self.text.is_empty() {
            self.text.push_str(" | ")?;
        }
        self.text.push_str(text)
    }

    fn push_given(&mut self, alloc: Global, given: Given) -> Result<(), AllocError> {
        match given {
            Given::Nothing => Ok(()),
            Given::Word(word) => self.push(word),
            Given::Code(code) => self.push(code.to_string(alloc)?.as_str()),
        }
    }
}

/// What steps give that are taken so many times over, each time from the store as it was described: what they gave the last time.
pub(super) fn looped(
    alloc: Global,
    described: &str,
    words: Words<'_>,
    times: u64,
) -> Result<String, RowFault> {
    let mut text = String::new(alloc);
    for _ in 0..times {
        text = taken(alloc, described, words, false)?;
    }
    Ok(text)
}

/// What steps give that are taken from the store of that description.
pub(super) fn taken(
    alloc: Global,
    described: &str,
    words: Words<'_>,
    compares: bool,
) -> Result<String, RowFault> {
    let mut desk = opened(alloc, described)?;
    taken_on(alloc, described, &mut desk, words, compares)
}

/// The same on the store of that description.
fn taken_on(
    alloc: Global,
    described: &str,
    desk: &mut Desk,
    words: Words<'_>,
    compares: bool,
) -> Result<String, RowFault>
    requires { IsReady desk.old }
{
    let mut words = words;
    let mut said = Said {
        text: String::new(alloc),
    };
    let scene = Scene {
        described,
        compares: compares && desk.forest().len() <= MOST_COMPARED,
        turn: 0,
    };
    take_all(alloc, scene, desk, &mut words, &mut said)?;
    Ok(said.text)
}

/// Takes all steps.
fn take_all(
    alloc: Global,
    scene: Scene<'_>,
    desk: &mut Desk,
    words: &mut Words<'_>,
    said: &mut Said,
) -> Result<(), RowFault>
    requires { IsReady desk.old }
{
    for _ in 0..MOST_STEPS {
        if words.is_empty() {
            return Ok(());
        }
        take_turns(alloc, scene, desk, words, said)?;
    }
    Err(RowFault::NotARow)
}

/// Takes the next step, or `repeat N STEP .. end` with all its turns.
fn take_turns(
    alloc: Global,
    scene: Scene<'_>,
    desk: &mut Desk,
    words: &mut Words<'_>,
    said: &mut Said,
) -> Result<(), RowFault>
    requires { IsReady desk.old }
    ensures { IsReady desk.new }
{
    if !take_word(words, "repeat") {
        return take_step(alloc, scene, desk, words, said);
    }
    let turns = words.number()?;
    let from = *words;
    for turn in 0..turns {
        *words = from;
        take_turn(alloc, Scene { turn, ..scene }, desk, words, said)?;
    }
    Ok(())
}

/// Takes the steps of a turn, up to the word `end`.
fn take_turn(
    alloc: Global,
    scene: Scene<'_>,
    desk: &mut Desk,
    words: &mut Words<'_>,
    said: &mut Said,
) -> Result<(), RowFault>
    requires { IsReady desk.old }
    ensures { IsReady desk.new }
{
    for _ in 0..MOST_STEPS {
        if take_word(words, "end") {
            return Ok(());
        }
        take_step(alloc, scene, desk, words, said)?;
    }
    Err(RowFault::NotARow)
}

/// Takes the next word where it is that one. Gives whether it was.
fn take_word(words: &mut Words<'_>, wanted: &str) -> bool {
    let mut ahead = *words;
    match ahead.plain() {
        Ok(word) if word == wanted => {
            *words = ahead;
            true
        }
        _ => false,
    }
}

/// Takes the next step, and appends what it gave.
fn take_step(
    alloc: Global,
    scene: Scene<'_>,
    desk: &mut Desk,
    words: &mut Words<'_>,
    said: &mut Said,
) -> Result<(), RowFault>
    requires { IsReady desk.old }
    ensures { IsReady desk.new }
{
    let mut ahead = *words;
    let step = ahead.plain()?;
    if looked(alloc, scene, desk, step, said)? {
        *words = ahead;
        return Ok(());
    }
    let given = done(alloc, scene, desk, step, words)?;
    said.push_given(alloc, given)?;
    Ok(())
}

/// Takes the next step where it is one that only looks, and appends what it gave. Gives whether it was.
fn looked(
    alloc: Global,
    scene: Scene<'_>,
    desk: &Desk,
    step: &str,
    said: &mut Said,
) -> Result<bool, RowFault> {
    match step {
        "store" => {
            let text = printed::store(alloc, desk.forest(), scene.described)?;
            said.push(text.as_str())?;
        }
        "size" => said.push(printed::size(alloc, desk.forest())?.as_str())?,
        "len" => said.push(desk.len().to_string(alloc)?.as_str())?,
        "same" => said.push(same(alloc, desk, scene.described)?)?,
        "check" => said.push_given(alloc, check(alloc, desk)?)?,
        _ => return Ok(false),
    }
    Ok(true)
}

/// `same` where the store is as described, and else `changed`.
fn same(alloc: Global, desk: &Desk, described: &str) -> Result<&'static str, RowFault> {
    let other = opened(alloc, described)?;
    let are_alike = printed::are_alike(alloc, desk.forest(), other.forest(), described)?;
    Ok(if are_alike { "same" } else { "changed" })
}

/// Whether the list is compatible, asked again where memory is refused.
fn check(alloc: Global, desk: &Desk) -> Result<Given, RowFault> {
    let mut checked = desk.check(alloc);
    if checked == Err(CheckFault::Memory) {
        checked = desk.check(alloc);
    }
    match checked {
        Ok(()) => Ok(Given::Word("compatible")),
        Err(CheckFault::Code(code)) => Ok(Given::Code(code)),
        Err(CheckFault::Memory) => Err(RowFault::Memory),
    }
}

/// Takes the next step, one that does something.
fn done(
    alloc: Global,
    scene: Scene<'_>,
    desk: &mut Desk,
    step: &str,
    words: &mut Words<'_>,
) -> Result<Given, RowFault>
    requires { IsReady desk.old }
    ensures { IsReady desk.new }
{
    let way = match step {
        "next" => {
            take_next(desk, words)?;
            return Ok(Given::Nothing);
        }
        "apply" => Way::Apply,
        "settle" => Way::Settle,
        "discard" => Way::Discard,
        "merge" => {
            words.plain()?;
            return merge(alloc, desk);
        }
        _ => return push(alloc, scene, desk, words),
    };
    words.plain()?;
    update(alloc, scene, desk, way)
}

/// Adds the other list's primitives to the list. It is not asked again where memory is refused, since the other list is gone then.
fn merge(alloc: Global, desk: &mut Desk) -> Result<Given, RowFault>
    requires { IsReady desk.old }
    ensures { IsReady desk.new }
{
    let before = desk.len();
    let merged = desk.merge(alloc);
    if merged.is_err() && desk.len() != before {
        return Ok(Given::Word("changed"));
    }
    match merged {
        Ok(()) => Ok(Given::Nothing),
        Err(ListFault::TooMany) => Ok(Given::Code(Code::PXQ0002)),
        Err(ListFault::Memory) => Ok(Given::Word("memory")),
    }
}

/// `[other] PRIMITIVE`: adds a primitive to the list or to the other one, again where memory is refused.
fn push(
    alloc: Global,
    scene: Scene<'_>,
    desk: &mut Desk,
    words: &mut Words<'_>,
) -> Result<Given, RowFault>
    requires { IsReady desk.old }
    ensures { IsReady desk.new }
{
    let to_other = take_word(words, "other");
    let from = *words;
    let before = desk.lengths();
    let mut pushed = push_once(alloc, scene, desk, words, to_other)?;
    if pushed == Err(ListFault::Memory) {
        if desk.lengths() != before {
            return Ok(Given::Word("changed"));
        }
        *words = from;
        pushed = push_once(alloc, scene, desk, words, to_other)?;
    }
    match pushed {
        Ok(()) => Ok(Given::Nothing),
        Err(ListFault::TooMany) => Ok(Given::Code(Code::PXQ0002)),
        Err(ListFault::Memory) => Err(RowFault::Memory),
    }
}

/// Reads a primitive and adds it.
fn push_once(
    alloc: Global,
    scene: Scene<'_>,
    desk: &mut Desk,
    words: &mut Words<'_>,
    to_other: bool,
) -> Result<Result<(), ListFault>, RowFault>
    requires { IsReady desk.old }
    ensures { IsReady desk.new }
{
    let brought = read_primitive(alloc, words, desk.forest(), scene.turn, desk.next())?;
    Ok(desk.push(brought, to_other))
}

/// Updates the store by the list, again where memory is refused. A refused or discarded update is to leave the store as it was.
fn update(alloc: Global, scene: Scene<'_>, desk: &mut Desk, way: Way) -> Result<Given, RowFault>
    requires { IsReady desk.old }
    ensures { IsReady desk.new }
{
    let second = second_of(scene, desk)?;
    let mut updated = desk.update(alloc, way);
    if updated == Err(ApplyFault::Memory) {
        if !is_still(alloc, scene, desk, &second)? {
            return Ok(Given::Word("changed"));
        }
        updated = desk.update(alloc, way);
    }
    if updated.is_err() || way == Way::Discard {
        if !is_still(alloc, scene, desk, &second)? {
            return Ok(Given::Word("changed"));
        }
    }
    given_of(way, updated)
}

/// What an update gave.
fn given_of(way: Way, updated: Result<(), ApplyFault>) -> Result<Given, RowFault> {
    match (updated, way) {
        (Ok(()), Way::Apply) => Ok(Given::Word("done")),
        (Ok(()), Way::Settle) => Ok(Given::Word("settled")),
        (Ok(()), Way::Discard) => Ok(Given::Word("discarded")),
        (Err(ApplyFault::Code(code)), _) => Ok(Given::Code(code)),
        (Err(ApplyFault::Memory), _) => Err(RowFault::Memory),
    }
}

/// A second store, where stores are compared.
fn second_of(scene: Scene<'_>, desk: &Desk) -> Result<Option<Forest>, AllocError> {
    if scene.compares {
        Ok(Some(desk.forest().duplicate()?))
    } else {
        Ok(None)
    }
}

/// Whether the store is as the second one, if there is one.
fn is_still(
    alloc: Global,
    scene: Scene<'_>,
    desk: &Desk,
    second: &Option<Forest>,
) -> Result<bool, RowFault> {
    match second {
        Some(second) => printed::are_alike(alloc, desk.forest(), second, scene.described),
        None => Ok(true),
    }
}
