//! What is published, and what is pending.

ghost use Rattle.std.specs.Prelude.{◌≡◌, ◌<◌, ◌≤◌, [], ◌++◌, drop, length, option_to_list, IfOk, MatchBool, MatchResult, OnErr, None};
ghost use Rattle.left_right.specs.Sides.{view as known};
ghost use Rattle.published.specs.Readers.{first_readers};
ghost use Rattle.published.specs.Stores.{HandsOn, Publishes, handed_on};

use super::copies::{Copies, Entry, Opening, Replica, StateCopy};
use super::reader::Reader;
use applications::Application;
use ballots::Value;
use ballots::limits::POSITIONS;
use core::mem::replace_with;
use crossbeam_utils::rule::{Outcome, Protocol};
use left_right::reader::Reader as Seat;
use left_right::writer::Writer;
use sight::{Naming, Roll, Sight};
use std::alloc::{AllocError, Global};
use std::collections::LinkedList;
use std::marker::Model;
use std::sync::Wait;

/// The list that a reader's place knows. No value of it is made.
pub type Known = LinkedList<Value>;

/// The rule of what is shown: it begins with all that a reader was shown before.
pub struct Published;

impl<A: Application + Drop, J: Naming + Opening> Protocol<StateCopy<A, J>, Known> for Published {
    ghost use Rattle.std.specs.Prelude.{[]};
    ghost use Rattle.published.specs.Begun.{AllBegin};

    ghost holds = { λ x. AllBegin x };

    ghost first = { [] };
}

/// A step in which a place comes to know what is shown.
pub(super) struct Sees;

impl<A: Application + Drop, J: Naming + Opening> Outcome<StateCopy<A, J>, Known> for Sees {
    ghost use Rattle.std.specs.Prelude.{◌≡◌};
    ghost use Rattle.sight.specs.Sights.{IsSight};

    ghost then = { λ v x y w. IsSight v y × (w ≡ y) };
}

/// Two copies of the state, of which readers are shown one.
pub(super) type Shelf<A, J> = Writer<StateCopy<A, J>, Entry<J>, Known, Published>;

/// A reader's place at a shelf.
pub(super) type Place<A, J> = Seat<StateCopy<A, J>, Known, Published>;

/// A state that readers see without waiting, as it was after the values that are published; and the values that wait to be published next, in
/// the order in which they were handed on. Contracts see it as these two lists.
///
/// It does not end by itself: [`Store::close`] ends it.
pub struct StoreOver<C: Replica<J> + Drop, J: Naming, P: Protocol<C, Known>> {
    shelf: Writer<C, Entry<J>, Known, P>,
    roll: Roll<Value, J>,
    sight: Sight<Value, J>,
    kept: Option<Entry<J>>,
}

/// A store of an application's state.
pub type Store<A, J> = StoreOver<StateCopy<A, J>, J, Published>;

impl<C: Replica<J> + Drop, J: Naming, P: Protocol<C, Known>> Model for StoreOver<C, J, P> {
    ghost use Rattle.std.specs.Prelude.{◌≡◌, ◌++◌, drop, option_to_list};
    ghost use Rattle.published.specs.Stores.{Store as StoreTerm};

    ghost Value = { StoreTerm };

    ghost view = { λ s. record { published = C.state s.shelf.desk.shown.value; pending = drop s.shelf.behind s.shelf.log.items ++ option_to_list s.kept } };

    ghost invariant = { λ s. s.sight ≡ C.state s.shelf.desk.shown.value ++ (drop s.shelf.behind s.shelf.log.items ++ option_to_list s.kept) };
}

impl<A: Application + Drop, J: Naming + Opening> StoreOver<StateCopy<A, J>, J, Published> {
    /// The value is the last that is pending from now on. It says whether it is: it is not where memory is refused, and where 1,000,000 values were
    /// handed on; then nothing has changed.
    pub fn hand_on(&mut self, value: Value) -> bool
        ensures { MatchBool result (HandsOn value self.old self.new) (self.new ≡ self.old) }
    {
        if !settled(&mut self.shelf, &mut self.kept) {
            return false;
        }
        let Some(entry) = Entry::next(&self.roll, &mut self.sight, value) else {
            return false;
        };
        self.kept = self.shelf.append(entry).err();
        true
    }

    /// Shows readers all that is pending, at once. It waits for those that still read what was shown before the last time.
    ///
    /// It fails where memory is refused, and then nothing has changed.
    pub fn publish<R: Wait>(&mut self, rt: &R) -> Result<(), AllocError>
        ensures { MatchResult result (λ _. Publishes self.old self.new) (λ _. self.new ≡ self.old) }
    {
        if !settled(&mut self.shelf, &mut self.kept) {
            return Err(AllocError);
        }
        replace_with(&mut self.shelf, rt, |shelf, rt| show(rt, shelf))
    }

    /// What is published.
    pub(super) fn shown(&self) -> &StateCopy<A, J>
        ensures { result.now ≡ self.now.published }
    {
        self.shelf.published()
    }

    /// A reader's place at the store, which was shown nothing. There is none where each is in use, or where more have one than can be counted.
    pub(super) fn place(&self) -> Result<Place<A, J>, AllocError>
        ensures { IfOk result (λ p. known p.place ≡ []) }
    {
        self.shelf.factory().reader()
    }

    /// How many values are published and pending.
    pub fn handed_on(&self) -> u64
        ensures { result ≡ length (handed_on self.now) }
    {
        self.sight.len()
    }

    /// How many values are published.
    pub fn published(&self) -> u64
        ensures { result ≡ length self.now.published }
    {
        self.shown().sight().len()
    }

    /// Ends the store: readers that ask from now on are told that it is closed. It waits for those that are answered now.
    pub fn close<R: Wait>(self, rt: &R) {
        let StoreOver {
            shelf,
            roll: _,
            sight: _,
            kept: _,
        } = self;
        shelf.take(rt);
    }
}

impl<A: Application + Drop, J: Naming + Opening> StoreOver<StateCopy<A, J>, J, Published> {
    /// Publishes what both copies have applied, and gives as many readers, numbered from 1. Nothing is pending.
    ///
    /// It fails where memory is refused.
    pub fn over(
        alloc: Global,
        copies: Copies<A, J>,
        readers: u32,
    ) -> Result<(Store<A, J>, Vec<Reader<A, J>>), AllocError>
        requires readers { (1 ≤ readers) × (readers ≤ 64) }
        ensures store { IfOk result (λ s. s.0 ≡ record { published = copies; pending = [] }) }
        ensures readers { IfOk result (λ s. s.1.items ≡ first_readers readers copies) }
    {
        let mut given = Vec::new(alloc);
        given.reserve(readers as usize)?;
        let store = Store::<A, J>::shelved(alloc, copies, readers)?;
        let given = store.readers(given, readers);
        Ok((store, given))
    }

    /// Publishes what both copies have applied, with places for as many readers.
    ///
    /// It fails where memory is refused.
    fn shelved(alloc: Global, copies: Copies<A, J>, readers: u32) -> Result<Store<A, J>, AllocError>
        requires readers { (1 ≤ readers) × (readers ≤ 64) }
        ensures { IfOk result (λ s. s ≡ record { published = copies; pending = [] }) }
    {
        let Copies {
            first,
            second,
            roll,
            sight,
        } = copies;
        Ok(StoreOver {
            shelf: Shelf::<A, J>::new(alloc, first, second, readers as usize)?,
            roll,
            sight,
            kept: None,
        })
    }
}

/// Appends the value that is kept, and says whether none is then.
fn settled<A: Application + Drop, J: Naming + Opening>(
    shelf: &mut Shelf<A, J>,
    kept: &mut Option<Entry<J>>,
) -> bool
    ensures desk { shelf.new.desk ≡ shelf.old.desk }
    ensures waiting { drop shelf.new.behind shelf.new.log.items ++ option_to_list kept.new ≡ drop shelf.old.behind shelf.old.log.items ++ option_to_list kept.old }
    ensures settled { MatchBool result (kept.new ≡ None) (Unit {0}) }
{
    match kept.take() {
        None => true,
        Some(entry) => match shelf.append(entry) {
            Ok(()) => true,
            Err(entry) => {
                *kept = Some(entry);
                false
            }
        },
    }
}

/// Shows what a shelf's operations come to.
fn show<A: Application + Drop, J: Naming + Opening, R: Wait>(
    rt: &R,
    shelf: Shelf<A, J>,
) -> (Shelf<A, J>, Result<(), AllocError>)
    ensures { MatchResult result.1
        (λ _. (result.0.desk.shown.value ≡ shelf.desk.shown.value ++ drop shelf.behind shelf.log.items) × (drop result.0.behind result.0.log.items ≡ []))
        (λ _. (result.0.desk.shown.value ≡ shelf.desk.shown.value) × (drop result.0.behind result.0.log.items ≡ drop shelf.behind shelf.log.items)) }
{
    shelf.publish_as::<Sees, R>(rt)
}
