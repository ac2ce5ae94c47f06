//! A reader, and what it is told.

ghost use Rattle.std.specs.Prelude.{◌≡◌, ◌<◌, ◌≤◌, ◌↔◌, ◌⊎◌, [], length, IfOk, IsErrOf};
ghost use Rattle.ballots.specs.Terms.{most_text};
ghost use Rattle.left_right.specs.Sides.{view as known};
ghost use Rattle.published.specs.Readers.{IsAnswer, Learns, first_readers, new_reader};
ghost use Rattle.sight.specs.Sights.{IsSight};

use super::copies::{Opening, Replica, StateCopy};
use super::fault::ReadFault;
use super::store::{Place, Published, Sees, StoreOver};
use applications::Application;
use ballots::limits::MOST_BYTES;
use ballots::{Answer, Value};
use core::mem::replace_with;
use sight::{Naming, Sight};
use std::alloc::{AllocError, Global};
use std::marker::Model;

/// What a reader is told: a list that was published. Contracts see it as that list.
#[derive(Drop)]
pub struct Note<J: Naming> {
    sight: Sight<Value, J>,
}

impl<J: Naming> Model for Note<J> {
    ghost use Rattle.std.specs.Prelude.{List};
    ghost use Rattle.ballots.specs.declared.value.Value.{Value as ValueTerm};

    ghost Value = { List ValueTerm };

    ghost view = { λ n. n.sight };
}

/// The list that was published as the board was given. Contracts see it as that list.
#[derive(Drop)]
pub struct Board<J: Naming> {
    sight: Sight<Value, J>,
}

impl<J: Naming> Model for Board<J> {
    ghost use Rattle.std.specs.Prelude.{List};
    ghost use Rattle.ballots.specs.declared.value.Value.{Value as ValueTerm};

    ghost Value = { List ValueTerm };

    ghost view = { λ b. b.sight };
}

impl<J: Naming> Board<J> {
    /// A note for a reader: it carries the whole list. As many are given as are asked for.
    pub fn tell(&self) -> Note<J>
        ensures { result ≡ self.now }
    {
        Note {
            sight: self.sight.again(),
        }
    }
}

/// A reader: it asks in a thread of its own, and waits for nobody. Contracts see it as its number, its sight, and the list that it was shown when
/// it last asked.
#[derive(Drop)]
pub struct Reader<A: Application + Drop, J: Naming + Opening> {
    place: Option<Place<A, J>>,
    sight: Sight<Value, J>,
    number: u32,
}

impl<A: Application + Drop, J: Naming + Opening> Model for Reader<A, J> {
    ghost use Rattle.std.specs.Prelude.{[]};
    ghost use Rattle.std.specs.Option.{option_map_or};
    ghost use Rattle.left_right.specs.Sides.{view as known};
    ghost use Rattle.published.specs.Readers.{Reader as ReaderTerm};

    ghost Value = { ReaderTerm };

    ghost view = { λ r. record { number = r.number; sight = r.sight; shown = option_map_or (λ p. known p.place) r.place [] } };
}

impl<A: Application + Drop, J: Naming + Opening> StoreOver<StateCopy<A, J>, J, Published> {
    /// A board of what is published.
    pub fn board(&self) -> Board<J>
        ensures { result ≡ self.now.published }
    {
        Board {
            sight: self.shown().sight().again(),
        }
    }
}

impl<A: Application + Drop, J: Naming + Opening> StoreOver<StateCopy<A, J>, J, Published> {
    /// A reader of that number, which has seen what is published, and was shown nothing yet.
    fn reader(&self, number: u32) -> Reader<A, J>
        ensures { result ≡ new_reader number self.now.published }
    {
        Reader {
            place: self.place().ok(),
            sight: self.shown().sight().again(),
            number,
        }
    }

    /// As many readers, numbered from 1, where there is room for them.
    pub(super) fn readers(&self, given: Vec<Reader<A, J>>, count: u32) -> Vec<Reader<A, J>>
        requires nothing { given.items ≡ [] }
        requires room { count ≤ given.cap }
        ensures { result.items ≡ first_readers count self.now.published }
    {
        let mut given = given;
        for place in 0..count {
            given.push_reserved(self.reader(place + 1));
        }
        given
    }
}

impl<A: Application + Drop, J: Naming + Opening> Reader<A, J> {
    /// Its number.
    pub fn number(&self) -> u32
        ensures { result ≡ self.now.number }
    {
        self.number
    }

    /// How many values it has seen the effect of, or was told of.
    pub fn seen(&self) -> u64
        ensures { result ≡ length self.now.sight }
    {
        self.sight.len()
    }

    /// Takes in a note of the same store: it has seen no less from now on.
    pub fn learn(&mut self, note: Note<J>)
        ensures sight { Learns note self.old.sight self.new.sight }
        ensures same { (self.new.number ≡ self.old.number) × (self.new.shown ≡ self.old.shown) }
    {
        if self.sight.begins(&note.sight) {
            self.sight = note.sight;
        }
    }

    /// The answer to a question of that text at a level of the language, and how many values it is over. They are those that are shown at some
    /// moment of the call; they begin with all that this reader has seen and was told of, and are its sight then.
    ///
    /// Faults: memory was refused, and the reader may have seen more (1); the text is longer than 4,096 bytes (2); the store was closed, or
    /// nothing is shown that goes as far as the reader has seen, or the reader found no place at the store (3).
    pub fn ask(&mut self, alloc: Global, level: u8, text: &str) -> Result<(Answer, u64), ReadFault>
        ensures answer { IfOk result (λ r. IsAnswer ((A.meaning J.names)) level text.now r.0 r.1 self.new.sight) }
        ensures shown { IfOk result (λ _. self.new.shown ≡ self.new.sight) }
        ensures sight { IsSight self.old.sight self.new.sight }
        ensures grows { (self.new.sight ≡ self.old.sight) ⊎ (self.new.sight ≡ self.new.shown) }
        ensures goes_on { IsSight self.old.shown self.new.shown }
        ensures long { IsErrOf result ReadFault.Long ↔ (most_text < length text.now) }
        ensures unasked { IsErrOf result ReadFault.Long → self.new ≡ self.old }
        ensures closed { IsErrOf result ReadFault.Closed → self.new.sight ≡ self.old.sight }
        ensures same { self.new.number ≡ self.old.number }
    {
        if text.len() > MOST_BYTES {
            return Err(ReadFault::Long);
        }
        let Some(place) = &mut self.place else {
            return Err(ReadFault::Closed);
        };
        let seen = self.sight.again();
        let (seen, answer) = replace_with(
            place,
            (seen, alloc, level, text),
            |place, (seen, alloc, level, text)| read(place, seen, alloc, level, text),
        );
        self.sight = seen;
        answer
    }
}

/// Looks at what is shown.
fn read<A: Application + Drop, J: Naming + Opening>(
    place: Place<A, J>,
    seen: Sight<Value, J>,
    alloc: Global,
    level: u8,
    text: &str,
) -> (
    Place<A, J>,
    (Sight<Value, J>, Result<(Answer, u64), ReadFault>),
)
    ensures answer { IfOk result.1.1 (λ r. IsAnswer ((A.meaning J.names)) level text.now r.0 r.1 result.1.0) }
    ensures shown { IfOk result.1.1 (λ r. known result.0.place ≡ result.1.0) }
    ensures sight { IsSight seen result.1.0 }
    ensures grows { (result.1.0 ≡ seen) ⊎ (result.1.0 ≡ known result.0.place) }
    ensures goes_on { IsSight (known place.place) (known result.0.place) }
    ensures long { IsErrOf result.1.1 ReadFault.Long → ⊥ }
    ensures closed { IsErrOf result.1.1 ReadFault.Closed → result.1.0 ≡ seen }
{
    let mut seen = seen;
    let reading = match place.enter_as::<Sees>() {
        Ok(reading) => reading,
        Err(place) => return (place, (seen, Err(ReadFault::Closed))),
    };
    let answer = look(reading.get(), &mut seen, alloc, level, text);
    (reading.leave(), (seen, answer))
}

/// The answer over a copy that goes as far as was seen.
fn look<A: Application + Drop, J: Naming + Opening>(
    shown: &StateCopy<A, J>,
    sight: &mut Sight<Value, J>,
    alloc: Global,
    level: u8,
    text: &str,
) -> Result<(Answer, u64), ReadFault>
    ensures answer { IfOk result (λ r. IsAnswer ((A.meaning J.names)) level text.now r.0 r.1 sight.new) }
    ensures shown { IfOk result (λ r. sight.new ≡ shown.now) }
    ensures sight { IsSight sight.old sight.new }
    ensures grows { (sight.new ≡ sight.old) ⊎ (sight.new ≡ shown.now) }
    ensures long { IsErrOf result ReadFault.Long → ⊥ }
    ensures closed { IsErrOf result ReadFault.Closed → sight.new ≡ sight.old }
{
    if !sight.begins(shown.sight()) {
        return Err(ReadFault::Closed);
    }
    *sight = shown.sight().again();
    match shown.answer(alloc, level, text) {
        Ok(answer) => Ok(answer),
        Err(_) => Err(ReadFault::Memory),
    }
}
