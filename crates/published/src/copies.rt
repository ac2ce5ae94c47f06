//! The two copies of the state.

ghost use Rattle.std.specs.Prelude.{◌≡◌, List, ℕ, [], ◌∷◌, ◌++◌, IfOk, MatchOption, MatchResult};
ghost use Rattle.published.specs.Readers.{IsAnswer};

use applications::Application;
use ballots::limits::POSITIONS;
use ballots::{Answer, Value};
use document_names::Names;
use left_right::Absorb;
use sight::{Naming, Opened, Roll, Sight};
use std::alloc::{AllocError, Global};
use std::marker::{Brand, Model};

/// The names of the documents. The call that makes a store picks them.
pub trait Opening {
    ghost names: { List (List ℕ) };
}

impl Opening for Brand {
    ghost names = { [] };
}

/// A value that is to be applied, and the list up to it. Contracts see it as the value.
#[derive(Drop)]
pub struct Entry<J: Naming> {
    pub(super) value: Value,
    pub(super) sight: Sight<Value, J>,
}

impl<J: Naming> Model for Entry<J> {
    ghost use Rattle.std.specs.Prelude.{◌≡◌, ◌-◌, ◌∷◌, [], ◌++◌, length, take};
    ghost use Rattle.ballots.specs.declared.value.Value.{Value as ValueTerm};

    ghost Value = { ValueTerm };

    ghost view = { λ e. e.value };

    ghost invariant = { λ e. e.sight ≡ take (length e.sight - 1) e.sight ++ e.value ∷ [] };
}

impl<J: Naming> Entry<J> {
    /// The value as the next of the list, of which all was seen. There is none, and the list stays, where the list has 1,000,000 values, or another
    /// added to it.
    pub(super) fn next(
        roll: &Roll<Value, J>,
        sight: &mut Sight<Value, J>,
        value: Value,
    ) -> Option<Entry<J>>
        ensures { MatchOption result (sight.new ≡ sight.old) (λ e. (e ≡ value) × (sight.new ≡ sight.old ++ value ∷ [])) }
    {
        if sight.len() >= POSITIONS as u64 || !roll.add(sight, &value) {
            return None;
        }
        Some(Entry {
            value,
            sight: sight.again(),
        })
    }
}

/// A copy of what readers are shown, which has applied a list of values, and answers what they mean.
pub trait Replica<J: Naming>: Absorb<Entry<J>, State = [Value; 0]> {
    ghost use Rattle.std.specs.Prelude.{◌≡◌, List, [], ◌∷◌, ◌++◌};
    ghost use Rattle.ballots.specs.declared.value.Value.{Value as ValueTerm};
    ghost use Rattle.paxos.specs.Application.{Application as Meaning};

    /// What lists of values mean to readers.
    ghost meaning: { Meaning };

    /// The list of the values that it has applied.
    fn sight(&self) -> &Sight<Value, J>
        ensures { result.now ≡ Self.state self.now };

    /// The answer to a question of that text at a level of the language, and how many values it is over.
    ///
    /// It fails where memory is refused.
    fn answer(&self, alloc: Global, level: u8, text: &str) -> Result<(Answer, u64), AllocError>
        ensures { IfOk result (λ r. IsAnswer meaning level text.now r.0 r.1 (Self.state self.now)) };

    /// A value that it absorbs is the last of its list then.
    ghost appends: { (values : List ValueTerm) (value : ValueTerm) → Self.applied values value ≡ values ++ value ∷ [] };
}

/// A copy of the state, with the list of the values that it has applied, as which contracts see it.
#[derive(Drop)]
pub struct StateCopy<A: Application + Drop, J: Naming + Opening> {
    alloc: Global,
    application: A,
    sight: Sight<Value, J>,
}

impl<A: Application + Drop, J: Naming + Opening> Model for StateCopy<A, J> {
    ghost use Rattle.std.specs.Prelude.{List};
    ghost use Rattle.ballots.specs.declared.value.Value.{Value as ValueTerm};

    ghost Value = { List ValueTerm };

    ghost view = { λ s. s.sight };

    ghost invariant = { λ s. ∥ A.has_applied J.names s.sight s.application ∥₁ };
}

impl<A: Application + Drop, J: Naming + Opening> StateCopy<A, J> {
    /// A copy of the state before any value.
    ///
    /// It fails where memory is refused.
    fn new(
        alloc: Global,
        names: &Names,
        sight: &Sight<Value, J>,
    ) -> Result<StateCopy<A, J>, AllocError>
        requires names { names.now ≡ J.names }
        requires nothing { sight.now ≡ [] }
        ensures { IfOk result (λ s. s ≡ []) }
    {
        Ok(StateCopy {
            alloc,
            application: A::new(alloc, names)?,
            sight: sight.again(),
        })
    }

    /// Applies the next value, which ends the list that the entry has.
    ///
    /// It fails where memory is refused, and where the entry's value is not the next; then nothing has changed.
    #[tactic(auto, unfolding(ballots::specs::Values::positions))]
    fn apply(&mut self, entry: &Entry<J>) -> Result<(), AllocError>
        ensures { MatchResult result (λ _. self.new ≡ self.old ++ entry.now ∷ []) (λ _. self.new ≡ self.old) }
    {
        let applied = self.application.applied();
        if applied >= POSITIONS
            || !self.sight.begins(&entry.sight)
            || entry.sight.len() != applied as u64 + 1
        {
            return Err(AllocError);
        }
        let alloc = self.alloc;
        self.application.apply(alloc, &entry.value)?;
        self.sight = entry.sight.again();
        Ok(())
    }
}

impl<A: Application + Drop, J: Naming + Opening> Absorb<Entry<J>> for StateCopy<A, J> {
    ghost use Rattle.std.specs.Prelude.{◌∷◌, [], ◌++◌};

    type State = [Value; 0];

    ghost state = { λ s. s };

    ghost applied = { λ values value. values ++ value ∷ [] };

    fn absorb_first(
        &mut self,
        operation: &Entry<J>,
        _other: &StateCopy<A, J>,
    ) -> Result<(), AllocError> {
        self.apply(operation)
    }
}

impl<A: Application + Drop, J: Naming + Opening> Replica<J> for StateCopy<A, J> {
    ghost use Rattle.std.specs.Prelude.{refl};

    ghost meaning = { A.meaning J.names };

    fn sight(&self) -> &Sight<Value, J> {
        &self.sight
    }

    fn answer(&self, alloc: Global, level: u8, text: &str) -> Result<(Answer, u64), AllocError> {
        let answer = self.application.answer(alloc, level, text)?;
        Ok((answer, self.sight.len()))
    }

    ghost appends = { λ values value. refl };
}

/// Both copies of the state, before anybody reads them: each has applied the same values, as whose list contracts see them.
#[derive(Drop)]
pub struct Copies<A: Application + Drop, J: Naming + Opening> {
    pub(super) first: StateCopy<A, J>,
    pub(super) second: StateCopy<A, J>,
    pub(super) roll: Roll<Value, J>,
    pub(super) sight: Sight<Value, J>,
}

impl<A: Application + Drop, J: Naming + Opening> Model for Copies<A, J> {
    ghost use Rattle.std.specs.Prelude.{◌≡◌, List};
    ghost use Rattle.ballots.specs.declared.value.Value.{Value as ValueTerm};

    ghost Value = { List ValueTerm };

    ghost view = { λ c. c.sight };

    ghost invariant = { λ c. (c.first ≡ c.sight) × (c.second ≡ c.sight) };
}

impl<A: Application + Drop, J: Naming + Opening> Copies<A, J> {
    /// Both copies before any value, over documents of these names. The list of their values is the one that was just opened.
    ///
    /// It fails where memory is refused.
    pub fn new(
        alloc: Global,
        names: &Names,
        opened: Opened<Value>,
    ) -> Result<Copies<A, J>, AllocError>
        requires list { opened ≡ J.book }
        requires names { names.now ≡ J.names }
        ensures { IfOk result (λ c. c ≡ []) }
    {
        let (roll, sight) = opened.named::<J>();
        Ok(Copies {
            first: StateCopy::new(alloc, names, &sight)?,
            second: StateCopy::new(alloc, names, &sight)?,
            roll,
            sight,
        })
    }

    /// The copies once each has applied the value too.
    ///
    /// It fails where memory is refused, and where 1,000,000 values are applied.
    pub fn after(self, value: Value) -> Result<Copies<A, J>, AllocError>
        ensures { IfOk result (λ c. c ≡ self ++ value ∷ []) }
    {
        let Copies {
            mut first,
            mut second,
            roll,
            mut sight,
        } = self;
        // The list gets the entry before any copy has applied it: a copy never shows what is not in the list.
        let Some(entry) = Entry::next(&roll, &mut sight, value) else {
            return Err(AllocError);
        };
        first.apply(&entry)?;
        second.apply(&entry)?;
        Ok(Copies {
            first,
            second,
            roll,
            sight,
        })
    }
}
