//! The list's length, and the beginnings of the list that were seen.

ghost use Rattle.std.specs.Prelude.{◌≡◌, ◌<◌, ◌^◌, ◌++◌, ◌∷◌, [], length, MatchBool};
ghost use Rattle.sight.specs.Lengths.{first_word};
ghost use Rattle.sight.specs.Sights.{IsSight};

use logbook::{Gain, Offer, Plain, Play, Rule, Seen, Start, Word};
use std::marker::{Brand, Model, PhantomData};

/// The rule of the book: its first word is the length of its list.
pub struct Law;

impl<E> Rule<E, u64> for Law {
    ghost use Rattle.std.specs.Prelude.{[]};
    ghost use base.Fml.{ftrue};
    ghost use Rattle.sight.specs.Lengths.{IsCounted};

    ghost holds = { λ cells log. IsCounted cells log };

    ghost first = { [] };

    ghost hinted = { λ n log. Unit {0} };

    ghost shows = { λ log. [] };

    ghost keeps = { λ names log. ftrue };

    ghost moves = { λ ask before after answer. Unit {0} };
}

/// What a caller of a step trades: nothing.
pub struct Nothing;

impl<E> Gain<E, u64> for Nothing {
    ghost use base.Fml.{ftrue};

    ghost after = { λ names about answer. ftrue };
}

/// A step that adds an entry.
pub struct Adds;

impl<E> Play<E, u64> for Adds {
    ghost use Rattle.sight.specs.Lengths.{IsAdded};

    ghost then = { IsAdded };
}

impl<E> Plain<E, E, u64> for Adds {
    ghost use Rattle.std.specs.Prelude.{None};

    ghost ask = { λ entry. entry };

    ghost state = { λ entry. None };
}

/// Which list it is. The call that names a list picks it.
pub trait Naming {
    ghost use Rattle.logbook.specs.Pages.{Book};

    ghost book: { Book };
}

impl Naming for Brand {
    ghost book = { record { number = 0; log_name = 0; cells_name = 0 } };
}

/// An empty list that has no name yet. Contracts see it as the book in which the list stands.
#[derive(Drop)]
pub struct Opened<E> {
    length: Word<E, u64, Law>,
    seen: Seen<E, u64, Law>,
}

impl<E> Model for Opened<E> {
    ghost use Rattle.std.specs.Prelude.{◌≡◌, []};
    ghost use Rattle.logbook.specs.Pages.{Book, book_coded};
    ghost use Rattle.sight.specs.Lengths.{first_word};

    ghost Value = { Book };

    ghost coded = { book_coded };

    ghost view = { λ o. o.seen.book };

    ghost invariant = { λ o. (o.seen.log ≡ []) × (o.length ≡ first_word o.seen.book) };
}

impl<E> Opened<E> {
    /// A new list, with no entry.
    pub fn new() -> Opened<E> {
        let (seen, mut first, _second) = Seen::open(Start::alone(), 0, 0);
        Opened {
            length: Word::tracked(0, &mut first),
            seen,
        }
    }

    /// The roll of the list, and the sight of no entry, under the list's name.
    pub fn named<J: Naming>(self) -> (Roll<E, J>, Sight<E, J>)
        requires name { self ≡ J.book }
        ensures nothing { result.1 ≡ [] }
    {
        let Opened { length, seen } = self;
        (
            Roll {
                length,
                of: PhantomData,
            },
            Sight {
                count: 0,
                seen,
                of: PhantomData,
            },
        )
    }
}

/// The word that counts the list's entries: by it entries are added.
#[derive(Drop)]
pub struct Roll<E, J: Naming> {
    length: Word<E, u64, Law>,
    of: PhantomData<J>,
    ghost named: { length ≡ first_word J.book },
}

/// How far a list that only grows was seen: a beginning of it, which contracts see as its entries. What is kept of it when the program runs is
/// one number, how many they are; threads may share it.
#[derive(Drop)]
pub struct Sight<E, J: Naming> {
    count: u64,
    seen: Seen<E, u64, Law>,
    of: PhantomData<J>,
}

impl<E, J: Naming> Model for Sight<E, J> {
    ghost use Rattle.std.specs.Prelude.{◌≡◌, List, length};

    ghost Value = { List E };

    ghost view = { λ s. s.seen.log };

    ghost invariant = { λ s. (s.count ≡ length s.seen.log) × (s.seen.book ≡ J.book) };
}

impl<E, J: Naming> Sight<E, J> {
    /// How many entries were seen.
    pub fn len(&self) -> u64
        ensures { result ≡ length self.now }
    {
        self.count
    }

    /// The same sight again.
    pub fn again(&self) -> Sight<E, J>
        ensures { result ≡ self.now }
    {
        Sight {
            count: self.count,
            seen: self.seen.again(),
            of: PhantomData,
        }
    }

    /// Whether no more was seen than in another sight of the same list, which this one then begins. Otherwise more was, and the other begins it.
    pub fn begins(&self, other: &Sight<E, J>) -> bool
        ensures { MatchBool result (IsSight self.now other.now) (IsSight other.now self.now × (length other.now < length self.now)) }
    {
        let mut both = self.seen.again();
        both.learn(&other.seen);
        self.count <= other.count
    }
}

impl<E, J: Naming> Roll<E, J> {
    /// Adds an entry to the list, where no more is in it than was seen, and says whether it did. The sight has the entry then.
    ///
    /// It adds none only where the same list was added to by another than who has this sight.
    pub fn add(&self, sight: &mut Sight<E, J>, entry: &E) -> bool
        requires room { length sight.old < 2 ^ 62 }
        ensures { MatchBool result (sight.new ≡ sight.old ++ entry.now ∷ []) (sight.new ≡ sight.old) }
    {
        let mut seen = sight.seen.again();
        let mut offer: Offer<E, u64, Law, Nothing> = seen.plain::<Nothing, E, Adds>(entry);
        let mut pen = seen.no_pen();
        let count = sight.count;
        let found = self
            .length
            .compare_exchange::<Adds, Nothing>(count, count + 1, &mut seen, &mut offer, &mut pen);
        // Somebody else was first. The entry has no place then: its place is the one after what this sight has seen, and that is taken.
        if found != count {
            return false;
        }
        *sight = Sight {
            count: count + 1,
            seen,
            of: PhantomData,
        };
        true
    }
}
