//! Numbers.

ghost use Rattle.std.specs.Prelude.{◌≡◌, ◌≤◌, ◌<◌, ◌==◌, MatchOption, pos};
ghost use Rattle.query_tokens.specs.Limits.{max_integer};

use std::marker::Model;

/// The greatest number.
pub(crate) const MAX_INTEGER: u64 = 9223372036854775807;

/// The number that an integer literal spells (XQuery 1.0, section 3.1.1). It is at most 2^63 - 1 (our own limit), so that it is an integer of an evaluation.
#[derive(Clone, Copy, PartialEq, Eq, Debug)]
pub struct IntegerLiteral(u64);

impl Model for IntegerLiteral {
    ghost use Rattle.std.specs.Prelude.{ℕ, ◌≤◌};
    ghost use Rattle.query_tokens.specs.Limits.{max_integer};

    ghost Value = { ℕ };

    ghost view = { λ a. a.0 };

    ghost invariant = { λ a. a.0 ≤ max_integer };

    ghost inverse = { λ n. record { 0 = n } };
}

impl IntegerLiteral {
    /// That number; there is none above 2^63 - 1.
    pub fn new(number: u64) -> Option<IntegerLiteral>
        ensures { MatchOption result (max_integer < number) (λ n. (n ≤ max_integer) × (n ≡ number)) }
    {
        if number > MAX_INTEGER {
            return None;
        }
        Some(IntegerLiteral(number))
    }

    /// 0
    pub fn zero() -> IntegerLiteral
        ensures { result ≡ 0 }
    {
        IntegerLiteral(0)
    }

    /// The number, as an integer.
    pub fn value(self) -> i64
        ensures value { result ≡ pos self }
        ensures most { self ≤ max_integer }
    {
        self.0 as i64
    }

    /// Whether it is 0.
    pub fn is_zero(self) -> bool
        ensures { result ≡ self == 0 }
    {
        self.0 == 0
    }
}
