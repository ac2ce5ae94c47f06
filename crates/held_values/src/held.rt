//! What is held, and what is found.

ghost use Rattle.std.specs.Prelude.{◌≡◌, Ok, Err, IfOk, IfErr};

/// What is held, and what was found beside it.
///
/// Where it was not found, its error is given, and what is held is dropped.
pub fn beside<A: Drop, B: Drop, E: Drop>(held: A, found: Result<B, E>) -> Result<(A, B), E>
    ensures ok { IfOk result (λ both. (both.0 ≡ held) × (found ≡ Ok both.1)) }
    ensures err { IfErr result (λ error. found ≡ Err error) }
{
    match found {
        Ok(found) => Ok((held, found)),
        Err(error) => Err(error),
    }
}
