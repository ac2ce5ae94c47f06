//! The work that texts take, as it is counted against a limit.

ghost use Rattle.std.specs.Prelude.{◌≡◌};
ghost use Rattle.values.specs.Work.{text_work, text_of};

use super::atom::Atom;

/// How many bytes of a text are one unit of work.
const BYTES_A_UNIT: usize = 16;

/// The work of a text: one unit for each 16 bytes that are full.
pub fn text_work(text: &str) -> u64
    ensures { result ≡ text_work text.now }
{
    (text.len() / BYTES_A_UNIT) as u64
}

/// The work of the text of a value; 0 where it has none.
pub fn atom_work(atom: &Atom) -> u64
    ensures { result ≡ text_work (text_of atom.now) }
{
    match atom {
        Atom::String(text) | Atom::Untyped(text) => text_work(text.as_str()),
        Atom::Boolean(_) | Atom::Integer(_) => 0,
    }
}
