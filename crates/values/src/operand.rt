//! Operands of a general comparison: atomic values, with what untyped ones read as.

ghost use Rattle.std.specs.Prelude.{◌≡◌, IfOk};
ghost use Rattle.values.specs.Readings.{integer_of, boolean_of};
ghost use Rattle.values.specs.Atoms.{or_fault};
ghost use Rattle.values.specs.Work.{text_work, text_of};
ghost use Rattle.values.specs.declared.atom.Atom.TheVariants.{Untyped};
ghost use Rattle.fault_codes.specs.declared.code.Code.TheVariants.{FORG0001};

use super::atom::Atom;
use super::readings::{cast_boolean, cast_integer, read_boolean, read_integer};
use super::work::atom_work;
use fault_codes::Code;
use shared_texts::Text;
use std::alloc::{AllocError, Global};
use std::marker::Model;

/// Which types stand on a side of a comparison, so that the untyped values of the other side are read as these.
#[derive(Clone, Copy)]
pub(super) struct Types {
    integer: bool,
    boolean: bool,
}

impl Types {
    /// The types of some values.
    pub(super) fn of(atoms: &[Atom]) -> Types {
        let mut types = Types {
            integer: false,
            boolean: false,
        };
        for atom in atoms {
            match atom {
                Atom::Integer(_) => types.integer = true,
                Atom::Boolean(_) => types.boolean = true,
                Atom::String(_) | Atom::Untyped(_) => {}
            }
        }
        types
    }
}

/// An atomic value with the work of its text, and with what it reads as, where it is untyped and that was read: a text is read once,
/// and not beside each other value.
#[derive(Drop)]
pub(super) struct Operand<'a> {
    atom: &'a Atom,
    integer: Option<Option<i64>>,
    boolean: Option<Option<bool>>,
    work: u64,
}

impl<'a> Model for Operand<'a> {
    ghost use Rattle.values.specs.declared.atom.Atom.{Atom};
    ghost use Rattle.values.specs.Operands.{IsRead, atom_code};

    ghost Value = { Atom };

    ghost coded = { atom_code };

    ghost view = { λ o. o.atom.now };

    ghost invariant = { IsRead };
}

impl<'a> Operand<'a> {
    /// A value, read as these types where it is untyped.
    pub(super) fn new(atom: &'a Atom, types: Types) -> Operand<'a>
        ensures { result ≡ atom.now }
    {
        match atom {
            Atom::Untyped(text) => Operand {
                atom,
                integer: types.integer.then(|| read_integer(text.as_str())),
                boolean: types.boolean.then(|| read_boolean(text.as_str())),
                work: atom_work(atom),
            },
            _ => Operand {
                atom,
                integer: None,
                boolean: None,
                work: atom_work(atom),
            },
        }
    }

    /// The value.
    pub(super) fn atom(&self) -> &Atom
        ensures { result.now ≡ self.now }
    {
        self.atom
    }

    /// The work of its text; 0 where it has none.
    pub(super) fn work(&self) -> u64
        ensures { result ≡ text_work (text_of self.now) }
    {
        self.work
    }

    /// The integer that its text reads as. Code: FORG0001 where it reads as none.
    pub(super) fn integer(&self, text: &Text) -> Result<i64, Code>
        requires { self.now ≡ Untyped text.now }
        ensures { result ≡ or_fault FORG0001 (integer_of text.now) }
    {
        match self.integer {
            Some(integer) => integer.ok_or(Code::FORG0001),
            None => cast_integer(text.as_str()),
        }
    }

    /// The boolean that its text reads as. Code: FORG0001 where it reads as none.
    pub(super) fn boolean(&self, text: &Text) -> Result<bool, Code>
        requires { self.now ≡ Untyped text.now }
        ensures { result ≡ or_fault FORG0001 (boolean_of text.now) }
    {
        match self.boolean {
            Some(boolean) => boolean.ok_or(Code::FORG0001),
            None => cast_boolean(text.as_str()),
        }
    }
}

/// Values, each read as these types where it is untyped. It fails where memory is refused.
pub(super) fn operands<'a>(
    alloc: Global,
    atoms: &'a [Atom],
    types: Types,
) -> Result<Vec<Operand<'a>>, AllocError>
    ensures { IfOk result (λ v. v.items ≡ atoms.now) }
{
    let mut read = Vec::with_capacity(alloc, atoms.len())?;
    for atom in atoms {
        read.push(Operand::new(atom, types))?;
    }
    Ok(read)
}
