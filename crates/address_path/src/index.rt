//! The indices, and what one counts.

ghost use Rattle.std.specs.Prelude.{◌≡◌};
ghost use Rattle.address_path.specs.Path as spec;

use ir_types::{Kind, Operand, Width, Word};
use module_fault::{Cause, lesser, unless};

/// An index as it is written: the kind of its type, its operand, and what is wrong with that.
#[derive(Clone, Copy, Debug)]
pub struct Index {
    pub kind: Kind,
    pub value: Operand,
    pub cause: Option<Cause>,
}

impl Index {
    /// What is wrong with it, whatever it counts: it is of an integer type.
    pub fn fault(&self) -> Option<Cause>
        ensures { result ≡ spec.index_cause self.now }
    {
        lesser(
            unless(is_integer(self.kind), Cause::TypeMismatch),
            self.cause,
        )
    }
}

fn is_integer(kind: Kind) -> bool
    ensures { result ≡ spec.is_integer kind }
{
    matches!(kind, Kind::Int(_))
}

/// The number of a literal, extended by its sign to 64 bits.
pub fn extended(word: Word) -> u64
    ensures { result ≡ spec.extended word }
{
    Word::from_signed(Width::W64, word.signed()).bits
}

/// So many units more, modulo 2^64.
pub fn moved(fixed: u64, number: u64, unit: u64) -> u64
    ensures { result ≡ spec.moved fixed number unit }
{
    fixed.wrapping_add(number.wrapping_mul(unit))
}
