//! Operations that have a value everywhere.

ghost use Rattle.std.specs.Prelude.{◌≡◌};
ghost use Rattle.ir_types.specs.Total as spec;
ghost use Rattle.ir_types.specs.Width.{bits_of};

use crate::arithmetic::binary;
use crate::operation::{BinOp, OpTrap};
use crate::word::{Width, Word};

/// The value of an operation; where the LLVM Language Reference gives none, the least value of a signed division that
/// overflows, and else 0. So what a machine sets and what a term says of it agree at every operand.
pub fn total(op: BinOp, a: Word, b: Word) -> Word
    requires { a.width ≡ b.width }
    ensures width { result.width ≡ a.width }
    ensures value { result.bits ≡ spec.total_value op (bits_of a.width) a.bits b.bits }
{
    match binary(op, a, b) {
        Ok(word) => word,
        Err(trap) => Word::truncated(a.width, on_trap(op, a.width, trap)),
    }
}

fn on_trap(op: BinOp, width: Width, trap: OpTrap) -> u64
    ensures { result ≡ spec.on_trap op (bits_of width) trap }
{
    match (op, trap) {
        (BinOp::Sdiv, OpTrap::DivOverflow) => 1 << (width.bits() - 1),
        _ => 0,
    }
}
