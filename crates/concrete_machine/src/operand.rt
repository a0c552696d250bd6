//! The numbers of operands, and the numbers that an instruction decides.

ghost use Rattle.std.specs.Prelude.{◌≡◌, ◌≤◌, ◌++◌, ◌%◌, ◌^◌, List as Sequence, OnOk, length, map, slice_index, ℕ};
ghost use Rattle.ir_types.specs.Width.{bits_of};
ghost use Rattle.machine_model.specs.Decision.{addresses_of, addresses_of_call, is_tested, numbers_of, test_of, total_of_binary, value_of_binary};
ghost use Rattle.machine_model.specs.Thread.{value_of, width_of_operand};

use ir_types::{BinOp, Extern, Inst, Kind, Module, OpTrap, Operand, Width, Word, binary, total};
use machine_model::{Frame, Object};
use rc_base::NoMemory;

/// A number of a list, 0 past the last one.
pub fn number_at(numbers: &[u64], index: usize) -> u64
    ensures { result ≡ slice_index numbers.now index }
{
    numbers.get(index).copied().unwrap_or(0)
}

/// The number of an operand.
pub fn value_of(frame: &Frame, operand: Operand) -> u64
    ensures { result ≡ value_of frame.now operand }
{
    match operand {
        Operand::Register(register) => {
            let register = frame.registers.items.get(register as usize);
            register.copied().unwrap_or(0)
        }
        Operand::Constant(word) => word.bits,
    }
}

/// The width of an operand; a register that the function doesn't have counts as a pointer.
fn width_of_operand(code: &Module, frame: &Frame, operand: Operand) -> Width
    ensures { result ≡ width_of_operand code.now frame.now operand }
{
    match operand {
        Operand::Register(register) => {
            let Some(function) = code.functions.items.get(frame.function as usize) else {
                return Kind::Ptr.width();
            };
            let kind = function.registers.items.get(register as usize);
            kind.copied().unwrap_or(Kind::Ptr).width()
        }
        Operand::Constant(word) => word.width,
    }
}

/// What a binary operation gives at the lowest bits of its operands, both of the first one's width.
pub fn value_of_binary(
    code: &Module,
    frame: &Frame,
    op: BinOp,
    a: Operand,
    b: Operand,
) -> Result<u64, OpTrap>
    ensures { result ≡ value_of_binary code.now frame.now op a b }
{
    let (first, second) = words_of(code, frame, a, b);
    let word = binary(op, first, second)?;
    Ok(word.bits)
}

/// What it gives where it traps, too.
pub fn total_of_binary(code: &Module, frame: &Frame, op: BinOp, a: Operand, b: Operand) -> u64
    ensures { result ≡ total_of_binary code.now frame.now op a b }
{
    let (first, second) = words_of(code, frame, a, b);
    total(op, first, second).bits
}

/// The lowest bits of two operands, both of the first one's width.
fn words_of(code: &Module, frame: &Frame, a: Operand, b: Operand) -> (Word, Word)
    ensures width { result.0.width ≡ width_of_operand code.now frame.now a }
    ensures same { result.1.width ≡ result.0.width }
    ensures first { result.0.bits ≡ value_of frame.now a % 2 ^ bits_of result.0.width }
    ensures second { result.1.bits ≡ value_of frame.now b % 2 ^ bits_of result.0.width }
{
    let width = width_of_operand(code, frame, a);
    let first = Word::truncated(width, value_of(frame, a));
    let second = Word::truncated(width, value_of(frame, b));
    (first, second)
}

/// The number of an argument, 0 past the last one.
fn argument(frame: &Frame, arguments: &[Operand], index: usize) -> u64
    ensures { result ≡ slice_index (map (value_of frame.now) arguments.now) index }
{
    match arguments.get(index) {
        Some(operand) => value_of(frame, *operand),
        None => 0,
    }
}

#[tactic(auto, unfolding(machine_model::specs::Decision::addresses_of_call))]
fn decide_addresses_of_call(
    frame: &Frame,
    which: &Extern,
    arguments: &[Operand],
    decided: &mut Vec<u64>,
) -> Result<(), NoMemory>
    ensures { OnOk result (decided.new.items ≡ decided.old.items ++ addresses_of_call which.now (map (value_of frame.now) arguments.now)) }
{
    match which {
        Extern::Create { .. } => {
            decided.push(argument(frame, arguments, 0))?;
            Ok(())
        }
        Extern::Join => {
            decided.push(argument(frame, arguments, 0))?;
            decided.push(argument(frame, arguments, 1))?;
            Ok(())
        }
        _ => Ok(()),
    }
}

/// Adds the addresses and thread numbers that the instruction decides.
#[tactic(auto, unfolding(machine_model::specs::Decision::addresses_of))]
pub fn decide_addresses(frame: &Frame, inst: &Inst, decided: &mut Vec<u64>) -> Result<(), NoMemory>
    ensures { OnOk result (decided.new.items ≡ decided.old.items ++ addresses_of frame.now inst.now) }
{
    match inst {
        Inst::Load { at, .. } | Inst::Store { at, .. } => {
            decided.push(value_of(frame, *at))?;
            Ok(())
        }
        Inst::External { which, args, .. } => {
            decide_addresses_of_call(frame, which, args.items.as_slice(), decided)
        }
        _ => Ok(()),
    }
}

/// Whether an operation is tested for a trap.
fn is_tested(op: BinOp) -> bool
    ensures { result ≡ is_tested op }
{
    matches!(
        op,
        BinOp::Udiv
            | BinOp::Urem
            | BinOp::Sdiv
            | BinOp::Srem
            | BinOp::Shl
            | BinOp::Lshr
            | BinOp::Ashr
    )
}

/// The outcome of a trap test.
fn test_of(value: Result<u64, OpTrap>) -> u64
    ensures { result ≡ test_of value }
{
    match value {
        Ok(_) => 0,
        Err(OpTrap::DivZero | OpTrap::Overshift) => 1,
        Err(OpTrap::DivOverflow) => 2,
    }
}

/// Adds the numbers that the instruction decides after its addresses: the outcome of its trap test.
#[tactic(auto, unfolding(machine_model::specs::Decision::next_number, machine_model::specs::Decision::numbers_within))]
pub fn decide_numbers(
    code: &Module,
    objects: &[Object],
    frame: &Frame,
    inst: &Inst,
    decided: &mut Vec<u64>,
) -> Result<(), NoMemory>
    ensures value { OnOk result ((addresses : Sequence ℕ) →
        decided.new.items ≡ decided.old.items ++ numbers_of code.now objects.now frame.now addresses inst.now) }
    ensures grows { OnOk result (length decided.old.items ≤ length decided.new.items) }
{
    match inst {
        Inst::Binary { op, a, b, .. } if is_tested(*op) => {
            let value = value_of_binary(code, frame, *op, *a, *b);
            decided.push(test_of(value))?;
            Ok(())
        }
        _ => Ok(()),
    }
}
