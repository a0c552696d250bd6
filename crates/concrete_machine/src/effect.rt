//! What the instructions do that change only their thread and the objects.

ghost use Rattle.std.specs.Prelude.{◌≡◌, ◌%◌, ◌^◌, ℕ, IfSome, IsSome, List, Some};
ghost use Rattle.ir_types.specs.Kind.{size_of, width_of};
ghost use Rattle.ir_types.specs.Width.{bits_of};
ghost use Rattle.machine_model.specs.Decision.{total_of_binary};
ghost use Rattle.machine_model.specs.Effect.{done_or_traps};
ghost use Rattle.machine_model.specs.Instruction.{done_unless, effect_of, sets, stores, trap_of_test};
ghost use Rattle.machine_model.specs.Memory.{read, written};
ghost use Rattle.machine_model.specs.Thread.{top, value_of};
ghost use Rattle.concrete_machine.specs.Effect.{Effects, footprint_with};
ghost use Rattle.concrete_machine.specs.Frame.{HasNext};

use crate::frame::{pass, running, set};
use crate::memory::{read, write};
use crate::operand::{number_at, total_of_binary, value_of};
use crate::setting::Setting;
use ir_types::{BinOp, Inst, Kind, Module, Operand, Word};
use machine_model::{Frame, Object, Thread};
use run_types::Trap;

/// What an instruction did.
#[derive(Clone, Copy)]
pub enum Effect {
    Done,
    Traps(Trap),
    /// There is no row for it.
    NoRow,
}

/// The trap that the outcome of an operation's test means.
fn trap_of_test(op: BinOp, test: u64) -> Option<Trap>
    ensures { result ≡ trap_of_test op test }
{
    match op {
        BinOp::Add | BinOp::Sub | BinOp::Mul | BinOp::And | BinOp::Or | BinOp::Xor => None,
        BinOp::Udiv | BinOp::Urem | BinOp::Sdiv | BinOp::Srem => match test {
            0 => None,
            1 => Some(Trap::DivZero),
            _ => Some(Trap::DivOverflow),
        },
        BinOp::Shl | BinOp::Lshr | BinOp::Ashr => match test {
            0 => None,
            _ => Some(Trap::Overshift),
        },
    }
}

fn compute(
    code: &Module,
    thread: &mut Thread,
    to: u32,
    op: BinOp,
    a: Operand,
    b: Operand,
    test: u64,
) -> Effect
    requires frame { IsSome (top thread.old) }
    requires next { IfSome (top thread.old) HasNext }
    ensures { (frame : Frame) (objects : List Object) → top thread.old ≡ Some frame →
        Effects result (footprint_with thread.old objects) (footprint_with thread.new objects)
        (done_unless (sets (footprint_with thread.old objects) frame to (total_of_binary code.now frame op a b))
        (trap_of_test op test)) }
{
    if let Some(trap) = trap_of_test(op, test) {
        return Effect::Traps(trap);
    }
    let value = total_of_binary(code, running(thread), op, a, b);
    set(thread, to, value);
    Effect::Done
}

fn load(thread: &mut Thread, objects: &[Object], to: u32, kind: Kind, at: u64) -> Effect
    requires frame { IsSome (top thread.old) }
    requires next { IfSome (top thread.old) HasNext }
    ensures { (frame : Frame) → top thread.old ≡ Some frame →
        Effects result (footprint_with thread.old objects.now) (footprint_with thread.new objects.now)
        (done_or_traps (λ value. sets (footprint_with thread.old objects.now) frame to (value % 2 ^ bits_of (width_of kind)))
        (read objects.now at (size_of kind))) }
{
    match read(objects, at, kind.size()) {
        Ok(number) => {
            let word = Word::truncated(kind.width(), number);
            set(thread, to, word.bits);
            Effect::Done
        }
        Err(trap) => Effect::Traps(trap),
    }
}

fn store(thread: &mut Thread, objects: &mut [Object], kind: Kind, value: Operand, at: u64) -> Effect
    requires frame { IsSome (top thread.old) }
    requires next { IfSome (top thread.old) HasNext }
    ensures { (frame : Frame) → top thread.old ≡ Some frame →
        Effects result (footprint_with thread.old objects.old) (footprint_with thread.new objects.new)
        (done_or_traps (stores (footprint_with thread.old objects.old) frame)
        (written objects.old at (size_of kind) (value_of frame value % 2 ^ bits_of (width_of kind)))) }
{
    let word = Word::truncated(kind.width(), value_of(running(thread), value));
    match write(objects, at, kind.size(), word.bits) {
        Ok(()) => {
            pass(thread);
            Effect::Done
        }
        Err(trap) => Effect::Traps(trap),
    }
}

/// Does an instruction of the frame that runs, its numbers decided. What traps or has no row changes nothing.
#[tactic(auto, unfolding(machine_model::specs::Instruction::effect_of))]
pub fn apply(
    setting: &Setting<'_>,
    thread: &mut Thread,
    objects: &mut [Object],
    decided: &[u64],
    inst: &Inst,
) -> Effect
    requires frame { IsSome (top thread.old) }
    requires next { IfSome (top thread.old) HasNext }
    ensures { (number : ℕ) (frame : Frame) → top thread.old ≡ Some frame →
        Effects result (footprint_with thread.old objects.old) (footprint_with thread.new objects.new)
        (effect_of setting.now number (footprint_with thread.old objects.old) frame decided.now inst.now) }
{
    match inst {
        Inst::Binary { to, op, a, b } => compute(
            setting.code,
            thread,
            *to,
            *op,
            *a,
            *b,
            number_at(decided, 0),
        ),
        Inst::Load { to, kind, .. } => load(thread, objects, *to, *kind, number_at(decided, 0)),
        Inst::Store { kind, value, .. } => {
            store(thread, objects, *kind, *value, number_at(decided, 0))
        }
        _ => Effect::NoRow,
    }
}
