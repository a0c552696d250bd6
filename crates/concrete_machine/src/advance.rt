//! The invisible instructions of a turn.

ghost use Rattle.std.specs.Prelude.{◌≡◌, ℕ, IfOk, IfSome, IsSome, List as Sequence, OnOk, Some};
ghost use Rattle.machine_model.specs.Instruction.{effect_of};
ghost use Rattle.machine_model.specs.Step.{next_step};
ghost use Rattle.machine_model.specs.Thread.{top};
ghost use Rattle.machine_model.specs.Turn.{charged, paid, steps_from};
ghost use Rattle.concrete_machine.specs.Advance.{moved_to};
ghost use Rattle.concrete_machine.specs.Effect.{footprint_with};
ghost use Rattle.concrete_machine.specs.Frame.{HasNext};
ghost use Rattle.concrete_machine.specs.Turns.{turn_leaving};
ghost use Rattle.machine_model.specs.Runnable.{IsRunnable};

use crate::code::{Placed, next_in};
use crate::effect::{Effect, apply};
use crate::frame::top;
use crate::operand::{decide_addresses, decide_numbers};
use crate::setting::Setting;
use crate::visible::is_visible;
use ir_types::{List, Site};
use machine_model::{Frame, Object, Operation, Thread};
use rc_base::NoMemory;
use run_types::TurnEnd;
use std::alloc::Global;

/// Makes a visible instruction the thread's pending operation.
fn wait_at(alloc: Global, thread: &mut Thread, site: Site, decided: &[u64]) -> Result<(), NoMemory>
    ensures { OnOk result (thread.new ≡ record thread.old { pending = Operation.At site decided.now }) }
{
    let items = Vec::from_slice(alloc, decided)?;
    thread.pending = Operation::At {
        site,
        decided: List { items },
    };
    Ok(())
}

/// Runs an invisible instruction, its numbers decided, where a step is left.
#[tactic(auto, unfolding(machine_model::specs::Turn::charged))]
fn run_one(
    setting: &Setting<'_>,
    thread: &mut Thread,
    objects: &mut [Object],
    left: &mut u32,
    numbers: &[u64],
    placed: &Placed<'_>,
) -> Option<TurnEnd>
    requires frame { IsSome (top thread.old) }
    requires next { IfSome (top thread.old) HasNext }
    ensures { (number : ℕ) (frame : Frame) (decided : Sequence ℕ) → top thread.old ≡ Some frame →
        charged (footprint_with thread.old objects.old) left.old decided placed.now.site
        (effect_of setting.now number (footprint_with thread.old objects.old) frame numbers.now placed.now.inst.now)
        ≡ moved_to result (footprint_with thread.new objects.new) left.new decided }
{
    if *left == 0 {
        return Some(TurnEnd::Spent);
    }
    match apply(setting, thread, objects, numbers, placed.inst) {
        Effect::Done => {
            *left -= 1;
            None
        }
        Effect::Traps(trap) => {
            *left -= 1;
            Some(TurnEnd::Trap(trap, placed.site))
        }
        Effect::NoRow => Some(TurnEnd::Spent),
    }
}

/// Runs the next instruction of a thread if it is invisible, and makes it pending if it is visible. Answers
/// how the turn has ended, if it has.
#[tactic(auto, unfolding(machine_model::specs::Turn::paid, machine_model::specs::Step::next_step))]
fn step(
    setting: &Setting<'_>,
    thread: &mut Thread,
    objects: &mut [Object],
    left: &mut u32,
    decided: &mut Vec<u64>,
) -> Result<Option<TurnEnd>, NoMemory>
    requires { IsRunnable setting.now.code }
    ensures { IfOk result (λ end. (number : ℕ) →
        paid (footprint_with thread.old objects.old) left.old decided.old.items
        (next_step setting.now number (footprint_with thread.old objects.old))
        ≡ moved_to end (footprint_with thread.new objects.new) left.new decided.new.items) }
{
    let Some(frame) = top(thread) else {
        return Ok(Some(TurnEnd::Spent));
    };
    let Some(placed) = next_in(setting.code, frame) else {
        return Ok(Some(TurnEnd::Spent));
    };
    let before = decided.len();
    decide_addresses(frame, placed.inst, decided)?;
    if is_visible(setting.watch, thread, placed.site, placed.inst) {
        wait_at(
            *decided.allocator(),
            thread,
            placed.site,
            &decided[before..],
        )?;
        return Ok(Some(TurnEnd::Going));
    }
    decide_numbers(setting.code, objects, frame, placed.inst, decided)?;
    Ok(run_one(setting, thread, objects, left, &decided[before..], &placed))
}

/// Runs invisible instructions of a thread until its next operation is pending, one traps or one is cut.
pub fn run_on(
    setting: &Setting<'_>,
    thread: &mut Thread,
    objects: &mut [Object],
    left: &mut u32,
    decided: &mut Vec<u64>,
) -> Result<TurnEnd, NoMemory>
    requires { IsRunnable setting.now.code }
    ensures { IfOk result (λ end. (number : ℕ) → steps_from setting.now number (footprint_with thread.old objects.old) left.old decided.old.items
        ≡ turn_leaving (footprint_with thread.new objects.new) left.new decided.new.items end) }
{
    let most = u64::from(*left) + 1;
    for _ in 0..most {
        if let Some(end) = step(setting, thread, objects, left, decided)? {
            return Ok(end);
        }
    }
    Ok(TurnEnd::Spent)
}
