//! A whole turn of a thread.

ghost use Rattle.std.specs.Prelude.{◌≡◌, ◌<◌, ◌≤◌, [], IfOk, length};
ghost use Rattle.machine_model.specs.Runnable.{IsRunnable};
ghost use Rattle.machine_model.specs.Turn.{rest_of_turn, turn};
ghost use Rattle.concrete_machine.specs.Turns.{turn_leaving};

use crate::advance::run_on;
use crate::operation::operate;
use crate::setting::Setting;
use machine_model::State;
use rc_base::NoMemory;
use run_types::TurnEnd;
use std::alloc::Global;

/// The turn goes on with its thread's instructions, unless the thread has ended.
#[tactic(auto, unfolding(machine_model::specs::Turn::rest_of_turn))]
fn finish_turn(
    setting: &Setting<'_>,
    state: &mut State,
    number: usize,
    left: &mut u32,
    decided: &mut Vec<u64>,
) -> Result<TurnEnd, NoMemory>
    requires small { IsRunnable setting.now.code }
    requires thread { number < length state.old.threads }
    ensures value { IfOk result (λ end.
        rest_of_turn setting.now number state.old left.old decided.old.items
        ≡ turn_leaving state.new left.new decided.new.items end) }
    ensures count { length state.new.threads ≡ length state.old.threads }
{
    if state.threads.items[number].ended.is_some() {
        return Ok(TurnEnd::Going);
    }
    let thread = &mut state.threads.items[number];
    let objects = &mut state.objects.items;
    let end = run_on(setting, thread, objects, left, decided)?;
    Ok(end)
}

/// Runs one turn of a thread in place: its pending operation, and then its invisible instructions until the
/// next operation is pending or it has ended. The numbers that it decides are added to `decided`, which is
/// empty.
#[tactic(auto, unfolding(machine_model::specs::Turn::turn))]
pub fn turn(
    alloc: Global,
    setting: &Setting<'_>,
    state: &mut State,
    number: usize,
    left: &mut u32,
    decided: &mut Vec<u64>,
) -> Result<TurnEnd, NoMemory>
    requires small { IsRunnable setting.now.code }
    requires few { length state.old.threads ≤ 16 }
    requires fresh { decided.old.items ≡ [] }
    ensures value { IfOk result (λ end.
        turn setting.now state.old number left.old ≡ turn_leaving state.new left.new decided.new.items end) }
    ensures few { IfOk result (λ end. length state.new.threads ≤ 16) }
{
    if number >= state.threads.items.len() {
        return Ok(TurnEnd::Spent);
    }
    if let Some(end) = operate(alloc, setting, state, number, left, decided)? {
        return Ok(end);
    }
    finish_turn(setting, state, number, left, decided)
}
