//! The operation with which a turn begins: the start of its thread, or a visible instruction.

ghost use Rattle.std.specs.Prelude.{◌≡◌, ◌<◌, ◌≤◌, ◌++◌, [], ℕ, List, IfOk, OnOk, Some, length, map, slice_get};
ghost use Rattle.machine_model.specs.Call.{Returned};
ghost use Rattle.machine_model.specs.Decision.{numbers_of};
ghost use Rattle.machine_model.specs.Effect.{Effect as Effects, mapped};
ghost use Rattle.machine_model.specs.Instruction.{effect_of};
ghost use Rattle.machine_model.specs.Operation.{charged_for_items, footprint_of, put_back, result_of_return, after_call, visible_effect, with_frame};
ghost use Rattle.machine_model.specs.Step.{first_step, first_step_in};
ghost use Rattle.machine_model.specs.Thread.{moved_on_after, top, value_of, with_top};
ghost use Rattle.machine_model.specs.Turn.{charged, paid};
ghost use Rattle.concrete_machine.specs.Advance.{moved_to};
ghost use Rattle.concrete_machine.specs.Call.{Calls, Prints};
ghost use Rattle.concrete_machine.specs.Frame.{HasRoom};
ghost use Rattle.concrete_machine.specs.Operation.{Acts, CanGoOn, IsTop, items_of};
ghost use Rattle.machine_model.specs.Runnable.{IsRunnable};

use crate::call::{Called, call, is_blocked};
use crate::code::{Placed, next_of};
use crate::effect::{Effect, apply};
use crate::frame::{pass, set, top};
use crate::operand::{decide_numbers, value_of};
use crate::setting::Setting;
use crate::thread_end::end_thread;
use ir_types::{Extern, Inst, Operand, Site};
use machine_model::{Frame, Operation, State, Thread};
use rc_base::NoMemory;
use run_types::{Trap, TurnEnd};
use std::alloc::Global;

/// What a visible instruction did.
#[derive(Clone, Copy)]
pub enum Action {
    Done,
    Exits(u8),
    Traps(Trap),
    Blocks,
    /// There is no row for it.
    NoRow,
}

/// How many items an instruction prints, each of which costs 1 beyond the instruction.
fn items_of(inst: &Inst) -> u32
    ensures { result ≡ items_of inst.now }
{
    match inst {
        Inst::External {
            which: Extern::Putchar,
            ..
        } => 1,
        _ => 0,
    }
}

/// The frame that runs goes on after its call, with the call's result in its register, where it has both.
fn go_on(thread: &mut Thread, to: Option<u32>, value: Option<u64>)
    requires { HasRoom (top thread.old) }
    ensures { (frame : Frame) → top thread.old ≡ Some frame →
        thread.new ≡ with_top thread.old (moved_on_after frame to value) }
{
    match (to, value) {
        (Some(register), Some(number)) => set(thread, register, number),
        _ => pass(thread),
    }
}

/// The caller goes on with the call's result.
fn resume(state: &mut State, number: usize, to: Option<u32>, value: Option<u64>)
    requires { CanGoOn (slice_get state.old.threads number) }
    ensures value { (frame : Frame) → IsTop state.old number frame →
        state.new ≡ with_frame state.old number (moved_on_after frame to value) (slice_get state.old.threads number) }
    ensures count { length state.new.threads ≡ length state.old.threads }
{
    let thread = &mut state.threads.items[number];
    go_on(thread, to, value);
}

/// After a call the caller goes on, and what the call printed is added to the output.
fn conclude(
    state: &mut State,
    number: usize,
    to: Option<u32>,
    called: Called,
) -> Result<Action, NoMemory>
    requires { CanGoOn (slice_get state.old.threads number) }
    ensures value { IfOk result (λ action. (count : ℕ) (before : State) (others : List Thread) (frame : Frame) (effect : Effects Returned) →
        IsTop state.old number frame → Prints count called →
        state.old.output ≡ before.output → Calls called others before state.old effect →
        Acts action count before state.new (charged_for_items (after_call before others number frame to) effect)) }
    ensures count { OnOk result (length state.new.threads ≡ length state.old.threads) }
{
    match called {
        Called::Returns {
            result: value,
            item,
        } => {
            resume(state, number, to, value);
            if let Some(item) = item {
                state.output.items.push(item)?;
            }
            Ok(Action::Done)
        }
        Called::Traps(trap) => Ok(Action::Traps(trap)),
        Called::NoRow => Ok(Action::NoRow),
    }
}

/// The numbers of a call's arguments.
fn arguments_of(alloc: Global, thread: &Thread, arguments: &[Operand]) -> Result<Vec<u64>, NoMemory>
    ensures { IfOk result (λ numbers. (frame : Frame) → top thread.now ≡ Some frame →
        numbers.items ≡ map (value_of frame) arguments.now) }
{
    let Some(frame) = top(thread) else {
        return Ok(Vec::new(alloc));
    };
    let numbers = arguments
        .iter()
        .map(|operand| value_of(frame, *operand))
        .collect(alloc)?;
    Ok(numbers)
}

/// What a return of the frame that runs gives, 0 where it gives nothing.
fn result_of_return(thread: &Thread, value: Option<Operand>) -> u64
    ensures { (frame : Frame) → top thread.now ≡ Some frame → result ≡ result_of_return frame value }
{
    match (top(thread), value) {
        (Some(frame), Some(operand)) => value_of(frame, operand),
        _ => 0,
    }
}

/// Does a visible instruction that changes only its thread and the objects: an access at a watched site.
fn access(
    setting: &Setting<'_>,
    state: &mut State,
    number: usize,
    decided: &[u64],
    inst: &Inst,
) -> Action
    requires { CanGoOn (slice_get state.old.threads number) }
    ensures value { (thread : Thread) (frame : Frame) →
        slice_get state.old.threads number ≡ Some thread → top thread ≡ Some frame →
        Acts result 0 state.old state.new (mapped (put_back state.old number)
        (effect_of setting.now number (footprint_of state.old thread) frame decided.now inst.now)) }
    ensures count { length state.new.threads ≡ length state.old.threads }
{
    let thread = &mut state.threads.items[number];
    let objects = &mut state.objects.items;
    match apply(setting, thread, objects, decided, inst) {
        Effect::Done => Action::Done,
        Effect::Traps(trap) => Action::Traps(trap),
        Effect::NoRow => Action::NoRow,
    }
}

/// Does a visible instruction, its numbers decided. What traps or blocks changes nothing.
#[tactic(auto, unfolding(machine_model::specs::Operation::visible_effect))]
fn act(
    alloc: Global,
    setting: &Setting<'_>,
    state: &mut State,
    number: usize,
    decided: &[u64],
    inst: &Inst,
) -> Result<Action, NoMemory>
    requires few { length state.old.threads ≤ 16 }
    requires thread { CanGoOn (slice_get state.old.threads number) }
    ensures value { IfOk result (λ action. (thread : Thread) (frame : Frame) →
        slice_get state.old.threads number ≡ Some thread → top thread ≡ Some frame →
        Acts action (items_of inst.now) state.old state.new
        (visible_effect setting.now state.old number thread frame decided.now inst.now)) }
    ensures few { IfOk result (λ action. length state.new.threads ≤ 16) }
    ensures kept { IfOk result (λ action. length state.old.threads ≤ length state.new.threads) }
{
    match inst {
        Inst::External { to, which, args } => {
            if is_blocked(state, which, decided) {
                return Ok(Action::Blocks);
            }
            let thread = &state.threads.items[number];
            let arguments = arguments_of(alloc, thread, &args.items)?;
            let called = call(alloc, setting, state, which, &arguments, decided)?;
            let action = conclude(state, number, *to, called)?;
            Ok(action)
        }
        Inst::Ret { value } => {
            let value = result_of_return(&state.threads.items[number], *value);
            let action = end_thread(state, number, value)?;
            Ok(action)
        }
        _ => Ok(access(setting, state, number, decided, inst)),
    }
}

/// Takes what an action costs, which is left, and says how the turn ends, if it does.
#[tactic(auto, unfolding(machine_model::specs::Turn::charged))]
fn settle(action: Action, more: u32, site: Site, left: &mut u32) -> Option<TurnEnd>
    requires { more < left.old }
    ensures { (before after : State) (decided : List ℕ) (effect : Effects State) →
        Acts action more before after effect →
        charged before left.old decided site effect ≡ moved_to result after left.new decided }
{
    match action {
        Action::Done => {
            *left = *left - more - 1;
            None
        }
        Action::Exits(status) => {
            *left = *left - more - 1;
            Some(TurnEnd::Exit(status))
        }
        Action::Traps(trap) => {
            *left -= 1;
            Some(TurnEnd::Trap(trap, site))
        }
        Action::Blocks | Action::NoRow => Some(TurnEnd::Spent),
    }
}

/// Runs a visible instruction, its numbers decided, unless it costs more than is left.
fn run_visible(
    alloc: Global,
    setting: &Setting<'_>,
    state: &mut State,
    number: usize,
    left: &mut u32,
    decided: &[u64],
    placed: &Placed<'_>,
) -> Result<Option<TurnEnd>, NoMemory>
    requires few { length state.old.threads ≤ 16 }
    requires thread { CanGoOn (slice_get state.old.threads number) }
    ensures value { IfOk result (λ end. (thread : Thread) (frame : Frame) (more : List ℕ) →
        slice_get state.old.threads number ≡ Some thread → top thread ≡ Some frame →
        charged state.old left.old more placed.now.site
        (visible_effect setting.now state.old number thread frame decided.now placed.now.inst.now)
        ≡ moved_to end state.new left.new more) }
    ensures few { IfOk result (λ end. length state.new.threads ≤ 16) }
    ensures kept { IfOk result (λ end. length state.old.threads ≤ length state.new.threads) }
{
    let more = items_of(placed.inst);
    if *left <= more {
        return Ok(Some(TurnEnd::Spent));
    }
    let action = act(alloc, setting, state, number, decided, placed.inst)?;
    Ok(settle(action, more, placed.site, left))
}

/// Decides the rest of an instruction's numbers, and gives all of them.
fn decide(
    alloc: Global,
    setting: &Setting<'_>,
    state: &State,
    thread: &Thread,
    addresses: &[u64],
    inst: &Inst,
    decided: &mut Vec<u64>,
) -> Result<Vec<u64>, NoMemory>
    requires { decided.old.items ≡ [] }
    ensures numbers { OnOk result ((frame : Frame) → top thread.now ≡ Some frame →
        decided.new.items ≡ numbers_of setting.now.code state.now.objects frame addresses.now inst.now) }
    ensures all { IfOk result (λ numbers. numbers.items ≡ addresses.now ++ decided.new.items) }
{
    if let Some(frame) = top(thread) {
        decide_numbers(setting.code, &state.objects.items, frame, inst, decided)?;
    }
    let mut numbers = Vec::from_slice(alloc, addresses)?;
    numbers.extend_from_slice(decided)?;
    Ok(numbers)
}

/// Runs the visible instruction that is pending.
#[tactic(auto, unfolding(machine_model::specs::Turn::paid))]
fn run_pending(
    alloc: Global,
    setting: &Setting<'_>,
    state: &mut State,
    number: usize,
    left: &mut u32,
    decided: &mut Vec<u64>,
) -> Result<Option<TurnEnd>, NoMemory>
    requires small { IsRunnable setting.now.code }
    requires few { length state.old.threads ≤ 16 }
    requires thread { number < length state.old.threads }
    requires fresh { decided.old.items ≡ [] }
    ensures value { IfOk result (λ end. (thread : Thread) (site : Site) (addresses : List ℕ) →
        slice_get state.old.threads number ≡ Some thread →
        thread.pending ≡ Operation.At site addresses →
        paid state.old left.old [] (first_step_in setting.now state.old number thread addresses (top thread))
        ≡ moved_to end state.new left.new decided.new.items) }
    ensures few { IfOk result (λ end. length state.new.threads ≤ 16) }
    ensures kept { IfOk result (λ end. length state.old.threads ≤ length state.new.threads) }
{
    let thread = &state.threads.items[number];
    let Operation::At {
        decided: addresses,
        ..
    } = &thread.pending
    else {
        return Ok(Some(TurnEnd::Spent));
    };
    let Some(placed) = next_of(setting.code, thread) else {
        return Ok(Some(TurnEnd::Spent));
    };
    let numbers = decide(
        alloc,
        setting,
        state,
        thread,
        &addresses.items,
        placed.inst,
        decided,
    )?;
    let end = run_visible(alloc, setting, state, number, left, &numbers, &placed)?;
    Ok(end)
}

/// Runs the operation that is pending, and says how the turn ends, if it does. `decided` is empty, and gets the
/// numbers that the operation decides when it runs.
#[tactic(auto, unfolding(machine_model::specs::Turn::paid, machine_model::specs::Step::first_step))]
pub fn operate(
    alloc: Global,
    setting: &Setting<'_>,
    state: &mut State,
    number: usize,
    left: &mut u32,
    decided: &mut Vec<u64>,
) -> Result<Option<TurnEnd>, NoMemory>
    requires small { IsRunnable setting.now.code }
    requires few { length state.old.threads ≤ 16 }
    requires thread { number < length state.old.threads }
    requires fresh { decided.old.items ≡ [] }
    ensures value { IfOk result (λ end. (thread : Thread) → slice_get state.old.threads number ≡ Some thread →
        paid state.old left.old [] (first_step setting.now state.old number thread thread.pending)
        ≡ moved_to end state.new left.new decided.new.items) }
    ensures few { IfOk result (λ end. length state.new.threads ≤ 16) }
    ensures kept { IfOk result (λ end. length state.old.threads ≤ length state.new.threads) }
{
    match &state.threads.items[number].pending {
        Operation::Start => {
            if *left == 0 {
                return Ok(Some(TurnEnd::Spent));
            }
            *left -= 1;
            Ok(None)
        }
        Operation::At { .. } => {
            let end = run_pending(alloc, setting, state, number, left, decided)?;
            Ok(end)
        }
        Operation::CondReturn { .. } | Operation::Nothing => Ok(Some(TurnEnd::Spent)),
    }
}
