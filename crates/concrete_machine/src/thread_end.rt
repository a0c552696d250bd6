//! The end of a thread.

ghost use Rattle.std.specs.Prelude.{◌≡◌, ◌<◌, IfOk, OnOk, Some, length, slice_get};
ghost use Rattle.std.specs.List.{list_all};
ghost use Rattle.machine_model.specs.Memory.{dead, without};
ghost use Rattle.machine_model.specs.Operation.{ended, ends_with, with_status};
ghost use Rattle.machine_model.specs.Thread.{has_ended, top};
ghost use Rattle.concrete_machine.specs.Operation.{Acts};
ghost use Rattle.concrete_machine.specs.ThreadEnd.{left_by};

use crate::frame::top;
use crate::operation::Action;
use ir_types::ItemKind;
use machine_model::{Frame, Object, Operation, State, Thread};
use rc_base::NoMemory;
use run_types::OutItem;

/// Adds the exit status to the output.
fn push_status(state: &mut State, status: u8) -> Result<(), NoMemory>
    ensures { OnOk result (state.new ≡ with_status state.old status) }
{
    state.output.items.push(OutItem {
        kind: ItemKind::Status,
        bits: u64::from(status),
    })?;
    Ok(())
}

/// The object dies if its base is among these.
fn kill_one(object: &mut Object, bases: &[u64])
    ensures { object.new ≡ dead bases.now object.old }
{
    if bases.contains(&object.base) {
        object.live = false;
    }
}

/// The objects with these bases die.
fn kill(objects: &mut [Object], bases: &[u64])
    ensures { objects.new ≡ without bases.now objects.old }
{
    for object in objects.iter_mut() {
        kill_one(object, bases);
    }
}

/// The bases of the stack objects of the frame that runs.
fn stack_of(thread: &Thread) -> &[u64]
    ensures { (frame : Frame) → top thread.now ≡ Some frame → result.now ≡ frame.stack }
{
    match top(thread) {
        Some(frame) => frame.stack.items.as_slice(),
        None => &[],
    }
}

/// The thread ends with this result.
fn end(thread: &mut Thread, value: u64)
    ensures { thread.new ≡ ended thread.old value }
{
    thread.frames.items.clear();
    thread.pending = Operation::Nothing;
    thread.ended = Some(value);
}

/// A thread other than main ends, and its stack objects die.
fn leave(state: &mut State, number: usize, value: u64)
    requires { number < length state.old.threads }
    ensures value { (thread : Thread) (frame : Frame) →
        slice_get state.old.threads number ≡ Some thread → top thread ≡ Some frame →
        state.new ≡ left_by state.old number thread frame value }
    ensures count { length state.new.threads ≡ length state.old.threads }
{
    let thread = &mut state.threads.items[number];
    let objects = &mut state.objects.items;
    kill(objects, stack_of(thread));
    end(thread, value);
}

/// Whether all threads have ended.
fn all_have_ended(threads: &[Thread]) -> bool
    ensures { result ≡ list_all has_ended threads.now }
{
    threads.iter().all(|thread| thread.ended.is_some())
}

/// The end of a thread: main's ends the process with its result, and the last thread's ends it with 0.
pub fn end_thread(state: &mut State, number: usize, value: u64) -> Result<Action, NoMemory>
    requires { number < length state.old.threads }
    ensures value { IfOk result (λ action. (thread : Thread) (frame : Frame) →
        slice_get state.old.threads number ≡ Some thread → top thread ≡ Some frame →
        Acts action 0 state.old state.new (ends_with state.old number thread frame value)) }
    ensures count { OnOk result (length state.new.threads ≡ length state.old.threads) }
{
    if number == 0 {
        let status = (value % 256) as u8;
        push_status(state, status)?;
        return Ok(Action::Exits(status));
    }
    leave(state, number, value);
    if all_have_ended(&state.threads.items) {
        push_status(state, 0)?;
        return Ok(Action::Exits(0));
    }
    Ok(Action::Done)
}
