//! What a thread waits to do, and whether it has to wait for that.

ghost use Rattle.std.specs.Prelude.{◌≡◌, ℕ};
ghost use Rattle.machine_model.specs.Access.{pending_in, pending_inst, pending_operation};
ghost use Rattle.machine_model.specs.Enabled.{has_to_wait, is_enabled, waits_for, waits_in};
ghost use Rattle.machine_model.specs.Runnable.{IsRunnable};
ghost use Rattle.machine_model.specs.Shared.{shared_of};
ghost use Rattle.machine_model.specs.Thread.{top};

use crate::call::is_blocked;
use crate::code::next_of;
use crate::operand::number_at;
use ir_types::{Inst, Module, Site};
use machine_model::{Operation, Pending, State, Thread};

/// A visible instruction as other threads see it, its address decided.
fn pending_inst(site: Site, decided: &[u64], inst: &Inst) -> Pending
    ensures { result ≡ pending_inst site decided.now inst.now }
{
    match inst {
        Inst::Load { kind, .. } => Pending::Access {
            site,
            at: number_at(decided, 0),
            len: kind.size() as u32,
            store: false,
        },
        Inst::Store { kind, .. } => Pending::Access {
            site,
            at: number_at(decided, 0),
            len: kind.size() as u32,
            store: true,
        },
        _ => Pending::Other,
    }
}

/// What a thread waits to do whose next instruction is visible.
fn pending_at(code: &Module, thread: &Thread, site: Site, decided: &[u64]) -> Pending
    requires { IsRunnable code.now }
    ensures { result ≡ pending_in code.now site decided.now (top thread.now) }
{
    match next_of(code, thread) {
        Some(placed) => pending_inst(site, decided, placed.inst),
        None => Pending::Other,
    }
}

/// What a thread of the module waits to do.
#[tactic(auto, unfolding(machine_model::specs::Access::pending_operation))]
pub fn pending_operation(code: &Module, thread: &Thread) -> Pending
    requires { IsRunnable code.now }
    ensures { result ≡ pending_operation code.now thread.now thread.now.pending }
{
    match &thread.pending {
        Operation::Start => Pending::Start,
        Operation::At { site, decided } => pending_at(code, thread, *site, &decided.items),
        Operation::CondReturn { .. } => Pending::Other,
        Operation::Nothing => Pending::Ended,
    }
}

/// Whether an instruction has to wait, its addresses decided: only calls do.
#[tactic(auto, unfolding(machine_model::specs::Enabled::waits_for))]
fn waits_for(state: &State, decided: &[u64], inst: &Inst) -> bool
    ensures { (number : ℕ) → result ≡ waits_for (shared_of state.now) number decided.now inst.now }
{
    match inst {
        Inst::External { which, .. } => is_blocked(state, which, decided),
        _ => false,
    }
}

/// Whether a thread has to wait whose next instruction is visible.
fn waits_at(code: &Module, state: &State, thread: &Thread, decided: &[u64]) -> bool
    requires { IsRunnable code.now }
    ensures { (number : ℕ) → result ≡ waits_in code.now (shared_of state.now) number decided.now (top thread.now) }
{
    match next_of(code, thread) {
        Some(placed) => waits_for(state, decided, placed.inst),
        None => false,
    }
}

/// Whether a thread has to wait for the operation that it waits to do.
#[tactic(auto, unfolding(machine_model::specs::Enabled::has_to_wait))]
fn has_to_wait(code: &Module, state: &State, thread: &Thread) -> bool
    requires { IsRunnable code.now }
    ensures { (number : ℕ) →
        result ≡ has_to_wait code.now (shared_of state.now) number thread.now thread.now.pending }
{
    match &thread.pending {
        Operation::At { decided, .. } => waits_at(code, state, thread, &decided.items),
        Operation::Start | Operation::CondReturn { .. } | Operation::Nothing => false,
    }
}

/// Whether the thread of this number was made, has not ended, and does not have to wait.
#[tactic(auto, unfolding(machine_model::specs::Enabled::is_enabled))]
pub fn is_enabled(code: &Module, state: &State, number: usize) -> bool
    requires { IsRunnable code.now }
    ensures { result ≡ is_enabled code.now state.now number }
{
    match state.threads.items.get(number) {
        Some(thread) => thread.ended.is_none() && !has_to_wait(code, state, thread),
        None => false,
    }
}
