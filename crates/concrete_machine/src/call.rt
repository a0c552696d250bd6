//! The external calls that POSIX.1 threads and C's output functions give.

ghost use Rattle.std.specs.Prelude.{◌≡◌, ◌<◌, ◌≤◌, ◌%◌, [], ◌∷◌, ℕ, IfOk, List, Some, length, map, slice_get, slice_index, slice_set, true};
ghost use Rattle.machine_model.specs.Call.{call_of, created, is_awaited, is_blocked, joined, printed};
ghost use Rattle.machine_model.specs.Memory.{written};
ghost use Rattle.machine_model.specs.Operation.{made_by};
ghost use Rattle.machine_model.specs.Shared.{end_of, shared_of};
ghost use Rattle.machine_model.specs.Thread.{made};
ghost use Rattle.concrete_machine.specs.Call.{Calls, KeepsFrames, Prints, Refuses, items_of_call, joinable, stored, trap_or};
ghost use Rattle.concrete_machine.specs.Memory.{Writes};

use crate::memory::{place_of, write};
use crate::operand::number_at;
use crate::setting::Setting;
use crate::starts::make_thread;
use ir_types::{Extern, ItemKind};
use machine_model::{Object, ObjectKind, State, Thread};
use rc_base::NoMemory;
use run_types::{OutItem, Trap};
use std::alloc::Global;

/// A process has at most so many threads.
pub const MOST_THREADS: usize = 16;

/// POSIX's `EAGAIN`.
const AGAIN: u64 = 11;

/// What a call did.
#[derive(Clone, Copy)]
pub enum Called {
    /// It returned; a result that is not given is used nowhere.
    Returns {
        result: Option<u64>,
        item: Option<OutItem>,
    },
    Traps(Trap),
    /// There is no row for it.
    NoRow,
}

/// Whether the thread was made, and neither has ended nor was joined.
pub fn is_awaited(threads: &[Thread], number: u64) -> bool
    ensures { result ≡ is_awaited (slice_get (map end_of threads.now) number) }
{
    match threads.get(number as usize) {
        Some(thread) => thread.ended.is_none() && !thread.joined,
        None => false,
    }
}

/// Whether a call has to wait.
#[tactic(auto, unfolding(machine_model::specs::Call::is_blocked))]
pub fn is_blocked(state: &State, which: &Extern, decided: &[u64]) -> bool
    ensures { (number : ℕ) → result ≡ is_blocked (shared_of state.now) number which.now decided.now }
{
    match which {
        Extern::Join => is_awaited(&state.threads.items, number_at(decided, 0)),
        _ => false,
    }
}

/// Makes a thread and stores its number; at the limit it stores nothing.
fn create(
    alloc: Global,
    setting: &Setting<'_>,
    state: &mut State,
    function: u32,
    argument: u64,
    at: u64,
) -> Result<Called, NoMemory>
    requires few { length state.old.threads ≤ 16 }
    ensures value { IfOk result (λ called.
        Calls called (made setting.now.code function (argument ∷ []) ∷ []) state.old state.new
        (created (shared_of state.old) at)) }
    ensures few { IfOk result (λ called. length state.new.threads ≤ 16) }
    ensures kept { IfOk result (λ called. length state.old.threads ≤ length state.new.threads) }
    ensures frames { IfOk result (λ called. KeepsFrames state.old.threads state.new.threads) }
    ensures output { IfOk result (λ called. state.new.output ≡ state.old.output) }
    ensures items { IfOk result (Prints 0) }
{
    let count = state.threads.items.len();
    if count >= MOST_THREADS {
        return Ok(Called::Returns {
            result: Some(AGAIN),
            item: None,
        });
    }
    let thread = make_thread(alloc, setting.code, function, &[argument])?;
    if let Err(trap) = write(&mut state.objects.items, at, 8, count as u64) {
        return Ok(Called::Traps(trap));
    }
    state.threads.items.push(thread)?;
    Ok(Called::Returns {
        result: Some(0),
        item: None,
    })
}

/// The result of a thread that may be joined.
fn joinable(threads: &[Thread], number: u64) -> Option<u64>
    ensures { result ≡ joinable (slice_get threads.now number) }
{
    let thread = threads.get(number as usize)?;
    if thread.joined {
        return None;
    }
    Some(thread.ended.unwrap_or(0))
}

/// Why 8 bytes can't be written, if they can't.
#[tactic(auto, unfolding(machine_model::specs::Memory::written))]
fn refusal(objects: &[Object], at: u64) -> Option<Trap>
    ensures { (number : ℕ) → Refuses result (written objects.now at 8 number) }
{
    let Some(place) = place_of(objects, at, 8) else {
        return Some(Trap::BadAddress);
    };
    if objects[place].kind == ObjectKind::Constant {
        return Some(Trap::ReadOnly);
    }
    None
}

/// Why a thread can't be joined: a bad address comes before a bad join.
fn trap_of_join(objects: &[Object], at: u64) -> Trap
    ensures { (number : ℕ) → result ≡ trap_or Trap.BadJoin (stored objects.now at number) }
{
    if at == 0 {
        return Trap::BadJoin;
    }
    refusal(objects, at).unwrap_or(Trap::BadJoin)
}

/// Stores a thread's result, where a place for it is given.
fn store(objects: &mut [Object], at: u64, number: u64) -> Result<(), Trap>
    ensures { Writes result objects.old objects.new (stored objects.old at number) }
{
    if at == 0 {
        return Ok(());
    }
    write(objects, at, 8, number)
}

/// Notes that a thread was joined.
fn mark_joined(threads: &mut [Thread], number: u64)
    requires { number < length threads.old }
    ensures value { (thread : Thread) → slice_get threads.old number ≡ Some thread →
        threads.new ≡ slice_set threads.old number (record thread { joined = true }) }
    ensures frames { KeepsFrames threads.old threads.new }
{
    let thread = &mut threads[number as usize];
    thread.joined = true;
}

/// Joins a thread that is not awaited, and stores its result.
fn join(state: &mut State, number: u64, at: u64) -> Called
    ensures value { (others : List Thread) →
        Calls result others state.old state.new (joined (shared_of state.old) number at) }
    ensures count { length state.new.threads ≡ length state.old.threads }
    ensures frames { KeepsFrames state.old.threads state.new.threads }
    ensures output { state.new.output ≡ state.old.output }
    ensures items { Prints 0 result }
{
    let Some(result) = joinable(&state.threads.items, number) else {
        return Called::Traps(trap_of_join(&state.objects.items, at));
    };
    if let Err(trap) = store(&mut state.objects.items, at, result) {
        return Called::Traps(trap);
    }
    mark_joined(&mut state.threads.items, number);
    Called::Returns {
        result: Some(0),
        item: None,
    }
}

/// Prints one byte; its result is used nowhere.
#[tactic(auto, using(crate::proofs::Calls::state_stays))]
fn print(byte: u8) -> Called
    ensures value { (state : State) (others : List Thread) →
        Calls result others state state (printed (shared_of state) byte) }
    ensures items { Prints 1 result }
{
    Called::Returns {
        result: None,
        item: Some(OutItem {
            kind: ItemKind::Byte,
            bits: u64::from(byte),
        }),
    }
}

/// Does a call that is not blocked, its numbers decided. What it prints is not yet in the output. What traps
/// or has no row changes nothing.
#[tactic(auto, unfolding(machine_model::specs::Call::call_of, machine_model::specs::Operation::made_by))]
pub fn call(
    alloc: Global,
    setting: &Setting<'_>,
    state: &mut State,
    which: &Extern,
    arguments: &[u64],
    decided: &[u64],
) -> Result<Called, NoMemory>
    requires few { length state.old.threads ≤ 16 }
    ensures value { IfOk result (λ called. (number : ℕ) →
        Calls called (made_by setting.now.code which.now arguments.now) state.old state.new
        (call_of (shared_of state.old) number which.now arguments.now decided.now)) }
    ensures few { IfOk result (λ called. length state.new.threads ≤ 16) }
    ensures kept { IfOk result (λ called. length state.old.threads ≤ length state.new.threads) }
    ensures frames { IfOk result (λ called. KeepsFrames state.old.threads state.new.threads) }
    ensures output { IfOk result (λ called. state.new.output ≡ state.old.output) }
    ensures items { IfOk result (Prints (items_of_call which.now)) }
{
    let place = number_at(decided, 0);
    match which {
        Extern::Create { function } => {
            let argument = number_at(arguments, 2);
            create(alloc, setting, state, *function, argument, place)
        }
        Extern::Join => Ok(join(state, place, number_at(decided, 1))),
        Extern::Putchar => Ok(print((number_at(arguments, 0) % 256) as u8)),
        _ => Ok(Called::NoRow),
    }
}
