//! The state of a machine.

use ir_types::{Bytes, List, Site};
use run_types::OutItem;

/// All that a run changes. Thread `t` is member `t` of `threads`; the others are in order of creation.
#[derive(Debug, Drop, PartialEq, Eq)]
pub struct State {
    pub threads: List<Thread>,
    pub objects: List<Object>,
    /// The mutexes that are held, rising by address.
    pub locks: List<Lock>,
    /// The conditions that have a waiter, rising by address.
    pub conditions: List<Condition>,
    pub output: List<OutItem>,
}

/// A thread. Its last frame is the one that runs; a thread that has ended has none.
#[derive(Debug, Drop, PartialEq, Eq)]
pub struct Thread {
    pub frames: List<Frame>,
    /// The operation that its next turn runs; while its turn goes on, the one that the turn began with.
    pub pending: Operation,
    /// The result of a thread that has ended.
    pub ended: Option<u64>,
    pub joined: bool,
}

/// A call that goes on: the next instruction is number `place` of `block`, phis counted. A caller's place
/// stays at its call.
#[derive(Debug, Drop, PartialEq, Eq)]
pub struct Frame {
    pub function: u32,
    pub block: u32,
    pub place: u32,
    /// The numbers of the registers; one that is not set yet holds 0.
    pub registers: List<u64>,
    /// The bases of the frame's stack objects.
    pub stack: List<u64>,
}

/// What a thread waits to do: a visible operation, with the addresses and thread numbers that were decided
/// when it became pending.
#[derive(Debug, Drop, PartialEq, Eq)]
pub enum Operation {
    /// The start of the thread.
    Start,
    /// A visible instruction: a call, the end of the thread, or an access at a watched site.
    At { site: Site, decided: List<u64> },
    /// The return of a `pthread_cond_wait`.
    CondReturn { site: Site, decided: List<u64> },
    /// The thread has ended.
    Nothing,
}

/// Where an object came from.
#[derive(Clone, Copy, Debug, PartialEq, Eq)]
pub enum ObjectKind {
    Global,
    Constant,
    Stack,
    Heap,
}

/// A range of bytes of memory. `maker` is the thread that made it, 0 for a global.
#[derive(Debug, Drop, PartialEq, Eq)]
pub struct Object {
    pub base: u64,
    pub size: u64,
    pub maker: u32,
    pub kind: ObjectKind,
    pub live: bool,
    pub bytes: Bytes,
}

/// A mutex that is held, by its address and the thread that holds it.
#[derive(Clone, Copy, Debug, PartialEq, Eq)]
pub struct Lock {
    pub at: u64,
    pub owner: u32,
}

/// A condition, by its address, with the threads that wait for it in order of arrival.
#[derive(Debug, Drop, PartialEq, Eq)]
pub struct Condition {
    pub at: u64,
    pub waiters: List<u32>,
}
