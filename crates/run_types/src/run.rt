//! How turns and runs end, and what a run leaves.

use crate::out_item::OutItem;
use crate::trap::Trap;
use ir_types::{List, Site};

/// The threads that were chosen, in order. Thread numbers are below 16.
pub type Turns = List<u8>;

/// The numbers that a run decided: addresses, outcomes of branches and trap tests, sizes and the like.
pub type Decisions = List<u64>;

/// How a turn ends: the next operation of its thread is pending or the thread has ended, the process has
/// exited, an instruction trapped, or one was cut since it costs more than was left.
#[derive(Clone, Copy, Debug, PartialEq, Eq)]
pub enum TurnEnd {
    Going,
    Exit(u8),
    Trap(Trap, Site),
    Spent,
}

/// How a run ends.
#[derive(Clone, Copy, Debug, PartialEq, Eq)]
pub enum Outcome {
    Exit { status: u8 },
    Trap { trap: Trap, thread: u32, site: Site },
    /// Some thread has not ended, and none is enabled.
    Deadlock,
    /// The state after turn `turn` is that after turn `earlier`.
    Repeats { turn: u32, earlier: u32 },
    /// The budget of steps ran out.
    Spent,
}

/// Why the second order of a race can't be enforced.
#[derive(Clone, Copy, Debug, PartialEq, Eq)]
pub enum Reason {
    Stuck,
    Repeats,
    Ended,
    Diverged,
}

/// What a run leaves. Its turns are all threads that were chosen, the last one included where it trapped or
/// was cut.
#[derive(Debug, Drop)]
pub struct Run {
    pub turns: Turns,
    pub decisions: Decisions,
    pub output: List<OutItem>,
    pub outcome: Outcome,
}
