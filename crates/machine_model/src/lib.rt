//! The machine that runs modules: its state and runs as data, and what a step, a turn and a run are.
//!
//! - `state`: threads with their frames, objects, locks, conditions and the output
//! - `state_copy`: equal states
//! - `pending`, `mode`: what a thread waits to do, and by which rule turns are chosen
//! - `access`: the accesses of memory that are turns of their own, and which of them conflict
//! - `trap`, `run`: how an instruction fails, how a turn and a run end, and what a run leaves
//! - `case`, `race`: what is asked of a recorded run
//! - `copy`: equal inputs and turns
//! - `rows`: which instructions it runs
//!
//! The definitions of step, turn and run are in `specs/`.
#![tactic(auto)]

mod access;
mod mem_error;
mod mode;
mod pending;
mod rows;
mod state;
mod state_copy;

pub use access::Access;
pub use mem_error::MemError;
pub use mode::Mode;
pub use pending::Pending;
pub use rows::has_row;
pub use state::{Condition, Frame, Lock, Object, ObjectKind, Operation, State, Thread};
