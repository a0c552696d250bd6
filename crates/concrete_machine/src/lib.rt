//! The concrete machine: turns of threads over a state that is changed in place.
//!
//! - `course`: a run so far, turn by turn, of a machine and a chooser
//! - `machine`: a machine that runs a module, turn by turn
//! - `waiting`: what each thread waits to do, and whether it has to wait
//!
//! What a turn is made of:
//!
//! - `setting`: what stays the same in a run
//! - `code`: the instruction at a place
//! - `frame`: the frame of a thread that runs
//! - `visible`: which instructions wait for a turn of their own
//! - `operand`: the numbers of operands and the numbers that an instruction decides
//! - `memory`: reading and writing objects
//! - `effect`: what the instructions do that change only their thread and the objects
//! - `advance`: the invisible instructions of a turn
//! - `call`: the external calls
//! - `operation`: the operation with which a turn begins
//! - `thread_end`: the end of a thread
//! - `starts`: the state with which a run begins
//! - `turns`: a whole turn
#![tactic(auto)]

mod advance;
mod call;
mod code;
mod course;
mod effect;
mod frame;
mod machine;
mod memory;
mod operand;
mod operation;
mod setting;
mod starts;
mod thread_end;
mod turns;
mod visible;
mod waiting;

pub use course::{Advance, Course};
pub use machine::Machine;
pub use machine_model::Pending;
pub use run_types::TurnEnd;
