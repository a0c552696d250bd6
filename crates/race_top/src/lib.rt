//! The program over any shelf, sinks and gate.
//!
//! - `top`: the call `run`, which does all of it
//! - `command`: what the words of the command line ask for
//! - `file`, `files`: the files that a command names, read whole and in order
//! - `answer`, `stop`: the text that they are due, or why there is none
//! - `recorded`, `races`: the recorded run that the files spell, and the races in it
//! - `refusal`, `status`: the line of a refused request, and the exit statuses
//! - `laws`: what holds of every text and run
//!
//! What `answer` stands on, in the order of the data:
//!
//! - `trace_replay`: the recorded run
//! - `order_enforcer`: the runs of a race's two orders
//! - `analyser_pool`: the classes of races, from these runs
#![tactic(auto)]

mod analyser_pool;
mod answer;
mod command;
mod file;
mod files;
pub mod laws;
mod order_enforcer;
mod races;
mod recorded;
mod refusal;
mod status;
mod stop;
mod top;
mod trace_replay;

pub use command::Command;
pub use file::File;
pub use refusal::Refusal;
pub use status::{NO_MEMORY, READ_FAILED, REFUSED, USAGE, WHOLE, WRITE_FAILED};
pub use top::run;
pub use trace_replay::{RaceError, ReplayError};
