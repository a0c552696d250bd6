//! The module of a text, for the commands: one that the machine can run, or what is wrong with it first.
//!
//! - `load`: the call that reads it
//! - `beyond`: the first instruction that the machine has no row for
//! - `lines`: the lines of a module's instructions
//! - `fault`: what a fault is called, and where it is
//! - `laws`: that a module without such an instruction has all of its rows
#![tactic(auto)]

mod beyond;
mod fault;
pub mod laws;
mod lines;
mod load;

pub use fault::{fault_line, fault_name};
pub use ir_read::ModuleError;
pub use load::load_module;
