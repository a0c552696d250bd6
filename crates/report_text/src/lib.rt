//! The texts that the program writes of runs and of races.
//!
//! - `replay`: the text of a replayed run
//! - `report`, `block`: the text of the classes of some races, and the block of one
//! - `turns`, `items`, `outcome`, `input`: what stands in their lines
//! - `numbers`: decimal and hexadecimal numbers
#![tactic(auto)]

mod block;
mod input;
mod items;
mod numbers;
mod outcome;
mod replay;
mod report;
mod turns;

pub use replay::print_replay;
pub use report::{RaceReport, print_report};
