//! The data of runs, of races in them, and of the cases that ask for both: what texts are read into and made of. No
//! definition of the machine stands here, so whatever reads and prints these is not proved again when the machine grows.
//!
//! - `trap`: how an instruction fails
//! - `out_item`, `run`: what a run prints, how turns and runs end, and what a run leaves
//! - `race`, `case`: races, paths, and what is asked of a recorded run
//! - `copy`: equal inputs and turns
#![tactic(auto)]

mod case;
mod copy;
mod out_item;
mod race;
mod run;
mod trap;

pub use case::{Case, Key};
pub use copy::{copy_input, copy_turns};
pub use out_item::OutItem;
pub use race::{Path, Race};
pub use run::{Decisions, Outcome, Reason, Run, TurnEnd, Turns};
pub use trap::Trap;
