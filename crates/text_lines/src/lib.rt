//! Texts of lines: their parts, their numbers, and runs of turns.
//!
//! - `part`: a text parted at a byte, as lines and words are
//! - `number`: decimal numbers without a leading zero, alone and side by side
//! - `run_word`: runs of turns as they are spelled, `T` or `T*N`
//! - `thread_run`: turns as the longest runs of equal threads
//! - `laws`: that what is parted, spelled or joined is read back, and the other way round
#![tactic(auto)]

pub mod laws;
mod number;
mod part;
mod run_word;
mod thread_run;

pub use number::{one_number, read_number, three_numbers, two_numbers};
pub use part::Parts;
pub use run_word::{RunWord, RunWords};
pub use thread_run::{ThreadRun, split_first_run};
