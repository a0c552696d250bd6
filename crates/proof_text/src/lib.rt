//! The text of proofs: formulas with the logs that refute them.
//!
//! - `write`: the writer
//! - `read`, `progress`: the reader, line by line
//! - `line`: the lines of clauses, of steps and of counts
//! - `error`: what is wrong with a text
//! - `laws`: that what is read is what is written
#![tactic(auto)]

mod error;
pub mod laws;
mod line;
mod progress;
mod read;
mod write;

pub use error::ProofsError;
pub use read::read_proofs;
pub use write::write_proofs;
