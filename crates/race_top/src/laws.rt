//! Laws of the definitions: what holds of every text and run. No function here does anything that a program
//! needs; each one's contract is a theorem.

pub use crate::analyser_pool::laws::{classes_have_evidence, jobs_give_results, unresolved_is_cut};
pub use crate::trace_replay::laws::{
    recorded_run_reaches, refusals_are_exact, refused_is_not_enabled,
};
