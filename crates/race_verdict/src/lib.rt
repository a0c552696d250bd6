//! The class of a race, from the runs of its two orders.
//!
//! - `result`: what one job, a run on a path and a schedule, gave
//! - `verdict`: the class with its evidence
//! - `evidence`: the first job that shows each class but the last
//! - `harmless`: the runs that show the last
//! - `reduction`: from the results of all jobs to the verdict
//! - `laws`: which class comes when
#![tactic(auto)]

mod evidence;
mod harmless;
pub mod laws;
mod reduction;
mod result;
mod verdict;

pub use reduction::reduce;
pub use result::{JobKind, JobResult, Judged};
pub use verdict::{HarmlessRun, Verdict};
