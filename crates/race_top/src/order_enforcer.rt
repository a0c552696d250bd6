//! The runs by which a race is judged: the primary with the repeat test, and the alternate, in which the race's
//! second access is enforced to come first.
//!
//! - `past`: what the repeat test compares with
//! - `tested`: runs with the repeat test
//! - `point`: the run up to the hold point
//! - `hold`: the hold of the race's first thread
//! - `begun`: the hold with the turn that this thread takes after it, which all schedules share
//! - `job`: the primary and the alternate as jobs

mod begun;
mod hold;
mod job;
mod past;
mod point;
mod tested;

pub use job::{Alternate, alternate_job, primary_job};
