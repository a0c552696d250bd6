//! What one job of a race gave.

use ir_types::Input;
use run_types::{Reason, Run, Turns};

/// The result of a job. Job (p, 0) is the primary of path p with the repeat test, and job (p, j) from j = 1 is its
/// alternate with schedule j.
#[derive(Debug, Drop)]
pub struct JobResult {
    pub path: u32,
    pub schedule: u32,
    /// The path's input; of an absent path the recorded one.
    pub input: Input,
    pub kind: JobKind,
    pub judged: Judged,
}

/// What became of a job.
#[derive(Debug, Drop)]
pub enum JobKind {
    Ran(Run),
    /// The second order can't be enforced on this path; these turns were taken.
    Not { reason: Reason, turns: Turns },
    /// The path isn't listed, or its primary doesn't reach the race.
    Absent,
    /// Another job, which violates, makes this one needless.
    Skipped,
}

/// Whether some input of the path prints what an alternate printed.
#[derive(Debug, Drop)]
pub enum Judged {
    /// The least such input.
    Admitted(Input),
    /// There is none.
    Never,
    /// The job is a primary, or doesn't exit, or its path's primary doesn't.
    NotJudged,
}
