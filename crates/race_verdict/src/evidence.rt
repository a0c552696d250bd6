//! The first job of each class but the last, in a verdict that shows it.

ghost use Rattle.std.specs.Option.{option_copied};
ghost use Rattle.std.specs.Prelude.{◌≡◌, IfOk, filter};
ghost use Rattle.race_verdict.specs.Verdict.{counts, difference, is_exit, first_of, is_alternate, primary_run, reason_of, run_that, spending, violates, violation};

use crate::result::{JobKind, JobResult, Judged};
use crate::verdict::Verdict;
use ir_types::List;
use rc_base::NoMemory;
use run_types::{OutItem, Outcome, Reason, Run, Turns, copy_input, copy_turns};
use std::alloc::Global;

/// Whether a run that ends so violates the specification.
fn violates(outcome: Outcome) -> bool
    ensures { result ≡ violates outcome }
{
    match outcome {
        Outcome::Trap { .. } | Outcome::Deadlock | Outcome::Repeats { .. } => true,
        Outcome::Exit { .. } | Outcome::Spent => false,
    }
}

/// The run of a job that exits.
pub fn exiting(kind: &JobKind) -> Option<&Run>
    ensures { option_copied result ≡ run_that is_exit kind.now }
{
    match kind {
        JobKind::Ran(run) => match run.outcome {
            Outcome::Exit { .. } => Some(run),
            _ => None,
        },
        _ => None,
    }
}

/// Whether the job is an alternate.
pub fn is_alternate(job: &JobResult) -> bool
    ensures { result ≡ is_alternate job.now }
{
    job.schedule > 0
}

/// Why the second order can't be enforced, and the turns that were taken: of the recorded path's first alternate.
fn reason_of(alloc: Global, job: &JobResult) -> Result<Option<(Reason, Turns)>, NoMemory>
    ensures { IfOk result (λ found. found ≡ reason_of job.now) }
{
    if job.path != 0 || job.schedule != 1 {
        return Ok(None);
    }
    match &job.kind {
        JobKind::Not { reason, turns } => Ok(Some((*reason, copy_turns(alloc, turns)?))),
        _ => Ok(None),
    }
}

/// The recorded path's reason why the second order can't be enforced, with the turns that were taken.
#[tactic(auto, using(crate::proofs::Firsts::first_found, crate::proofs::Firsts::first_more))]
pub fn first_reason(
    alloc: Global,
    results: &[JobResult],
) -> Result<Option<(Reason, Turns)>, NoMemory>
    ensures { IfOk result (λ found. found ≡ first_of reason_of results.now) }
{
    for job in results {
        if let Some(reason) = reason_of(alloc, job)? {
            return Ok(Some(reason));
        }
    }
    Ok(None)
}

/// What a job that violates shows.
fn violation(alloc: Global, job: &JobResult) -> Result<Option<Verdict>, NoMemory>
    ensures { IfOk result (λ found. found ≡ violation job.now) }
{
    let JobKind::Ran(run) = &job.kind else {
        return Ok(None);
    };
    if !violates(run.outcome) {
        return Ok(None);
    }
    Ok(Some(Verdict::SpecViolated {
        path: job.path,
        schedule: job.schedule,
        input: copy_input(alloc, &job.input)?,
        turns: copy_turns(alloc, &run.turns)?,
        fault: run.outcome,
    }))
}

/// Whether the job counts among those that may violate: each does, or the recorded path's primary alone.
fn counts(primary_alone: bool, job: &JobResult) -> bool
    ensures { result ≡ counts primary_alone job.now }
{
    !primary_alone || (job.path == 0 && job.schedule == 0)
}

/// The first job that violates, of those that count.
#[tactic(auto, using(crate::proofs::Firsts::passed_found, crate::proofs::Firsts::passed_more, crate::proofs::Firsts::passed_without))]
pub fn first_violation(
    alloc: Global,
    results: &[JobResult],
    primary_alone: bool,
) -> Result<Option<Verdict>, NoMemory>
    ensures { IfOk result (λ found. found ≡ first_of violation (filter (counts primary_alone) results.now)) }
{
    for job in results {
        if counts(primary_alone, job) {
            if let Some(verdict) = violation(alloc, job)? {
                return Ok(Some(verdict));
            }
        }
    }
    Ok(None)
}

/// The job's run, where it exits and is the primary of the path.
fn primary_run(path: u32, job: &JobResult) -> Option<&Run>
    ensures { option_copied result ≡ primary_run path job.now }
{
    if job.path != path || job.schedule != 0 {
        return None;
    }
    exiting(&job.kind)
}

/// The run of a path's primary, where it exits.
#[tactic(auto, using(crate::proofs::Firsts::first_found, crate::proofs::Firsts::first_more))]
fn first_primary(results: &[JobResult], path: u32) -> Option<&Run>
    ensures { option_copied result ≡ first_of (primary_run path) results.now }
{
    for job in results {
        if let Some(run) = primary_run(path, job) {
            return Some(run);
        }
    }
    None
}

/// What an alternate shows that prints what its path does not admit.
#[tactic(auto, unfolding(crate::specs::Verdict::difference))]
fn difference(
    alloc: Global,
    results: &[JobResult],
    job: &JobResult,
) -> Result<Option<Verdict>, NoMemory>
    ensures { IfOk result (λ found. found ≡ difference results.now job.now) }
{
    if !is_alternate(job) || !matches!(job.judged, Judged::Never) {
        return Ok(None);
    }
    let Some(primary) = first_primary(results, job.path) else {
        return Ok(None);
    };
    let Some(run) = exiting(&job.kind) else {
        return Ok(None);
    };
    Ok(Some(Verdict::OutputDiffers {
        path: job.path,
        schedule: job.schedule,
        input: copy_input(alloc, &job.input)?,
        primary: copy_turns(alloc, &primary.turns)?,
        prints: copy_output(alloc, primary)?,
        turns: copy_turns(alloc, &run.turns)?,
        output: copy_output(alloc, run)?,
    }))
}

/// An equal output.
pub fn copy_output(alloc: Global, run: &Run) -> Result<List<OutItem>, NoMemory>
    ensures { IfOk result (λ copy. copy ≡ run.now.output) }
{
    let items = Vec::from_slice(alloc, &run.output.items)?;
    Ok(List { items })
}

/// The first alternate that prints what its path does not admit.
#[tactic(auto, using(crate::proofs::Firsts::first_found, crate::proofs::Firsts::first_more))]
pub fn first_difference(alloc: Global, results: &[JobResult]) -> Result<Option<Verdict>, NoMemory>
    ensures { IfOk result (λ found. found ≡ first_of (difference results.now) results.now) }
{
    for job in results {
        if let Some(verdict) = difference(alloc, results, job)? {
            return Ok(Some(verdict));
        }
    }
    Ok(None)
}

/// What a job shows that spent its budget.
fn spending(alloc: Global, job: &JobResult) -> Result<Option<Verdict>, NoMemory>
    ensures { IfOk result (λ found. found ≡ spending job.now) }
{
    let JobKind::Ran(run) = &job.kind else {
        return Ok(None);
    };
    if run.outcome != Outcome::Spent {
        return Ok(None);
    }
    Ok(Some(Verdict::Unresolved {
        path: job.path,
        schedule: job.schedule,
        input: copy_input(alloc, &job.input)?,
        turns: copy_turns(alloc, &run.turns)?,
    }))
}

/// The first job that spent its budget.
#[tactic(auto, using(crate::proofs::Firsts::first_found, crate::proofs::Firsts::first_more))]
pub fn first_spending(alloc: Global, results: &[JobResult]) -> Result<Option<Verdict>, NoMemory>
    ensures { IfOk result (λ found. found ≡ first_of spending results.now) }
{
    for job in results {
        if let Some(verdict) = spending(alloc, job)? {
            return Ok(Some(verdict));
        }
    }
    Ok(None)
}
