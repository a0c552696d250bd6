//! The results of a race's jobs on the recorded path.

ghost use Rattle.std.specs.Prelude.{◌≡◌, ◌<◌, ◌^◌, IfOk, true};
ghost use Rattle.machine_model.specs.Reach.{Reaches};
ghost use Rattle.machine_model.specs.Runnable.{IsRunnable};
ghost use Rattle.race_verdict.specs.Verdict.{is_exit};
ghost use Rattle.race_top.specs.AnalyserPool.{judged_of, kind_of, results_of};
ghost use Rattle.race_top.specs.OrderEnforcer.{alternate_of};

use crate::order_enforcer::{Alternate, alternate_job, primary_job};
use ir_types::{Input, Module};
use race_verdict::{JobKind, JobResult, Judged};
use rc_base::NoMemory;
use run_types::{Case, Outcome, Race, Run, copy_input};
use std::alloc::Global;

/// Whether a run ended with the exit of its process.
fn is_exit(run: &Run) -> bool
    ensures { result ≡ is_exit run.now.outcome }
{
    matches!(run.outcome, Outcome::Exit { .. })
}

/// Whether the path admits what an alternate printed: without inputs exactly what its primary prints.
fn judge(
    alloc: Global,
    input: &Input,
    primary: &Run,
    alternate: &Alternate,
) -> Result<Judged, NoMemory>
    ensures { IfOk result (λ judged. judged ≡ judged_of input.now primary.now (alternate_of alternate.now)) }
{
    let Alternate::Ran(run) = alternate else {
        return Ok(Judged::NotJudged);
    };
    if !is_exit(primary) || !is_exit(run) {
        return Ok(Judged::NotJudged);
    }
    if primary.output == run.output {
        return Ok(Judged::Admitted(copy_input(alloc, input)?));
    }
    Ok(Judged::Never)
}

/// What became of an alternate.
fn kind_of(alternate: Alternate) -> JobKind
    ensures { result ≡ kind_of (alternate_of alternate) }
{
    match alternate {
        Alternate::Ran(run) => JobKind::Ran(run),
        Alternate::Not { reason, turns } => JobKind::Not { reason, turns },
        Alternate::Absent => JobKind::Absent,
    }
}

/// The results of the primary and of the alternate that follows the recorded turns, in order.
#[tactic(auto, unfolding(crate::specs::AnalyserPool::results_of))]
pub fn results(
    alloc: Global,
    code: &Module,
    case: &Case,
    race: &Race,
) -> Result<Vec<JobResult>, NoMemory>
    requires runnable { IsRunnable code.now }
    requires steps { case.now.steps < 2 ^ 30 }
    requires reached { Reaches code.now case.now race.now case.now.input ≡ true }
    ensures { IfOk result (λ results. results.items ≡ results_of code.now case.now race.now) }
{
    let primary = primary_job(alloc, code, case, &case.input)?;
    let alternate = alternate_job(alloc, code, case, race, &case.input)?;
    let judged = judge(alloc, &case.input, &primary, &alternate)?;
    let mut results = Vec::new(alloc);
    results.push(JobResult {
        path: 0,
        schedule: 0,
        input: copy_input(alloc, &case.input)?,
        kind: JobKind::Ran(primary),
        judged: Judged::NotJudged,
    })?;
    results.push(JobResult {
        path: 0,
        schedule: 1,
        input: copy_input(alloc, &case.input)?,
        kind: kind_of(alternate),
        judged,
    })?;
    Ok(results)
}
