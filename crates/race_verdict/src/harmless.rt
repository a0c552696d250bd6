//! The runs of the second order that are harmless.

ghost use Rattle.std.specs.List.{filter_map, list_any};
ghost use Rattle.std.specs.Prelude.{◌≡◌, IfOk};
ghost use Rattle.race_verdict.specs.Verdict.{distinct, harmless, same_run, with_run};

use crate::evidence::{copy_output, exiting, is_alternate};
use crate::result::{JobResult, Judged};
use crate::verdict::HarmlessRun;
use ir_types::List;
use rc_base::NoMemory;
use run_types::{copy_input, copy_turns};
use std::alloc::Global;

/// The run of an alternate that prints what its path admits.
fn harmless(alloc: Global, job: &JobResult) -> Result<Option<HarmlessRun>, NoMemory>
    ensures { IfOk result (λ found. found ≡ harmless job.now) }
{
    if !is_alternate(job) {
        return Ok(None);
    }
    let Judged::Admitted(admitted) = &job.judged else {
        return Ok(None);
    };
    let Some(run) = exiting(&job.kind) else {
        return Ok(None);
    };
    Ok(Some(HarmlessRun {
        path: job.path,
        schedule: job.schedule,
        input: copy_input(alloc, &job.input)?,
        turns: copy_turns(alloc, &run.turns)?,
        output: copy_output(alloc, run)?,
        admitted: copy_input(alloc, admitted)?,
    }))
}

/// Whether a run with the same input and turns is listed.
fn is_listed(runs: &[HarmlessRun], other: &HarmlessRun) -> bool
    ensures { result ≡ list_any (λ run. same_run run other.now) runs.now }
{
    for run in runs {
        if run.input == other.input && run.turns == other.turns {
            return true;
        }
    }
    false
}

/// Lists a run at the end, unless one with its input and turns is listed.
fn list_run(runs: &mut Vec<HarmlessRun>, run: HarmlessRun) -> Result<(), NoMemory>
    ensures { IfOk result (λ done. runs.new.items ≡ with_run runs.old.items run) }
{
    if !is_listed(runs, &run) {
        runs.push(run)?;
    }
    Ok(())
}

/// The harmless runs, which differ in input or turns. Of equal ones the first stands for all.
#[tactic(auto, using(crate::proofs::Distinct::none_more, crate::proofs::Distinct::some_more), unfolding(crate::specs::Verdict::distinct))]
pub fn harmless_runs(alloc: Global, results: &[JobResult]) -> Result<List<HarmlessRun>, NoMemory>
    ensures { IfOk result (λ runs. runs ≡ distinct (filter_map harmless results.now)) }
{
    let mut runs = Vec::new(alloc);
    for job in results {
        if let Some(run) = harmless(alloc, job)? {
            list_run(&mut runs, run)?;
        }
    }
    Ok(List { items: runs })
}
