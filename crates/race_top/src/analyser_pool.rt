//! The classes of races: for each its jobs, and the verdict that these give.
//!
//! - `jobs`: the results of a race's jobs
//! - `laws`: what holds of them

mod jobs;
pub mod laws;

ghost use Rattle.std.specs.Prelude.{◌≡◌, ◌<◌, ◌^◌, All, IfOk, true};
ghost use Rattle.machine_model.specs.Reach.{Reaches};
ghost use Rattle.machine_model.specs.Runnable.{IsRunnable};
ghost use Rattle.race_top.specs.AnalyserPool.{report_of, reports_of};

use crate::analyser_pool::jobs::results;
use ir_types::Module;
use race_verdict::reduce;
use rc_base::NoMemory;
use report_text::RaceReport;
use run_types::{Case, Race};
use std::alloc::Global;

/// The classes of some races that the recorded run reaches, in their order.
pub fn analyse(
    alloc: Global,
    code: &Module,
    case: &Case,
    races: &[Race],
) -> Result<Vec<RaceReport>, NoMemory>
    requires runnable { IsRunnable code.now }
    requires steps { case.now.steps < 2 ^ 30 }
    requires reached { All (λ race. Reaches code.now case.now race case.now.input ≡ true) races.now }
    ensures { IfOk result (λ reports. reports.items ≡ reports_of code.now case.now races.now) }
{
    let mut reports = Vec::new(alloc);
    for race in races {
        reports.push(report(alloc, code, case, race)?)?;
    }
    Ok(reports)
}

/// The class of a race, with its two turns.
fn report(alloc: Global, code: &Module, case: &Case, race: &Race) -> Result<RaceReport, NoMemory>
    requires runnable { IsRunnable code.now }
    requires steps { case.now.steps < 2 ^ 30 }
    requires reached { Reaches code.now case.now race.now case.now.input ≡ true }
    ensures { IfOk result (λ report. report ≡ report_of code.now case.now race.now) }
{
    let results = results(alloc, code, case, race)?;
    let verdict = reduce(alloc, &results)?;
    Ok(RaceReport {
        first: race.first,
        second: race.second,
        verdict,
    })
}
