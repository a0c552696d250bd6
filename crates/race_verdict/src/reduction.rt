//! From the results of all jobs of a race to its verdict.

ghost use Rattle.std.specs.Prelude.{◌≡◌, IfOk};
ghost use Rattle.race_verdict.specs.Verdict.{VerdictOf};

use crate::evidence::{first_difference, first_reason, first_spending, first_violation};
use crate::harmless::harmless_runs;
use crate::result::JobResult;
use crate::verdict::Verdict;
use rc_base::NoMemory;
use std::alloc::Global;

/// The class of a race, with its evidence, from the results of its jobs, which stand in order.
#[tactic(auto, unfolding(crate::specs::Verdict::VerdictOf))]
pub fn reduce(alloc: Global, results: &[JobResult]) -> Result<Verdict, NoMemory>
    ensures { IfOk result (λ verdict. verdict ≡ VerdictOf results.now) }
{
    let reason = first_reason(alloc, results)?;
    if let Some(verdict) = first_violation(alloc, results, reason.is_some())? {
        return Ok(verdict);
    }
    if let Some((reason, turns)) = reason {
        return Ok(Verdict::SingleOrdering { reason, turns });
    }
    if let Some(verdict) = first_difference(alloc, results)? {
        return Ok(verdict);
    }
    if let Some(verdict) = first_spending(alloc, results)? {
        return Ok(verdict);
    }
    let runs = harmless_runs(alloc, results)?;
    Ok(Verdict::Harmless { runs })
}
