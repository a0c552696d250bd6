//! The primary of an input and its alternate as jobs.

ghost use Rattle.std.specs.Prelude.{◌≡◌, ◌+◌, ◌*◌, ◌<◌, ◌^◌, IfOk, Some, true};
ghost use Rattle.machine_model.specs.Begun.{Begun as Start};
ghost use Rattle.machine_model.specs.Job.{AlternateJob, PrimaryJob, alternate_from};
ghost use Rattle.machine_model.specs.Primary.{setting_of};
ghost use Rattle.machine_model.specs.Reach.{Reaches};
ghost use Rattle.machine_model.specs.Runnable.{IsRunnable};
ghost use Rattle.machine_model.specs.System.{machine_of};
ghost use Rattle.machine_model.specs.declared.state.State.{State};
ghost use Rattle.race_top.specs.OrderEnforcer.{Begins, IsBegun, alternate_of};

use crate::order_enforcer::begun::{Begun, begin_after};
use crate::order_enforcer::hold::hold;
use crate::order_enforcer::past::Past;
use crate::order_enforcer::point::{Point, find_point};
use crate::order_enforcer::tested::run_tested;
use concrete_machine::Course;
use ir_types::{Input, Module};
use rc_base::{NoMemory, Steps};
use run_types::{Case, Race, Reason, Run, Turns};
use std::alloc::Global;
use std::marker::Brand;
use std::sync::ledger::{Blank, Ledger};

/// An alternate, or why there is none.
#[derive(Drop)]
pub enum Alternate {
    Ran(Run),
    /// The order can't be enforced; these turns were taken.
    Not { reason: Reason, turns: Turns },
    /// The primary of the input doesn't reach the race.
    Absent,
}

/// The primary of an input, with the repeat test after each turn and its steps counted.
#[tactic(auto, unfolding(machine_model::specs::TestedRun::tested_run))]
fn primary_counted<L: Ledger>(
    alloc: Global,
    code: &Module,
    case: &Case,
    input: &Input,
    blank: Blank,
) -> Result<Run, NoMemory>
    requires runnable { IsRunnable code.now }
    requires budget { case.now.steps < 2 ^ 30 }
    requires name { blank.name ≡ L.name }
    requires parts { blank.parts ≡ L.parts }
    requires some { 0 < blank.parts }
    ensures { IfOk result (λ run. run ≡ PrimaryJob code.now case.now input.now) }
{
    let mut steps = Steps::<L>::new(blank);
    let course = Course::begin(alloc, code, case, input)?;
    let past = Past::begin(&course)?;
    run_tested(course, past, code, case, input, &mut steps)
}

/// The primary of an input, with the repeat test after each turn.
pub fn primary_job(
    alloc: Global,
    code: &Module,
    case: &Case,
    input: &Input,
) -> Result<Run, NoMemory>
    requires runnable { IsRunnable code.now }
    requires steps { case.now.steps < 2 ^ 30 }
    ensures { IfOk result (λ run. run ≡ PrimaryJob code.now case.now input.now) }
{
    primary_counted::<Brand>(alloc, code, case, input, Blank::new(1))
}

/// The rest of an alternate by the first schedule, which follows the recorded turns again.
fn finish<L: Ledger>(
    begun: Begun,
    code: &Module,
    case: &Case,
    input: &Input,
    steps: &mut Steps<L>,
) -> Result<Alternate, NoMemory>
    requires steps { case.now.steps < 2 ^ 30 }
    requires ready { IsBegun code.now case.now case.now.steps (2 * case.now.steps + 3) begun }
    ensures { IfOk result (λ alternate. (start : Start State) → Begins begun start →
        alternate_of alternate
        ≡ alternate_from (machine_of (setting_of code.now case.now input.now)) case.now.turns 1 (Some start)) }
{
    match begun {
        Begun::Ready { course, past } => {
            let run = run_tested(course, past, code, case, input, steps)?;
            Ok(Alternate::Ran(run))
        }
        Begun::Not { reason, course } => Ok(Alternate::Not {
            reason,
            turns: course.turns.into(),
        }),
        Begun::Complete(run) => Ok(Alternate::Ran(run)),
    }
}

/// The alternate of an input, its steps counted.
#[tactic(auto, unfolding(machine_model::specs::Job::hold_of))]
fn alternate_counted<L: Ledger>(
    alloc: Global,
    code: &Module,
    case: &Case,
    race: &Race,
    input: &Input,
    blank: Blank,
) -> Result<Alternate, NoMemory>
    requires runnable { IsRunnable code.now }
    requires steps { case.now.steps < 2 ^ 30 }
    requires reached { Reaches code.now case.now race.now input.now ≡ true }
    requires name { blank.name ≡ L.name }
    requires parts { blank.parts ≡ L.parts }
    requires some { 0 < blank.parts }
    ensures { IfOk result (λ alternate. alternate_of alternate ≡ AlternateJob code.now case.now race.now input.now 1) }
{
    let mut steps = Steps::<L>::new(blank);
    let Some(point) = find_point(alloc, code, case, race, input, &mut steps)? else {
        return Ok(Alternate::Absent);
    };
    let Point {
        mut course,
        past,
        first,
    } = point;
    course.policy.hold(race.t1);
    let enforced = hold(course, past, first, code, case, race, input, &mut steps)?;
    let begun = begin_after(enforced, code, case, race, input, &mut steps)?;
    let alternate = finish(begun, code, case, input, &mut steps)?;
    Ok(alternate)
}

/// The alternate, by the first schedule, of an input whose primary reaches the race: the hold, one turn of the thread
/// that was held, and the recorded turns again.
pub fn alternate_job(
    alloc: Global,
    code: &Module,
    case: &Case,
    race: &Race,
    input: &Input,
) -> Result<Alternate, NoMemory>
    requires runnable { IsRunnable code.now }
    requires steps { case.now.steps < 2 ^ 30 }
    requires reached { Reaches code.now case.now race.now input.now ≡ true }
    ensures { IfOk result (λ alternate. alternate_of alternate ≡ AlternateJob code.now case.now race.now input.now 1) }
{
    alternate_counted::<Brand>(alloc, code, case, race, input, Blank::new(1))
}
