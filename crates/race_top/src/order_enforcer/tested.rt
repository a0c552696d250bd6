//! Runs with the repeat test after each turn.

ghost use Rattle.std.specs.Prelude.{◌≡◌, ◌+◌, ◌<◌, ◌^◌, IfOk, List};
ghost use Rattle.machine_model.specs.Begun.{begun_by};
ghost use Rattle.machine_model.specs.Primary.{setting_of};
ghost use Rattle.machine_model.specs.Repeat.{Snapshot};
ghost use Rattle.machine_model.specs.Run.{advanced};
ghost use Rattle.machine_model.specs.System.{machine_of};
ghost use Rattle.machine_model.specs.TestedRun.{tested_on};
ghost use Rattle.machine_model.specs.declared.state.State.{State};
ghost use Rattle.concrete_machine.specs.Course.{IsOf, course_of};
ghost use Rattle.race_top.specs.Past.{Recalls};
ghost use Rattle.race_top.specs.Tested.{IsWithin, Tests};

use crate::order_enforcer::past::Past;
use concrete_machine::{Advance, Course};
use ir_types::{Input, Module};
use rc_base::{NoMemory, Steps};
use run_types::{Case, Outcome, Run};
use std::sync::ledger::Ledger;

/// What a turn with the repeat test leads to.
#[derive(Drop)]
pub enum Tested {
    /// The run goes on.
    Onward { course: Course, past: Past },
    /// The run is over.
    Over(Run),
}

/// One turn of a run, and the repeat test after it.
pub fn test_turn<L: Ledger>(
    course: Course,
    mut past: Past,
    code: &Module,
    case: &Case,
    input: &Input,
    steps: &mut Steps<L>,
) -> Result<Tested, NoMemory>
    requires of { IsOf code.now case.now course }
    requires short { past.turns + 1 < 2 ^ 32 }
    ensures tests { IfOk result (λ tested. (snapshots : List (Snapshot State)) → Recalls snapshots past →
        Tests tested (begun_by (machine_of (setting_of code.now case.now input.now)) snapshots
        (advanced (machine_of (setting_of code.now case.now input.now)) case.now.turns (course_of course)))) }
    ensures within { IfOk result (IsWithin code.now case.now course.left (past.turns + 1)) }
{
    match course.advance(code, case, input, steps)? {
        Advance::Onward(next) => {
            if past.repeats(&next) {
                return Ok(Tested::Over(next.conclude(past.repeat())));
            }
            past.note(&next)?;
            Ok(Tested::Onward { course: next, past })
        }
        Advance::Over(last, outcome) => Ok(Tested::Over(last.conclude(outcome))),
    }
}

/// The run from a course on, with the repeat test after each turn.
pub fn run_tested<L: Ledger>(
    mut course: Course,
    mut past: Past,
    code: &Module,
    case: &Case,
    input: &Input,
    steps: &mut Steps<L>,
) -> Result<Run, NoMemory>
    requires of { IsOf code.now case.now course }
    requires short { past.turns + course.left + 1 < 2 ^ 32 }
    ensures { IfOk result (λ run. (snapshots : List (Snapshot State)) → Recalls snapshots past →
        run ≡ tested_on (machine_of (setting_of code.now case.now input.now)) case.now.turns snapshots (course_of course)) }
{
    // Each turn costs at least 1, or is cut.
    let most = u64::from(course.left) + 1;
    for _ in 0..most {
        match test_turn(course, past, code, case, input, steps)? {
            Tested::Onward {
                course: next,
                past: noted,
            } => {
                course = next;
                past = noted;
            }
            Tested::Over(run) => return Ok(run),
        }
    }
    Ok(course.conclude(Outcome::Spent))
}
