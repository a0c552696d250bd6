//! The run of an input up to the hold point of a race.

ghost use Rattle.std.specs.Prelude.{◌≡◌, ◌∷◌, ◌+◌, ◌<◌, ◌≤◌, ◌^◌, IfOk, IfSome, List, MatchOption};
ghost use Rattle.machine_model.specs.Job.{point_of, point_at};
ghost use Rattle.machine_model.specs.Moment.{Moment, access_at, from_turn};
ghost use Rattle.machine_model.specs.Repeat.{Snapshot};
ghost use Rattle.machine_model.specs.Runnable.{IsRunnable};
ghost use Rattle.machine_model.specs.Setting.{Setting};
ghost use Rattle.machine_model.specs.System.{machine_of};
ghost use Rattle.machine_model.specs.declared.state.State.{State};
ghost use Rattle.concrete_machine.specs.Course.{IsOf, course_of};
ghost use Rattle.race_top.specs.OrderEnforcer.{FindsPoint};
ghost use Rattle.race_top.specs.Past.{Recalls};

use crate::order_enforcer::past::Past;
use concrete_machine::{Advance, Course};
use ir_types::{Input, Module};
use machine_model::Access;
use rc_base::{NoMemory, Steps};
use run_types::{Case, Race};
use std::alloc::Global;
use std::sync::ledger::Ledger;

/// The moment before a race's first access, which is pending.
#[derive(Drop)]
pub struct Point {
    pub course: Course,
    pub past: Past,
    pub first: Access,
}

/// The race's first access is done in the turn of this number among those of its thread that are left. What the
/// number is after a turn of `thread`; `None` where that turn is the one.
fn number_after(number: u32, thread: u32, race: &Race) -> Option<u32>
    ensures { (moment : Moment State) (later : List (Moment State)) → moment.thread ≡ thread →
        MatchOption result (from_turn race.now.t1 number (moment ∷ later) ≡ moment ∷ later)
        (λ rest. from_turn race.now.t1 number (moment ∷ later) ≡ from_turn race.now.t1 rest later) }
{
    if thread != race.t1 {
        return Some(number);
    }
    if number == 1 {
        return None;
    }
    Some(number.saturating_sub(1))
}

/// The hold point before a turn of this thread, if the turn does an access.
fn point_of(course: Course, past: Past, code: &Module, thread: u32) -> Option<Point>
    requires { IsRunnable code.now }
    ensures point { (setting : Setting) (snapshots : List (Snapshot State)) → setting.code ≡ code.now →
        Recalls snapshots past →
        let moment : Moment State = record { before = course_of course; thread = thread } in
        FindsPoint result (point_at snapshots moment (access_at (machine_of setting) moment)) }
    ensures course { IfSome result (λ point. point.course ≡ course) }
    ensures past { IfSome result (λ point. point.past ≡ past) }
{
    let Some(first) = course.access(code, thread) else {
        return None;
    };
    Some(Point {
        course,
        past,
        first,
    })
}

/// Runs the primary of an input up to the hold point of a race.
pub fn find_point<L: Ledger>(
    alloc: Global,
    code: &Module,
    case: &Case,
    race: &Race,
    input: &Input,
    steps: &mut Steps<L>,
) -> Result<Option<Point>, NoMemory>
    requires runnable { IsRunnable code.now }
    requires steps { case.now.steps < 2 ^ 30 }
    ensures point { IfOk result (λ found. FindsPoint found (point_of code.now case.now race.now input.now)) }
    ensures of { IfOk result (λ found. IfSome found (λ point. IsOf code.now case.now point.course)) }
    ensures left { IfOk result (λ found. IfSome found (λ point. point.course.left ≤ case.now.steps)) }
    ensures turns { IfOk result (λ found. IfSome found (λ point. point.past.turns ≤ case.now.steps + 1)) }
{
    let mut course = Course::begin(alloc, code, case, input)?;
    let mut past = Past::begin(&course)?;
    let mut number = race.v1;
    // Each turn costs at least 1, or is cut.
    let most = u64::from(case.steps) + 1;
    for _ in 0..most {
        let Some(thread) = course.peek(code)? else {
            return Ok(None);
        };
        match number_after(number, thread, race) {
            None => return Ok(point_of(course, past, code, thread)),
            Some(rest) => number = rest,
        }
        match course.advance(code, case, input, steps)? {
            Advance::Onward(next) => course = next,
            Advance::Over(_, _) => return Ok(None),
        }
        past.note(&course)?;
    }
    Ok(None)
}
