//! The hold of a race's first thread.

ghost use Rattle.std.specs.Prelude.{◌≡◌, ℕ, suc, ◌+◌, ◌<◌, ◌≤◌, ◌^◌, IfOk, List};
ghost use Rattle.machine_model.specs.Hold.{Held, held_after, held_from, held_over};
ghost use Rattle.machine_model.specs.Primary.{setting_of};
ghost use Rattle.machine_model.specs.Reach.{does_second, is_second};
ghost use Rattle.machine_model.specs.Repeat.{Snapshot};
ghost use Rattle.machine_model.specs.Run.{Course as Seen};
ghost use Rattle.machine_model.specs.Run.Advance.{Onward};
ghost use Rattle.machine_model.specs.Runnable.{IsRunnable};
ghost use Rattle.machine_model.specs.Setting.{Setting};
ghost use Rattle.machine_model.specs.System.{machine_of};
ghost use Rattle.machine_model.specs.declared.state.State.{State};
ghost use Rattle.concrete_machine.specs.Course.{IsOf, course_of};
ghost use Rattle.race_top.specs.declared.order_enforcer.hold.Enforced.TheVariants as answers;
ghost use Rattle.race_top.specs.declared.order_enforcer.hold.HoldAdvance.TheVariants as advances;
ghost use Rattle.race_top.specs.HoldTurn.{LeadsTo, StaysWithin};
ghost use Rattle.race_top.specs.OrderEnforcer.{Enforces, IsReady};
ghost use Rattle.race_top.specs.Past.{Recalls};

use crate::order_enforcer::past::Past;
use concrete_machine::{Advance, Course};
use ir_types::{Input, Module};
use machine_model::Access;
use rc_base::{NoMemory, Steps};
use run_types::{Case, Outcome, Race, Reason, Run};
use std::sync::ledger::Ledger;

/// How a hold ends.
#[derive(Drop)]
pub enum Enforced {
    /// The second access was done, and the first is pending.
    Ready { course: Course, past: Past },
    /// The order can't be enforced, as this course shows.
    Not { reason: Reason, course: Course },
    /// The run is over.
    Ended(Run),
}

/// What one turn of a hold leads to.
#[derive(Drop)]
enum HoldAdvance {
    /// The second access was not done yet.
    Onward { course: Course, past: Past },
    Over(Enforced),
}

/// Whether this is the race's second access, and overlaps the first.
fn is_second(race: &Race, first: Access, access: Option<Access>) -> bool
    ensures { result ≡ is_second race.now first access }
{
    match access {
        Some(access) => access.is_at(race.s2) && access.overlaps(&first),
        None => false,
    }
}

/// Whether the turn of a thread does the race's second access.
fn does_second(race: &Race, first: Access, course: &Course, code: &Module, thread: u32) -> bool
    requires { IsRunnable code.now }
    ensures { (setting : Setting) → setting.code ≡ code.now →
        result ≡ does_second (machine_of setting) race.now first (record { before = course_of course.now; thread = thread }) }
{
    thread == race.t2 && is_second(race, first, course.access(code, thread))
}

/// How a hold ends whose last turn was the last of the run.
fn end_hold(last: Course, outcome: Outcome) -> Enforced
    ensures held { (setting : Setting) → Enforces result (held_over (machine_of setting) (course_of last) outcome) }
    ensures over { (code : Module) (case : Case) (left turns : ℕ) → IsReady code case left turns result }
{
    match outcome {
        Outcome::Exit { .. } => Enforced::Not {
            reason: Reason::Ended,
            course: last,
        },
        _ => Enforced::Ended(last.conclude(outcome)),
    }
}

/// The order can't be enforced, for this reason.
fn give_up(course: Course, reason: Reason) -> HoldAdvance
    ensures { result ≡ advances.Over (answers.Not reason course) }
{
    HoldAdvance::Over(Enforced::Not { reason, course })
}

/// What a turn leads to after which the run goes on; `done` tells whether it did the second access.
fn go_on(course: Course, mut past: Past, done: bool) -> Result<HoldAdvance, NoMemory>
    requires short { past.turns + 1 < 2 ^ 32 }
    ensures held { IfOk result (λ advance. (setting : Setting) (go : List (Snapshot State) → Seen State → Held State)
        (snapshots : List (Snapshot State)) → Recalls snapshots past →
        LeadsTo go advance (held_after (machine_of setting) go snapshots done (Onward (course_of course)))) }
    ensures within { IfOk result (λ advance. (code : Module) (case : Case) (left turns : ℕ) → IsOf code case course →
        course.left ≤ left → past.turns + 1 ≤ turns → StaysWithin code case left turns advance) }
{
    if !done && past.repeats(&course) {
        return Ok(give_up(course, Reason::Repeats));
    }
    past.note(&course)?;
    if done {
        return Ok(HoldAdvance::Over(Enforced::Ready { course, past }));
    }
    Ok(HoldAdvance::Onward { course, past })
}

/// One turn of a hold.
#[tactic(auto, unfolding(machine_model::specs::Hold::held_from))]
fn hold_turn<L: Ledger>(
    mut course: Course,
    past: Past,
    first: Access,
    code: &Module,
    case: &Case,
    race: &Race,
    input: &Input,
    steps: &mut Steps<L>,
) -> Result<HoldAdvance, NoMemory>
    requires of { IsOf code.now case.now course }
    requires short { past.turns + 1 < 2 ^ 32 }
    ensures held { IfOk result (λ advance. (most : ℕ) (snapshots : List (Snapshot State)) → Recalls snapshots past →
        LeadsTo (held_from most (machine_of (setting_of code.now case.now input.now)) case.now.turns race.now first) advance
        (held_from (suc most) (machine_of (setting_of code.now case.now input.now)) case.now.turns race.now first
        snapshots (course_of course))) }
    ensures within { IfOk result (StaysWithin code.now case.now course.left (past.turns + 1)) }
{
    if course.machine.has_ended(race.t2) {
        return Ok(give_up(course, Reason::Diverged));
    }
    let Some(thread) = course.choose(code)? else {
        return Ok(give_up(course, Reason::Stuck));
    };
    let done = does_second(race, first, &course, code, thread);
    match course.take(code, case, input, thread, steps)? {
        Advance::Onward(next) => {
            let advance = go_on(next, past, done)?;
            Ok(advance)
        }
        Advance::Over(last, outcome) => Ok(HoldAdvance::Over(end_hold(last, outcome))),
    }
}

/// Runs the threads other than the race's first one, whose chooser holds it, until the race's second access is
/// done.
pub fn hold<L: Ledger>(
    mut course: Course,
    mut past: Past,
    first: Access,
    code: &Module,
    case: &Case,
    race: &Race,
    input: &Input,
    steps: &mut Steps<L>,
) -> Result<Enforced, NoMemory>
    requires of { IsOf code.now case.now course }
    requires short { past.turns + course.left + 1 < 2 ^ 32 }
    ensures held { IfOk result (λ enforced. (snapshots : List (Snapshot State)) → Recalls snapshots past →
        Enforces enforced (held_from (course.left + 1) (machine_of (setting_of code.now case.now input.now))
        case.now.turns race.now first snapshots (course_of course))) }
    ensures ready { IfOk result (IsReady code.now case.now course.left (past.turns + course.left + 1)) }
{
    // Each turn costs at least 1, or is cut.
    let most = u64::from(course.left) + 1;
    for _ in 0..most {
        match hold_turn(course, past, first, code, case, race, input, steps)? {
            HoldAdvance::Onward {
                course: next,
                past: noted,
            } => {
                course = next;
                past = noted;
            }
            HoldAdvance::Over(enforced) => return Ok(enforced),
        }
    }
    Ok(Enforced::Ended(course.conclude(Outcome::Spent)))
}
