//! What the recorded run does in two of its turns.

ghost use Rattle.std.specs.Prelude.{◌≡◌, ℕ, ◌+◌, ◌-◌, ◌<◌, ◌≤◌, ◌==◌, ◌++◌, count_by, drop, length, take, IfOk, IfSome};
ghost use Rattle.machine_model.specs.Policy.{Policy};
ghost use Rattle.machine_model.specs.Primary.{setting_of};
ghost use Rattle.machine_model.specs.Reach.{primary_moments};
ghost use Rattle.machine_model.specs.Runnable.{IsRunnable};
ghost use Rattle.machine_model.specs.Setting.{Setting};
ghost use Rattle.machine_model.specs.System.{machine_of};
ghost use Rattle.concrete_machine.specs.Course.{IsOf, course_of};
ghost use Rattle.race_top.specs.Seen.{IsDue, IsLeft, IsSeen, MayTake, SeesPair, after_due, moment_due, recorded_from, threads_of};

use concrete_machine::{Advance, Course};
use ir_types::Module;
use machine_model::Access;
use rc_base::{NoMemory, Steps};
use run_types::Case;
use std::alloc::Global;
use std::sync::ledger::{Blank, Ledger};

/// What is seen of a turn: its thread, and the access that it does, if it does one.
#[derive(Clone, Copy)]
pub struct Seen {
    pub thread: u32,
    pub access: Option<Access>,
}

/// Two turns of a run, and how many turns the first one's thread has taken with that turn.
#[derive(Clone, Copy)]
pub struct Pair {
    pub one: Seen,
    pub count: u32,
    pub other: Seen,
}

/// A turn that is chosen and not taken yet.
#[derive(Drop)]
pub struct Due {
    pub course: Course,
    pub thread: u32,
}

impl Due {
    /// What is seen of the turn.
    fn see(&self, code: &Module) -> Seen
        requires { IsRunnable code.now }
        ensures { (setting : Setting) (policy : Policy) → setting.code ≡ code.now →
            IsSeen (machine_of setting) (moment_due policy self.now) result }
    {
        Seen {
            thread: self.thread,
            access: self.course.access(code, self.thread),
        }
    }

    /// Takes the turn. Where the run doesn't go on there is no course.
    fn take<L: Ledger>(
        self,
        code: &Module,
        case: &Case,
        steps: &mut Steps<L>,
    ) -> Result<Option<Course>, NoMemory>
        requires { MayTake code.now case.now self }
        ensures left { IfOk result (λ next. (most : ℕ) →
            IsLeft code.now case.now most next (after_due code.now case.now most self)) }
        ensures of { IfOk result (λ next. IfSome next (IsOf code.now case.now)) }
    {
        let thread = self.thread;
        match self.course.take(code, case, &case.input, thread, steps)? {
            Advance::Onward(next) => Ok(Some(next)),
            Advance::Over(_, _) => Ok(None),
        }
    }
}

/// Takes so many turns of the run from a course on, which has at most `most`. Where it doesn't go on after them
/// there is no course.
fn go_on<L: Ledger>(
    mut course: Course,
    most: u64,
    turns: u32,
    code: &Module,
    case: &Case,
    steps: &mut Steps<L>,
) -> Result<Option<Course>, NoMemory>
    requires { IsOf code.now case.now course }
    ensures left { IfOk result (λ next. IsLeft code.now case.now (most - turns) next
        (drop turns (recorded_from code.now case.now most (course_of course)))) }
    ensures taken { IfOk result (λ next. IfSome next (λ last. last.turns.items ≡ course.turns.items
        ++ threads_of (take turns (recorded_from code.now case.now most (course_of course))))) }
    ensures within { IfOk result (λ next. IfSome next (λ last. turns < most)) }
    ensures of { IfOk result (λ next. IfSome next (IsOf code.now case.now)) }
{
    if most <= u64::from(turns) {
        return Ok(None);
    }
    for _ in 0..turns {
        match course.advance(code, case, &case.input, steps)? {
            Advance::Onward(next) => course = next,
            Advance::Over(_, _) => return Ok(None),
        }
    }
    Ok(Some(course))
}

/// Chooses the turn of this place, counted from 0, of the run from a course on, which has at most `most`.
fn due_turn<L: Ledger>(
    course: Course,
    most: u64,
    place: u32,
    code: &Module,
    case: &Case,
    steps: &mut Steps<L>,
) -> Result<Option<Due>, NoMemory>
    requires { IsOf code.now case.now course }
    ensures left { IfOk result (λ due. IsDue code.now case.now (most - (place + 1)) due
        (drop place (recorded_from code.now case.now most (course_of course)))) }
    ensures taken { IfOk result (λ due. IfSome due (λ turn. turn.course.turns.items ≡ course.turns.items
        ++ threads_of (take place (recorded_from code.now case.now most (course_of course))))) }
    ensures within { IfOk result (λ due. IfSome due (λ turn. place < most)) }
    ensures may_take { IfOk result (λ due. IfSome due (MayTake code.now case.now)) }
{
    let Some(mut course) = go_on(course, most, place, code, case, steps)? else {
        return Ok(None);
    };
    let Some(thread) = course.choose(code)? else {
        return Ok(None);
    };
    Ok(Some(Due { course, thread }))
}

/// How many of these turns are the thread's.
fn count_turns(turns: &[u8], thread: u32) -> usize
    ensures count { result ≡ count_by (λ turn. turn == thread) turns.now }
    ensures within { result ≤ length turns.now }
{
    turns
        .iter()
        .filter(|turn| u32::from(**turn) == thread)
        .count()
}

/// The two turns of these numbers, counted from 1, where the run has them. Its steps are counted.
pub fn see_pair<L: Ledger>(
    alloc: Global,
    code: &Module,
    case: &Case,
    first: u32,
    second: u32,
    blank: Blank,
) -> Result<Option<Pair>, NoMemory>
    requires runnable { IsRunnable code.now }
    requires first { 0 < first }
    requires second { first < second }
    requires name { blank.name ≡ L.name }
    requires parts { blank.parts ≡ L.parts }
    requires some { 0 < blank.parts }
    ensures { IfOk result (SeesPair (machine_of (setting_of code.now case.now case.now.input))
        (primary_moments code.now case.now case.now.input) first second) }
{
    let mut steps = Steps::<L>::new(blank);
    let start = Course::begin(alloc, code, case, &case.input)?;
    // Each turn costs at least 1, or is cut.
    let most = u64::from(case.steps) + 1;
    let Some(due) = due_turn(start, most, first - 1, code, case, &mut steps)? else {
        return Ok(None);
    };
    let one = due.see(code);
    let count = count_turns(&due.course.turns, due.thread) as u32 + 1;
    let Some(next) = due.take(code, case, &mut steps)? else {
        return Ok(None);
    };
    let left = most - u64::from(first);
    let Some(last) = due_turn(next, left, second - first - 1, code, case, &mut steps)? else {
        return Ok(None);
    };
    Ok(Some(Pair {
        one,
        count,
        other: last.see(code),
    }))
}
