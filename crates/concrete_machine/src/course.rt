//! A run so far, turn by turn.

ghost use Rattle.std.specs.Prelude.{◌≡◌, ◌+◌, ◌<◌, ◌≤◌, IfOk, IfSome, OnOk, Some, option_map};
ghost use Rattle.machine_model.specs.Enabled.{enabled};
ghost use Rattle.machine_model.specs.Moment.{access_at};
ghost use Rattle.machine_model.specs.Policy.{choose};
ghost use Rattle.machine_model.specs.Primary.{setting_of};
ghost use Rattle.machine_model.specs.Run.{advanced, advanced_with, first_course, concluded};
ghost use Rattle.machine_model.specs.Runnable.{IsRunnable};
ghost use Rattle.machine_model.specs.Setting.{Setting};
ghost use Rattle.machine_model.specs.System.{machine_of};
ghost use Rattle.concrete_machine.specs.Course.{ChoosesTurn, GoesOn, IsOf, advance_of, choice_of, course_of, left_in};

use crate::machine::Machine;
use ir_types::{Input, Module};
use machine_model::Access;
use rc_base::{NoMemory, Steps};
use run_types::{Case, Outcome, Run, TurnEnd};
use std::alloc::Global;
use std::sync::ledger::Ledger;
use turn_policy::Policy;

/// The machine, the chooser, the threads chosen and the steps that are left.
#[derive(Drop)]
pub struct Course {
    pub machine: Machine,
    pub policy: Policy,
    pub turns: Vec<u8>,
    pub left: u32,
    /// The enabled threads of one moment; made once and used in each turn.
    pub enabled: Vec<u32>,
}

/// What a turn leads to: the run goes on, or it is over.
#[derive(Drop)]
pub enum Advance {
    Onward(Course),
    Over(Course, Outcome),
}

impl Course {
    /// The start of the run that follows the recorded turns on an input.
    pub fn begin(
        alloc: Global,
        code: &Module,
        case: &Case,
        input: &Input,
    ) -> Result<Course, NoMemory>
        requires { IsRunnable code.now }
        ensures course { IfOk result (λ course.
            course_of course ≡ first_course (machine_of (setting_of code.now case.now input.now)) case.now.steps) }
        ensures of { IfOk result (IsOf code.now case.now) }
    {
        Ok(Course {
            machine: Machine::start(alloc, code, input)?,
            policy: Policy::follow(alloc, &case.turns)?,
            turns: Vec::new(alloc),
            left: case.steps,
            enabled: Vec::new(alloc),
        })
    }

    /// Chooses the thread of the next turn among the enabled ones. Where none may be chosen nothing changes.
    pub fn choose(&mut self, code: &Module) -> Result<Option<u32>, NoMemory>
        requires { IsRunnable code.now }
        ensures chosen { OnOk result ((case : Case) → IsOf code.now case self.old →
            ChoosesTurn result (course_of self.old) (course_of self.new)
            (choose case.turns (course_of self.old).policy (enabled code.now self.old.machine.state))) }
        ensures of { OnOk result ((case : Case) → IsOf code.now case self.old → IsOf code.now case self.new) }
        ensures few { IfOk result (λ thread. IfSome thread (λ number. number < 16)) }
        ensures left { OnOk result (self.new.left ≡ self.old.left) }
    {
        self.machine.list_enabled(code, &mut self.enabled)?;
        Ok(self.policy.choose(&self.enabled))
    }

    /// The thread that `choose` would choose. The run so far stays as it is.
    pub fn peek(&mut self, code: &Module) -> Result<Option<u32>, NoMemory>
        requires { IsRunnable code.now }
        ensures thread { IfOk result (λ thread. (case : Case) → IsOf code.now case self.old →
            thread ≡ option_map (λ choice. choice.thread)
            (choose case.turns (course_of self.old).policy (enabled code.now self.old.machine.state))) }
        ensures same { OnOk result (course_of self.new ≡ course_of self.old) }
        ensures of { OnOk result ((case : Case) → IsOf code.now case self.old → IsOf code.now case self.new) }
    {
        self.machine.list_enabled(code, &mut self.enabled)?;
        Ok(self.policy.peek(&self.enabled))
    }

    /// The access that a turn of a thread does, if it does one.
    pub fn access(&self, code: &Module, thread: u32) -> Option<Access>
        requires { IsRunnable code.now }
        ensures { (setting : Setting) → setting.code ≡ code.now →
            result ≡ access_at (machine_of setting) (record { before = course_of self.now; thread = thread }) }
    {
        if self.left == 0 {
            return None;
        }
        Access::of(self.machine.pending(code, thread))
    }

    /// Takes a turn of the thread that was chosen.
    pub fn take<L: Ledger>(
        mut self,
        code: &Module,
        case: &Case,
        input: &Input,
        thread: u32,
        steps: &mut Steps<L>,
    ) -> Result<Advance, NoMemory>
        requires of { IsOf code.now case.now self }
        requires few { thread < 16 }
        ensures course { IfOk result (λ next.
            advanced_with (machine_of (setting_of code.now case.now input.now)) (course_of self)
            (Some (choice_of thread (course_of self)))
            ≡ advance_of next) }
        ensures of { IfOk result (GoesOn code.now case.now) }
        ensures falls { IfOk result (λ next. left_in next ≤ self.left) }
        ensures cost { IfOk result (λ next. left_in next + steps.new ≡ self.left + steps.old) }
    {
        self.turns.push(thread as u8)?;
        let mut left = self.left;
        let (machine, end) = self
            .machine
            .turn(code, input, &case.watch.items, thread, &mut left, steps)?;
        let course = Course {
            machine,
            policy: self.policy,
            turns: self.turns,
            left,
            enabled: self.enabled,
        };
        Ok(match end {
            TurnEnd::Going => Advance::Onward(course),
            TurnEnd::Exit(status) => Advance::Over(course, Outcome::Exit { status }),
            TurnEnd::Trap(trap, site) => {
                Advance::Over(course, Outcome::Trap { trap, thread, site })
            }
            TurnEnd::Spent => Advance::Over(course, Outcome::Spent),
        })
    }

    /// Chooses and takes one turn; where no thread may be chosen there is none.
    #[tactic(auto, unfolding(machine_model::specs::Run::advanced))]
    pub fn advance<L: Ledger>(
        mut self,
        code: &Module,
        case: &Case,
        input: &Input,
        steps: &mut Steps<L>,
    ) -> Result<Advance, NoMemory>
        requires { IsOf code.now case.now self }
        ensures course { IfOk result (λ next.
            advanced (machine_of (setting_of code.now case.now input.now)) case.now.turns (course_of self) ≡ advance_of next) }
        ensures of { IfOk result (GoesOn code.now case.now) }
        ensures falls { IfOk result (λ next. left_in next ≤ self.left) }
        ensures cost { IfOk result (λ next. left_in next + steps.new ≡ self.left + steps.old) }
    {
        let Some(thread) = self.choose(code)? else {
            return Ok(Advance::Over(self, Outcome::Deadlock));
        };
        let next = self.take(code, case, input, thread, steps)?;
        Ok(next)
    }

    /// What a run leaves that ended like this.
    pub fn conclude(self, outcome: Outcome) -> Run
        ensures { (setting : Setting) → result ≡ concluded (machine_of setting) (course_of self) outcome }
    {
        self.machine.into_run(self.turns.into(), outcome)
    }
}
