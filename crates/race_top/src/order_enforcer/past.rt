//! What the repeat test compares with.

ghost use Rattle.std.specs.Prelude.{◌≡◌, ◌∷◌, [], ◌++◌, ◌+◌, ◌<◌, ◌^◌, IfOk, List, OnOk, length};
ghost use Rattle.run_types.specs.declared.run.Outcome.TheVariants.{Repeats};
ghost use Rattle.machine_model.specs.Repeat.{Snapshot, earlier_turn, repeats, same_snapshot, snapshot_of};
ghost use Rattle.machine_model.specs.Setting.{Setting};
ghost use Rattle.machine_model.specs.System.{machine_of};
ghost use Rattle.machine_model.specs.declared.state.State.{State};
ghost use Rattle.concrete_machine.specs.Course.{course_of};
ghost use Rattle.race_top.specs.Past.{Recalls, kept_snapshot};

use concrete_machine::{Course, Machine};
use rc_base::NoMemory;
use run_types::Outcome;
use turn_policy::Policy;

/// The machine and the chooser after turn `earlier`, the greatest power of two among the `turns` so far. Before
/// the first turn they are those of the start, with which nothing is compared.
#[derive(Drop)]
pub struct Past {
    pub machine: Machine,
    pub policy: Policy,
    pub earlier: u32,
    pub turns: u32,
}

impl Past {
    /// Nothing but the start.
    pub fn begin(course: &Course) -> Result<Past, NoMemory>
        ensures { IfOk result (λ past. Recalls (snapshot_of (course_of course.now) ∷ []) past) }
    {
        Ok(Past {
            machine: course.machine.fork()?,
            policy: course.policy.fork()?,
            earlier: 0,
            turns: 0,
        })
    }

    /// Whether the turn that led to this course repeats the earlier one.
    pub fn repeats(&self, course: &Course) -> bool
        ensures { (setting : Setting) (snapshots : List (Snapshot State)) → Recalls snapshots self.now →
            result ≡ repeats (machine_of setting) snapshots (snapshot_of (course_of course.now)) }
    {
        0 < self.turns && self.is_at(course)
    }

    /// Whether the course is as it was after the earlier turn.
    fn is_at(&self, course: &Course) -> bool
        ensures { (setting : Setting) →
            result ≡ same_snapshot (machine_of setting) (kept_snapshot self.now) (snapshot_of (course_of course.now)) }
    {
        self.machine.same_state(&course.machine) && self.policy.same(&course.policy)
    }

    /// How a run ends whose next turn repeats the earlier one.
    pub fn repeat(&self) -> Outcome
        requires { self.now.turns + 1 < 2 ^ 32 }
        ensures { (snapshots : List (Snapshot State)) → Recalls snapshots self.now →
            result ≡ Repeats (length snapshots) (earlier_turn (length snapshots)) }
    {
        Outcome::Repeats {
            turn: self.turns + 1,
            earlier: self.earlier,
        }
    }

    /// Notes a turn, which led to this course.
    pub fn note(&mut self, course: &Course) -> Result<(), NoMemory>
        requires { self.old.turns + 1 < 2 ^ 32 }
        ensures recalls { OnOk result ((snapshots : List (Snapshot State)) → Recalls snapshots self.old →
            Recalls (snapshots ++ snapshot_of (course_of course.now) ∷ []) self.new) }
        ensures turns { OnOk result (self.new.turns ≡ self.old.turns + 1) }
    {
        self.turns += 1;
        // So turns 1, 2, 4 and so on are kept.
        if self.turns / 2 < self.earlier {
            return Ok(());
        }
        self.keep(course)
    }

    /// Keeps what the last turn led to.
    fn keep(&mut self, course: &Course) -> Result<(), NoMemory>
        ensures { OnOk result (self.new ≡ record self.old {
          machine = course.now.machine;
          policy = course.now.policy;
          earlier = self.old.turns;
        }) }
    {
        self.machine = course.machine.fork()?;
        self.policy = course.policy.fork()?;
        self.earlier = self.turns;
        Ok(())
    }
}
