//! Where each alternate of a race begins: the hold, and the turn that the held thread takes after it.

ghost use Rattle.std.specs.Prelude.{◌≡◌, ◌+◌, ◌*◌, ◌<◌, ◌^◌, IfOk};
ghost use Rattle.machine_model.specs.Begun.{begun_after};
ghost use Rattle.machine_model.specs.Hold.{Held};
ghost use Rattle.machine_model.specs.Primary.{setting_of};
ghost use Rattle.machine_model.specs.System.{machine_of};
ghost use Rattle.machine_model.specs.declared.state.State.{State};
ghost use Rattle.race_top.specs.OrderEnforcer.{Begins, Enforces, IsBegun, IsReady};

use crate::order_enforcer::hold::Enforced;
use crate::order_enforcer::past::Past;
use crate::order_enforcer::tested::{Tested, test_turn};
use concrete_machine::Course;
use ir_types::{Input, Module};
use rc_base::{NoMemory, Steps};
use run_types::{Case, Race, Reason, Run};
use std::sync::ledger::Ledger;

/// Where an alternate begins.
#[derive(Drop)]
pub enum Begun {
    /// The held thread took its turn; a schedule gives the rest.
    Ready { course: Course, past: Past },
    /// The order can't be enforced, as this course shows.
    Not { reason: Reason, course: Course },
    /// The run is over.
    Complete(Run),
}

/// Lets the held thread take its turn, where the hold is done.
pub fn begin_after<L: Ledger>(
    enforced: Enforced,
    code: &Module,
    case: &Case,
    race: &Race,
    input: &Input,
    steps: &mut Steps<L>,
) -> Result<Begun, NoMemory>
    requires steps { case.now.steps < 2 ^ 30 }
    requires ready { IsReady code.now case.now case.now.steps (2 * case.now.steps + 2) enforced }
    ensures begun { IfOk result (λ begun. (held : Held State) → Enforces enforced held →
        Begins begun (begun_after (machine_of (setting_of code.now case.now input.now)) case.now.turns race.now held)) }
    ensures ready { IfOk result (IsBegun code.now case.now case.now.steps (2 * case.now.steps + 3)) }
{
    match enforced {
        Enforced::Ready { mut course, past } => {
            course.policy.after(race.t1);
            let tested = test_turn(course, past, code, case, input, steps)?;
            Ok(match tested {
                Tested::Onward { course, past } => Begun::Ready { course, past },
                Tested::Over(run) => Begun::Complete(run),
            })
        }
        Enforced::Not { reason, course } => Ok(Begun::Not { reason, course }),
        Enforced::Ended(run) => Ok(Begun::Complete(run)),
    }
}
