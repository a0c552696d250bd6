//! The run of a small module, turn by turn.

ghost use Rattle.std.specs.Prelude.{◌≡◌, ◌<◌};

use crate::turns::{CELL, STORE, empty_input, joining_module};
use concrete_machine::{Advance, Course};
use ir_types::List;
use machine_model::Access;
use rc_base::{NoMemory, Steps};
use run_types::{Case, Outcome};
use std::alloc::Global;
use std::marker::Brand;
use std::process::Abort;
use std::sync::ledger::{Blank, Ledger};
use std::test::Fail;

const ACCESS: Access = Access {
    site: STORE,
    at: CELL,
    len: 4,
    store: true,
};

/// The threads that take turns, and the access that each turn does.
static TURNS: [(u32, Option<Access>); 8] = [
    (0, None),
    (0, None),
    (1, None),
    (1, Some(ACCESS)),
    (1, None),
    (0, None),
    (0, None),
    (0, None),
];

/// A recorded run of these turns.
fn recorded_case(alloc: Global) -> Result<Case, NoMemory> {
    Ok(Case {
        seed: 0,
        steps: 100,
        visits: 1,
        paths: 1,
        schedules: 1,
        input: empty_input(alloc),
        watch: List::from(Vec::from_slice(alloc, &[STORE])?),
        turns: List::from(Vec::from_slice(alloc, &[0, 0, 1, 1, 1, 0, 0, 0])?),
        races: List::new(alloc),
    })
}

/// Asserts what is told of each turn before it is taken, and what the run leaves.
fn take_course<R: Abort, L: Ledger>(rt: &R, alloc: Global, blank: Blank) -> Result<(), Fail>
    requires name { blank.name ≡ L.name }
    requires parts { blank.parts ≡ L.parts }
    requires some { 0 < blank.parts }
{
    let code = joining_module(alloc)?;
    let case = recorded_case(alloc)?;
    let mut steps = Steps::<L>::new(blank);
    let mut course = Course::begin(alloc, &code, &case, &case.input)?;
    for (thread, access) in TURNS.iter() {
        let next = course.peek(&code)?;
        assert_eq!(rt; next, Some(*thread));
        assert_eq!(rt; course.access(&code, *thread), *access);
        match course.advance(&code, &case, &case.input, &mut steps)? {
            Advance::Onward(next) => course = next,
            Advance::Over(last, outcome) => {
                let run = last.conclude(outcome);
                assert_eq!(rt; run.outcome, Outcome::Exit { status: 0 });
                assert_eq!(rt; run.turns, case.turns);
                return Ok(());
            }
        }
    }
    panic!(rt; "the run goes on")
}

#[test]
fn course_is_taken(rt: HostRuntime) -> Result<(), Fail> {
    take_course::<_, Brand>(&rt, rt.alloc(), Blank::new(1))
}
