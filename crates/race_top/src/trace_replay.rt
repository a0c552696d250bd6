//! The recorded run: the primary of a case's input, and whether it takes the listed turns.
//!
//! - `check`: whether a pair of recorded turns is a race
//! - `seen`: what the run does in two of its turns
//! - `laws`: what holds of every recorded run

mod check;
pub mod laws;
mod seen;

ghost use Rattle.std.specs.Prelude.{◌≡◌, ◌<◌, ◌^◌, length, IfOk, IfSome};
ghost use Rattle.machine_model.specs.Primary.{Primary};
ghost use Rattle.machine_model.specs.Runnable.{IsRunnable};
ghost use Rattle.rc_base.specs.Failures.{Gives};
ghost use Rattle.race_top.specs.TraceReplay.{error_at_end, first_other, name_of, place_of, replay_error, replay_of};

pub use check::{RaceError, check_race};
use concrete_machine::{Advance, Course};
use ir_types::{Input, Module};
use rc_base::{Failure, NoMemory, Steps};
use run_types::{Case, Outcome, Run};
use std::alloc::Global;
use std::marker::Brand;
use std::sync::ledger::{Blank, Ledger};
use thiserror::Error;

/// Why the recorded run can't be replayed. Turns are numbered from 1.
#[derive(Clone, Copy, Debug, PartialEq, Eq, Error)]
pub enum ReplayError {
    /// The thread of the listed turn isn't enabled.
    #[error("turn {turn} is not enabled")]
    TurnNotEnabled { turn: u32 },
    /// The run has ended before the listed turn.
    #[error("the run ends before turn {turn}")]
    EndsEarly { turn: u32 },
    /// The budget ended in the listed turn.
    #[error("the budget is spent in turn {turn}")]
    Spent { turn: u32 },
}

impl ReplayError {
    /// What is wrong, in a word.
    pub fn name(self) -> &'static str
        ensures { result.now ≡ name_of self }
    {
        match self {
            ReplayError::TurnNotEnabled { .. } => "TurnNotEnabled",
            ReplayError::EndsEarly { .. } => "EndsEarly",
            ReplayError::Spent { .. } => "Spent",
        }
    }

    /// The number of the turn.
    pub fn place(self) -> u32
        ensures { result ≡ place_of self }
    {
        match self {
            ReplayError::TurnNotEnabled { turn }
            | ReplayError::EndsEarly { turn }
            | ReplayError::Spent { turn } => turn,
        }
    }
}

/// The run of this input that follows the recorded turns, its steps counted.
fn run_counted<L: Ledger>(
    alloc: Global,
    code: &Module,
    case: &Case,
    input: &Input,
    blank: Blank,
) -> Result<Run, NoMemory>
    requires runnable { IsRunnable code.now }
    requires name { blank.name ≡ L.name }
    requires parts { blank.parts ≡ L.parts }
    requires some { 0 < blank.parts }
    ensures { IfOk result (λ run. run ≡ Primary code.now case.now input.now) }
{
    let mut steps = Steps::<L>::new(blank);
    let mut course = Course::begin(alloc, code, case, input)?;
    // Each turn costs at least 1, or is cut.
    let most = u64::from(case.steps) + 1;
    for _ in 0..most {
        match course.advance(code, case, input, &mut steps)? {
            Advance::Onward(next) => course = next,
            Advance::Over(last, outcome) => return Ok(last.conclude(outcome)),
        }
    }
    Ok(course.conclude(Outcome::Spent))
}

/// The primary of an input: the run that follows the recorded turns.
pub fn primary(alloc: Global, code: &Module, case: &Case, input: &Input) -> Result<Run, NoMemory>
    requires { IsRunnable code.now }
    ensures { IfOk result (λ run. run ≡ Primary code.now case.now input.now) }
{
    run_counted::<Brand>(alloc, code, case, input, Blank::new(1))
}

/// The place of the first turn that another thread takes than the listed one.
fn first_other(listed: &[u8], turns: &[u8]) -> Option<usize>
    ensures place { result ≡ first_other listed.now turns.now }
    ensures within { IfSome result (λ place. place < length listed.now) }
{
    listed
        .iter()
        .zip(turns)
        .position(|(thread, taken)| thread != taken)
}

/// Which listed turn a run of so many turns, all of them as listed, does not take.
fn error_at_end(listed: &[u8], taken: usize, outcome: Outcome) -> Option<ReplayError>
    requires { length listed.now < 2 ^ 32 }
    ensures { result ≡ error_at_end listed.now taken outcome }
{
    match outcome {
        Outcome::Spent if 0 < taken && taken <= listed.len() => {
            Some(ReplayError::Spent { turn: taken as u32 })
        }
        Outcome::Spent => None,
        _ if taken < listed.len() => Some(ReplayError::EndsEarly {
            turn: taken as u32 + 1,
        }),
        _ => None,
    }
}

/// Which listed turn the run that follows the list does not take.
#[tactic(auto, unfolding(crate::specs::TraceReplay::replay_error))]
fn replay_error(listed: &[u8], run: &Run) -> Option<ReplayError>
    requires { length listed.now < 2 ^ 32 }
    ensures { result ≡ replay_error listed.now run.now }
{
    match first_other(listed, &run.turns.items) {
        Some(place) => Some(ReplayError::TurnNotEnabled {
            turn: place as u32 + 1,
        }),
        None => error_at_end(listed, run.turns.len(), run.outcome),
    }
}

/// Replays the recorded run.
#[tactic(auto, unfolding(crate::specs::TraceReplay::replay_of))]
pub fn replay(alloc: Global, code: &Module, case: &Case) -> Result<Run, Failure<ReplayError>>
    requires runnable { IsRunnable code.now }
    requires listed { length case.now.turns < 2 ^ 32 }
    ensures { Gives (λ run. run) result (replay_of code.now case.now) }
{
    let run = primary(alloc, code, case, &case.input)?;
    match replay_error(&case.turns.items, &run) {
        Some(error) => Err(Failure::Refused(error)),
        None => Ok(run),
    }
}
