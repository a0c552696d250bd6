//! Why a command has no text.

ghost use Rattle.std.specs.Prelude.{◌≡◌};

use crate::refusal::Refusal;
use crate::trace_replay::{RaceError, ReplayError};
use case_text::CaseError;
use module_text::ModuleError;
use rc_base::{Failure, NoMemory};

/// Why there is no text to write.
#[derive(Clone, Copy, Debug, PartialEq, Eq)]
pub enum Stop {
    ReadFailed,
    Refused(Refusal),
    NoMemory,
}

impl From<NoMemory> for Stop {
    ghost use Rattle.race_top.specs.declared.stop.Stop.TheVariants as stops;

    ghost from_gives = { λ _ stop. stop ≡ stops.NoMemory };

    fn from(_error: NoMemory) -> Stop {
        Stop::NoMemory
    }
}

impl From<Failure<ModuleError>> for Stop {
    ghost use Rattle.race_top.specs.Stop.{stop_of};
    ghost use Rattle.race_top.specs.declared.refusal.Refusal.TheVariants as refusals;

    ghost from_gives = { λ failure stop. stop ≡ stop_of refusals.Module failure };

    fn from(failure: Failure<ModuleError>) -> Stop {
        match failure {
            Failure::Refused(error) => Stop::Refused(Refusal::Module(error)),
            Failure::NoMemory => Stop::NoMemory,
        }
    }
}

impl From<Failure<CaseError>> for Stop {
    ghost use Rattle.race_top.specs.Stop.{stop_of};
    ghost use Rattle.race_top.specs.declared.refusal.Refusal.TheVariants as refusals;

    ghost from_gives = { λ failure stop. stop ≡ stop_of refusals.Case failure };

    fn from(failure: Failure<CaseError>) -> Stop {
        match failure {
            Failure::Refused(error) => Stop::Refused(Refusal::Case(error)),
            Failure::NoMemory => Stop::NoMemory,
        }
    }
}

impl From<Failure<ReplayError>> for Stop {
    ghost use Rattle.race_top.specs.Stop.{stop_of};
    ghost use Rattle.race_top.specs.declared.refusal.Refusal.TheVariants as refusals;

    ghost from_gives = { λ failure stop. stop ≡ stop_of refusals.Replay failure };

    fn from(failure: Failure<ReplayError>) -> Stop {
        match failure {
            Failure::Refused(error) => Stop::Refused(Refusal::Replay(error)),
            Failure::NoMemory => Stop::NoMemory,
        }
    }
}

impl Stop {
    ghost use Rattle.race_top.specs.Stop.{stop_of};
    ghost use Rattle.race_top.specs.declared.refusal.Refusal.TheVariants as refusals;

    /// Why the pair of turns of this number, counted from 1, is no race.
    pub fn of_race(race: u32, failure: Failure<RaceError>) -> Stop
        ensures { result ≡ stop_of (refusals.Race race) failure }
    {
        match failure {
            Failure::Refused(error) => Stop::Refused(Refusal::Race { race, error }),
            Failure::NoMemory => Stop::NoMemory,
        }
    }
}
