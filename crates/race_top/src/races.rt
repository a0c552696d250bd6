//! The races of a case.

ghost use Rattle.std.specs.Prelude.{◌≡◌, ◌<◌, ◌^◌, All, IfOk, length, true};
ghost use Rattle.machine_model.specs.Reach.{Reaches};
ghost use Rattle.machine_model.specs.Runnable.{IsRunnable};
ghost use Rattle.race_top.specs.Answer.{GivesIfRead, StopsByBytes};
ghost use Rattle.race_top.specs.Races.{RacesOf};

use crate::stop::Stop;
use crate::trace_replay::check_race;
use crate::trace_replay::laws::recorded_run_reaches;
use ir_types::Module;
use rc_base::NoMemory;
use run_types::{Case, Race};
use std::alloc::Global;

/// The races of a case in order, or the first pair of recorded turns that is none.
#[tactic(auto, unfolding(crate::specs::Races::races_from))]
pub fn check_races(alloc: Global, code: &Module, case: &Case) -> Result<Vec<Race>, Stop>
    requires runnable { IsRunnable code.now }
    requires steps { case.now.steps < 2 ^ 30 }
    requires count { length case.now.races < 2 ^ 32 }
    ensures due { GivesIfRead (λ races. races.items) result (RacesOf code.now case.now) }
    ensures reached { IfOk result (λ races. All (λ race. Reaches code.now case.now race case.now.input ≡ true) races.items) }
    ensures cause { StopsByBytes result }
{
    let mut races = Vec::new(alloc);
    for index in 0..case.races.len() as u32 {
        let found = check_race(alloc, code, case, index);
        recorded_run_reaches();
        let race = found.map_err(|error| Stop::of_race(index + 1, error))?;
        races.push(race).map_err(|_| NoMemory)?;
    }
    Ok(races)
}
