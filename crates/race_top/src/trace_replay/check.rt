//! Whether a pair of recorded turns is a race.

ghost use Rattle.std.specs.Prelude.{◌≡◌, ◌-◌, ◌<◌, List, Some, length, slice_get, slice_index_or};
ghost use Rattle.machine_model.specs.Moment.{Moment};
ghost use Rattle.machine_model.specs.Runnable.{IsRunnable};
ghost use Rattle.machine_model.specs.Setting.{Setting};
ghost use Rattle.machine_model.specs.System.{machine_of};
ghost use Rattle.machine_model.specs.declared.state.State.{State};
ghost use Rattle.race_top.specs.CheckRace.{RaceOf, name_of, race_at};
ghost use Rattle.rc_base.specs.Failures.{Gives};
ghost use Rattle.race_top.specs.Seen.{SeesPair};

use crate::trace_replay::seen::{Pair, see_pair};
use ir_types::Module;
use rc_base::Failure;
use run_types::{Case, Race};
use std::alloc::Global;
use std::marker::Brand;
use std::sync::ledger::Blank;
use thiserror::Error;

/// Why a pair of recorded turns is no race.
#[derive(Clone, Copy, Debug, PartialEq, Eq, Error)]
pub enum RaceError {
    /// The turns aren't two recorded ones, the second after the first.
    #[error("the turns are out of range")]
    Range,
    #[error("both turns are of one thread")]
    SameThread,
    /// One of the turns did no access at a watched site.
    #[error("a turn does no watched access")]
    NotWatched,
    /// The accesses have no byte in common, or both are loads.
    #[error("the accesses do not conflict")]
    NoConflict,
}

impl RaceError {
    /// What is wrong, in a word.
    pub fn name(self) -> &'static str
        ensures { result.now ≡ name_of self }
    {
        match self {
            RaceError::Range => "Range",
            RaceError::SameThread => "SameThread",
            RaceError::NotWatched => "NotWatched",
            RaceError::NoConflict => "NoConflict",
        }
    }
}

/// The race of two turns of these numbers, the second after the first.
fn race_of(first: u32, second: u32, pair: &Pair) -> Result<Race, Failure<RaceError>>
    ensures { (setting : Setting) (moments : List (Moment State)) →
        SeesPair (machine_of setting) moments first second (Some pair.now) →
        Gives (λ race. race) result (race_at (machine_of setting) moments first second
        (slice_get moments (first - 1)) (slice_get moments (second - 1))) }
{
    if pair.one.thread == pair.other.thread {
        return Err(Failure::Refused(RaceError::SameThread));
    }
    let (Some(access), Some(again)) = (pair.one.access, pair.other.access) else {
        return Err(Failure::Refused(RaceError::NotWatched));
    };
    if !access.conflicts(&again) {
        return Err(Failure::Refused(RaceError::NoConflict));
    }
    Ok(Race {
        first,
        second,
        t1: pair.one.thread,
        v1: pair.count,
        s1: access.site,
        t2: pair.other.thread,
        s2: again.site,
    })
}

/// The race of the turns of these numbers.
#[tactic(auto, unfolding(crate::specs::CheckRace::RaceOf))]
fn check_pair(
    alloc: Global,
    code: &Module,
    case: &Case,
    first: u32,
    second: u32,
) -> Result<Race, Failure<RaceError>>
    requires { IsRunnable code.now }
    ensures { Gives (λ race. race) result (RaceOf code.now case.now (first, second)) }
{
    if first == 0 || second <= first || case.turns.len() < second as usize {
        return Err(Failure::Refused(RaceError::Range));
    }
    match see_pair::<Brand>(alloc, code, case, first, second, Blank::new(1))? {
        Some(pair) => race_of(first, second, &pair),
        None => Err(Failure::Refused(RaceError::NotWatched)),
    }
}

/// The race of the pair of recorded turns with this index.
pub fn check_race(
    alloc: Global,
    code: &Module,
    case: &Case,
    index: u32,
) -> Result<Race, Failure<RaceError>>
    requires runnable { IsRunnable code.now }
    requires index { index < length case.now.races }
    ensures { Gives (λ race. race) result (RaceOf code.now case.now (slice_index_or case.now.races index (0, 0))) }
{
    let (first, second) = case.races.as_slice()[index as usize];
    check_pair(alloc, code, case, first, second)
}
