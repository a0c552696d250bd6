//! What is asked of a module: a recorded run with its races, and the bounds of the search.

use crate::race::Race;
use crate::run::Turns;
use ir_types::{Input, List, Site};

/// A recorded run with the races reported in it.
#[derive(Debug, Drop)]
pub struct Case {
    /// Where the random schedules start.
    pub seed: u64,
    /// The budget of each run, in steps.
    pub steps: u32,
    /// How many decision lists are visited at the most.
    pub visits: u32,
    /// How many paths are listed at the most.
    pub paths: u32,
    /// How many schedules are run after the second order of a race.
    pub schedules: u32,
    pub input: Input,
    /// The loads and stores that are visible.
    pub watch: List<Site>,
    /// The recorded turns.
    pub turns: Turns,
    /// Pairs of turn numbers, from 1.
    pub races: List<(u32, u32)>,
}

/// What names a checkpoint of an alternate run: its race and input, and the recorded turns.
#[derive(Debug, Drop)]
pub struct Key {
    pub race: Race,
    pub input: Input,
    pub turns: Turns,
}
