//! Races of a recorded run, and paths of inputs that take the same decisions.

use crate::run::{Decisions, Outcome};
use ir_types::{Input, Site};

/// A race between the accesses of two turns of the recorded run, numbered from 1: turn `first` is the
/// `v1`-th of thread `t1` and accesses at `s1`, turn `second` is one of `t2` and accesses at `s2`.
#[derive(Clone, Copy, Debug, PartialEq, Eq)]
pub struct Race {
    pub first: u32,
    pub second: u32,
    pub t1: u32,
    pub v1: u32,
    pub s1: Site,
    pub t2: u32,
    pub s2: Site,
}

/// The inputs whose runs take these decisions, by one of them.
#[derive(Debug, Drop)]
pub struct Path {
    pub input: Input,
    pub decisions: Decisions,
    /// Whether its run reaches the race.
    pub reached: bool,
    pub outcome: Outcome,
}
