//! Proofs that a race's alternate prints what no input of its path prints.

use crate::formula::Formula;
use crate::log::Log;

/// A formula that has no model, the log that shows it, and the number of the race that it is the evidence for.
#[derive(Debug, Drop)]
pub struct Proof {
    pub race: u32,
    pub formula: Formula,
    pub log: Log,
}
