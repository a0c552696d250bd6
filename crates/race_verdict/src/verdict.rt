//! The class of a race, with its evidence.

use ir_types::{Input, List};
use run_types::{OutItem, Outcome, Reason, Turns};

/// What the orders of a race lead to, with the job that shows it.
#[derive(Debug, Drop)]
pub enum Verdict {
    /// An order leads to a trap, a deadlock or a repeat.
    SpecViolated {
        path: u32,
        schedule: u32,
        input: Input,
        turns: Turns,
        fault: Outcome,
    },
    /// The second order can't be enforced on the recorded path.
    SingleOrdering {
        reason: Reason,
        turns: Turns,
    },
    /// The second order prints what no input of its path prints in the first.
    OutputDiffers {
        path: u32,
        schedule: u32,
        input: Input,
        /// The turns of the path's primary, and what it prints.
        primary: Turns,
        prints: List<OutItem>,
        turns: Turns,
        output: List<OutItem>,
    },
    /// A run spent its budget, and no other class applies.
    Unresolved {
        path: u32,
        schedule: u32,
        input: Input,
        turns: Turns,
    },
    /// All that the second order prints is printed in the first one too. The runs differ in input or turns.
    Harmless {
        runs: List<HarmlessRun>,
    },
}

/// A run of the second order that exits, with the least input of its path that prints the same.
#[derive(Debug, Drop)]
pub struct HarmlessRun {
    pub path: u32,
    pub schedule: u32,
    pub input: Input,
    pub turns: Turns,
    pub output: List<OutItem>,
    pub admitted: Input,
}
