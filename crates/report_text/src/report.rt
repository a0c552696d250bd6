//! The text of the classes of some races.

ghost use Rattle.std.specs.Prelude.{◌≡◌, IfOk};
ghost use Rattle.report_text.specs.Report.{report_text};

use crate::block::push_block;
use ir_types::Module;
use race_verdict::Verdict;
use rc_base::NoMemory;
use std::alloc::Global;

/// The class of the race of two recorded turns, which are numbered from 1.
#[derive(Debug, Drop)]
pub struct RaceReport {
    pub first: u32,
    pub second: u32,
    pub verdict: Verdict,
}

/// The text of the classes of some races of a module. Races are numbered from 1, in order.
#[tactic(auto, unfolding(crate::specs::Report::report_text, crate::specs::Report::blocks_from))]
pub fn print_report(
    alloc: Global,
    reports: &[RaceReport],
    code: &Module,
) -> Result<Vec<u8>, NoMemory>
    ensures { IfOk result (λ text. text.items ≡ report_text reports.now code.now) }
{
    let mut text = Vec::from_slice(alloc, b"portend-report 1\n")?;
    for (index, report) in reports.iter().enumerate() {
        push_block(&mut text, index as u64 + 1, report, code)?;
    }
    text.extend_from_slice(b"end\n")?;
    Ok(text)
}
