//! The reader of case texts.

ghost use Rattle.std.specs.Prelude.{◌≤◌, length, IfOk};
ghost use Rattle.rc_base.specs.Failures.{Gives};
ghost use Rattle.case_text.specs.Read.{case_of};

use crate::error::CaseError;
use crate::progress::Progress;
use ir_types::Module;
use rc_base::Failure;
use run_types::Case;
use std::alloc::Global;
use text_lines::Parts;

/// The case that a text spells for a module.
#[tactic(auto, unfolding(crate::specs::Read::case_of, crate::specs::Read::lines_from))]
pub fn read_case(alloc: Global, text: &[u8], code: &Module) -> Result<Case, Failure<CaseError>>
    ensures value { Gives (λ case. case) result (case_of code.now text.now) }
    ensures listed { IfOk result (λ case. length case.turns ≤ 20000) }
    ensures steps { IfOk result (λ case. case.steps ≤ 200000) }
    ensures races { IfOk result (λ case. length case.races ≤ 1) }
{
    let mut progress = Progress::start(alloc);
    let mut lines = Parts::new(b'\n', text);
    let mut number: u32 = 1;
    'lines: while let Some(line) = lines.next() {
        if lines.is_empty() {
            // What follows the last line feed is no line.
            if progress.is_ended(line) {
                return Ok(progress.case);
            }
            return Err(Failure::Refused(CaseError::Syntax { line: number }));
        }
        progress.take(code, number, line)?;
        // No case has so many lines: its lists would have passed their limits long before.
        number = number.checked_add(1).ok_or(Failure::NoMemory)?;
    }
    Err(Failure::Refused(CaseError::Syntax { line: number }))
}
