//! What the bytes of a module and a case are due: the text that a command asks for, or the first refusal.

ghost use Rattle.std.specs.Prelude.{◌≤◌, vec_len};
ghost use Rattle.race_top.specs.Answer.{GivesIfRead, StopsByBytes};
ghost use Rattle.race_top.specs.File.{limit_of};
ghost use Rattle.race_top.specs.Due.{ReplayOf, ReportOf};

use crate::analyser_pool::analyse;
use crate::file::File;
use crate::files::Files;
use crate::races::check_races;
use crate::recorded::Recorded;
use crate::stop::Stop;
use report_text::{print_replay, print_report};
use std::alloc::Global;

/// The text of the replayed run.
#[tactic(auto, unfolding(crate::specs::Due::ReplayOf))]
pub fn replayed_text(alloc: Global, files: &Files) -> Result<Vec<u8>, Stop>
    requires { vec_len files.now.module ≤ limit_of File.Module }
    ensures due { GivesIfRead (λ text. text.items) result (ReplayOf files.now.module.items files.now.case.items) }
    ensures cause { StopsByBytes result }
{
    let recorded = Recorded::read(alloc, files)?;
    Ok(print_replay(alloc, &recorded.run, &recorded.code)?)
}

/// The text of the classes of all races.
#[tactic(auto, unfolding(crate::specs::Due::ReportOf))]
pub fn classified_text(alloc: Global, files: &Files) -> Result<Vec<u8>, Stop>
    requires { vec_len files.now.module ≤ limit_of File.Module }
    ensures due { GivesIfRead (λ text. text.items) result (ReportOf files.now.module.items files.now.case.items) }
    ensures cause { StopsByBytes result }
{
    let recorded = Recorded::read(alloc, files)?;
    let races = check_races(alloc, &recorded.code, &recorded.case)?;
    let reports = analyse(alloc, &recorded.code, &recorded.case, &races)?;
    Ok(print_report(alloc, &reports, &recorded.code)?)
}
