//! The module and the case of two texts, with the recorded run.

ghost use Rattle.std.specs.Prelude.{◌<◌, ◌≤◌, ◌^◌, length, vec_len, IfOk};
ghost use Rattle.machine_model.specs.Runnable.{IsRunnable};
ghost use Rattle.race_top.specs.Answer.{GivesIfRead, StopsByBytes};
ghost use Rattle.race_top.specs.File.{limit_of};
ghost use Rattle.race_top.specs.Recorded.{RecordedOf};

use crate::file::File;
use crate::files::Files;
use crate::stop::Stop;
use crate::trace_replay::replay;
use case_text::read_case;
use ir_types::Module;
use module_text::load_module;
use run_types::{Case, Run};
use std::alloc::Global;

/// A module and a case for it, with the run that the case records.
#[derive(Debug, Drop)]
pub struct Recorded {
    pub code: Module,
    pub case: Case,
    pub run: Run,
}

impl Recorded {
    /// Reads the module and then the case, and replays the run.
    #[tactic(auto, unfolding(crate::specs::Recorded::RecordedOf))]
    pub fn read(alloc: Global, files: &Files) -> Result<Recorded, Stop>
        requires { vec_len files.now.module ≤ limit_of File.Module }
        ensures due { GivesIfRead (λ recorded. recorded) result (RecordedOf files.now.module.items files.now.case.items) }
        ensures runnable { IfOk result (λ recorded. IsRunnable recorded.code) }
        ensures steps { IfOk result (λ recorded. recorded.case.steps < 2 ^ 30) }
        ensures races { IfOk result (λ recorded. length recorded.case.races ≤ 1) }
        ensures cause { StopsByBytes result }
    {
        let code = load_module(alloc, &files.module)?;
        let case = read_case(alloc, &files.case, &code)?;
        let run = replay(alloc, &code, &case)?;
        Ok(Recorded { code, case, run })
    }
}
