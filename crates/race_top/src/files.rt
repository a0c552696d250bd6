//! Reading the files that a command names, whole and in order.

ghost use Rattle.std.specs.Prelude.{◌≡◌, ℕ, ◌+◌, List, ◌≤◌, IfOk, IfSome, vec_len};
ghost use Rattle.race_top.specs.Due.{Tells, TellsLongModule};
ghost use Rattle.race_top.specs.Command.{task_of};
ghost use Rattle.race_top.specs.File.{limit_of};
ghost use Rattle.race_top.specs.Files.{AreWithin, EndsAtModule, GivesFile, GivesFiles, HasCauses, StopsAt, StopsByLength};

use crate::command::Command;
use crate::file::File;
use crate::refusal::Refusal;
use crate::stop::Stop;
use rc_base::{ReadWhole, Shelf, read_whole};
use std::alloc::Global;

/// The bytes of the files that a command names.
#[derive(Debug, Drop)]
pub struct Files {
    pub module: Vec<u8>,
    pub case: Vec<u8>,
}

impl Files {
    /// Reads the module's file whole, and then the case's.
    #[tactic(auto, using(crate::proofs::Reading::case_causes))]
    pub fn read<F: Shelf>(alloc: Global, shelf: &mut F, command: Command<'_>) -> Result<Files, Stop>
        ensures whole { (code case : List ℕ) → Tells (F.holds shelf.old) (Some (task_of command.entry)) code case → GivesFiles result code case }
        ensures order { (code : List ℕ) → TellsLongModule (F.holds shelf.old) (Some (task_of command.entry)) code → EndsAtModule result (F.given shelf.old) (F.given shelf.new) }
        ensures within { IfOk result AreWithin }
        ensures refusal { StopsByLength result }
        ensures cause { HasCauses result (F.faults shelf.old) (F.faults shelf.new) (F.given shelf.old) (F.given shelf.new) }
        ensures told { (other : List ℕ) → F.holds shelf.new other ≡ F.holds shelf.old other }
    {
        let module = read_file(alloc, shelf, command.module(), File::Module)?;
        let case = read_file(alloc, shelf, command.case(), File::Case)?;
        Ok(Files { module, case })
    }
}

/// Reads one file whole, unless it is longer than its limit.
fn read_file<F: Shelf>(
    alloc: Global,
    shelf: &mut F,
    name: &str,
    file: File,
) -> Result<Vec<u8>, Stop>
    ensures whole { IfSome (F.holds shelf.old name.now) (λ bytes. GivesFile result file bytes) }
    ensures within { IfOk result (λ bytes. vec_len bytes ≤ limit_of file) }
    ensures refusal { StopsAt file result }
    ensures most { F.given shelf.new ≤ F.given shelf.old + limit_of file + 1 }
    ensures cause { HasCauses result (F.faults shelf.old) (F.faults shelf.new) (F.given shelf.old) (F.given shelf.new) }
    ensures told { (other : List ℕ) → F.holds shelf.new other ≡ F.holds shelf.old other }
{
    match read_whole(alloc, shelf, name, file.limit()) {
        Ok(bytes) => Ok(bytes),
        Err(ReadWhole::Fault) => Err(Stop::ReadFailed),
        Err(ReadWhole::TooLong) => Err(Stop::Refused(Refusal::TooLong(file))),
        Err(ReadWhole::NoMemory) => Err(Stop::NoMemory),
    }
}
