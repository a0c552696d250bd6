//! Why a request is refused, and where.

ghost use Rattle.std.specs.Prelude.{◌≡◌, IfOk, string_bytes};
ghost use Rattle.race_top.specs.Refusal.{refusal_line};

use crate::file::File;
use crate::trace_replay::{RaceError, ReplayError};
use case_text::CaseError;
use module_text::{ModuleError, fault_line, fault_name};
use std::alloc::{AllocError, Global};

/// A refusal: what is wrong, with the place.
#[derive(Clone, Copy, Debug, PartialEq, Eq)]
pub enum Refusal {
    /// The file has more bytes than its limit.
    TooLong(File),
    /// The module's file spells no module.
    Module(ModuleError),
    /// The case's file spells no case for the module.
    Case(CaseError),
    /// The recorded turns can't be taken.
    Replay(ReplayError),
    /// The pair of turns of this number, counted from 1, is no race.
    Race { race: u32, error: RaceError },
}

impl Refusal {
    /// The line that is written in place of an answer: what is wrong, in a word, and the file's number, the line, or
    /// the number of the listed turn or of the race.
    pub fn line(self, alloc: Global) -> Result<String, AllocError>
        ensures { IfOk result (λ line. string_bytes line ≡ refusal_line self) }
    {
        match self {
            Refusal::TooLong(file) => format!(in alloc; "refused TooLong {}\n", file.number()),
            Refusal::Module(error) => {
                format!(in alloc;
                    "refused Module{} {}\n",
                    fault_name(error),
                    fault_line(error)
                )
            }
            Refusal::Case(error) => {
                format!(in alloc; "refused Case{} {}\n", error.name(), error.place())
            }
            Refusal::Replay(error) => {
                format!(in alloc; "refused Replay{} {}\n", error.name(), error.place())
            }
            Refusal::Race { race, error } => {
                format!(in alloc; "refused Race{} {race}\n", error.name())
            }
        }
    }
}
