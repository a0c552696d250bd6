//! What is wrong with a case text, and in which line.

ghost use Rattle.std.specs.Prelude.{◌≡◌};
ghost use Rattle.case_text.specs.Error.{name_of, place_of};

use thiserror::Error;

/// Why a text is no case. Lines are numbered from 1.
#[derive(Clone, Copy, Debug, PartialEq, Eq, Error)]
pub enum CaseError {
    #[error("line {line} has no form that may stand there")]
    Syntax { line: u32 },
    #[error("line {line} has a number out of its bounds, or makes a list too long")]
    Range { line: u32 },
    #[error("line {line} names no load or store of the module, or one that was named before")]
    Site { line: u32 },
    #[error("line {line} gives an input that the module does not read so")]
    Slot { line: u32 },
}

impl CaseError {
    /// What is wrong, in a word.
    pub fn name(self) -> &'static str
        ensures { result.now ≡ name_of self }
    {
        match self {
            CaseError::Syntax { .. } => "Syntax",
            CaseError::Range { .. } => "Range",
            CaseError::Site { .. } => "Site",
            CaseError::Slot { .. } => "Slot",
        }
    }

    /// The number of the line.
    pub fn place(self) -> u32
        ensures { result ≡ place_of self }
    {
        match self {
            CaseError::Syntax { line }
            | CaseError::Range { line }
            | CaseError::Site { line }
            | CaseError::Slot { line } => line,
        }
    }
}
