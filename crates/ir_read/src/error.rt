//! What is wrong with a module's text, and in which line.

use thiserror::Error;

/// Why a text is no module. Lines are numbered from 1. Reading gives the first three; the others are for the check of
/// what was read.
#[derive(Clone, Copy, Debug, PartialEq, Eq, Error)]
pub enum ModuleError {
    #[error("no token begins in line {line}")]
    Lexical { line: u32 },
    #[error("line {line} has a token, or the end of the text, with which no module goes on")]
    Syntax { line: u32 },
    #[error("line {line} has a form that is left out")]
    Unsupported { line: u32 },
    #[error("line {line} names what nothing defines")]
    UnknownName { line: u32 },
    #[error("line {line} defines a name again")]
    Duplicate { line: u32 },
    #[error("line {line} has types that don't fit")]
    TypeMismatch { line: u32 },
    #[error("line {line} breaks the shape of a module")]
    BadShape { line: u32 },
}
