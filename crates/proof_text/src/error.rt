//! What is wrong with the text of proofs.

use thiserror::Error;

/// Why a text is none of proofs. Lines are numbered from 1.
#[derive(Clone, Copy, Debug, PartialEq, Eq, Error)]
pub enum ProofsError {
    #[error("line {line} of the proofs may not stand there")]
    BadLog { line: u32 },
}
