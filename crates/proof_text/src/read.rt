//! The reader of proofs.

ghost use Rattle.std.specs.Prelude.{◌≡◌, ◌≤◌, ◌^◌, length, map};
ghost use Rattle.rc_base.specs.Failures.{Gives};
ghost use Rattle.proof_text.specs.Entry.{entry_of};
ghost use Rattle.proof_text.specs.Reading.{proofs_in};

use crate::error::ProofsError;
use crate::progress::Progress;
use rc_base::Failure;
use refutation::Proof;
use std::alloc::Global;
use text_lines::Parts;

/// The proofs that a text spells, or its first line that may not stand there. Where the text ends too early that is the
/// line after its last one; what follows the last line feed is no line.
#[tactic(auto, unfolding(crate::specs::Reading::proofs_in, crate::specs::Reading::lines_from))]
pub fn read_proofs(alloc: Global, text: &[u8]) -> Result<Vec<Proof>, Failure<ProofsError>>
    requires { length text.now ≤ 2 ^ 30 }
    ensures { Gives (λ proofs. map entry_of proofs.items) result (proofs_in text.now) }
{
    let mut progress = Progress::start(alloc);
    let mut lines = Parts::new(b'\n', text);
    let mut number: u32 = 1;
    'lines: while let Some(line) = lines.next() {
        if lines.is_empty() {
            if progress.is_ended(line) {
                return Ok(progress.proofs);
            }
            return Err(Failure::Refused(ProofsError::BadLog { line: number }));
        }
        if !progress.take(alloc, line)? {
            return Err(Failure::Refused(ProofsError::BadLog { line: number }));
        }
        number += 1;
    }
    Err(Failure::Refused(ProofsError::BadLog { line: number }))
}
