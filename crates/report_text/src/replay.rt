//! The text of a replayed run.

ghost use Rattle.std.specs.Prelude.{◌≡◌, IfOk};
ghost use Rattle.report_text.specs.Replay.{replay_text};

use crate::items::push_items;
use crate::outcome::push_outcome;
use crate::turns::push_turns;
use ir_types::Module;
use rc_base::NoMemory;
use run_types::Run;
use std::alloc::Global;

/// The text of a replayed run.
#[tactic(auto, unfolding(crate::specs::Replay::replay_text))]
pub fn print_replay(alloc: Global, run: &Run, module: &Module) -> Result<Vec<u8>, NoMemory>
    ensures { IfOk result (λ text. text.items ≡ replay_text run.now «module».now) }
{
    let mut text = Vec::from_slice(alloc, b"portend-replay 1\nturns ")?;
    push_turns(&mut text, run.turns.as_slice())?;
    text.extend_from_slice(b"\noutput ")?;
    push_items(&mut text, run.output.as_slice())?;
    text.extend_from_slice(b"\n")?;
    push_outcome(&mut text, run.outcome, module)?;
    text.extend_from_slice(b"\nend\n")?;
    Ok(text)
}
