//! The turns of a run, as runs of equal threads.

ghost use Rattle.std.specs.Prelude.{◌≡◌, ◌++◌, OnOk};
ghost use Rattle.report_text.specs.Turns.{thread_text, turns_text};

use crate::numbers::push_decimal;
use std::alloc::AllocError;
use text_lines::{ThreadRun, split_first_run};

/// Appends the longest runs of some turns, parted by spaces.
pub fn push_turns(text: &mut Vec<u8>, turns: &[u8]) -> Result<(), AllocError>
    ensures { OnOk result (text.new.items ≡ text.old.items ++ turns_text turns.now) }
{
    let Some((first, mut rest)) = split_first_run(turns) else {
        return text.extend_from_slice(b"-");
    };
    push_run(text, first)?;
    while let Some((run, after)) = split_first_run(rest) {
        text.extend_from_slice(b" ")?;
        push_run(text, run)?;
        rest = after;
    }
    Ok(())
}

fn push_run(text: &mut Vec<u8>, run: ThreadRun) -> Result<(), AllocError>
    ensures { OnOk result (text.new.items ≡ text.old.items ++ thread_text run) }
{
    push_decimal(text, u64::from(run.thread))?;
    if run.count != 1 {
        text.extend_from_slice(b"*")?;
        push_decimal(text, run.count as u64)?;
    }
    Ok(())
}
