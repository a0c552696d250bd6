//! Equal inputs and turns.

ghost use Rattle.std.specs.Prelude.{◌≡◌, IfOk};

use crate::run::Turns;
use ir_types::{Input, List};
use rc_base::NoMemory;
use std::alloc::Global;

/// An equal input.
pub fn copy_input(alloc: Global, input: &Input) -> Result<Input, NoMemory>
    ensures { IfOk result (λ copy. copy ≡ input.now) }
{
    let items = Vec::from_slice(alloc, &input.slots.items)?;
    Ok(Input {
        slots: List { items },
    })
}

/// Equal turns.
pub fn copy_turns(alloc: Global, turns: &Turns) -> Result<Turns, NoMemory>
    ensures { IfOk result (λ copy. copy ≡ turns.now) }
{
    let items = Vec::from_slice(alloc, &turns.items)?;
    Ok(List { items })
}
