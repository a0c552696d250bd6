//! The first instruction of a module that the machine has no row for.

ghost use Rattle.std.specs.Prelude.{◌≡◌, IfOk, option_map};
ghost use Rattle.ir_items.specs.declared.segment.Cut.TheVariants as cuts;
ghost use Rattle.ir_items.specs.Segment.{segments_of};
ghost use Rattle.module_text.specs.Beyond as spec;

use crate::lines::lines_of;
use ir_read::RawModule;
use ir_types::{Inst, Module};
use machine_model::has_row;
use rc_base::NoMemory;
use std::alloc::Global;

/// The line of the first instruction without a row, of a module that was checked.
pub fn first_beyond(
    alloc: Global,
    raw: &RawModule<'_>,
    code: &Module,
) -> Result<Option<u32>, NoMemory>
    ensures { IfOk result (λ line. line ≡ spec.first_beyond (segments_of cuts.Items raw.now.nodes.items) code.now) }
{
    let lines = lines_of(alloc, &raw.nodes[..])?;
    match first_without_row(code, lines.as_slice()) {
        Some(found) => Ok(Some(*found.1)),
        None => Ok(None),
    }
}

/// The first instruction without a row, beside its line, by the lines of all.
fn first_without_row<'m>(code: &'m Module, lines: &'m [u32]) -> Option<(&'m Inst, &'m u32)>
    ensures { option_map (λ found. (found.0.now, found.1.now)) result ≡ spec.first_without_row code.now lines.now }
{
    let functions = code.functions.as_slice();
    functions
        .iter()
        .flat_map(|function| function.blocks.items.iter())
        .flat_map(|block| block.insts.items.iter())
        .zip(lines.iter())
        .find(|one| !has_row(code, one.0))
}
