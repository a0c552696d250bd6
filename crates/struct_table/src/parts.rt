//! What structs hold within parts, where no struct holds one of a higher part than its own.

ghost use Rattle.std.specs.Prelude.{◌≡◌, [], IfOk};
ghost use Rattle.struct_table.specs.Graph.{held};
ghost use Rattle.struct_table.specs.Parts as spec;

use ir_types::List;
use rc_base::NoMemory;
use std::alloc::Global;

/// The part of the struct.
pub fn part(parts: &List<usize>, number: usize) -> usize
    ensures { result ≡ spec.part parts.now number }
{
    if number < parts.items.len() {
        parts.items[number]
    } else {
        0
    }
}

/// Whether no struct holds one of a higher part.
pub fn never_rises(parts: &List<usize>, holds: &List<List<usize>>) -> bool
    ensures { result ≡ spec.never_rises parts.now holds.now }
{
    let mut falls = true;
    for by in 0..holds.len() {
        falls = falls_at(parts, by, falls, holds);
    }
    falls
}

fn falls_at(parts: &List<usize>, by: usize, falls: bool, holds: &List<List<usize>>) -> bool
    ensures { result ≡ spec.falls_from parts.now by falls (held holds.now by) }
{
    if by < holds.items.len() {
        falls_from(parts, by, falls, holds.items[by].as_slice())
    } else {
        falls
    }
}

fn falls_from(parts: &List<usize>, by: usize, before: bool, numbers: &[usize]) -> bool
    ensures { result ≡ spec.falls_from parts.now by before numbers.now }
{
    let mut falls = before;
    for number in numbers {
        let is_lower = part(parts, *number) <= part(parts, by);
        falls = falls && is_lower;
    }
    falls
}

/// Of each struct those of its own part that it holds.
pub fn inside(
    alloc: Global,
    parts: &List<usize>,
    holds: &List<List<usize>>,
) -> Result<List<List<usize>>, NoMemory>
    ensures { IfOk result (λ found. found ≡ spec.inside parts.now holds.now) }
{
    let mut all = Vec::new(alloc);
    for by in 0..holds.len() {
        let numbers = inside_at(alloc, parts, by, holds)?;
        all.push(numbers)?;
    }
    Ok(List { items: all })
}

fn inside_at(
    alloc: Global,
    parts: &List<usize>,
    by: usize,
    holds: &List<List<usize>>,
) -> Result<List<usize>, NoMemory>
    ensures { IfOk result (λ found. found ≡ spec.inside_from parts.now by [] (held holds.now by)) }
{
    if by < holds.items.len() {
        let found = inside_of(alloc, parts, by, holds.items[by].as_slice())?;
        Ok(found)
    } else {
        Ok(List::new(alloc))
    }
}

fn inside_of(
    alloc: Global,
    parts: &List<usize>,
    by: usize,
    numbers: &[usize],
) -> Result<List<usize>, NoMemory>
    ensures { IfOk result (λ found. found ≡ spec.inside_from parts.now by [] numbers.now) }
{
    let mut found = Vec::new(alloc);
    for number in numbers {
        if part(parts, *number) == part(parts, by) {
            found.push(*number)?;
        }
    }
    Ok(List { items: found })
}
