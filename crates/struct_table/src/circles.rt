//! Which structs hold themselves.

ghost use Rattle.std.specs.Prelude.{◌≡◌, ◌↔◌, [], IfOk, IsTrue, OnOk};
ghost use Rattle.struct_table.specs.Graph as spec;
ghost use Rattle.struct_table.specs.Search.{with_marks};

use crate::parts::{inside, never_rises};
use crate::search::Search;
use ir_types::List;
use rc_base::NoMemory;
use std::alloc::Global;

/// The first struct that holds itself, by the numbers of those that each struct's type names. Where no struct holds one of
/// a higher part, it is searched for within parts.
#[tactic(auto, using(crate::proofs::Parting::first_inside))]
pub fn first_circle(
    alloc: Global,
    parts: &List<usize>,
    holds: &List<List<usize>>,
) -> Result<Option<usize>, NoMemory>
    ensures { IfOk result (λ found. found ≡ spec.first_circle holds.now) }
{
    if never_rises(parts, holds) {
        let within = inside(alloc, parts, holds)?;
        let found = first_in(alloc, &within)?;
        Ok(found)
    } else {
        let found = first_in(alloc, holds)?;
        Ok(found)
    }
}

fn first_in(alloc: Global, holds: &List<List<usize>>) -> Result<Option<usize>, NoMemory>
    ensures { IfOk result (λ found. found ≡ spec.first_circle holds.now) }
{
    let mut circle = None;
    for number in 0..holds.len() {
        circle = or_circle(alloc, circle, holds, number)?;
    }
    Ok(circle)
}

/// The circle that was found, or else that the struct is on one.
fn or_circle(
    alloc: Global,
    circle: Option<usize>,
    holds: &List<List<usize>>,
    number: usize,
) -> Result<Option<usize>, NoMemory>
    ensures { IfOk result (λ found. found ≡ spec.or_circle circle holds.now number) }
{
    if circle.is_some() {
        return Ok(circle);
    }
    if holds_itself(alloc, holds, number)? {
        Ok(Some(number))
    } else {
        Ok(None)
    }
}

fn holds_itself(alloc: Global, holds: &List<List<usize>>, number: usize) -> Result<bool, NoMemory>
    ensures { IfOk result (λ found. found ≡ spec.holds_itself holds.now number) }
{
    if is_bare(holds, number) {
        return Ok(false);
    }
    let mut search = Search::new(alloc, holds.len())?;
    mark_held(&mut search, holds, number)?;
    while let Some(next) = search.next() {
        mark_held(&mut search, holds, next)?;
    }
    Ok(search.is_marked(number))
}

/// Whether the struct holds none.
fn is_bare(holds: &List<List<usize>>, number: usize) -> bool
    ensures { IsTrue result ↔ (spec.held holds.now number ≡ []) }
{
    number >= holds.items.len() || holds.items[number].is_empty()
}

/// Marks what the struct holds directly.
fn mark_held(search: &mut Search, holds: &List<List<usize>>, number: usize) -> Result<(), NoMemory>
    ensures { OnOk result (search.new ≡ with_marks search.old (spec.held holds.now number)) }
{
    if number < holds.items.len() {
        search.mark_all(holds.items[number].as_slice())?;
    }
    Ok(())
}
