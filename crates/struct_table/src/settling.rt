//! What all structs of a module take in memory.

ghost use Rattle.std.specs.Prelude.{◌≡◌, ◌<◌, [], get_or, length, set, IfOk, IsTrue, OnOk, Some};
ghost use Rattle.ir_layout.specs.Extent.{kept};
ghost use Rattle.struct_table.specs.Rounds as rounds;
ghost use Rattle.struct_table.specs.Settling as spec;

use crate::named::StructType;
use crate::rounds::{extent_at, next_extent};
use ir_layout::{Extent, Overflow, empty};
use ir_names::NameTable;
use ir_types::List;
use rc_base::NoMemory;
use std::alloc::Global;

/// What each of the structs takes, where it takes anything. One after another is settled, in an order in which those that
/// are held had better come first, and then in the order of the text, until nothing more can be.
pub fn settled(
    alloc: Global,
    overflow: Overflow,
    names: &NameTable<'_>,
    types: &[StructType<'_, '_>],
    order: &[usize],
) -> Result<List<Option<Extent>>, NoMemory>
    ensures { IfOk result (λ found. found ≡ rounds.settled (kept overflow) names.now types.now) }
{
    let mut known = none_settled(alloc, types)?;
    for number in order {
        settle(alloc, overflow, names, types, *number, &mut known)?;
    }
    let mut more = true;
    while more {
        let before = open_count(&known);
        settle_all(alloc, overflow, names, types, &mut known)?;
        more = open_count(&known) < before;
    }
    Ok(known)
}

/// Nothing is known of any struct.
fn none_settled(
    alloc: Global,
    types: &[StructType<'_, '_>],
) -> Result<List<Option<Extent>>, NoMemory>
    ensures { IfOk result (λ found. found ≡ rounds.none_settled types.now) }
{
    let mut extents = Vec::new(alloc);
    extents.resize(types.len(), None)?;
    Ok(List { items: extents })
}

/// Settles all structs that can be, in the order of the text.
fn settle_all(
    alloc: Global,
    overflow: Overflow,
    names: &NameTable<'_>,
    types: &[StructType<'_, '_>],
    known: &mut List<Option<Extent>>,
) -> Result<(), NoMemory>
    ensures { OnOk result (known.new ≡ spec.settle_below (kept overflow) names.now types.now known.old (length types.now)) }
{
    for number in 0..types.len() {
        settle(alloc, overflow, names, types, number, known)?;
    }
    Ok(())
}

/// Settles a struct, where it is open and can be.
fn settle(
    alloc: Global,
    overflow: Overflow,
    names: &NameTable<'_>,
    types: &[StructType<'_, '_>],
    number: usize,
    known: &mut List<Option<Extent>>,
) -> Result<(), NoMemory>
    ensures { OnOk result (known.new ≡ spec.settle (kept overflow) names.now types.now known.old number) }
{
    if is_open(known, number) {
        let found = next_of(alloc, overflow, names, types, number, known)?;
        put(known, number, found);
    }
    Ok(())
}

fn is_open(known: &List<Option<Extent>>, number: usize) -> bool
    ensures value { result ≡ spec.is_open known.now number }
    ensures within { IsTrue result → number < length known.now }
{
    number < known.items.len() && extent_at(known, number).is_none()
}

fn put(known: &mut List<Option<Extent>>, number: usize, found: Option<Extent>)
    requires { number < length known.old }
    ensures { known.new ≡ spec.with_extent known.old number found }
{
    if let Some(extent) = found {
        known.items[number] = Some(extent);
    }
}

/// What the struct takes, where it is known of each that its type names.
fn next_of(
    alloc: Global,
    overflow: Overflow,
    names: &NameTable<'_>,
    types: &[StructType<'_, '_>],
    number: usize,
    known: &List<Option<Extent>>,
) -> Result<Option<Extent>, NoMemory>
    ensures { IfOk result (λ found. found ≡ rounds.next_extent (kept overflow) names.now known.now (get_or types.now number [])) }
{
    if number < types.len() {
        let spelled = &types[number];
        let found = next_extent(alloc, overflow, names, known, spelled.nodes)?;
        Ok(found)
    } else {
        Ok(Some(empty()))
    }
}

/// Of how many structs nothing is known.
fn open_count(known: &List<Option<Extent>>) -> usize
    ensures { result ≡ spec.open_count known.now }
{
    let mut count: usize = 0;
    for extent in known.as_slice() {
        if extent.is_none() {
            count += 1;
        }
    }
    count
}
