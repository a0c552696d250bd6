//! What is wrong with a module's structs.

ghost use Rattle.std.specs.Prelude.{◌≡◌, IfOk, OnOk};
ghost use Rattle.ir_items.specs.declared.segment.Cut.TheVariants as cuts;
ghost use Rattle.ir_items.specs.Item.{form_of};
ghost use Rattle.ir_items.specs.Segment.{segments_of};
ghost use Rattle.struct_table.specs.Faults as spec;

use crate::named::name_structs;
use crate::table::StructTable;
use ir_items::{Item, ItemForm, Items};
use ir_read::Node;
use module_fault::{Cause, Fault, First, lesser};
use rc_base::NoMemory;
use std::alloc::Global;

/// What is wrong first with the structs of a module, by the table of its structs: a second name, an unknown name, or a
/// struct that holds itself. Of several that do the first in the text is at fault.
pub fn struct_fault(
    alloc: Global,
    nodes: &[Node<'_>],
    table: &StructTable<'_, '_>,
) -> Result<Option<Fault>, NoMemory>
    ensures { IfOk result (λ found. found ≡ spec.struct_fault table.now (segments_of cuts.Items nodes.now)) }
{
    let named = name_structs(alloc, nodes)?;
    let circle = table.circle(alloc)?;
    let mut first = named.first;
    add_faults(table, circle, &mut first, &mut Items::new(nodes));
    Ok(first.fault())
}

fn add_faults(
    table: &StructTable<'_, '_>,
    circle: Option<usize>,
    first: &mut First,
    items: &mut Items<'_, '_>,
)
    ensures { first.new ≡ spec.faults_from table.now circle first.old items.old }
{
    while let Some(item) = items.next() {
        let begin = item.first;
        first.note(begin.line, item_cause(table, circle, &item));
    }
}

fn item_cause(
    table: &StructTable<'_, '_>,
    circle: Option<usize>,
    item: &Item<'_, '_>,
) -> Option<Cause>
    ensures { result ≡ spec.cause_by (form_of item.now) table.now circle item.now }
{
    match item.form() {
        ItemForm::Struct => struct_cause(table, circle, item),
        ItemForm::Global | ItemForm::Declare | ItemForm::Define => None,
    }
}

fn struct_cause(
    table: &StructTable<'_, '_>,
    circle: Option<usize>,
    item: &Item<'_, '_>,
) -> Option<Cause>
    ensures { result ≡ spec.struct_cause table.now circle item.now }
{
    let name = item.name();
    let number = table.number(name.name());
    let unknown = table.unknown_in(item.value());
    lesser(unknown, circle_cause(circle, number))
}

fn circle_cause(circle: Option<usize>, number: Option<usize>) -> Option<Cause>
    ensures { result ≡ spec.circle_cause circle number }
{
    if is_same(circle, number) {
        Some(Cause::BadShape)
    } else {
        None
    }
}

fn is_same(one: Option<usize>, other: Option<usize>) -> bool
    ensures { result ≡ spec.is_same one other }
{
    match (one, other) {
        (Some(one), Some(other)) => one == other,
        _ => false,
    }
}
