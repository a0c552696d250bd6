//! The first fault of a module's names and shapes.

ghost use Rattle.std.specs.Prelude.{◌≡◌, IfOk, OnOk};
ghost use Rattle.ir_items.specs.declared.segment.Cut.TheVariants as cuts;
ghost use Rattle.ir_items.specs.Segment.{segments_of};
ghost use Rattle.module_check.specs.Names as spec;

use crate::body_names::name_body;
use crate::item_names::name_items;
use crate::main_function::main_of;
use crate::phis::phi_fault;
use crate::shape::shape_fault;
use instruction_check::ModuleNames;
use ir_items::{Item, ItemForm, Items};
use ir_read::Node;
use module_fault::{Cause, Fault, First};
use rc_base::NoMemory;
use std::alloc::Global;

/// What is wrong first with the names and the shapes of a module. That no `main` is defined is answered last of all.
pub fn check_names(alloc: Global, nodes: &[Node<'_>]) -> Result<Option<Fault>, NoMemory>
    ensures { IfOk result (λ found. found ≡ spec.names_fault (segments_of cuts.Items nodes.now)) }
{
    let named = name_items(alloc, nodes)?;
    let names = named.names;
    let mut first = named.first;
    add_bodies(alloc, &names, &mut first, &mut Items::new(nodes))?;
    Ok(or_no_main(first.fault(), main_of(&names)))
}

fn add_bodies<'s>(
    alloc: Global,
    names: &ModuleNames<'s>,
    first: &mut First,
    items: &mut Items<'_, 's>,
) -> Result<(), NoMemory>
    ensures { OnOk result (first.new ≡ spec.bodies_from names.now first.old items.old) }
{
    while let Some(item) = items.next() {
        first.join(item_fault(alloc, names, &item)?);
    }
    Ok(())
}

fn item_fault<'s>(
    alloc: Global,
    names: &ModuleNames<'s>,
    item: &Item<'_, 's>,
) -> Result<Option<Fault>, NoMemory>
    ensures { IfOk result (λ found. found ≡ spec.item_fault names.now item.now) }
{
    match item.form() {
        ItemForm::Define => body_fault(alloc, names, item),
        ItemForm::Struct | ItemForm::Global | ItemForm::Declare => Ok(None),
    }
}

/// What is wrong first with the names and the blocks of a defined function.
fn body_fault<'s>(
    alloc: Global,
    names: &ModuleNames<'s>,
    item: &Item<'_, 's>,
) -> Result<Option<Fault>, NoMemory>
    ensures { IfOk result (λ found. found ≡ spec.body_fault names.now item.now) }
{
    let mut named = name_body(alloc, names, item)?;
    let phi = phi_fault(alloc, &named.names, named.blocks, item)?;
    named.first.join(shape_fault(item));
    named.first.join(phi);
    Ok(named.first.fault())
}

/// The fault, or else that no `main` is defined.
pub fn or_no_main(fault: Option<Fault>, main: Option<u32>) -> Option<Fault>
    ensures { result ≡ spec.or_no_main fault main }
{
    match (fault, main) {
        (None, None) => Some(Fault {
            line: 0,
            cause: Cause::BadShape,
        }),
        _ => fault,
    }
}
