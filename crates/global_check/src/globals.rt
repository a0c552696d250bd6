//! The globals of a module, with what is wrong first.

ghost use Rattle.std.specs.Prelude.{◌≡◌, slice_get, unwrap_or, IfOk, OnOk};
ghost use Rattle.ir_items.specs.declared.segment.Cut.TheVariants as cuts;
ghost use Rattle.ir_items.specs.Item.{form_of};
ghost use Rattle.ir_items.specs.Segment.{segments_of};
ghost use Rattle.global_check.specs.Globals as spec;

use crate::filling::{Filling, filling_of};
use crate::placed::{MOST_BYTES, PlacedGlobals, initial_of, type_of};
use instruction_check::Scope;
use ir_items::{Item, ItemForm, Items};
use ir_read::Node;
use ir_types::{Bytes, GlobalVar, List};
use module_fault::{First, lesser};
use rc_base::NoMemory;
use std::alloc::Global;

/// The globals of a module by their numbers, beside the first fault of theirs.
#[derive(Drop)]
pub struct CheckedGlobals {
    pub globals: List<GlobalVar>,
    pub first: First,
}

/// The globals of a module's nodes, which lie where they were placed. An initializer must fit its type, and the types in it
/// must be those of the parts that they stand for.
pub fn check_globals<'m, 's>(
    alloc: Global,
    scope: &Scope<'_, 'm, 's>,
    placed: &PlacedGlobals,
    nodes: &'m [Node<'s>],
) -> Result<CheckedGlobals, NoMemory>
    ensures { IfOk result (λ found. found ≡ spec.globals_of scope.now placed.now (segments_of cuts.Items nodes.now)) }
{
    let mut checked = CheckedGlobals::new(alloc, placed);
    checked.add_all(alloc, scope, placed, &mut Items::new(nodes))?;
    Ok(checked)
}

impl CheckedGlobals {
    fn new(alloc: Global, placed: &PlacedGlobals) -> CheckedGlobals
        ensures { result ≡ spec.none_checked placed.now }
    {
        let mut first = First::new();
        first.join(placed.first.fault());
        CheckedGlobals {
            globals: List::new(alloc),
            first,
        }
    }

    fn add_all<'m, 's>(
        &mut self,
        alloc: Global,
        scope: &Scope<'_, 'm, 's>,
        placed: &PlacedGlobals,
        items: &mut Items<'m, 's>,
    ) -> Result<(), NoMemory>
        ensures { OnOk result (self.new ≡ spec.globals_from scope.now placed.now self.old items.old) }
    {
        while let Some(item) = items.next() {
            self.add(alloc, scope, placed, &item)?;
        }
        Ok(())
    }

    fn add<'m, 's>(
        &mut self,
        alloc: Global,
        scope: &Scope<'_, 'm, 's>,
        placed: &PlacedGlobals,
        item: &Item<'m, 's>,
    ) -> Result<(), NoMemory>
        ensures { OnOk result (self.new ≡ spec.with_form (form_of item.now) scope.now placed.now self.old item.now) }
    {
        match item.form() {
            ItemForm::Global => {
                let filling = filling_at(alloc, scope, placed, self.globals.len(), item)?;
                self.add_global(alloc, scope, placed, item, filling)
            }
            ItemForm::Struct | ItemForm::Declare | ItemForm::Define => Ok(()),
        }
    }

    fn add_global<'m, 's>(
        &mut self,
        alloc: Global,
        scope: &Scope<'_, 'm, 's>,
        placed: &PlacedGlobals,
        item: &Item<'m, 's>,
        filling: Filling<'m, 's>,
    ) -> Result<(), NoMemory>
        ensures { OnOk result (self.new ≡ spec.with_filling scope.now placed.now self.old item.now filling.entry) }
    {
        let structs = scope.structs;
        let unknown = structs.unknown_in(item.rest);
        let first = item.first;
        self.first.note(first.line, lesser(unknown, filling.cause));
        let number = self.globals.len();
        let global = global_at(alloc, placed, number, item, filling.image)?;
        self.globals.items.push(global)?;
        Ok(())
    }
}

/// Of globals that take too much no image is made.
fn image_size(total: u64, size: u64) -> u64
    ensures { result ≡ spec.image_size total size }
{
    if total <= MOST_BYTES { size } else { 0 }
}

fn filling_at<'m, 's>(
    alloc: Global,
    scope: &Scope<'_, 'm, 's>,
    placed: &PlacedGlobals,
    number: usize,
    item: &Item<'m, 's>,
) -> Result<Filling<'m, 's>, NoMemory>
    ensures { IfOk result (λ found. found ≡ spec.filling_at scope.now placed.now number item.now) }
{
    let size = number_at(&placed.sizes, number);
    let found = filling_of(
        alloc,
        scope,
        image_size(placed.total, size),
        type_of(item),
        initial_of(item),
    )?;
    Ok(found)
}

fn number_at(numbers: &List<u64>, place: usize) -> u64
    ensures { result ≡ unwrap_or (slice_get numbers.now place) 0 }
{
    numbers.items.get(place).copied().unwrap_or(0)
}

fn global_at(
    alloc: Global,
    placed: &PlacedGlobals,
    number: usize,
    item: &Item<'_, '_>,
    image: Bytes,
) -> Result<GlobalVar, NoMemory>
    ensures { IfOk result (λ global. global ≡ spec.global_at placed.now number item.now image) }
{
    let name = item.name().name().to_vec(alloc)?;
    Ok(GlobalVar {
        name: List { items: name },
        size: number_at(&placed.sizes, number),
        constant: item.is_constant(),
        base: number_at(&placed.addresses, number),
        image,
    })
}
