//! Where the globals of a module lie, one behind another in the order of the text.

ghost use Rattle.std.specs.Prelude.{◌≡◌, IfOk, OnOk};
ghost use Rattle.ir_items.specs.declared.segment.Cut.TheVariants as cuts;
ghost use Rattle.ir_items.specs.Segment.{segments_of};
ghost use Rattle.ir_items.specs.Item.{form_of};
ghost use Rattle.global_check.specs.Placed as spec;

use ir_items::{Item, ItemForm, Items};
use ir_layout::{Overflow, extent_of};
use ir_read::{Node, RawType};
use ir_types::List;
use module_fault::{Cause, First, unless};
use rc_base::NoMemory;
use std::alloc::Global;
use struct_table::StructTable;

/// All globals of a module take at most 1 MiB.
pub const MOST_BYTES: u64 = 1_048_576;

/// The first address of a global.
const FIRST_ADDRESS: u64 = 4_294_967_296;

/// The addresses and sizes of a module's globals, by their numbers.
#[derive(Drop)]
pub struct PlacedGlobals {
    /// Of the first byte, a multiple of 16.
    pub addresses: List<u64>,
    /// In bytes.
    pub sizes: List<u64>,
    /// Where the next one would lie.
    pub next: u64,
    /// How many bytes all of them take.
    pub total: u64,
    /// That they take more than globals may.
    pub first: First,
}

/// The globals of a module's nodes. A size past 64 bits is 2^64 - 1.
pub fn place_globals<'m, 's: 'm>(
    alloc: Global,
    structs: &StructTable<'m, 's>,
    nodes: &[Node<'s>],
) -> Result<PlacedGlobals, NoMemory>
    ensures { IfOk result (λ found. found ≡ spec.placed structs.now (segments_of cuts.Items nodes.now)) }
{
    let mut placed = PlacedGlobals::new(alloc);
    placed.add_all(alloc, structs, &mut Items::new(nodes))?;
    Ok(placed)
}

impl PlacedGlobals {
    fn new(alloc: Global) -> PlacedGlobals
        ensures { result ≡ spec.none_placed }
    {
        PlacedGlobals {
            addresses: List::new(alloc),
            sizes: List::new(alloc),
            next: FIRST_ADDRESS,
            total: 0,
            first: First::new(),
        }
    }

    fn add_all<'m, 's: 'm>(
        &mut self,
        alloc: Global,
        structs: &StructTable<'m, 's>,
        items: &mut Items<'_, 's>,
    ) -> Result<(), NoMemory>
        ensures { OnOk result (self.new ≡ spec.placed_from structs.now self.old items.old) }
    {
        while let Some(item) = items.next() {
            self.add(alloc, structs, &item)?;
        }
        Ok(())
    }

    fn add<'m, 's: 'm>(
        &mut self,
        alloc: Global,
        structs: &StructTable<'m, 's>,
        item: &Item<'_, 's>,
    ) -> Result<(), NoMemory>
        ensures { OnOk result (self.new ≡ spec.with_form (form_of item.now) structs.now self.old item.now) }
    {
        match item.form() {
            ItemForm::Global => {
                let first = item.first;
                let size = size_of(alloc, structs, item)?;
                self.add_size(first.line, size)
            }
            ItemForm::Struct | ItemForm::Declare | ItemForm::Define => Ok(()),
        }
    }

    fn add_size(&mut self, line: u32, size: u64) -> Result<(), NoMemory>
        ensures { OnOk result (self.new ≡ spec.with_size self.old line size) }
    {
        self.addresses.items.push(self.next)?;
        self.sizes.items.push(size)?;
        self.next = behind(self.next, size);
        self.total = self.total.saturating_add(size);
        let fits = self.total <= MOST_BYTES;
        self.first.note(line, unless(fits, Cause::BadShape));
        Ok(())
    }
}

/// The next multiple of 16 that leaves 16 bytes behind an object.
fn behind(base: u64, size: u64) -> u64
    ensures { result ≡ spec.behind base size }
{
    base.saturating_add(size).saturating_add(31) / 16 * 16
}

fn size_of<'m, 's: 'm>(
    alloc: Global,
    structs: &StructTable<'m, 's>,
    item: &Item<'_, 's>,
) -> Result<u64, NoMemory>
    ensures { IfOk result (λ size. size ≡ spec.size_of structs.now item.now) }
{
    let extent = extent_of(alloc, Overflow::Saturating, structs, type_of(item))?;
    Ok(extent.size)
}

/// The nodes of a global's type.
pub fn type_of<'m, 's>(item: &Item<'m, 's>) -> &'m [Node<'s>]
    ensures { result.now ≡ spec.type_of item.now }
{
    let (front, _) = RawType::split(item.value());
    front.nodes()
}

/// The nodes of what a global begins with.
pub fn initial_of<'m, 's>(item: &Item<'m, 's>) -> &'m [Node<'s>]
    ensures { result.now ≡ spec.initial_of item.now }
{
    let (_, behind) = RawType::split(item.value());
    behind
}
