//! The structs that a module names, with the nodes of their types.

ghost use Rattle.std.specs.Prelude.{◌≡◌, IfOk, OnOk};
ghost use Rattle.ir_items.specs.declared.segment.Cut.TheVariants as cuts;
ghost use Rattle.ir_items.specs.Item.{form_of};
ghost use Rattle.ir_items.specs.Segment.{segments_of};
ghost use Rattle.struct_table.specs.Named as spec;

use ir_items::{Item, ItemForm, Items};
use ir_names::NameTable;
use ir_read::Node;
use ir_types::List;
use module_fault::{Cause, First};
use rc_base::NoMemory;
use std::alloc::Global;
use std::marker::Model;

/// The type of a struct, as the nodes that spell it.
#[derive(Drop)]
pub struct StructType<'m, 's> {
    pub nodes: &'m [Node<'s>],
}

impl<'m, 's> Model for StructType<'m, 's> {
    ghost use Rattle.std.specs.Prelude.{List as Sequence};
    ghost use Rattle.ir_read.specs.Node.{Told};

    ghost Value = { Sequence Told };

    ghost view = { λ spelled. spelled.nodes.now };
}

/// The structs of a module, which have names of their own, beside the first fault of the names.
#[derive(Drop)]
pub struct NamedStructs<'m, 's> {
    pub names: NameTable<'s>,
    /// By the number of the struct.
    pub types: List<StructType<'m, 's>>,
    pub first: First,
}

/// The structs of a module's nodes.
pub fn name_structs<'m, 's>(
    alloc: Global,
    nodes: &'m [Node<'s>],
) -> Result<NamedStructs<'m, 's>, NoMemory>
    ensures { IfOk result (λ found. found ≡ spec.named_in (segments_of cuts.Items nodes.now)) }
{
    let mut named = NamedStructs::new(alloc);
    named.add_all(&mut Items::new(nodes))?;
    Ok(named)
}

impl<'m, 's> NamedStructs<'m, 's> {
    fn new(alloc: Global) -> NamedStructs<'m, 's>
        ensures { result ≡ spec.none_named }
    {
        NamedStructs {
            names: NameTable::new(alloc),
            types: List::new(alloc),
            first: First::new(),
        }
    }

    fn add_all(&mut self, items: &mut Items<'m, 's>) -> Result<(), NoMemory>
        ensures { OnOk result (self.new ≡ spec.named_from self.old items.old) }
    {
        while let Some(item) = items.next() {
            self.add(&item)?;
        }
        Ok(())
    }

    fn add(&mut self, item: &Item<'m, 's>) -> Result<(), NoMemory>
        ensures { OnOk result (self.new ≡ spec.with_form (form_of item.now) self.old item.now) }
    {
        match item.form() {
            ItemForm::Struct => self.add_struct(item),
            ItemForm::Global | ItemForm::Declare | ItemForm::Define => Ok(()),
        }
    }

    fn add_struct(&mut self, item: &Item<'m, 's>) -> Result<(), NoMemory>
        ensures { OnOk result (self.new ≡ spec.with_struct self.old item.now) }
    {
        let first = item.first;
        let name = item.name();
        match self.names.give(name.name())? {
            Some(_) => {
                self.first.note(first.line, Some(Cause::Duplicate));
                Ok(())
            }
            None => {
                self.types.items.push(StructType {
                    nodes: item.value(),
                })?;
                Ok(())
            }
        }
    }
}
