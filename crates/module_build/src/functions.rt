//! The functions that a module defines, with what is wrong first.

ghost use Rattle.std.specs.Prelude.{◌≡◌, IfOk, OnOk};
ghost use Rattle.ir_items.specs.declared.segment.Cut.TheVariants as cuts;
ghost use Rattle.ir_items.specs.Item.{form_of};
ghost use Rattle.ir_items.specs.Segment.{segments_of};
ghost use Rattle.module_build.specs.Functions as spec;

use crate::function::{BuiltFunction, function_of};
use instruction_check::ModuleNames;
use ir_items::{Item, ItemForm, Items};
use ir_read::Node;
use ir_types::{Function, List};
use module_fault::First;
use rc_base::NoMemory;
use std::alloc::Global;
use struct_table::StructTable;

/// The defined functions of a module by their numbers, beside the first fault of theirs.
#[derive(Drop)]
pub struct BuiltFunctions {
    pub functions: List<Function>,
    pub first: First,
}

/// The functions of a module's nodes.
pub fn build_functions<'m, 's: 'm>(
    alloc: Global,
    names: &ModuleNames<'s>,
    structs: &StructTable<'m, 's>,
    nodes: &'m [Node<'s>],
) -> Result<BuiltFunctions, NoMemory>
    ensures { IfOk result (λ found. found ≡ spec.functions_of names.now structs.now (segments_of cuts.Items nodes.now)) }
{
    let mut built = BuiltFunctions::new(alloc);
    built.add_all(alloc, names, structs, &mut Items::new(nodes))?;
    Ok(built)
}

impl BuiltFunctions {
    fn new(alloc: Global) -> BuiltFunctions
        ensures { result ≡ spec.none_built }
    {
        BuiltFunctions {
            functions: List::new(alloc),
            first: First::new(),
        }
    }

    fn add_all<'m, 's: 'm>(
        &mut self,
        alloc: Global,
        names: &ModuleNames<'s>,
        structs: &StructTable<'m, 's>,
        items: &mut Items<'m, 's>,
    ) -> Result<(), NoMemory>
        ensures { OnOk result (self.new ≡ spec.functions_from names.now structs.now self.old items.old) }
    {
        while let Some(item) = items.next() {
            self.add(alloc, names, structs, &item)?;
        }
        Ok(())
    }

    fn add<'m, 's: 'm>(
        &mut self,
        alloc: Global,
        names: &ModuleNames<'s>,
        structs: &StructTable<'m, 's>,
        item: &Item<'m, 's>,
    ) -> Result<(), NoMemory>
        ensures { OnOk result (self.new ≡ spec.with_form (form_of item.now) names.now structs.now self.old item.now) }
    {
        match item.form() {
            ItemForm::Define => {
                let one = function_of(alloc, names, structs, item)?;
                self.add_function(one)
            }
            ItemForm::Struct | ItemForm::Global | ItemForm::Declare => Ok(()),
        }
    }

    fn add_function(&mut self, one: BuiltFunction) -> Result<(), NoMemory>
        ensures { OnOk result (self.new ≡ spec.with_function self.old one) }
    {
        self.first.join(one.first.fault());
        self.functions.items.push(one.function)?;
        Ok(())
    }
}
