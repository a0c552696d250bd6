//! The names of a module's items, and what they stand for.

ghost use Rattle.std.specs.Prelude.{◌≡◌, IfOk, OnOk};
ghost use Rattle.ir_items.specs.declared.segment.Cut.TheVariants as cuts;
ghost use Rattle.ir_items.specs.Segment.{segments_of};
ghost use Rattle.module_check.specs.ItemNames as spec;

use crate::main_function::main_cause;
use crate::signature::signature_of;
use external_calls::ExternalCall;
use instruction_check::{GlobalRole, ModuleNames};
use ir_items::{Item, ItemForm, Items};
use ir_names::NameTable;
use ir_read::Node;
use ir_types::List;
use module_fault::{Cause, First};
use rc_base::NoMemory;
use std::alloc::Global;

/// The `@` names of a module, which globals and functions share, beside the first fault of theirs.
///
/// Each global and each defined function has the next number, in the order of the text, also where its name is a second
/// one. A second one is a fault, and of a name the first definition or declaration counts in all that follows.
#[derive(Drop)]
pub struct NamedItems<'s> {
    /// Without the addresses and strings of the globals.
    pub names: ModuleNames<'s>,
    /// How many globals there are.
    pub globals: usize,
    pub first: First,
}

/// The names of the items of a module's nodes.
pub fn name_items<'s>(alloc: Global, nodes: &[Node<'s>]) -> Result<NamedItems<'s>, NoMemory>
    ensures { IfOk result (λ found. found ≡ spec.names_of (segments_of cuts.Items nodes.now)) }
{
    let mut named = NamedItems::new(alloc);
    named.add_all(alloc, &mut Items::new(nodes))?;
    Ok(named)
}

impl<'s> NamedItems<'s> {
    fn new(alloc: Global) -> NamedItems<'s>
        ensures { result ≡ spec.no_names }
    {
        NamedItems {
            names: ModuleNames {
                table: NameTable::new(alloc),
                roles: List::new(alloc),
                addresses: List::new(alloc),
                strings: List::new(alloc),
                signatures: List::new(alloc),
            },
            globals: 0,
            first: First::new(),
        }
    }

    fn add_all(&mut self, alloc: Global, items: &mut Items<'_, 's>) -> Result<(), NoMemory>
        ensures { OnOk result (self.new ≡ spec.names_from self.old items.old) }
    {
        while let Some(item) = items.next() {
            self.add(alloc, &item)?;
        }
        Ok(())
    }

    fn add(&mut self, alloc: Global, item: &Item<'_, 's>) -> Result<(), NoMemory>
        ensures { OnOk result (self.new ≡ spec.with_item self.old item.now) }
    {
        match item.form() {
            ItemForm::Struct => Ok(()),
            ItemForm::Global => self.add_global(item),
            ItemForm::Declare => self.add_declared(item),
            ItemForm::Define => self.add_defined(alloc, item),
        }
    }

    fn add_global(&mut self, item: &Item<'_, 's>) -> Result<(), NoMemory>
        ensures { OnOk result (self.new ≡ spec.with_global self.old item.now) }
    {
        let number = numbered(self.globals);
        self.add_name(item, GlobalRole::Global(number), None)?;
        self.globals = self.globals.saturating_add(1);
        Ok(())
    }

    fn add_declared(&mut self, item: &Item<'_, 's>) -> Result<(), NoMemory>
        ensures { OnOk result (self.new ≡ spec.with_declared self.old item.now) }
    {
        let name = item.name();
        let call = ExternalCall::by_name(name.name());
        self.add_name(item, GlobalRole::Declared(call), None)
    }

    fn add_defined(&mut self, alloc: Global, item: &Item<'_, 's>) -> Result<(), NoMemory>
        ensures { OnOk result (self.new ≡ spec.with_defined self.old item.now) }
    {
        let name = item.name();
        let signature = signature_of(alloc, item)?;
        let number = numbered(self.names.signatures.len());
        let cause = main_cause(name.name(), &signature);
        self.add_name(item, GlobalRole::Function(number), cause)?;
        self.names.signatures.items.push(signature)?;
        Ok(())
    }

    /// Gives the item's name, and notes what is wrong with the first one of the name.
    fn add_name(
        &mut self,
        item: &Item<'_, 's>,
        role: GlobalRole,
        cause: Option<Cause>,
    ) -> Result<(), NoMemory>
        ensures { OnOk result (self.new ≡ spec.with_name self.old item.now role cause) }
    {
        let first = item.first;
        let name = item.name();
        match self.names.table.give(name.name())? {
            Some(_) => {
                self.first.note(first.line, Some(Cause::Duplicate));
                Ok(())
            }
            None => {
                self.first.note(first.line, cause);
                self.names.roles.items.push(role)?;
                Ok(())
            }
        }
    }
}

/// The number of what comes behind so many. It stands still at the end of its type, which no module's text reaches.
pub fn numbered(count: usize) -> u32
    ensures { result ≡ spec.numbered count }
{
    let number = count.min(4_294_967_295);
    number as u32
}
