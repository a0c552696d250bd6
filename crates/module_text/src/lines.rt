//! The lines of a module's instructions.

ghost use Rattle.std.specs.Prelude.{◌≡◌, [], IfOk, OnOk};
ghost use Rattle.ir_items.specs.Item.{form_of};
ghost use Rattle.ir_items.specs.declared.segment.Cut.TheVariants as cuts;
ghost use Rattle.ir_items.specs.Segment.{segments_of};
ghost use Rattle.module_build.specs.Lines as spec;

use ir_items::{Item, ItemForm, Items, Statement, Statements};
use ir_read::Node;
use ir_types::List;
use rc_base::NoMemory;
use std::alloc::Global;

/// The line of each instruction, in the order of the text.
pub fn lines_of(alloc: Global, nodes: &[Node<'_>]) -> Result<List<u32>, NoMemory>
    ensures { IfOk result (λ lines. lines ≡ spec.lines_of (segments_of cuts.Items nodes.now)) }
{
    let mut lines = List::new(alloc);
    add_items(&mut lines, &mut Items::new(nodes))?;
    Ok(lines)
}

fn add_items(lines: &mut List<u32>, items: &mut Items<'_, '_>) -> Result<(), NoMemory>
    ensures { OnOk result (lines.new ≡ spec.items_from lines.old items.old) }
{
    while let Some(item) = items.next() {
        add_item(lines, &item)?;
    }
    Ok(())
}

fn add_item(lines: &mut List<u32>, item: &Item<'_, '_>) -> Result<(), NoMemory>
    ensures { OnOk result (lines.new ≡ spec.with_form (form_of item.now) lines.old item.now) }
{
    match item.form() {
        ItemForm::Define => add_statements(lines, &mut Statements::new(item.body())),
        ItemForm::Struct | ItemForm::Global | ItemForm::Declare => Ok(()),
    }
}

fn add_statements(
    lines: &mut List<u32>,
    statements: &mut Statements<'_, '_>,
) -> Result<(), NoMemory>
    ensures { OnOk result (lines.new ≡ spec.statements_from lines.old statements.old) }
{
    while let Some(statement) = statements.next() {
        add_statement(lines, &statement)?;
    }
    Ok(())
}

/// A label is no instruction.
fn add_statement(lines: &mut List<u32>, statement: &Statement<'_, '_>) -> Result<(), NoMemory>
    ensures { OnOk result (lines.new ≡ spec.with_statement lines.old statement.now) }
{
    if !statement.is_label() {
        lines.items.push(statement.line)?;
    }
    Ok(())
}
