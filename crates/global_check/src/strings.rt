//! The strings that the constants of a module hold.

ghost use Rattle.std.specs.Prelude.{◌≡◌, [], IfOk, OnOk};
ghost use Rattle.ir_items.specs.declared.segment.Cut.TheVariants as cuts;
ghost use Rattle.ir_items.specs.Item.{form_of};
ghost use Rattle.ir_items.specs.Segment.{segments_of};
ghost use Rattle.global_check.specs.Strings as spec;

use crate::placed::initial_of;
use instruction_check::StringText;
use ir_items::{Item, ItemForm, Items};
use ir_read::{Node, Terminal};
use ir_types::List;
use rc_base::NoMemory;
use std::alloc::Global;

/// By the number of the global: the text of the string that it holds, where it is a constant that holds one, and else
/// nothing.
pub fn strings_of<'s>(alloc: Global, nodes: &[Node<'s>]) -> Result<List<StringText<'s>>, NoMemory>
    ensures { IfOk result (λ strings. strings ≡ spec.strings_from [] (segments_of cuts.Items nodes.now)) }
{
    let mut strings = List::new(alloc);
    add_all(&mut strings, &mut Items::new(nodes))?;
    Ok(strings)
}

fn add_all<'s>(
    strings: &mut List<StringText<'s>>,
    items: &mut Items<'_, 's>,
) -> Result<(), NoMemory>
    ensures { OnOk result (strings.new ≡ spec.strings_from strings.old items.old) }
{
    while let Some(item) = items.next() {
        add(strings, &item)?;
    }
    Ok(())
}

fn add<'s>(strings: &mut List<StringText<'s>>, item: &Item<'_, 's>) -> Result<(), NoMemory>
    ensures { OnOk result (strings.new ≡ spec.with_form (form_of item.now) strings.old item.now) }
{
    if item.form() == ItemForm::Global {
        let text = string_of(item);
        strings.items.push(StringText { text })?;
    }
    Ok(())
}

/// What a global holds that isn't a constant may change.
fn string_of<'s>(item: &Item<'_, 's>) -> &'s [u8]
    ensures { result.now ≡ spec.string_of item.now }
{
    if item.is_constant() {
        text_in(initial_of(item))
    } else {
        b""
    }
}

fn text_in<'s>(initial: &[Node<'s>]) -> &'s [u8]
    ensures { result.now ≡ spec.text_in initial.now }
{
    match initial.first() {
        Some(node) if node.terminal == Terminal::Bytes => node.text,
        _ => b"",
    }
}
