//! Which structs a struct's type names.

ghost use Rattle.std.specs.Prelude.{◌≡◌, [], IfOk};
ghost use Rattle.struct_table.specs.Graph as spec;

use crate::named::StructType;
use ir_names::NameTable;
use ir_read::{Node, Terminal, name_of};
use ir_types::List;
use rc_base::NoMemory;
use std::alloc::Global;

/// Of each struct the numbers of those that its type names.
pub fn holds_of(
    alloc: Global,
    names: &NameTable<'_>,
    types: &[StructType<'_, '_>],
) -> Result<List<List<usize>>, NoMemory>
    ensures { IfOk result (λ found. found ≡ spec.holds_of names.now types.now) }
{
    let mut holds = Vec::new(alloc);
    for spelled in types {
        let numbers = numbers_in(alloc, names, spelled.nodes)?;
        holds.push(numbers)?;
    }
    Ok(List { items: holds })
}

fn numbers_in(
    alloc: Global,
    names: &NameTable<'_>,
    nodes: &[Node<'_>],
) -> Result<List<usize>, NoMemory>
    ensures { IfOk result (λ found. found ≡ spec.numbers_in names.now nodes.now) }
{
    let mut numbers = Vec::new(alloc);
    for node in nodes {
        if let Some(number) = number_at(names, node.terminal, node.text) {
            numbers.push(number)?;
        }
    }
    Ok(List { items: numbers })
}

/// The number of the struct that a token names.
fn number_at(names: &NameTable<'_>, terminal: Terminal, text: &[u8]) -> Option<usize>
    ensures { result ≡ spec.number_by terminal names.now text.now }
{
    match terminal {
        Terminal::Local => names.number(name_of(Terminal::Local, text)),
        _ => None,
    }
}
