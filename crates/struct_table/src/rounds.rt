//! What a struct takes in memory, by what is known so far of the structs that its type names.

ghost use Rattle.std.specs.Prelude.{◌≡◌, get_or, is_some, IfOk, None};
ghost use Rattle.ir_layout.specs.Extent.{kept};
ghost use Rattle.struct_table.specs.Rounds as spec;

use ir_layout::{Extent, Overflow, Structs, empty, extent_of};
use ir_names::NameTable;
use ir_read::{Node, Terminal, name_of};
use ir_types::List;
use rc_base::NoMemory;
use std::alloc::Global;

/// What is known of a module's structs.
#[derive(Drop)]
pub struct Known<'t, 's> {
    pub names: &'t NameTable<'s>,
    /// By the number of the struct.
    pub extents: &'t List<Option<Extent>>,
}

impl<'t, 's> Structs for Known<'t, 's> {
    ghost use Rattle.struct_table.specs.Rounds.{extents_in};

    ghost extents = { λ known overflow name. extents_in known.names.now known.extents.now name };

    fn extent(&self, _overflow: Overflow, name: &[u8]) -> Extent {
        or_empty(extent_in(self.names, self.extents, name))
    }
}

/// What is known of the struct of the name.
pub fn extent_in(
    names: &NameTable<'_>,
    extents: &List<Option<Extent>>,
    name: &[u8],
) -> Option<Extent>
    ensures { result ≡ spec.extent_in names.now extents.now name.now }
{
    match names.number(name) {
        Some(number) => extent_at(extents, number),
        None => None,
    }
}

pub fn extent_at(extents: &List<Option<Extent>>, number: usize) -> Option<Extent>
    ensures { result ≡ get_or extents.now number None }
{
    if number < extents.items.len() {
        extents.items[number]
    } else {
        None
    }
}

/// Of a struct of which nothing is known, what one without fields takes.
pub fn or_empty(extent: Option<Extent>) -> Extent
    ensures { result ≡ spec.or_empty extent }
{
    match extent {
        Some(extent) => extent,
        None => empty(),
    }
}

/// What the struct takes whose type the nodes spell, where it is known of each struct that they name.
pub fn next_extent(
    alloc: Global,
    overflow: Overflow,
    names: &NameTable<'_>,
    extents: &List<Option<Extent>>,
    nodes: &[Node<'_>],
) -> Result<Option<Extent>, NoMemory>
    ensures { IfOk result (λ found. found ≡ spec.next_extent (kept overflow) names.now extents.now nodes.now) }
{
    if are_ready(names, extents, nodes) {
        let extent = extent_of(alloc, overflow, &Known { names, extents }, nodes)?;
        Ok(Some(extent))
    } else {
        Ok(None)
    }
}

fn is_known(names: &NameTable<'_>, extents: &List<Option<Extent>>, name: &[u8]) -> bool
    ensures { result ≡ is_some (spec.extent_in names.now extents.now name.now) }
{
    extent_in(names, extents, name).is_some()
}

fn are_ready(names: &NameTable<'_>, extents: &List<Option<Extent>>, nodes: &[Node<'_>]) -> bool
    ensures { result ≡ spec.are_ready names.now extents.now nodes.now }
{
    let mut ready = true;
    for node in nodes {
        let known = is_ready(names, extents, node.terminal, node.text);
        ready = ready && known;
    }
    ready
}

/// Whether what a struct takes is known, where a token names one.
fn is_ready(
    names: &NameTable<'_>,
    extents: &List<Option<Extent>>,
    terminal: Terminal,
    text: &[u8],
) -> bool
    ensures { result ≡ spec.is_ready_by terminal names.now extents.now text.now }
{
    match terminal {
        Terminal::Local => is_known(names, extents, name_of(Terminal::Local, text)),
        _ => true,
    }
}
