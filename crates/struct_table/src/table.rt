//! The table of a module's structs.

ghost use Rattle.std.specs.Prelude.{◌≡◌, [], get_or, is_some, slice_get, IfOk, MatchOption};
ghost use Rattle.ir_items.specs.declared.segment.Cut.TheVariants as cuts;
ghost use Rattle.ir_items.specs.Segment.{segments_of};
ghost use Rattle.struct_table.specs.Graph.{first_circle, holds_of};
ghost use Rattle.struct_table.specs.StructTable as spec;

use crate::circles::first_circle;
use crate::components::components_of;
use crate::holds::holds_of;
use crate::members::{Member, all_members, member_in};
use crate::named::{StructType, name_structs};
use crate::rounds::{Known, extent_in, or_empty};
use crate::settling::settled;
use ir_layout::{Extent, Overflow, Structs};
use ir_names::NameTable;
use ir_read::{Node, Rule, Terminal, name_of};
use ir_types::List;
use module_fault::{Cause, unless};
use rc_base::NoMemory;
use std::alloc::Global;
use std::marker::Model;

/// The structs that a module names. Of a name that is given twice the first definition counts.
#[derive(Drop)]
pub struct StructTable<'m, 's: 'm> {
    names: NameTable<'s>,
    types: List<StructType<'m, 's>>,
    saturating: List<Option<Extent>>,
    wrapping: List<Option<Extent>>,
    members: List<List<Member<'m, 's>>>,
}

impl<'m, 's: 'm> Model for StructTable<'m, 's> {
    ghost use Rattle.struct_table.specs.StructTable.{Structs as Table};

    ghost Value = { Table };

    ghost view = { λ table. record {
      names = table.names;
      types = table.types;
      saturating = table.saturating;
      wrapping = table.wrapping;
      members = table.members;
    } };
}

impl<'m, 's: 'm> Structs for StructTable<'m, 's> {
    ghost use Rattle.struct_table.specs.StructTable.{extent as extent_named};

    ghost extents = { extent_named };

    fn extent(&self, overflow: Overflow, name: &[u8]) -> Extent {
        let extents = match overflow {
            Overflow::Saturating => &self.saturating,
            Overflow::Wrapping => &self.wrapping,
        };
        or_empty(extent_in(&self.names, extents, name))
    }
}

impl<'m, 's: 'm> StructTable<'m, 's> {
    /// The structs of a module's nodes.
    pub fn of(alloc: Global, nodes: &'m [Node<'s>]) -> Result<StructTable<'m, 's>, NoMemory>
        ensures { IfOk result (λ table. table ≡ spec.structs_of (segments_of cuts.Items nodes.now)) }
    {
        let named = name_structs(alloc, nodes)?;
        let table = StructTable::by(alloc, named.names, named.types)?;
        Ok(table)
    }

    fn by(
        alloc: Global,
        names: NameTable<'s>,
        types: List<StructType<'m, 's>>,
    ) -> Result<StructTable<'m, 's>, NoMemory>
        ensures { IfOk result (λ table. table ≡ spec.structs_by names.entry types.entry) }
    {
        let order = settling_order(alloc, &names, types.as_slice())?;
        let saturating = settled(
            alloc,
            Overflow::Saturating,
            &names,
            types.as_slice(),
            order.as_slice(),
        )?;
        let wrapping = settled(
            alloc,
            Overflow::Wrapping,
            &names,
            types.as_slice(),
            order.as_slice(),
        )?;
        let known = Known {
            names: &names,
            extents: &wrapping,
        };
        let members = all_members(alloc, &known, types.as_slice())?;
        Ok(StructTable {
            names,
            types,
            saturating,
            wrapping,
            members,
        })
    }

    /// The first struct that holds itself.
    pub(crate) fn circle(&self, alloc: Global) -> Result<Option<usize>, NoMemory>
        ensures { IfOk result (λ found. found ≡ first_circle (holds_of self.now.names self.now.types)) }
    {
        let names = &self.names;
        let types = &self.types;
        let holds = holds_of(alloc, names, types.as_slice())?;
        let components = components_of(alloc, &holds)?;
        let found = first_circle(alloc, &components.numbers, &holds)?;
        Ok(found)
    }

    /// The number of the struct of the name, in the order of the text.
    pub fn number(&self, name: &[u8]) -> Option<usize>
        ensures { result ≡ spec.number_of self.now name.now }
    {
        let names = &self.names;
        names.number(name)
    }

    fn has(&self, name: &[u8]) -> bool
        ensures { result ≡ is_some (spec.number_of self.now name.now) }
    {
        self.number(name).is_some()
    }

    /// The nodes of the type of the struct of the name. None where there is none.
    pub fn type_named(&self, name: &[u8]) -> Option<&'m [Node<'s>]>
        ensures { MatchOption result (spec.type_named self.now name.now ≡ []) (λ nodes. nodes.now ≡ spec.type_named self.now name.now) }
    {
        match self.number(name) {
            Some(number) => type_at(self.types.as_slice(), number),
            None => None,
        }
    }

    /// The field of the struct of the name, by its place among the fields. None where there is none.
    pub fn member_named(&self, name: &[u8], index: usize) -> Option<Member<'m, 's>>
        ensures { result ≡ slice_get (spec.members_named self.now name.now) index }
    {
        match self.number(name) {
            Some(number) => member_at(self.members.as_slice(), number, index),
            None => None,
        }
    }

    /// Whether each struct is there that a type among the nodes names.
    pub fn knows(&self, nodes: &[Node<'_>]) -> bool
        ensures { result ≡ spec.knows self.now nodes.now }
    {
        let mut knows = true;
        for node in nodes {
            let known = self.knows_text(names_struct(node.rule, node.terminal), node.text);
            knows = knows && known;
        }
        knows
    }

    /// Whether the struct is there, where the text names one.
    fn knows_text(&self, names_struct: bool, text: &[u8]) -> bool
        ensures { result ≡ spec.known_by names_struct self.now text.now }
    {
        if names_struct {
            self.has(name_of(Terminal::Local, text))
        } else {
            true
        }
    }

    /// Where a type among the nodes names a struct that isn't there, that it does.
    pub fn unknown_in(&self, nodes: &[Node<'_>]) -> Option<Cause>
        ensures { result ≡ spec.unknown_in self.now nodes.now }
    {
        unless(self.knows(nodes), Cause::UnknownName)
    }
}

/// The structs in an order in which those that are held come first, where none holds itself.
fn settling_order(
    alloc: Global,
    names: &NameTable<'_>,
    types: &[StructType<'_, '_>],
) -> Result<List<usize>, NoMemory> {
    let holds = holds_of(alloc, names, types)?;
    let components = components_of(alloc, &holds)?;
    Ok(components.order)
}

fn type_at<'m, 's>(types: &[StructType<'m, 's>], number: usize) -> Option<&'m [Node<'s>]>
    ensures { MatchOption result (get_or types.now number [] ≡ []) (λ nodes. nodes.now ≡ get_or types.now number []) }
{
    if number < types.len() {
        let spelled = &types[number];
        Some(spelled.nodes)
    } else {
        None
    }
}

fn member_at<'m, 's>(
    lists: &[List<Member<'m, 's>>],
    number: usize,
    index: usize,
) -> Option<Member<'m, 's>>
    ensures { result ≡ slice_get (get_or lists.now number []) index }
{
    if number < lists.len() {
        member_in(lists[number].as_slice(), index)
    } else {
        None
    }
}

/// Whether a token that the rule took names a struct.
fn names_struct(rule: Rule, terminal: Terminal) -> bool
    ensures { result ≡ spec.names_struct rule terminal }
{
    match rule {
        Rule::Type => is_local(terminal),
        _ => false,
    }
}

fn is_local(terminal: Terminal) -> bool
    ensures { result ≡ spec.is_local terminal }
{
    matches!(terminal, Terminal::Local)
}
