//! The types for which initial values stand.

ghost use Rattle.std.specs.Prelude.{◌≡◌, bytes_eq, drop, IfOk};
ghost use Rattle.struct_table.specs.StructTable.{type_named};
ghost use Rattle.global_check.specs.Resolved as spec;

use ir_read::{Node, RawType, Terminal, TypeForm, count_of, name_of};
use ir_types::List;
use rc_base::NoMemory;
use std::alloc::Global;
use struct_table::{Member, StructTable, members_of};

// ---- the same type

/// Structs are the same by their names, and arrays by their numbers.
fn same_node(one: &Node<'_>, other: &Node<'_>) -> bool
    ensures { result ≡ spec.same_node one.now other.now }
{
    match (one.terminal, other.terminal) {
        (Terminal::Local, Terminal::Local) => same_bytes(
            name_of(Terminal::Local, one.text),
            name_of(Terminal::Local, other.text),
        ),
        (Terminal::Natural, Terminal::Natural) => count_of(one.text) == count_of(other.text),
        _ => same_bytes(one.text, other.text),
    }
}

fn same_bytes(one: &[u8], other: &[u8]) -> bool
    ensures { result ≡ bytes_eq one.now other.now }
{
    one == other
}

fn begins_with(nodes: &[Node<'_>], one: &Node<'_>) -> bool
    ensures { result ≡ spec.begins_with nodes.now one.now }
{
    match nodes.first() {
        Some(other) => same_node(one, other),
        None => false,
    }
}

fn behind_first<'m, 's>(nodes: &'m [Node<'s>]) -> &'m [Node<'s>]
    ensures { result.now ≡ drop 1 nodes.now }
{
    let (_, behind) = nodes.split_at(nodes.len().min(1));
    behind
}

/// Whether the nodes spell the same type.
pub fn same_types<'m, 's>(ones: &[Node<'_>], others: &'m [Node<'s>]) -> bool
    ensures { result ≡ spec.same_types ones.now others.now }
{
    let mut same = true;
    let mut rest = others;
    for one in ones {
        same = same && begins_with(rest, one);
        rest = behind_first(rest);
    }
    same && rest.is_empty()
}

// ---- fields

/// The fields of a struct that is packed or isn't, also of a named one. None where the type is no such struct.
pub fn fields_of<'m, 's: 'm>(
    alloc: Global,
    structs: &StructTable<'m, 's>,
    is_packed: bool,
    nodes: &'m [Node<'s>],
) -> Result<Option<List<Member<'m, 's>>>, NoMemory>
    ensures { IfOk result (λ found. found ≡ spec.fields_of structs.now is_packed nodes.now) }
{
    let (front, _) = RawType::split(nodes);
    match front.form() {
        TypeForm::Named => {
            let found = named_fields(alloc, structs, is_packed, front.name())?;
            Ok(found)
        }
        _ => {
            let found = own_fields(alloc, structs, is_packed, nodes)?;
            Ok(found)
        }
    }
}

fn named_fields<'m, 's: 'm>(
    alloc: Global,
    structs: &StructTable<'m, 's>,
    is_packed: bool,
    name: &[u8],
) -> Result<Option<List<Member<'m, 's>>>, NoMemory>
    ensures { IfOk result (λ found. found ≡ spec.own_fields structs.now is_packed (type_named structs.now name.now)) }
{
    match structs.type_named(name) {
        Some(nodes) => {
            let found = own_fields(alloc, structs, is_packed, nodes)?;
            Ok(found)
        }
        None => Ok(None),
    }
}

fn own_fields<'m, 's: 'm>(
    alloc: Global,
    structs: &StructTable<'m, 's>,
    is_packed: bool,
    nodes: &'m [Node<'s>],
) -> Result<Option<List<Member<'m, 's>>>, NoMemory>
    ensures { IfOk result (λ found. found ≡ spec.own_fields structs.now is_packed nodes.now) }
{
    let (front, _) = RawType::split(nodes);
    match (front.form(), is_packed) {
        (TypeForm::Struct, false) | (TypeForm::Packed, true) => {
            let found = members_of(alloc, structs, nodes)?;
            Ok(Some(found))
        }
        _ => Ok(None),
    }
}

// ---- single values

/// Whether the type is an integer or a pointer.
pub fn is_word(nodes: &[Node<'_>]) -> bool
    ensures { result ≡ spec.is_word nodes.now }
{
    let (front, _) = RawType::split(nodes);
    matches!(front.form(), TypeForm::Int { .. } | TypeForm::Ptr)
}

/// Whether the type is an array of just so many bytes.
pub fn takes_string(nodes: &[Node<'_>], len: u64) -> bool
    ensures { result ≡ spec.takes_string nodes.now len }
{
    let (front, _) = RawType::split(nodes);
    match front.form() {
        TypeForm::Array { count } => count == len
            && front.element().form() == TypeForm::Int { bits: 8 },
        _ => false,
    }
}
