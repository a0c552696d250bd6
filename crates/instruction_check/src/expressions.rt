//! The addresses that constant expressions spell.

ghost use Rattle.std.specs.Prelude.{◌≡◌, IfOk};
ghost use Rattle.instruction_check.specs.Expressions as spec;

use crate::literals::{is_integer, literal_in};
use crate::phrases::{kind_in, take_kind, take_pair};
use crate::scope::ModuleNames;
use address_path::{Index, Path, path_of};
use ir_items::{Phrases, inside};
use ir_read::{Node, Terminal};
use ir_types::{Kind, List, Operand};
use module_fault::{Cause, Found, lesser, unless};
use rc_base::NoMemory;
use std::alloc::Global;
use struct_table::StructTable;

/// The address that a constant expression of the word spells, which is `getelementptr` or `inttoptr`.
pub fn expression<'m, 's>(
    alloc: Global,
    names: &ModuleNames<'s>,
    structs: &'m StructTable<'m, 's>,
    word: Terminal,
    phrase: &'m [Node<'s>],
) -> Result<Found<u64>, NoMemory>
    ensures { IfOk result (λ found. found ≡ spec.expression names.now structs.now word phrase.now) }
{
    let mut phrases = Phrases::new(inside(phrase));
    match word {
        Terminal::IntToPtr => Ok(integer_address(&mut phrases)),
        _ => element_address(alloc, names, structs, &mut phrases),
    }
}

/// `iN LITERAL to ptr`: the bits of the literal, extended by zeros.
fn integer_address(phrases: &mut Phrases<'_, '_>) -> Found<u64>
    ensures { result ≡ spec.integer_address phrases.old }
{
    let kind = take_kind(phrases);
    let found = match phrases.next() {
        Some(phrase) => literal_in(kind, phrase),
        None => literal_in(kind, &[]),
    };
    Found {
        value: found.value.bits,
        cause: lesser(unless(is_integer(kind), Cause::TypeMismatch), found.cause),
    }
}

/// `TYPE, ptr GLOBAL, iN LITERAL, ..`.
fn element_address<'m, 's>(
    alloc: Global,
    names: &ModuleNames<'s>,
    structs: &'m StructTable<'m, 's>,
    phrases: &mut Phrases<'m, 's>,
) -> Result<Found<u64>, NoMemory>
    ensures { IfOk result (λ found. found ≡ spec.element_address names.now structs.now phrases.old) }
{
    match phrases.next() {
        Some(nodes) => element_address_in(alloc, names, structs, nodes, phrases),
        None => element_address_in(alloc, names, structs, &[], phrases),
    }
}

fn element_address_in<'m, 's>(
    alloc: Global,
    names: &ModuleNames<'s>,
    structs: &'m StructTable<'m, 's>,
    nodes: &'m [Node<'s>],
    phrases: &mut Phrases<'m, 's>,
) -> Result<Found<u64>, NoMemory>
    ensures { IfOk result (λ found. found ≡ spec.element_address_in names.now structs.now nodes.now phrases.old) }
{
    let _pointer = take_kind(phrases);
    let base = names.take_address(phrases);
    let indices = literal_indices(alloc, phrases)?;
    let path = path_of(alloc, structs, nodes, &indices.items)?;
    Ok(moved_address(base, path))
}

/// So far from a global.
fn moved_address(base: Found<u64>, path: Path<'_, '_>) -> Found<u64>
    ensures { result ≡ spec.moved_address base path.entry }
{
    Found {
        value: base.value.wrapping_add(path.fixed),
        cause: lesser(base.cause, path.cause),
    }
}

fn literal_indices(alloc: Global, phrases: &mut Phrases<'_, '_>) -> Result<List<Index>, NoMemory>
    ensures { IfOk result (λ found. found ≡ spec.literal_indices phrases.old) }
{
    let mut indices = Vec::new(alloc);
    while let Some((written, phrase)) = take_pair(phrases) {
        indices.push(literal_index(written, phrase))?;
    }
    Ok(List { items: indices })
}

fn literal_index(written: &[Node<'_>], phrase: &[Node<'_>]) -> Index
    ensures { result ≡ spec.literal_index written.now phrase.now }
{
    let kind = kind_in(written);
    let found = literal_in(kind, phrase);
    Index {
        kind,
        value: Operand::Constant(found.value),
        cause: found.cause,
    }
}
