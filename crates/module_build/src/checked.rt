//! The call that checks a module.

ghost use Rattle.std.specs.Prelude.{◌≡◌, IfOk};
ghost use Rattle.ir_items.specs.declared.segment.Cut.TheVariants as cuts;
ghost use Rattle.ir_items.specs.Segment.{segments_of};
ghost use Rattle.global_check.specs.Globals.{globals_of};
ghost use Rattle.rc_base.specs.Failures.{Gives};
ghost use Rattle.module_build.specs.Checked as spec;

use crate::functions::{BuiltFunctions, build_functions};
use global_check::{CheckedGlobals, PlacedGlobals, check_globals, place_globals, strings_of};
use instruction_check::{BodyNames, ModuleNames, Scope, StringText};
use ir_names::LocalTable;
use ir_read::{ModuleError, Node, RawModule};
use ir_types::{List, Module};
use module_check::{main_of, name_items, or_no_main};
use module_fault::{Cause, First};
use rc_base::{Failure, NoMemory};
use std::alloc::Global;
use struct_table::{StructTable, struct_fault};

/// The module that was read, for a machine; or what is wrong with it. All faults are found, and the one of the least line is
/// answered, in a line the first of: an unknown name, a name given twice, types that don't fit, what isn't supported, and
/// a shape that isn't whole. That no `main` is defined comes last, at line 0.
pub fn check_module(alloc: Global, raw: &RawModule<'_>) -> Result<Module, Failure<ModuleError>>
    ensures { Gives (λ found. found) result (spec.checked_module raw.now.nodes.items) }
{
    let nodes = &raw.nodes[..];
    let parts = parts_of(alloc, nodes)?;
    module_with(parts).map_err(Failure::Refused)
}

/// What is checked of a module, before it is known whether anything is wrong.
#[derive(Drop)]
struct Parts<'s> {
    names: ModuleNames<'s>,
    globals: CheckedGlobals,
    functions: BuiltFunctions,
    first: First,
}

fn parts_of<'m, 's: 'm>(alloc: Global, nodes: &'m [Node<'s>]) -> Result<Parts<'s>, NoMemory>
    ensures { IfOk result (λ parts. parts ≡ spec.parts_of (segments_of cuts.Items nodes.now)) }
{
    let structs = StructTable::of(alloc, nodes)?;
    let named = name_items(alloc, nodes)?;
    let placed = place_globals(alloc, &structs, nodes)?;
    let strings = strings_of(alloc, nodes)?;
    let first = named.first;
    let names = names_with(named.names, &placed, strings)?;
    let parts = parts_by(alloc, first, names, &structs, &placed, nodes)?;
    Ok(parts)
}

/// The names of the items, with where globals lie and what constants hold.
fn names_with<'s>(
    named: ModuleNames<'s>,
    placed: &PlacedGlobals,
    strings: List<StringText<'s>>,
) -> Result<ModuleNames<'s>, NoMemory>
    ensures { IfOk result (λ names. names ≡ spec.names_with named.entry placed.now strings.entry) }
{
    let addresses = placed.addresses.clone()?;
    Ok(ModuleNames {
        table: named.table,
        roles: named.roles,
        addresses,
        strings,
        signatures: named.signatures,
    })
}

/// What a global begins with names no register.
fn no_body<'s>(alloc: Global) -> BodyNames<'s>
    ensures { result ≡ spec.no_body }
{
    BodyNames {
        table: LocalTable::new(alloc),
        roles: List::new(alloc),
        result: None,
    }
}

fn parts_by<'m, 's: 'm>(
    alloc: Global,
    first: First,
    names: ModuleNames<'s>,
    structs: &StructTable<'m, 's>,
    placed: &PlacedGlobals,
    nodes: &'m [Node<'s>],
) -> Result<Parts<'s>, NoMemory>
    ensures { IfOk result (λ parts. parts ≡ spec.parts_by first names.entry structs.now placed.now (segments_of cuts.Items nodes.now)) }
{
    let mut first = first;
    let globals = globals_of(alloc, &names, structs, placed, nodes)?;
    let functions = build_functions(alloc, &names, structs, nodes)?;
    first.join(struct_fault(alloc, nodes, structs)?);
    first.join(globals.first.fault());
    first.join(functions.first.fault());
    Ok(Parts {
        names,
        globals,
        functions,
        first,
    })
}

fn globals_of<'m, 's: 'm>(
    alloc: Global,
    names: &ModuleNames<'s>,
    structs: &StructTable<'m, 's>,
    placed: &PlacedGlobals,
    nodes: &'m [Node<'s>],
) -> Result<CheckedGlobals, NoMemory>
    ensures { IfOk result (λ found. found ≡ globals_of (spec.global_scope names.now structs.now) placed.now (segments_of cuts.Items nodes.now)) }
{
    let body = no_body(alloc);
    let scope = Scope {
        names,
        body: &body,
        structs,
    };
    let found = check_globals(alloc, &scope, placed, nodes)?;
    Ok(found)
}

/// What is wrong, by its cause and its line.
fn error_at(cause: Cause, line: u32) -> ModuleError
    ensures { result ≡ spec.error_at cause line }
{
    match cause {
        Cause::UnknownName => ModuleError::UnknownName { line },
        Cause::Duplicate => ModuleError::Duplicate { line },
        Cause::TypeMismatch => ModuleError::TypeMismatch { line },
        Cause::Unsupported => ModuleError::Unsupported { line },
        Cause::BadShape => ModuleError::BadShape { line },
    }
}

/// The module of the parts, unless something is wrong.
fn module_with(parts: Parts<'_>) -> Result<Module, ModuleError>
    ensures { result ≡ spec.module_with parts.entry }
{
    let main = main_of(&parts.names);
    match or_no_main(parts.first.fault(), main) {
        Some(fault) => Err(error_at(fault.cause, fault.line)),
        None => Ok(Module {
            globals: parts.globals.globals,
            functions: parts.functions.functions,
            main: main.unwrap_or(0),
        }),
    }
}
