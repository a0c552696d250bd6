//! A defined function.

ghost use Rattle.std.specs.Prelude.{◌≡◌, [], IfOk};
ghost use Rattle.module_build.specs.Function as spec;

use crate::body::build;
use instruction_check::{ModuleNames, Scope, kind_of};
use ir_items::{Item, Parameters};
use ir_types::{Function, Kind, List};
use module_check::{NamedBody, name_body, phi_fault, result_kind, shape_fault};
use module_fault::First;
use rc_base::NoMemory;
use std::alloc::Global;
use struct_table::StructTable;

/// A function, beside the first fault of its.
#[derive(Drop)]
pub struct BuiltFunction {
    pub function: Function,
    pub first: First,
}

/// The function that an item defines.
pub fn function_of<'m, 's: 'm>(
    alloc: Global,
    names: &ModuleNames<'s>,
    structs: &StructTable<'m, 's>,
    item: &Item<'m, 's>,
) -> Result<BuiltFunction, NoMemory>
    ensures { IfOk result (λ found. found ≡ spec.function_of names.now structs.now item.now) }
{
    let named = name_body(alloc, names, item)?;
    let found = function_by(alloc, names, structs, named, item)?;
    Ok(found)
}

fn function_by<'m, 's: 'm>(
    alloc: Global,
    names: &ModuleNames<'s>,
    structs: &StructTable<'m, 's>,
    named: NamedBody<'s>,
    item: &Item<'m, 's>,
) -> Result<BuiltFunction, NoMemory>
    ensures { IfOk result (λ found. found ≡ spec.function_by names.now structs.now named.entry item.now) }
{
    let params = kinds_of(alloc, &mut item.parameters())?;
    let scope = Scope {
        names,
        body: &named.names,
        structs,
    };
    let body = build(alloc, &scope, params.len(), item.body())?;
    let mut first = shape_of(alloc, &named, item)?;
    first.join(body.first.fault());
    let blocks = body.into_blocks()?;
    let name = item.name().name().to_vec(alloc)?;
    Ok(BuiltFunction {
        function: Function {
            name: List { items: name },
            params,
            result: result_kind(item.result_type()),
            blocks,
            registers: named.registers,
        },
        first,
    })
}

/// What is wrong with the function before its instructions are looked at.
fn shape_of<'s>(
    alloc: Global,
    named: &NamedBody<'s>,
    item: &Item<'_, 's>,
) -> Result<First, NoMemory>
    ensures { IfOk result (λ first. first ≡ spec.shape_of named.now item.now) }
{
    let mut first = First::new();
    first.join(named.first.fault());
    first.join(shape_fault(item));
    first.join(phi_fault(alloc, &named.names, named.blocks, item)?);
    Ok(first)
}

/// The kinds of parameters.
fn kinds_of(alloc: Global, parameters: &mut Parameters<'_, '_>) -> Result<List<Kind>, NoMemory>
    ensures { IfOk result (λ kinds. kinds ≡ spec.kinds_from [] parameters.old) }
{
    let mut kinds = Vec::new(alloc);
    while let Some(parameter) = parameters.next() {
        let value_type = parameter.value_type;
        kinds.push(kind_of(value_type))?;
    }
    Ok(List { items: kinds })
}
