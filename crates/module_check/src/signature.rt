//! What functions take and give, as they are written.

ghost use Rattle.std.specs.Prelude.{◌≡◌, IfOk};
ghost use Rattle.module_check.specs.Signature as spec;

use external_calls::Parameter;
use instruction_check::{Signature, kind_of};
use ir_items::{Item, Parameters};
use ir_read::{Node, Terminal};
use ir_types::{Kind, List};
use rc_base::NoMemory;
use std::alloc::Global;

/// The kind of what a function gives; none for `void`.
pub fn result_kind(node: &Node<'_>) -> Option<Kind>
    ensures { result ≡ spec.result_kind node.now }
{
    match node.terminal {
        Terminal::Void => None,
        _ => Some(kind_of(node)),
    }
}

/// What a function takes and gives.
pub fn signature_of(alloc: Global, item: &Item<'_, '_>) -> Result<Signature, NoMemory>
    ensures { IfOk result (λ found. found ≡ spec.signature_of item.now) }
{
    let parameters = taken(alloc, &mut item.parameters())?;
    Ok(Signature {
        parameters,
        result: result_kind(item.result_type()),
    })
}

fn taken(alloc: Global, parameters: &mut Parameters<'_, '_>) -> Result<List<Parameter>, NoMemory>
    ensures { IfOk result (λ found. found ≡ spec.taken parameters.old) }
{
    let mut kinds = Vec::new(alloc);
    while let Some(parameter) = parameters.next() {
        let value_type = parameter.value_type;
        kinds.push(Parameter::Value(kind_of(value_type)))?;
    }
    Ok(List { items: kinds })
}
