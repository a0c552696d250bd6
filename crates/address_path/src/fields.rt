//! What types take, and the fields of structs.

ghost use Rattle.std.specs.Prelude.{◌≡◌, slice_get, IfOk};
ghost use Rattle.address_path.specs.Path as spec;

use ir_layout::{Overflow, extent_of};
use ir_read::{Node, RawType, TypeForm};
use rc_base::NoMemory;
use std::alloc::Global;
use struct_table::{Member, StructTable, member_in, members_of};

/// How many bytes the type takes, with what 64 bits hold of them.
pub fn size_of<'m, 's>(
    alloc: Global,
    overflow: Overflow,
    structs: &'m StructTable<'m, 's>,
    nodes: &[Node<'_>],
) -> Result<u64, NoMemory>
    ensures { IfOk result (λ size. size ≡ spec.size_of structs.now overflow nodes.now) }
{
    let extent = extent_of(alloc, overflow, structs, nodes)?;
    Ok(extent.size)
}

/// The field of the struct that stands in front of the nodes, by its place among the fields. What is no struct has none.
pub fn field_at<'m, 's>(
    alloc: Global,
    structs: &'m StructTable<'m, 's>,
    nodes: &'m [Node<'s>],
    number: u64,
) -> Result<Option<Member<'m, 's>>, NoMemory>
    ensures { IfOk result (λ field. field ≡ slice_get (spec.fields_of structs.now nodes.now) number) }
{
    let (front, _) = RawType::split(nodes);
    match front.form() {
        TypeForm::Named => Ok(structs.member_named(front.name(), number as usize)),
        _ => {
            let fields = members_of(alloc, structs, front.nodes())?;
            Ok(member_in(fields.as_slice(), number as usize))
        }
    }
}
