//! Where the fields of a struct lie.

ghost use Rattle.std.specs.Prelude.{◌≡◌, [], slice_get, IfOk, OnOk};
ghost use Rattle.ir_layout.specs.declared.extent.Overflow.TheVariants as o;
ghost use Rattle.struct_table.specs.Members as spec;

use crate::named::StructType;
use ir_items::Phrases;
use ir_layout::{Extent, Overflow, Structs, empty, extent_of, place, with_field};
use ir_read::{Node, RawType, TypeForm};
use ir_types::List;
use rc_base::NoMemory;
use std::alloc::Global;
use std::marker::Model;

/// A field of a struct.
#[derive(Drop)]
pub struct Member<'m, 's> {
    /// How many bytes lie before it.
    pub place: u64,
    /// The nodes of its type.
    pub nodes: &'m [Node<'s>],
}

impl<'m, 's> Model for Member<'m, 's> {
    ghost use Rattle.struct_table.specs.Members.{Member as Field};

    ghost Value = { Field };

    ghost view = { λ member. record { place = member.place; nodes = member.nodes.now } };
}

/// The field of the number, counted from 0, where there are so many.
pub fn member_in<'m, 's>(members: &[Member<'m, 's>], index: usize) -> Option<Member<'m, 's>>
    ensures { result ≡ slice_get members.now index }
{
    if index < members.len() {
        let member = &members[index];
        Some(Member {
            place: member.place,
            nodes: member.nodes,
        })
    } else {
        None
    }
}

/// The fields of a struct that are laid so far, and what they take.
#[derive(Drop)]
struct Laid<'m, 's> {
    fields: Extent,
    members: List<Member<'m, 's>>,
}

impl<'m, 's> Model for Laid<'m, 's> {
    ghost use Rattle.struct_table.specs.Members.{Laid as State};

    ghost Value = { State };

    ghost view = { λ laid. record { fields = laid.fields; members = laid.members } };
}

impl<'m, 's> Laid<'m, 's> {
    fn new(alloc: Global) -> Laid<'m, 's>
        ensures { result ≡ spec.none_laid }
    {
        Laid {
            fields: empty(),
            members: List::new(alloc),
        }
    }

    /// Lays all of the fields.
    fn add_all<S: Structs>(
        &mut self,
        alloc: Global,
        structs: &S,
        packed: bool,
        fields: &mut Phrases<'m, 's>,
    ) -> Result<(), NoMemory>
        ensures { OnOk result (self.new ≡ spec.laid_from (S.extents structs.now o.Wrapping) packed self.old fields.old) }
    {
        while let Some(nodes) = fields.next() {
            let field = extent_of(alloc, Overflow::Wrapping, structs, nodes)?;
            self.add(packed, nodes, field)?;
        }
        Ok(())
    }

    /// Lays one more field, which takes so much.
    fn add(&mut self, packed: bool, nodes: &'m [Node<'s>], field: Extent) -> Result<(), NoMemory>
        ensures { OnOk result (self.new ≡ spec.with_member packed self.old nodes.now field) }
    {
        let place = place(Overflow::Wrapping, packed, self.fields.size, field.align);
        self.members.items.push(Member { place, nodes })?;
        self.fields = with_field(Overflow::Wrapping, packed, self.fields, field);
        Ok(())
    }
}

/// The fields of the struct that stands in front of the nodes, packed or not, in order. What is no struct with its fields
/// has none.
pub fn members_of<'m, 's, S: Structs>(
    alloc: Global,
    structs: &S,
    nodes: &'m [Node<'s>],
) -> Result<List<Member<'m, 's>>, NoMemory>
    ensures { IfOk result (λ found. found ≡ spec.members_of (S.extents structs.now o.Wrapping) nodes.now) }
{
    let (front, _) = RawType::split(nodes);
    match front.form() {
        TypeForm::Struct => {
            let found = lay(alloc, structs, false, front.fields())?;
            Ok(found)
        }
        TypeForm::Packed => {
            let found = lay(alloc, structs, true, front.packed_fields())?;
            Ok(found)
        }
        _ => Ok(List::new(alloc)),
    }
}

fn lay<'m, 's, S: Structs>(
    alloc: Global,
    structs: &S,
    packed: bool,
    nodes: &'m [Node<'s>],
) -> Result<List<Member<'m, 's>>, NoMemory>
    ensures { IfOk result (λ found. found ≡ spec.laid (S.extents structs.now o.Wrapping) packed nodes.now) }
{
    let mut laid = Laid::new(alloc);
    laid.add_all(alloc, structs, packed, &mut Phrases::new(nodes))?;
    Ok(laid.members)
}

/// The fields of each of the structs.
pub fn all_members<'m, 's, S: Structs>(
    alloc: Global,
    structs: &S,
    types: &[StructType<'m, 's>],
) -> Result<List<List<Member<'m, 's>>>, NoMemory>
    ensures { IfOk result (λ found. found ≡ spec.members_from (S.extents structs.now o.Wrapping) [] types.now) }
{
    let mut all = Vec::new(alloc);
    for spelled in types {
        let members = members_of(alloc, structs, spelled.nodes)?;
        all.push(members)?;
    }
    Ok(List { items: all })
}
