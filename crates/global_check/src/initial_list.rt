//! An open list of initial values, and what its next value is for.

ghost use Rattle.std.specs.Prelude.{◌≡◌, IfOk};
ghost use Rattle.global_check.specs.InitialList as spec;

use crate::resolved::{fields_of, same_types};
use ir_layout::{Overflow, extent_of};
use ir_read::{Node, RawType, TypeForm};
use ir_types::List;
use module_fault::{Cause, Found, unless};
use rc_base::NoMemory;
use std::alloc::Global;
use std::marker::Model;
use struct_table::{Member, StructTable, member_in};

/// A list of initial values, of an array or of a struct. A list for another type has no parts.
#[derive(Drop)]
pub struct InitialList<'m, 's> {
    /// Where the array or struct lies.
    place: u64,
    is_array: bool,
    /// Of an array the nodes of an element, and how many bytes one takes.
    element: &'m [Node<'s>],
    size: u64,
    /// Of a struct its fields.
    members: List<Member<'m, 's>>,
    /// How many values are due.
    count: u64,
    /// How many there were.
    next: u64,
}

impl<'m, 's> Model for InitialList<'m, 's> {
    ghost use Rattle.global_check.specs.InitialList.{InitialList as State};

    ghost Value = { State };

    ghost view = { λ list. record {
      place = list.place;
      is_array = list.is_array;
      element = list.element.now;
      size = list.size;
      members = list.members;
      count = list.count;
      next = list.next;
    } };
}

impl<'m, 's: 'm> InitialList<'m, 's> {
    fn new(alloc: Global, place: u64, nodes: &'m [Node<'s>]) -> InitialList<'m, 's>
        ensures { result ≡ spec.no_list place nodes.now }
    {
        InitialList {
            place,
            is_array: false,
            element: nodes,
            size: 0,
            members: List::new(alloc),
            count: 0,
            next: 0,
        }
    }

    /// `[ .. ]` for a value of the type.
    pub fn array(
        alloc: Global,
        structs: &StructTable<'m, 's>,
        due: &Member<'m, 's>,
    ) -> Result<Found<InitialList<'m, 's>>, NoMemory>
        ensures list { IfOk result (λ found. found.value ≡ spec.array_for structs.now due.now) }
        ensures cause { IfOk result (λ found. found.cause ≡ spec.array_cause due.now) }
    {
        let (front, _) = RawType::split(due.nodes);
        match front.form() {
            TypeForm::Array { count } => {
                let element = front.element().nodes();
                let extent = extent_of(alloc, Overflow::Wrapping, structs, element)?;
                let list = InitialList {
                    place: due.place,
                    is_array: true,
                    element,
                    size: extent.size,
                    members: List::new(alloc),
                    count,
                    next: 0,
                };
                Ok(Found {
                    value: list,
                    cause: None,
                })
            }
            _ => Ok(Found {
                value: InitialList::new(alloc, due.place, front.nodes()),
                cause: Some(Cause::TypeMismatch),
            }),
        }
    }

    /// `{ .. }`, or `<{ .. }>` where it is packed, for a value of the type.
    pub fn fields(
        alloc: Global,
        structs: &StructTable<'m, 's>,
        is_packed: bool,
        due: &Member<'m, 's>,
    ) -> Result<Found<InitialList<'m, 's>>, NoMemory>
        ensures list { IfOk result (λ found. found.value ≡ spec.struct_for structs.now is_packed due.now) }
        ensures cause { IfOk result (λ found. found.cause ≡ spec.struct_cause structs.now is_packed due.now) }
    {
        match fields_of(alloc, structs, is_packed, due.nodes)? {
            Some(members) => {
                let list = InitialList {
                    place: due.place,
                    is_array: false,
                    element: due.nodes,
                    size: 0,
                    count: members.len() as u64,
                    members,
                    next: 0,
                };
                Ok(Found {
                    value: list,
                    cause: None,
                })
            }
            None => Ok(Found {
                value: InitialList::new(alloc, due.place, due.nodes),
                cause: Some(Cause::TypeMismatch),
            }),
        }
    }

    /// What the next value is for, from where the list lies.
    fn part(&self) -> Option<Member<'m, 's>>
        ensures { result ≡ spec.part_of self.now }
    {
        if self.is_array {
            array_part(self.next, self.count, self.size, self.element)
        } else {
            member_in(self.members.as_slice(), self.next as usize)
        }
    }

    /// Takes the next value, of the type that is written: where it lies, and what is wrong with the type.
    pub fn take_part(&mut self, written: &[Node<'s>]) -> (u64, Option<Cause>)
        ensures place { result.0 ≡ spec.place_with self.old.place (spec.part_of self.old) }
        ensures cause { result.1 ≡ spec.part_cause written.now (spec.part_of self.old) }
        ensures behind { self.new ≡ spec.behind_part self.old }
    {
        let part = self.part();
        self.next = self.next.saturating_add(1);
        match part {
            Some(part) => (
                self.place.wrapping_add(part.place),
                unless(same_types(written, part.nodes), Cause::TypeMismatch),
            ),
            None => (self.place, Some(Cause::TypeMismatch)),
        }
    }

    /// What is wrong where the list ends: a value is due for each part.
    pub fn end_cause(&self) -> Option<Cause>
        ensures { result ≡ spec.end_cause self.now }
    {
        unless(self.next == self.count, Cause::TypeMismatch)
    }
}

fn array_part<'m, 's>(
    next: u64,
    count: u64,
    size: u64,
    element: &'m [Node<'s>],
) -> Option<Member<'m, 's>>
    ensures { result ≡ spec.array_part_at next count size element.now }
{
    if next < count {
        Some(Member {
            place: next.wrapping_mul(size),
            nodes: element,
        })
    } else {
        None
    }
}
