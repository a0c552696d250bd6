//! The way, an index after another.

ghost use Rattle.std.specs.Prelude.{◌≡◌, IfOk, OnOk};
ghost use Rattle.address_path.specs.Path as spec;

use crate::fields::{field_at, size_of};
use crate::index::{Index, extended, moved};
use ir_layout::Overflow;
use ir_read::{Node, RawType, TypeForm};
use ir_types::{List, Operand, Word};
use module_fault::{Cause, lesser};
use rc_base::NoMemory;
use std::alloc::Global;
use std::marker::Model;
use struct_table::{Member, StructTable};

/// How far indices lead from an address, and to which type.
#[derive(Drop)]
pub struct Path<'m, 's> {
    /// How many bytes literals count, modulo 2^64.
    pub fixed: u64,
    /// The indices that are registers, in order, each with the bytes that it counts in, modulo 2^64.
    pub scaled: List<(Operand, u64)>,
    /// The nodes of the type to which it has come.
    pub place: &'m [Node<'s>],
    pub cause: Option<Cause>,
}

impl<'m, 's> Model for Path<'m, 's> {
    ghost use Rattle.address_path.specs.Path.{Path as State};

    ghost Value = { State };

    ghost view = { λ path. record { fixed = path.fixed; scaled = path.scaled; place = path.place.now; cause = path.cause } };
}

/// The way that the indices take from an address where a type of the nodes begins.
pub fn path_of<'m, 's>(
    alloc: Global,
    structs: &'m StructTable<'m, 's>,
    nodes: &'m [Node<'s>],
    indices: &[Index],
) -> Result<Path<'m, 's>, NoMemory>
    ensures { IfOk result (λ path. path ≡ spec.path_of structs.now nodes.now indices.now) }
{
    let mut path = Path::begun(alloc, nodes);
    let Some((first, further)) = indices.split_first() else {
        return Ok(path);
    };
    path.begin_by(alloc, structs, first)?;
    path.go_all(alloc, structs, further)?;
    Ok(path)
}

impl<'m, 's> Path<'m, 's> {
    /// At an address, where a type of the nodes begins.
    fn begun(alloc: Global, nodes: &'m [Node<'s>]) -> Path<'m, 's>
        ensures { result ≡ spec.begun nodes.now }
    {
        Path {
            fixed: 0,
            scaled: List::new(alloc),
            place: nodes,
            cause: None,
        }
    }

    /// Goes by the first index, which counts whole types.
    fn begin_by(
        &mut self,
        alloc: Global,
        structs: &'m StructTable<'m, 's>,
        index: &Index,
    ) -> Result<(), NoMemory>
        ensures { OnOk result (self.new ≡ spec.begun_by structs.now index.now self.old) }
    {
        let unit = size_of(alloc, Overflow::Wrapping, structs, self.place)?;
        self.count(unit, index.value)?;
        self.note(index.fault());
        Ok(())
    }

    /// Goes by all of the indices, each of which leads into the type.
    fn go_all(
        &mut self,
        alloc: Global,
        structs: &'m StructTable<'m, 's>,
        indices: &[Index],
    ) -> Result<(), NoMemory>
        ensures { OnOk result (self.new ≡ spec.path_from structs.now self.old indices.now) }
    {
        for index in indices {
            self.go_by(alloc, structs, index)?;
        }
        Ok(())
    }

    fn go_by(
        &mut self,
        alloc: Global,
        structs: &'m StructTable<'m, 's>,
        index: &Index,
    ) -> Result<(), NoMemory>
        ensures { OnOk result (self.new ≡ spec.gone_by structs.now index.now self.old) }
    {
        self.go_into(alloc, structs, index.value)?;
        self.note(index.fault());
        Ok(())
    }

    fn go_into(
        &mut self,
        alloc: Global,
        structs: &'m StructTable<'m, 's>,
        index: Operand,
    ) -> Result<(), NoMemory>
        ensures { OnOk result (self.new ≡ spec.into structs.now index self.old) }
    {
        let (front, _) = RawType::split(self.place);
        match front.form() {
            TypeForm::Array { .. } => {
                let element = front.element();
                self.go_to_element(alloc, structs, element.nodes(), index)
            }
            _ => self.choose(alloc, structs, index),
        }
    }

    fn go_to_element(
        &mut self,
        alloc: Global,
        structs: &'m StructTable<'m, 's>,
        nodes: &'m [Node<'s>],
        index: Operand,
    ) -> Result<(), NoMemory>
        ensures { OnOk result (self.new ≡ spec.element structs.now nodes.now index self.old) }
    {
        let unit = size_of(alloc, Overflow::Wrapping, structs, nodes)?;
        self.count(unit, index)?;
        self.turn_to(nodes);
        Ok(())
    }

    /// Goes to the field of the number.
    fn choose(
        &mut self,
        alloc: Global,
        structs: &'m StructTable<'m, 's>,
        index: Operand,
    ) -> Result<(), NoMemory>
        ensures { OnOk result (self.new ≡ spec.chosen (spec.fields_of structs.now self.old.place) index self.old) }
    {
        match index {
            Operand::Constant(word) => {
                let field = field_at(alloc, structs, self.place, extended(word))?;
                self.enter(field);
                Ok(())
            }
            Operand::Register(_) => {
                self.refuse();
                Ok(())
            }
        }
    }

    fn enter(&mut self, field: Option<Member<'m, 's>>)
        ensures { self.new ≡ spec.entered field.entry self.old }
    {
        match field {
            Some(member) => {
                self.fixed = moved(self.fixed, 1, member.place);
                self.turn_to(member.nodes);
            }
            None => self.refuse(),
        }
    }

    fn turn_to(&mut self, nodes: &'m [Node<'s>])
        ensures { self.new ≡ spec.at_type nodes.now self.old }
    {
        self.place = nodes;
    }

    /// So many units more.
    fn count(&mut self, unit: u64, index: Operand) -> Result<(), NoMemory>
        ensures { OnOk result (self.new ≡ spec.counted unit index self.old) }
    {
        match index {
            Operand::Constant(word) => self.move_by(word, unit),
            Operand::Register(_) => self.scaled.items.push((index, unit))?,
        }
        Ok(())
    }

    fn move_by(&mut self, word: Word, unit: u64)
        ensures { self.new ≡ spec.counted_by_literal unit word self.old }
    {
        self.fixed = moved(self.fixed, extended(word), unit);
    }

    fn refuse(&mut self)
        ensures { self.new ≡ spec.refused self.old }
    {
        self.note(Some(Cause::TypeMismatch));
    }

    fn note(&mut self, cause: Option<Cause>)
        ensures { self.new ≡ spec.with_cause cause self.old }
    {
        self.cause = lesser(self.cause, cause);
    }
}
