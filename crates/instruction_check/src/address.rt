//! The instructions that make addresses.

ghost use Rattle.std.specs.Prelude.{◌≡◌, IfOk};
ghost use Rattle.address_path.specs.Path.{size_of as size_by};
ghost use Rattle.instruction_check.specs.Address as spec;
ghost use Rattle.instruction_check.specs.Phrases.{behind, first};
ghost use Rattle.ir_layout.specs.declared.extent.Overflow.TheVariants.{Saturating};

use crate::literals::{constant, is_integer};
use crate::operand::Typed;
use crate::phrases::{kind_in, take_pair};
use crate::roles::unless_same;
use crate::scope::Scope;
use address_path::{Index, Path, path_of, size_of};
use ir_items::Phrases;
use ir_layout::Overflow;
use ir_read::Node;
use ir_types::{Inst, Kind, List, Operand, Width};
use module_fault::{Cause, Found, lesser, unless};
use rc_base::NoMemory;
use std::alloc::Global;

impl<'s> Scope<'_, '_, 's> {
    /// `TYPE`, or `TYPE, iN OPERAND`.
    pub fn alloca(
        &self,
        alloc: Global,
        to: u32,
        phrases: &mut Phrases<'_, 's>,
    ) -> Result<Found<Inst>, NoMemory>
        ensures { IfOk result (λ found. found ≡ spec.alloca self.now to phrases.old) }
    {
        let unit = self.take_size(alloc, phrases)?;
        let count = self.take_count(alloc, phrases)?;
        Ok(Found {
            value: Inst::Alloca {
                to,
                unit,
                count: count.value,
            },
            cause: count.cause,
        })
    }

    /// Takes off a type, and tells how many bytes it takes.
    fn take_size(&self, alloc: Global, phrases: &mut Phrases<'_, 's>) -> Result<u64, NoMemory>
        ensures size { IfOk result (λ size. size ≡ size_by self.now.structs Saturating (first phrases.old)) }
        ensures rest { phrases.new ≡ behind phrases.old }
    {
        match phrases.next() {
            Some(nodes) => self.size(alloc, nodes),
            None => self.size(alloc, &[]),
        }
    }

    fn size(&self, alloc: Global, nodes: &[Node<'_>]) -> Result<u64, NoMemory>
        ensures { IfOk result (λ size. size ≡ size_by self.now.structs Saturating nodes.now) }
    {
        let structs = self.structs;
        let size = size_of(alloc, Overflow::Saturating, structs, nodes)?;
        Ok(size)
    }

    /// How many there are to be: one, where no count is written.
    fn take_count(
        &self,
        alloc: Global,
        phrases: &mut Phrases<'_, 's>,
    ) -> Result<Found<Operand>, NoMemory>
        ensures { IfOk result (λ found. found ≡ spec.count_of self.now phrases.old) }
    {
        match phrases.next() {
            Some(written) => {
                let kind = kind_in(written);
                let found = self.take_operand(alloc, kind, phrases)?;
                Ok(Found {
                    value: found.value,
                    cause: lesser(unless(is_integer(kind), Cause::TypeMismatch), found.cause),
                })
            }
            None => Ok(Found {
                value: constant(Kind::Int(Width::W32), 1),
                cause: None,
            }),
        }
    }

    /// `TYPE, ptr OPERAND, iN OPERAND, ..`.
    pub fn element(
        &self,
        alloc: Global,
        to: u32,
        phrases: &mut Phrases<'_, 's>,
    ) -> Result<Found<Inst>, NoMemory>
        ensures { IfOk result (λ found. found ≡ spec.element self.now to phrases.old) }
    {
        match phrases.next() {
            Some(nodes) => self.element_in(alloc, to, nodes, phrases),
            None => self.element_in(alloc, to, &[], phrases),
        }
    }

    fn element_in<'m>(
        &self,
        alloc: Global,
        to: u32,
        nodes: &'m [Node<'s>],
        phrases: &mut Phrases<'m, 's>,
    ) -> Result<Found<Inst>, NoMemory>
        ensures { IfOk result (λ found. found ≡ spec.element_in self.now to nodes.now phrases.old) }
    {
        let structs = self.structs;
        let base = self.take_typed(alloc, phrases)?;
        let indices = self.indices(alloc, phrases)?;
        let path = path_of(alloc, structs, nodes, &indices.items)?;
        Ok(address_by(to, base, path))
    }

    fn indices(&self, alloc: Global, phrases: &mut Phrases<'_, 's>) -> Result<List<Index>, NoMemory>
        ensures { IfOk result (λ found. found ≡ spec.indices_of self.now phrases.old) }
    {
        let mut indices = Vec::new(alloc);
        while let Some((written, phrase)) = take_pair(phrases) {
            let index = self.index_at(alloc, written, phrase)?;
            indices.push(index)?;
        }
        Ok(List { items: indices })
    }

    fn index_at(
        &self,
        alloc: Global,
        written: &[Node<'s>],
        phrase: &[Node<'s>],
    ) -> Result<Index, NoMemory>
        ensures { IfOk result (λ index. index ≡ spec.index_at self.now written.now phrase.now) }
    {
        let kind = kind_in(written);
        let found = self.operand(alloc, kind, phrase)?;
        Ok(Index {
            kind,
            value: found.value,
            cause: found.cause,
        })
    }
}

/// So far from an operand.
fn address_by(to: u32, base: Typed, path: Path<'_, '_>) -> Found<Inst>
    ensures { result ≡ spec.address_by to base path.entry }
{
    let cause = lesser(base.cause, path.cause);
    Found {
        value: Inst::Address {
            to,
            base: base.value,
            fixed: path.fixed,
            scaled: path.scaled,
        },
        cause: lesser(unless_same(base.kind, Kind::Ptr), cause),
    }
}
