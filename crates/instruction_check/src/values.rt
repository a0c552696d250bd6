//! The instructions that compute a value of others.

ghost use Rattle.std.specs.Prelude.{◌≡◌, IfOk};
ghost use Rattle.instruction_check.specs.Values as spec;

use crate::literals::is_integer;
use crate::operations::{Cast, can_cast, converted, predicate_of};
use crate::phrases::{take_kind, take_text};
use crate::roles::unless_same;
use crate::scope::Scope;
use ir_items::Phrases;
use ir_types::{BinOp, Inst, Kind, Width};
use module_fault::{Cause, Found, lesser, unless};
use rc_base::NoMemory;
use std::alloc::Global;

/// The kind of a condition.
pub const CONDITION: Kind = Kind::Int(Width::W1);

impl<'s> Scope<'_, '_, 's> {
    /// `TYPE OPERAND, OPERAND`, of an integer type.
    pub fn binary(
        &self,
        alloc: Global,
        to: u32,
        op: BinOp,
        phrases: &mut Phrases<'_, 's>,
    ) -> Result<Found<Inst>, NoMemory>
        ensures { IfOk result (λ found. found ≡ spec.binary self.now to op phrases.old) }
    {
        let kind = take_kind(phrases);
        let a = self.take_operand(alloc, kind, phrases)?;
        let b = self.take_operand(alloc, kind, phrases)?;
        let fits = unless(is_integer(kind), Cause::TypeMismatch);
        Ok(Found {
            value: Inst::Binary {
                to,
                op,
                a: a.value,
                b: b.value,
            },
            cause: lesser(fits, lesser(a.cause, b.cause)),
        })
    }

    /// `PREDICATE TYPE OPERAND, OPERAND`.
    pub fn compare(
        &self,
        alloc: Global,
        to: u32,
        phrases: &mut Phrases<'_, 's>,
    ) -> Result<Found<Inst>, NoMemory>
        ensures { IfOk result (λ found. found ≡ spec.compare self.now to phrases.old) }
    {
        let op = predicate_of(take_text(phrases));
        let kind = take_kind(phrases);
        let a = self.take_operand(alloc, kind, phrases)?;
        let b = self.take_operand(alloc, kind, phrases)?;
        Ok(Found {
            value: Inst::Compare {
                to,
                op,
                a: a.value,
                b: b.value,
            },
            cause: lesser(a.cause, b.cause),
        })
    }

    /// `TYPE OPERAND to TYPE`.
    pub fn convert(
        &self,
        alloc: Global,
        to: u32,
        cast: Cast,
        phrases: &mut Phrases<'_, 's>,
    ) -> Result<Found<Inst>, NoMemory>
        ensures { IfOk result (λ found. found ≡ spec.convert self.now to cast phrases.old) }
    {
        let from = take_kind(phrases);
        let a = self.take_operand(alloc, from, phrases)?;
        let into = take_kind(phrases);
        let fits = unless(can_cast(cast, from, into), Cause::TypeMismatch);
        Ok(Found {
            value: converted(to, cast, a.value, from.width(), into.width()),
            cause: lesser(fits, a.cause),
        })
    }

    /// `i1 OPERAND, TYPE OPERAND, TYPE OPERAND`, of one type twice.
    pub fn select(
        &self,
        alloc: Global,
        to: u32,
        phrases: &mut Phrases<'_, 's>,
    ) -> Result<Found<Inst>, NoMemory>
        ensures { IfOk result (λ found. found ≡ spec.select self.now to phrases.old) }
    {
        let c = self.take_typed(alloc, phrases)?;
        let a = self.take_typed(alloc, phrases)?;
        let b = self.take_typed(alloc, phrases)?;
        let fits = lesser(unless_same(c.kind, CONDITION), unless_same(b.kind, a.kind));
        Ok(Found {
            value: Inst::Select {
                to,
                c: c.value,
                a: a.value,
                b: b.value,
            },
            cause: lesser(fits, lesser(c.cause, lesser(a.cause, b.cause))),
        })
    }
}
