//! The instructions that read and write memory at a pointer.

ghost use Rattle.std.specs.Prelude.{◌≡◌, IfOk};
ghost use Rattle.instruction_check.specs.Memory as spec;

use crate::phrases::take_kind;
use crate::roles::unless_same;
use crate::scope::Scope;
use ir_items::Phrases;
use ir_types::{Inst, Kind};
use module_fault::{Found, lesser};
use rc_base::NoMemory;
use std::alloc::Global;

impl<'s> Scope<'_, '_, 's> {
    /// `TYPE, ptr OPERAND`.
    pub fn load(
        &self,
        alloc: Global,
        to: u32,
        phrases: &mut Phrases<'_, 's>,
    ) -> Result<Found<Inst>, NoMemory>
        ensures { IfOk result (λ found. found ≡ spec.load self.now to phrases.old) }
    {
        let kind = take_kind(phrases);
        let at = self.take_typed(alloc, phrases)?;
        Ok(Found {
            value: Inst::Load {
                to,
                kind,
                at: at.value,
            },
            cause: lesser(unless_same(at.kind, Kind::Ptr), at.cause),
        })
    }

    /// `TYPE OPERAND, ptr OPERAND`.
    pub fn store(
        &self,
        alloc: Global,
        phrases: &mut Phrases<'_, 's>,
    ) -> Result<Found<Inst>, NoMemory>
        ensures { IfOk result (λ found. found ≡ spec.store self.now phrases.old) }
    {
        let value = self.take_typed(alloc, phrases)?;
        let at = self.take_typed(alloc, phrases)?;
        let fits = unless_same(at.kind, Kind::Ptr);
        Ok(Found {
            value: Inst::Store {
                kind: value.kind,
                value: value.value,
                at: at.value,
            },
            cause: lesser(fits, lesser(value.cause, at.cause)),
        })
    }
}
