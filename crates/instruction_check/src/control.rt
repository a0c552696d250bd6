//! The instructions that end a block, and those that join blocks.

ghost use Rattle.std.specs.Prelude.{◌≡◌, ◌∷◌, IfOk, MatchOption};
ghost use Rattle.instruction_check.specs.Control as spec;

use crate::literals::{is_integer, literal_in};
use crate::operand::Typed;
use crate::phrases::{Phrase, kind_in, take_kind, take_pair};
use crate::roles::{same_result, unless_same};
use crate::scope::Scope;
use crate::values::CONDITION;
use ir_items::Phrases;
use ir_read::{Node, Terminal};
use ir_types::{Inst, Kind, List, Operand, Word};
use module_fault::{Cause, Found, lesser, unless};
use rc_base::NoMemory;
use std::alloc::Global;

fn is_name(phrase: &[Node<'_>]) -> bool
    ensures { result ≡ spec.is_name phrase.now }
{
    match phrase.first() {
        Some(node) => matches!(node.terminal, Terminal::Local),
        None => false,
    }
}

fn is_void(phrase: &[Node<'_>]) -> bool
    ensures { result ≡ spec.is_void phrase.now }
{
    match phrase.first() {
        Some(node) => matches!(node.terminal, Terminal::Void),
        None => false,
    }
}

impl<'s> Scope<'_, '_, 's> {
    /// `BLOCK`, or `i1 OPERAND, BLOCK, BLOCK`.
    pub fn branch(
        &self,
        alloc: Global,
        phrases: &mut Phrases<'_, 's>,
    ) -> Result<Found<Inst>, NoMemory>
        ensures { IfOk result (λ found. found ≡ spec.branch self.now phrases.old) }
    {
        match phrases.next() {
            Some(first) if is_name(first) => Ok(self.branch_to(first)),
            Some(first) => self.branch_if(alloc, kind_in(first), phrases),
            None => self.branch_if(alloc, Kind::Ptr, phrases),
        }
    }

    fn branch_to(&self, phrase: &[Node<'s>]) -> Found<Inst>
        ensures { result ≡ spec.branch_to self.now phrase.now }
    {
        let block = self.block(phrase);
        Found {
            value: Inst::Branch { block: block.value },
            cause: block.cause,
        }
    }

    fn branch_if(
        &self,
        alloc: Global,
        kind: Kind,
        phrases: &mut Phrases<'_, 's>,
    ) -> Result<Found<Inst>, NoMemory>
        ensures { IfOk result (λ found. found ≡ spec.branch_if self.now kind phrases.old) }
    {
        let c = self.take_operand(alloc, kind, phrases)?;
        let yes = self.take_block(phrases);
        let no = self.take_block(phrases);
        let fits = unless_same(kind, CONDITION);
        Ok(Found {
            value: Inst::BranchIf {
                c: c.value,
                yes: yes.value,
                no: no.value,
            },
            cause: lesser(fits, lesser(c.cause, lesser(yes.cause, no.cause))),
        })
    }

    /// `void`, or `TYPE OPERAND`, as the function gives it.
    pub fn ret(&self, alloc: Global, phrases: &mut Phrases<'_, 's>) -> Result<Found<Inst>, NoMemory>
        ensures { IfOk result (λ found. found ≡ spec.ret self.now phrases.old) }
    {
        match phrases.next() {
            Some(first) if is_void(first) => Ok(self.ret_void()),
            Some(first) => self.ret_value(alloc, kind_in(first), phrases),
            None => self.ret_value(alloc, Kind::Ptr, phrases),
        }
    }

    fn ret_void(&self) -> Found<Inst>
        ensures { result ≡ spec.ret_void self.now }
    {
        let body = self.body;
        Found {
            value: Inst::Ret { value: None },
            cause: unless(same_result(body.result, None), Cause::TypeMismatch),
        }
    }

    fn ret_value(
        &self,
        alloc: Global,
        kind: Kind,
        phrases: &mut Phrases<'_, 's>,
    ) -> Result<Found<Inst>, NoMemory>
        ensures { IfOk result (λ found. found ≡ spec.ret_value self.now kind phrases.old) }
    {
        let body = self.body;
        let given = self.take_operand(alloc, kind, phrases)?;
        let fits = same_result(body.result, Some(kind));
        Ok(Found {
            value: Inst::Ret {
                value: Some(given.value),
            },
            cause: lesser(unless(fits, Cause::TypeMismatch), given.cause),
        })
    }

    /// `TYPE OPERAND, label BLOCK` and the cases, of an integer type.
    pub fn switch(
        &self,
        alloc: Global,
        phrases: &mut Phrases<'_, 's>,
    ) -> Result<Found<Inst>, NoMemory>
        ensures { IfOk result (λ found. found ≡ spec.switch self.now phrases.old) }
    {
        let given = self.take_typed(alloc, phrases)?;
        let found = self.switch_on(alloc, given, phrases)?;
        Ok(found)
    }

    fn switch_on(
        &self,
        alloc: Global,
        given: Typed,
        phrases: &mut Phrases<'_, 's>,
    ) -> Result<Found<Inst>, NoMemory>
        ensures { IfOk result (λ found. found ≡ spec.switch_on self.now given phrases.old) }
    {
        let default = self.take_block(phrases);
        let cases = self.cases(alloc, given.kind, phrases)?;
        let fits = unless(is_integer(given.kind), Cause::TypeMismatch);
        let cause = lesser(fits, lesser(given.cause, default.cause));
        Ok(Found {
            value: Inst::Switch {
                value: given.value,
                default: default.value,
                cases: cases.value,
            },
            cause: lesser(cause, cases.cause),
        })
    }

    fn cases(
        &self,
        alloc: Global,
        kind: Kind,
        phrases: &mut Phrases<'_, 's>,
    ) -> Result<Found<List<(Word, u32)>>, NoMemory>
        ensures { IfOk result (λ found. found ≡ spec.cases_of self.now kind phrases.old) }
    {
        let mut cases = Vec::new(alloc);
        let mut cause = None;
        while let Some((written, literal, block)) = take_case(phrases) {
            let case = self.case_at(kind, written, literal, block);
            cases.push(case.value)?;
            cause = lesser(cause, case.cause);
        }
        Ok(Found {
            value: List { items: cases },
            cause,
        })
    }

    /// `TYPE LITERAL, label BLOCK`, of the type of what is switched on.
    fn case_at(
        &self,
        kind: Kind,
        written: &[Node<'s>],
        literal: &[Node<'s>],
        block: &[Node<'s>],
    ) -> Found<(Word, u32)>
        ensures { result ≡ spec.case_at self.now kind written.now literal.now block.now }
    {
        let written = kind_in(written);
        let constant = literal_in(written, literal);
        let block = self.block(block);
        let fits = unless_same(written, kind);
        Found {
            value: (constant.value, block.value),
            cause: lesser(fits, lesser(constant.cause, block.cause)),
        }
    }

    /// `TYPE EDGE, ..`.
    pub fn phi(
        &self,
        alloc: Global,
        to: u32,
        phrases: &mut Phrases<'_, 's>,
    ) -> Result<Found<Inst>, NoMemory>
        ensures { IfOk result (λ found. found ≡ spec.phi self.now to phrases.old) }
    {
        let kind = take_kind(phrases);
        let edges = self.edges(alloc, kind, phrases)?;
        Ok(Found {
            value: Inst::Phi {
                to,
                edges: edges.value,
            },
            cause: edges.cause,
        })
    }

    fn edges(
        &self,
        alloc: Global,
        kind: Kind,
        phrases: &mut Phrases<'_, 's>,
    ) -> Result<Found<List<(u32, Operand)>>, NoMemory>
        ensures { IfOk result (λ found. found ≡ spec.edges_of self.now kind phrases.old) }
    {
        let mut edges = Vec::new(alloc);
        let mut cause = None;
        while let Some((value, block)) = take_pair(phrases) {
            let edge = self.edge_at(alloc, kind, value, block)?;
            edges.push(edge.value)?;
            cause = lesser(cause, edge.cause);
        }
        Ok(Found {
            value: List { items: edges },
            cause,
        })
    }

    /// `OPERAND, BLOCK`.
    fn edge_at(
        &self,
        alloc: Global,
        kind: Kind,
        value: &[Node<'s>],
        block: &[Node<'s>],
    ) -> Result<Found<(u32, Operand)>, NoMemory>
        ensures { IfOk result (λ found. found ≡ spec.edge_at self.now kind value.now block.now) }
    {
        let given = self.operand(alloc, kind, value)?;
        let block = self.block(block);
        Ok(Found {
            value: (block.value, given.value),
            cause: lesser(given.cause, block.cause),
        })
    }
}

/// Takes off three phrases, where so many are left.
fn take_case<'m, 's>(
    phrases: &mut Phrases<'m, 's>,
) -> Option<(Phrase<'m, 's>, Phrase<'m, 's>, Phrase<'m, 's>)>
    ensures { MatchOption result (spec.HasNoCase phrases.old) (λ case. phrases.old ≡ case.0.now ∷ case.1.now ∷ case.2.now ∷ phrases.new) }
{
    let (first, second) = take_pair(phrases)?;
    let third = phrases.next()?;
    Some((first, second, third))
}
