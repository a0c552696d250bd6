//! The operands that phrases spell.

ghost use Rattle.std.specs.Prelude.{◌≡◌, IfOk};
ghost use Rattle.instruction_check.specs.Operand as spec;
ghost use Rattle.instruction_check.specs.Phrases.{behind, behind_two, first};

use crate::expressions::expression;
use crate::literals::{constant, constant_of};
use crate::phrases::take_kind;
use crate::roles::{block, register, unless_same};
use crate::scope::{BodyNames, Scope};
use ir_items::Phrases;
use ir_read::{Node, Terminal};
use ir_types::{Kind, Operand};
use module_fault::{Cause, Found, lesser};
use rc_base::NoMemory;
use std::alloc::Global;

/// An operand with the kind that is written before it.
#[derive(Debug, Drop)]
pub struct Typed {
    pub kind: Kind,
    pub value: Operand,
    pub cause: Option<Cause>,
}

/// An address, where a value of the kind is due.
pub fn pointer(kind: Kind, address: Found<u64>) -> Found<Operand>
    ensures { result ≡ spec.pointer kind address }
{
    Found {
        value: constant(Kind::Ptr, address.value),
        cause: lesser(address.cause, unless_same(Kind::Ptr, kind)),
    }
}

/// Where no phrase is left.
fn no_operand(kind: Kind) -> Found<Operand>
    ensures { result ≡ spec.no_operand kind }
{
    Found {
        value: constant(kind, 0),
        cause: Some(Cause::TypeMismatch),
    }
}

impl<'s> Scope<'_, '_, 's> {
    /// The operand of the kind that a phrase spells.
    pub fn operand(
        &self,
        alloc: Global,
        kind: Kind,
        phrase: &[Node<'s>],
    ) -> Result<Found<Operand>, NoMemory>
        ensures { IfOk result (λ found. found ≡ spec.operand self.now kind phrase.now) }
    {
        match phrase.first() {
            Some(node) => self.operand_by(alloc, node.terminal, kind, phrase),
            None => Ok(self.plain(kind, phrase)),
        }
    }

    fn operand_by(
        &self,
        alloc: Global,
        terminal: Terminal,
        kind: Kind,
        phrase: &[Node<'s>],
    ) -> Result<Found<Operand>, NoMemory>
        ensures { IfOk result (λ found. found ≡ spec.operand_by terminal self.now kind phrase.now) }
    {
        match terminal {
            Terminal::GetElementPtr | Terminal::IntToPtr => {
                let names = self.names;
                let structs = self.structs;
                let found = expression(alloc, names, structs, terminal, phrase)?;
                Ok(pointer(kind, found))
            }
            _ => Ok(self.plain(kind, phrase)),
        }
    }

    /// The same of one that is no constant expression.
    fn plain(&self, kind: Kind, phrase: &[Node<'s>]) -> Found<Operand>
        ensures { result ≡ spec.plain self.now kind phrase.now }
    {
        let Some(node) = phrase.first() else {
            return no_operand(kind);
        };
        match node.terminal {
            Terminal::Local => self.register(kind, node),
            Terminal::Global | Terminal::OddGlobal => self.global(kind, node),
            _ => constant_of(kind, node),
        }
    }

    fn register(&self, kind: Kind, node: &Node<'s>) -> Found<Operand>
        ensures { result ≡ spec.register_of self.now kind node.now }
    {
        let body = self.body;
        register(kind, body.role_of(node))
    }

    fn global(&self, kind: Kind, node: &Node<'s>) -> Found<Operand>
        ensures { result ≡ spec.global_of self.now kind node.now }
    {
        let names = self.names;
        pointer(kind, names.address(node))
    }

    /// Takes off an operand.
    pub fn take_operand(
        &self,
        alloc: Global,
        kind: Kind,
        phrases: &mut Phrases<'_, 's>,
    ) -> Result<Found<Operand>, NoMemory>
        ensures operand { IfOk result (λ found. found ≡ spec.operand self.now kind (first phrases.old)) }
        ensures rest { phrases.new ≡ behind phrases.old }
    {
        match phrases.next() {
            Some(phrase) => self.operand(alloc, kind, phrase),
            None => Ok(no_operand(kind)),
        }
    }

    /// Takes off a type and an operand of it.
    pub fn take_typed(
        &self,
        alloc: Global,
        phrases: &mut Phrases<'_, 's>,
    ) -> Result<Typed, NoMemory>
        ensures typed { IfOk result (λ found. found ≡ spec.typed self.now phrases.old) }
        ensures rest { phrases.new ≡ behind_two phrases.old }
    {
        let kind = take_kind(phrases);
        let found = self.take_operand(alloc, kind, phrases)?;
        Ok(Typed {
            kind,
            value: found.value,
            cause: found.cause,
        })
    }

    /// Takes off a block's name.
    pub fn take_block(&self, phrases: &mut Phrases<'_, 's>) -> Found<u32>
        ensures block { result ≡ spec.block_of self.now (first phrases.old) }
        ensures rest { phrases.new ≡ behind phrases.old }
    {
        match phrases.next() {
            Some(phrase) => self.block(phrase),
            None => block(None),
        }
    }

    /// The number of the block that a phrase names.
    pub fn block(&self, phrase: &[Node<'s>]) -> Found<u32>
        ensures { result ≡ spec.block_of self.now phrase.now }
    {
        let body = self.body;
        body.block_in(phrase)
    }
}
