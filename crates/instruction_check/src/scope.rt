//! Where the names of an instruction lead.

ghost use Rattle.std.specs.Prelude.{◌≡◌};
ghost use Rattle.instruction_check.specs.Phrases.{behind, first};
ghost use Rattle.instruction_check.specs.Scope as spec;

use crate::roles::{GlobalRole, LocalRole, block, global};
use external_calls::Parameter;
use ir_items::Phrases;
use ir_names::{LocalName, LocalTable, NameTable};
use ir_read::Node;
use ir_types::{Kind, List};
use module_fault::{Cause, Found};
use std::marker::Model;
use struct_table::StructTable;

/// What a function takes and gives.
#[derive(Debug, Drop)]
pub struct Signature {
    pub parameters: List<Parameter>,
    pub result: Option<Kind>,
}

/// The text of a string, of which contracts see the bytes.
#[derive(Drop)]
pub struct StringText<'s> {
    pub text: &'s [u8],
}

impl<'s> Model for StringText<'s> {
    ghost use Rattle.std.specs.Prelude.{ℕ, List};

    ghost Value = { List ℕ };

    ghost view = { λ string. string.text.now };
}

/// The `@` names of a module, and what they stand for.
#[derive(Drop)]
pub struct ModuleNames<'s> {
    pub table: NameTable<'s>,
    /// By the number of the name.
    pub roles: List<GlobalRole>,
    /// By the number of the global: the address of its first byte.
    pub addresses: List<u64>,
    /// By the number of the global: the text of the string that it holds, where it is a constant that holds one, and else
    /// nothing.
    pub strings: List<StringText<'s>>,
    /// By the number of the function.
    pub signatures: List<Signature>,
}

/// The `%` names of a body, and what they stand for.
#[derive(Drop)]
pub struct BodyNames<'s> {
    pub table: LocalTable<'s>,
    /// By the number of the name.
    pub roles: List<LocalRole>,
    /// What the function gives.
    pub result: Option<Kind>,
}

impl ModuleNames<'_> {
    /// What the `@` name of a node stands for.
    pub fn role_of(&self, node: &Node<'_>) -> Option<GlobalRole>
        ensures { result ≡ spec.global_role self.now node.now }
    {
        let number = self.table.number(node.name())?;
        self.roles.items.get(number).copied()
    }

    /// The address of the global that a node names.
    pub fn address(&self, node: &Node<'_>) -> Found<u64>
        ensures { result ≡ spec.address self.now node.now }
    {
        let found = global(self.role_of(node));
        Found {
            value: self.address_of(found.value),
            cause: found.cause,
        }
    }

    /// Takes off the name of a global, and tells its address.
    pub fn take_address(&self, phrases: &mut Phrases<'_, '_>) -> Found<u64>
        ensures address { result ≡ spec.address_in self.now (first phrases.old) }
        ensures rest { phrases.new ≡ behind phrases.old }
    {
        match phrases.next() {
            Some(phrase) => self.address_in(phrase),
            None => no_address(),
        }
    }

    /// The address of the global that a phrase names.
    fn address_in(&self, phrase: &[Node<'_>]) -> Found<u64>
        ensures { result ≡ spec.address_in self.now phrase.now }
    {
        match phrase.first() {
            Some(node) => self.address(node),
            None => no_address(),
        }
    }

    fn address_of(&self, number: u32) -> u64
        ensures { result ≡ spec.address_of self.now number }
    {
        self.addresses
            .items
            .get(number as usize)
            .copied()
            .unwrap_or(0)
    }
}

fn no_address() -> Found<u64>
    ensures { result ≡ spec.no_address }
{
    Found {
        value: 0,
        cause: Some(Cause::UnknownName),
    }
}

impl<'s> BodyNames<'s> {
    /// What the `%` name of a node stands for.
    pub fn role_of(&self, node: &Node<'s>) -> Option<LocalRole>
        ensures { result ≡ spec.local_role self.now node.now }
    {
        let number = self.table.number(&LocalName::of(node))?;
        self.roles.items.get(number).copied()
    }

    /// The number of the block that a phrase names.
    pub fn block_in(&self, phrase: &[Node<'s>]) -> Found<u32>
        ensures { result ≡ spec.block_in self.now phrase.now }
    {
        match phrase.first() {
            Some(node) => block(self.role_of(node)),
            None => block(None),
        }
    }
}

/// Where an instruction stands.
#[derive(Drop)]
pub struct Scope<'b, 'm, 's> {
    pub names: &'b ModuleNames<'s>,
    pub body: &'b BodyNames<'s>,
    pub structs: &'b StructTable<'m, 's>,
}

impl<'b, 'm, 's> Model for Scope<'b, 'm, 's> {
    ghost use Rattle.instruction_check.specs.Scope.{Scope as Value_};

    ghost Value = { Value_ };

    ghost view = { λ scope. record { names = scope.names.now; body = scope.body.now; structs = scope.structs.now } };
}
