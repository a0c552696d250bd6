//! The names of a body's arguments, blocks and registers, and what they stand for.

ghost use Rattle.std.specs.Prelude.{◌≡◌, IfOk, OnOk, option_map};
ghost use Rattle.module_check.specs.BodyNames as spec;

use crate::callee::is_output;
use crate::item_names::numbered;
use crate::signature::result_kind;
use instruction_check::{BodyNames, LocalRole, ModuleNames, kind_of, result_of};
use ir_items::{Item, Parameters, Statement, Statements};
use ir_names::{Given, LocalName, LocalTable};
use ir_read::Node;
use ir_types::{Kind, List};
use module_fault::{Cause, First};
use rc_base::NoMemory;
use std::alloc::Global;

/// The `%` names of a body, which arguments, blocks and registers share, beside the first fault of theirs.
///
/// Each argument and each instruction that gives a value has the next register, and each label the next block, in the
/// order of the text, also where its name is a second one. A body that begins with no label has a first block without a
/// name. A second definition of a name is a fault, and the first counts in all that follows.
#[derive(Drop)]
pub struct NamedBody<'s> {
    pub names: BodyNames<'s>,
    /// The kind of each register.
    pub registers: List<Kind>,
    /// How many blocks there are.
    pub blocks: usize,
    pub first: First,
}

/// The names of a defined function's body.
pub fn name_body<'s>(
    alloc: Global,
    names: &ModuleNames<'s>,
    item: &Item<'_, 's>,
) -> Result<NamedBody<'s>, NoMemory>
    ensures { IfOk result (λ found. found ≡ spec.names_of names.now item.now) }
{
    let first = item.first;
    let body = item.body();
    let mut named = NamedBody::new(alloc, result_kind(item.result_type()));
    named.add_parameters(first.line, &mut item.parameters())?;
    named.add_first_block(first.line, body)?;
    named.add_statements(names, &mut Statements::new(body))?;
    Ok(named)
}

/// Whether a body's first block has a label.
pub fn begins_with_label(body: &[Node<'_>]) -> bool
    ensures { result ≡ spec.begins_with_label body.now }
{
    match Statements::new(body).next() {
        Some(statement) => statement.is_label(),
        None => false,
    }
}

impl<'s> NamedBody<'s> {
    fn new(alloc: Global, gives: Option<Kind>) -> NamedBody<'s>
        ensures { result ≡ spec.no_names gives }
    {
        NamedBody {
            names: BodyNames {
                table: LocalTable::new(alloc),
                roles: List::new(alloc),
                result: gives,
            },
            registers: List::new(alloc),
            blocks: 0,
            first: First::new(),
        }
    }

    fn add_parameters(
        &mut self,
        line: u32,
        parameters: &mut Parameters<'_, 's>,
    ) -> Result<(), NoMemory>
        ensures { OnOk result (self.new ≡ spec.with_parameters line self.old parameters.old) }
    {
        while let Some(parameter) = parameters.next() {
            let value_type = parameter.value_type;
            self.add_register(line, parameter.name, kind_of(value_type), false)?;
        }
        Ok(())
    }

    fn add_first_block(&mut self, line: u32, body: &[Node<'s>]) -> Result<(), NoMemory>
        ensures { OnOk result (self.new ≡ spec.with_first_block line self.old body.now) }
    {
        if begins_with_label(body) {
            Ok(())
        } else {
            self.add_block(line, None)
        }
    }

    fn add_statements(
        &mut self,
        names: &ModuleNames<'s>,
        statements: &mut Statements<'_, 's>,
    ) -> Result<(), NoMemory>
        ensures { OnOk result (self.new ≡ spec.with_statements names.now self.old statements.old) }
    {
        while let Some(statement) = statements.next() {
            self.add_statement(names, &statement)?;
        }
        Ok(())
    }

    fn add_statement(
        &mut self,
        names: &ModuleNames<'s>,
        statement: &Statement<'_, 's>,
    ) -> Result<(), NoMemory>
        ensures { OnOk result (self.new ≡ spec.with_statement names.now self.old statement.now) }
    {
        if statement.is_label() {
            self.add_block(statement.line, Some(statement.operation))
        } else {
            self.add_instruction(names, statement)
        }
    }

    fn add_instruction(
        &mut self,
        names: &ModuleNames<'s>,
        statement: &Statement<'_, 's>,
    ) -> Result<(), NoMemory>
        ensures { OnOk result (self.new ≡ spec.with_instruction names.now self.old statement.now) }
    {
        match result_of(statement) {
            Some(kind) => self.add_register(
                statement.line,
                statement.result,
                kind,
                is_output(names, statement),
            ),
            None => self.add_void(statement.line, statement.result),
        }
    }

    fn add_void(&mut self, line: u32, name: Option<&Node<'s>>) -> Result<(), NoMemory>
        ensures { OnOk result (self.new ≡ spec.with_void line self.old (option_map (λ node. node.now) name.entry)) }
    {
        match name {
            Some(node) => self.add_name(line, Some(node), LocalRole::Void),
            None => Ok(()),
        }
    }

    fn add_register(
        &mut self,
        line: u32,
        name: Option<&Node<'s>>,
        kind: Kind,
        is_output: bool,
    ) -> Result<(), NoMemory>
        ensures { OnOk result (self.new ≡ spec.with_register line self.old (option_map (λ node. node.now) name.entry) kind is_output) }
    {
        let number = numbered(self.registers.len());
        let role = LocalRole::Register {
            number,
            kind,
            is_output,
        };
        self.add_name(line, name, role)?;
        self.registers.items.push(kind)?;
        Ok(())
    }

    fn add_block(&mut self, line: u32, name: Option<&Node<'s>>) -> Result<(), NoMemory>
        ensures { OnOk result (self.new ≡ spec.with_block line self.old (option_map (λ node. node.now) name.entry)) }
    {
        let number = numbered(self.blocks);
        self.add_name(line, name, LocalRole::Block(number))?;
        self.blocks = self.blocks.saturating_add(1);
        Ok(())
    }

    /// Defines the name of the node, or the number to which the count has come.
    fn add_name(
        &mut self,
        line: u32,
        name: Option<&Node<'s>>,
        role: LocalRole,
    ) -> Result<(), NoMemory>
        ensures { OnOk result (self.new ≡ spec.with_name line self.old (option_map (λ node. node.now) name.entry) role) }
    {
        let given = self.names.table.define(local_name(name))?;
        self.first.note(line, cause_of(given));
        match given {
            Given::Duplicate => Ok(()),
            Given::Fresh | Given::Below => {
                self.names.roles.items.push(role)?;
                Ok(())
            }
        }
    }
}

fn local_name<'s>(name: Option<&Node<'s>>) -> Option<LocalName<'s>>
    ensures { result ≡ spec.local_name (option_map (λ node. node.now) name.entry) }
{
    match name {
        Some(node) => Some(LocalName::of(node)),
        None => None,
    }
}

fn cause_of(given: Given) -> Option<Cause>
    ensures { result ≡ spec.cause_of given }
{
    match given {
        Given::Fresh => None,
        Given::Duplicate => Some(Cause::Duplicate),
        Given::Below => Some(Cause::BadShape),
    }
}
