//! The blocks of a body, with their instructions.

ghost use Rattle.std.specs.Prelude.{◌≡◌, IfOk, OnOk};
ghost use Rattle.module_build.specs.Body as spec;

use crate::instruction::instruction;
use instruction_check::{Scope, result_of};
use ir_items::{Statement, Statements};
use ir_read::Node;
use ir_types::{Block, Inst, Kind, List};
use module_check::{begins_with_label, numbered};
use module_fault::{First, Found, lesser};
use rc_base::NoMemory;
use std::alloc::Global;
use std::mem;

/// The blocks of a body so far, beside the first fault of their instructions.
#[derive(Drop)]
pub struct BuiltBody {
    /// Those before the open one.
    pub blocks: List<Block>,
    /// Whether a block is open.
    pub is_open: bool,
    /// How many instructions there are before it.
    pub start: usize,
    /// Its instructions.
    pub insts: List<Inst>,
    /// How many registers are set.
    pub registers: usize,
    pub first: First,
}

/// The blocks of a body whose function takes so many arguments, which are its first registers.
pub fn build<'m, 's>(
    alloc: Global,
    scope: &Scope<'_, 'm, 's>,
    arguments: usize,
    body: &'m [Node<'s>],
) -> Result<BuiltBody, NoMemory>
    ensures { IfOk result (λ found. found ≡ spec.built scope.now arguments body.now) }
{
    let mut built = BuiltBody::new(alloc, begins_with_label(body), arguments);
    built.add_all(alloc, scope, &mut Statements::new(body))?;
    Ok(built)
}

impl BuiltBody {
    fn new(alloc: Global, is_labelled: bool, arguments: usize) -> BuiltBody
        ensures { result ≡ spec.none_built is_labelled arguments }
    {
        BuiltBody {
            blocks: List::new(alloc),
            is_open: !is_labelled,
            start: 0,
            insts: List::new(alloc),
            registers: arguments,
            first: First::new(),
        }
    }

    fn add_all<'m, 's>(
        &mut self,
        alloc: Global,
        scope: &Scope<'_, 'm, 's>,
        statements: &mut Statements<'m, 's>,
    ) -> Result<(), NoMemory>
        ensures { OnOk result (self.new ≡ spec.built_from scope.now self.old statements.old) }
    {
        while let Some(statement) = statements.next() {
            self.add(alloc, scope, &statement)?;
        }
        Ok(())
    }

    fn add<'m, 's>(
        &mut self,
        alloc: Global,
        scope: &Scope<'_, 'm, 's>,
        statement: &Statement<'m, 's>,
    ) -> Result<(), NoMemory>
        ensures { OnOk result (self.new ≡ spec.with_statement scope.now self.old statement.now) }
    {
        if statement.is_label() {
            self.add_label(alloc)
        } else {
            let found = instruction(alloc, scope, numbered(self.registers), statement)?;
            self.add_found(scope, statement, found)
        }
    }

    /// A label ends the block before it, and opens one.
    fn add_label(&mut self, alloc: Global) -> Result<(), NoMemory>
        ensures { OnOk result (self.new ≡ spec.with_label self.old) }
    {
        let end = self.start.saturating_add(self.insts.len());
        let insts = mem::replace(&mut self.insts, List::new(alloc));
        if self.is_open {
            self.blocks.items.push(block(self.start, insts))?;
        }
        self.start = end;
        self.is_open = true;
        Ok(())
    }

    /// All blocks, the open one with them.
    pub fn into_blocks(self) -> Result<List<Block>, NoMemory>
        ensures { IfOk result (λ blocks. blocks ≡ spec.blocks_with self) }
    {
        let mut blocks = self.blocks;
        if self.is_open {
            blocks.items.push(block(self.start, self.insts))?;
        }
        Ok(blocks)
    }

    fn add_found<'m, 's>(
        &mut self,
        scope: &Scope<'_, 'm, 's>,
        statement: &Statement<'m, 's>,
        found: Found<Inst>,
    ) -> Result<(), NoMemory>
        ensures { OnOk result (self.new ≡ spec.with_found scope.now self.old statement.now found) }
    {
        let structs = scope.structs;
        let unknown = structs.unknown_in(statement.operands);
        self.first
            .note(statement.line, lesser(unknown, found.cause));
        self.insts.items.push(found.value)?;
        self.registers = registers_with(self.registers, result_of(statement));
        Ok(())
    }
}

fn block(start: usize, insts: List<Inst>) -> Block
    ensures { result ≡ spec.block start insts }
{
    Block {
        first: numbered(start),
        insts,
    }
}

/// What gives a value sets the next register.
fn registers_with(registers: usize, kind: Option<Kind>) -> usize
    ensures { result ≡ spec.registers_with registers kind }
{
    match kind {
        Some(_) => registers.saturating_add(1),
        None => registers,
    }
}
