//! The blocks from which a block is reached.

ghost use Rattle.std.specs.Prelude.{◌≡◌, IfOk, OnOk};
ghost use Rattle.module_check.specs.Predecessors as spec;

use crate::block_place::BlockPlace;
use crate::body_names::begins_with_label;
use instruction_check::{BodyNames, LocalRole};
use ir_items::{Statement, Statements};
use ir_read::{Node, Rule, Terminal};
use ir_types::List;
use rc_base::NoMemory;
use std::alloc::Global;

/// Where the blocks of a body lead, so far.
#[derive(Drop)]
pub struct Flow {
    /// By the number of the block: those from which it is reached.
    predecessors: List<List<u32>>,
    place: BlockPlace,
    /// Where the last instruction of the open block leads.
    targets: List<u32>,
}

/// For each of so many blocks of a body, the blocks whose last instruction leads to it, each once, in the order of the text.
pub fn predecessors_of<'s>(
    alloc: Global,
    names: &BodyNames<'s>,
    blocks: usize,
    body: &[Node<'s>],
) -> Result<List<List<u32>>, NoMemory>
    ensures { IfOk result (λ found. found ≡ spec.predecessors_of names.now blocks body.now) }
{
    let mut flow = Flow {
        predecessors: no_predecessors(alloc, blocks)?,
        place: BlockPlace::new(begins_with_label(body)),
        targets: List::new(alloc),
    };
    flow.add_all(alloc, names, &mut Statements::new(body))?;
    flow.close()?;
    Ok(flow.predecessors)
}

#[tactic(auto, using(crate::proofs::Edges::one_more))]
fn no_predecessors(alloc: Global, blocks: usize) -> Result<List<List<u32>>, NoMemory>
    ensures { IfOk result (λ found. found ≡ spec.no_predecessors blocks) }
{
    let mut lists = Vec::new(alloc);
    for _block in 0..blocks {
        lists.push(List::new(alloc))?;
    }
    Ok(List { items: lists })
}

impl Flow {
    fn add_all<'s>(
        &mut self,
        alloc: Global,
        names: &BodyNames<'s>,
        statements: &mut Statements<'_, 's>,
    ) -> Result<(), NoMemory>
        ensures { OnOk result (self.new ≡ spec.flow_from names.now self.old statements.old) }
    {
        while let Some(statement) = statements.next() {
            self.add(alloc, names, &statement)?;
        }
        Ok(())
    }

    fn add<'s>(
        &mut self,
        alloc: Global,
        names: &BodyNames<'s>,
        statement: &Statement<'_, 's>,
    ) -> Result<(), NoMemory>
        ensures { OnOk result (self.new ≡ spec.with_statement names.now self.old statement.now) }
    {
        if statement.is_label() {
            self.close()?;
            self.place = self.place.at_label();
            self.targets = List::new(alloc);
            Ok(())
        } else {
            self.targets = targets_of(alloc, names, statement)?;
            Ok(())
        }
    }

    /// The open block leads to the targets of its last instruction.
    fn close(&mut self) -> Result<(), NoMemory>
        ensures { OnOk result (self.new ≡ spec.closed self.old) }
    {
        lead_all(
            &mut self.predecessors,
            self.place.block,
            self.targets.as_slice(),
        )
    }
}

fn lead_all(lists: &mut List<List<u32>>, from: u32, targets: &[u32]) -> Result<(), NoMemory>
    ensures { OnOk result (lists.new ≡ spec.with_targets from lists.old targets.now) }
{
    for target in targets {
        lead(lists, from, *target)?;
    }
    Ok(())
}

fn lead(lists: &mut List<List<u32>>, from: u32, target: u32) -> Result<(), NoMemory>
    ensures { OnOk result (lists.new ≡ spec.with_target from lists.old target) }
{
    let place = target as usize;
    if place < lists.items.len() {
        return lead_from(&mut lists.items[place], from);
    }
    Ok(())
}

fn lead_from(list: &mut List<u32>, from: u32) -> Result<(), NoMemory>
    ensures { OnOk result (list.new ≡ spec.and_from from list.old) }
{
    if !ends_with(list.as_slice(), from) {
        list.items.push(from)?;
    }
    Ok(())
}

/// Whether the block is the last one of the list.
fn ends_with(list: &[u32], block: u32) -> bool
    ensures { result ≡ spec.ends_with list.now block }
{
    let len = list.len();
    len > 0 && list[len - 1] == block
}

/// The blocks to which an instruction leads.
fn targets_of<'s>(
    alloc: Global,
    names: &BodyNames<'s>,
    statement: &Statement<'_, 's>,
) -> Result<List<u32>, NoMemory>
    ensures { IfOk result (λ found. found ≡ spec.targets_of names.now statement.now) }
{
    let operation = statement.operation;
    match operation.terminal {
        Terminal::Br | Terminal::Switch => named_blocks(alloc, names, statement.operands),
        _ => Ok(List::new(alloc)),
    }
}

/// The blocks that an instruction's nodes name, in order.
pub fn named_blocks<'s>(
    alloc: Global,
    names: &BodyNames<'s>,
    nodes: &[Node<'s>],
) -> Result<List<u32>, NoMemory>
    ensures { IfOk result (λ found. found ≡ spec.named_blocks names.now nodes.now) }
{
    let mut blocks = Vec::new(alloc);
    for node in nodes {
        if let Some(block) = block_at(names, node) {
            blocks.push(block)?;
        }
    }
    Ok(List { items: blocks })
}

/// The block that a node names, where the grammar takes it as a block's name.
fn block_at<'s>(names: &BodyNames<'s>, node: &Node<'s>) -> Option<u32>
    ensures { result ≡ spec.block_at names.now node.now }
{
    match node.rule {
        Rule::LocalName => block_of(names.role_of(node)),
        _ => None,
    }
}

fn block_of(role: Option<LocalRole>) -> Option<u32>
    ensures { result ≡ spec.block_of role }
{
    match role {
        Some(LocalRole::Block(number)) => Some(number),
        _ => None,
    }
}
