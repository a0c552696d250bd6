//! The phis of a body, each of which wants an edge from each block that leads to its own.

ghost use Rattle.std.specs.Prelude.{◌≡◌, ℕ, IfOk, OnOk};
ghost use Rattle.std.specs.BTreeSet.{contains};
ghost use Rattle.std.specs.Ordering.{nat_cmp};
ghost use Rattle.std.specs.List.{list_any};
ghost use Rattle.ir_items.specs.Statement.{statements_of};
ghost use Rattle.module_check.specs.Phis as spec;
ghost use Rattle.module_check.specs.Shape.{is_phi_by};

use crate::block_place::BlockPlace;
use crate::body_names::begins_with_label;
use crate::predecessors::{named_blocks, predecessors_of};
use crate::shape::is_phi;
use instruction_check::BodyNames;
use ir_items::laws::segments_are_the_nodes;
use ir_items::{Item, Statement, Statements};
use ir_read::{Node, Terminal};
use ir_types::List;
use module_fault::{Cause, Fault, First, unless};
use rc_base::NoMemory;
use std::alloc::Global;
use std::collections::BTreeSet;

/// The phis of a body so far.
#[derive(Drop)]
pub struct Phis {
    predecessors: List<List<u32>>,
    place: BlockPlace,
    first: First,
}

/// The first phi of a body, of so many blocks, that lacks an edge from a block that leads to its own. Other edges may be
/// there besides.
pub fn phi_fault<'s>(
    alloc: Global,
    names: &BodyNames<'s>,
    blocks: usize,
    item: &Item<'_, 's>,
) -> Result<Option<Fault>, NoMemory>
    ensures { IfOk result (λ found. found ≡ spec.phi_fault names.now blocks item.now) }
{
    segments_are_the_nodes();
    let body = item.body();
    if !has_phi(body) {
        return Ok(None);
    }
    phi_fault_in(alloc, names, blocks, body)
}

/// Whether a node of the body is the word of a phi. Most bodies have none, and where they lead is not looked for then.
fn has_phi(body: &[Node<'_>]) -> bool
    ensures { result ≡ list_any (λ node. is_phi_by node.terminal) body.now }
{
    body.iter()
        .any(|node| matches!(node.terminal, Terminal::Phi))
}

fn phi_fault_in<'s>(
    alloc: Global,
    names: &BodyNames<'s>,
    blocks: usize,
    body: &[Node<'s>],
) -> Result<Option<Fault>, NoMemory>
    ensures { IfOk result (λ found. found ≡ (spec.phis_from names.now (spec.no_phis names.now blocks body.now) (statements_of body.now)).first) }
{
    let mut phis = Phis {
        predecessors: predecessors_of(alloc, names, blocks, body)?,
        place: BlockPlace::new(begins_with_label(body)),
        first: First::new(),
    };
    phis.add_all(alloc, names, &mut Statements::new(body))?;
    Ok(phis.first.fault())
}

impl Phis {
    fn add_all<'s>(
        &mut self,
        alloc: Global,
        names: &BodyNames<'s>,
        statements: &mut Statements<'_, 's>,
    ) -> Result<(), NoMemory>
        ensures { OnOk result (self.new ≡ spec.phis_from names.now self.old statements.old) }
    {
        while let Some(statement) = statements.next() {
            self.add(alloc, names, &statement)?;
        }
        Ok(())
    }

    fn add<'s>(
        &mut self,
        alloc: Global,
        names: &BodyNames<'s>,
        statement: &Statement<'_, 's>,
    ) -> Result<(), NoMemory>
        ensures { OnOk result (self.new ≡ spec.with_statement names.now self.old statement.now) }
    {
        if statement.is_label() {
            self.place = self.place.at_label();
            Ok(())
        } else if is_phi(statement) {
            self.add_phi(alloc, names, statement)
        } else {
            Ok(())
        }
    }

    fn add_phi<'s>(
        &mut self,
        alloc: Global,
        names: &BodyNames<'s>,
        statement: &Statement<'_, 's>,
    ) -> Result<(), NoMemory>
        ensures { OnOk result (self.new ≡ spec.with_phi names.now self.old statement.now) }
    {
        let edges = named_blocks(alloc, names, statement.operands)?;
        let lacks = self.lacks(alloc, edges.as_slice())?;
        self.first
            .note(statement.line, unless(!lacks, Cause::BadShape));
        Ok(())
    }

    /// Whether a block leads to the open one from which no edge comes.
    fn lacks(&self, alloc: Global, edges: &[u32]) -> Result<bool, NoMemory>
        ensures { IfOk result (λ found. found ≡ spec.lacks_any (spec.leading self.now) edges.now) }
    {
        match self.predecessors.items.get(self.place.block as usize) {
            Some(blocks) => lacks(alloc, blocks.as_slice(), edges),
            None => Ok(false),
        }
    }
}

/// Whether one of the blocks is none of those of the edges.
fn lacks(alloc: Global, blocks: &[u32], edges: &[u32]) -> Result<bool, NoMemory>
    ensures { IfOk result (λ found. found ≡ spec.lacks blocks.now edges.now) }
{
    let known = set_of(alloc, edges)?;
    for block in blocks {
        if !known.contains(block) {
            return Ok(true);
        }
    }
    Ok(false)
}

fn set_of(alloc: Global, blocks: &[u32]) -> Result<BTreeSet<u32>, NoMemory>
    ensures { IfOk result (λ known. (block : ℕ) → contains nat_cmp known block ≡ spec.has blocks.now block) }
{
    let mut known = BTreeSet::new(alloc);
    for block in blocks {
        known.insert(*block)?;
    }
    Ok(known)
}
