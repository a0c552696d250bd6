//! The shapes of a body's blocks.

ghost use Rattle.std.specs.Prelude.{◌≡◌};
ghost use Rattle.module_check.specs.Shape as spec;

use crate::body_names::begins_with_label;
use ir_items::{Item, Statement, Statements};
use ir_read::Terminal;
use module_fault::{Cause, Fault, First, unless};

/// How far a block has come.
#[derive(Clone, Copy)]
pub enum Phase {
    /// No instruction so far ends it.
    Open,
    /// Its last instruction ends it.
    Ended,
    /// An instruction stands behind one that ends it.
    Broken,
}

/// A body so far: its last block, and the first fault.
#[derive(Drop)]
pub struct Shape {
    /// That of the block's last instruction, or else of its label, or of the function where it has none.
    line: u32,
    phase: Phase,
    /// Whether the block has no instruction but phis.
    at_front: bool,
    first: First,
}

/// The first block of a body that isn't ended by its last instruction, and by no other, or the first phi behind another
/// instruction of its block.
pub fn shape_fault(item: &Item<'_, '_>) -> Option<Fault>
    ensures { result ≡ spec.shape_fault item.now }
{
    let first = item.first;
    let body = item.body();
    let mut shape = Shape::new(first.line, begins_with_label(body));
    shape.add_all(&mut Statements::new(body));
    shape.close();
    shape.first.fault()
}

impl Shape {
    /// A first block without a label, or none.
    fn new(line: u32, is_labelled: bool) -> Shape
        ensures { result ≡ spec.no_statements line is_labelled }
    {
        Shape {
            line,
            phase: first_phase(is_labelled),
            at_front: true,
            first: First::new(),
        }
    }

    fn add_all(&mut self, statements: &mut Statements<'_, '_>)
        ensures { self.new ≡ spec.shape_from self.old statements.old }
    {
        while let Some(statement) = statements.next() {
            self.add(&statement);
        }
    }

    fn add(&mut self, statement: &Statement<'_, '_>)
        ensures { self.new ≡ spec.with_statement self.old statement.now }
    {
        if statement.is_label() {
            self.close();
            self.open(statement.line);
        } else {
            self.add_instruction(statement);
        }
    }

    /// Notes the block's fault, where it isn't whole.
    fn close(&mut self)
        ensures { self.new ≡ spec.closed self.old }
    {
        self.first.note(self.line, phase_cause(self.phase));
    }

    fn open(&mut self, line: u32)
        ensures { self.new ≡ spec.opened self.old line }
    {
        self.line = line;
        self.phase = Phase::Open;
        self.at_front = true;
    }

    fn add_instruction(&mut self, statement: &Statement<'_, '_>)
        ensures { self.new ≡ spec.with_instruction self.old statement.now }
    {
        let is_phi = is_phi(statement);
        self.line = statement.line;
        self.phase = phase_behind(self.phase, ends_block(statement));
        self.first.note(
            statement.line,
            unless(!is_phi || self.at_front, Cause::BadShape),
        );
        self.at_front = self.at_front && is_phi;
    }
}

/// Before a label is nothing that must be ended.
fn first_phase(is_labelled: bool) -> Phase
    ensures { result ≡ spec.first_phase is_labelled }
{
    if is_labelled {
        Phase::Ended
    } else {
        Phase::Open
    }
}

fn phase_behind(phase: Phase, ends: bool) -> Phase
    ensures { result ≡ spec.phase_behind phase ends }
{
    match phase {
        Phase::Open if ends => Phase::Ended,
        Phase::Open => Phase::Open,
        Phase::Ended | Phase::Broken => Phase::Broken,
    }
}

fn phase_cause(phase: Phase) -> Option<Cause>
    ensures { result ≡ spec.phase_cause phase }
{
    match phase {
        Phase::Ended => None,
        Phase::Open | Phase::Broken => Some(Cause::BadShape),
    }
}

/// Whether the instruction ends its block.
fn ends_block(statement: &Statement<'_, '_>) -> bool
    ensures { result ≡ spec.ends_block statement.now }
{
    let operation = statement.operation;
    matches!(
        operation.terminal,
        Terminal::Br | Terminal::Switch | Terminal::Ret | Terminal::Unreachable
    )
}

pub fn is_phi(statement: &Statement<'_, '_>) -> bool
    ensures { result ≡ spec.is_phi statement.now }
{
    let operation = statement.operation;
    matches!(operation.terminal, Terminal::Phi)
}
